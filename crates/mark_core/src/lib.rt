//! A numbered graph: its marking by one thread, its depths, and the mark machine.
#![tactic(auto)]

mod depth;
mod event;
mod found;
mod graph;
mod laws;
mod machine;
mod machine_state;
mod marks;
mod plain;
mod replay_fault;
mod state;
mod steps;
mod target_lists;
mod worker_state;

pub use depth::depths;
pub use event::MarkEvent;
pub use graph::Graph;
pub use laws::{a_run_has_one_answer, roots_are_dealt_in_turn};
pub use machine::{replay, start};
pub use marks::Marks;
pub use plain::mark_plain;
pub use replay_fault::ReplayFault;
pub use state::MarkState;
pub use target_lists::TargetLists;
