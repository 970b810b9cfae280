//! A store as a script, and whether two stores are one.
#![tactic(auto)]

mod next_number;
mod same;
mod script;

pub use next_number::raise_next;
pub use same::is_same;
pub use script::line::Lines;
pub use script::write_checkpoint;
