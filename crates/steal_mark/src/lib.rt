//! Marking of a graph by workers that steal from each other.
#![tactic(auto)]

mod finish;
mod shared;
mod start;
mod threads;
mod turn;

pub use finish::gather::gather;
pub use start::markers::marking;
pub use start::roots::Rest;
pub use threads::mark_workers::mark_workers;
pub use turn::marker::Marker;
pub use turn::turn::{Gate, OpenGate, Turn};
