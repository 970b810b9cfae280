//! Reads what a line asks for.
#![tactic(auto)]

mod check;
mod collection_ops;
mod command;
mod container_ops;
mod content_ops;
mod image_ops;
mod lease_ops;
mod line;
mod members;
mod namespace_ops;
mod op;
mod plain;
mod question_ops;
mod snapshot_ops;

pub use command::Command;
pub use line::read_line;
pub use op::{Op, OpForm};
