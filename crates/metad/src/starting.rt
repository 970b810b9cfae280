//! Starts: which file counts, whether its lines are as wanted, how far a start is; and a store that
//! is made, of lines or without any.

pub mod beginning;
pub mod loading;
pub mod making;
pub mod progress;
pub mod selecting;
