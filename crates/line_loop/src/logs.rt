//! The logs that a run may have.

pub mod journal_log;
pub mod line_log;
pub mod no_log;
