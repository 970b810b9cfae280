//! Answers the lines of a reader, one after the other, over a log: a line is answered, the lines of
//! a block that may have changed the service are committed, and only then their replies are written.
#![tactic(auto)]

mod block;
mod buffers;
mod ending;
pub mod laws;
mod line;
mod lines;
mod logs;
mod mode;
mod replying;
mod run;
mod service;
mod settling;
mod waiting;
mod writing;

pub use buffers::RunBuffers;
pub use ending::{RunError, Stop};
pub use logs::journal_log::JournalLog;
pub use logs::line_log::LineLog;
pub use logs::no_log::NoLog;
pub use mode::Mode;
pub use run::run_lines;
pub use service::numbered::{Numbered, NumberedReply};
pub use service::{Answered, Service};
pub use writing::write_bytes;
