//! Scripts of requests: bytes in, one reply line a request out.
#![tactic(auto)]

mod answering;
mod crew;
pub mod laws;
mod line_answer;
mod line_memory;
mod line_room;
mod line_store;
mod objects;
mod reply_text;
mod requesting;
mod reserve;
mod rows_shown;
mod script;
mod serving;
mod showing;
mod writing;

pub use answering::{answer_line, execute_line};
pub use line_memory::LineMemory;
pub use line_room::adds_nothing;
pub use line_store::rows::work_of;
pub use line_store::{Fresh, LineStore};
pub use reply_text::{Answered, ReplyText};
pub use reserve::{Reserve, Stored, is_listing};
pub use script::{run_script, run_script_with};
pub use writing::write_reply_text;
