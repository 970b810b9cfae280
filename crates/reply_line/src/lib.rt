//! Writes the exact bytes of a reply.
#![tactic(auto)]

mod blocks;
mod constants;
mod explanation;
mod impact;
mod items;
mod parts;
mod reply;
mod report_blocks;
mod row_room;
mod rows;
mod rows_blocks;
mod shown;
mod writing;

pub use blocks::BLOCK_ROOM;
pub use constants::refusal_text;
pub use explanation::explanation_text;
pub use impact::impact_text;
pub use reply::reply_text;
pub use report_blocks::write_report;
pub use row_room::room_for_rows;
pub use rows_blocks::{write_objects, write_rows};
pub use shown::{shown_row_text, there_text};
pub use writing::write_bytes;
