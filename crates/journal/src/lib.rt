//! A journal of accepted lines: groups of lines, each on the disk before it is acknowledged, with
//! the sum of all that stands before its end. The module `journal_file` is its file over a disk.
#![tactic(auto)]

mod error;
mod journal;
mod journal_file;
pub mod laws;
mod line_head;
mod lines;
mod log;
mod page;
mod reader;
mod reading;
mod recovery;
mod rereading;
mod sum;

pub use error::JournalError;
pub use journal::Journal;
pub use journal_file::{
    Active, HEAD, JournalFile, NotOpen, STEP, Selector, Standby, blank, has_head, has_page,
    is_blank, put_format, read_head, reads_page, select, selects,
};
pub use lines::{cut_line, is_commit};
pub use log::Log;
pub use page::{
    Bond, CARD, NOTE, NotBlank, Note, Notes, PAGE, Paged, WITNESS, bond_of, finds, first_sum,
    hides_note, identity_of, make_anew, make_page, note_bytes, put_note, read_note, read_page,
};
pub use reader::{Reader, Sound};
pub use reading::{Extent, check, has_group};
pub use recovery::recover;
pub use rereading::read_lines;
pub use sum::sum_of;
