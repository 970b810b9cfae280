//! A journal's file, over a disk: its head names the format, and it is written over in place and
//! grows by zeros.

mod blanking;
mod file;
mod format;
mod growing;
mod head;
mod opening;
mod selecting;
mod selector;
mod steps;

pub use blanking::blank;
pub use file::{JournalFile, NotOpen};
pub use format::{put_format, reads_page};
pub(crate) use head::make_zeros;
pub use head::{HEAD, STEP, has_page, is_blank, read_head};
pub use opening::has_head;
pub use selecting::{select, selects};
pub use selector::{Active, Selector, Standby};
