//! The folder of a store: which of its two files counts, what a start finds in both, and what a
//! crash leaves of them.
#![tactic(auto)]

mod blanking;
mod carded;
mod choosing;
mod counting;
mod folder_log;
mod growing;
pub mod laws;
mod leaving;
mod marking;
mod opening;
mod restored;
mod running;
mod serving;
mod spare;
mod steps;
mod switching;
mod taking;
mod watched;
mod witness;

pub use blanking::blank_file;
pub use carded::{Carded, Page};
pub use choosing::{Selection, select_file};
pub use counting::Counting;
pub use folder_log::{Earlier, FolderLog};
pub use leaving::{Witnessed, leave_witness, open_spare};
pub use marking::{NotMarked, mark};
pub use opening::{NotOpened, OpenError, open_folder};
pub use restored::Restored;
pub use running::{Folder, Lines, Ran, Streams, run_folder};
pub use serving::closing::{Ended, Served};
pub use serving::pausing::{Begins, Watcher};
pub use serving::serve_folder;
pub use spare::Spare;
pub use steps::{Lengthened, Tried, keep_length, renew, witness_folder};
pub use switching::{Checkpoint, NotSelected, Taken, select_first, select_second};
pub use taking::{NotTaken, NotWritten, Refusal, Source, take};
pub use watched::{Past, Watched};
pub use witness::put_witness;
