//! A store whose logged lines stand in a journal.
#![tactic(auto)]

mod draft;
mod due;
mod error;
mod grouping;
mod keeping;
pub mod laws;
mod loading;
mod numbers;
mod opening;
mod replaying;
mod run;
mod taking;

pub use due::due_at;
pub use error::{CheckpointError, NotTaken, StartError};
pub use keeping::{BlankFile, keep};
pub use loading::{LoadError, Loaded, NotLoaded, load};
pub use opening::{Opened, open};
pub use run::clocked::{Clock, ClockLimit, Clocked, ClockedReply};
pub use run::run_store;
pub use run::service::StoreService;
pub use taking::take_checkpoint;
