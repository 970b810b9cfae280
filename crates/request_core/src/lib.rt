//! Requests, and what they do to a store.
#![tactic(auto)]

mod add;
mod dispatch;
pub mod laws;
mod listing;
mod ops;
mod read;
mod refusal;
mod row_parts;
mod showing;
mod state;
mod there;
mod there_fault;
mod unfailing;
mod words;

pub use back_model::{Backends, BlobBackend, IngestBackend, SnapBackend};
pub use lease_book::Leases;
pub use listing::ListedRows;
pub use meta_types::{Removal, Reply, Request};
pub use object_tables::Tables;
pub use state::{Records, State};
pub use there::{Applied, hold_request};
pub use words::takes_words;
