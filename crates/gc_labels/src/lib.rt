//! What labels say to the collector, and moments as texts.
#![tactic(auto)]

mod dates;
mod digits;
mod ends;
mod instants;
mod keys;

pub use ends::Expiry;
pub use instants::read_instant;
pub use keys::{content_ref, expiry, is_expired, is_flat, is_root, is_unreadable, snapshot_ref};
