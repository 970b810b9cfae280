//! Rows of images, containers, content, ingests and snapshots, by namespace.
#![tactic(auto)]

mod arrived;
mod children;
mod containers;
mod content;
mod families;
mod images;
mod ingests;
mod names;
mod parents;
mod parts;
mod snap_lists;
mod snapshots;
mod stored;
mod tables;

pub use arrived::{ArrivedRows, ArrivedTables};
pub use tables::{Counts, Tables};
