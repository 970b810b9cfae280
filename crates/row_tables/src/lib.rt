//! Rows in arrival order, each found by its name, and listed in key order; and the seed of the tables'
//! hashes: who doesn't know it can't pick names that clash.
#![tactic(auto)]

mod arrived_by_namespace;
mod arrived_by_snapshotter;
mod by_namespace;
mod by_snapshotter;
mod listing;
mod named;
mod namespaces;
mod resources;
mod row;
mod row_table;
mod rows;
mod seed;
mod slices;
mod snapshotters;
mod visiting;

pub use arrived_by_namespace::ArrivedByNamespace;
pub use arrived_by_snapshotter::ArrivedBySnapshotter;
pub use by_namespace::ByNamespace;
pub use by_snapshotter::BySnapshotter;
pub use listing::in_key_order;
pub use named::Named;
pub use namespaces::places::PlacesByNamespace;
pub use row::{Change, GroupedRow, NamedRow, RemovedRows, SnapshotterRow, Test};
pub use row_table::RowTable;
pub use seed::Seed;
pub use seed::folded::TableHasher;
pub use slices::Slices;
pub use snapshotters::places::PlacesBySnapshotter;
