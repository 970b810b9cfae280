//! The rows of a store, lent for its graph, and the tables in which they are found.

mod listed;
pub(crate) mod near;
pub(crate) mod places;

use lease_book::Lease;
pub use listed::ListedRows;
use meta_types::{ContainerRow, ContentRow, Digest, ImageRow, IngestRow, Name, SnapRow};
use row_tables::{PlacesByNamespace, PlacesBySnapshotter, Slices};

/// The rows of a store, borrowed: each kind as its rows arrived. Of the last three the tables' own
/// slices are lent.
#[derive(Clone, Copy)]
pub struct StoreRows<'a> {
    pub images: &'a [&'a ImageRow],
    pub containers: &'a [&'a ContainerRow],
    pub leases: &'a [&'a Lease],
    pub ingests: &'a Slices<'a, IngestRow>,
    pub content: &'a Slices<'a, ContentRow>,
    pub snapshots: &'a Slices<'a, SnapRow>,
    /// The places of the rows of the last three, found by their keys.
    pub places: RowPlaces<'a>,
    /// 2 where images expire, else 1.
    pub profile: u8,
}

/// The places of the rows that have numbers: a row's place is the same here and in its slices.
#[derive(Clone, Copy)]
pub struct RowPlaces<'a> {
    pub ingests: &'a PlacesByNamespace<'a, Name, IngestRow>,
    pub content: &'a PlacesByNamespace<'a, Digest, ContentRow>,
    pub snapshots: &'a PlacesBySnapshotter<'a, Name, SnapRow>,
}
