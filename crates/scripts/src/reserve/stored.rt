//! How many bytes a collection, a dry run or an explanation takes at most beside what is stored.
ghost use Rattle.std.specs.Prelude.{true};

use crate::reserve::weight::Weight;
use lease_book::{Lease, Leases};
use meta_types::{ContainerRow, ContentRow, ImageRow, SnapRow};
use object_tables::Tables;
use row_tables::Test;
use std::cell::Cell;

/// A collection that has little to do, a listing of a thousand names, and the steps of an
/// explanation. It is no less than what the C library maps for itself, 128 KiB.
pub(crate) const LEAST: usize = 393216;

// What is taken for one of each at most, in bytes: more than a collection was measured to take by a
// fifth, since blocks leave holes, and more than what would go without an image by a tenth. Each
// ingest has an object beside its row.
const NAMESPACE: usize = 128;

const IMAGE: usize = 40;

const CONTAINER: usize = 24;

const CONTENT: usize = 64;

const INGEST: usize = 24;

const SNAPSHOT: usize = 48;

const LEASE: usize = 40;

const BLOB: usize = 144;

const OBJECT: usize = 176;

const SHARD: usize = 1344;

const LABEL: usize = 16;

const RESOURCE: usize = 24;

// No store has as many rows.
const MOST: u128 = 1 << 40;

// The bytes of a number of things of one kind.
fn bytes_for(count: u128, each: usize) -> usize {
    if count > MOST {
        return usize::MAX;
    }
    (count as usize).saturating_mul(each)
}

/// What a collection goes over: rows, the next backend number, and how many blobs and shards there
/// are.
#[derive(Clone, Copy)]
pub struct Stored<'a> {
    pub tables: &'a Tables,
    pub leases: &'a Leases,
    pub next: u64,
    pub blobs: usize,
    pub shards: usize,
}

/// The bytes that a collection takes at most of these rows with one more, of these objects and
/// shards, and of labels and resources beside them.
pub(crate) fn bytes_of(stored: &Stored<'_>, objects: usize, beside: &Weight) -> usize {
    let counts = stored.tables.counts();
    LEAST
        .saturating_add(bytes_for(counts.namespaces, NAMESPACE))
        .saturating_add(bytes_for(counts.images, IMAGE))
        .saturating_add(bytes_for(counts.containers, CONTAINER))
        .saturating_add(bytes_for(counts.content, CONTENT))
        .saturating_add(bytes_for(counts.ingests, INGEST))
        .saturating_add(bytes_for(counts.snapshots, SNAPSHOT))
        .saturating_add(bytes_for(stored.leases.len(), LEASE))
        .saturating_add(stored.blobs.saturating_mul(BLOB))
        .saturating_add(stored.shards.saturating_mul(SHARD))
        .saturating_add(objects.saturating_mul(OBJECT))
        .saturating_add(beside.labels.saturating_mul(LABEL))
        .saturating_add(beside.resources.saturating_mul(RESOURCE))
}

// Counts what rows have; each row passes.
#[derive(Drop)]
struct RowCounter {
    counted: Cell<usize>,
}

impl RowCounter {
    fn new() -> RowCounter {
        RowCounter {
            counted: Cell::new(0),
        }
    }

    fn add(&self, more: usize) {
        self.counted.set(self.counted.get().saturating_add(more));
    }
}

impl Test<ImageRow> for RowCounter {
    ghost passes = { λ _ _. true };

    fn test(&self, row: &ImageRow) -> bool {
        self.add(row.labels.len());
        true
    }
}

impl Test<ContainerRow> for RowCounter {
    ghost passes = { λ _ _. true };

    fn test(&self, row: &ContainerRow) -> bool {
        self.add(row.labels.len());
        true
    }
}

impl Test<ContentRow> for RowCounter {
    ghost passes = { λ _ _. true };

    fn test(&self, row: &ContentRow) -> bool {
        self.add(row.labels.len());
        true
    }
}

impl Test<SnapRow> for RowCounter {
    ghost passes = { λ _ _. true };

    fn test(&self, row: &SnapRow) -> bool {
        self.add(row.labels.len());
        true
    }
}

// Counts the resources of leases; each lease passes.
#[derive(Drop)]
struct Holding {
    counted: Cell<usize>,
}

impl Test<Lease> for Holding {
    ghost passes = { λ _ _. true };

    fn test(&self, row: &Lease) -> bool {
        let more = row.arrived_resources().len();
        self.counted.set(self.counted.get().saturating_add(more));
        true
    }
}

/// How many labels rows have, but those of leases.
pub(crate) fn count_labels(tables: &Tables) -> usize {
    let arrived = tables.arrived();
    let counting = RowCounter::new();
    let _ = arrived.images.all(&counting);
    let _ = arrived.containers.all(&counting);
    let _ = arrived.content.all(&counting);
    let _ = arrived.snapshots.all(&counting);
    counting.counted.get()
}

/// How many resources leases hold. It takes no memory, of which there may be none.
pub(crate) fn count_resources(leases: &Leases) -> usize {
    let holding = Holding {
        counted: Cell::new(0),
    };
    let _ = leases.arrived().all(&holding);
    holding.counted.get()
}
