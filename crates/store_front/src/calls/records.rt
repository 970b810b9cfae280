//! The records of a store, and how many blobs and shards its backends hold.
ghost use Rattle.std.specs.Prelude.{◌≡◌};

use crate::history_mode::HistoryMode;
use crate::locked::Locked;
use back_model::{BlobBackend, IngestBackend, SnapBackend};
use request_core::Records;
use std::sync::ledger::Ledger;

impl<L: Ledger, S: SnapBackend, B: BlobBackend, I: IngestBackend, K: HistoryMode> Locked<
    L,
    S,
    B,
    I,
    K,
> {
    /// The records of the store.
    pub fn records(&self) -> &Records
        ensures tables { result.now.tables ≡ self.now.store.state.records.tables }
        ensures leases { result.now.leases ≡ self.now.store.state.records.leases }
        ensures next { result.now.next ≡ self.now.store.state.records.next }
        ensures profile { result.now.profile ≡ self.now.store.state.records.profile }
    {
        self.state.records()
    }

    /// How many blobs the backend holds.
    pub fn count_blobs(&self) -> usize {
        self.state.backends.blobs().digests().len()
    }

    /// The number of shards of the backend: each has the snapshots of one snapshotter.
    pub fn count_shards(&self) -> usize {
        self.state.backends.count_shards()
    }
}
