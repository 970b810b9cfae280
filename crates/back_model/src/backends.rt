//! The backends of a store: shards of snapshots, blobs and ingests.
ghost use Rattle.std.specs.Prelude.{◌≡◌, ◌+◌, [], map, length, IfOk, OnOk, OnErr, None, true, option_map};
ghost use Rattle.std.specs.List.{list_any};
ghost use Rattle.std.specs.Option.{option_map_or};
ghost use Rattle.meta_types.specs.Backends.{is_named};
ghost use Rattle.meta_types.specs.Faults.{Refuses};
ghost use Rattle.meta_types.specs.Keys.{put_in_order};
ghost use Rattle.meta_types.specs.Changes.{stands_before};
ghost use Rattle.row_tables.specs.Arrived.{one_text, sorted};
ghost use Rattle.std.specs.Borrow.{Lends, sem};
ghost use Rattle.back_model.specs.contracts.backends.Backends.{the_row};
ghost use Rattle.back_model.specs.Answers.{Makes, make_fails};
ghost use Rattle.back_model.specs.Snaps.{is_held, is_parent_held};
ghost use Rattle.back_model.specs.Shown.{AreApart, shard_at, snaps_at, put_shard, shown, back_snap, listed_snap, all_snaps, all_failures, shard_after};

use crate::faults::MakeFault;
use crate::lists::BackLists;
use crate::shards::Shards;
use crate::traits::{BlobBackend, IngestBackend, SnapBackend};
use meta_types::{Fault, ShortName};
use std::alloc::Global;

/// One shard of snapshots a snapshotter, the blobs, and the objects of ingests.
#[derive(Drop)]
pub struct Backends<S: SnapBackend, B: BlobBackend, I: IngestBackend> {
    pub(crate) shards: Shards<S>,
    blobs: B,
    ingests: I,
}

impl<S: SnapBackend, B: BlobBackend, I: IngestBackend> Backends<S, B, I> {
    /// No shard, and these blobs and ingests.
    pub fn new(alloc: Global, blobs: B, ingests: I) -> Backends<S, B, I>
        ensures { result ≡ record { shards = []; blobs = blobs; ingests = ingests } }
    {
        Backends {
            shards: Shards::new(alloc),
            blobs,
            ingests,
        }
    }

    /// The shard of a snapshotter, if one was set or made.
    pub fn shard(&self, snapshotter: &ShortName) -> Option<&S>
        ensures shard { option_map (λ s. shown S.contents S.fails (snapshotter.now, s.now)) result
            ≡ shard_at snapshotter.now self.now.shards }
        ensures order { AreApart self.now.shards }
    {
        self.shards.get(snapshotter)
    }

    /// Puts a shard in the place of the one that the snapshotter has, if it has one.
    pub fn set_shard(
        &mut self,
        alloc: Global,
        snapshotter: ShortName,
        shard: S,
    ) -> Result<(), Fault>
        ensures fault { Refuses result None }
        ensures ok { OnOk result (self.new ≡ record self.old {
          shards = put_shard
              (shown S.contents S.fails (snapshotter, shard)) self.old.shards;
        }) }
        ensures err { OnErr result (self.new ≡ self.old) }
    {
        // The list of the shards has its allocator.
        let _ = alloc;
        self.shards.set(snapshotter, shard)
    }

    /// Makes a snapshot, in a fresh shard where the snapshotter has none.
    pub fn make_snap(
        &mut self,
        alloc: Global,
        snapshotter: &ShortName,
        number: u64,
        parent: Option<u64>,
    ) -> Result<(), MakeFault>
        ensures fault { Makes result (is_held (snaps_at snapshotter.now self.old.shards) number)
            (is_parent_held (snaps_at snapshotter.now self.old.shards) parent) }
        ensures named { Makes result
            (list_any (is_named (snapshotter.now, number)) (all_snaps self.old.shards))
            (option_map_or (λ above. list_any (is_named (snapshotter.now, above))
            (all_snaps self.old.shards)) parent true) }
        ensures ok { OnOk result (self.new.shards ≡ put_shard
            (shard_after result snapshotter.now self.old.shards number parent) self.old.shards) }
        ensures listed { OnOk result (all_snaps self.new.shards ≡ put_in_order stands_before
            (back_snap snapshotter.now (number, parent)) (all_snaps self.old.shards)) }
        ensures err { OnErr result (all_snaps self.new.shards ≡ all_snaps self.old.shards) }
        ensures fails { all_failures self.new.shards
            ≡ all_failures self.old.shards + make_fails result }
        ensures others { (self.new.blobs ≡ self.old.blobs) × (self.new.ingests ≡ self.old.ingests) }
    {
        self.shards.make(alloc, snapshotter, number, parent)
    }

    /// Takes all shards out, by the bytes of their snapshotters.
    pub fn take_shards(&mut self) -> Vec<(ShortName, S)>
        ensures taken { map (shown S.contents S.fails) result.items ≡ self.old.shards }
        ensures order { AreApart self.old.shards }
        ensures none { self.new ≡ record self.old { shards = [] } }
    {
        self.shards.take()
    }

    /// Puts these in the place of all shards.
    pub fn put_shards(&mut self, shards: Vec<(ShortName, S)>)
        requires { AreApart (map (shown S.contents S.fails) shards.items) }
        ensures { self.new
            ≡ record self.old { shards = map (shown S.contents S.fails) shards.items } }
    {
        self.shards.put(shards);
    }

    /// The number of shards, those without a snapshot among them.
    pub fn count_shards(&self) -> usize
        ensures { result ≡ length self.now.shards }
    {
        self.shards.count()
    }

    /// The blobs.
    pub fn blobs(&self) -> &B
        ensures { result.now ≡ self.now.blobs }
    {
        &self.blobs
    }

    /// The blobs, to be changed.
    pub fn blobs_mut(&mut self) -> &mut B
        ensures* writes_back { sem 𝓛 (Lends (the_row S.row B.row I.row S.SnapBackend) B.row
            self.entry result (λ w. record self.old { blobs = w })) }
        ensures value { result.now ≡ self.old.blobs }
    {
        &mut self.blobs
    }

    /// The objects of ingests, to be changed.
    pub fn ingests_mut(&mut self) -> &mut I
        ensures* writes_back { sem 𝓛 (Lends (the_row S.row B.row I.row S.SnapBackend) I.row
            self.entry result (λ w. record self.old { ingests = w })) }
        ensures value { result.now ≡ self.old.ingests }
    {
        &mut self.ingests
    }

    /// The objects of ingests.
    pub fn ingests(&self) -> &I
        ensures { result.now ≡ self.now.ingests }
    {
        &self.ingests
    }

    /// All snapshots, by snapshotter and number, with their parents.
    pub fn snaps(&self, alloc: Global) -> Result<Vec<(ShortName, u64, Option<u64>)>, Fault>
        ensures fault { Refuses result None }
        ensures ok { IfOk result (λ snaps. map listed_snap snaps.items
            ≡ all_snaps self.now.shards) }
    {
        self.shards.snaps(alloc)
    }

    /// A copy of what all backends hold. A shard without snapshots isn't seen.
    pub fn lists(&self, alloc: Global) -> Result<BackLists, Fault>
        ensures fault { Refuses result None }
        ensures blobs { IfOk result (λ lists. sorted one_text lists.blobs
            ≡ B.contents self.now.blobs) }
        ensures snapshots { IfOk result (λ lists. map listed_snap lists.snapshots.items
            ≡ all_snaps self.now.shards) }
        ensures ingests { IfOk result (λ lists. lists.ingests.items ≡ I.contents self.now.ingests) }
    {
        let blobs = self.blobs.digests().copy(alloc)?;
        let snapshots = self.snaps(alloc)?;
        let ingests = self.ingests.numbers(alloc)?;
        Ok(BackLists {
            blobs,
            snapshots,
            ingests,
        })
    }
}
