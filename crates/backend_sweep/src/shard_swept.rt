//! What the sweep of one shard did.
ghost use Rattle.std.specs.Prelude.{◌≡◌, ◌<◌, [], None, IfOk};
ghost use Rattle.meta_types.specs.Faults.{Refuses};
ghost use Rattle.backend_sweep.specs.Shards.{has};
ghost use Rattle.backend_sweep.specs.Sweep.{put_of};

use crate::number_set::NumberSet;
use crate::outcomes::Outcome;
use meta_types::Fault;
use std::alloc::Global;
use std::marker::Model;

/// The numbers that were removed, those that the device failed, and those that were kept above one
/// that failed: each in the order of the list that was swept.
#[derive(Drop)]
pub struct ShardSwept {
    removed: Vec<u64>,
    failed: NumberSet,
    kept: NumberSet,
    // The parents of what failed or was kept.
    parents: NumberSet,
    room: usize,
}

impl Model for ShardSwept {
    ghost use Rattle.std.specs.Prelude.{◌+◌, ◌≤◌};
    ghost use Rattle.std.specs.Vec.{vec_capacity, vec_len};
    ghost use Rattle.backend_sweep.specs.Sweep.{Swept};

    ghost Value = { Swept };

    ghost view = { λ s. record {
      removed = s.removed.items;
      failed = s.failed.numbers;
      kept = s.kept.numbers;
      parents = s.parents.numbers;
      room = s.room;
    } };

    ghost invariant = { λ s. (vec_len s.removed + s.room ≤ vec_capacity s.removed)
        × (s.room ≤ s.failed.room) × (s.room ≤ s.kept.room) × (s.room ≤ s.parents.room) };
}

impl ShardSwept {
    /// Empty lists, each with room for this number of entries.
    pub fn room(alloc: Global, room: usize) -> Result<ShardSwept, Fault>
        ensures fault { Refuses result None }
        ensures ok { IfOk result (λ s. s
            ≡ record { removed = []; failed = []; kept = []; parents = []; room = room }) }
    {
        let removed = Vec::with_capacity(alloc, room)?;
        let failed = NumberSet::with_room(alloc, room)?;
        let kept = NumberSet::with_room(alloc, room)?;
        let parents = NumberSet::with_room(alloc, room)?;
        Ok(ShardSwept {
            removed,
            failed,
            kept,
            parents,
            room,
        })
    }

    /// Empty lists without room. It takes no memory.
    pub fn none(alloc: Global) -> ShardSwept
        ensures { result
            ≡ record { removed = []; failed = []; kept = []; parents = []; room = 0 } }
    {
        ShardSwept {
            removed: Vec::new(alloc),
            failed: NumberSet::none(alloc),
            kept: NumberSet::none(alloc),
            parents: NumberSet::none(alloc),
            room: 0,
        }
    }

    /// What was removed.
    pub fn removed(&self) -> &[u64]
        ensures { result.now ≡ self.now.removed }
    {
        self.removed.as_slice()
    }

    /// What the device failed.
    pub fn failed(&self) -> &[u64]
        ensures { result.now ≡ self.now.failed }
    {
        self.failed.as_slice()
    }

    /// What wasn't tried, since the removal of a descendant failed.
    pub fn kept(&self) -> &[u64]
        ensures { result.now ≡ self.now.kept }
    {
        self.kept.as_slice()
    }

    // Whether the number's removal failed.
    pub(crate) fn has_failed(&self, number: u64) -> bool
        ensures { result ≡ has self.now.failed number }
    {
        self.failed.has(number)
    }

    // Whether the number was kept.
    pub(crate) fn has_kept(&self, number: u64) -> bool
        ensures { result ≡ has self.now.kept number }
    {
        self.kept.has(number)
    }

    // Whether the number is the parent of one that failed or was kept.
    pub(crate) fn is_parent(&self, number: u64) -> bool
        ensures { result ≡ has self.now.parents number }
    {
        self.parents.has(number)
    }

    // Puts a number into the list that its removal asks for, in the room for it.
    pub(crate) fn put(&mut self, number: u64, parent: Option<u64>, became: Outcome)
        requires { 0 < self.old.room }
        ensures { self.new ≡ put_of self.old number parent became }
    {
        match became {
            Outcome::Removed => self.removed.push_reserved(number),
            Outcome::Failed => self.failed.add(number),
            Outcome::Kept => self.kept.add(number),
        }
        if became != Outcome::Removed {
            if let Some(above) = parent {
                self.parents.add(above);
            }
        }
        self.room -= 1;
    }
}
