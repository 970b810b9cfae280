//! What becomes of the numbers of one shard.
ghost use Rattle.std.specs.Prelude.{◌≡◌, ℕ, List, None, IfOk};
ghost use Rattle.meta_types.specs.Faults.{Refuses};
ghost use Rattle.backend_sweep.specs.Shards.{has};
ghost use Rattle.backend_sweep.specs.Sweep.{Childfirst, IsRoomFor, Sweeps};
ghost use Rattle.backend_sweep.specs.ShardOutcomes.{FitsDevice, none_gone, swept_of};

use crate::gate::SweepGate;
use crate::shard::{sweep_shard, sweep_whole};
use crate::shard_swept::ShardSwept;
use back_model::SnapBackend;
use meta_types::Fault;
use std::alloc::Global;

/// What becomes of the numbers of a list: of each, or of all alike, which takes no memory.
#[derive(Drop)]
pub(crate) enum ShardOutcome {
    /// Of each number, where a device may fail.
    Each(ShardSwept),
    /// Whether all went, where no device of the kind ever fails.
    Whole(bool),
}

impl ShardOutcome {
    /// Nothing was swept of the list yet. There is room to tell of each number where a device may
    /// fail.
    pub(crate) fn room<S: SnapBackend>(alloc: Global, list: &[u64]) -> Result<ShardOutcome, Fault>
        ensures fault { Refuses result None }
        ensures none { IfOk result (λ outcome. swept_of list.now outcome ≡ none_gone list.now) }
        ensures may { IfOk result (FitsDevice S.fails) }
    {
        if S::never_fails() {
            return Ok(ShardOutcome::Whole(false));
        }
        let swept = ShardSwept::room(alloc, list.len())?;
        Ok(ShardOutcome::Each(swept))
    }

    /// Sweeps a list of a shard, and tells what became of it. It takes no memory.
    pub(crate) fn sweep<S: SnapBackend, H: SweepGate>(
        self,
        snapshotter: &str,
        shard: &mut S,
        list: &[u64],
        gate: &H,
    ) -> ShardOutcome
        requires may { FitsDevice S.fails self }
        requires list { Childfirst list.now (S.contents shard.old) }
        requires into { IsRoomFor list.now (swept_of list.now self) }
        ensures may { FitsDevice S.fails result }
        ensures sweeps { Sweeps list.now (S.contents shard.old) (S.contents shard.new)
            (S.fails shard.old) (S.fails shard.new) (swept_of list.now result) }
    {
        match self {
            ShardOutcome::Each(into) => {
                ShardOutcome::Each(sweep_shard(snapshotter, shard, list, into, gate))
            }
            ShardOutcome::Whole(_) => {
                sweep_whole(snapshotter, shard, list, gate);
                ShardOutcome::Whole(true)
            }
        }
    }

    // Whether the number's removal failed.
    pub(crate) fn has_failed(&self, number: u64) -> bool
        ensures { (list : List ℕ) → result ≡ has (swept_of list self.now).failed number }
    {
        match self {
            ShardOutcome::Each(swept) => swept.has_failed(number),
            ShardOutcome::Whole(_) => false,
        }
    }

    // Whether the number was kept.
    pub(crate) fn has_kept(&self, number: u64) -> bool
        ensures { (list : List ℕ) → result ≡ has (swept_of list self.now).kept number }
    {
        match self {
            ShardOutcome::Each(swept) => swept.has_kept(number),
            ShardOutcome::Whole(_) => false,
        }
    }
}
