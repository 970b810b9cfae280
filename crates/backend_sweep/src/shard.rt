//! The sweep of one shard, children before their parents.
ghost use Rattle.std.specs.Prelude.{◌≡◌, ℕ, false};
ghost use Rattle.back_model.specs.Answers.{NeverFails};
ghost use Rattle.backend_sweep.specs.Shards.{IsHeld, IsChild};
ghost use Rattle.backend_sweep.specs.Sweep.{Tries, Sweeps, Childfirst, IsRoomFor, Leaves};
ghost use Rattle.backend_sweep.specs.ShardOutcomes.{all_gone};

use crate::gate::SweepGate;
use crate::outcomes::Outcome;
use crate::shard_swept::ShardSwept;
use back_model::{RemoveFault, SnapBackend};

// Removes a snapshot, unless a child of it is left.
fn try_remove<S: SnapBackend, H: SweepGate>(
    snapshotter: &str,
    shard: &mut S,
    number: u64,
    is_above: bool,
    gate: &H,
) -> Outcome
    requires held { IsHeld (S.contents shard.old) number }
    requires children { is_above ≡ false → (c : ℕ) → ¬ (IsChild (S.contents shard.old) number c) }
    ensures { Tries result is_above number (S.contents shard.old) (S.contents shard.new)
        (S.fails shard.old) (S.fails shard.new) }
{
    if is_above {
        return Outcome::Kept;
    }
    gate.before_remove(snapshotter, number);
    match shard.remove(number) {
        Ok(()) => Outcome::Removed,
        Err(RemoveFault::Device) => Outcome::Failed,
        Err(RemoveFault::Missing) => unreachable!(),
        Err(RemoveFault::HasChildren) => unreachable!(),
    }
}

/// Removes the snapshots of a list, in its order: children before their parents. What the device
/// fails stays, and the ancestors of that aren't tried.
pub fn sweep_shard<S: SnapBackend, H: SweepGate>(
    snapshotter: &str,
    shard: &mut S,
    list: &[u64],
    into: ShardSwept,
    gate: &H,
) -> ShardSwept
    requires list { Childfirst list.now (S.contents shard.old) }
    requires into { IsRoomFor list.now into }
    ensures leaves { Leaves list.now (S.contents shard.old) (S.contents shard.new) result.failed }
    ensures sweeps { Sweeps list.now (S.contents shard.old) (S.contents shard.new)
        (S.fails shard.old) (S.fails shard.new) result }
{
    let mut swept = into;
    for number in list {
        let parent = shard.parent(*number);
        let is_above = swept.is_parent(*number);
        let became = try_remove(snapshotter, shard, *number, is_above, gate);
        swept.put(*number, parent, became);
    }
    swept
}

/// Removes the snapshots of a list, in its order, where no device of the kind ever fails: all go. It
/// takes no memory.
pub(crate) fn sweep_whole<S: SnapBackend, H: SweepGate>(
    snapshotter: &str,
    shard: &mut S,
    list: &[u64],
    gate: &H,
)
    requires never { NeverFails S.fails }
    requires list { Childfirst list.now (S.contents shard.old) }
    ensures { Sweeps list.now (S.contents shard.old) (S.contents shard.new) (S.fails shard.old)
        (S.fails shard.new) (all_gone list.now) }
{
    for number in list {
        let _ = try_remove(snapshotter, shard, *number, false, gate);
    }
}
