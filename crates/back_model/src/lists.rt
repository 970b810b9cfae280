//! What all backends hold, as lists.
ghost use Rattle.std.specs.Prelude.{◌≡◌, ◌++◌, map, OnOk, None};
ghost use Rattle.meta_types.specs.Faults.{Refuses};
ghost use Rattle.back_model.specs.Shown.{shown, snaps_in, listed_snap};

use crate::traits::SnapBackend;
use meta_types::{Digest, Fault, ShortName};
use row_tables::RowTable;
use std::alloc::Global;

/// All objects of the backends: digests in any order, snapshots by snapshotter and number with
/// their parents, and numbers of ingests.
#[derive(Drop)]
pub struct BackLists {
    pub blobs: RowTable<Digest, Digest>,
    pub snapshots: Vec<(ShortName, u64, Option<u64>)>,
    pub ingests: Vec<u64>,
}

// Makes room for more snapshots: for just these, but at least an eighth of what is listed, so that
// many small shards don't move the list each.
fn make_room(into: &mut Vec<(ShortName, u64, Option<u64>)>, more: usize) -> Result<(), Fault>
    ensures fault { Refuses result None }
    ensures ok { OnOk result (into.new.items ≡ into.old.items) }
{
    if into.capacity().saturating_sub(into.len()) < more {
        into.reserve_exact(more.max(into.len() / 8))?;
    }
    Ok(())
}

// Lists the snapshots of one shard behind the others.
pub(crate) fn push_snaps<S: SnapBackend>(
    alloc: Global,
    snapshotter: &ShortName,
    shard: &S,
    into: &mut Vec<(ShortName, u64, Option<u64>)>,
) -> Result<(), Fault>
    ensures fault { Refuses result None }
    ensures ok { OnOk result (map listed_snap into.new.items ≡ map listed_snap into.old.items
        ++ snaps_in (shown S.contents S.fails (snapshotter.now, shard.now))) }
{
    let list = shard.list(alloc)?;
    make_room(into, list.len())?;
    for snap in &list {
        into.push((snapshotter.copy()?, snap.0, snap.1))?;
    }
    Ok(())
}
