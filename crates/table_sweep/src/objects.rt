//! The backend objects that a collection removes, in the order of a report.
ghost use Rattle.std.specs.Prelude.{◌≡◌, ◌++◌, ◌∷◌, [], map, length, if◌then◌else◌, OnOk, None, IfOk};
ghost use Rattle.std.specs.List.{flat_map};
ghost use Rattle.meta_types.specs.Faults.{Refuses};
ghost use Rattle.meta_types.specs.Backends.{no_objects, removed_objects};
ghost use Rattle.gc_graph.specs.Stored.{records_of};
ghost use Rattle.object_tables.specs.Calls.{kept};
ghost use Rattle.table_sweep.specs.BlobMarks.{AreBlobMarks};
ghost use Rattle.table_sweep.specs.Stays.{FitRows};
ghost use Rattle.table_sweep.specs.Depths.{key_at, key_of};
ghost use Rattle.table_sweep.specs.SnapshotPlaces.{AreDepths};
ghost use Rattle.table_sweep.specs.Owned.{object_of, object_cmp, is_begun_removed, is_snap_removed};
ghost use Rattle.std.specs.List.Sorted.{IsSorted};
ghost use Rattle.std.specs.Ordering.{nat_cmp};
ghost use Rattle.table_sweep.specs.Backed.{lists_of, left_by};

use crate::blobs::removed_blobs;
use crate::depths::{BackSnap, Key, depths_of, in_order, names_of};
use crate::masks::{Masks, count_left};
use crate::owners::{begun_owners, is_begun_removed, snaps_go, snapshot_owners};
use crate::places::has_any;
use gc_graph::StoreRows;
use gc_report::Objects;
use meta_types::{Digest, Fault, SnapRow};
use row_tables::RowTable;
use std::alloc::Global;

/// What the backends hold, borrowed: digests in any order, snapshots and numbers of ingests, as
/// they are listed.
#[derive(Clone, Copy)]
pub struct BackRows<'a> {
    pub blobs: &'a RowTable<Digest, Digest>,
    pub snapshots: &'a [BackSnap],
    pub ingests: &'a [u64],
}

fn push_ingest(owned: &[u64], number: u64, numbers: &mut Vec<u64>) -> Result<(), Fault>
    requires { IsSorted nat_cmp owned.now }
    ensures fault { Refuses result None }
    ensures ok { OnOk result (numbers.new.items ≡ numbers.old.items
        ++ (if is_begun_removed owned.now number then number ∷ [] else [])) }
{
    if is_begun_removed(owned, number) {
        numbers.push(number)?;
    }
    Ok(())
}

// How many ingests go.
fn count_ingests(owned: &[u64], numbers: &[u64]) -> usize
    requires { IsSorted nat_cmp owned.now }
{
    let mut count: usize = 0;
    for number in numbers {
        if is_begun_removed(owned, *number) {
            count = count.saturating_add(1);
        }
    }
    count
}

fn removed_ingests(alloc: Global, owned: &[u64], numbers: &[u64]) -> Result<Vec<u64>, Fault>
    requires { IsSorted nat_cmp owned.now }
    ensures fault { Refuses result None }
    ensures ok { IfOk result (λ v. v.items ≡ flat_map
        (λ number. if is_begun_removed owned.now number then number ∷ [] else []) numbers.now) }
{
    let mut gone = Vec::with_capacity(alloc, count_ingests(owned, numbers))?;
    for number in numbers {
        push_ingest(owned, *number, &mut gone)?;
    }
    Ok(gone)
}

fn push_key(snap: &BackSnap, goes: bool, depth: usize, keys: &mut Vec<Key>) -> Result<(), Fault>
    ensures fault { Refuses result None }
    ensures ok { OnOk result (keys.new.items ≡ keys.old.items
        ++ (if goes then key_at snap.now depth ∷ [] else [])) }
{
    if goes {
        let snapshotter = snap.0.copy()?;
        keys.push(Key {
            snapshotter,
            depth,
            number: snap.1,
        })?;
    }
    Ok(())
}

fn keys_in(
    alloc: Global,
    goes: &[bool],
    snapshots: &[BackSnap],
    depths: &[usize],
) -> Result<Vec<Key>, Fault>
    requires goes { length goes.now ≡ length snapshots.now }
    requires count { length depths.now ≡ length snapshots.now }
    requires depths { AreDepths snapshots.now goes.now depths.now }
    ensures fault { Refuses result None }
    ensures ok { IfOk result (λ v. v.items
        ≡ map (key_of snapshots.now) (kept goes.now snapshots.now)) }
{
    let mut keys = Vec::with_capacity(alloc, count_left(goes))?;
    for (i, snap) in snapshots.iter().enumerate() {
        push_key(snap, goes[i], depths[i], &mut keys)?;
    }
    Ok(keys)
}

// No depth is made where none goes.
fn keys_among(alloc: Global, goes: &[bool], snapshots: &[BackSnap]) -> Result<Vec<Key>, Fault>
    requires { length goes.now ≡ length snapshots.now }
    ensures fault { Refuses result None }
    ensures ok { IfOk result (λ v. v.items
        ≡ map (key_of snapshots.now) (kept goes.now snapshots.now)) }
{
    if !has_any(goes) {
        return Ok(Vec::new(alloc));
    }
    let depths = depths_of(alloc, snapshots, goes)?;
    // For the prover: the result is opened, not passed on.
    let keys = keys_in(alloc, goes, snapshots, &depths)?;
    Ok(keys)
}

fn removed_keys(
    alloc: Global,
    owners: &[&SnapRow],
    snapshots: &[BackSnap],
) -> Result<Vec<Key>, Fault>
    requires { IsSorted (λ a b. object_cmp (object_of a.now) (object_of b.now)) owners.now }
    ensures fault { Refuses result None }
    ensures ok { IfOk result (λ v. v.items ≡ flat_map
        (λ s. if is_snap_removed (map (λ owner. owner.now) owners.now) s then key_of snapshots.now s
        ∷ [] else []) snapshots.now) }
{
    let goes = snaps_go(alloc, owners, snapshots)?;
    // For the prover: the result is opened, not passed on.
    let keys = keys_among(alloc, &goes, snapshots)?;
    Ok(keys)
}

// The objects that no row owns of those that stay, and which blobs stay, by their places.
pub(crate) fn objects_of(
    alloc: Global,
    rows: &StoreRows<'_>,
    masks: &Masks,
    back: &BackRows<'_>,
) -> Result<(Objects, Vec<bool>), Fault>
    requires { FitRows (records_of rows.now).tables (records_of rows.now).leases masks.now }
    ensures fault { Refuses result None }
    ensures ok { IfOk result (λ made. made.0 ≡ removed_objects
        (left_by (records_of rows.now) masks.now) no_objects (lists_of back.now)) }
    ensures blobs { IfOk result (λ made. AreBlobMarks made.0.blobs back.now.blobs.now made.1.items) }
{
    let (blobs, marks) = removed_blobs(alloc, rows.content, &masks.content, back.blobs)?;
    let owned = begun_owners(alloc, rows.ingests, &masks.ingests)?;
    let ingests = removed_ingests(alloc, &owned, back.ingests)?;
    let owners = snapshot_owners(alloc, rows.snapshots, &masks.snapshots)?;
    let keys = removed_keys(alloc, &owners, back.snapshots)?;
    let keys = in_order(keys)?;
    let snapshots = names_of(alloc, &keys)?;
    let objects = Objects {
        blobs,
        ingests,
        snapshots,
    };
    Ok((objects, marks))
}
