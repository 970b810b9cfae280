//! The rows that own objects of ingests and snapshots, in the order of their numbers.
ghost use Rattle.std.specs.Prelude.{◌≡◌, ◌++◌, ◌∷◌, ◌&&◌, ◌==◌, [], true, false, map, length, bytes_eq, is_err, if◌then◌else◌, OnOk, None, IfOk, IfSome};
ghost use Rattle.std.specs.List.{list_any};
ghost use Rattle.std.specs.List.Sorted.{IsSorted, IsPermutation};
ghost use Rattle.std.specs.Ordering.{nat_cmp};
ghost use Rattle.meta_types.specs.Faults.{Refuses};
ghost use Rattle.object_tables.specs.Calls.{kept};
ghost use Rattle.table_sweep.specs.Owned.{object_of, object_cmp, name_of, is_begun_removed, is_snap_removed};

use crate::depths::BackSnap;
use crate::masks::count_left;
use meta_types::{Fault, IngestRow, SnapRow};
use row_tables::Slices;
use std::alloc::Global;
use std::cmp::Ordering;

fn push_number(row: &IngestRow, stays: bool, numbers: &mut Vec<u64>) -> Result<(), Fault>
    ensures fault { Refuses result None }
    ensures ok { OnOk result (numbers.new.items ≡ numbers.old.items
        ++ (if stays then row.now.number ∷ [] else [])) }
{
    if stays {
        numbers.push(row.number)?;
    }
    Ok(())
}

// Adds the numbers of those in a slice that stay.
fn push_numbers(rows: &[IngestRow], mask: &[bool], numbers: &mut Vec<u64>) -> Result<(), Fault>
    requires { length mask.now ≡ length rows.now }
    ensures fault { Refuses result None }
    ensures ok { OnOk result (numbers.new.items ≡ numbers.old.items
        ++ map (λ row. row.number) (kept mask.now rows.now)) }
{
    for (i, row) in rows.iter().enumerate() {
        push_number(row, mask[i], numbers)?;
    }
    Ok(())
}

// The numbers of the ingests that stay, as these arrived.
fn numbers_of(alloc: Global, rows: &Slices<'_, IngestRow>, mask: &[bool]) -> Result<Vec<u64>, Fault>
    requires { length mask.now ≡ length rows.now }
    ensures fault { Refuses result None }
    ensures ok { IfOk result (λ v. v.items ≡ map (λ row. row.number) (kept mask.now rows.now)) }
{
    let mut numbers = Vec::with_capacity(alloc, count_left(mask))?;
    let mut rest = mask;
    let slices = rows.as_slices();
    for slice in slices {
        let (here, behind) = rest.split_at(slice.len());
        push_numbers(slice, here, &mut numbers)?;
        rest = behind;
    }
    Ok(numbers)
}

// The numbers of the ingests that stay.
pub(crate) fn begun_owners(
    alloc: Global,
    rows: &Slices<'_, IngestRow>,
    mask: &[bool],
) -> Result<Vec<u64>, Fault>
    requires { length mask.now ≡ length rows.now }
    ensures fault { Refuses result None }
    ensures all { IfOk result (λ v. IsPermutation
        (map (λ row. row.number) (kept mask.now rows.now)) v.items) }
    ensures order { IfOk result (λ v. IsSorted nat_cmp v.items) }
{
    let mut numbers = numbers_of(alloc, rows, mask)?;
    numbers.sort_unstable();
    Ok(numbers)
}

// No row among the owners has the number.
pub(crate) fn is_begun_removed(owned: &[u64], number: u64) -> bool
    requires { IsSorted nat_cmp owned.now }
    ensures { result ≡ is_begun_removed owned.now number }
{
    owned.binary_search(&number).is_err()
}

fn push_owner<'a>(row: &'a SnapRow, stays: bool, owners: &mut Vec<&'a SnapRow>) -> Result<(), Fault>
    ensures fault { Refuses result None }
    ensures ok { OnOk result (map (λ owner. owner.now) owners.new.items
        ≡ map (λ owner. owner.now) owners.old.items ++ (if stays then row.now ∷ [] else [])) }
{
    if stays {
        owners.push(row)?;
    }
    Ok(())
}

// Adds the rows in a slice that stay.
fn push_owners<'a>(
    rows: &'a [SnapRow],
    mask: &[bool],
    owners: &mut Vec<&'a SnapRow>,
) -> Result<(), Fault>
    requires { length mask.now ≡ length rows.now }
    ensures fault { Refuses result None }
    ensures ok { OnOk result (map (λ owner. owner.now) owners.new.items
        ≡ map (λ owner. owner.now) owners.old.items ++ kept mask.now rows.now) }
{
    for (i, row) in rows.iter().enumerate() {
        push_owner(row, mask[i], owners)?;
    }
    Ok(())
}

// The rows that stay, as they arrived.
fn owners_of<'a>(
    alloc: Global,
    rows: &Slices<'a, SnapRow>,
    mask: &[bool],
) -> Result<Vec<&'a SnapRow>, Fault>
    requires { length mask.now ≡ length rows.now }
    ensures fault { Refuses result None }
    ensures ok { IfOk result (λ v. map (λ owner. owner.now) v.items ≡ kept mask.now rows.now) }
{
    let mut owners = Vec::with_capacity(alloc, count_left(mask))?;
    let mut rest = mask;
    let slices = rows.as_slices();
    for slice in slices {
        let (here, behind) = rest.split_at(slice.len());
        push_owners(*slice, here, &mut owners)?;
        rest = behind;
    }
    Ok(owners)
}

fn compare(a: &SnapRow, b: &SnapRow) -> Ordering
    ensures { result ≡ object_cmp (object_of a.now) (object_of b.now) }
{
    // The snapshotters are compared where the numbers are equal alone.
    match a.number.cmp(&b.number) {
        Ordering::Less => Ordering::Less,
        Ordering::Equal => a.key.snapshotter.cmp(&b.key.snapshotter),
        Ordering::Greater => Ordering::Greater,
    }
}

// The rows that stay, by number and snapshotter.
pub(crate) fn snapshot_owners<'a>(
    alloc: Global,
    rows: &Slices<'a, SnapRow>,
    mask: &[bool],
) -> Result<Vec<&'a SnapRow>, Fault>
    requires { length mask.now ≡ length rows.now }
    ensures fault { Refuses result None }
    ensures all { IfOk result (λ v. IsPermutation (kept mask.now rows.now)
        (map (λ owner. owner.now) v.items)) }
    ensures order { IfOk result (λ v. IsSorted
        (λ a b. object_cmp (object_of a.now) (object_of b.now)) v.items) }
{
    let mut owners = owners_of(alloc, rows, mask)?;
    owners.sort_unstable_by(|a, b| compare(a, b));
    Ok(owners)
}

fn compare_name(row: &SnapRow, snap: &BackSnap) -> Ordering
    ensures { result ≡ object_cmp (object_of row.now) (name_of snap.now) }
{
    match row.number.cmp(&snap.1) {
        Ordering::Less => Ordering::Less,
        Ordering::Equal => row.key.snapshotter.cmp(&snap.0),
        Ordering::Greater => Ordering::Greater,
    }
}

// The place of the owner that has the snapshot's name, or where one would stand.
fn owner_place(owners: &[&SnapRow], snap: &BackSnap) -> Result<usize, usize>
    requires { IsSorted (λ a b. object_cmp (object_of a.now) (object_of b.now)) owners.now }
    ensures { is_err result ≡ is_snap_removed (map (λ owner. owner.now) owners.now) snap.now }
{
    owners.binary_search_by(
        |row: &&SnapRow| -> Ordering
            ensures { result ≡ object_cmp (object_of row.now.now) (name_of snap.entry.now) }
        { compare_name(row, snap) },
    )
}

fn is_own(row: &SnapRow, snap: &BackSnap) -> bool
    ensures { result
        ≡ (row.now.number == snap.now.1 && bytes_eq row.now.key.snapshotter snap.now.0) }
{
    row.number == snap.1 && row.key.snapshotter == snap.0
}

// Whether the owner at a place has the snapshot's name.
fn owns_at(owners: &[&SnapRow], place: usize, snap: &BackSnap) -> bool
    ensures { result ≡ true → is_snap_removed (map (λ owner. owner.now) owners.now) snap.now
        ≡ false }
{
    match owners.get(place) {
        Some(row) => is_own(row, snap),
        None => false,
    }
}

// How many places are tried for an owner. Numbers are given to all snapshotters in turn, so owners
// of the others stand between.
const TRIES: usize = 4;

// The place of the owner that has the snapshot's name, if it is one of the next.
fn near_owner(owners: &[&SnapRow], next: usize, snap: &BackSnap) -> Option<usize>
    ensures { IfSome result (λ _. is_snap_removed (map (λ owner. owner.now) owners.now) snap.now
        ≡ false) }
{
    for at in next..next.saturating_add(TRIES) {
        if owns_at(owners, at, snap) {
            return Some(at);
        }
    }
    None
}

// No row among the owners has the snapshot's name. Most snapshots are listed as their owners stand:
// so the owners behind the last one that was found are tried first.
fn is_snap_removed(owners: &[&SnapRow], next: &mut usize, snap: &BackSnap) -> bool
    requires { IsSorted (λ a b. object_cmp (object_of a.now) (object_of b.now)) owners.now }
    ensures { result ≡ is_snap_removed (map (λ owner. owner.now) owners.now) snap.now }
{
    if let Some(place) = near_owner(owners, *next, snap) {
        *next = place.saturating_add(1);
        return false;
    }
    match owner_place(owners, snap) {
        Ok(place) => {
            *next = place.saturating_add(1);
            false
        }
        Err(place) => {
            *next = place;
            true
        }
    }
}

// For each snapshot whether it goes: whether no row among the owners has its name.
pub(crate) fn snaps_go(
    alloc: Global,
    owners: &[&SnapRow],
    snapshots: &[BackSnap],
) -> Result<Vec<bool>, Fault>
    requires { IsSorted (λ a b. object_cmp (object_of a.now) (object_of b.now)) owners.now }
    ensures fault { Refuses result None }
    ensures ok { IfOk result (λ goes. goes.items
        ≡ map (is_snap_removed (map (λ owner. owner.now) owners.now)) snapshots.now) }
{
    let mut goes = Vec::with_capacity(alloc, snapshots.len())?;
    let mut next = 0;
    for snap in snapshots {
        goes.push(is_snap_removed(owners, &mut next, snap))?;
    }
    Ok(goes)
}
