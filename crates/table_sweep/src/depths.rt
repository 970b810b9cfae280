//! The order in which backend snapshots are removed: children before their parents.
ghost use Rattle.std.specs.Prelude.{◌≡◌, ◌<◌, ◌≤◌, map, length, slice_get, None, IfOk};
ghost use Rattle.std.specs.List.Sorted.{IsPermutation};
ghost use Rattle.meta_types.specs.Faults.{Refuses};
ghost use Rattle.meta_types.specs.Keys.{in_order};
ghost use Rattle.table_sweep.specs.Depths.{is_first, key_cmp, key_name};
ghost use Rattle.table_sweep.specs.SnapshotPlaces.{parent_from, deep, depths_to, AreDepths};

use crate::places::parents_of;
use meta_types::{Fault, ShortName};
use std::alloc::Global;
use std::cmp::Ordering;

/// A backend snapshot: its snapshotter, its number, and the number of its parent.
pub type BackSnap = (ShortName, u64, Option<u64>);

// The sort key of a removed snapshot. Its depth is the number of its ancestors.
#[derive(Drop)]
pub(crate) struct Key {
    pub(crate) snapshotter: ShortName,
    pub(crate) depth: usize,
    pub(crate) number: u64,
}

fn parent_at(parents: &[Option<usize>], place: usize) -> Option<usize>
    ensures { result ≡ parent_from parents.now place }
{
    match parents.get(place) {
        Some(parent) => *parent,
        None => None,
    }
}

fn known_at(depths: &[usize], place: usize) -> Option<usize>
    ensures { result ≡ slice_get depths.now place }
{
    depths.get(place).copied()
}

// How many ancestors there are of a place, the depths of all places before it being known. Where
// parents are listed before their children it is one step.
fn depth_at(parents: &[Option<usize>], depths: &[usize], place: usize) -> usize
    requires { depths.now ≡ depths_to parents.now place }
    ensures { result ≡ deep (length parents.now) parents.now place }
{
    let most = parents.len();
    let mut at = place;
    for depth in 0..most {
        if let Some(known) = known_at(depths, at) {
            return depth + known.min(most - depth);
        }
        match parent_at(parents, at) {
            Some(parent) => at = parent,
            None => return depth,
        }
    }
    most
}

// How many ancestors there are of each place.
fn depths_in(alloc: Global, parents: &[Option<usize>]) -> Result<Vec<usize>, Fault>
    ensures fault { Refuses result None }
    ensures ok { IfOk result (λ depths. depths.items ≡ depths_to parents.now (length parents.now)) }
{
    let mut depths = Vec::with_capacity(alloc, parents.len())?;
    for place in 0..parents.len() {
        let depth = depth_at(parents, &depths, place);
        depths.push(depth)?;
    }
    Ok(depths)
}

// How many ancestors each snapshot has that goes; parents are followed at most as often as there
// are snapshots.
pub(crate) fn depths_of(
    alloc: Global,
    snapshots: &[BackSnap],
    goes: &[bool],
) -> Result<Vec<usize>, Fault>
    requires { length goes.now ≡ length snapshots.now }
    ensures fault { Refuses result None }
    ensures count { IfOk result (λ depths. length depths.items ≡ length snapshots.now) }
    ensures ok { IfOk result (λ depths. AreDepths snapshots.now goes.now depths.items) }
{
    let parents = parents_of(alloc, snapshots, goes)?;
    // For the prover: the result is opened, not passed on.
    let depths = depths_in(alloc, &parents)?;
    Ok(depths)
}

// How two snapshots compare: by snapshotter, the deepest first, then by number.
fn compare(a: &Key, b: &Key) -> Ordering
    ensures { result ≡ key_cmp a.now b.now }
{
    a.snapshotter
        .cmp(&b.snapshotter)
        .then(b.depth.cmp(&a.depth))
        .then(a.number.cmp(&b.number))
}

// How two snapshots of one snapshotter compare.
fn compare_beside(a: &Key, b: &Key) -> Ordering {
    b.depth.cmp(&a.depth).then(a.number.cmp(&b.number))
}

// Sorts those from `start` up to `end`, which are of one snapshotter.
fn sort_run(keys: &mut [Key], start: usize, end: usize)
    requires start { start ≤ end }
    requires end { end ≤ length keys.old }
    ensures { IsPermutation keys.old keys.new }
{
    keys[start..end].sort_unstable_by(|a, b| compare_beside(a, b));
}

fn is_one_run(keys: &[Key], start: usize, at: usize) -> bool
    requires start { start < length keys.now }
    requires at { at < length keys.now }
{
    keys[start].snapshotter == keys[at].snapshotter
}

// Sorts those from `start` up to `at` where another snapshotter begins there, and tells where the
// snapshotter begins that stands at `at`.
fn sort_before(keys: &mut [Key], start: usize, at: usize) -> usize
    requires start { start ≤ at }
    requires at { at < length keys.old }
    ensures keys { IsPermutation keys.old keys.new }
    ensures start { result ≤ at }
{
    if is_one_run(keys, start, at) {
        return start;
    }
    sort_run(keys, start, at);
    at
}

// Each snapshotter's in order. Backends list a snapshotter's snapshots together: so then all are in
// order.
fn sort_each(keys: &mut [Key])
    ensures { IsPermutation keys.old keys.new }
{
    let mut start = 0;
    for at in 0..keys.len() {
        start = sort_before(keys, start, at);
    }
    let end = keys.len();
    sort_run(keys, start, end);
}

fn in_runs(keys: Vec<Key>) -> Vec<Key>
    ensures { IsPermutation keys.items result.items }
{
    let mut keys = keys;
    sort_each(&mut keys);
    keys
}

// The snapshots by snapshotter, then the deepest first, then by number.
pub(crate) fn in_order(keys: Vec<Key>) -> Result<Vec<Key>, Fault>
    ensures fault { Refuses result None }
    ensures ok { IfOk result (λ v. v.items ≡ in_order is_first keys.items) }
{
    let mut keys = in_runs(keys);
    keys.sort_unstable_by(|a, b| compare(a, b));
    Ok(keys)
}

// Their names.
pub(crate) fn names_of(alloc: Global, keys: &[Key]) -> Result<Vec<(ShortName, u64)>, Fault>
    ensures fault { Refuses result None }
    ensures ok { IfOk result (λ names. names.items ≡ map key_name keys.now) }
{
    let mut names = Vec::with_capacity(alloc, keys.len())?;
    for key in keys {
        names.push((key.snapshotter.copy()?, key.number))?;
    }
    Ok(names)
}
