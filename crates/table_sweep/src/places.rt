//! Where the parents of backend snapshots stand in the backend's list.
ghost use Rattle.std.specs.Prelude.{◌≡◌, ◌≤◌, ◌<◌, ◌+◌, ℕ, true, false, not, map, length, get_or, slice_get, position, Some, None, IfOk, IfSome};
ghost use Rattle.std.specs.List.{list_any};
ghost use Rattle.std.specs.Ordering.{is_lt, is_gt, nat_cmp};
ghost use Rattle.meta_types.specs.Faults.{Refuses};
ghost use Rattle.meta_types.specs.Text.{text_cmp};
ghost use Rattle.table_sweep.specs.Depths.{Listed};
ghost use Rattle.table_sweep.specs.SnapshotPlaces.{has_name, name_of, name_cmp, stands_before, AreListed, parent_place, IsRun, IsRunOf, HasNumber, AreSought, LeadUp};

use crate::depths::BackSnap;
use meta_types::{Fault, ShortName};
use std::alloc::Global;
use std::cmp::Ordering;

// How a snapshot's name compares with another: by snapshotter, then by number.
fn compare(snap: &BackSnap, snapshotter: &ShortName, number: u64) -> Ordering
    ensures { result ≡ name_cmp (name_of snap.now snap.now.1) (snapshotter.now, number) }
{
    snap.0.cmp(snapshotter).then(snap.1.cmp(&number))
}

// Whether each snapshot stands before the next, as backends list them.
fn are_listed(snapshots: &[BackSnap]) -> bool
    ensures { result ≡ true → AreListed snapshots.now }
{
    snapshots.is_sorted_by(
        |a: &BackSnap, b: &BackSnap| -> bool
            ensures { result ≡ stands_before a.now b.now }
        { compare(a, &b.0, b.1).is_lt() },
    )
}

// The place of a name, by halving.
fn halved_place(snapshots: &[BackSnap], snapshotter: &ShortName, number: u64) -> Option<usize>
    requires { AreListed snapshots.now }
    ensures { result ≡ position (has_name (snapshotter.now, number)) snapshots.now }
{
    let found = snapshots.binary_search_by(
        |snap: &BackSnap| -> Ordering
            ensures { result
                ≡ name_cmp (name_of snap.now snap.now.1) (snapshotter.entry.now, number) }
        { compare(snap, snapshotter, number) },
    );
    found.ok()
}

fn is_named(snap: &BackSnap, snapshotter: &ShortName, number: u64) -> bool
    ensures { result ≡ has_name (snapshotter.now, number) snap.now }
{
    snap.0 == *snapshotter && snap.1 == number
}

// The place of the first snapshot with a name, in a list in any order.
fn first_place(snapshots: &[BackSnap], snapshotter: &ShortName, number: u64) -> Option<usize>
    ensures { result ≡ position (has_name (snapshotter.now, number)) snapshots.now }
{
    for (i, snap) in snapshots.iter().enumerate() {
        if is_named(snap, snapshotter, number) {
            return Some(i);
        }
    }
    None
}

// The places of one snapshotter's snapshots: they stand together, by number.
#[derive(Clone, Copy)]
struct ShardRun {
    start: usize,
    end: usize,
}

fn is_before(snap: &BackSnap, snapshotter: &ShortName) -> bool
    ensures { result ≡ is_lt (text_cmp snap.now.0 snapshotter.now) }
{
    snap.0.cmp(snapshotter).is_lt()
}

fn is_not_behind(snap: &BackSnap, snapshotter: &ShortName) -> bool
    ensures { result ≡ not (is_gt (text_cmp snap.now.0 snapshotter.now)) }
{
    !snap.0.cmp(snapshotter).is_gt()
}

// Where a snapshotter's snapshots begin, or would.
fn run_start(snapshots: &[BackSnap], snapshotter: &ShortName) -> usize
    requires { AreListed snapshots.now }
    ensures { (k : ℕ) (d : Listed) → result ≤ k → k < length snapshots.now
        → is_lt (text_cmp (get_or snapshots.now k d).0 snapshotter.now) ≡ false }
{
    snapshots.partition_point(
        |snap: &BackSnap| -> bool
            ensures { result ≡ is_lt (text_cmp snap.now.0 snapshotter.entry.now) }
        { is_before(snap, snapshotter) },
    )
}

// Where they end.
fn run_end(snapshots: &[BackSnap], snapshotter: &ShortName) -> usize
    requires { AreListed snapshots.now }
    ensures end { result ≤ length snapshots.now }
    ensures before { (k : ℕ) (d : Listed) → k < result
        → not (is_gt (text_cmp (get_or snapshots.now k d).0 snapshotter.now)) ≡ true }
{
    snapshots.partition_point(
        |snap: &BackSnap| -> bool
            ensures { result ≡ not (is_gt (text_cmp snap.now.0 snapshotter.entry.now)) }
        { is_not_behind(snap, snapshotter) },
    )
}

fn run_of(snapshots: &[BackSnap], snapshotter: &ShortName) -> ShardRun
    requires { AreListed snapshots.now }
    ensures end { result.end ≤ length snapshots.now }
    ensures run { IsRunOf snapshots.now snapshotter.now result.start result.end }
{
    let start = run_start(snapshots, snapshotter);
    let end = run_end(snapshots, snapshotter);
    ShardRun { start, end }
}

fn is_in(run: ShardRun, place: usize) -> bool
    ensures { result ≡ true → (run.start ≤ place) × (place < run.end) }
{
    run.start <= place && place < run.end
}

// The run of the snapshot at a place. Most are of the last one's.
fn run_at(snapshots: &[BackSnap], last: ShardRun, at: usize) -> ShardRun
    requires listed { AreListed snapshots.now }
    requires at { at < length snapshots.now }
    requires end { last.end ≤ length snapshots.now }
    requires last { IsRun snapshots.now last.start last.end }
    ensures end { result.end ≤ length snapshots.now }
    ensures run { (s : Listed) → slice_get snapshots.now at ≡ Some s
        → IsRunOf snapshots.now s.0 result.start result.end }
{
    if is_in(last, at) {
        return last;
    }
    let snap = &snapshots[at];
    run_of(snapshots, &snap.0)
}

// Whether a place is of the run, and the snapshot there has the number.
fn has_number(snapshots: &[BackSnap], run: ShardRun, place: usize, number: u64) -> bool
    requires { run.end ≤ length snapshots.now }
    ensures { result ≡ true → HasNumber snapshots.now run.start run.end number place }
{
    is_in(run, place) && snapshots[place].1 == number
}

// The part of a run where the parent of the one at `at` can stand: from each snapshot to the next
// numbers rise by one at least.
fn part_of(snapshots: &[BackSnap], run: ShardRun, at: usize, number: u64) -> ShardRun
    requires { run.end ≤ length snapshots.now }
    ensures start { run.start ≤ result.start }
    ensures end { result.end ≤ run.end }
{
    if !is_in(run, at) {
        return run;
    }
    let behind = snapshots[at].1.saturating_sub(number) as usize;
    let before = number.saturating_sub(snapshots[run.start].1) as usize;
    let low = at.saturating_sub(behind);
    let high = run.start.saturating_add(before).saturating_add(1);
    ShardRun {
        start: low.max(run.start),
        end: high.min(run.end),
    }
}

// The place of a number in a run, by halving.
fn place_in(snapshots: &[BackSnap], run: ShardRun, number: u64) -> Option<usize>
    requires { run.end ≤ length snapshots.now }
    ensures { IfSome result (λ place. HasNumber snapshots.now run.start run.end number place) }
{
    let start = run.start.min(run.end);
    let found = snapshots[start..run.end].binary_search_by(
        |snap: &BackSnap| -> Ordering
            ensures { result ≡ nat_cmp snap.now.1 number }
        { snap.1.cmp(&number) },
    );
    match found {
        Ok(at) => Some(start + at),
        Err(_) => None,
    }
}

// The place of a name in a list as backends make it: the place before `at` is tried first, then
// numbers alone are compared. What is in no run is sought by its whole name.
fn listed_place(
    snapshots: &[BackSnap],
    run: ShardRun,
    at: usize,
    snapshotter: &ShortName,
    number: u64,
) -> Option<usize>
    requires listed { AreListed snapshots.now }
    requires end { run.end ≤ length snapshots.now }
    requires run { IsRunOf snapshots.now snapshotter.now run.start run.end }
    ensures { result ≡ position (has_name (snapshotter.now, number)) snapshots.now }
{
    let near = at.saturating_sub(1);
    if has_number(snapshots, run, near, number) {
        return Some(near);
    }
    let part = part_of(snapshots, run, at, number);
    if let Some(place) = place_in(snapshots, part, number) {
        return Some(place);
    }
    halved_place(snapshots, snapshotter, number)
}

// The place of a number of the snapshotter whose snapshot stands at `at`.
fn place(
    snapshots: &[BackSnap],
    listed: bool,
    run: &mut ShardRun,
    at: usize,
    number: u64,
) -> Option<usize>
    requires listed { listed ≡ true → AreListed snapshots.now }
    requires at { at < length snapshots.now }
    requires end { run.old.end ≤ length snapshots.now }
    requires run { IsRun snapshots.now run.old.start run.old.end }
    ensures end { run.new.end ≤ length snapshots.now }
    ensures run { IsRun snapshots.now run.new.start run.new.end }
    ensures place { (s : Listed) → slice_get snapshots.now at ≡ Some s
        → result ≡ position (has_name (name_of s number)) snapshots.now }
{
    let snap = &snapshots[at];
    if !listed {
        return first_place(snapshots, &snap.0, number);
    }
    *run = run_at(snapshots, *run, at);
    listed_place(snapshots, *run, at, &snap.0, number)
}

// The place of the parent of the snapshot at `at`. Many stand behind their parents: so the place
// before is tried first.
fn parent(snapshots: &[BackSnap], listed: bool, run: &mut ShardRun, at: usize) -> Option<usize>
    requires listed { listed ≡ true → AreListed snapshots.now }
    requires at { at < length snapshots.now }
    requires end { run.old.end ≤ length snapshots.now }
    requires run { IsRun snapshots.now run.old.start run.old.end }
    ensures end { run.new.end ≤ length snapshots.now }
    ensures run { IsRun snapshots.now run.new.start run.new.end }
    ensures parent { (s : Listed) → slice_get snapshots.now at ≡ Some s
        → result ≡ parent_place snapshots.now s }
{
    let snap = &snapshots[at];
    match snap.2 {
        Some(number) => place(snapshots, listed, run, at, number),
        None => None,
    }
}

// For each snapshot the place of its parent, where it has one that is listed.
fn all_parents(
    alloc: Global,
    snapshots: &[BackSnap],
    listed: bool,
) -> Result<Vec<Option<usize>>, Fault>
    requires { listed ≡ true → AreListed snapshots.now }
    ensures fault { Refuses result None }
    ensures ok { IfOk result (λ parents. parents.items
        ≡ map (parent_place snapshots.now) snapshots.now) }
{
    let mut run = ShardRun { start: 0, end: 0 };
    let mut parents = Vec::with_capacity(alloc, snapshots.len())?;
    for at in 0..snapshots.len() {
        parents.push(parent(snapshots, listed, &mut run, at))?;
    }
    Ok(parents)
}

fn is_needed(needed: &Vec<bool>, place: usize) -> bool
    requires { place < length needed.now.items }
    ensures { result ≡ get_or needed.now.items place false }
{
    needed[place]
}

// Marks a place as needed. Tells whether it comes too late: from `at` on all have been gone over.
fn mark(needed: &mut Vec<bool>, at: usize, place: usize) -> bool
    requires { place < length needed.old.items }
    ensures count { length needed.new.items ≡ length needed.old.items }
    ensures grows { (k : ℕ) → get_or needed.old.items k false ≡ true
        → get_or needed.new.items k false ≡ true }
    ensures there { get_or needed.new.items place false ≡ true }
    ensures late { result ≡ false → (k : ℕ) → at ≤ k → get_or needed.new.items k false ≡ true
        → get_or needed.old.items k false ≡ true }
{
    if is_needed(needed, place) {
        return false;
    }
    needed[place] = true;
    at <= place
}

// Marks the place of a parent.
fn mark_parent(needed: &mut Vec<bool>, at: usize, parent: Option<usize>) -> bool
    requires { IfSome parent (λ place. place < length needed.old.items) }
    ensures count { length needed.new.items ≡ length needed.old.items }
    ensures grows { (k : ℕ) → get_or needed.old.items k false ≡ true
        → get_or needed.new.items k false ≡ true }
    ensures there { IfSome parent (λ place. get_or needed.new.items place false ≡ true) }
    ensures late { result ≡ false → (k : ℕ) → at ≤ k → get_or needed.new.items k false ≡ true
        → get_or needed.old.items k false ≡ true }
{
    match parent {
        Some(place) => mark(needed, at, place),
        None => false,
    }
}

// Seeks the parent of the snapshot at `at`, if that is needed, and marks it. Tells whether it comes
// too late.
fn seek_parent(
    snapshots: &[BackSnap],
    listed: bool,
    run: &mut ShardRun,
    at: usize,
    parents: &mut Vec<Option<usize>>,
    needed: &mut Vec<bool>,
) -> bool
    requires listed { listed ≡ true → AreListed snapshots.now }
    requires at { at < length snapshots.now }
    requires end { run.old.end ≤ length snapshots.now }
    requires run { IsRun snapshots.now run.old.start run.old.end }
    requires parents { length parents.old.items ≡ length snapshots.now }
    requires needed { length needed.old.items ≡ length snapshots.now }
    ensures end { run.new.end ≤ length snapshots.now }
    ensures run { IsRun snapshots.now run.new.start run.new.end }
    ensures parents { length parents.new.items ≡ length parents.old.items }
    ensures needed { length needed.new.items ≡ length needed.old.items }
    ensures grows { (k : ℕ) → get_or needed.old.items k false ≡ true
        → get_or needed.new.items k false ≡ true }
    ensures sought { result ≡ false
        → AreSought snapshots.now (at + 1) parents.old.items needed.old.items
        → AreSought snapshots.now at parents.new.items needed.new.items }
{
    if !is_needed(needed, at) {
        return false;
    }
    let parent = parent(snapshots, listed, run, at);
    parents[at] = parent;
    mark_parent(needed, at, parent)
}

// From those that go upward the places of parents, where all stand before their children.
fn parents_upward(
    alloc: Global,
    snapshots: &[BackSnap],
    listed: bool,
    goes: &[bool],
) -> Result<Option<Vec<Option<usize>>>, Fault>
    requires listed { listed ≡ true → AreListed snapshots.now }
    requires goes { length goes.now ≡ length snapshots.now }
    ensures fault { Refuses result None }
    ensures count { IfOk result (λ found. IfSome found
        (λ parents. length parents.items ≡ length snapshots.now)) }
    ensures ok { IfOk result (λ found. IfSome found
        (λ parents. LeadUp snapshots.now goes.now parents.items)) }
{
    let mut run = ShardRun { start: 0, end: 0 };
    let mut needed = goes.to_vec(alloc)?;
    let mut parents = Vec::with_capacity(alloc, snapshots.len())?;
    parents.resize(snapshots.len(), None)?;
    for done in 0..snapshots.len() {
        let at = snapshots.len() - 1 - done;
        if seek_parent(snapshots, listed, &mut run, at, &mut parents, &mut needed) {
            return Ok(None);
        }
    }
    Ok(Some(parents))
}

// Whether any goes.
pub(crate) fn has_any(goes: &[bool]) -> bool
    ensures { result ≡ list_any (λ one. one) goes.now }
{
    goes.contains(&true)
}

// The places of parents, such that those that go have as many above them as they have ancestors.
// Where a parent stands behind its child, those of all are sought.
pub(crate) fn parents_of(
    alloc: Global,
    snapshots: &[BackSnap],
    goes: &[bool],
) -> Result<Vec<Option<usize>>, Fault>
    requires { length goes.now ≡ length snapshots.now }
    ensures fault { Refuses result None }
    ensures count { IfOk result (λ parents. length parents.items ≡ length snapshots.now) }
    ensures ok { IfOk result (λ parents. LeadUp snapshots.now goes.now parents.items) }
{
    let listed = has_any(goes) && are_listed(snapshots);
    if let Some(parents) = parents_upward(alloc, snapshots, listed, goes)? {
        return Ok(parents);
    }
    let parents = all_parents(alloc, snapshots, listed)?; // for the prover: opened
    Ok(parents)
}
