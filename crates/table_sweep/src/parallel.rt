//! The names and the objects that a collection removes, found beside each other.
ghost use Rattle.std.specs.Prelude.{◌≡◌, None, Ok, IfOk};
ghost use Rattle.meta_types.specs.Backends.{no_objects, removed_objects};
ghost use Rattle.meta_types.specs.Faults.{Refuses};
ghost use Rattle.gc_graph.specs.Stored.{records_of};
ghost use Rattle.table_sweep.specs.Backed.{lists_of, left_by};
ghost use Rattle.table_sweep.specs.BlobMarks.{AreBlobMarks};
ghost use Rattle.table_sweep.specs.InKeyOrder.{names_in_key_order};
ghost use Rattle.table_sweep.specs.Stays.{FitRows, gone_names};

use crate::masks::Masks;
use crate::names::removed_of;
use crate::objects::{BackRows, objects_of};
use gc_graph::StoreRows;
use gc_report::{Objects, Removed};
use meta_types::Fault;
use std::alloc::Global;
use std::thread::{Threads, join};

// From how many rows of content or of snapshots on a second thread is worth its start.
const MANY: usize = 20_000;

/// The threads that make a plan, and how many of them there are.
#[derive(Drop)]
pub struct Team<'c, R> {
    pub rt: &'c R,
    pub alloc: Global,
    pub workers: usize,
}

/// What a collection removes: names of rows, and objects; and which blobs stay, by their places.
#[derive(Drop)]
pub(crate) struct Removals {
    pub(crate) removed: Removed,
    pub(crate) backend: Objects,
    pub(crate) blobs: Vec<bool>,
}

fn are_many(rows: &StoreRows<'_>) -> bool {
    MANY <= rows.content.len() || MANY <= rows.snapshots.len()
}

// The calling thread finds both.
fn removals_in_turn(
    alloc: Global,
    rows: &StoreRows<'_>,
    masks: &Masks,
    back: &BackRows<'_>,
) -> Result<Removals, Fault>
    requires fits { FitRows (records_of rows.now).tables (records_of rows.now).leases masks.now }
    ensures fault { Refuses result None }
    ensures removed { IfOk result (λ gone. gone.removed
        ≡ names_in_key_order (gone_names (records_of rows.now) masks.now)) }
    ensures objects { IfOk result (λ gone. gone.backend ≡ removed_objects
        (left_by (records_of rows.now) masks.now) no_objects (lists_of back.now)) }
    ensures blobs { IfOk result (λ gone. AreBlobMarks gone.backend.blobs back.now.blobs.now
        gone.blobs.items) }
{
    let removed = removed_of(alloc, rows, masks)?;
    let (backend, blobs) = objects_of(alloc, rows, masks, back)?;
    Ok(Removals {
        removed,
        backend,
        blobs,
    })
}

// The names and the objects, where both were found.
fn both(
    names: Result<Removed, Fault>,
    objects: Result<(Objects, Vec<bool>), Fault>,
) -> Result<Removals, Fault>
    requires names { Refuses names None }
    requires objects { Refuses objects None }
    ensures fault { Refuses result None }
    ensures removed { IfOk result (λ gone. names ≡ Ok gone.removed) }
    ensures objects { IfOk result (λ gone. objects ≡ Ok (gone.backend, gone.blobs)) }
{
    match names {
        Ok(removed) => match objects {
            Ok((backend, blobs)) => Ok(Removals {
                removed,
                backend,
                blobs,
            }),
            Err(fault) => Err(fault),
        },
        Err(fault) => Err(fault),
    }
}

// What a thread finds.
trait Finder<T> {
    ghost can_find: { Self → Type 0 };

    ghost finds: { Self → T → Type 0 };

    fn find(&self) -> T
        requires { can_find self.now }
        ensures { finds self.now result };
}

// What two finders find, the first in a thread of its own. Where none can be started the calling
// thread finds both.
fn find_both<A: Send, B, F: Finder<A> + Sync, G: Finder<B>>(
    rt: &impl Threads,
    first: &F,
    second: &G,
) -> (A, B)
    requires first { F.can_find first.now }
    requires second { G.can_find second.now }
    ensures first { F.finds first.now result.0 }
    ensures second { G.finds second.now result.1 }
{
    join(
        rt,
        || -> A
            requires { F.can_find first.now }
            ensures { F.finds first.entry.now result }
        { first.find() },
        || -> B
            requires { G.can_find second.now }
            ensures { G.finds second.entry.now result }
        { second.find() },
    )
}

// Finds the names of the rows that go.
#[derive(Clone, Copy)]
struct NameFinder<'p, 'a> {
    alloc: Global,
    rows: &'p StoreRows<'a>,
    masks: &'p Masks,
}

impl<'p, 'a> Finder<Result<Removed, Fault>> for NameFinder<'p, 'a> {
    ghost can_find = { λ f. FitRows (records_of f.rows.now).tables (records_of f.rows.now).leases
        f.masks.now };

    ghost finds = { λ f found. Refuses found None × IfOk found (λ removed. removed
        ≡ names_in_key_order (gone_names (records_of f.rows.now) f.masks.now)) };

    fn find(&self) -> Result<Removed, Fault> {
        removed_of(self.alloc, self.rows, self.masks)
    }
}

// Finds the objects that go.
#[derive(Clone, Copy)]
struct ObjectFinder<'p, 'a> {
    alloc: Global,
    rows: &'p StoreRows<'a>,
    masks: &'p Masks,
    back: &'p BackRows<'p>,
}

impl<'p, 'a> Finder<Result<(Objects, Vec<bool>), Fault>> for ObjectFinder<'p, 'a> {
    ghost can_find = { λ f. FitRows (records_of f.rows.now).tables (records_of f.rows.now).leases
        f.masks.now };

    ghost finds = { λ f found. Refuses found None
        × IfOk found (λ made. (made.0 ≡ removed_objects
        (left_by (records_of f.rows.now) f.masks.now) no_objects (lists_of f.back.now))
        × AreBlobMarks made.0.blobs f.back.now.blobs.now made.1.items) };

    fn find(&self) -> Result<(Objects, Vec<bool>), Fault> {
        objects_of(self.alloc, self.rows, self.masks, self.back)
    }
}

// Another thread finds the names.
fn removals_in_parallel(
    rt: &impl Threads,
    alloc: Global,
    rows: &StoreRows<'_>,
    masks: &Masks,
    back: &BackRows<'_>,
) -> Result<Removals, Fault>
    requires fits { FitRows (records_of rows.now).tables (records_of rows.now).leases masks.now }
    ensures fault { Refuses result None }
    ensures removed { IfOk result (λ gone. gone.removed
        ≡ names_in_key_order (gone_names (records_of rows.now) masks.now)) }
    ensures objects { IfOk result (λ gone. gone.backend ≡ removed_objects
        (left_by (records_of rows.now) masks.now) no_objects (lists_of back.now)) }
    ensures blobs { IfOk result (λ gone. AreBlobMarks gone.backend.blobs back.now.blobs.now
        gone.blobs.items) }
{
    let names = NameFinder { alloc, rows, masks };
    let objects = ObjectFinder {
        alloc,
        rows,
        masks,
        back,
    };
    let found = find_both(rt, &names, &objects);
    both(found.0, found.1)
}

// What a collection removes. With one worker, or of few rows, the calling thread finds it alone.
pub(crate) fn removals_of<R: Threads + Sync>(
    team: &Team<'_, R>,
    rows: &StoreRows<'_>,
    masks: &Masks,
    back: &BackRows<'_>,
) -> Result<Removals, Fault>
    requires fits { FitRows (records_of rows.now).tables (records_of rows.now).leases masks.now }
    ensures fault { Refuses result None }
    ensures removed { IfOk result (λ gone. gone.removed
        ≡ names_in_key_order (gone_names (records_of rows.now) masks.now)) }
    ensures objects { IfOk result (λ gone. gone.backend ≡ removed_objects
        (left_by (records_of rows.now) masks.now) no_objects (lists_of back.now)) }
    ensures blobs { IfOk result (λ gone. AreBlobMarks gone.backend.blobs back.now.blobs.now
        gone.blobs.items) }
{
    if team.workers == 1 || !are_many(rows) {
        return removals_in_turn(team.alloc, rows, masks, back);
    }
    removals_in_parallel(team.rt, team.alloc, rows, masks, back)
}
