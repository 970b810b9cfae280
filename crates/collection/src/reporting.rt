//! The report of a collection, from that of its dry run: names are dealt by what became of their
//! objects, in room that is made before. Where no device ever fails all of them went, and no name
//! is moved.
ghost use Rattle.std.specs.Prelude.{◌≡◌, ◌≤◌, [], length, None, IfOk, false};
ghost use Rattle.std.specs.Vec.{vec_capacity};
ghost use Rattle.meta_types.specs.Faults.{Refuses};
ghost use Rattle.backend_sweep.specs.ObjectOutcomes.{AreOutcomesOf, names_with, was_removed, has_failed, removed_of, failed_of};
ghost use Rattle.back_model.specs.Answers.{NeverFails};
ghost use Rattle.collection.specs.Rooms.{IsRoomFor, HasRoomFor, AreRoomsFor, CanTell};
ghost use Rattle.collection.specs.Whole.{reported};

use back_model::{BlobBackend, IngestBackend, SnapBackend};
use backend_sweep::{Outcome, Outcomes};
use gc_report::{Objects, Report};
use meta_types::{Digest, Fault, ShortName};
use std::alloc::Global;
use std::mem::drop;
use table_sweep::Plan;

/// Room for names that are removed, and for such as fail.
#[derive(Drop)]
pub(crate) struct Room<T: Drop> {
    pub(crate) removed: Vec<T>,
    pub(crate) failed: Vec<T>,
}

impl<T: Drop> Room<T> {
    // For so many names.
    fn of(alloc: Global, count: usize) -> Result<Room<T>, Fault>
        ensures fault { Refuses result None }
        ensures removed { IfOk result (λ room. (room.removed.items ≡ [])
            × (count ≤ vec_capacity room.removed)) }
        ensures failed { IfOk result (λ room. (room.failed.items ≡ [])
            × (count ≤ vec_capacity room.failed)) }
    {
        Ok(Room {
            removed: Vec::with_capacity(alloc, count)?,
            failed: Vec::with_capacity(alloc, count)?,
        })
    }
}

// Moves each name into the list of its outcome, and drops what was kept.
fn split_into<T: Drop>(
    names: Vec<T>,
    outcomes: &[Outcome],
    removed: &mut Vec<T>,
    failed: &mut Vec<T>,
)
    requires outcomes { length outcomes.now ≡ length names.items }
    requires removed { (removed.old.items ≡ []) × (length names.items ≤ vec_capacity removed.old) }
    requires failed { (failed.old.items ≡ []) × (length names.items ≤ vec_capacity failed.old) }
    ensures removed { removed.new.items ≡ names_with was_removed names.items outcomes.now }
    ensures failed { failed.new.items ≡ names_with has_failed names.items outcomes.now }
{
    let mut i = 0;
    for name in names {
        let outcome = outcomes[i];
        i += 1;
        match outcome {
            Outcome::Removed => removed.push_reserved(name),
            Outcome::Failed => failed.push_reserved(name),
            // For the prover: dropped by a call, not in place at the end of the round.
            Outcome::Kept => drop(name),
        }
    }
}

// What was removed of these names, and what failed. It takes no memory.
fn split<T: Drop>(names: Vec<T>, outcomes: &[Outcome], room: Room<T>) -> (Vec<T>, Vec<T>)
    requires outcomes { length outcomes.now ≡ length names.items }
    requires room { IsRoomFor names.items room }
    ensures removed { result.0.items ≡ names_with was_removed names.items outcomes.now }
    ensures failed { result.1.items ≡ names_with has_failed names.items outcomes.now }
{
    let Room {
        mut removed,
        mut failed,
    } = room;
    split_into(names, outcomes, &mut removed, &mut failed);
    (removed, failed)
}

/// Room for the objects of a report.
#[derive(Drop)]
pub(crate) struct Rooms {
    pub(crate) blobs: Room<Digest>,
    pub(crate) ingests: Room<u64>,
    pub(crate) snapshots: Room<(ShortName, u64)>,
}

/// Whether a device of these kinds may fail.
pub(crate) fn may_fail<S: SnapBackend, B: BlobBackend, I: IngestBackend>() -> bool
    ensures snapshots { result ≡ false → NeverFails S.fails }
    ensures blobs { result ≡ false → NeverFails B.fails }
    ensures ingests { result ≡ false → NeverFails I.fails }
{
    if S::never_fails() {
        if B::never_fails() {
            if I::never_fails() {
                return false;
            }
        }
    }
    true
}

/// Room for what the plan names, where a device may fail.
pub(crate) fn rooms_of(alloc: Global, plan: &Plan, may_fail: bool) -> Result<Option<Rooms>, Fault>
    ensures fault { Refuses result None }
    ensures ok { IfOk result (AreRoomsFor may_fail plan.now.report.backend) }
{
    if !may_fail {
        return Ok(None);
    }
    let rooms = Rooms::of(alloc, plan)?;
    Ok(Some(rooms))
}

impl Rooms {
    // For what the plan names.
    fn of(alloc: Global, plan: &Plan) -> Result<Rooms, Fault>
        ensures fault { Refuses result None }
        ensures ok { IfOk result (HasRoomFor plan.now.report.backend) }
    {
        let blobs = Room::of(alloc, plan.report.backend.blobs.len())?;
        let ingests = Room::of(alloc, plan.report.backend.ingests.len())?;
        let snapshots = Room::of(alloc, plan.report.backend.snapshots.len())?;
        Ok(Rooms {
            blobs,
            ingests,
            snapshots,
        })
    }
}

// The objects that were removed, and those that failed. It takes no memory.
fn split_objects(names: Objects, outcomes: &Outcomes, rooms: Rooms) -> (Objects, Objects)
    requires outcomes { AreOutcomesOf names outcomes.now }
    requires room { HasRoomFor names rooms }
    ensures removed { result.0 ≡ removed_of names outcomes.now }
    ensures failed { result.1 ≡ failed_of names outcomes.now }
{
    let Objects {
        blobs,
        ingests,
        snapshots,
    } = names;
    let Rooms {
        blobs: blobs_room,
        ingests: ingests_room,
        snapshots: snapshots_room,
    } = rooms;
    let (blobs, failed_blobs) = split(blobs, &outcomes.blobs, blobs_room);
    let (ingests, failed_ingests) = split(ingests, &outcomes.ingests, ingests_room);
    let (snapshots, failed_snapshots) = split(snapshots, &outcomes.snapshots, snapshots_room);
    let removed = Objects {
        blobs,
        ingests,
        snapshots,
    };
    let failed = Objects {
        blobs: failed_blobs,
        ingests: failed_ingests,
        snapshots: failed_snapshots,
    };
    (removed, failed)
}

// What the plan names went, and nothing failed, where there is no room for names; else they are
// dealt. It takes no memory.
fn removed_and_failed(
    names: Objects,
    outcomes: &Outcomes,
    rooms: Option<Rooms>,
) -> (Objects, Objects)
    requires outcomes { AreOutcomesOf names outcomes.now }
    requires room { CanTell names outcomes.now rooms }
    ensures removed { result.0 ≡ removed_of names outcomes.now }
    ensures failed { result.1 ≡ failed_of names outcomes.now }
{
    let Some(rooms) = rooms else {
        let none = Objects::new(*names.blobs.allocator());
        return (names, none);
    };
    let (removed, failed) = split_objects(names, outcomes, rooms);
    (removed, failed)
}

/// The report of a collection: that of its dry run, with the objects that were removed and those
/// that failed. It takes no memory.
pub(crate) fn report(planned: Report, outcomes: &Outcomes, rooms: Option<Rooms>) -> Report
    requires outcomes { AreOutcomesOf planned.backend outcomes.now }
    requires room { CanTell planned.backend outcomes.now rooms }
    ensures { result ≡ reported planned outcomes.now }
{
    let Report {
        backend: names,
        dry: _,
        failed: _,
        ignored,
        ignored_images,
        kept,
        profile,
        removed,
        scanned,
    } = planned;
    let (backend, failed) = removed_and_failed(names, outcomes, rooms);
    Report {
        backend,
        dry: false,
        failed,
        ignored,
        ignored_images,
        kept,
        profile,
        removed,
        scanned,
    }
}
