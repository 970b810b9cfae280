//! Takes a checkpoint between two runs.
ghost use Rattle.std.specs.Prelude.{◌≡◌, IfOk, IfErr};
ghost use Rattle.store_folder.specs.Serves.{Passes, Closes};

use crate::restored::Restored;
use crate::running::{Folder, Lines};
use crate::serving::closing::{Ended, Served, lose};
use crate::serving::pausing::{Begins, Paused, Room, Watcher, keep_room, leave};
use crate::steps::{Tried, renew};
use journal::{Active, JournalFile};
use line_loop::RunError;
use sqlite_disk::Disk;
use std::alloc::Global;
use std::sync::Wait;
use std::thread::Threads;

// Takes a checkpoint, which counts then. Where the selector can't be put, the service ends.
fn renew_once<S: Restored, T: Threads + Wait + Sync, D: Disk + Drop>(
    rt: &T,
    alloc: Global,
    service: &S,
    folder: Folder<JournalFile<D, Active>, D>,
) -> Result<Tried<D, S::Why>, Served<D>>
    ensures ok { IfOk result (λ renewed.
        Passes ⟦<Folder<JournalFile<D, Active>, D> as Lines>⟧.reads
        ⟦<Folder<JournalFile<D, Active>, D> as Lines>⟧.rests
        ⟦<Folder<JournalFile<D, Active>, D> as Lines>⟧.holds (S.makes service.now) folder
        renewed.folder) }
    ensures failed { IfErr result (λ served.
        Closes ⟦<Folder<JournalFile<D, Active>, D> as Lines>⟧.reads
        ⟦<Folder<JournalFile<D, Active>, D> as Lines>⟧.holds (S.makes service.now)
        ⟦<Served<D> as Ended>⟧.reads ⟦<Served<D> as Ended>⟧.may_find folder served) }
    ensures error { IfErr result (λ served. served.ended ≡ Err RunError.LogFailed) }
{
    let renewed = match renew(rt, alloc, service, folder) {
        Ok(renewed) => renewed,
        Err(not) => return Err(lose(not)),
    };
    Ok(renewed)
}

// Takes a checkpoint back into the file that counted before. Where that is refused, the first one
// counts.
fn renew_back<S: Restored, T: Threads + Wait + Sync, D: Disk + Drop, V: Watcher<S::Why>>(
    rt: &T,
    alloc: Global,
    service: &S,
    folder: Folder<JournalFile<D, Active>, D>,
    watcher: &mut V,
) -> Result<Folder<JournalFile<D, Active>, D>, Served<D>>
    requires rests { ⟦<Folder<JournalFile<D, Active>, D> as Lines>⟧.rests folder }
    ensures ok { IfOk result (λ next.
        Passes ⟦<Folder<JournalFile<D, Active>, D> as Lines>⟧.reads
        ⟦<Folder<JournalFile<D, Active>, D> as Lines>⟧.rests
        ⟦<Folder<JournalFile<D, Active>, D> as Lines>⟧.holds (S.makes service.now) folder next) }
    ensures failed { IfErr result (λ served.
        Closes ⟦<Folder<JournalFile<D, Active>, D> as Lines>⟧.reads
        ⟦<Folder<JournalFile<D, Active>, D> as Lines>⟧.holds (S.makes service.now)
        ⟦<Served<D> as Ended>⟧.reads ⟦<Served<D> as Ended>⟧.may_find folder served) }
    ensures error { IfErr result (λ served. served.ended ≡ Err RunError.LogFailed) }
{
    let renewed = match renew_once(rt, alloc, service, folder) {
        Ok(renewed) => renewed,
        Err(served) => return Err(served),
    };
    let room = match keep_room::<D, S::Why, V>(alloc, renewed.folder, watcher) {
        Ok(room) => room,
        Err(served) => return Err(served),
    };
    Ok(room.folder)
}

// Takes a checkpoint, which counts then. Makes the file that counted before as long as the
// checkpoint. If it is longer than the file that counts, on a full disk, another checkpoint goes
// back there.
fn renew_store<S: Restored, T: Threads + Wait + Sync, D: Disk + Drop, V: Watcher<S::Why>>(
    rt: &T,
    alloc: Global,
    service: &S,
    folder: Folder<JournalFile<D, Active>, D>,
    watcher: &mut V,
) -> Result<Tried<D, S::Why>, Served<D>>
    requires rests { ⟦<Folder<JournalFile<D, Active>, D> as Lines>⟧.rests folder }
    ensures ok { IfOk result (λ renewed.
        Passes ⟦<Folder<JournalFile<D, Active>, D> as Lines>⟧.reads
        ⟦<Folder<JournalFile<D, Active>, D> as Lines>⟧.rests
        ⟦<Folder<JournalFile<D, Active>, D> as Lines>⟧.holds (S.makes service.now) folder
        renewed.folder) }
    ensures failed { IfErr result (λ served.
        Closes ⟦<Folder<JournalFile<D, Active>, D> as Lines>⟧.reads
        ⟦<Folder<JournalFile<D, Active>, D> as Lines>⟧.holds (S.makes service.now)
        ⟦<Served<D> as Ended>⟧.reads ⟦<Served<D> as Ended>⟧.may_find folder served) }
    ensures error { IfErr result (λ served. served.ended ≡ Err RunError.LogFailed) }
{
    let renewed = match renew_once(rt, alloc, service, folder) {
        Ok(renewed) => renewed,
        Err(served) => return Err(served),
    };
    if renewed.why.is_some() {
        return Ok(renewed);
    }
    let room = match keep_room::<D, S::Why, V>(alloc, renewed.folder, watcher) {
        Ok(room) => room,
        Err(served) => return Err(served),
    };
    let Room { folder, has_more } = room;
    if !has_more {
        return Ok(Tried { folder, why: None });
    }
    let back = match renew_back(rt, alloc, service, folder, watcher) {
        Ok(back) => back,
        Err(served) => return Err(served),
    };
    Ok(Tried {
        folder: back,
        why: None,
    })
}

// Which file has the checkpoint: the one that counts, or where there is none, the other one, which
// was to take it.
fn tried_in(is_taken: bool, is_second: bool) -> bool {
    is_second == is_taken
}

/// Tries a checkpoint, and tells what became of it. The next one is due by its size; where there is
/// none, as if there were one now.
pub fn try_checkpoint<S: Restored, T: Threads + Wait + Sync, D: Disk + Drop, V: Watcher<S::Why>>(
    rt: &T,
    alloc: Global,
    service: &mut S,
    paused: Paused<D>,
    watcher: &mut V,
) -> Result<Paused<D>, Served<D>>
    requires rests { ⟦<Folder<JournalFile<D, Active>, D> as Lines>⟧.rests paused.folder }
    ensures ok { IfOk result (λ next.
        Passes ⟦<Folder<JournalFile<D, Active>, D> as Lines>⟧.reads
        ⟦<Folder<JournalFile<D, Active>, D> as Lines>⟧.rests
        ⟦<Folder<JournalFile<D, Active>, D> as Lines>⟧.holds (S.makes service.old) paused.folder
        next.folder) }
    ensures failed { IfErr result (λ served.
        Closes ⟦<Folder<JournalFile<D, Active>, D> as Lines>⟧.reads
        ⟦<Folder<JournalFile<D, Active>, D> as Lines>⟧.holds (S.makes service.old)
        ⟦<Served<D> as Ended>⟧.reads ⟦<Served<D> as Ended>⟧.may_find paused.folder served) }
    ensures error { IfErr result (λ served. served.ended ≡ Err RunError.LogFailed) }
    ensures same { service.new ≡ service.old }
{
    let Paused {
        folder,
        witness,
        ..
    } = paused;
    watcher.renewing(!folder.is_second, folder.end);
    let renewed = match renew_store(rt, alloc, &*service, folder, watcher) {
        Ok(renewed) => renewed,
        Err(served) => return Err(served),
    };
    let Tried { folder, why } = renewed;
    let end = folder.end;
    let is_second = tried_in(why.is_none(), folder.is_second);
    service.forget_work();
    watcher.renewed(is_second, end, why);
    let checkpoint = service.due_at(end);
    Ok(Paused {
        folder,
        checkpoint,
        witness,
    })
}

// Whether no checkpoint is due, by how long the journal is, and by what a start has to do.
fn is_early<D: Disk + Drop>(paused: &Paused<D>, work: u128) -> bool {
    let end = paused.folder.end;
    end <= paused.checkpoint && work <= end as u128
}

/// Does what a run stopped for: takes a checkpoint where one is due, and leaves a witness.
pub fn pause<S: Restored, T: Threads + Wait + Sync, D: Disk + Drop, V: Watcher<S::Why>>(
    rt: &T,
    alloc: Global,
    service: &mut S,
    paused: Paused<D>,
    watcher: &mut V,
) -> Result<Paused<D>, Served<D>>
    requires rests { ⟦<Folder<JournalFile<D, Active>, D> as Lines>⟧.rests paused.folder }
    ensures ok { IfOk result (λ next.
        Passes ⟦<Folder<JournalFile<D, Active>, D> as Lines>⟧.reads
        ⟦<Folder<JournalFile<D, Active>, D> as Lines>⟧.rests
        ⟦<Folder<JournalFile<D, Active>, D> as Lines>⟧.holds (S.makes service.old) paused.folder
        next.folder) }
    ensures failed { IfErr result (λ served.
        Closes ⟦<Folder<JournalFile<D, Active>, D> as Lines>⟧.reads
        ⟦<Folder<JournalFile<D, Active>, D> as Lines>⟧.holds (S.makes service.old)
        ⟦<Served<D> as Ended>⟧.reads ⟦<Served<D> as Ended>⟧.may_find paused.folder served) }
    ensures error { IfErr result (λ served. served.ended ≡ Err RunError.LogFailed) }
    ensures same { service.new ≡ service.old }
{
    if is_early(&paused, service.work()) {
        return Ok(leave::<D, S::Why, V>(alloc, paused, watcher));
    }
    let next = match try_checkpoint(rt, alloc, service, paused, watcher) {
        Ok(next) => next,
        Err(served) => return Err(served),
    };
    Ok(leave::<D, S::Why, V>(alloc, next, watcher))
}

/// Begins a service: leaves a witness, and takes a checkpoint where one is wanted.
pub fn begin<S: Restored, T: Threads + Wait + Sync, D: Disk + Drop, V: Watcher<S::Why>>(
    rt: &T,
    alloc: Global,
    service: &mut S,
    begins: Begins<D>,
    watcher: &mut V,
) -> Result<Paused<D>, Served<D>>
    requires rests { ⟦<Folder<JournalFile<D, Active>, D> as Lines>⟧.rests begins.folder }
    ensures ok { IfOk result (λ next.
        Passes ⟦<Folder<JournalFile<D, Active>, D> as Lines>⟧.reads
        ⟦<Folder<JournalFile<D, Active>, D> as Lines>⟧.rests
        ⟦<Folder<JournalFile<D, Active>, D> as Lines>⟧.holds (S.makes service.old) begins.folder
        next.folder) }
    ensures failed { IfErr result (λ served.
        Closes ⟦<Folder<JournalFile<D, Active>, D> as Lines>⟧.reads
        ⟦<Folder<JournalFile<D, Active>, D> as Lines>⟧.holds (S.makes service.old)
        ⟦<Served<D> as Ended>⟧.reads ⟦<Served<D> as Ended>⟧.may_find begins.folder served) }
    ensures error { IfErr result (λ served. served.ended ≡ Err RunError.LogFailed) }
    ensures same { service.new ≡ service.old }
{
    let Begins {
        folder,
        takes_checkpoint,
    } = begins;
    let checkpoint = service.due_at(folder.card.end);
    let first = Paused {
        folder,
        checkpoint,
        witness: 0,
    };
    let Paused {
        folder,
        witness,
        ..
    } = leave::<D, S::Why, V>(alloc, first, watcher);
    let room = match keep_room::<D, S::Why, V>(alloc, folder, watcher) {
        Ok(room) => room,
        Err(served) => return Err(served),
    };
    let paused = Paused {
        folder: room.folder,
        checkpoint,
        witness,
    };
    if !takes_checkpoint {
        return Ok(paused);
    }
    let next = match try_checkpoint(rt, alloc, service, paused, watcher) {
        Ok(next) => next,
        Err(served) => return Err(served),
    };
    Ok(leave::<D, S::Why, V>(alloc, next, watcher))
}
