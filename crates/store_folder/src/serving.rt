//! Serves lines over a folder, through runs, witnesses and checkpoints.
ghost use Rattle.std.specs.Prelude.{[], List, ℕ, Option, true, false, IsTrue, IfOk, IfErr, OnOk};
ghost use Rattle.std.specs.Io.KnownBytes.{IsAtEnd};
ghost use Rattle.line_loop.specs.Runs.{EndsRun, FindsOnly, from, Answers};
ghost use Rattle.store_folder.specs.Folders.{MayTell};
ghost use Rattle.store_folder.specs.Serves.{Restores, Stands, Advances, Finishes};

pub mod closing;
pub mod pausing;
mod renewing;

use crate::restored::Restored;
use crate::running::{Folder, Lines, Ran, Streams, run_folder};
use crate::serving::closing::{Ended, Served, close};
use crate::serving::pausing::{Begins, Paused, Watcher, leave};
use crate::serving::renewing::{begin, pause};
use journal::{Active, JournalFile};
use line_loop::{RunError, Stop};
use sqlite_disk::Disk;
use std::alloc::Global;
use std::io::{Read, Write};
use std::sync::Wait;
use std::thread::Threads;

// Answers lines until the input ends, or until a witness or a checkpoint is due, and does that.
fn go_on<
    S: Restored,
    T: Threads + Wait + Sync,
    D: Disk + Drop,
    R: Read + Drop,
    W: Write + Drop,
    V: Watcher<S::Why>,
>(
    rt: &T,
    alloc: Global,
    service: &mut S,
    paused: Paused<D>,
    streams: &mut Streams<R, W>,
    watcher: &mut V,
) -> Result<Paused<D>, Served<D>>
    requires rests { ⟦<Folder<JournalFile<D, Active>, D> as Lines>⟧.rests paused.folder }
    ensures next { IfOk result (λ next. Advances S.steps S.makes
        ⟦<Folder<JournalFile<D, Active>, D> as Lines>⟧.reads
        ⟦<Folder<JournalFile<D, Active>, D> as Lines>⟧.holds
        (from service.old [] (W.Write.contents streams.old.writer) streams.old.buffers
        (R.Read.remaining streams.old.reader)) paused.folder service.new
        (W.Write.contents streams.new.writer) streams.new.buffers
        (R.Read.remaining streams.new.reader) next.folder) }
    ensures rests { IfOk result (λ next.
        ⟦<Folder<JournalFile<D, Active>, D> as Lines>⟧.rests next.folder) }
    ensures ended { IfErr result (λ served. Finishes S.steps S.makes
        ⟦<Folder<JournalFile<D, Active>, D> as Lines>⟧.reads
        ⟦<Folder<JournalFile<D, Active>, D> as Lines>⟧.holds ⟦<Served<D> as Ended>⟧.reads
        ⟦<Served<D> as Ended>⟧.may_find
        (from service.old [] (W.Write.contents streams.old.writer) streams.old.buffers
        (R.Read.remaining streams.old.reader)) paused.folder served.ended service.new
        (W.Write.contents streams.new.writer) streams.new.buffers
        (R.Read.remaining streams.new.reader) served) }
{
    let Paused {
        folder,
        checkpoint,
        witness,
    } = paused;
    let due_at = checkpoint.min(witness);
    let ran = run_folder(rt, alloc, service, folder, due_at, streams);
    let Ran {
        folder,
        stop,
        is_at_rest,
        ..
    } = ran;
    let stopped = Paused {
        folder,
        checkpoint,
        witness,
    };
    let how = match stop {
        Ok(how) => how,
        Err(error) => return Err(close(stopped.folder, Err(error))),
    };
    match how {
        Stop::End => {
            let last = leave::<D, S::Why, V>(alloc, stopped, watcher);
            return Err(close(last.folder, Ok(())));
        }
        Stop::CheckpointDue => {}
    }
    if !is_at_rest {
        return Err(close(stopped.folder, Err(RunError::LogFailed)));
    }
    let next = match pause(rt, alloc, service, stopped, watcher) {
        Ok(next) => next,
        Err(served) => return Err(served),
    };
    Ok(next)
}

/// Answers the lines of a reader from a service over an opened folder, until the reader ends: runs,
/// and between two runs witnesses and checkpoints, each of which lets the other file count.
///
/// The headline. Whatever is read and whatever fails, whatever a crash leaves of both files at any
/// moment: a start finds lines that make the service after the first lines that were read, in
/// order, and whatever was written are replies to these. Where nothing fails all are answered.
///
/// It ends early where the log fails or memory is refused, the reader fails, or the writer.
pub fn serve_folder<
    S: Restored,
    T: Threads + Wait + Sync,
    D: Disk + Drop,
    R: Read + Drop,
    W: Write + Drop,
    V: Watcher<S::Why>,
>(
    rt: &T,
    alloc: Global,
    service: &mut S,
    begins: Begins<D>,
    streams: &mut Streams<R, W>,
    watcher: &mut V,
) -> Served<D>
    requires rests { ⟦<Folder<JournalFile<D, Active>, D> as Lines>⟧.rests begins.folder }
    ensures end { OnOk result.ended (IsAtEnd (R.Read.remaining streams.new.reader)) }
    ensures serves { IsTrue (D.Disk.is_clean result.first) → IsTrue (D.Disk.is_clean result.second)
        → (kept : List (List ℕ))
        → ⟦<Folder<JournalFile<D, Active>, D> as Lines>⟧.holds begins.folder kept []
        → S.makes service.old kept → (found : Option (List (List ℕ)))
        → MayTell false (D.Disk.may_leave result.first) (D.Disk.may_leave result.second) found
        → Restores S.steps S.makes (from service.old kept (W.Write.contents streams.old.writer)
        streams.old.buffers (R.Read.remaining streams.old.reader))
        (W.Write.contents streams.new.writer) (R.Read.remaining streams.new.reader) found }
    ensures answers { OnOk result.ended (⟦<Served<D> as Ended>⟧.reads result
        → (kept : List (List ℕ)) → S.makes service.old kept
        → ⟦<Folder<JournalFile<D, Active>, D> as Lines>⟧.holds begins.folder kept []
        → Answers S.steps (from service.old kept (W.Write.contents streams.old.writer)
        streams.old.buffers (R.Read.remaining streams.old.reader)) true service.new
        (W.Write.contents streams.new.writer) streams.new.buffers
        (R.Read.remaining streams.new.reader) (λ _ _. Stands (S.makes service.new)
        (λ lines _. FindsOnly lines (⟦<Served<D> as Ended>⟧.may_find result)))) }
    ensures error { IfErr result.ended (EndsRun true) }
{
    let first = match begin(rt, alloc, service, begins, watcher) {
        Ok(first) => first,
        Err(served) => return served,
    };
    let mut paused = first;
    // For the prover: a service makes fewer pauses.
    'serving: for _ in 0..u64::MAX {
        match go_on(rt, alloc, service, paused, streams, watcher) {
            Ok(next) => paused = next,
            Err(served) => return served,
        }
    }
    close(paused.folder, Err(RunError::ReadFailed))
}
