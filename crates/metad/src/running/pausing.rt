//! What a service does between two runs: checkpoints and witnesses.
ghost use Rattle.std.specs.Prelude.{◌≡◌, [], IfOk, IfSome, OnOk};

use crate::files::{CountingFile, Files};
use crate::renewing::{keep_length, leave_witness, next_size, renew};
use crate::running::Failure;
use crate::running::teller::Teller;
use journal::STEP;
use kept_store::{StoreService, due_at};
use line_loop::{RunError, Stop};
use scripts::LineStore;
use sqlite_disk::Disk;
use std::sync::Wait;
use std::sync::ledger::Ledger;
use std::thread::Threads;

/// The lengths of a journal behind which a run stops for a checkpoint, and for a witness; and what the
/// last stop came to.
#[derive(Drop)]
pub struct Pauses {
    pub checkpoint: usize,
    pub witness: usize,
    /// The service's work when the run stopped.
    pub work: u128,
    /// A checkpoint was tried, and the service hasn't forgotten its rows yet.
    pub was_tried: bool,
}

// Tries a checkpoint, and tells what became of it. The next one is due by its size; where there is
// none, as if there were one now.
fn try_checkpoint<'a, L: Ledger, T: Threads + Wait + Sync, D: Disk + Drop, N: Teller>(
    threads: &T,
    store: &LineStore<L>,
    pauses: &mut Pauses,
    files: Files<'a, D, CountingFile<D>>,
    teller: &mut N,
) -> Result<Files<'a, D, CountingFile<D>>, Failure<'a, CountingFile<D>>>
    requires { files.log.journal.pending.items ≡ [] }
    ensures { IfOk result (λ files. files.log.journal.pending.items ≡ []) }
{
    let names = files.names;
    let renewed = match renew(threads, store, files) {
        Ok(renewed) => renewed,
        Err(error) => return Err(Failure::Run(names.first, error)),
    };
    // the file that took it counts; one that took none doesn't
    let is_second = renewed.files.spare.is_second() == renewed.why.is_some();
    let path = names.of(is_second);
    let end = renewed.files.log.journal.end;
    teller.renewed(path, end, renewed.why);
    pauses.checkpoint = due_at(next_size(end));
    pauses.was_tried = true;
    Ok(renewed.files)
}

// Leaves a witness in the file that doesn't count, and tells where that failed. The next one is
// left once the journal is so much longer. The code is there once, whatever calls it.
#[inline(never)]
fn leave<'a, D: Disk + Drop, N: Teller>(
    pauses: &mut Pauses,
    files: Files<'a, D, CountingFile<D>>,
    teller: &mut N,
) -> Files<'a, D, CountingFile<D>>
    requires { files.log.journal.pending.items ≡ [] }
    ensures { result.log.journal.pending.items ≡ [] }
{
    let path = files.names.of(files.spare.is_second());
    let (files, is_left) = leave_witness(files);
    if !is_left {
        teller.unwitnessed(path);
    }
    pauses.witness = files.log.journal.end.saturating_add(STEP - 1);
    files
}

// Takes a checkpoint where one is due, and leaves a witness.
#[inline(never)]
fn pause<'a, L: Ledger, T: Threads + Wait + Sync, D: Disk + Drop, N: Teller>(
    threads: &T,
    store: &LineStore<L>,
    pauses: &mut Pauses,
    files: Files<'a, D, CountingFile<D>>,
    teller: &mut N,
) -> Result<Files<'a, D, CountingFile<D>>, Failure<'a, CountingFile<D>>>
    requires { files.log.journal.pending.items ≡ [] }
    ensures { IfOk result (λ files. files.log.journal.pending.items ≡ []) }
{
    let end = files.log.journal.end;
    if end <= pauses.checkpoint && pauses.work <= end as u128 {
        return Ok(leave(pauses, files, teller));
    }
    let files = try_checkpoint(threads, store, pauses, files, teller)?;
    Ok(leave(pauses, files, teller))
}

/// Begins a service: leaves a witness, and takes a checkpoint where one is wanted. The code is there
/// once, whatever service it is for.
#[inline(never)]
pub fn begin_run<'a, L: Ledger, T: Threads + Wait + Sync, D: Disk + Drop, N: Teller>(
    threads: &T,
    store: &LineStore<L>,
    has_checkpoint: bool,
    pauses: &mut Pauses,
    files: Files<'a, D, CountingFile<D>>,
    teller: &mut N,
) -> Result<Files<'a, D, CountingFile<D>>, Failure<'a, CountingFile<D>>>
    requires { files.log.journal.pending.items ≡ [] }
    ensures { IfOk result (λ files. files.log.journal.pending.items ≡ []) }
{
    let files = leave(pauses, files, teller);
    let (files, _has_more) = keep_length(files);
    if !has_checkpoint {
        return Ok(files);
    }
    let files = try_checkpoint(threads, store, pauses, files, teller)?;
    Ok(leave(pauses, files, teller))
}

/// Does what a run stopped for: takes a checkpoint where one is due, and leaves a witness. No files go
/// on from the end of the input. The code is there once, whatever service it is for.
#[inline(never)]
pub fn after_stop<'a, L: Ledger, T: Threads + Wait + Sync, D: Disk + Drop, N: Teller>(
    threads: &T,
    store: &LineStore<L>,
    stopped: Result<Stop, RunError>,
    pauses: &mut Pauses,
    files: Files<'a, D, CountingFile<D>>,
    teller: &mut N,
) -> Result<Option<Files<'a, D, CountingFile<D>>>, Failure<'a, CountingFile<D>>>
    requires { OnOk stopped (files.log.journal.pending.items ≡ []) }
    ensures { IfOk result (λ next. IfSome next (λ files. files.log.journal.pending.items ≡ [])) }
{
    let path = files.names.of(!files.spare.is_second());
    match stopped {
        Ok(Stop::End) => {
            let _ended = leave(pauses, files, teller);
            Ok(None)
        }
        Ok(Stop::CheckpointDue) => {
            let next = pause(threads, store, pauses, files, teller)?;
            Ok(Some(next))
        }
        Err(error) => Err(Failure::Run(path, error)),
    }
}

/// The service forgets its rows once a checkpoint was tried.
pub fn forget_tried<S: StoreService>(service: &mut S, pauses: &mut Pauses) {
    if pauses.was_tried {
        service.forget_rows();
        pauses.was_tried = false;
    }
}
