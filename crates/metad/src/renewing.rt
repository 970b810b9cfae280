//! Writes a checkpoint into the file that doesn't count, and lets it count.
ghost use Rattle.std.specs.Prelude.{◌≡◌, [], IfOk};

mod noting;
mod room;
mod selecting;
mod writing;

use crate::files::{CountingFile, CountingLog, Files, Spare, log_of};
use crate::heads::put_witness;
use crate::names::Names;
pub use crate::renewing::noting::{note_of, with_note};
pub use crate::renewing::room::keep_length;
use crate::renewing::selecting::{select_first, select_second};
use crate::renewing::writing::write_into;
use crate::telling::{tell_renewed_after, tell_renewing};
use journal::{Active, JournalError, Log, Note, Standby, first_sum};
use kept_store::CheckpointError;
use line_loop::RunError;
use scripts::LineStore;
use sqlite_disk::Disk;
use std::alloc::Global;
use std::sync::Wait;
use std::sync::ledger::Ledger;
use std::thread::Threads;
use std::time::Instant;

// A file has room for 2,037 MiB. So a larger checkpoint counts as one of this size: four times as
// much has room as well.
const LARGE: usize = 480 << 20;

/// Why there is no checkpoint.
#[derive(Clone, Copy)]
pub enum Why {
    /// The file that was to take it can't be opened.
    Opening(JournalError),
    Taking(CheckpointError),
}

/// Files of which one counts; and why there is no checkpoint, where none was taken.
#[derive(Drop)]
pub struct Renewed<'a, D: Disk + Drop, E: Log + Drop> {
    pub files: Files<'a, D, E>,
    pub why: Option<Why>,
}

/// The size of a last checkpoint by which a run is due for the next one, where the journal goes this
/// far now.
pub fn next_size(end: usize) -> usize {
    end.min(LARGE).max(end / 3)
}

// Files with a checkpoint in the second one, or as they were.
#[inline(never)]
fn renew_second<'a, L: Ledger, D: Disk + Drop, T: Threads + Wait + Sync>(
    threads: &T,
    store: &LineStore<L>,
    rt: &'a HostRuntime,
    names: Names<'a>,
    card: Note,
    log: CountingLog<D>,
    disk: D,
) -> Result<Renewed<'a, D, CountingFile<D>>, RunError>
    requires { log.journal.pending.items ≡ [] }
    ensures { IfOk result (λ renewed. renewed.files.log.journal.pending.items ≡ []) }
{
    let witness = note_of(card, &log.journal);
    match write_into::<L, Active, D, T>(threads, rt.alloc(), store, witness, disk) {
        Ok(next) => {
            let card = next.card;
            let (journal, spare) = select_second(rt, log.journal, next)?;
            Ok(Renewed {
                files: Files {
                    rt,
                    names,
                    card,
                    log: log_of(first_sum(card), journal),
                    spare,
                },
                why: None,
            })
        }
        Err(not) => Ok(Renewed {
            files: Files {
                rt,
                names,
                card,
                log,
                spare: Spare::Second(not.disk),
            },
            why: Some(not.why),
        }),
    }
}

// Files with a checkpoint in the first one, or as they were.
#[inline(never)]
fn renew_first<'a, L: Ledger, D: Disk + Drop, T: Threads + Wait + Sync>(
    threads: &T,
    store: &LineStore<L>,
    rt: &'a HostRuntime,
    names: Names<'a>,
    card: Note,
    log: CountingLog<D>,
    disk: D,
) -> Result<Renewed<'a, D, CountingFile<D>>, RunError>
    requires { log.journal.pending.items ≡ [] }
    ensures { IfOk result (λ renewed. renewed.files.log.journal.pending.items ≡ []) }
{
    let witness = note_of(card, &log.journal);
    match write_into::<L, Standby, D, T>(threads, rt.alloc(), store, witness, disk) {
        Ok(next) => {
            let card = next.card;
            let (journal, spare) = select_first(rt, next, log.journal)?;
            Ok(Renewed {
                files: Files {
                    rt,
                    names,
                    card,
                    log: log_of(first_sum(card), journal),
                    spare,
                },
                why: None,
            })
        }
        Err(not) => Ok(Renewed {
            files: Files {
                rt,
                names,
                card,
                log,
                spare: Spare::First(not.disk),
            },
            why: Some(not.why),
        }),
    }
}

// Puts a witness into a file that doesn't count. Answers whether it is there.
fn put_spare<D: Disk + Drop>(alloc: Global, spare: Spare<D>, note: Note) -> (Spare<D>, bool) {
    match spare {
        Spare::First(disk) => {
            let (disk, put) = put_witness::<D, Standby>(alloc, disk, note);
            (Spare::First(disk), put.is_ok())
        }
        Spare::Second(disk) => {
            let (disk, put) = put_witness::<D, Active>(alloc, disk, note);
            (Spare::Second(disk), put.is_ok())
        }
    }
}

/// Puts a witness of the file that counts into the other one. Answers whether it is there. Where it
/// isn't, the files are as they were.
pub fn leave_witness<'a, D: Disk + Drop>(
    files: Files<'a, D, CountingFile<D>>,
) -> (Files<'a, D, CountingFile<D>>, bool)
    requires { files.log.journal.pending.items ≡ [] }
    ensures { result.0.log.journal.pending.items ≡ [] }
{
    let Files {
        rt,
        names,
        card,
        log,
        spare,
    } = files;
    let note = note_of(card, &log.journal);
    let (spare, is_left) = put_spare(rt.alloc(), spare, note);
    (
        Files {
            rt,
            names,
            card,
            log,
            spare,
        },
        is_left,
    )
}

// Writes a checkpoint into the file that doesn't count, and lets that one count.
fn renew_spare<'a, L: Ledger, D: Disk + Drop, T: Threads + Wait + Sync>(
    threads: &T,
    store: &LineStore<L>,
    files: Files<'a, D, CountingFile<D>>,
) -> Result<Renewed<'a, D, CountingFile<D>>, RunError>
    requires { files.log.journal.pending.items ≡ [] }
    ensures { IfOk result (λ renewed. renewed.files.log.journal.pending.items ≡ []) }
{
    let Files {
        rt,
        names,
        card,
        log,
        spare,
    } = files;
    match spare {
        Spare::First(disk) => renew_first(threads, store, rt, names, card, log, disk),
        Spare::Second(disk) => renew_second(threads, store, rt, names, card, log, disk),
    }
}

// The milliseconds since a moment; none where the clock fails.
fn millis_since(rt: &HostRuntime, moment: Option<Instant>) -> u128 {
    let Some(moment) = moment else {
        return 0;
    };
    match moment.elapsed(rt) {
        Ok(time) => time.as_millis(),
        Err(_) => 0,
    }
}

// Writes a checkpoint back into the file that counted before. Where that is refused, the first one
// counts.
fn renew_back<'a, L: Ledger, D: Disk + Drop, T: Threads + Wait + Sync>(
    threads: &T,
    store: &LineStore<L>,
    files: Files<'a, D, CountingFile<D>>,
) -> Result<Files<'a, D, CountingFile<D>>, RunError>
    requires { files.log.journal.pending.items ≡ [] }
    ensures { IfOk result (λ files. files.log.journal.pending.items ≡ []) }
{
    let renewed = renew_spare(threads, store, files)?;
    let (files, _has_more) = keep_length(renewed.files);
    Ok(files)
}

// Makes the file that counted before as long as the checkpoint. If it is longer than the file that
// counts, on a full disk, another checkpoint goes back there.
#[inline(never)]
fn keep_room<'a, L: Ledger, D: Disk + Drop, T: Threads + Wait + Sync>(
    threads: &T,
    store: &LineStore<L>,
    renewed: Renewed<'a, D, CountingFile<D>>,
) -> Result<Renewed<'a, D, CountingFile<D>>, RunError>
    requires { renewed.files.log.journal.pending.items ≡ [] }
    ensures { IfOk result (λ renewed. renewed.files.log.journal.pending.items ≡ []) }
{
    if renewed.why.is_some() {
        return Ok(renewed);
    }
    let (files, has_more) = keep_length(renewed.files);
    if !has_more {
        return Ok(Renewed { files, why: None });
    }
    let files = renew_back(threads, store, files)?;
    Ok(Renewed { files, why: None })
}

/// Writes a checkpoint into the file that doesn't count, and lets that one count. Tells before it and
/// after it how long clients wait. Where there is no checkpoint, the file that counts goes on. Where
/// the selector can't be put, either file has the store. If the disk is full, the longer of both files
/// counts at the end. The code is there once, whatever service calls it.
#[inline(never)]
pub fn renew<'a, L: Ledger, D: Disk + Drop, T: Threads + Wait + Sync>(
    threads: &T,
    store: &LineStore<L>,
    files: Files<'a, D, CountingFile<D>>,
) -> Result<Renewed<'a, D, CountingFile<D>>, RunError>
    requires { files.log.journal.pending.items ≡ [] }
    ensures { IfOk result (λ renewed. renewed.files.log.journal.pending.items ≡ []) }
{
    let (rt, names) = (files.rt, files.names);
    let path = names.of(files.spare.is_second());
    let end = files.log.journal.end;
    tell_renewing(rt, path, end, files.log.journal.log.progress.renewal(end));
    let began = Instant::now(rt).ok();
    let renewed = renew_spare(threads, store, files)?;
    let renewed = keep_room(threads, store, renewed)?;
    tell_renewed_after(rt, path, millis_since(rt, began));
    Ok(renewed)
}
