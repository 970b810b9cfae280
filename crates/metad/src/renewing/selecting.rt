//! Lets a file count that has a checkpoint.
ghost use Rattle.std.specs.Prelude.{◌≡◌, [], IfOk};

use crate::files::{Counting, Spare, Text, telling};
use crate::names::OwnNames;
use crate::renewing::noting::with_note;
use crate::renewing::writing::Written;
use crate::starting::progress::Progress;
use crate::telling_file::TellingFile;
use journal::{Active, Journal, JournalError, JournalFile, Log, Paged, Standby, WITNESS, select};
use line_loop::RunError;
use sqlite_disk::Disk;

// How a run ends that can't select a file.
fn select_error(error: JournalError) -> RunError {
    match error {
        JournalError::OutOfMemory => RunError::OutOfMemory,
        _ => RunError::LogFailed,
    }
}

// The journal of a file that counts from now on, which its own page tells.
fn mark<D: Disk + Drop>(
    rt: &HostRuntime,
    written: Written<JournalFile<D, Active>>,
) -> Result<Journal<Text<D>>, RunError>
    requires { written.journal.pending.items ≡ [] }
    ensures { IfOk result (λ journal. journal.pending.items ≡ []) }
{
    match with_note(rt.alloc(), written.journal, WITNESS, written.card) {
        Ok(journal) => Ok(journal),
        Err(not) => Err(select_error(not.error)),
    }
}

// The journal of a file, whose name is watched.
fn watched<D: Disk + Drop>(
    rt: &HostRuntime,
    names: OwnNames,
    is_second: bool,
    progress: Progress,
    journal: Journal<Text<D>>,
) -> Counting<D>
    requires { journal.pending.items ≡ [] }
    ensures { result.pending.items ≡ [] }
{
    let last = journal.last;
    Journal {
        log: telling(rt, names, is_second, progress, journal.log),
        last,
        end: journal.end,
        pending: journal.pending,
    }
}

/// Lets the second file count, which has the checkpoint, in place of the first.
#[inline(never)]
pub fn select_second<D: Disk + Drop>(
    rt: &HostRuntime,
    first: Counting<D>,
    second: Written<JournalFile<D, Active>>,
) -> Result<(Counting<D>, Spare<D>), RunError>
    requires { second.journal.pending.items ≡ [] }
    ensures { IfOk result (λ both. both.0.pending.items ≡ []) }
{
    let TellingFile {
        names,
        log,
        progress,
        ..
    } = first.log;
    let mut disk = log.into_log().into_disk();
    match select(&mut disk, true) {
        Ok(()) => {}
        Err(error) => return Err(select_error(error)),
    }
    let journal = mark(rt, second)?;
    Ok((
        watched(rt, names, true, progress, journal),
        Spare::First(disk),
    ))
}

/// Lets the first file count, which has the checkpoint, in place of the second.
#[inline(never)]
pub fn select_first<D: Disk + Drop>(
    rt: &HostRuntime,
    first: Written<JournalFile<D, Standby>>,
    second: Counting<D>,
) -> Result<(Counting<D>, Spare<D>), RunError>
    requires { first.journal.pending.items ≡ [] }
    ensures { IfOk result (λ both. both.0.pending.items ≡ []) }
{
    let Written { journal, card } = first;
    let last = journal.last;
    let mut disk = journal.log.into_log().into_disk();
    match select(&mut disk, false) {
        Ok(()) => {}
        Err(error) => return Err(select_error(error)),
    }
    let log = match JournalFile::<D, Active>::open(rt.alloc(), disk) {
        Ok(log) => log,
        Err(not) => return Err(select_error(not.error)),
    };
    let journal = Journal {
        log: Paged::new(log, true),
        last,
        end: journal.end,
        pending: journal.pending,
    };
    let journal = mark(rt, Written { journal, card })?;
    let TellingFile {
        names,
        log: own,
        progress,
        ..
    } = second.log;
    Ok((
        watched(rt, names, false, progress, journal),
        Spare::Second(own.into_log().into_disk()),
    ))
}
