//! Writes a checkpoint into the file that doesn't count.
ghost use Rattle.std.specs.Prelude.{◌≡◌, [], IsTrue, IfOk};
ghost use Rattle.kept_store.specs.Checkpoints.{IsBlank, Makes};

use crate::renewing::Why;
use crate::renewing::noting::{note_of, with_note};
use journal::{
    CARD, Journal, JournalError, JournalFile, Log, Note, Paged, Selector, first_sum, has_head,
    make_anew, put_format, reads_page,
};
use kept_store::{CheckpointError, NotTaken, take_checkpoint};
use scripts::LineStore;
use sqlite_disk::Disk;
use std::alloc::Global;
use std::marker::Brand;
use std::sync::Wait;
use std::sync::ledger::{Blank, Ledger};
use std::thread::Threads;

/// Why a file took no checkpoint, and its disk.
#[derive(Drop)]
pub struct NotWritten<D: Disk + Drop> {
    pub why: Why,
    pub disk: D,
}

// What a journal's error is for a checkpoint.
fn taking_error(error: JournalError) -> CheckpointError {
    match error {
        JournalError::OutOfMemory => CheckpointError::OutOfMemory,
        JournalError::CannotGrow => CheckpointError::Full,
        _ => CheckpointError::DiskFailed,
    }
}

// A file of format 2, or one without a head, which gets one of format 2.
fn make_new<D: Disk>(alloc: Global, disk: &mut D) -> Result<(), JournalError> {
    if !has_head(alloc, disk)? {
        return Ok(());
    }
    if reads_page(disk)? {
        return Ok(());
    }
    put_format(disk)
}

// The next file's card, without its end.
fn next_card(card: Note) -> Option<Note> {
    match card.generation.checked_add(1) {
        Some(generation) => Some(Note { generation, ..card }),
        None => None,
    }
}

// Takes a checkpoint into a blank file.
fn take_over<L: Ledger, E: Log + Drop, T: Threads + Wait + Sync>(
    threads: &T,
    alloc: Global,
    first: &[u8; 64],
    store: &LineStore<L>,
    log: E,
) -> Result<Journal<E>, NotTaken<E>>
    requires blank { IsTrue (E.is_clean log) → IsBlank (E.text log) (E.may_leave log) }
    ensures ok { IfOk result (λ journal. IsTrue (E.is_clean journal.log)
        → Makes first.now (E.text journal.log) (E.may_leave journal.log) journal.last
        journal.end store.now) }
    ensures empty { IfOk result (λ journal. journal.pending.items ≡ []) }
{
    let parts = Blank::new(65536);
    take_checkpoint::<L, Brand, E, T>(threads, alloc, parts, first, store, log)
}

/// A journal with a checkpoint, and its card.
#[derive(Drop)]
pub struct Written<E: Log + Drop> {
    pub journal: Journal<Paged<E>>,
    pub card: Note,
}

/// Takes a checkpoint into a file that doesn't count, and that has this selector, and puts its card
/// there. It has a line, since a second file without one counts as missing.
#[inline(never)]
pub fn write_into<L: Ledger, C: Selector, D: Disk + Drop, T: Threads + Wait + Sync>(
    threads: &T,
    alloc: Global,
    store: &LineStore<L>,
    witness: Note,
    disk: D,
) -> Result<Written<JournalFile<D, C>>, NotWritten<D>>
    ensures empty { IfOk result (λ written. written.journal.pending.items ≡ []) }
{
    let mut disk = disk;
    match make_new(alloc, &mut disk) {
        Ok(()) => {}
        Err(error) => {
            return Err(NotWritten {
                why: Why::Opening(error),
                disk,
            });
        }
    }
    match JournalFile::<D, C>::open(alloc, disk) {
        Ok(log) => write_anew(threads, alloc, store, witness, log),
        Err(not) => Err(NotWritten {
            why: Why::Opening(not.error),
            disk: not.disk,
        }),
    }
}

// Takes a checkpoint into a file that was just opened, whatever stands there.
#[inline(never)]
fn write_anew<L: Ledger, C: Selector, D: Disk + Drop, T: Threads + Wait + Sync>(
    threads: &T,
    alloc: Global,
    store: &LineStore<L>,
    witness: Note,
    log: JournalFile<D, C>,
) -> Result<Written<JournalFile<D, C>>, NotWritten<D>>
    ensures empty { IfOk result (λ written. written.journal.pending.items ≡ []) }
{
    let Some(card) = next_card(witness) else {
        return Err(NotWritten {
            why: Why::Taking(CheckpointError::Full),
            disk: log.into_disk(),
        });
    };
    let text = match make_anew(alloc, log, witness) {
        Ok(text) => text,
        Err(not) => {
            return Err(NotWritten {
                why: Why::Taking(taking_error(not.error)),
                disk: not.log.into_disk(),
            });
        }
    };
    let journal = match take_over(threads, alloc, &first_sum(card), store, text) {
        Ok(journal) => journal,
        Err(not) => {
            return Err(NotWritten {
                why: Why::Taking(not.error),
                disk: not.log.into_log().into_disk(),
            });
        }
    };
    if journal.end == 0 {
        return Err(NotWritten {
            why: Why::Taking(CheckpointError::Differs),
            disk: journal.log.into_log().into_disk(),
        });
    }
    let card = note_of(card, &journal);
    match with_note(alloc, journal, CARD, card) {
        Ok(journal) => Ok(Written { journal, card }),
        Err(not) => Err(NotWritten {
            why: Why::Taking(taking_error(not.error)),
            disk: not.log.into_disk(),
        }),
    }
}
