//! Opens the file of a store that counts, which has a head.
ghost use Rattle.std.specs.Prelude.{◌≡◌, IsTrue, IfOk};
ghost use Rattle.journal.specs.Crashes.{Only};

use crate::finding::FIRST;
use crate::heads::looking::unknown;
use journal::{
    Active, JournalError, JournalFile, Log, Notes, Paged, check, has_head, hides_note, read_page,
    reads_page,
};
use sqlite_disk::Disk;
use std::alloc::Global;

/// A file that counts, what its page says, and whether it has one.
#[derive(Drop)]
pub struct Head<L: Log + Drop> {
    pub log: L,
    pub notes: Notes,
    pub has_page: bool,
}

/// What the page of a file that counts says, if it has one. A file of format 1 in which a note
/// stands where its text begins is damaged: it has a page, and its first line says otherwise.
pub fn read_head<L: Log + Drop>(
    alloc: Global,
    log: L,
    has_page: bool,
) -> Result<Head<L>, JournalError>
    ensures rests { L.rests log → IfOk result (λ head. L.rests head.log) }
{
    let mut log = log;
    let notes = if has_page {
        read_page(alloc, &mut log)?
    } else if hides_note(alloc, &mut log)? {
        return Err(JournalError::Damaged);
    } else {
        unknown().notes
    };
    Ok(Head {
        log,
        notes,
        has_page,
    })
}

/// Opens a file that counts, which has a head.
pub fn open_head<D: Disk + Drop>(
    alloc: Global,
    disk: D,
) -> Result<Head<JournalFile<D, Active>>, JournalError>
    ensures { IfOk result (λ head. ⟦<JournalFile<D, Active> as Log>⟧.rests head.log) }
{
    let mut disk = disk;
    if !has_head(alloc, &mut disk)? {
        return Err(JournalError::DiskFailed);
    }
    let has_page = reads_page(&mut disk)?;
    let log = match JournalFile::<D, Active>::open(alloc, disk) {
        Ok(log) => log,
        Err(not) => return Err(not.error),
    };
    // For the prover: it reads the clause of a result that was opened.
    let head = read_head(alloc, log, has_page)?;
    Ok(head)
}

/// Whether nothing stands behind a page.
pub fn is_empty<L: Log>(alloc: Global, log: &mut L) -> Result<bool, JournalError>
    ensures rests { L.rests log.old → L.rests log.new }
{
    match check(alloc, &FIRST, log) {
        Ok(extent) => Ok(extent.till == 0),
        Err(JournalError::Damaged) => Ok(false),
        Err(error) => Err(error),
    }
}

/// A file with a page but no card, if nothing stands behind that: the making of a store was cut
/// short there.
pub fn take_unmade<L: Log + Drop>(alloc: Global, head: Head<L>) -> Result<Option<L>, JournalError>
    requires { IsTrue (L.is_clean head.log) → Only (L.text head.log) (L.may_leave head.log) }
{
    let mut text = Paged::new(head.log, true);
    if !is_empty(alloc, &mut text)? {
        return Ok(None);
    }
    Ok(Some(text.into_log()))
}
