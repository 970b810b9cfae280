//! Lets a file count that has a checkpoint.
ghost use Rattle.std.specs.Prelude.{◌≡◌, [], List, ℕ, true, false, IsTrue, IfOk, IfErr};
ghost use Rattle.line_loop.specs.Runs.{FindsEither};
ghost use Rattle.store_folder.specs.Folders.{MayTell};

use crate::counting::Counting;
use crate::running::{Folder, Lines};
use crate::spare::Spare;
use journal::{Active, JournalError, JournalFile, Log, Note, Selector, Standby, first_sum, select};
use sqlite_disk::Disk;
use std::alloc::Global;

/// A folder whose file that doesn't count has a checkpoint.
#[derive(Drop)]
pub struct Taken<E: Counting + Drop, D: Disk + Drop, C: Selector> {
    pub folder: Folder<E, Spare<D, C>>,
    /// What the page of the checkpoint's file says of it.
    pub card: Note,
}

/// What a file with a checkpoint has.
pub trait Checkpoint {
    /// These lines stand in it.
    ghost has: { Self → List (List ℕ) → Type 0 };
}

impl<E: Counting + Drop, D: Disk + Drop, C: Selector> Checkpoint for Taken<E, D, C> {
    ghost use Rattle.journal.specs.Head.{believed, Texts};
    ghost use Rattle.store_folder.specs.Takings.{HasCheckpoint};

    ghost has = { λ t. HasCheckpoint t.folder.card t.card
        (⟦<Spare<D, C> as Disk>⟧.is_clean t.folder.spare)
        (believed (D.Disk.seen t.folder.spare.file.disk))
        (Texts (D.Disk.may_leave t.folder.spare.file.disk)) };
}

/// Both files of a folder, of which the selector couldn't be put, and why.
#[derive(Drop)]
pub struct NotSelected<D: Disk + Drop> {
    pub error: JournalError,
    pub first: D,
    pub second: D,
}

/// Lets the second file count, which has the checkpoint, in place of the first. A crash at any
/// moment leaves the lines that were found, or those of the checkpoint.
pub fn select_second<D: Disk + Drop>(
    taken: Taken<JournalFile<D, Active>, D, Active>,
) -> Result<Folder<JournalFile<D, Active>, D>, NotSelected<D>>
    ensures ok { IfOk result (λ folder. IsTrue (D.Disk.is_clean folder.spare)
        → (kept more : List (List ℕ))
        → ⟦<Folder<JournalFile<D, Active>, Spare<D, Active>> as Lines>⟧.holds taken.folder kept []
        → ⟦<Taken<JournalFile<D, Active>, D, Active> as Checkpoint>⟧.has taken more
        → ⟦<Folder<JournalFile<D, Active>, D> as Lines>⟧.holds folder more []) }
    ensures failed { IfErr result (λ not. (kept more : List (List ℕ))
        → ⟦<Folder<JournalFile<D, Active>, Spare<D, Active>> as Lines>⟧.holds taken.folder kept []
        → ⟦<Taken<JournalFile<D, Active>, D, Active> as Checkpoint>⟧.has taken more
        → FindsEither kept more
        (MayTell false (D.Disk.may_leave not.first) (D.Disk.may_leave not.second))) }
    ensures card { IfOk result (λ folder. folder.card ≡ taken.card) }
    ensures file { IfOk result (λ folder. folder.file ≡ taken.folder.spare.file) }
    ensures which { IfOk result (λ folder. folder.is_second ≡ true) }
    ensures second { IfErr result (λ not. not.second ≡ taken.folder.spare.file.disk) }
    ensures clean { IfOk result (λ folder. IsTrue (D.Disk.is_clean folder.spare)
        → IsTrue (D.Disk.is_clean taken.folder.file.disk)) }
    ensures still { IfErr result (λ not. IsTrue (D.Disk.is_clean not.first)
        → IsTrue (D.Disk.is_clean taken.folder.file.disk)) }
{
    let Taken { folder, card } = taken;
    let Folder { file, spare, .. } = folder;
    let mut disk = file.into_disk();
    match select(&mut disk, true) {
        Ok(()) => {}
        Err(error) => {
            return Err(NotSelected {
                error,
                first: disk,
                second: spare.into_disk(),
            });
        }
    }
    let first = first_sum(card);
    let last = card.sum;
    Ok(Folder {
        file: spare.into_file(),
        card,
        first,
        last,
        end: card.end,
        is_second: true,
        spare: disk,
    })
}

/// Lets the first file count, which has the checkpoint, in place of the second. A crash at any
/// moment leaves the lines that were found, or those of the checkpoint, if no read of the first
/// file answered what isn't there.
pub fn select_first<D: Disk + Drop>(
    alloc: Global,
    taken: Taken<JournalFile<D, Active>, D, Standby>,
) -> Result<Folder<JournalFile<D, Active>, D>, NotSelected<D>>
    ensures ok { IfOk result (λ folder.
        IsTrue (⟦<JournalFile<D, Active> as Log>⟧.is_clean folder.file)
        → (kept more : List (List ℕ))
        → ⟦<Folder<JournalFile<D, Active>, Spare<D, Standby>> as Lines>⟧.holds taken.folder kept []
        → ⟦<Taken<JournalFile<D, Active>, D, Standby> as Checkpoint>⟧.has taken more
        → ⟦<Folder<JournalFile<D, Active>, D> as Lines>⟧.holds folder more []) }
    ensures failed { IfErr result (λ not. IsTrue (D.Disk.is_clean not.first)
        → (kept more : List (List ℕ))
        → ⟦<Folder<JournalFile<D, Active>, Spare<D, Standby>> as Lines>⟧.holds taken.folder kept []
        → ⟦<Taken<JournalFile<D, Active>, D, Standby> as Checkpoint>⟧.has taken more
        → FindsEither kept more
        (MayTell false (D.Disk.may_leave not.first) (D.Disk.may_leave not.second))) }
    ensures card { IfOk result (λ folder. folder.card ≡ taken.card) }
    ensures spare { IfOk result (λ folder. folder.spare ≡ taken.folder.file.disk) }
    ensures which { IfOk result (λ folder. folder.is_second ≡ false) }
    ensures second { IfErr result (λ not. not.second ≡ taken.folder.file.disk) }
    ensures clean { IfOk result (λ folder. IsTrue (D.Disk.is_clean folder.file.disk)
        → IsTrue (D.Disk.is_clean taken.folder.spare.file.disk)) }
    ensures still { IfErr result (λ not. IsTrue (D.Disk.is_clean not.first)
        → IsTrue (D.Disk.is_clean taken.folder.spare.file.disk)) }
{
    let Taken { folder, card } = taken;
    let Folder { file, spare, .. } = folder;
    let mut disk = spare.into_disk();
    let second = file.into_disk();
    match select(&mut disk, false) {
        Ok(()) => {}
        Err(error) => {
            return Err(NotSelected {
                error,
                first: disk,
                second,
            });
        }
    }
    let log = match JournalFile::<D, Active>::open(alloc, disk) {
        Ok(log) => log,
        Err(not) => {
            return Err(NotSelected {
                error: not.error,
                first: not.disk,
                second,
            });
        }
    };
    let first = first_sum(card);
    let last = card.sum;
    Ok(Folder {
        file: log,
        card,
        first,
        last,
        end: card.end,
        is_second: false,
        spare: second,
    })
}
