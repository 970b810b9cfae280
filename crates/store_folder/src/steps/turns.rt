//! Lets a file count that has a checkpoint, with its witness in its own page.
ghost use Rattle.std.specs.Prelude.{◌≡◌, [], List, ℕ, true, false, IsTrue, IfOk, IfErr};
ghost use Rattle.line_loop.specs.Runs.{FindsEither};
ghost use Rattle.store_folder.specs.Folders.{MayTell};
ghost use Rattle.store_folder.specs.Steps.{Turns};

use crate::marking::mark;
use crate::running::{Folder, Lines};
use crate::spare::Spare;
use crate::switching::{Checkpoint, NotSelected, Taken, select_first, select_second};
use journal::{Active, JournalFile, Log, Standby};
use sqlite_disk::Disk;
use std::alloc::Global;

/// Lets the second file count, which has a checkpoint, and leaves its witness there. A crash at any
/// moment leaves the lines that were found, or those of the checkpoint.
pub fn turn_to_second<D: Disk + Drop>(
    alloc: Global,
    taken: Taken<JournalFile<D, Active>, D, Active>,
) -> Result<Folder<JournalFile<D, Active>, D>, NotSelected<D>>
    ensures ok { IfOk result (λ folder. IsTrue (D.Disk.is_clean folder.spare)
        → Turns (⟦<Folder<JournalFile<D, Active>, Spare<D, Active>> as Lines>⟧.holds taken.folder)
        (⟦<Taken<JournalFile<D, Active>, D, Active> as Checkpoint>⟧.has taken)
        (⟦<Folder<JournalFile<D, Active>, D> as Lines>⟧.holds folder)) }
    ensures which { IfOk result (λ folder. folder.is_second ≡ true) }
    ensures failed { IfErr result (λ not. IsTrue (D.Disk.is_clean not.first)
        → (kept more : List (List ℕ))
        → ⟦<Folder<JournalFile<D, Active>, Spare<D, Active>> as Lines>⟧.holds taken.folder kept []
        → ⟦<Taken<JournalFile<D, Active>, D, Active> as Checkpoint>⟧.has taken more
        → FindsEither kept more
        (MayTell false (D.Disk.may_leave not.first) (D.Disk.may_leave not.second))) }
    ensures rests { IfOk result (λ folder. IsTrue (D.Disk.is_clean folder.file.disk)
        → ⟦<JournalFile<D, Active> as Log>⟧.rests folder.file) }
    ensures clean { IfOk result (λ folder. IsTrue (D.Disk.is_clean folder.file.disk)
        → IsTrue (D.Disk.is_clean folder.spare)
        → IsTrue (D.Disk.is_clean taken.folder.file.disk)
        × IsTrue (D.Disk.is_clean taken.folder.spare.file.disk)) }
    ensures still { IfErr result (λ not. IsTrue (D.Disk.is_clean not.first)
        → IsTrue (D.Disk.is_clean not.second) → IsTrue (D.Disk.is_clean taken.folder.file.disk)
        × IsTrue (D.Disk.is_clean taken.folder.spare.file.disk)) }
{
    let chosen = match select_second(taken) {
        Ok(chosen) => chosen,
        Err(not) => return Err(not),
    };
    let marked = match mark(alloc, chosen) {
        Ok(marked) => marked,
        Err(not) => {
            let second = not.file.into_disk();
            return Err(NotSelected {
                error: not.error,
                first: not.spare,
                second,
            });
        }
    };
    Ok(marked)
}

/// Lets the first file count, which has a checkpoint, and leaves its witness there. A crash at any
/// moment leaves the lines that were found, or those of the checkpoint.
pub fn turn_to_first<D: Disk + Drop>(
    alloc: Global,
    taken: Taken<JournalFile<D, Active>, D, Standby>,
) -> Result<Folder<JournalFile<D, Active>, D>, NotSelected<D>>
    ensures ok { IfOk result (λ folder. IsTrue (D.Disk.is_clean folder.file.disk)
        → Turns (⟦<Folder<JournalFile<D, Active>, Spare<D, Standby>> as Lines>⟧.holds taken.folder)
        (⟦<Taken<JournalFile<D, Active>, D, Standby> as Checkpoint>⟧.has taken)
        (⟦<Folder<JournalFile<D, Active>, D> as Lines>⟧.holds folder)) }
    ensures which { IfOk result (λ folder. folder.is_second ≡ false) }
    ensures failed { IfErr result (λ not. IsTrue (D.Disk.is_clean not.first)
        → (kept more : List (List ℕ))
        → ⟦<Folder<JournalFile<D, Active>, Spare<D, Standby>> as Lines>⟧.holds taken.folder kept []
        → ⟦<Taken<JournalFile<D, Active>, D, Standby> as Checkpoint>⟧.has taken more
        → FindsEither kept more
        (MayTell false (D.Disk.may_leave not.first) (D.Disk.may_leave not.second))) }
    ensures rests { IfOk result (λ folder. IsTrue (D.Disk.is_clean folder.file.disk)
        → ⟦<JournalFile<D, Active> as Log>⟧.rests folder.file) }
    ensures clean { IfOk result (λ folder. IsTrue (D.Disk.is_clean folder.file.disk)
        → IsTrue (D.Disk.is_clean folder.spare)
        → IsTrue (D.Disk.is_clean taken.folder.file.disk)
        × IsTrue (D.Disk.is_clean taken.folder.spare.file.disk)) }
    ensures still { IfErr result (λ not. IsTrue (D.Disk.is_clean not.first)
        → IsTrue (D.Disk.is_clean not.second) → IsTrue (D.Disk.is_clean taken.folder.file.disk)
        × IsTrue (D.Disk.is_clean taken.folder.spare.file.disk)) }
{
    let chosen = match select_first(alloc, taken) {
        Ok(chosen) => chosen,
        Err(not) => return Err(not),
    };
    let marked = match mark(alloc, chosen) {
        Ok(marked) => marked,
        Err(not) => {
            let first = not.file.into_disk();
            return Err(NotSelected {
                error: not.error,
                first,
                second: not.spare,
            });
        }
    };
    Ok(marked)
}
