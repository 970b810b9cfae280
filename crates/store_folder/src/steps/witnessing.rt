//! Leaves a witness between two runs.
ghost use Rattle.std.specs.Prelude.{◌≡◌, true, List, ℕ, IsTrue};
ghost use Rattle.journal.specs.Head.{believed};
ghost use Rattle.journal.specs.Notes.{StandsAt};
ghost use Rattle.store_folder.specs.Spares.{witness_of};
ghost use Rattle.store_folder.specs.Steps.{Keeps};

use crate::counting::Counting;
use crate::leaving::{Witnessed, leave_witness, open_spare};
use crate::running::{Folder, Lines};
use crate::steps::closing::close_spare;
use journal::{Active, JournalFile, Selector, Standby};
use sqlite_disk::Disk;
use std::alloc::Global;

// Puts a witness of the file that counts into the other one, which has this selector.
fn witness_as<E: Counting + Drop, D: Disk + Drop, C: Selector>(
    alloc: Global,
    folder: Folder<E, D>,
) -> Witnessed<E, D>
    ensures holds { IsTrue (D.Disk.is_clean result.folder.spare)
        → Keeps (⟦<Folder<E, D> as Lines>⟧.holds folder)
        (⟦<Folder<E, D> as Lines>⟧.holds result.folder) }
    ensures clean { IsTrue (D.Disk.is_clean result.folder.spare)
        → IsTrue (D.Disk.is_clean folder.spare) }
    ensures left { result.is_left ≡ true → IsTrue (D.Disk.is_clean result.folder.spare)
        → (c : List ℕ) → D.Disk.may_leave result.folder.spare c
        → StandsAt 512 (believed c) (witness_of folder.card folder.end folder.last) }
    ensures file { result.folder.file ≡ folder.file }
{
    let opened = match open_spare::<E, D, C>(alloc, folder) {
        Ok(opened) => opened,
        Err(back) => {
            return Witnessed {
                folder: back,
                is_left: false,
            };
        }
    };
    let witnessed = leave_witness(alloc, opened);
    let closed = close_spare(witnessed.folder);
    Witnessed {
        folder: closed,
        is_left: witnessed.is_left,
    }
}

/// Puts a witness of the file that counts into the other one. Whatever a crash leaves at any
/// moment, and whether it is put or not, a start finds the same lines, if no read of that file
/// answered what isn't there.
pub fn witness_folder<D: Disk + Drop>(
    alloc: Global,
    folder: Folder<JournalFile<D, Active>, D>,
) -> Witnessed<JournalFile<D, Active>, D>
    ensures holds { IsTrue (D.Disk.is_clean result.folder.spare)
        → Keeps (⟦<Folder<JournalFile<D, Active>, D> as Lines>⟧.holds folder)
        (⟦<Folder<JournalFile<D, Active>, D> as Lines>⟧.holds result.folder) }
    ensures clean { IsTrue (D.Disk.is_clean result.folder.spare)
        → IsTrue (D.Disk.is_clean folder.spare) }

    // Whatever a crash leaves then, the witness stands there.
    ensures left { result.is_left ≡ true → IsTrue (D.Disk.is_clean result.folder.spare)
        → (c : List ℕ) → D.Disk.may_leave result.folder.spare c
        → StandsAt 512 (believed c) (witness_of folder.card folder.end folder.last) }
    ensures file { result.folder.file ≡ folder.file }
{
    let is_second = folder.is_second;
    if is_second {
        return witness_as::<JournalFile<D, Active>, D, Standby>(alloc, folder);
    }
    witness_as::<JournalFile<D, Active>, D, Active>(alloc, folder)
}
