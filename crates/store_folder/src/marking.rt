//! Leaves a witness of the file that counts in its own page.
ghost use Rattle.std.specs.Prelude.{◌≡◌, [], List, ℕ, IsTrue, IfOk, IfErr};
ghost use Rattle.line_loop.specs.Runs.{FindsOnly};
ghost use Rattle.store_folder.specs.Folders.{MayTell};

use crate::leaving::witness_of;
use crate::running::{Folder, Lines};
use journal::{Active, JournalError, JournalFile, Log, WITNESS, put_note};
use sqlite_disk::Disk;
use std::alloc::Global;

/// Both files of a folder, of which the one that counts takes no witness, and why.
#[derive(Drop)]
pub struct NotMarked<D: Disk + Drop, F: Disk + Drop> {
    pub error: JournalError,
    pub file: JournalFile<D, Active>,
    pub spare: F,
}

/// Puts a witness of the file that counts into its own page, so that the file tells by itself which
/// generation counts. Whatever a crash leaves at any moment, a start finds the same lines.
pub fn mark<D: Disk + Drop, F: Disk + Drop>(
    alloc: Global,
    folder: Folder<JournalFile<D, Active>, F>,
) -> Result<Folder<JournalFile<D, Active>, F>, NotMarked<D, F>>
    ensures ok { IfOk result (λ next. (kept : List (List ℕ))
        → ⟦<Folder<JournalFile<D, Active>, F> as Lines>⟧.holds folder kept []
        → ⟦<Folder<JournalFile<D, Active>, F> as Lines>⟧.holds next kept []) }
    ensures failed { IfErr result (λ not. (kept : List (List ℕ))
        → ⟦<Folder<JournalFile<D, Active>, F> as Lines>⟧.holds folder kept []
        → FindsOnly kept (MayTell folder.is_second (D.Disk.may_leave not.file.disk)
        (F.Disk.may_leave not.spare))) }
    ensures rests { IfOk result (λ next. IsTrue (D.Disk.is_clean next.file.disk)
        → ⟦<JournalFile<D, Active> as Log>⟧.rests next.file) }
    ensures calm { IfOk result
        (λ next. D.Disk.is_clean next.file.disk ≡ D.Disk.is_clean folder.file.disk) }
    ensures still { IfErr result
        (λ not. D.Disk.is_clean not.file.disk ≡ D.Disk.is_clean folder.file.disk) }
    ensures spare { IfOk result (λ next. next.spare ≡ folder.spare) }
    ensures which { IfOk result (λ next. next.is_second ≡ folder.is_second) }
    ensures same { IfErr result (λ not. not.spare ≡ folder.spare) }
{
    let Folder {
        file,
        card,
        first,
        last,
        end,
        is_second,
        spare,
    } = folder;
    let mut file = file;
    let witness = witness_of(card, end, last);
    match put_note(alloc, &mut file, WITNESS, witness) {
        Ok(()) => {}
        Err(error) => {
            return Err(NotMarked { error, file, spare });
        }
    }
    Ok(Folder {
        file,
        card,
        first,
        last,
        end,
        is_second,
        spare,
    })
}
