//! Closes the file of a folder that doesn't count.
ghost use Rattle.std.specs.Prelude.{◌≡◌};
ghost use Rattle.store_folder.specs.Spares.{witness_of};
ghost use Rattle.store_folder.specs.Steps.{Keeps};

use crate::counting::Counting;
use crate::running::{Folder, Lines};
use crate::spare::Spare;
use journal::Selector;
use sqlite_disk::Disk;

/// Closes the file of a folder that doesn't count, which was open for a step.
pub fn close_spare<E: Counting + Drop, D: Disk + Drop, C: Selector>(
    folder: Folder<E, Spare<D, C>>,
) -> Folder<E, D>
    ensures holds { Keeps (⟦<Folder<E, Spare<D, C>> as Lines>⟧.holds folder)
        (⟦<Folder<E, D> as Lines>⟧.holds result) }
    ensures disk { result.spare ≡ folder.spare.file.disk }
    ensures file { result.file ≡ folder.file }
    ensures note { witness_of result.card result.end result.last
        ≡ witness_of folder.card folder.end folder.last }
{
    let Folder {
        file,
        card,
        first,
        last,
        end,
        is_second,
        spare,
    } = folder;
    let disk = spare.into_disk();
    Folder {
        file,
        card,
        first,
        last,
        end,
        is_second,
        spare: disk,
    }
}
