//! The end of a service over a folder.
ghost use Rattle.std.specs.Prelude.{◌≡◌, List, ℕ, Err, IsTrue, Option};
ghost use Rattle.store_folder.specs.Folders.{MayTell};

use crate::counting::Counting;
use crate::running::{Folder, Lines};
use crate::switching::NotSelected;
use journal::{Active, JournalFile};
use line_loop::RunError;
use sqlite_disk::Disk;

/// Both files of a folder after a service, and how it ended.
#[derive(Drop)]
pub struct Served<D: Disk + Drop> {
    pub first: D,
    pub second: D,
    pub ended: Result<(), RunError>,
}

/// What is known of the files of a service that ended.
pub trait Ended {
    /// No read of either file has answered what isn't there.
    ghost reads: { Self → Type 0 };

    /// A start may find these lines there; or it refuses.
    ghost may_find: { Self → Option (List (List ℕ)) → Type 0 };
}

impl<D: Disk + Drop> Ended for Served<D> {
    ghost use Rattle.std.specs.Prelude.{IsTrue, false};
    ghost use Rattle.store_folder.specs.Folders.{MayTell};

    ghost reads = { λ s. IsTrue (D.Disk.is_clean s.first) × IsTrue (D.Disk.is_clean s.second) };

    ghost may_find = { λ s. MayTell false (D.Disk.may_leave s.first)
        (D.Disk.may_leave s.second) };
}

/// Closes both files of a folder.
pub fn close<D: Disk + Drop>(
    folder: Folder<JournalFile<D, Active>, D>,
    ended: Result<(), RunError>,
) -> Served<D>
    ensures reads { ⟦<Served<D> as Ended>⟧.reads result
        → ⟦<Folder<JournalFile<D, Active>, D> as Lines>⟧.reads folder }
    ensures finds { (told : Option (List (List ℕ))) → ⟦<Served<D> as Ended>⟧.may_find result told
        → ⟦<Folder<JournalFile<D, Active>, D> as Lines>⟧.may_find folder told }
    ensures ended { result.ended ≡ ended }
{
    let Folder {
        file,
        is_second,
        spare,
        ..
    } = folder;
    // For the prover: the clauses of `Counting`.
    let disk = Counting::into_disk(file);
    if is_second {
        return Served {
            first: spare,
            second: disk,
            ended,
        };
    }
    Served {
        first: disk,
        second: spare,
        ended,
    }
}

/// Both files of a folder where the selector couldn't be put.
pub fn lose<D: Disk + Drop>(not: NotSelected<D>) -> Served<D>
    ensures first { result.first ≡ not.first }
    ensures second { result.second ≡ not.second }
    ensures ended { result.ended ≡ Err RunError.LogFailed }
{
    Served {
        first: not.first,
        second: not.second,
        ended: Err(RunError::LogFailed),
    }
}
