//! Opens the folder of a store: finds the file that counts, looks at both pages, and recovers the
//! text.
ghost use Rattle.std.specs.Prelude.{◌≡◌, [], true, false, List, ℕ, IsTrue, IfOk, IfErr};
ghost use Rattle.journal.specs.Selector.{other_counts};
ghost use Rattle.store_folder.specs.Choices.{IsChoice};
ghost use Rattle.store_folder.specs.Folders.{Finds, MayTell};
ghost use Rattle.store_folder.specs.Openings.{IsPassing, HaveHeads, TellsStill};

mod checking;
mod counting;
mod error;
mod fitting;
mod fronts;
mod headed;
mod looking;
mod reading;
mod recovering;

use crate::choosing::{Selection, select_file};
use crate::opening::counting::open_counting;
use crate::opening::error::head_error;
use crate::running::{Folder, Lines};
pub use error::{NotOpened, OpenError};
use journal::{Active, JournalFile, Log};
use sqlite_disk::Disk;
use std::alloc::Global;

// Which of two files counts.
fn find_counting<D: Disk>(alloc: Global, first: &mut D, second: &mut D) -> Result<bool, OpenError>
    ensures counts { IfOk result (λ is_second. IsTrue (D.is_clean first.new)
        → IsTrue (D.is_clean second.new) → IsChoice (D.seen first.old) (D.seen second.old)
        (Selection.Store is_second)) }
    ensures refuses { IfErr result (λ error. IsTrue (D.is_clean first.new)
        → IsTrue (D.is_clean second.new) → HaveHeads (D.seen first.old) (D.seen second.old)
        → (lines : List (List ℕ)) → Finds (D.seen first.old) (D.seen second.old) lines
        → IsPassing error) }
    ensures clean { (IsTrue (D.is_clean first.new) → IsTrue (D.is_clean first.old))
        × (IsTrue (D.is_clean second.new) → IsTrue (D.is_clean second.old)) }
    ensures seen { (D.seen first.new ≡ D.seen first.old)
        × (D.seen second.new ≡ D.seen second.old) }
    ensures crash { (c : List ℕ) → (D.may_leave first.new c → D.may_leave first.old c)
        × (D.may_leave second.new c → D.may_leave second.old c) }
{
    let selection = match select_file(alloc, first, second) {
        Ok(selection) => selection,
        Err(error) => return Err(head_error(error)),
    };
    match selection {
        Selection::Store { is_second } => Ok(is_second),
        Selection::Missing { is_second } => Err(OpenError::Missing { is_second }),
        Selection::Nothing => Err(OpenError::NoStore),
    }
}

// Opens the folder of two files of which the first counts.
fn open_first<D: Disk + Drop>(
    alloc: Global,
    takes_less: bool,
    first: D,
    second: D,
) -> Result<Folder<JournalFile<D, Active>, D>, NotOpened<D>>
    requires chosen { IsTrue (D.is_clean first) → IsTrue (D.is_clean second)
        → other_counts (D.seen first) ≡ false }
    ensures rests { IfOk result (λ folder. ⟦<JournalFile<D, Active> as Log>⟧.rests folder.file) }
    ensures found { IfOk result (λ folder. IsTrue (D.is_clean folder.file.disk)
        → IsTrue (D.is_clean folder.spare) → takes_less ≡ false
        → (lines : List (List ℕ)) × Finds (D.seen first) (D.seen second) lines) }
    ensures holds { IfOk result (λ folder. IsTrue (D.is_clean folder.file.disk)
        → IsTrue (D.is_clean folder.spare) → (lines : List (List ℕ))
        → Finds (D.seen first) (D.seen second) lines
        → ⟦<Folder<JournalFile<D, Active>, D> as Lines>⟧.holds folder lines []) }
    ensures refuses { IfErr result (λ not. IsTrue (D.is_clean not.first)
        → IsTrue (D.is_clean not.second) → HaveHeads (D.seen first) (D.seen second)
        → (lines : List (List ℕ)) → Finds (D.seen first) (D.seen second) lines
        → IsPassing not.error) }
    ensures crash { IfErr result (λ not. IsTrue (D.is_clean not.first)
        → IsTrue (D.is_clean not.second) → TellsStill (D.seen first) (D.seen second)
        (MayTell false (D.may_leave first) (D.may_leave second))
        (MayTell false (D.may_leave not.first) (D.may_leave not.second))) }
{
    let folder = match open_counting(alloc, takes_less, false, first, second) {
        Ok(folder) => folder,
        Err(not) => {
            return Err(NotOpened {
                error: not.error,
                first: not.counts,
                second: not.spare,
            });
        }
    };
    Ok(folder)
}

// Opens the folder of two files of which the second counts.
fn open_second<D: Disk + Drop>(
    alloc: Global,
    takes_less: bool,
    first: D,
    second: D,
) -> Result<Folder<JournalFile<D, Active>, D>, NotOpened<D>>
    requires chosen { IsTrue (D.is_clean first) → IsTrue (D.is_clean second)
        → other_counts (D.seen first) ≡ true }
    ensures rests { IfOk result (λ folder. ⟦<JournalFile<D, Active> as Log>⟧.rests folder.file) }
    ensures found { IfOk result (λ folder. IsTrue (D.is_clean folder.file.disk)
        → IsTrue (D.is_clean folder.spare) → takes_less ≡ false
        → (lines : List (List ℕ)) × Finds (D.seen first) (D.seen second) lines) }
    ensures holds { IfOk result (λ folder. IsTrue (D.is_clean folder.file.disk)
        → IsTrue (D.is_clean folder.spare) → (lines : List (List ℕ))
        → Finds (D.seen first) (D.seen second) lines
        → ⟦<Folder<JournalFile<D, Active>, D> as Lines>⟧.holds folder lines []) }
    ensures refuses { IfErr result (λ not. IsTrue (D.is_clean not.first)
        → IsTrue (D.is_clean not.second) → HaveHeads (D.seen first) (D.seen second)
        → (lines : List (List ℕ)) → Finds (D.seen first) (D.seen second) lines
        → IsPassing not.error) }
    ensures crash { IfErr result (λ not. IsTrue (D.is_clean not.first)
        → IsTrue (D.is_clean not.second) → TellsStill (D.seen first) (D.seen second)
        (MayTell false (D.may_leave first) (D.may_leave second))
        (MayTell false (D.may_leave not.first) (D.may_leave not.second))) }
{
    let folder = match open_counting(alloc, takes_less, true, second, first) {
        Ok(folder) => folder,
        Err(not) => {
            return Err(NotOpened {
                error: not.error,
                first: not.spare,
                second: not.counts,
            });
        }
    };
    Ok(folder)
}

/// Opens the folder of a store that two files are. Its last lines may be missing if less is taken.
///
/// Whatever fails, at each moment: whatever a crash leaves of both files, a start finds what it
/// might find before, or the same lines.
pub fn open_folder<D: Disk + Drop>(
    alloc: Global,
    takes_less: bool,
    first: D,
    second: D,
) -> Result<Folder<JournalFile<D, Active>, D>, NotOpened<D>>
    ensures rests { IfOk result (λ folder. ⟦<JournalFile<D, Active> as Log>⟧.rests folder.file) }
    ensures found { IfOk result (λ folder. IsTrue (D.is_clean folder.file.disk)
        → IsTrue (D.is_clean folder.spare) → takes_less ≡ false
        → (lines : List (List ℕ)) × Finds (D.seen first) (D.seen second) lines) }
    ensures holds { IfOk result (λ folder. IsTrue (D.is_clean folder.file.disk)
        → IsTrue (D.is_clean folder.spare) → (lines : List (List ℕ))
        → Finds (D.seen first) (D.seen second) lines
        → ⟦<Folder<JournalFile<D, Active>, D> as Lines>⟧.holds folder lines []) }
    ensures refuses { IfErr result (λ not. IsTrue (D.is_clean not.first)
        → IsTrue (D.is_clean not.second) → HaveHeads (D.seen first) (D.seen second)
        → (lines : List (List ℕ)) → Finds (D.seen first) (D.seen second) lines
        → IsPassing not.error) }
    ensures crash { IfErr result (λ not. IsTrue (D.is_clean not.first)
        → IsTrue (D.is_clean not.second) → TellsStill (D.seen first) (D.seen second)
        (MayTell false (D.may_leave first) (D.may_leave second))
        (MayTell false (D.may_leave not.first) (D.may_leave not.second))) }
{
    let mut first = first;
    let mut second = second;
    let is_second = match find_counting(alloc, &mut first, &mut second) {
        Ok(is_second) => is_second,
        Err(error) => {
            return Err(NotOpened {
                error,
                first,
                second,
            });
        }
    };
    if is_second {
        let folder = match open_second(alloc, takes_less, first, second) {
            Ok(folder) => folder,
            Err(not) => return Err(not),
        };
        return Ok(folder);
    }
    let folder = match open_first(alloc, takes_less, first, second) {
        Ok(folder) => folder,
        Err(not) => return Err(not),
    };
    Ok(folder)
}
