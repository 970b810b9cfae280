//! Keeps room for the next checkpoint, also where the disk is full.
ghost use Rattle.std.specs.Prelude.{◌≡◌, ◌<◌, [], List, ℕ, length, take, true, IsTrue};
ghost use Rattle.journal.specs.Crashes.{Only};
ghost use Rattle.journal.specs.Groups.{HasGroups, GroupsStay};
ghost use Rattle.journal.specs.Reading.{found, sound};
ghost use Rattle.line_loop.specs.Runs.{FindsOnly};
ghost use Rattle.store_folder.specs.Steps.{Keeps};

use crate::carded::{Carded, Page};
use crate::counting::Counting;
use crate::running::{Folder, Lines};
use crate::steps::stretching::stretch;
use journal::{Active, Journal, JournalError, JournalFile, Log, PAGE};
use sqlite_disk::Disk;
use std::alloc::Global;
use std::marker::Brand;

// What became of a journal that was to grow.
#[derive(Clone, Copy)]
struct Growth {
    // There is no room for it.
    is_full: bool,
    // It is as it was, or larger.
    goes_on: bool,
}

// Makes a journal larger.
fn grow_journal<L: Log + Drop>(journal: &mut Journal<L>) -> Growth
    ensures goes { result.goes_on ≡ true → GroupsStay (L.Log.is_clean journal.old.log)
        (HasGroups (L.Log.text journal.old.log) (L.Log.may_leave journal.old.log) journal.old.last
        journal.old.end)
        (HasGroups (L.Log.text journal.new.log) (L.Log.may_leave journal.new.log) journal.new.last
        journal.new.end) }
    ensures crash { (first : List ℕ) (groups : List (List (List ℕ)))
        → IsTrue (L.Log.is_clean journal.old.log) → HasGroups (L.Log.text journal.old.log)
        (L.Log.may_leave journal.old.log) journal.old.last journal.old.end first groups
        → (c : List ℕ) → L.Log.may_leave journal.new.log c → found first c ≡ sound groups }
    ensures calm { L.Log.is_clean journal.new.log ≡ L.Log.is_clean journal.old.log }
{
    match journal.grow() {
        Ok(()) => {}
        Err(JournalError::CannotGrow) => {
            return Growth {
                is_full: true,
                goes_on: true,
            };
        }
        Err(_) => {
            return Growth {
                is_full: false,
                goes_on: false,
            };
        }
    }
    Growth {
        is_full: false,
        goes_on: true,
    }
}

// A folder whose file that counts was to grow.
#[derive(Drop)]
struct Grown<E: Counting + Drop, D: Disk + Drop> {
    folder: Folder<E, D>,
    is_full: bool,
    is_at_rest: bool,
}

// Makes the file that counts larger, which has this page.
fn grow_paged<K: Page, E: Counting + Drop, D: Disk + Drop>(
    alloc: Global,
    folder: Folder<E, D>,
) -> Grown<E, D>
    requires rests { IsTrue (E.Log.is_clean folder.file)
        → Only (E.Log.text folder.file) (E.Log.may_leave folder.file) }
    requires page { take 4096 (E.Log.text folder.file) ≡ K.page }
    ensures holds { result.is_at_rest ≡ true
        → Keeps (⟦<Folder<E, D> as Lines>⟧.holds folder)
        (⟦<Folder<E, D> as Lines>⟧.holds result.folder) }
    ensures tells { (kept : List (List ℕ)) → ⟦<Folder<E, D> as Lines>⟧.holds folder kept []
        → FindsOnly kept (⟦<Folder<E, D> as Lines>⟧.may_find result.folder) }
    ensures rests { result.is_at_rest ≡ true → IsTrue (E.Log.is_clean result.folder.file)
        → Only (E.Log.text result.folder.file) (E.Log.may_leave result.folder.file) }
    ensures calm { E.Log.is_clean result.folder.file ≡ E.Log.is_clean folder.file }
    ensures spare { result.folder.spare ≡ folder.spare }
{
    let Folder {
        file,
        card,
        first,
        last,
        end,
        is_second,
        spare,
    } = folder;
    let mut journal = Journal {
        log: Carded::<E, K>::new(file),
        last,
        end,
        pending: Vec::new(alloc),
    };
    let growth = grow_journal(&mut journal);
    let rests = journal.log.is_at_rest();
    let Journal { log, last, end, .. } = journal;
    let grown = log.into_log();
    Grown {
        folder: Folder {
            file: grown,
            card,
            first,
            last,
            end,
            is_second,
            spare,
        },
        is_full: growth.is_full,
        is_at_rest: growth.goes_on & rests,
    }
}

// Makes the file that counts larger.
fn grow_folder<E: Counting + Drop, D: Disk + Drop>(
    alloc: Global,
    folder: Folder<E, D>,
) -> Grown<E, D>
    requires rests { IsTrue (E.Log.is_clean folder.file)
        → Only (E.Log.text folder.file) (E.Log.may_leave folder.file) }
    ensures holds { result.is_at_rest ≡ true
        → Keeps (⟦<Folder<E, D> as Lines>⟧.holds folder)
        (⟦<Folder<E, D> as Lines>⟧.holds result.folder) }
    ensures tells { (kept : List (List ℕ)) → ⟦<Folder<E, D> as Lines>⟧.holds folder kept []
        → FindsOnly kept (⟦<Folder<E, D> as Lines>⟧.may_find result.folder) }
    ensures rests { result.is_at_rest ≡ true → IsTrue (E.Log.is_clean result.folder.file)
        → Only (E.Log.text result.folder.file) (E.Log.may_leave result.folder.file) }
    ensures calm { E.Log.is_clean result.folder.file ≡ E.Log.is_clean folder.file }
    ensures spare { result.folder.spare ≡ folder.spare }
{
    grow_paged::<Brand, E, D>(alloc, folder)
}

// Whether a file is shorter than this.
fn is_shorter<E: Log>(file: &E, size: usize) -> bool
    ensures { result ≡ true → IsTrue (E.is_clean file.now) → length (E.text file.now) < size }
{
    match file.size() {
        Ok(own) => own < size,
        Err(_) => false,
    }
}

/// A folder, and how long the file is that doesn't count.
#[derive(Drop)]
pub struct Lengthened<D: Disk + Drop> {
    pub folder: Folder<JournalFile<D, Active>, D>,
    /// It is longer than the file that counts, though that one can't grow.
    pub has_more: bool,
    /// It couldn't grow.
    pub is_short: bool,
    /// The file that counts goes on: no write of it failed.
    pub is_at_rest: bool,
}

/// Makes the file that doesn't count as long as the last checkpoint, so that the next one has room
/// there, even if the disk is full. If it is longer than the file that counts, that one grows too.
/// Whatever a crash leaves at any moment, a start finds the same lines, if no read of the file that
/// doesn't count answered what isn't there.
pub fn keep_length<D: Disk + Drop>(
    alloc: Global,
    folder: Folder<JournalFile<D, Active>, D>,
) -> Lengthened<D>
    requires rests { IsTrue (D.Disk.is_clean folder.file.disk)
        → ⟦<JournalFile<D, Active> as Log>⟧.rests folder.file }
    ensures holds { result.is_at_rest ≡ true → IsTrue (D.Disk.is_clean result.folder.spare)
        → Keeps (⟦<Folder<JournalFile<D, Active>, D> as Lines>⟧.holds folder)
        (⟦<Folder<JournalFile<D, Active>, D> as Lines>⟧.holds result.folder) }
    ensures tells { IsTrue (D.Disk.is_clean result.folder.spare) → (kept : List (List ℕ))
        → ⟦<Folder<JournalFile<D, Active>, D> as Lines>⟧.holds folder kept [] → FindsOnly kept
        (⟦<Folder<JournalFile<D, Active>, D> as Lines>⟧.may_find result.folder) }
    ensures rests { result.is_at_rest ≡ true → IsTrue (D.Disk.is_clean result.folder.file.disk)
        → ⟦<JournalFile<D, Active> as Log>⟧.rests result.folder.file }
    ensures clean { IsTrue (D.Disk.is_clean result.folder.spare)
        → IsTrue (D.Disk.is_clean folder.spare) }
    ensures calm { D.Disk.is_clean result.folder.file.disk ≡ D.Disk.is_clean folder.file.disk }
{
    let bytes = folder.card.end.saturating_add(PAGE);
    let stretched = stretch(alloc, folder, bytes);
    let is_shorter = is_shorter(&stretched.folder.file, stretched.size);
    if !is_shorter {
        return Lengthened {
            folder: stretched.folder,
            has_more: false,
            is_short: stretched.is_short,
            is_at_rest: true,
        };
    }
    let grown = grow_folder(alloc, stretched.folder);
    Lengthened {
        folder: grown.folder,
        has_more: grown.is_full,
        is_short: stretched.is_short,
        is_at_rest: grown.is_at_rest,
    }
}
