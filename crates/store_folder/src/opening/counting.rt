//! Opens the file that counts of two.
ghost use Rattle.std.specs.Prelude.{◌≡◌, ◌≤◌, [], false, List, ℕ, IsTrue, IfOk, IfErr, OnOk};
ghost use Rattle.journal.specs.Crashes.{Only};
ghost use Rattle.journal.specs.Head.{believed, IsHeaded};
ghost use Rattle.journal.specs.Notes.{Reads};
ghost use Rattle.store_folder.specs.Folders.{FindsOf, MayTell};
ghost use Rattle.store_folder.specs.Openings.{IsPassing, IsPaged, Opens, CountsAs, TellsStillOf};

use crate::opening::checking::check_head;
use crate::opening::error::OpenError;
use crate::opening::fronts::{read_steps, sync};
use crate::opening::looking::look;
use crate::opening::recovering::recover_file;
use crate::running::{Folder, Lines};
use journal::{Active, JournalError, JournalFile, Log, Notes, first_sum};
use sqlite_disk::Disk;
use std::alloc::Global;

// What is known of two files before one of them is read.
#[derive(Clone, Copy, Drop)]
struct Looked {
    other: Notes,
    steps: usize,
}

// Looks at the head of the file that counts, and at the page of the other one. All of both is on
// the disk then. Neither is changed.
fn look_at_both<D: Disk>(alloc: Global, counts: &mut D, spare: &mut D) -> Result<Looked, OpenError>
    ensures headed { IfOk result (λ looked. IsTrue (D.is_clean counts.new)
        → IsHeaded (D.seen counts.old) looked.steps) }
    ensures bound { IfOk result (λ looked. looked.steps ≤ 2037) }
    ensures notes { IfOk result (λ looked. IsTrue (D.is_clean spare.new)
        → Reads 0 (believed (D.seen spare.old)) looked.other.card
        × Reads 512 (believed (D.seen spare.old)) looked.other.witness) }
    ensures durable { OnOk result (Only (D.seen counts.new) (D.may_leave counts.new)
        × Only (D.seen spare.new) (D.may_leave spare.new)) }
    ensures refuses { IfErr result (λ error. IsTrue (D.is_clean counts.new)
        → IsPaged (D.seen counts.old) → IsPassing error) }
    ensures clean { (IsTrue (D.is_clean counts.new) → IsTrue (D.is_clean counts.old))
        × (IsTrue (D.is_clean spare.new) → IsTrue (D.is_clean spare.old)) }
    ensures seen { (D.seen counts.new ≡ D.seen counts.old)
        × (D.seen spare.new ≡ D.seen spare.old) }
    ensures crash { (c : List ℕ) → (D.may_leave counts.new c → D.may_leave counts.old c)
        × (D.may_leave spare.new c → D.may_leave spare.old c) }
{
    match check_head(alloc, counts) {
        Ok(()) => {}
        Err(error) => return Err(error),
    }
    let other = look(alloc, spare)?;
    sync(counts)?;
    let steps = read_steps(alloc, counts)?;
    Ok(Looked { other, steps })
}

// What an error says of a head that could be read.
fn last_error(error: JournalError) -> OpenError
    ensures { IsPassing result }
{
    match error {
        JournalError::OutOfMemory => OpenError::OutOfMemory,
        _ => OpenError::DiskFailed,
    }
}

/// Two files of which one counts that aren't opened, and why.
#[derive(Drop)]
pub struct Unopened<D: Disk + Drop> {
    pub error: OpenError,
    pub counts: D,
    pub spare: D,
}

/// Opens the file that counts of two files, whose other one is left as it is.
pub fn open_counting<D: Disk + Drop>(
    alloc: Global,
    takes_less: bool,
    is_second: bool,
    counts: D,
    spare: D,
) -> Result<Folder<JournalFile<D, Active>, D>, Unopened<D>>
    requires chosen { IsTrue (D.is_clean counts) → IsTrue (D.is_clean spare)
        → CountsAs is_second (D.seen counts) (D.seen spare) }
    ensures rests { IfOk result (λ folder. ⟦<JournalFile<D, Active> as Log>⟧.rests folder.file) }
    ensures ok { IfOk result (λ folder. IsTrue (D.is_clean folder.file.disk)
        → IsTrue (D.is_clean folder.spare)
        → (IsTrue (D.is_clean counts) × IsTrue (D.is_clean spare))
        × Opens takes_less (FindsOf (believed (D.seen counts)) (believed (D.seen spare)))
        (⟦<Folder<JournalFile<D, Active>, D> as Lines>⟧.holds folder)) }
    ensures clean { IfErr result (λ not. IsTrue (D.is_clean not.counts)
        → IsTrue (D.is_clean not.spare) → IsTrue (D.is_clean counts) × IsTrue (D.is_clean spare)) }
    ensures refuses { IfErr result (λ not. IsTrue (D.is_clean not.counts)
        → IsTrue (D.is_clean not.spare) → IsPaged (D.seen counts) → (lines : List (List ℕ))
        → FindsOf (believed (D.seen counts)) (believed (D.seen spare)) lines
        → IsPassing not.error) }
    ensures crash { IfErr result (λ not. IsTrue (D.is_clean not.counts)
        → IsTrue (D.is_clean not.spare) → TellsStillOf (D.seen counts) (D.seen spare)
        (MayTell is_second (D.may_leave counts) (D.may_leave spare))
        (MayTell is_second (D.may_leave not.counts) (D.may_leave not.spare))) }
{
    let mut counts = counts;
    let mut spare = spare;
    let looked = match look_at_both(alloc, &mut counts, &mut spare) {
        Ok(looked) => looked,
        Err(error) => {
            return Err(Unopened {
                error,
                counts,
                spare,
            });
        }
    };
    let now = match recover_file(alloc, takes_less, looked.other, looked.steps, counts) {
        Ok(now) => now,
        Err(not) => {
            return Err(Unopened {
                error: not.error,
                counts: not.disk,
                spare,
            });
        }
    };
    let card = now.card;
    let first = first_sum(card);
    let last = now.sound.last;
    let end = now.sound.end;
    let file = match JournalFile::<D, Active>::open(alloc, now.disk) {
        Ok(file) => file,
        Err(not) => {
            return Err(Unopened {
                error: last_error(not.error),
                counts: not.disk,
                spare,
            });
        }
    };
    Ok(Folder {
        file,
        card,
        first,
        last,
        end,
        is_second,
        spare,
    })
}
