//! Takes a checkpoint into the file that doesn't count.
ghost use Rattle.std.specs.Prelude.{◌≡◌, ◌<◌, ◌+◌, ◌^◌, [], List, ℕ, length, take, drop, replicate, true, IsTrue, IfOk, IfErr, IfSome};
ghost use Rattle.journal.specs.Head.{believed, Texts};
ghost use Rattle.journal.specs.Notes.{IsNote};
ghost use Rattle.store_folder.specs.Takings.{next_of, page_if, Comes, LeavesCard, HasCheckpoint};

use crate::carded::{Carded, Page};
use crate::counting::Counting;
use crate::leaving::witness_of;
use crate::running::{Folder, Lines};
use crate::spare::Spare;
use crate::switching::{Checkpoint, Taken};
use crate::watched::{Past, Watched};
use journal::{CARD, Journal, JournalError, JournalFile, Log, Note, Selector, first_sum, put_note};
use sqlite_disk::Disk;
use std::alloc::Global;
use std::marker::Brand;
use std::sync::Wait;
use std::thread::Threads;

/// What a checkpoint is taken of.
pub trait Source {
    ghost use Rattle.std.specs.Prelude.{List, ℕ, IsTrue, IfOk};
    ghost use Rattle.store_folder.specs.Takings.{IsZeros, HasWritten};

    /// Why its lines aren't written.
    type Why: Drop;

    /// These lines make it again from nothing.
    ghost makes: { Self → List (List ℕ) → Type 0 };

    /// Writes such lines into a file of zeros, behind a first sum.
    fn write<E: Log + Drop, T: Threads + Wait + Sync>(
        &self,
        rt: &T,
        alloc: Global,
        first: &[u8; 64],
        log: E,
    ) -> Result<Journal<E>, NotWritten<E, Self::Why>>
        requires zeros { IsTrue (E.Log.is_clean log)
            → IsZeros (E.Log.text log) (E.Log.may_leave log) }
        ensures ok { IfOk result (λ journal. IsTrue (E.Log.is_clean journal.log)
            → HasWritten (makes self.now) first.now (E.Log.text journal.log)
            (E.Log.may_leave journal.log) journal.last journal.end) };
}

/// Why a file has no checkpoint, and the file.
#[derive(Drop)]
pub struct NotWritten<E: Drop, Y: Drop> {
    pub why: Y,
    pub log: E,
}

/// Why there is no checkpoint.
#[derive(Drop)]
pub enum Refusal<Y: Drop> {
    /// Its lines weren't written.
    Source(Y),
    /// The file wasn't made ready, or its card wasn't put.
    File(JournalError),
    /// It has no line: a file without one counts as missing.
    Empty,
}

// A file with a checkpoint, and what its page says of it.
#[derive(Drop)]
struct Written<D: Disk + Drop, C: Selector> {
    file: JournalFile<D, C>,
    card: Note,
}

// The card of the file that comes next, but for where its groups end.
fn next_card(card: Note) -> Option<Note>
    ensures is { IfSome result (λ next. next ≡ next_of card) }
    ensures fits { IfSome result (λ _. card.generation + 1 < 2 ^ 64) }
{
    let Some(generation) = card.generation.checked_add(1) else {
        return None;
    };
    Some(Note { generation, ..card })
}

// Writes a checkpoint behind the page of a blank file, and then its card into that page.
fn write_paged<W: Source, T: Threads + Wait + Sync, D: Disk + Drop, C: Selector, K: Page + Past>(
    rt: &T,
    alloc: Global,
    source: &W,
    file: JournalFile<D, C>,
    next: Note,
) -> Result<Written<D, C>, NotWritten<JournalFile<D, C>, Refusal<W::Why>>>
    requires past { IsTrue (D.Disk.is_clean file.disk) → IsTrue K.clean }
    requires rests { IsTrue (D.Disk.is_clean file.disk) → ⟦<JournalFile<D, C> as Log>⟧.rests file }
    requires page { IsTrue (D.Disk.is_clean file.disk)
        → take 4096 (believed (D.Disk.seen file.disk)) ≡ K.page }
    requires zeros { IsTrue (D.Disk.is_clean file.disk)
        → drop 4096 (believed (D.Disk.seen file.disk))
        ≡ replicate (length (drop 4096 (believed (D.Disk.seen file.disk)))) 0 }
    ensures ok { IfOk result (λ written. (card : Note) → Comes card next
        → IsTrue (D.Disk.is_clean written.file.disk) → (more : List (List ℕ))
        × W.makes source.now more × HasCheckpoint card written.card
        (D.Disk.is_clean written.file.disk)
        (believed (D.Disk.seen written.file.disk)) (Texts (D.Disk.may_leave written.file.disk))
        more) }
    ensures left { IfOk result (λ written. (card : Note) → LeavesCard card next K.page
        (D.Disk.is_clean written.file.disk) (D.Disk.may_leave written.file.disk)) }
    ensures failed { IfErr result (λ not. (card : Note) → LeavesCard card next K.page
        (D.Disk.is_clean not.log.disk) (D.Disk.may_leave not.log.disk)) }
    ensures clean { IfOk result (λ written. IsTrue (D.Disk.is_clean written.file.disk)
        → IsTrue K.clean) }
    ensures still { IfErr result (λ not. IsTrue (D.Disk.is_clean not.log.disk) → IsTrue K.clean) }
{
    let first = first_sum(next);
    let watched = Watched::<JournalFile<D, C>, K>::new(file);
    let text = Carded::<Watched<JournalFile<D, C>, K>, K>::new(watched);
    let journal = match source.write(rt, alloc, &first, text) {
        Ok(journal) => journal,
        Err(not) => {
            let held = not.log.into_log();
            let back = held.into_log();
            return Err(NotWritten {
                why: Refusal::Source(not.why),
                log: back,
            });
        }
    };
    let Journal { log, last, end, .. } = journal;
    let paged = log.into_log();
    let mut file = paged.into_log();
    if end == 0 {
        return Err(NotWritten {
            why: Refusal::Empty,
            log: file,
        });
    }
    let card = witness_of(next, end, last);
    match put_note(alloc, &mut file, CARD, card) {
        Ok(()) => {}
        Err(error) => {
            return Err(NotWritten {
                why: Refusal::File(error),
                log: file,
            });
        }
    }
    Ok(Written { file, card })
}

// Writes a checkpoint into a blank file, and then its card into the page of that one.
fn write_blank<W: Source, T: Threads + Wait + Sync, D: Disk + Drop, C: Selector>(
    rt: &T,
    alloc: Global,
    source: &W,
    file: JournalFile<D, C>,
    next: Note,
) -> Result<Written<D, C>, NotWritten<JournalFile<D, C>, Refusal<W::Why>>>
    requires rests { IsTrue (D.Disk.is_clean file.disk) → ⟦<JournalFile<D, C> as Log>⟧.rests file }
    requires zeros { IsTrue (D.Disk.is_clean file.disk)
        → drop 4096 (believed (D.Disk.seen file.disk))
        ≡ replicate (length (drop 4096 (believed (D.Disk.seen file.disk)))) 0 }
    ensures ok { IfOk result (λ written. (card : Note) → Comes card next
        → IsTrue (D.Disk.is_clean written.file.disk) → (more : List (List ℕ))
        × W.makes source.now more × HasCheckpoint card written.card
        (D.Disk.is_clean written.file.disk) (believed (D.Disk.seen written.file.disk))
        (Texts (D.Disk.may_leave written.file.disk)) more) }
    ensures left { IfOk result (λ written. (card : Note) → LeavesCard card next
        (page_if (D.Disk.is_clean file.disk) (believed (D.Disk.seen file.disk)))
        (D.Disk.is_clean written.file.disk) (D.Disk.may_leave written.file.disk)) }
    ensures failed { IfErr result (λ not. (card : Note) → LeavesCard card next
        (page_if (D.Disk.is_clean file.disk) (believed (D.Disk.seen file.disk)))
        (D.Disk.is_clean not.log.disk) (D.Disk.may_leave not.log.disk)) }
    ensures clean { IfOk result (λ written. IsTrue (D.Disk.is_clean written.file.disk)
        → IsTrue (D.Disk.is_clean file.disk)) }
    ensures still { IfErr result (λ not. IsTrue (D.Disk.is_clean not.log.disk)
        → IsTrue (D.Disk.is_clean file.disk)) }
{
    let written = match write_paged::<W, T, D, C, Brand>(rt, alloc, source, file, next) {
        Ok(written) => written,
        Err(not) => return Err(not),
    };
    Ok(written)
}

/// Why a folder has no checkpoint, and the folder.
#[derive(Drop)]
pub struct NotTaken<E: Counting + Drop, D: Disk + Drop, C: Selector, Y: Drop> {
    pub why: Refusal<Y>,
    pub folder: Folder<E, Spare<D, C>>,
}

// Whether two answers are the same.
fn is_alike(one: bool, other: bool) -> bool
    ensures { result ≡ true → one ≡ other }
{
    one == other
}

/// Takes a checkpoint into the file that doesn't count: makes that one blank, leaves a witness
/// there, writes the lines, and puts the card. Whatever a crash leaves at any moment, a start finds
/// the same lines, if no read of that file answered what isn't there.
pub fn take<W: Source, T: Threads + Wait + Sync, E: Counting + Drop, D: Disk + Drop, C: Selector>(
    rt: &T,
    alloc: Global,
    source: &W,
    folder: Folder<E, Spare<D, C>>,
) -> Result<Taken<E, D, C>, NotTaken<E, D, C, W::Why>>
    ensures ok { IfOk result (λ taken.
        IsTrue (⟦<Spare<D, C> as Disk>⟧.is_clean taken.folder.spare) → (kept : List (List ℕ))
        → ⟦<Folder<E, Spare<D, C>> as Lines>⟧.holds folder kept []
        → ⟦<Folder<E, Spare<D, C>> as Lines>⟧.holds taken.folder kept []) }
    ensures taken { IfOk result (λ taken.
        IsTrue (⟦<Spare<D, C> as Disk>⟧.is_clean taken.folder.spare) → (kept : List (List ℕ))
        → ⟦<Folder<E, Spare<D, C>> as Lines>⟧.holds folder kept []
        → (more : List (List ℕ)) × W.makes source.now more
        × ⟦<Taken<E, D, C> as Checkpoint>⟧.has taken more) }
    ensures failed { IfErr result (λ not.
        IsTrue (⟦<Spare<D, C> as Disk>⟧.is_clean not.folder.spare) → (kept : List (List ℕ))
        → ⟦<Folder<E, Spare<D, C>> as Lines>⟧.holds folder kept []
        → ⟦<Folder<E, Spare<D, C>> as Lines>⟧.holds not.folder kept []) }
    ensures clean { IfOk result (λ taken. IsTrue (D.Disk.is_clean taken.folder.spare.file.disk)
        → IsTrue (D.Disk.is_clean folder.spare.file.disk)) }
    ensures still { IfErr result (λ not. IsTrue (D.Disk.is_clean not.folder.spare.file.disk)
        → IsTrue (D.Disk.is_clean folder.spare.file.disk)) }
    ensures file { IfOk result (λ taken. taken.folder.file ≡ folder.file) }
    ensures same { IfErr result (λ not. not.folder.file ≡ folder.file) }
{
    let next = match next_card(folder.card) {
        Some(next) => next,
        None => {
            return Err(NotTaken {
                why: Refusal::File(JournalError::CannotGrow),
                folder,
            });
        }
    };
    let fits = is_alike(folder.is_second, C::IS_STANDBY);
    if !fits {
        return Err(NotTaken {
            why: Refusal::File(JournalError::DiskFailed),
            folder,
        });
    }
    let Folder {
        file,
        card,
        first,
        last,
        end,
        is_second,
        spare,
    } = folder;
    let mut spare = spare;
    let witness = witness_of(card, end, last);
    match spare.blank(alloc, witness) {
        Ok(()) => {}
        Err(error) => {
            return Err(NotTaken {
                why: Refusal::File(error),
                folder: Folder {
                    file,
                    card,
                    first,
                    last,
                    end,
                    is_second,
                    spare,
                },
            });
        }
    }
    let written = match write_blank::<W, T, D, C>(rt, alloc, source, spare.into_file(), next) {
        Ok(written) => written,
        Err(not) => {
            let NotWritten { why, log } = not;
            let rest = Spare::closed(log);
            return Err(NotTaken {
                why,
                folder: Folder {
                    file,
                    card,
                    first,
                    last,
                    end,
                    is_second,
                    spare: rest,
                },
            });
        }
    };
    let Written {
        file: other,
        card: next,
    } = written;
    let taken = Spare::closed(other);
    Ok(Taken {
        folder: Folder {
            file,
            card,
            first,
            last,
            end,
            is_second,
            spare: taken,
        },
        card: next,
    })
}
