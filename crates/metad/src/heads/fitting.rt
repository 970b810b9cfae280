//! Whether the other file belongs to the one that counts, and whether that one is whole.
ghost use Rattle.std.specs.Prelude.{◌≡◌, IsTrue, IfOk};
ghost use Rattle.journal.specs.Crashes.{Only};

use crate::finding::FIRST;
use crate::heads::looking::Other;
use crate::heads::opening::{Head, is_empty, open_head};
use crate::heads::putting::new_card;
use crate::heads::{NoHeads, Unfit};
use journal::{
    Active, Bond, JournalError, JournalFile, Log, Note, Notes, Paged, bond_of, check, finds,
    first_sum,
};
use sqlite_disk::Disk;
use std::alloc::Global;
use std::io;
use std::random::RandomSource;

// The identity that a note has, or another note, or none.
fn identity_in(notes: Notes) -> Option<[u8; 32]> {
    match (notes.card, notes.witness) {
        (Some(note), _) => Some(note.identity),
        (None, Some(note)) => Some(note.identity),
        (None, None) => None,
    }
}

// The card that a file of format 1 would have: the other file tells its store, if a checkpoint was
// begun there.
fn old_card<R: RandomSource>(source: &R, other: Other) -> io::Result<Note> {
    let card = new_card(source)?;
    Ok(match identity_in(other.notes) {
        Some(identity) => Note { identity, ..card },
        None => card,
    })
}

// What the other file says, where it is of format 1: it was the first file of the store.
fn notes_of(card: Note, has_page: bool, other: Other) -> Notes {
    if has_page && other.is_old {
        return Notes {
            card: Some(Note {
                generation: 0,
                ..card
            }),
            witness: None,
        };
    }
    other.notes
}

// Why the notes of two files don't fit, if they don't.
fn unfit_of(bond: Bond) -> Option<Unfit> {
    match bond {
        Bond::Fits => None,
        Bond::OtherStore => Some(Unfit::OtherStore),
        Bond::OtherMoment => Some(Unfit::OtherMoment),
        Bond::Stale => Some(Unfit::Stale),
    }
}

/// What a file lacks of what was witnessed of it.
#[derive(Clone, Copy, PartialEq, Eq)]
pub enum Loss {
    Nothing,
    /// Its last lines.
    Lines,
    /// A part of its checkpoint.
    Part,
}

/// A file that counts, as a text that may be served.
#[derive(Drop)]
pub struct Ready<L: Log + Drop> {
    pub text: Paged<L>,
    /// What is known of it. That of a file of format 1 has no place in its file.
    pub card: Note,
    /// The sum before its first group.
    pub first: [u8; 64],
    /// What both pages tell of a file that counted.
    pub witnesses: [Option<Note>; 2],
    pub has_page: bool,
}

// Why a file without a card isn't served.
fn without_card<L: Log + Drop>(alloc: Global, text: Paged<L>) -> NoHeads {
    let mut text = text;
    match is_empty(alloc, &mut text) {
        Ok(true) => NoHeads::Unfit(Unfit::NoStore),
        Ok(false) => NoHeads::Unfit(Unfit::NoCard),
        Err(error) => NoHeads::Journal(error),
    }
}

// The card of a file that counts, where the other file belongs to it.
fn fitting_card<R: RandomSource>(
    source: &R,
    notes: Notes,
    has_page: bool,
    other: Other,
) -> Result<Note, NoHeads> {
    let card = match notes.card {
        Some(card) => card,
        None => match old_card(source, other) {
            Ok(card) => card,
            Err(_) => return Err(NoHeads::Journal(JournalError::DiskFailed)),
        },
    };
    match unfit_of(bond_of(card, notes.witness, notes_of(card, has_page, other))) {
        Some(unfit) => Err(NoHeads::Unfit(unfit)),
        None => Ok(card),
    }
}

/// The text of a file that counts, where the other file belongs to it. Neither is changed.
pub fn make_ready<L: Log + Drop, R: RandomSource>(
    alloc: Global,
    source: &R,
    head: Head<L>,
    other: Other,
) -> Result<Ready<L>, NoHeads>
    requires { IsTrue (L.is_clean head.log) → Only (L.text head.log) (L.may_leave head.log) }
    ensures { L.rests head.log → IfOk result (λ ready. ⟦<Paged<L> as Log>⟧.rests ready.text) }
{
    let Head {
        log,
        notes,
        has_page,
    } = head;
    let text = Paged::new(log, has_page);
    if has_page && notes.card.is_none() {
        return Err(without_card(alloc, text));
    }
    let card = fitting_card(source, notes, has_page, other)?;
    let first = if has_page { first_sum(card) } else { FIRST };
    let witnesses = [notes.witness, other.notes.witness];
    Ok(Ready {
        text,
        card,
        first,
        witnesses,
        has_page,
    })
}

// Whether a note of this file is found in it.
fn is_kept<L: Log>(
    alloc: Global,
    card: Note,
    note: Option<Note>,
    till: usize,
    log: &mut L,
) -> Result<bool, JournalError>
    ensures rests { L.rests log.old → L.rests log.new }
{
    let Some(note) = note else {
        return Ok(true);
    };
    if note.generation != card.generation {
        return Ok(true);
    }
    finds(alloc, log, note, till)
}

// What a file lacks of its card and of two witnesses. Damage is told elsewhere.
fn loss_in<L: Log>(
    alloc: Global,
    first: &[u8; 64],
    card: Note,
    witnesses: [Option<Note>; 2],
    log: &mut L,
) -> Result<Loss, JournalError>
    ensures rests { L.rests log.old → L.rests log.new }
{
    let till = match check(alloc, first, log) {
        Ok(extent) => extent.sound.end,
        Err(JournalError::Damaged) => return Ok(Loss::Nothing),
        Err(error) => return Err(error),
    };
    if !is_kept(alloc, card, Some(card), till, log)? {
        return Ok(Loss::Part);
    }
    if !is_kept(alloc, card, witnesses[0], till, log)? {
        return Ok(Loss::Lines);
    }
    if !is_kept(alloc, card, witnesses[1], till, log)? {
        return Ok(Loss::Lines);
    }
    Ok(Loss::Nothing)
}

/// What a file that counts lacks of what was witnessed of it.
pub fn loss_of<L: Log + Drop>(alloc: Global, ready: &mut Ready<L>) -> Result<Loss, JournalError>
    ensures { ⟦<Paged<L> as Log>⟧.rests ready.old.text
        → ⟦<Paged<L> as Log>⟧.rests ready.new.text }
{
    let first = ready.first;
    loss_in(alloc, &first, ready.card, ready.witnesses, &mut ready.text)
}

/// Why a file that lacks this isn't served, if it isn't. Its last lines may be missing if that is
/// wanted; what is left of a checkpoint would be half a store.
pub fn unfit_by(loss: Loss, takes_less: bool) -> Option<Unfit> {
    match loss {
        Loss::Nothing => None,
        Loss::Lines if takes_less => None,
        Loss::Lines => Some(Unfit::Less),
        Loss::Part => Some(Unfit::Part),
    }
}

/// The text of a file that counts, where the other one belongs to it and it lacks nothing, or what
/// it may lack. Neither is changed.
pub fn open_ready<D: Disk + Drop, R: RandomSource>(
    alloc: Global,
    source: &R,
    takes_less: bool,
    disk: D,
    other: Other,
) -> Result<Ready<JournalFile<D, Active>>, NoHeads>
    ensures { IfOk result
        (λ ready. ⟦<Paged<JournalFile<D, Active>> as Log>⟧.rests ready.text) }
{
    let head = open_head(alloc, disk)?;
    let mut ready = make_ready(alloc, source, head, other)?;
    let loss = loss_of(alloc, &mut ready)?;
    if let Some(unfit) = unfit_by(loss, takes_less) {
        return Err(NoHeads::Unfit(unfit));
    }
    Ok(ready)
}
