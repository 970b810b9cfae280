//! Whether the other file belongs to the one that counts, and whether that one lacks nothing.
ghost use Rattle.std.specs.Prelude.{◌≡◌, ◌≤◌, true, false, Some, None, List, ℕ, length, take, IsTrue, IfOk, IfErr, OnOk};
ghost use Rattle.journal.specs.Text.{journal_text};
ghost use Rattle.journal.specs.Reading.{found};
ghost use Rattle.journal.specs.Notes.{first_sum};
ghost use Rattle.store_folder.specs.Folders.{IsKept};
ghost use Rattle.store_folder.specs.Openings.{IsPassing, unfit_by, unfit_in, IsKeptIf, AreKept};

use crate::opening::error::{OpenError, text_error};
use journal::{Bond, Log, Note, Notes, bond_of, check, finds, first_sum};
use std::alloc::Global;

// Why notes that say this of two files don't fit.
fn unfit_by(bond: Bond) -> Option<OpenError>
    ensures { result ≡ unfit_by bond }
{
    match bond {
        Bond::Fits => None,
        Bond::OtherStore => Some(OpenError::OtherStore),
        Bond::OtherMoment => Some(OpenError::OtherMoment),
        Bond::Stale => Some(OpenError::Stale),
    }
}

/// The card of a file that counts, where the other file belongs to it.
pub fn fitting_card(own: Notes, other: Notes) -> Result<Note, OpenError>
    ensures card { IfOk result (λ card. own.card ≡ Some card) }
    ensures fits { OnOk result (unfit_in own other ≡ None) }
    ensures unfit { IfErr result (λ error. unfit_in own other ≡ Some error) }
{
    let Some(card) = own.card else {
        return Err(OpenError::NoCard);
    };
    let unfit = unfit_by(bond_of(card, own.witness, other));
    match unfit {
        None => {}
        Some(error) => return Err(error),
    }
    Ok(card)
}

// Whether what a note says is found in a file with this card, whose groups go up to a place. A note
// of another file asks for nothing.
fn is_kept<L: Log>(
    alloc: Global,
    card: Note,
    note: Note,
    till: usize,
    log: &mut L,
) -> Result<bool, OpenError>
    ensures kept { IfOk result (λ kept. IsTrue (L.is_clean log.new) → kept ≡ true
        → (groups : List (List (List ℕ))) → till ≤ length (L.text log.old)
        → take till (L.text log.old) ≡ journal_text (first_sum card) groups
        → IsKept card groups note) }
    ensures lost { IfOk result (λ kept. IsTrue (L.is_clean log.new) → kept ≡ false
        → (groups : List (List (List ℕ))) → till ≤ length (L.text log.old)
        → take till (L.text log.old) ≡ journal_text (first_sum card) groups
        → IsKept card groups note → ⊥) }
    ensures clean { IsTrue (L.is_clean log.new) → IsTrue (L.is_clean log.old) }
    ensures rests { L.rests log.old → L.rests log.new }
    ensures same { L.text log.new ≡ L.text log.old }
    ensures crash { (c : List ℕ) → L.may_leave log.new c → L.may_leave log.old c }
    ensures passing { IfErr result IsPassing }
{
    if note.generation != card.generation {
        return Ok(true);
    }
    let is_found = match finds(alloc, log, note, till) {
        Ok(is_found) => is_found,
        Err(error) => return Err(text_error(error)),
    };
    Ok(is_found)
}

// The same of a note that may have been read.
fn is_kept_if<L: Log>(
    alloc: Global,
    card: Note,
    note: Option<Note>,
    till: usize,
    log: &mut L,
) -> Result<bool, OpenError>
    ensures kept { IfOk result (λ kept. IsTrue (L.is_clean log.new) → kept ≡ true
        → (groups : List (List (List ℕ))) → till ≤ length (L.text log.old)
        → take till (L.text log.old) ≡ journal_text (first_sum card) groups
        → IsKeptIf card groups note) }
    ensures lost { IfOk result (λ kept. IsTrue (L.is_clean log.new) → kept ≡ false
        → (groups : List (List (List ℕ))) → till ≤ length (L.text log.old)
        → take till (L.text log.old) ≡ journal_text (first_sum card) groups
        → IsKeptIf card groups note → ⊥) }
    ensures clean { IsTrue (L.is_clean log.new) → IsTrue (L.is_clean log.old) }
    ensures rests { L.rests log.old → L.rests log.new }
    ensures same { L.text log.new ≡ L.text log.old }
    ensures crash { (c : List ℕ) → L.may_leave log.new c → L.may_leave log.old c }
    ensures passing { IfErr result IsPassing }
{
    let Some(note) = note else {
        return Ok(true);
    };
    // For the prover: it reads the clauses of a result that was opened.
    let kept = is_kept(alloc, card, note, till, log)?;
    Ok(kept)
}

// How far the groups of a file with this card go. It isn't changed.
fn end_of_groups<L: Log>(alloc: Global, card: Note, log: &mut L) -> Result<usize, OpenError>
    ensures sound { OnOk result (IsTrue (L.is_clean log.new)
        → (found (first_sum card) (L.text log.old)).is_damaged ≡ false) }
    ensures within { IfOk result
        (λ till. IsTrue (L.is_clean log.new) → till ≤ length (L.text log.old)) }
    ensures groups { IfOk result (λ till. IsTrue (L.is_clean log.new)
        → take till (L.text log.old)
        ≡ journal_text (first_sum card) (found (first_sum card) (L.text log.old)).groups) }
    ensures refuses { IfErr result (λ error. IsTrue (L.is_clean log.new)
        → (found (first_sum card) (L.text log.old)).is_damaged ≡ false → IsPassing error) }
    ensures clean { IsTrue (L.is_clean log.new) → IsTrue (L.is_clean log.old) }
    ensures rests { L.rests log.old → L.rests log.new }
    ensures same { L.text log.new ≡ L.text log.old }
    ensures crash { (c : List ℕ) → L.may_leave log.new c → L.may_leave log.old c }
{
    let first = first_sum(card);
    let extent = match check(alloc, &first, log) {
        Ok(extent) => extent,
        Err(error) => return Err(text_error(error)),
    };
    Ok(extent.sound.end)
}

/// Looks whether a file has whole groups under its card, and what this says and two witnesses say.
/// Its last lines may be missing if less is taken, but no part of its checkpoint. It isn't changed.
pub fn check_text<L: Log>(
    alloc: Global,
    takes_less: bool,
    card: Note,
    own: Option<Note>,
    other: Option<Note>,
    log: &mut L,
) -> Result<(), OpenError>
    ensures sound { OnOk result (IsTrue (L.is_clean log.new)
        → (found (first_sum card) (L.text log.old)).is_damaged ≡ false) }
    ensures part { OnOk result (IsTrue (L.is_clean log.new)
        → IsKept card (found (first_sum card) (L.text log.old)).groups card) }
    ensures kept { OnOk result (IsTrue (L.is_clean log.new) → takes_less ≡ false
        → AreKept card own other (found (first_sum card) (L.text log.old)).groups) }
    ensures refuses { IfErr result (λ error. IsTrue (L.is_clean log.new)
        → (found (first_sum card) (L.text log.old)).is_damaged ≡ false
        → AreKept card own other (found (first_sum card) (L.text log.old)).groups
        → IsPassing error) }
    ensures clean { IsTrue (L.is_clean log.new) → IsTrue (L.is_clean log.old) }
    ensures rests { L.rests log.old → L.rests log.new }
    ensures same { L.text log.new ≡ L.text log.old }
    ensures crash { (c : List ℕ) → L.may_leave log.new c → L.may_leave log.old c }
{
    let till = match end_of_groups(alloc, card, log) {
        Ok(till) => till,
        Err(error) => return Err(error),
    };
    let has_part = is_kept_if(alloc, card, Some(card), till, log)?;
    if !has_part {
        return Err(OpenError::Part);
    }
    if takes_less {
        return Ok(());
    }
    let has_own = is_kept_if(alloc, card, own, till, log)?;
    if !has_own {
        return Err(OpenError::Less);
    }
    let has_other = is_kept_if(alloc, card, other, till, log)?;
    if !has_other {
        return Err(OpenError::Less);
    }
    Ok(())
}
