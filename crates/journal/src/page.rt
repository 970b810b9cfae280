//! The page of notes before the text of a file of format 2.
ghost use Rattle.std.specs.Prelude.{◌≡◌, ◌≤◌, ◌+◌, ◌∷◌, List, ℕ, length, take, drop, bytes_eq, true, false, IsTrue, IfOk, OnOk, IsErrOf};
ghost use Rattle.journal.specs.Crashes.{Only, written};
ghost use Rattle.journal.specs.Notes.{note_text, is_found, IsNote, Reads, NoteLeft};
ghost use Rattle.journal.specs.Misnamed.{is_read, has_any, HasNote};

mod anew;
mod bond;
mod note;
mod paged;

use crate::journal_file::make_zeros;
use crate::page::note::is_whole;
use crate::{JournalError, Log};
pub use anew::{NotBlank, make_anew, make_page};
pub use bond::{Bond, bond_of};
pub use note::{CARD, NOTE, Note, WITNESS, first_sum, identity_of, note_bytes, read_note};
pub use paged::Paged;
use std::alloc::{AllocError, Global};

/// The length of a page in bytes.
pub const PAGE: usize = 4_096;

/// The notes of a page, as far as they can be read.
#[derive(Clone, Copy, Drop)]
pub struct Notes {
    pub card: Option<Note>,
    pub witness: Option<Note>,
}

/// Puts a note into a page, and waits until it is on the disk: first zeros, then the note over
/// them. So of a note that a crash cut short a byte is 0, and it isn't read.
pub fn put_note<L: Log>(
    alloc: Global,
    log: &mut L,
    at: usize,
    note: Note,
) -> Result<(), JournalError>
    ensures ok { OnOk result (IsTrue (L.is_clean log.old)
        → L.text log.new ≡ written at (note_text note) (L.text log.old)) }
    ensures fits { OnOk result
        (IsTrue (L.is_clean log.old) → at + 197 ≤ length (L.text log.old)) }
    ensures whole { OnOk result (IsNote note) }
    ensures durable { OnOk result
        (IsTrue (L.is_clean log.old) → Only (L.text log.new) (L.may_leave log.new)) }
    ensures calm { L.is_clean log.new ≡ L.is_clean log.old }

    // A crash leaves the rest of the file, and there no other note than the old one and this.
    ensures crash { IsTrue (L.is_clean log.old)
        → Only (L.text log.old) (L.may_leave log.old)
        → (c : List ℕ) → L.may_leave log.new c → NoteLeft at note (L.text log.old) c }
    ensures blind { IsErrOf result JournalError.Damaged → ⊥ }
{
    if !is_whole(note) {
        return Err(JournalError::NoLine);
    }
    let text = note_bytes(alloc, note)?;
    let zeros = make_zeros(alloc, NOTE)?;
    log.put(at, &zeros)?;
    log.put(at, &text)?;
    Ok(())
}

// What stands behind a place of a block.
fn behind(block: &[u8], at: usize) -> &[u8]
    ensures { result.now ≡ drop at block.now }
{
    if at > block.len() {
        return &[];
    }
    &block[at..]
}

// The note at a place of a block.
fn note_at(alloc: Global, block: &[u8], at: usize) -> Result<Option<Note>, AllocError>
    ensures { IfOk result (λ found. Reads at block.now found) }
{
    // For the prover: it reads the clause of a result that was opened.
    let found = read_note(alloc, behind(block, at))?;
    Ok(found)
}

/// The notes of a block that begins as a page does.
pub(crate) fn notes_in(alloc: Global, block: &[u8]) -> Result<Notes, AllocError>
    ensures card { IfOk result (λ notes. Reads 0 block.now notes.card) }
    ensures witness { IfOk result (λ notes. Reads 512 block.now notes.witness) }
{
    let card = note_at(alloc, block, CARD)?;
    let witness = note_at(alloc, block, WITNESS)?;
    Ok(Notes { card, witness })
}

// Whether a note was read.
fn is_read(note: Option<Note>) -> bool
    ensures { result ≡ is_read note }
{
    match note {
        Some(_) => true,
        None => false,
    }
}

/// Whether a note of a page was read.
pub(crate) fn has_any(notes: Notes) -> bool
    ensures { result ≡ has_any notes }
{
    let card = is_read(notes.card);
    let witness = is_read(notes.witness);
    card | witness
}

/// The notes of a file's page. A file without one, or with an unreadable one, has none.
pub fn read_page<L: Log>(alloc: Global, log: &mut L) -> Result<Notes, JournalError>
    ensures card { IfOk result (λ notes. IsTrue (L.is_clean log.new)
        → Reads 0 (L.text log.old) notes.card) }
    ensures witness { IfOk result (λ notes. IsTrue (L.is_clean log.new)
        → Reads 512 (L.text log.old) notes.witness) }
    ensures clean { IsTrue (L.is_clean log.new) → IsTrue (L.is_clean log.old) }
    ensures rests { L.rests log.old → L.rests log.new }
    ensures same { L.text log.new ≡ L.text log.old }
    ensures crash { (c : List ℕ) → L.may_leave log.new c → L.may_leave log.old c }
    ensures blind { IsErrOf result JournalError.Damaged → ⊥ }
{
    let size = log.size()?;
    let count = size.min(PAGE);
    let mut block: Vec<u8> = Vec::new(alloc);
    log.read(0, count, &mut block)?;
    // For the prover: it reads the clauses of a result that was opened.
    let notes = notes_in(alloc, &block)?;
    Ok(notes)
}

/// Whether a note stands where the text begins of a file whose first line names format 1. No text
/// of format 1 has one: the file has format 2, and the digit in its first line was changed.
pub fn hides_note<L: Log>(alloc: Global, log: &mut L) -> Result<bool, JournalError>
    ensures note { IfOk result (λ hides. IsTrue (L.is_clean log.new) → hides ≡ true
        → HasNote (L.text log.old)) }
    ensures none { IfOk result (λ hides. IsTrue (L.is_clean log.new) → hides ≡ false
        → HasNote (L.text log.old) → ⊥) }
    ensures clean { IsTrue (L.is_clean log.new) → IsTrue (L.is_clean log.old) }
    ensures rests { L.rests log.old → L.rests log.new }
    ensures same { L.text log.new ≡ L.text log.old }
    ensures crash { (c : List ℕ) → L.may_leave log.new c → L.may_leave log.old c }
    ensures blind { IsErrOf result JournalError.Damaged → ⊥ }
{
    let notes = read_page(alloc, log)?;
    Ok(has_any(notes))
}

// Whether these bytes are those of a commit line up to its sum.
fn is_mark_of(block: &[u8], sum: &[u8; 64]) -> bool
    ensures { result ≡ bytes_eq block.now (35 ∷ sum.now) }
{
    match block {
        [mark, rest @ ..] => *mark == b'#' && rest == sum.as_slice(),
        _ => false,
    }
}

/// Whether what a note says is found in a file whose groups go up to a place.
pub fn finds<L: Log>(
    alloc: Global,
    log: &mut L,
    note: Note,
    till: usize,
) -> Result<bool, JournalError>
    ensures found { IfOk result (λ finds. IsTrue (L.is_clean log.new)
        → finds ≡ is_found note (L.text log.old) till) }
    ensures clean { IsTrue (L.is_clean log.new) → IsTrue (L.is_clean log.old) }
    ensures rests { L.rests log.old → L.rests log.new }
    ensures same { L.text log.new ≡ L.text log.old }
    ensures crash { (c : List ℕ) → L.may_leave log.new c → L.may_leave log.old c }
    ensures blind { IsErrOf result JournalError.Damaged → ⊥ }
{
    if note.end == 0 {
        return Ok(true);
    }
    if note.end > till {
        return Ok(false);
    }
    let at = note.end.saturating_sub(83);
    let mut block: Vec<u8> = Vec::new(alloc);
    log.read(at, 65, &mut block)?;
    Ok(is_mark_of(&block, &note.sum))
}
