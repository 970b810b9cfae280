//! Whether two files belong together.
ghost use Rattle.std.specs.Prelude.{◌≡◌, ◌+◌, ◌==◌, ◌||◌, ◌&&◌, not, nat_lt, bytes_eq};
ghost use Rattle.journal.specs.Bonds.{is_strange, is_later, is_far, is_told, has_strange, has_later, bond_of};

use crate::page::Notes;
use crate::page::note::Note;

/// What two files say of each other.
#[derive(Clone, Copy, PartialEq, Eq, Drop)]
pub enum Bond {
    /// They are the two files of a store.
    Fits,
    /// They are of two stores.
    OtherStore,
    /// They are of two moments of a store: a checkpoint or more was taken between them.
    OtherMoment,
    /// A later file than the one that counts counted already: a head is stale, or a file is.
    Stale,
}

// Whether a note is of another store.
fn is_strange(card: Note, note: Note) -> bool
    ensures { result ≡ is_strange card.identity note }
{
    let is_same = note.identity.as_slice() == card.identity.as_slice();
    !is_same
}

// Whether a note is of a later file.
fn is_later(card: Note, note: Note) -> bool
    ensures { result ≡ is_later card.generation note }
{
    card.generation < note.generation
}

// Whether a number is the next one.
fn is_next(one: usize, other: usize) -> bool
    ensures { result ≡ (one + 1 == other) }
{
    match one.checked_add(1) {
        Some(next) => next == other,
        None => false,
    }
}

// Whether a note is of a file that is neither just before nor just after.
fn is_far(card: Note, note: Note) -> bool
    ensures { result ≡ is_far card.generation note }
{
    let is_before = is_next(note.generation, card.generation);
    let is_after = is_next(card.generation, note.generation);
    !is_before & !is_after
}

// Whether a note that can be read is of another store.
fn tells_strange(card: Note, note: Option<Note>) -> bool
    ensures { result ≡ is_told (is_strange card.identity) note }
{
    match note {
        Some(note) => is_strange(card, note),
        None => false,
    }
}

// Whether a note that can be read is of a later file.
fn tells_later(card: Note, note: Option<Note>) -> bool
    ensures { result ≡ is_told (is_later card.generation) note }
{
    match note {
        Some(note) => is_later(card, note),
        None => false,
    }
}

// Whether a note that can be read is of a file that isn't near.
fn tells_far(card: Note, note: Option<Note>) -> bool
    ensures { result ≡ is_told (is_far card.generation) note }
{
    match note {
        Some(note) => is_far(card, note),
        None => false,
    }
}

/// What the notes of two files say, the first of which counts, and has this card and this witness.
pub fn bond_of(card: Note, own: Option<Note>, other: Notes) -> Bond
    ensures { result ≡ bond_of card own other }
{
    let one = tells_strange(card, own);
    let two = tells_strange(card, other.card);
    let three = tells_strange(card, other.witness);
    if one | (two | three) {
        return Bond::OtherStore;
    }
    let own_later = tells_later(card, own);
    let other_later = tells_later(card, other.witness);
    if own_later | other_later {
        return Bond::Stale;
    }
    if tells_far(card, other.card) {
        return Bond::OtherMoment;
    }
    Bond::Fits
}
