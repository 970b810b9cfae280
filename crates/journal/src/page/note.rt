//! Notes: what a page says that stands before the text of a file.
ghost use Rattle.std.specs.Prelude.{◌≡◌, ◌≤◌, ◌<◌, ◌^◌, ◌++◌, ◌∷◌, [], ℕ, List, length, take, drop, Some, true, IfOk, IfSome, IfNone, OnOk};
ghost use Rattle.hex.specs.Hex.{encode_lower};
ghost use Rattle.journal.specs.Text.{place_text};
ghost use Rattle.journal.specs.Notes.{note_body, note_text, first_sum, IsNote, Reads};

use crate::lines::is_torn;
use crate::sum::{place_of, sum_of, sum_of_place};
use hex::{decode_to_slice, encode_to_slice};
use std::alloc::{AllocError, Global};

/// The length of a note in bytes.
pub const NOTE: usize = 197;

/// Where the card of a file stands in its page.
pub const CARD: usize = 0;

/// Where the witness of the file that counts stands in a page.
pub const WITNESS: usize = 512;

/// What a page says of a file: its store, which of its files it is, and how far it went.
#[derive(Clone, Copy, Drop)]
pub struct Note {
    /// The store's identity, as 32 hexadecimal digits.
    pub identity: [u8; 32],
    /// How many checkpoints were taken up to this file.
    pub generation: usize,
    /// Where its groups ended.
    pub end: usize,
    /// Their last sum.
    pub sum: [u8; 64],
}

/// An identity as digits.
pub fn identity_of(bytes: &[u8; 16]) -> [u8; 32]
    ensures { result ≡ encode_lower bytes.now }
{
    let mut digits = [0u8; 32];
    match encode_to_slice(bytes.as_slice(), &mut digits) {
        Ok(()) => digits,
        Err(_) => unreachable!(),
    }
}

/// The sum before the first group of a file with this card.
pub fn first_sum(card: Note) -> [u8; 64]
    ensures { result ≡ first_sum card }
{
    sum_of_place(&card.identity, card.generation)
}

/// Whether a note can stand in a page.
pub fn is_whole(note: Note) -> bool
    ensures { result ≡ true → IsNote note }
{
    let is_torn_identity = is_torn(&note.identity);
    let is_torn_sum = is_torn(&note.sum);
    !is_torn_identity & !is_torn_sum
}

// Puts a number behind a text, as a commit line has its place.
fn push_place(text: &mut Vec<u8>, place: usize) -> Result<(), AllocError>
    ensures { OnOk result (text.new.items ≡ text.old.items ++ place_text place) }
{
    let digits = place_of(place);
    text.push(b' ')?;
    text.extend_from_slice(&digits)?;
    Ok(())
}

// What a note says, without its sum.
fn note_body(alloc: Global, note: Note) -> Result<Vec<u8>, AllocError>
    ensures { IfOk result (λ body. body.items ≡ note_body note) }
{
    let mut body = Vec::new(alloc);
    body.extend_from_slice(&note.identity)?;
    push_place(&mut body, note.generation)?;
    push_place(&mut body, note.end)?;
    body.push(b' ')?;
    body.extend_from_slice(&note.sum)?;
    Ok(body)
}

/// A note as it stands in a page.
pub fn note_bytes(alloc: Global, note: Note) -> Result<Vec<u8>, AllocError>
    ensures { IfOk result (λ text. text.items ≡ note_text note) }
{
    let mut text = note_body(alloc, note)?;
    let sum = sum_of(&[], &text);
    text.push(b' ')?;
    text.extend_from_slice(&sum)?;
    text.push(b'\n')?;
    Ok(text)
}

// The number that 16 digits write.
fn number_in(digits: &[u8]) -> Option<usize>
    ensures { (place : ℕ) → place < 2 ^ 64 → 32 ∷ digits.now ≡ place_text place
        → result ≡ Some place }
{
    let mut bytes = [0u8; 8];
    match decode_to_slice(digits, &mut bytes) {
        Ok(()) => Some(u64::from_be_bytes(bytes) as usize),
        Err(_) => None,
    }
}

// Bytes as an identity.
fn identity_in(bytes: &[u8]) -> [u8; 32]
    requires { length bytes.now ≡ 32 }
    ensures { result ≡ bytes.now }
{
    let mut identity = [0u8; 32];
    identity.copy_from_slice(bytes);
    identity
}

// Bytes as a sum.
fn sum_in(bytes: &[u8]) -> [u8; 64]
    requires { length bytes.now ≡ 64 }
    ensures { result ≡ bytes.now }
{
    let mut sum = [0u8; 64];
    sum.copy_from_slice(bytes);
    sum
}

// The parts of a note, where its numbers can be read.
fn parts_in(bytes: &[u8]) -> Option<Note>
    requires { 197 ≤ length bytes.now }
    ensures sized { IfSome result (λ note. (length note.identity ≡ 32) × (length note.sum ≡ 64)
        × (note.generation < 2 ^ 64) × (note.end < 2 ^ 64)) }
    ensures read { (note : Note) → IsNote note → take 197 bytes.now ≡ note_text note
        → result ≡ Some note }
{
    let identity = identity_in(&bytes[..32]);
    let sum = sum_in(&bytes[67..131]);
    let Some(generation) = number_in(&bytes[33..49]) else {
        return None;
    };
    let Some(end) = number_in(&bytes[50..66]) else {
        return None;
    };
    Some(Note {
        identity,
        generation,
        end,
        sum,
    })
}

/// The note that stands at the front of these bytes, if one does.
pub fn read_note(alloc: Global, bytes: &[u8]) -> Result<Option<Note>, AllocError>
    ensures { IfOk result (λ found. Reads 0 bytes.now found) }
{
    if bytes.len() < NOTE {
        return Ok(None);
    }
    if is_torn(&bytes[..NOTE]) {
        return Ok(None);
    }
    let Some(note) = parts_in(bytes) else {
        return Ok(None);
    };
    let text = note_bytes(alloc, note)?;
    if &bytes[..NOTE] == text.as_slice() {
        return Ok(Some(note));
    }
    Ok(None)
}
