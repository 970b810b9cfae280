//! The head of a journal's file.
ghost use Rattle.std.specs.Prelude.{◌≡◌, ◌==◌, ◌||◌, ◌<◌, ◌≤◌, ◌+◌, ◌*◌, ◌++◌, ◌∷◌, [], ℕ, List, length, take, drop, replicate, slice_index, bytes_eq, IfOk, IfErr, IfSome, IfNone, IsErrOf, true, false};
ghost use Rattle.std.specs.List.{list_any};
ghost use Rattle.journal.specs.Head.{first_line, old_line, is_first_line, has_page, marks_of, selector_of, is_other, is_there, is_pair, pairs, head_byte, is_head_byte, is_blank, IsHead};
ghost use Rattle.journal.specs.Selector.{selector_bytes};

use crate::JournalError;
use std::alloc::{AllocError, Global};

/// The length of a head in bytes.
pub const HEAD: usize = 4_096;

/// Where the last byte of a head stands.
pub const HEAD_END: usize = 4_095;

/// The length of a step in bytes.
pub const STEP: usize = 1_048_576;

/// Zeros are written by as many bytes at a time.
pub const PIECE: usize = 65_536;

/// A file has as many steps at most: its head has room for no more pairs of marks.
pub const STEPS: usize = 2_037;

// The first line of a new head, of format 2.
const FIRST_LINE: &[u8; 17] = b"#metad journal 2\n";

// The first line of a head of format 1.
const OLD_LINE: &[u8; 17] = b"#metad journal 1\n";

/// Whether the first line is that of a file with a page of notes.
pub fn has_page(head: &[u8]) -> bool
    ensures { result ≡ has_page head.now }
{
    if head.len() < 17 {
        return false;
    }
    &head[..17] == FIRST_LINE.as_slice()
}

// Whether the first line is that of a file of format 1.
fn has_old_line(head: &[u8]) -> bool
    ensures { result ≡ bytes_eq (take 17 head.now) old_line }
{
    if head.len() < 17 {
        return false;
    }
    &head[..17] == OLD_LINE.as_slice()
}

// Whether the first line is that of a journal.
fn has_first_line(head: &[u8]) -> bool
    ensures { result ≡ is_first_line (take 17 head.now) }
{
    let is_new = has_page(head);
    let is_old = has_old_line(head);
    is_new | is_old
}

// Whether a byte is neither a mark nor 0.
fn has_other(marks: &[u8]) -> bool
    ensures { result ≡ list_any is_other marks.now }
{
    marks.iter().any(|b| *b != 0 && *b != b'+')
}

// Whether a byte isn't 0.
fn has_byte(marks: &[u8]) -> bool
    ensures { result ≡ list_any is_there marks.now }
{
    marks.iter().any(|b| *b != 0)
}

// Whether one of a pair of marks is there.
fn has_pair(marks: &[u8], steps: usize) -> bool
    requires { 2 * steps + 1 < length marks.now }
    ensures { result
        ≡ is_pair (slice_index marks.now (2 * steps)) (slice_index marks.now (2 * steps + 1)) }
{
    let one = marks[2 * steps] == b'+';
    let other = marks[2 * steps + 1] == b'+';
    one | other
}

// How many pairs of marks count.
fn count_pairs(marks: &[u8]) -> usize
    requires { length marks.now ≡ 4074 }
    ensures count { result ≡ pairs marks.now }
    ensures bound { result ≤ 2037 }
{
    let mut steps = 0usize;
    'counting: while steps < STEPS {
        if !has_pair(marks, steps) {
            return steps;
        }
        steps += 1;
    }
    steps
}

/// Where what is believed ends in the file.
pub fn end_of(steps: usize) -> usize
    requires { steps ≤ 2037 }
    ensures { result ≡ 4096 + 1048576 * steps }
{
    HEAD + STEP * steps
}

/// Where a place of what is believed stands in the file.
pub fn place_of(at: usize) -> Result<usize, JournalError>
    ensures ok { IfOk result (λ place. place ≡ 4096 + at) }
    ensures failed { IfErr result (λ error. error ≡ JournalError.DiskFailed) }
{
    match HEAD.checked_add(at) {
        Some(place) => Ok(place),
        None => Err(JournalError::DiskFailed),
    }
}

/// How many steps of a file are believed, by its first 4,096 bytes and its size. There is none
/// where the file begins with another line.
pub fn read_head(head: &[u8], size: usize) -> Result<Option<usize>, JournalError>
    requires { length head.now ≤ 4096 }
    ensures some { IfOk result (λ found. IfSome found (λ steps. IsHead head.now size steps)) }
    ensures bound { IfOk result (λ found. IfSome found (λ steps. steps ≤ 2037)) }
    ensures none { IfOk result
        (λ found. IfNone found (is_first_line (take 17 head.now) ≡ false)) }
    ensures damaged { IsErrOf result JournalError.Damaged
        → (is_first_line (take 17 head.now) ≡ true)
        × ((steps : ℕ) → IsHead head.now size steps → ⊥) }
    ensures failed { IfErr result (λ error. error ≡ JournalError.Damaged) }
{
    if !has_first_line(head) {
        return Ok(None);
    }
    if head.len() != HEAD {
        return Err(JournalError::Damaged);
    }
    if head[4_095] != b'\n' {
        return Err(JournalError::Damaged);
    }
    if head[4_094] != 0 {
        return Err(JournalError::Damaged);
    }
    let marks = &head[17..4_091];
    if has_other(marks) {
        return Err(JournalError::Damaged);
    }
    if has_other(&head[4_091..4_094]) {
        return Err(JournalError::Damaged);
    }
    let steps = count_pairs(marks);
    if has_byte(&marks[2 * steps..]) {
        return Err(JournalError::Damaged);
    }
    if end_of(steps) > size {
        return Err(JournalError::Damaged);
    }
    Ok(Some(steps))
}

// The byte of a new head at a place.
fn head_byte(at: usize) -> u8
    ensures { result ≡ head_byte at }
{
    if at == 4_095 {
        return b'\n';
    }
    match FIRST_LINE.get(at) {
        Some(byte) => *byte,
        None => 0,
    }
}

// Whether a byte is that of a new head, of either format.
fn is_head_byte(at: usize, byte: u8) -> bool
    ensures { result ≡ is_head_byte at byte }
{
    let wanted = head_byte(at);
    let is_wanted = byte == wanted;
    let is_place = at == 15;
    let is_digit = byte == b'1';
    is_wanted | (is_place & is_digit)
}

// Whether a byte of a file is that of a new head or 0.
fn is_blank_byte(at: usize, byte: u8) -> bool
    ensures { result ≡ ((byte == 0) || is_head_byte at byte) }
{
    let is_zero = byte == 0;
    let is_wanted = is_head_byte(at, byte);
    is_zero | is_wanted
}

/// Whether a file holds no more than a part of a new head, and zeros.
pub fn is_blank(file: &[u8]) -> bool
    ensures { result ≡ is_blank file.now }
{
    let mut at = 0usize;
    'looking: while at < file.len() {
        if !is_blank_byte(at, file[at]) {
            return false;
        }
        at += 1;
    }
    true
}

/// As many zeros as `count`.
pub fn make_zeros(alloc: Global, count: usize) -> Result<Vec<u8>, AllocError>
    ensures { IfOk result (λ zeros. zeros.items ≡ replicate count 0) }
{
    vec![in alloc; 0u8; count]
}

// The first line, as many bytes of 0 as `marks`, and a line feed.
fn make_head(alloc: Global, marks: usize) -> Result<Vec<u8>, AllocError>
    ensures { IfOk result (λ head. head.items ≡ first_line ++ (replicate marks 0 ++ 10 ∷ [])) }
{
    let zeros = make_zeros(alloc, marks)?;
    let mut head = Vec::new(alloc);
    head.extend_from_slice(FIRST_LINE)?;
    head.extend_from_slice(&zeros)?;
    head.push(b'\n')?;
    Ok(head)
}

/// The head of a file that never grew.
pub fn new_head(alloc: Global) -> Result<Vec<u8>, AllocError>
    ensures head { IfOk result (λ head. (size : ℕ) → 4096 ≤ size → IsHead head.items size 0) }
    ensures length { IfOk result (λ head. length head.items ≡ 4096) }
    ensures selector { IfOk result (λ head. selector_of head.items ≡ selector_bytes false) }
{
    make_head(alloc, 4_078)
}
