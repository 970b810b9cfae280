//! What a file holds.
ghost use Rattle.std.specs.Prelude.{◌≡◌, ◌≤◌, ◌-◌, ◌+◌, ◌++◌, ℕ, List, [], length, take, drop, replicate, IsTrue, IfOk, IfSome, IsErrOf, OnOk, true, false};
ghost use Rattle.journal.specs.Text.{sum_after, journal_text, AreGroups};
ghost use Rattle.journal.specs.Reading.{found};
ghost use Rattle.journal.specs.Reads.{HasRead, ZerosFrom};

use crate::{JournalError, Log, Reader, Sound};
use std::alloc::Global;

/// A file is read in blocks of this size.
pub const BLOCK: usize = 65_536;

// From where on a text is zeros.
fn last_byte(text: &[u8]) -> usize
    ensures within { result ≤ length text.now }
    ensures zeros { drop result text.now ≡ replicate (length text.now - result) 0 }
{
    let mut at = text.len();
    while at > 0 && text[at - 1] == 0 {
        at -= 1;
    }
    at
}

/// How far a file is whole groups, and where its last byte ends that isn't 0.
#[derive(Clone, Copy, Drop)]
pub struct Extent {
    pub sound: Sound,
    pub till: usize,
}

// Where bytes at a place end.
fn end_of(at: usize, count: usize) -> Option<usize>
    ensures { IfSome result (λ end. end ≡ at + count) }
{
    at.checked_add(count)
}

// Where the last byte ends that isn't 0, one block further on.
fn till_in(till: usize, at: usize, block: &[u8]) -> Option<usize>
    ensures { IfSome result (λ next. (text : List ℕ) → length text ≡ at → ZerosFrom till text
        → ZerosFrom next (text ++ block.now)) }
{
    let last = last_byte(block);
    if last == 0 {
        return Some(till);
    }
    let Some(next) = end_of(at, last) else {
        return None;
    };
    Some(next)
}

// Reads one block.
fn read_block<D: Log>(
    log: &mut D,
    reader: &mut Reader,
    at: usize,
    count: usize,
    block: &mut Vec<u8>,
) -> Result<(), JournalError>
    ensures bytes { OnOk result
        (IsTrue (D.is_clean log.new) → block.new.items ≡ take count (drop at (D.text log.old))) }
    ensures ok { OnOk result
        (IsTrue (D.is_clean log.new) → (first : List ℕ)
        → HasRead first (take at (D.text log.old)) reader.old
        → HasRead first (take (at + count) (D.text log.old)) reader.new) }
    ensures damaged { IsErrOf result JournalError.Damaged → IsTrue (D.is_clean log.new)
        → (first : List ℕ) → HasRead first (take at (D.text log.old)) reader.old
        → (found first (D.text log.old)).is_damaged ≡ true }
    ensures clean { IsTrue (D.is_clean log.new) → IsTrue (D.is_clean log.old) }
    ensures rests { D.rests log.old → D.rests log.new }
    ensures same { D.text log.new ≡ D.text log.old }
    ensures crash { (c : List ℕ) → D.may_leave log.new c → D.may_leave log.old c }
{
    log.read(at, count, block)?;
    reader.read(block)?;
    Ok(())
}

/// Reads a file that a crash may have left, block by block.
pub fn check<D: Log>(alloc: Global, first: &[u8; 64], log: &mut D) -> Result<Extent, JournalError>
    ensures sound { OnOk result
        (IsTrue (D.is_clean log.new) → (found first.now (D.text log.old)).is_damaged ≡ false) }
    ensures groups { IfOk result
        (λ extent. IsTrue (D.is_clean log.new) → AreGroups (found first.now (D.text log.old)).groups
        × (extent.sound.end ≤ length (D.text log.old))
        × (take extent.sound.end (D.text log.old)
        ≡ journal_text first.now (found first.now (D.text log.old)).groups)
        × (extent.sound.last ≡ sum_after first.now (found first.now (D.text log.old)).groups)) }
    ensures zeros { IfOk result
        (λ extent. IsTrue (D.is_clean log.new) → ZerosFrom extent.till (D.text log.old)) }
    ensures damaged { IsErrOf result JournalError.Damaged → IsTrue (D.is_clean log.new)
        → (found first.now (D.text log.old)).is_damaged ≡ true }
    ensures clean { IsTrue (D.is_clean log.new) → IsTrue (D.is_clean log.old) }
    ensures rests { D.rests log.old → D.rests log.new }
    ensures same { D.text log.new ≡ D.text log.old }
    ensures crash { (c : List ℕ) → D.may_leave log.new c → D.may_leave log.old c }
{
    let size = log.size()?;
    let mut reader = Reader::new(alloc, first);
    let mut block: Vec<u8> = Vec::new(alloc);
    let mut at = 0usize;
    let mut till = 0usize;
    'reading: while at < size {
        let count = (size - at).min(BLOCK);
        read_block(log, &mut reader, at, count, &mut block)?;
        let Some(next) = till_in(till, at, &block) else {
            return Err(JournalError::DiskFailed);
        };
        till = next;
        at += count;
    }
    let sound = reader.end()?;
    Ok(Extent { sound, till })
}

/// Whether a file has a group. It is read up to the first one, and left as it is: so damage behind
/// that isn't looked for.
pub fn has_group<D: Log>(alloc: Global, first: &[u8; 64], log: &mut D) -> Result<bool, JournalError>
    ensures some { IfOk result (λ has. IsTrue (D.is_clean log.new) → has ≡ true
        → (found first.now (D.text log.old)).groups ≡ [] → ⊥) }
    ensures none { IfOk result (λ has. IsTrue (D.is_clean log.new) → has ≡ false
        → (found first.now (D.text log.old)).groups ≡ []) }
    ensures damaged { IsErrOf result JournalError.Damaged → IsTrue (D.is_clean log.new)
        → (found first.now (D.text log.old)).is_damaged ≡ true }
    ensures clean { IsTrue (D.is_clean log.new) → IsTrue (D.is_clean log.old) }
    ensures rests { D.rests log.old → D.rests log.new }
    ensures same { D.text log.new ≡ D.text log.old }
    ensures crash { (c : List ℕ) → D.may_leave log.new c → D.may_leave log.old c }
{
    let end = log.size()?;
    let mut reader = Reader::new(alloc, first);
    let mut block: Vec<u8> = Vec::new(alloc);
    let mut at = 0usize;
    'looking: while at < end {
        let count = (end - at).min(BLOCK);
        read_block(log, &mut reader, at, count, &mut block)?;
        at += count;
        if reader.has_group() {
            return Ok(true);
        }
    }
    Ok(reader.has_group())
}
