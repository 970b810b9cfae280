//! Reads the lines of a journal again, block by block.
ghost use Rattle.std.specs.Prelude.{◌≡◌, ◌≤◌, ◌<◌, ◌+◌, ◌-◌, ◌++◌, ℕ, List, [], length, take, drop, IsTrue, IfOk, IsErrOf, false};
ghost use Rattle.std.specs.List.{list_any};
ghost use Rattle.journal.specs.Text.{is_line_feed};
ghost use Rattle.journal.specs.Reading.{whole_lines};
ghost use Rattle.journal.specs.Reads.{IsCut};

use crate::reading::BLOCK;
use crate::{JournalError, Log};

// Where the last line of a block ends, or 0.
fn last_end(block: &[u8]) -> usize
    ensures within { result ≤ length block.now }
    ensures lines { (rest : List ℕ) → whole_lines (block.now ++ rest)
        ≡ whole_lines (take result block.now) ++ whole_lines (drop result block.now ++ rest) }
    ensures none { result ≡ 0 → list_any is_line_feed block.now ≡ false }
{
    let mut at = block.len();
    while at > 0 {
        if block[at - 1] == b'\n' {
            return at;
        }
        at -= 1;
    }
    0
}

// Keeps the whole lines of a block, and answers where they end.
fn cut_block(block: &mut Vec<u8>) -> usize
    ensures { IsCut block.old.items block.new.items result }
{
    let cut = last_end(block);
    block.truncate(cut);
    cut
}

// Twice as many bytes, or all that are left.
fn longer(count: usize, left: usize) -> usize
    ensures within { result ≤ left }
    ensures longer { 0 < count → count < left → count < result }
{
    count.saturating_mul(2).min(left)
}

// The whole lines of so many bytes, and where they end.
fn read_some<D: Log>(
    log: &mut D,
    at: usize,
    count: usize,
    block: &mut Vec<u8>,
) -> Result<usize, JournalError>
    ensures cut { IfOk result (λ cut. IsTrue (D.is_clean log.new)
        → IsCut (take count (drop at (D.text log.old))) block.new.items cut) }
    ensures clean { IsTrue (D.is_clean log.new) → IsTrue (D.is_clean log.old) }
    ensures rests { D.rests log.old → D.rests log.new }
    ensures same { D.text log.new ≡ D.text log.old }
    ensures crash { (c : List ℕ) → D.may_leave log.new c → D.may_leave log.old c }
    ensures blind { IsErrOf result JournalError.Damaged → ⊥ }
{
    log.read(at, count, block)?;
    let cut = cut_block(block);
    Ok(cut)
}

// The place so many bytes further on.
fn place_of(at: usize, count: usize) -> Result<usize, JournalError>
    ensures ok { IfOk result (λ place. place ≡ at + count) }
    ensures blind { IsErrOf result JournalError.Damaged → ⊥ }
{
    match at.checked_add(count) {
        Some(place) => Ok(place),
        None => Err(JournalError::DiskFailed),
    }
}

/// Whole lines from a place on, up to another: about a block of them, or one where it is longer. It
/// answers where they end.
pub fn read_lines<D: Log>(
    log: &mut D,
    at: usize,
    end: usize,
    block: &mut Vec<u8>,
) -> Result<usize, JournalError>
    ensures lines { IfOk result (λ next. IsTrue (D.is_clean log.new) → at ≤ end
        → whole_lines (take (end - at) (drop at (D.text log.old)))
        ≡ whole_lines block.new.items ++ whole_lines
        (take (end - next) (drop next (D.text log.old)))) }
    ensures goes_on { IfOk result
        (λ next. IsTrue (D.is_clean log.new) → at < end → (at < next) × (next ≤ end)) }
    ensures clean { IsTrue (D.is_clean log.new) → IsTrue (D.is_clean log.old) }
    ensures rests { D.rests log.old → D.rests log.new }
    ensures same { D.text log.new ≡ D.text log.old }
    ensures crash { (c : List ℕ) → D.may_leave log.new c → D.may_leave log.old c }
    ensures blind { IsErrOf result JournalError.Damaged → ⊥ }
{
    let left = end.saturating_sub(at);
    let mut count = left.min(BLOCK);
    'trying: while count < left {
        let cut = read_some(log, at, count, block)?;
        if cut > 0 {
            // For the prover: the result is opened, not passed on.
            let next = place_of(at, cut)?;
            return Ok(next);
        }
        count = longer(count, left);
    }
    let cut = read_some(log, at, left, block)?;
    if cut > 0 {
        // For the prover: the result is opened, not passed on.
        let next = place_of(at, cut)?;
        return Ok(next);
    }
    Ok(end)
}
