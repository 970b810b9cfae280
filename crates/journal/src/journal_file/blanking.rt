//! Puts zeros over a file that doesn't count.
ghost use Rattle.std.specs.Prelude.{◌≡◌, ◌≤◌, ◌+◌, List, ℕ, IsTrue, IsErrOf, OnOk, replicate, length};
ghost use Rattle.journal.specs.Crashes.{Only, Holes, written};

use crate::journal_file::head::{STEP, make_zeros};
use crate::{JournalError, Log};
use std::alloc::Global;

// Puts zeros over a piece of a file.
fn blank_piece<L: Log>(
    alloc: Global,
    log: &mut L,
    at: usize,
    count: usize,
) -> Result<(), JournalError>
    ensures ok { OnOk result
        (IsTrue (L.is_clean log.old)
        → (L.text log.new ≡ written at (replicate count 0) (L.text log.old))
        × (at + count ≤ length (L.text log.old)) × Only (L.text log.new) (L.may_leave log.new)) }
    ensures calm { L.is_clean log.new ≡ L.is_clean log.old }
    ensures crash { IsTrue (L.is_clean log.old) → Only (L.text log.old) (L.may_leave log.old)
        → (c : List ℕ) → L.may_leave log.new c → Holes (L.text log.old) c }
    ensures blind { IsErrOf result JournalError.Damaged → ⊥ }
{
    let zeros = make_zeros(alloc, count)?;
    log.put(at, &zeros)?;
    Ok(())
}

// Puts zeros over the front of a file.
fn blank_front<L: Log>(alloc: Global, log: &mut L, size: usize) -> Result<(), JournalError>
    ensures ok { OnOk result
        (IsTrue (L.is_clean log.old) → size ≡ length (L.text log.old)
        → L.text log.new ≡ replicate size 0) }
    ensures durable { OnOk result
        (IsTrue (L.is_clean log.old) → Only (L.text log.old) (L.may_leave log.old)
        → Only (L.text log.new) (L.may_leave log.new)) }
    ensures calm { L.is_clean log.new ≡ L.is_clean log.old }
    ensures crash { IsTrue (L.is_clean log.old) → Only (L.text log.old) (L.may_leave log.old)
        → (c : List ℕ) → L.may_leave log.new c → Holes (L.text log.old) c }
    ensures blind { IsErrOf result JournalError.Damaged → ⊥ }
{
    let mut at = 0usize;
    'blanking: while at < size {
        let count = (size - at).min(STEP);
        blank_piece(alloc, log, at, count)?;
        at += count;
    }
    Ok(())
}

/// Puts zeros over all that is believed of a file, and waits until they are on the disk.
pub fn blank<L: Log>(alloc: Global, log: &mut L) -> Result<(), JournalError>
    ensures ok { OnOk result
        (IsTrue (L.is_clean log.old)
        → L.text log.new ≡ replicate (length (L.text log.old)) 0) }
    ensures durable { OnOk result
        (IsTrue (L.is_clean log.old) → Only (L.text log.old) (L.may_leave log.old)
        → Only (L.text log.new) (L.may_leave log.new)) }
    ensures calm { L.is_clean log.new ≡ L.is_clean log.old }

    // A crash leaves each byte or loses it.
    ensures crash { IsTrue (L.is_clean log.old) → Only (L.text log.old) (L.may_leave log.old)
        → (c : List ℕ) → L.may_leave log.new c → Holes (L.text log.old) c }
    ensures blind { IsErrOf result JournalError.Damaged → ⊥ }
{
    let size = log.size()?;
    blank_front(alloc, log, size)?;
    Ok(())
}
