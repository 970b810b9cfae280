//! Opens a file that a crash may have left.
ghost use Rattle.std.specs.Prelude.{◌≡◌, ◌-◌, ◌≤◌, ◌+◌, ◌++◌, List, ℕ, IsTrue, IfOk, IsErrOf, OnOk, replicate, length, take, drop, false, true};
ghost use Rattle.journal.specs.Crashes.{Only, Holes, written};
ghost use Rattle.journal.specs.Reading.{found};
ghost use Rattle.journal.specs.Groups.{HasGroups};

use crate::reading::BLOCK;
use crate::{JournalError, Log, Sound, check};
use std::alloc::{AllocError, Global};

// A text of zeros.
fn zeros(alloc: Global, count: usize) -> Result<Vec<u8>, AllocError>
    ensures { IfOk result (λ zeros. zeros.items ≡ replicate count 0) }
{
    vec![in alloc; 0u8; count]
}

// Puts zeros over a block.
fn put_zeros<D: Log>(
    alloc: Global,
    log: &mut D,
    at: usize,
    count: usize,
) -> Result<(), JournalError>
    ensures ok { OnOk result
        (IsTrue (D.is_clean log.old)
        → (D.text log.new ≡ written at (replicate count 0) (D.text log.old))
        × (at + count ≤ length (D.text log.old)) × Only (D.text log.new) (D.may_leave log.new)) }
    ensures calm { D.is_clean log.new ≡ D.is_clean log.old }
    ensures crash { IsTrue (D.is_clean log.old) → Only (D.text log.old) (D.may_leave log.old)
        → (c : List ℕ) → D.may_leave log.new c
        → (left : List ℕ) × Holes (drop at (D.text log.old)) left
        × (c ≡ take at (D.text log.old) ++ left) }
    ensures blind { IsErrOf result JournalError.Damaged → ⊥ }
{
    let zeros = zeros(alloc, count)?;
    log.put(at, &zeros)?;
    Ok(())
}

// Puts zeros from one place to another, block by block.
fn blank<D: Log>(alloc: Global, log: &mut D, from: usize, till: usize) -> Result<(), JournalError>
    ensures ok { OnOk result
        (IsTrue (D.is_clean log.old) → from ≤ length (D.text log.old)
        → Only (D.text log.old) (D.may_leave log.old)
        → (D.text log.new ≡ written from (replicate (till - from) 0) (D.text log.old))
        × Only (D.text log.new) (D.may_leave log.new)) }
    ensures calm { D.is_clean log.new ≡ D.is_clean log.old }
    ensures crash { IsTrue (D.is_clean log.old) → from ≤ length (D.text log.old)
        → Only (D.text log.old) (D.may_leave log.old)
        → (c : List ℕ) → D.may_leave log.new c
        → (left : List ℕ) × Holes (drop from (D.text log.old)) left
        × (c ≡ take from (D.text log.old) ++ left) }
    ensures blind { IsErrOf result JournalError.Damaged → ⊥ }
{
    let mut at = from;
    'blanking: while at < till {
        let count = (till - at).min(BLOCK);
        put_zeros(alloc, log, at, count)?;
        at += count;
    }
    Ok(())
}

/// Reads the groups of a file that a crash may have left, and blanks what was never committed. It
/// may crash too.
pub fn recover<D: Log>(alloc: Global, first: &[u8; 64], log: &mut D) -> Result<Sound, JournalError>
    // After a restart, what is read is what is on the disk.
    requires { D.rests log.old }
    ensures clean { IsTrue (D.is_clean log.new) → IsTrue (D.is_clean log.old) }
    ensures sound { OnOk result
        (IsTrue (D.is_clean log.new) → (found first.now (D.text log.old)).is_damaged ≡ false) }
    ensures groups { IfOk result (λ sound. IsTrue (D.is_clean log.new)
        → HasGroups (D.text log.new) (D.may_leave log.new) sound.last sound.end first.now
        (found first.now (D.text log.old)).groups) }
    ensures damaged { IsErrOf result JournalError.Damaged → IsTrue (D.is_clean log.new)
        → (found first.now (D.text log.old)).is_damaged ≡ true }

    // A crash at any moment leaves a file that is read as this one.
    ensures crash { IsTrue (D.is_clean log.new) → (c : List ℕ) → D.may_leave log.new c
        → found first.now c ≡ found first.now (D.text log.old) }
{
    let extent = check(alloc, first, log)?;
    let sound = extent.sound;
    blank(alloc, log, sound.end, extent.till)?;
    Ok(sound)
}
