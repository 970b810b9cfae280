//! Makes a file longer that doesn't count.
ghost use Rattle.std.specs.Prelude.{◌≡◌, ◌≤◌, List, ℕ, length, IsTrue, IfOk, IfSome, OnOk};
ghost use Rattle.journal.specs.Crashes.{Only};
ghost use Rattle.journal.specs.Growth.{Longer};

use journal::{JournalError, Log};

// Makes a file longer that has fewer bytes than these, by one step of it. Answers how many it has,
// where these are enough.
fn grow_once<L: Log>(log: &mut L, bytes: usize) -> Result<Option<usize>, JournalError>
    ensures longer { OnOk result (IsTrue (L.is_clean log.old)
        → Only (L.text log.old) (L.may_leave log.old)
        → Longer (L.text log.old) (L.text log.new) × Only (L.text log.new) (L.may_leave log.new)) }
    ensures size { IfOk result (λ grown. IfSome grown (λ size. IsTrue (L.is_clean log.new)
        → (bytes ≤ size) × (size ≡ length (L.text log.new)))) }
    ensures calm { L.is_clean log.new ≡ L.is_clean log.old }
    ensures crash { IsTrue (L.is_clean log.old) → Only (L.text log.old) (L.may_leave log.old)
        → (c : List ℕ) → L.may_leave log.new c → Longer (L.text log.old) c }
{
    let size = log.size()?;
    let is_long = size >= bytes;
    if is_long {
        return Ok(Some(size));
    }
    log.grow()?;
    Ok(None)
}

/// Makes a file longer by zeros until it has this number of bytes at least, and waits until they
/// are on the disk. Answers how many it has.
pub fn grow_to<L: Log>(log: &mut L, bytes: usize) -> Result<usize, JournalError>
    ensures durable { OnOk result (IsTrue (L.is_clean log.old)
        → Only (L.text log.old) (L.may_leave log.old)
        → Only (L.text log.new) (L.may_leave log.new)) }
    ensures size { IfOk result (λ size. IsTrue (L.is_clean log.new)
        → (bytes ≤ size) × (size ≡ length (L.text log.new))) }
    ensures calm { L.is_clean log.new ≡ L.is_clean log.old }
    ensures crash { IsTrue (L.is_clean log.old) → Only (L.text log.old) (L.may_leave log.old)
        → (c : List ℕ) → L.may_leave log.new c → Longer (L.text log.old) c }
{
    'growing: for _ in 0..bytes {
        let grown = grow_once(log, bytes)?;
        if let Some(size) = grown {
            return Ok(size);
        }
    }
    Err(JournalError::CannotGrow)
}
