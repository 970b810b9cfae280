//! A witness of the file that counts, in the page of the other one.
ghost use Rattle.std.specs.Prelude.{◌≡◌, ◌≤◌, List, ℕ, length, IsTrue, OnOk, IsErrOf};
ghost use Rattle.journal.specs.Crashes.{Only};
ghost use Rattle.journal.specs.Growth.{Longer};
ghost use Rattle.journal.specs.Notes.{IsNote, StandsAt};
ghost use Rattle.store_folder.specs.Spares.{WitnessLeft};

use journal::{JournalError, Log, Note, PAGE, WITNESS, put_note};
use std::alloc::Global;

/// Makes room for the page of a file that has none yet.
pub(crate) fn make_page<L: Log>(log: &mut L) -> Result<(), JournalError>
    ensures ok { OnOk result (IsTrue (L.is_clean log.old)
        → Only (L.text log.old) (L.may_leave log.old)
        → Longer (L.text log.old) (L.text log.new) × Only (L.text log.new) (L.may_leave log.new)) }
    ensures calm { L.is_clean log.new ≡ L.is_clean log.old }
    ensures crash { IsTrue (L.is_clean log.old) → Only (L.text log.old) (L.may_leave log.old)
        → (c : List ℕ) → L.may_leave log.new c → Longer (L.text log.old) c }
    ensures blind { IsErrOf result JournalError.Damaged → ⊥ }
{
    let size = log.size()?;
    if size >= PAGE {
        return Ok(());
    }
    log.grow()?;
    Ok(())
}

/// Puts a witness into a file that doesn't count, and waits until it is on the disk. A file without
/// a page gets one first.
pub fn put_witness<L: Log>(alloc: Global, log: &mut L, note: Note) -> Result<(), JournalError>
    ensures ok { OnOk result (IsTrue (L.is_clean log.old)
        → Only (L.text log.old) (L.may_leave log.old) → StandsAt 512 (L.text log.new) note) }
    ensures whole { OnOk result (IsNote note) }
    ensures durable { OnOk result (IsTrue (L.is_clean log.old)
        → Only (L.text log.old) (L.may_leave log.old)
        → Only (L.text log.new) (L.may_leave log.new)) }
    ensures calm { L.is_clean log.new ≡ L.is_clean log.old }
    ensures crash { IsTrue (L.is_clean log.old) → Only (L.text log.old) (L.may_leave log.old)
        → (c : List ℕ) → L.may_leave log.new c → WitnessLeft note (L.text log.old) c }
    ensures blind { IsErrOf result JournalError.Damaged → ⊥ }
{
    make_page(log)?;
    put_note(alloc, log, WITNESS, note)?;
    Ok(())
}
