//! A file that doesn't count, made ready for a checkpoint.
ghost use Rattle.std.specs.Prelude.{◌≡◌, List, ℕ, length, drop, replicate, IsTrue, OnOk, IsErrOf};
ghost use Rattle.journal.specs.Crashes.{Only};
ghost use Rattle.journal.specs.Notes.{IsNote};
ghost use Rattle.store_folder.specs.Blanks.{BlankLeft};

use crate::witness::make_page;
use journal::{JournalError, Log, Note, WITNESS, blank, put_note};
use std::alloc::Global;

/// Makes a file blank that doesn't count: zeros stand behind its page, and there the witness of the
/// file that counts. It has no card.
pub fn blank_file<L: Log>(alloc: Global, log: &mut L, witness: Note) -> Result<(), JournalError>
    ensures zeros { OnOk result (IsTrue (L.is_clean log.old)
        → Only (L.text log.old) (L.may_leave log.old)
        → drop 4096 (L.text log.new) ≡ replicate (length (drop 4096 (L.text log.new))) 0) }
    ensures whole { OnOk result (IsNote witness) }
    ensures durable { OnOk result (IsTrue (L.is_clean log.old)
        → Only (L.text log.old) (L.may_leave log.old)
        → Only (L.text log.new) (L.may_leave log.new)) }
    ensures calm { L.is_clean log.new ≡ L.is_clean log.old }
    ensures crash { IsTrue (L.is_clean log.old) → Only (L.text log.old) (L.may_leave log.old)
        → (c : List ℕ) → L.may_leave log.new c → BlankLeft witness (L.text log.old) c }
    ensures blind { IsErrOf result JournalError.Damaged → ⊥ }
{
    make_page(log)?;
    blank(alloc, log)?;
    put_note(alloc, log, WITNESS, witness)?;
    Ok(())
}
