//! A file that takes a checkpoint: its page with a witness, and zeros behind that.
ghost use Rattle.std.specs.Prelude.{◌≡◌, ◌≤◌, drop, length, replicate, IsTrue, IfOk, OnOk, IsErrOf};
ghost use Rattle.journal.specs.Crashes.{Only};
ghost use Rattle.journal.specs.Growth.{Behind};

use crate::page::note::{Note, WITNESS};
use crate::page::paged::Paged;
use crate::page::{PAGE, put_note};
use crate::{JournalError, Log, blank};
use std::alloc::Global;

/// Why a file can't take a checkpoint, and the file.
#[derive(Drop)]
pub struct NotBlank<L: Log + Drop> {
    pub error: JournalError,
    pub log: L,
}

/// Makes room for a file's page, where it has none yet.
pub fn make_page<L: Log>(log: &mut L) -> Result<(), JournalError>
    ensures calm { L.is_clean log.new ≡ L.is_clean log.old }
    ensures blind { IsErrOf result JournalError.Damaged → ⊥ }
{
    let size = log.size()?;
    if size >= PAGE {
        return Ok(());
    }
    log.grow()?;
    Ok(())
}

// Puts zeros over a file, and a witness into its page.
fn blank_page<L: Log>(alloc: Global, log: &mut L, witness: Note) -> Result<(), JournalError>
    ensures ok { OnOk result (IsTrue (L.is_clean log.new)
        → drop 4096 (L.text log.new) ≡ replicate (length (drop 4096 (L.text log.new))) 0) }
    ensures durable { OnOk result
        (IsTrue (L.is_clean log.new) → Only (L.text log.new) (L.may_leave log.new)) }
{
    blank(alloc, log)?;
    put_note(alloc, log, WITNESS, witness)?;
    Ok(())
}

/// Makes a file blank that doesn't count: zeros stand behind its page, and there the witness of the
/// file that counts. It has no card.
pub fn make_anew<L: Log + Drop>(
    alloc: Global,
    log: L,
    witness: Note,
) -> Result<Paged<L>, NotBlank<L>>
    ensures blank { IfOk result (λ paged. IsTrue (L.is_clean paged.log)
        → (drop paged.from (L.text paged.log)
        ≡ replicate (length (drop paged.from (L.text paged.log))) 0)
        × Only (drop paged.from (L.text paged.log)) (Behind paged.from (L.may_leave paged.log))) }
{
    let mut log = log;
    match make_page(&mut log) {
        Ok(()) => {}
        Err(error) => return Err(NotBlank { error, log }),
    }
    match blank_page(alloc, &mut log, witness) {
        Ok(()) => {}
        Err(error) => return Err(NotBlank { error, log }),
    }
    Ok(Paged::new(log, true))
}
