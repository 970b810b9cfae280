//! Notes of a file that has a journal.
ghost use Rattle.std.specs.Prelude.{◌≡◌, [], IfOk};

use journal::{Journal, Log, NotBlank, Note, Paged, put_note};
use std::alloc::Global;

/// Puts a note into the page of a journal's file, at a place of it.
pub fn with_note<E: Log + Drop>(
    alloc: Global,
    journal: Journal<Paged<E>>,
    at: usize,
    note: Note,
) -> Result<Journal<Paged<E>>, NotBlank<E>>
    requires { journal.pending.items ≡ [] }
    ensures { IfOk result (λ journal. journal.pending.items ≡ []) }
{
    let Journal {
        log,
        last,
        end,
        pending,
    } = journal;
    let mut inner = log.into_log();
    match put_note(alloc, &mut inner, at, note) {
        Ok(()) => Ok(Journal {
            log: Paged::new(inner, true),
            last,
            end,
            pending,
        }),
        Err(error) => Err(NotBlank { error, log: inner }),
    }
}

/// What is known of a journal's file.
pub fn note_of<E: Log + Drop>(card: Note, journal: &Journal<E>) -> Note {
    Note {
        end: journal.end,
        sum: journal.last,
        ..card
    }
}
