//! A file into which a checkpoint is written.
ghost use Rattle.std.specs.Prelude.{◌≡◌, [], IsTrue, IfOk};
ghost use Rattle.kept_store.specs.Checkpoints.{IsBlank, Drafts};

use crate::grouping::{put_line, settle};
use crate::{CheckpointError, NotTaken};
use checkpoint::Lines;
use journal::{Journal, Log};
use meta_types::Fault;
use std::alloc::Global;
use std::marker::Model;

// The journal of a file that is blank, with this first sum.
fn begin<E: Log + Drop>(alloc: Global, first: &[u8; 64], log: E) -> Journal<E>
    requires blank { IsTrue (E.is_clean log) → IsBlank (E.text log) (E.may_leave log) }
    ensures { IsTrue (E.is_clean result.log)
        → Drafts first.now (E.text result.log) (E.may_leave result.log) result.last result.end
        result.pending.items }
{
    let last = *first;
    Journal {
        log,
        last,
        end: 0,
        pending: Vec::new(alloc),
    }
}

/// A file that takes the lines of a checkpoint, and why it takes no more.
#[derive(Drop)]
pub(crate) struct Draft<E: Log + Drop> {
    journal: Journal<E>,
    first: [u8; 64],
    error: Option<CheckpointError>,
}

impl<E: Log + Drop> Model for Draft<E> {
    ghost use Rattle.std.specs.Prelude.{◌≡◌, IsTrue, None, is_some, Bool};
    ghost use Rattle.kept_store.specs.Checkpoints.{Drafts};

    // Whether it takes no more.
    ghost Value = { Bool };

    ghost view = { λ d. is_some d.error };

    ghost invariant = { λ d. d.error ≡ None → IsTrue (E.is_clean d.journal.log)
        → Drafts d.first (E.text d.journal.log) (E.may_leave d.journal.log) d.journal.last
        d.journal.end
        d.journal.pending.items };
}

impl<E: Log + Drop> Draft<E> {
    /// The draft of a file that is blank, with this first sum.
    pub(crate) fn new(alloc: Global, first: &[u8; 64], log: E) -> Draft<E>
        requires blank { IsTrue (E.is_clean log) → IsBlank (E.text log) (E.may_leave log) }
    {
        let journal = begin(alloc, first, log);
        Draft {
            journal,
            first: *first,
            error: None,
        }
    }

    /// Commits the lines that wait. It is a journal then with this first sum, to which a run may
    /// add.
    pub(crate) fn finish(self, first: &[u8; 64]) -> Result<Journal<E>, NotTaken<E>>
        ensures ok { IfOk result (λ journal. IsTrue (E.is_clean journal.log)
            → Drafts first.now (E.text journal.log) (E.may_leave journal.log) journal.last
            journal.end []) }
        ensures empty { IfOk result (λ journal. journal.pending.items ≡ []) }
    {
        let Draft {
            mut journal,
            first: begun,
            error,
        } = self;

        // For the prover: what wrote the lines doesn't tell that it left the first sum.
        if begun != *first {
            return Err(NotTaken {
                error: CheckpointError::Differs,
                log: journal.log,
            });
        }
        if let Some(error) = error {
            return Err(NotTaken {
                error,
                log: journal.log,
            });
        }
        match settle(&mut journal) {
            Ok(()) => Ok(journal),
            Err(error) => Err(NotTaken {
                error,
                log: journal.log,
            }),
        }
    }

    /// Why its writer gave up: for memory, unless the file was the reason.
    pub(crate) fn give_up(self) -> NotTaken<E> {
        let Draft { journal, error, .. } = self;
        NotTaken {
            error: error.unwrap_or(CheckpointError::OutOfMemory),
            log: journal.log,
        }
    }
}

impl<E: Log + Drop> Lines for Draft<E> {
    ghost use Rattle.std.specs.Prelude.{◌≡◌};
    ghost use Rattle.meta_types.specs.declared.fault.Fault.TheVariants.{WriteFailed};

    ghost refuses = { λ fault. fault ≡ WriteFailed };

    fn put(&mut self, line: &[u8]) -> Result<(), Fault> {
        if self.error.is_some() {
            return Err(Fault::WriteFailed);
        }
        match put_line(&mut self.journal, line) {
            Ok(()) => Ok(()),
            Err(error) => {
                self.error = Some(error);
                Err(Fault::WriteFailed)
            }
        }
    }
}
