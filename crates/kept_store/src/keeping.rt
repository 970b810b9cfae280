//! Writes the lines of a text into another file, as a journal that makes their store again.
ghost use Rattle.std.specs.Prelude.{◌≡◌, [], IsTrue, IfOk};
ghost use Rattle.kept_store.specs.Checkpoints.{IsBlank, Drafts, Makes};

use crate::NotTaken;
use crate::draft::Draft;
use crate::loading::is_end;
use crate::taking::compare;
use checkpoint::Lines;
use journal::{Journal, Log, cut_line, is_commit};
use meta_types::Fault;
use scripts::LineStore;
use std::alloc::Global;
use std::sync::Wait;
use std::sync::ledger::{Blank, Ledger};
use std::thread::Threads;

/// A file that takes lines behind a first sum. Zeros stand in it, and they are on the disk.
#[derive(Drop)]
pub struct BlankFile<E: Log + Drop> {
    pub first: [u8; 64],
    pub log: E,
}

// Puts a line that is done there.
fn put_line<M: Lines>(lines: &mut M, line: &[u8]) -> Result<(), Fault> {
    if is_commit(line) || is_end(line) {
        return Ok(());
    }
    lines.put(line)
}

// Puts the whole lines of a text there that are done.
fn put_lines<M: Lines>(lines: &mut M, text: &[u8]) -> Result<(), Fault> {
    let mut rest = text;
    'putting: while let Some((line, later)) = cut_line(rest) {
        rest = later;
        put_line(lines, line)?;
    }
    Ok(())
}

// Writes the lines of a text into a blank file.
fn write<E: Log + Drop>(
    alloc: Global,
    first: &[u8; 64],
    text: &[u8],
    log: E,
) -> Result<Journal<E>, NotTaken<E>>
    requires blank { IsTrue (E.is_clean log) → IsBlank (E.text log) (E.may_leave log) }
    ensures ok { IfOk result (λ journal. IsTrue (E.is_clean journal.log)
        → Drafts first.now (E.text journal.log) (E.may_leave journal.log) journal.last
        journal.end []) }
    ensures empty { IfOk result (λ journal. journal.pending.items ≡ []) }
{
    let mut draft = Draft::new(alloc, first, log);
    match put_lines(&mut draft, text) {
        Ok(()) => {}
        Err(_) => return Err(draft.give_up()),
    }
    draft.finish(first)
}

/// Keeps the store of a text's lines: writes the lines into a blank file, in groups of at most
/// 1 MiB, does them again from there into an empty store, with one worker, and compares both. The
/// journal is one to which a run may add. The blank has 65,536 parts.
pub fn keep<L: Ledger, N: Ledger, E: Log + Drop, T: Threads + Wait + Sync>(
    rt: &T,
    alloc: Global,
    blank: Blank,
    store: &LineStore<L>,
    text: &[u8],
    file: BlankFile<E>,
) -> Result<Journal<E>, NotTaken<E>>
    requires name { blank.name ≡ N.name }
    requires parts { (blank.parts ≡ N.parts) × (blank.parts ≡ 65536) }
    requires blank { IsTrue (E.is_clean file.log) → IsBlank (E.text file.log) (E.may_leave file.log) }
    ensures ok { IfOk result (λ journal. IsTrue (E.is_clean journal.log)
        → Makes file.first (E.text journal.log) (E.may_leave journal.log) journal.last
        journal.end store.now) }
    ensures empty { IfOk result (λ journal. journal.pending.items ≡ []) }
{
    let BlankFile { first, log } = file;
    let mut journal = write(alloc, &first, text, log)?;
    match compare::<L, N, E, T>(rt, alloc, blank, store, &mut journal) {
        Ok(()) => {}
        Err(error) => {
            return Err(NotTaken {
                error,
                log: journal.log,
            });
        }
    }
    Ok(journal)
}
