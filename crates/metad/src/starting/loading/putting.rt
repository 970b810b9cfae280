//! Puts a loaded store into two files. The card of the first is written last: until then no start
//! serves them.
ghost use Rattle.std.specs.Prelude.{◌≡◌, [], IsTrue, IfOk};
ghost use Rattle.kept_store.specs.Checkpoints.{IsBlank, Makes};

use crate::ending::not_read;
use crate::files::Text;
use crate::heads::{Head, new_card, put_witness, take_unmade};
use crate::names::Names;
use crate::renewing::{Why, note_of, with_note};
use crate::starting::loading::Source;
use crate::starting::loading::telling::{tell_begun, tell_not_kept, tell_there};
use crate::starting::making::make_head;
use crate::starting::selecting::{Selection, select_file};
use crate::telling::{checkpoint_text, tell, tell_missing};
use journal::{Active, CARD, Journal, JournalFile, Log, Note, first_sum, make_anew};
use kept_store::{BlankFile, NotTaken, keep};
use meta_types::Fault;
use scripts::LineStore;
use sqlite_disk::{Disk, Files};
use std::alloc::Global;
use std::marker::Brand;
use std::process::ExitCode;
use std::sync::Wait;
use std::sync::ledger::{Blank, Ledger};
use std::thread::Threads;

// Whether two files have no store, as far as the first one's head says.
fn may_take<D: Disk>(
    rt: &HostRuntime,
    names: Names<'_>,
    first: &mut D,
    second: &mut D,
) -> Result<(), ExitCode> {
    match select_file(rt.alloc(), first, second) {
        Ok(Selection::Store { is_second: false } | Selection::Nothing) => Ok(()),
        Ok(Selection::Store { is_second: true }) => Err(tell_there(rt, names.folder)),
        Ok(Selection::Missing { is_second }) => Err(tell_missing(rt, names.of(is_second))),
        Err(error) => Err(not_read(rt, names.first, error)),
    }
}

// A first file that has a page, no card, and no line.
fn take_empty<D: Disk + Drop>(
    rt: &HostRuntime,
    names: Names<'_>,
    first: D,
) -> Result<JournalFile<D, Active>, ExitCode> {
    let head: Head<JournalFile<D, Active>> = make_head(rt, names, first)?;
    if !head.has_page || head.notes.card.is_some() {
        return Err(tell_there(rt, names.folder));
    }
    match take_unmade(rt.alloc(), head) {
        Ok(Some(log)) => Ok(log),
        Ok(None) => Err(tell_begun(rt, names.folder)),
        Err(error) => Err(not_read(rt, names.first, error)),
    }
}

// Writes the lines of a store into a blank file.
fn take_lines<L: Ledger, E: Log + Drop, T: Threads + Wait + Sync>(
    threads: &T,
    alloc: Global,
    store: &LineStore<L>,
    text: &[u8],
    file: BlankFile<E>,
) -> Result<Journal<E>, NotTaken<E>>
    requires blank { IsTrue (E.is_clean file.log) → IsBlank (E.text file.log) (E.may_leave file.log) }
    ensures ok { IfOk result (λ journal. IsTrue (E.is_clean journal.log)
        → Makes file.first (E.text journal.log) (E.may_leave journal.log) journal.last
        journal.end store.now) }
    ensures empty { IfOk result (λ journal. journal.pending.items ≡ []) }
{
    let parts = Blank::new(65536);
    keep::<L, Brand, E, T>(threads, alloc, parts, store, text, file)
}

// Writes the lines of a store into a file without any.
fn write_lines<L: Ledger, D: Disk + Drop, T: Threads + Wait + Sync>(
    rt: &HostRuntime,
    threads: &T,
    store: &LineStore<L>,
    source: Source<'_>,
    card: Note,
    log: JournalFile<D, Active>,
) -> Result<Journal<Text<D>>, ExitCode>
    ensures { IfOk result (λ journal. journal.pending.items ≡ []) }
{
    let alloc = rt.alloc();
    let path = source.names.first;
    let text = match make_anew(alloc, log, card) {
        Ok(text) => text,
        Err(not) => return Err(not_read(rt, path, not.error)),
    };
    let file = BlankFile {
        first: first_sum(card),
        log: text,
    };
    match take_lines(threads, alloc, store, source.text, file) {
        Ok(journal) => Ok(journal),
        Err(not) => Err(tell_not_kept(rt, path, checkpoint_text(Why::Taking(not.error)))),
    }
}

// Puts a witness into the second file, and then the card into the first, which has the lines.
fn put_notes<D: Disk + Drop>(
    rt: &HostRuntime,
    names: Names<'_>,
    card: Note,
    journal: Journal<Text<D>>,
    second: D,
) -> Result<Note, ExitCode>
    requires { journal.pending.items ≡ [] }
{
    let alloc = rt.alloc();
    let card = note_of(card, &journal);
    let (_second, put) = put_witness::<D, Active>(alloc, second, card);
    match put {
        Ok(()) => {}
        Err(error) => return Err(not_read(rt, names.second, error)),
    }
    match with_note(alloc, journal, CARD, card) {
        Ok(_) => Ok(card),
        Err(not) => Err(not_read(rt, names.first, not.error)),
    }
}

/// Puts a loaded store into two files that were just opened and have none. Answers the card of the
/// first: what was loaded counts as its checkpoint, so a start requires all of it.
pub fn write_store<L: Ledger, D: Disk + Drop, T: Threads + Wait + Sync>(
    rt: &HostRuntime,
    threads: &T,
    store: &LineStore<L>,
    source: Source<'_>,
    files: Files<D>,
) -> Result<Note, ExitCode> {
    let Files {
        log: mut second,
        db: mut first,
    } = files;
    let names = source.names;
    may_take(rt, names, &mut first, &mut second)?;
    let log = take_empty(rt, names, first)?;
    let Ok(card) = new_card(rt) else {
        return Err(tell(rt, Fault::ReadFailed));
    };
    let journal = write_lines(rt, threads, store, source, card, log)?;
    put_notes(rt, names, card, journal, second)
}
