//! Makes a store of the lines of the input, in a folder that has none.
ghost use Rattle.std.specs.Prelude.{◌≡◌};

mod putting;
mod telling;

use crate::ending::not_opened;
use crate::names::{Names, is_missing, make_private};
use crate::reading::backing::tell_no_backup;
use crate::reading::backing::text::{is_backup, read_backup};
use crate::reading::plain_file::{PlainFile, has_bytes};
use crate::starting::loading::putting::write_store;
use crate::starting::loading::telling::{print_loaded, tell_mark, tell_not_loaded, tell_there};
use crate::telling::{tell, tell_missing};
use journal::{cut_line, is_commit, read_page};
use meta_types::Fault;
use row_tables::Seed;
use scripts::{Fresh, LineStore};
use sqlite_std_file::Start;
use std::io::Read;
use std::marker::Brand;
use std::mem::ManuallyDrop;
use std::process::ExitCode;
use std::sync::Wait;
use std::sync::ledger::{Blank, Ledger};
use std::thread::Threads;

/// What is loaded, and where.
#[derive(Clone, Copy)]
pub struct Source<'a> {
    pub names: Names<'a>,
    pub text: &'a [u8],
    pub takes_part: bool,
}

// Whether a store is in a folder, as a look without the lock finds it.
fn has_store(rt: &HostRuntime, names: Names<'_>) -> bool {
    let Ok(mut file) = PlainFile::open(rt, names.first) else {
        return false;
    };
    if !file.has_page || file.names_other {
        return true;
    }
    match read_page(rt.alloc(), &mut file) {
        Ok(notes) => notes.card.is_some(),
        Err(_) => false,
    }
}

// The first of a text's lines that begins by the mark of a backup's own lines, counted from 1.
fn find_mark(text: &[u8]) -> Option<u64> {
    let mut rest = text;
    let mut place = 0u64;
    // For the prover: a text has fewer lines.
    'lines: for _ in 0..u64::MAX {
        let (line, later) = cut_line(rest)?;
        place = place.saturating_add(1);
        if is_commit(line) {
            return Some(place);
        }
        rest = later;
    }
    None
}

// Whether a text that may be loaded is a backup, which is whole then: so its checkpoint needs no end.
// Any other text has no line of a backup.
fn is_whole_backup(rt: &HostRuntime, text: &[u8]) -> Result<bool, ExitCode> {
    if is_backup(text) {
        return match read_backup(rt.alloc(), text) {
            Ok(_) => Ok(true),
            Err(error) => Err(tell_no_backup(rt, "standard input", error)),
        };
    }
    match find_mark(text) {
        Some(place) => Err(tell_mark(rt, place)),
        None => Ok(false),
    }
}

// Puts a store into the two files of a folder.
fn put_store<L: Ledger, S: Start, T: Threads + Wait + Sync>(
    rt: &HostRuntime,
    threads: &T,
    start_of: S,
    store: &LineStore<L>,
    lines: u64,
    source: Source<'_>,
) -> ExitCode {
    make_private(rt, source.names.first);
    let files = match sqlite_std_file::open(rt, source.names.first, start_of) {
        Ok(files) => files,
        Err(error) => return not_opened(rt, source.names, error),
    };
    match write_store(rt, threads, store, source, files) {
        Ok(card) => print_loaded(rt, lines, card),
        Err(status) => status,
    }
}

// Makes the store of a text, and only then its files. The blank has 65,536 parts.
fn load_named<L: Ledger, S: Start, T: Threads + Wait + Sync>(
    rt: &HostRuntime,
    threads: &T,
    start_of: S,
    fresh: Fresh,
    source: Source<'_>,
) -> ExitCode
    requires name { fresh.blank.name ≡ L.name }
    requires parts { (fresh.blank.parts ≡ L.parts) × (fresh.blank.parts ≡ 65536) }
{
    let alloc = rt.alloc();
    let loaded = match kept_store::load::<L, T>(
        threads,
        alloc,
        fresh,
        source.text,
        source.takes_part,
    ) {
        Ok(loaded) => loaded,
        Err(not) => return tell_not_loaded(rt, not),
    };
    let lines = loaded.lines;
    let store = loaded.store;
    let status = put_store(rt, threads, start_of, &store, lines, source);
    // The store's memory isn't freed: it goes with the process.
    let _store = ManuallyDrop::new(store);
    status
}

// Makes the store of a text.
fn load_text<S: Start, T: Threads + Wait + Sync>(
    rt: &HostRuntime,
    threads: &T,
    start_of: S,
    seed: Seed,
    source: Source<'_>,
) -> ExitCode {
    let fresh = Fresh {
        blank: Blank::new(65536),
        seed,
    };
    load_named::<Brand, S, T>(rt, threads, start_of, fresh, source)
}

/// Makes a store of the lines of the input, a script's or a backup's, in a folder that has none.
pub fn load<S: Start, T: Threads + Wait + Sync>(
    rt: &HostRuntime,
    threads: &T,
    names: Names<'_>,
    start_of: S,
    takes_part: bool,
) -> ExitCode {
    if has_store(rt, names) {
        return tell_there(rt, names.folder);
    }
    if has_bytes(rt, names.second) && is_missing(rt, names.folder, names.first) {
        return tell_missing(rt, names.first);
    }
    let mut text: Vec<u8> = Vec::new(rt.alloc());
    let mut reader = rt.reader();
    match reader.read_to_end(&mut text) {
        Ok(_) => {}
        Err(error) if error.kind() == std::io::ErrorKind::OutOfMemory => {
            return tell(rt, Fault::OutOfMemory);
        }
        Err(_) => return tell(rt, Fault::ReadFailed),
    }
    let is_whole = match is_whole_backup(rt, &text) {
        Ok(is_whole) => is_whole,
        Err(status) => return status,
    };
    let Ok(seed) = Seed::secret(rt) else {
        return tell(rt, Fault::ReadFailed);
    };
    let source = Source {
        names,
        text: &text,
        takes_part: takes_part || is_whole,
    };
    load_text(rt, threads, start_of, seed, source)
}
