//! Makes a store of the lines of a text, as a script or a backup has them.
ghost use Rattle.std.specs.Prelude.{◌≡◌, ◌∷◌, [], take, drop, false, IfOk, OnOk};
ghost use Rattle.meta_types.specs.Rows.{empty_store};
ghost use Rattle.journal.specs.Reading.{whole_lines};
ghost use Rattle.kept_store.specs.Replays.{store_after};
ghost use Rattle.kept_store.specs.Loads.{is_end, loaded_among, loaded_in, is_open_behind, is_open_after};

use crate::StartError;
use crate::numbers::{is_marked, number_in, number_of};
use crate::replaying::replay_line;
use journal::cut_line;
use meta_types::Workers;
use scripts::{Fresh, LineStore};
use std::alloc::Global;
use std::mem::drop;
use std::sync::Wait;
use std::sync::ledger::Ledger;
use std::thread::Threads;

/// A line that ends a checkpoint begins so, and no request does.
const END: &[u8] = b"end ";

/// Why a text isn't loaded.
#[derive(Clone, Copy, Debug, PartialEq, Eq)]
pub enum LoadError {
    OutOfMemory,
    /// A line is refused.
    Refused,
    /// A number is below one that was given.
    Number,
    /// A line `end N` doesn't stand behind N lines.
    End,
    /// The lines of a checkpoint have no end.
    Part,
    /// The last line isn't whole.
    Cut,
}

/// Why a text isn't loaded, and at which of its lines, counted from 1.
#[derive(Clone, Copy, Debug, PartialEq, Eq)]
pub struct NotLoaded {
    pub error: LoadError,
    pub line: u64,
}

/// A store of loaded lines, and how many these are.
#[derive(Drop)]
pub struct Loaded<L: Ledger> {
    pub store: LineStore<L>,
    pub lines: u64,
}

// How many lines were read, how many of them were done, and whether a checkpoint has begun and not
// ended.
#[derive(Clone, Copy, Drop)]
struct Progress {
    place: u64,
    lines: u64,
    is_open: bool,
}

// The first bytes of a line.
fn front(line: &[u8]) -> &[u8]
    ensures { result.now ≡ take 4 line.now }
{
    &line[..line.len().min(4)]
}

// The bytes behind the mark.
fn back(line: &[u8]) -> &[u8]
    ensures { result.now ≡ drop 4 line.now }
{
    &line[line.len().min(4)..]
}

/// Whether a line ends a checkpoint.
pub(crate) fn is_end(line: &[u8]) -> bool
    ensures { result ≡ is_end line.now }
{
    front(line) == END
}

// Whether a checkpoint has begun and not ended behind a line.
fn is_open_behind(is_open: bool, line: &[u8]) -> bool
    ensures { result ≡ is_open_behind is_open line.now }
{
    if is_end(line) {
        return false;
    }
    is_open || is_marked(line)
}

// Whether a line is a number below the next one.
fn is_lower<L: Ledger>(store: &LineStore<L>, line: &[u8]) -> bool {
    match number_in(line) {
        Some(number) => number < store.state().records().next,
        None => false,
    }
}

// Whether a line that ends a checkpoint stands behind so many lines.
fn counts(line: &[u8], lines: u64) -> bool {
    match number_of(back(line)) {
        Some(count) => count == lines,
        None => false,
    }
}

// What a start's error is for a load.
fn load_error(error: StartError) -> LoadError {
    match error {
        StartError::OutOfMemory => LoadError::OutOfMemory,
        _ => LoadError::Refused,
    }
}

// Does a line that ends no checkpoint.
fn do_line<L: Ledger, T: Threads + Wait + Sync>(
    store: &mut LineStore<L>,
    rt: &T,
    line: &[u8],
    lines: &mut u64,
) -> Result<(), LoadError>
    ensures ok { is_end line.now ≡ false → OnOk result
        (store.new ≡ store_after store.old (loaded_among (line.now ∷ []))) }
{
    if is_lower(store, line) {
        return Err(LoadError::Number);
    }
    match replay_line(store, rt, line, lines) {
        Ok(()) => Ok(()),
        Err(error) => Err(load_error(error)),
    }
}

// Does a line.
fn load_line<L: Ledger, T: Threads + Wait + Sync>(
    store: &mut LineStore<L>,
    rt: &T,
    line: &[u8],
    progress: &mut Progress,
) -> Result<(), LoadError>
    ensures ok { OnOk result
        (store.new ≡ store_after store.old (loaded_among (line.now ∷ []))) }
    ensures goes_on { OnOk result (progress.new.is_open ≡ is_open_behind progress.old.is_open line.now) }
{
    progress.place = progress.place.saturating_add(1);
    progress.is_open = is_open_behind(progress.is_open, line);
    if is_end(line) {
        if counts(line, progress.lines) {
            return Ok(());
        }
        return Err(LoadError::End);
    }
    do_line(store, rt, line, &mut progress.lines)?;
    Ok(())
}

// Does the whole lines of a text, in order.
fn load_lines<L: Ledger, T: Threads + Wait + Sync>(
    store: &mut LineStore<L>,
    rt: &T,
    text: &[u8],
    progress: &mut Progress,
) -> Result<(), LoadError>
    ensures ok { OnOk result (store.new ≡ store_after store.old (loaded_in text.now)) }
    ensures goes_on { OnOk result (progress.new.is_open
        ≡ is_open_after progress.old.is_open (whole_lines text.now)) }
{
    let mut rest = text;
    'loading: while let Some((line, later)) = cut_line(rest) {
        rest = later;
        load_line(store, rt, line, progress)?;
    }
    Ok(())
}

// Whether a text has no bytes behind its last line.
fn is_whole(text: &[u8]) -> bool {
    match text {
        [.., last] => *last == b'\n',
        [] => true,
    }
}

// Does the lines of a text that has whole lines alone, and no part of a checkpoint unless that is
// wanted.
fn load_all<L: Ledger, T: Threads + Wait + Sync>(
    store: &mut LineStore<L>,
    rt: &T,
    text: &[u8],
    takes_part: bool,
    progress: &mut Progress,
) -> Result<(), LoadError>
    ensures ok { OnOk result (store.new ≡ store_after store.old (loaded_in text.now)) }
    ensures ended { OnOk result (takes_part ≡ false
        → is_open_after progress.old.is_open (whole_lines text.now) ≡ false) }
{
    load_lines(store, rt, text, progress)?;
    if !is_whole(text) {
        return Err(LoadError::Cut);
    }
    if takes_part {
        return Ok(());
    }
    if progress.is_open {
        return Err(LoadError::Part);
    }
    Ok(())
}

/// Makes a store of the lines of a text, from nothing and with one worker. Commit lines and lines
/// `end N` are passed over. If any other line is refused, or has a number below one that was given,
/// there is no store; nor if the lines of a checkpoint have no end, unless that is wanted: they would
/// make half a store. The blank has 65,536 parts.
pub fn load<L: Ledger, T: Threads + Wait + Sync>(
    rt: &T,
    alloc: Global,
    fresh: Fresh,
    text: &[u8],
    takes_part: bool,
) -> Result<Loaded<L>, NotLoaded>
    requires name { fresh.blank.name ≡ L.name }
    requires parts { (fresh.blank.parts ≡ L.parts) × (fresh.blank.parts ≡ 65536) }
    ensures ok { IfOk result (λ loaded.
        loaded.store ≡ store_after empty_store (loaded_in text.now)) }
    ensures ended { OnOk result (takes_part ≡ false
        → is_open_after false (whole_lines text.now) ≡ false) }
{
    let mut progress = Progress {
        place: 0,
        lines: 0,
        is_open: false,
    };
    let Ok(mut store) = LineStore::<L>::open(alloc, fresh, Workers::ONE) else {
        return Err(NotLoaded {
            error: LoadError::OutOfMemory,
            line: 0,
        });
    };
    match load_all(&mut store, rt, text, takes_part, &mut progress) {
        Ok(()) => {}
        Err(error) => {
            // For the prover: an exit that drops it in place takes minutes.
            drop(store);
            return Err(NotLoaded {
                error,
                line: progress.place,
            });
        }
    }
    Ok(Loaded {
        store,
        lines: progress.lines,
    })
}
