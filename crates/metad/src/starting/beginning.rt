//! Opens the store of the file that counts.
ghost use Rattle.std.specs.Prelude.{◌≡◌, [], IfOk};

use journal::{Journal, JournalError, Log, check, has_group};
use kept_store::{StartError, open};
use meta_types::Workers;
use scripts::{Fresh, LineStore};
use std::alloc::Global;
use std::sync::Wait;
use std::sync::ledger::Ledger;
use std::thread::Threads;

/// Which lines a start wants to find.
#[derive(Clone, Copy, PartialEq, Eq)]
pub enum Wanted {
    Any,
    /// Some: the second file counts only once it has a line.
    Lines,
    /// None: the store is to be a new one.
    NoLines,
}

/// Which lines a start wants to find in a file that counts.
pub fn wanted_lines(is_second: bool) -> Wanted {
    if is_second {
        return Wanted::Lines;
    }
    Wanted::Any
}

/// Why a journal gives no store.
#[derive(Clone, Copy)]
pub enum Cause {
    Start(StartError),
    /// Lines were wanted, and there are none.
    Empty,
    /// No line was wanted, and there are some.
    Taken,
}

/// A store as its journal tells it, and the journal.
#[derive(Drop)]
pub struct Started<L: Ledger, E: Log + Drop> {
    pub store: LineStore<L>,
    pub journal: Journal<E>,
    pub lines: u64,
}

/// Why a journal gives no store, and its file.
#[derive(Drop)]
pub struct NotStarted<E: Log + Drop> {
    pub cause: Cause,
    pub log: E,
}

// What an error of a reading says of a start.
fn cause_of(error: JournalError) -> Cause {
    match error {
        JournalError::Damaged => Cause::Start(StartError::Damaged),
        JournalError::OutOfMemory => Cause::Start(StartError::OutOfMemory),
        _ => Cause::Start(StartError::DiskFailed),
    }
}

// Why a file has no line: it is damaged, or nothing was put there.
fn without_lines<E: Log>(alloc: Global, first: &[u8; 64], log: &mut E) -> Cause
    ensures rests { E.rests log.old → E.rests log.new }
{
    match check(alloc, first, log) {
        Ok(_) => Cause::Empty,
        Err(error) => cause_of(error),
    }
}

/// Looks whether a file with this first sum has lines as they are wanted. It isn't changed.
pub fn look_for_lines<E: Log>(
    alloc: Global,
    first: &[u8; 64],
    wanted: Wanted,
    log: &mut E,
) -> Result<(), Cause>
    ensures rests { E.rests log.old → E.rests log.new }
{
    if wanted == Wanted::Any {
        return Ok(());
    }
    match has_group(alloc, first, log) {
        Ok(has) if has && wanted == Wanted::NoLines => Err(Cause::Taken),
        Ok(has) if !has && wanted == Wanted::Lines => Err(without_lines(alloc, first, log)),
        Ok(_) => Ok(()),
        Err(error) => Err(cause_of(error)),
    }
}

/// Opens the store of a file with this first sum. The blank has 65,536 parts. A start that finds
/// other lines than are wanted changes nothing.
pub fn begin<L: Ledger, T: Threads + Wait + Sync, E: Log + Drop>(
    threads: &T,
    alloc: Global,
    fresh: Fresh,
    workers: Workers,
    wanted: Wanted,
    first: &[u8; 64],
    log: E,
) -> Result<Started<L, E>, NotStarted<E>>
    requires name { fresh.blank.name ≡ L.name }
    requires parts { (fresh.blank.parts ≡ L.parts) × (fresh.blank.parts ≡ 65536) }
    requires rests { E.rests log }
    ensures { IfOk result (λ started. started.journal.pending.items ≡ []) }
{
    let mut log = log;
    if let Err(cause) = look_for_lines(alloc, first, wanted, &mut log) {
        return Err(NotStarted { cause, log });
    }
    let opened = match open::<L, E, T>(threads, alloc, fresh, first, &mut log, workers) {
        Ok(opened) => opened,
        Err(error) => {
            return Err(NotStarted {
                cause: Cause::Start(error),
                log,
            });
        }
    };
    let last = opened.sound.last;
    Ok(Started {
        store: opened.store,
        journal: Journal {
            log,
            last,
            end: opened.sound.end,
            pending: Vec::new(alloc),
        },
        lines: opened.lines,
    })
}
