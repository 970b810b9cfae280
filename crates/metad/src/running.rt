//! Answers lines, and takes a checkpoint where one is due.
ghost use Rattle.std.specs.Prelude.{◌≡◌, [], IfOk, IfSome, OnOk};

pub mod host_clock;
mod pausing;
pub mod teller;

use crate::files::{CountingFile, CountingLog, Files, Text};
use crate::heads::Unfit;
use crate::renewing::next_size;
use crate::running::pausing::{Pauses, after_stop, begin_run, forget_tried};
use crate::running::teller::Teller;
use crate::starting::beginning::{Cause, NotStarted};
use crate::telling_file::TellingFile;
use journal::{JournalError, Log, Paged};
use kept_store::{StartError, StoreService, due_at, run_store};
use line_loop::{RunBuffers, RunError, Stop};
use sqlite_disk::Disk;
use std::io::{Read, Write};
use std::sync::Wait;
use std::thread::Threads;

/// Where lines come from, where replies go, and who tells the rest.
#[derive(Drop)]
pub struct Streams<R: Read + Drop, W: Write + Drop, N: Teller + Drop> {
    pub buffers: RunBuffers,
    pub reader: R,
    pub writer: W,
    pub teller: N,
}

/// Why a service ended early, and where.
pub enum Failure<'a, E: Log + Drop> {
    Head(&'a str, JournalError),
    /// The second file counts, and no line stands in it.
    Empty(&'a str),
    /// A new store was wanted, and one with lines is there.
    Taken,
    /// The two files don't belong together, or the one that counts isn't whole.
    Unfit(bool, Unfit),
    /// The file, by its first sum.
    Start(&'a str, StartError, [u8; 64], TellingFile<Paged<E>>),
    Run(&'a str, RunError),
}

/// Why a service doesn't start.
pub fn failure_of<'a, D: Disk + Drop>(
    path: &'a str,
    first: &[u8; 64],
    not: NotStarted<TellingFile<Text<D>>>,
) -> Failure<'a, CountingFile<D>> {
    match not.cause {
        Cause::Start(error) => Failure::Start(path, error, *first, not.log),
        Cause::Empty => Failure::Empty(path),
        Cause::Taken => Failure::Taken,
    }
}

// Answers lines until the input ends, or until the log is due. No line waits then.
#[inline(never)]
fn run_on<
    S: StoreService,
    T: Threads + Wait + Sync,
    D: Disk + Drop,
    R: Read + Drop,
    W: Write + Drop,
    N: Teller + Drop,
>(
    threads: &T,
    service: &mut S,
    log: &mut CountingLog<D>,
    streams: &mut Streams<R, W, N>,
) -> Result<Stop, RunError>
    requires waits { log.old.journal.pending.items ≡ [] }
    ensures settled { OnOk result (log.new.journal.pending.items ≡ []) }
{
    // For the prover: the result is opened, not passed on.
    let stop = run_store(
        threads,
        service,
        log,
        &mut streams.buffers,
        &mut streams.reader,
        &mut streams.writer,
    )?;
    Ok(stop)
}

// Answers lines until the input ends, or until a witness or a checkpoint is due, and does that.
#[inline(never)]
fn go_on<
    'a,
    S: StoreService,
    T: Threads + Wait + Sync,
    D: Disk + Drop,
    R: Read + Drop,
    W: Write + Drop,
    N: Teller + Drop,
>(
    threads: &T,
    service: &mut S,
    pauses: &mut Pauses,
    files: Files<'a, D, CountingFile<D>>,
    streams: &mut Streams<R, W, N>,
) -> Result<Option<Files<'a, D, CountingFile<D>>>, Failure<'a, CountingFile<D>>>
    requires { files.log.journal.pending.items ≡ [] }
    ensures { IfOk result (λ next. IfSome next (λ files. files.log.journal.pending.items ≡ [])) }
{
    let mut files = files;
    files.log.due_at = pauses.checkpoint.min(pauses.witness);
    let stopped = run_on(threads, service, &mut files.log, streams);
    pauses.work = service.work();
    let store = service.store();
    let next = after_stop(threads, store, stopped, pauses, files, &mut streams.teller)?;
    forget_tried(service, pauses);
    Ok(next)
}

// Answers lines until the input ends.
#[inline(never)]
fn answer_all<
    'a,
    S: StoreService,
    T: Threads + Wait + Sync,
    D: Disk + Drop,
    R: Read + Drop,
    W: Write + Drop,
    N: Teller + Drop,
>(
    threads: &T,
    service: &mut S,
    pauses: &mut Pauses,
    files: Files<'a, D, CountingFile<D>>,
    streams: &mut Streams<R, W, N>,
) -> Result<(), Failure<'a, CountingFile<D>>>
    requires { files.log.journal.pending.items ≡ [] }
{
    let first = files.names.first;
    let mut files = files;
    // For the prover: a run makes fewer pauses.
    'serving: for _ in 0..u64::MAX {
        match go_on(threads, service, pauses, files, streams)? {
            Some(next) => files = next,
            None => return Ok(()),
        }
    }
    Err(Failure::Run(first, RunError::ReadFailed))
}

/// Goes on with the service of a store that was opened, until the input ends; first with a checkpoint, where one
/// is wanted.
pub fn run<
    'a,
    S: StoreService,
    T: Threads + Wait + Sync,
    D: Disk + Drop,
    R: Read + Drop,
    W: Write + Drop,
    N: Teller + Drop,
>(
    threads: &T,
    service: &mut S,
    has_checkpoint: bool,
    files: Files<'a, D, CountingFile<D>>,
    streams: &mut Streams<R, W, N>,
) -> Result<(), Failure<'a, CountingFile<D>>>
    requires { files.log.journal.pending.items ≡ [] }
{
    let mut pauses = Pauses {
        checkpoint: due_at(next_size(files.card.end)),
        witness: 0,
        work: 0,
        was_tried: false,
    };
    let store = service.store();
    let teller = &mut streams.teller;
    let files = begin_run(threads, store, has_checkpoint, &mut pauses, files, teller)?;
    forget_tried(service, &mut pauses);
    answer_all(threads, service, &mut pauses, files, streams)
}
