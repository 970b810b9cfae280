//! Serves a store whose journal is in one of two files.
ghost use Rattle.std.specs.Prelude.{◌≡◌, []};

mod answering;
mod opened;

use crate::commands::Serving;
use crate::ending::{not_ended, not_fit, not_opened, not_read, not_started, not_there};
use crate::files::{CountingFile, Files, log_of, telling};
use crate::heads::{NoHeads, open_ready};
use crate::names::{Names, OwnNames, is_missing, make_private};
use crate::running::teller::{Errors, Teller};
use crate::running::{Failure, Streams, failure_of};
use crate::serving::answering::serve_store;
use crate::serving::opened::{Disks, disks_of};
use crate::starting::beginning::{begin, wanted_lines};
use crate::starting::making::make_store;
use crate::starting::progress::Progress;
use crate::starting::selecting::{Selection, select_file};
use crate::telling::{tell, tell_missing, tell_no_store, tell_taken};
use journal::JournalError;
use line_loop::RunBuffers;
use meta_types::Fault;
use row_tables::Seed;
use scripts::Fresh;
use sqlite_disk::Disk;
use sqlite_std_file::Start;
use std::io::{self, Read, Write};
use std::marker::Brand;
use std::process::ExitCode;
use std::sync::Wait;
use std::sync::ledger::{Blank, Ledger};
use std::thread::Threads;

// Opens the store of the file that counts, and serves it. The blank has 65,536 parts.
fn serve_named<
    'a,
    L: Ledger,
    T: Threads + Wait + Sync,
    D: Disk + Drop,
    R: Read + Drop,
    W: Write + Drop,
    N: Teller + Drop,
>(
    threads: &T,
    fresh: Fresh,
    serving: Serving,
    disks: Disks<'a, D>,
    streams: &mut Streams<R, W, N>,
) -> Result<(), Failure<'a, CountingFile<D>>>
    requires name { fresh.blank.name ≡ L.name }
    requires parts { (fresh.blank.parts ≡ L.parts) × (fresh.blank.parts ≡ 65536) }
{
    let Disks {
        rt,
        names,
        disk,
        spare,
        other,
    } = disks;
    let is_second = !spare.is_second();
    let path = names.of(is_second);
    let ready = match open_ready(rt.alloc(), rt, serving.takes_less, disk, other) {
        Ok(ready) => ready,
        Err(NoHeads::Journal(error)) => return Err(Failure::Head(path, error)),
        Err(NoHeads::Unfit(unfit)) => return Err(Failure::Unfit(is_second, unfit)),
    };
    let (card, first) = (ready.card, ready.first);
    let Ok(own) = OwnNames::new(rt, names) else {
        return Err(Failure::Head(path, JournalError::OutOfMemory));
    };
    let progress = Progress::begin(rt, is_second);
    let file = telling(rt, own, is_second, progress, ready.text);
    let wanted = wanted_lines(is_second);
    let workers = serving.workers;
    let alloc = rt.alloc();
    let started = match begin::<L, T, _>(threads, alloc, fresh, workers, wanted, &first, file) {
        Ok(started) => started,
        Err(not) => return Err(failure_of(path, &first, not)),
    };
    progress.end(rt, path);
    let files = Files {
        rt,
        names,
        card,
        log: log_of(first, started.journal),
        spare,
    };
    serve_store(
        threads,
        started.store,
        started.lines,
        serving,
        files,
        streams,
    )
}

// Opens the store of the file that counts, and serves it.
fn serve_disks<
    'a,
    T: Threads + Wait + Sync,
    D: Disk + Drop,
    R: Read + Drop,
    W: Write + Drop,
    N: Teller + Drop,
>(
    threads: &T,
    seed: Seed,
    serving: Serving,
    disks: Disks<'a, D>,
    streams: &mut Streams<R, W, N>,
) -> Result<(), Failure<'a, CountingFile<D>>> {
    let fresh = Fresh {
        blank: Blank::new(65536),
        seed,
    };
    serve_named::<Brand, T, D, R, W, N>(threads, fresh, serving, disks, streams)
}

// Serves the store of the file that counts over the standard streams.
fn serve_streams<'a, T: Threads + Wait + Sync, D: Disk + Drop>(
    threads: &T,
    serving: Serving,
    disks: Disks<'a, D>,
) -> ExitCode {
    let rt = disks.rt;
    let names = disks.names;
    let folder = names.folder;
    let Ok(buffers) = RunBuffers::new(rt.alloc()) else {
        return tell(rt, Fault::OutOfMemory);
    };
    let Ok(seed) = Seed::secret(rt) else {
        return tell(rt, Fault::ReadFailed);
    };
    let mut streams = Streams {
        buffers,
        reader: rt.reader(),
        writer: io::writer(rt),
        teller: Errors { rt },
    };
    match serve_disks(threads, seed, serving, disks, &mut streams) {
        Ok(()) => ExitCode::SUCCESS,
        Err(Failure::Head(path, error)) => not_read(rt, path, error),
        Err(Failure::Empty(path)) => tell_missing(rt, path),
        Err(Failure::Taken) => tell_taken(rt, folder),
        Err(Failure::Unfit(is_second, unfit)) => not_fit(rt, names, is_second, unfit),
        Err(Failure::Run(path, error)) => not_ended(rt, path, error),
        Err(Failure::Start(path, error, first, mut file)) => {
            not_started(rt, path, &first, &mut file, error)
        }
    }
}

// Serves the store of two files that were just opened, where one of them counts.
fn serve_selected<T: Threads + Wait + Sync, D: Disk + Drop>(
    rt: &HostRuntime,
    threads: &T,
    names: Names<'_>,
    serving: Serving,
    files: sqlite_disk::Files<D>,
) -> ExitCode {
    let sqlite_disk::Files {
        log: mut second,
        db: mut first,
    } = files;
    let is_second = match select_file(rt.alloc(), &mut first, &mut second) {
        Ok(Selection::Store { is_second }) => is_second,
        Ok(Selection::Missing { is_second }) => return tell_missing(rt, names.of(is_second)),
        Ok(Selection::Nothing) => return tell_no_store(rt, names.folder),
        Err(error) => return not_read(rt, names.first, error),
    };
    match disks_of(rt, names, is_second, first, second) {
        Ok(disks) => serve_streams(threads, serving, disks),
        Err(status) => status,
    }
}

// Serves the store of two files that were just opened; first makes it, where that is wanted.
fn serve_files<T: Threads + Wait + Sync, D: Disk + Drop>(
    rt: &HostRuntime,
    threads: &T,
    names: Names<'_>,
    serving: Serving,
    files: sqlite_disk::Files<D>,
) -> ExitCode {
    if !serving.is_new {
        return serve_selected(rt, threads, names, serving, files);
    }
    match make_store(rt, names, files) {
        Ok(files) => serve_selected(rt, threads, names, serving, files),
        Err(status) => status,
    }
}

/// Serves the store of the two files with these names, which no other program may open until this
/// one ends. Where a new store is wanted it is made, for its owner alone.
pub fn serve<S: Start, T: Threads + Wait + Sync>(
    rt: &HostRuntime,
    threads: &T,
    names: Names<'_>,
    start_of: S,
    serving: Serving,
) -> ExitCode {
    if serving.is_new {
        make_private(rt, names.first);
    } else if is_missing(rt, names.folder, names.first) {
        return not_there(rt, names);
    }
    match sqlite_std_file::open(rt, names.first, start_of) {
        Ok(files) => serve_files(rt, threads, names, serving, files),
        Err(error) => not_opened(rt, names, error),
    }
}
