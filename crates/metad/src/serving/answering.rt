//! Answers the lines of a store that was opened, as the words of the run ask for it.
ghost use Rattle.std.specs.Prelude.{◌≡◌, []};

use crate::commands::Serving;
use crate::files::{CountingFile, Files};
use crate::running::host_clock::HostClock;
use crate::running::teller::Teller;
use crate::running::{Failure, Streams, run};
use journal::Sound;
use kept_store::{ClockLimit, Clocked, StoreService};
use line_loop::{Numbered, RunError};
use sqlite_disk::Disk;
use std::alloc::Global;
use std::io::{Read, Write};
use std::mem::ManuallyDrop;
use std::sync::Wait;
use std::thread::Threads;

// A run keeps so many bytes free, so that a store which ran full starts again. The start takes a
// block of 64 KiB beside the store. The C library takes memory by 132 KiB, and may do so at another
// row than in the run before.
const SPARE: usize = 655_360;

// A run keeps so many bytes free, if its start leaves no more.
const LESS_SPARE: usize = 458_752;

// If fewer are free, additions are refused: the next start would find too little.
const LEAST_SPARE: usize = 262_144;

// Room of so many bytes, where it can be had.
fn room_of(alloc: Global, bytes: usize) -> Option<Vec<u8>> {
    Vec::<u8>::with_capacity(alloc, bytes).ok()
}

// What a run keeps free; none where too little is.
fn spare_room(alloc: Global) -> Option<Vec<u8>> {
    if let Some(spare) = room_of(alloc, SPARE) {
        return Some(spare);
    }
    if let Some(spare) = room_of(alloc, LESS_SPARE) {
        return Some(spare);
    }
    room_of(alloc, LEAST_SPARE)
}

// Tells what a start found, and answers lines.
#[inline(never)]
fn answer_lines<
    'a,
    S: StoreService + Drop,
    T: Threads + Wait + Sync,
    D: Disk + Drop,
    R: Read + Drop,
    W: Write + Drop,
    N: Teller + Drop,
>(
    threads: &T,
    service: S,
    lines: u64,
    serving: Serving,
    files: Files<'a, D, CountingFile<D>>,
    streams: &mut Streams<R, W, N>,
) -> Result<(), Failure<'a, CountingFile<D>>>
    requires { files.log.journal.pending.items ≡ [] }
{
    let mut service = service;
    let path = files.names.of(!files.spare.is_second());
    let last = files.log.journal.last;
    let sound = Sound {
        end: files.log.journal.end,
        last,
    };
    streams.teller.found(path, lines, &sound, files.card);
    let spare = spare_room(files.rt.alloc());
    if spare.is_none() {
        service.stop_additions();
    }
    let result = run(
        threads,
        &mut service,
        serving.has_checkpoint,
        files,
        streams,
    );
    // Held until the run has ended, so that the next start finds this memory.
    drop(spare);
    // The store's memory isn't freed: it goes with the process.
    let _service = ManuallyDrop::new(service);
    result
}

// The same with numbered replies, where these are wanted.
#[inline(never)]
fn serve_numbered<
    'a,
    S: StoreService + Drop,
    T: Threads + Wait + Sync,
    D: Disk + Drop,
    R: Read + Drop,
    W: Write + Drop,
    N: Teller + Drop,
>(
    threads: &T,
    service: S,
    lines: u64,
    serving: Serving,
    files: Files<'a, D, CountingFile<D>>,
    streams: &mut Streams<R, W, N>,
) -> Result<(), Failure<'a, CountingFile<D>>>
    requires { files.log.journal.pending.items ≡ [] }
{
    if serving.is_numbered {
        return answer_lines(
            threads,
            Numbered::new(service),
            lines,
            serving,
            files,
            streams,
        );
    }
    answer_lines(threads, service, lines, serving, files, streams)
}

/// Answers lines from a store that a start made of this number of lines, with a clock before it where
/// that is wanted. The clock's room is taken before the room that the run keeps free.
#[inline(never)]
pub fn serve_store<
    'a,
    S: StoreService + Drop,
    T: Threads + Wait + Sync,
    D: Disk + Drop,
    R: Read + Drop,
    W: Write + Drop,
    N: Teller + Drop,
>(
    threads: &T,
    service: S,
    lines: u64,
    serving: Serving,
    files: Files<'a, D, CountingFile<D>>,
    streams: &mut Streams<R, W, N>,
) -> Result<(), Failure<'a, CountingFile<D>>>
    requires { files.log.journal.pending.items ≡ [] }
{
    let Some(most) = serving.clock else {
        return serve_numbered(threads, service, lines, serving, files, streams);
    };
    let rt = files.rt;
    let path = files.names.first;
    match ClockLimit::open(rt.alloc(), HostClock { rt: *rt }, most) {
        Ok(limit) => {
            let clocked = Clocked { service, limit };
            serve_numbered(threads, clocked, lines, serving, files, streams)
        }
        Err(_) => {
            // As at the end of a run.
            let _service = ManuallyDrop::new(service);
            Err(Failure::Run(path, RunError::OutOfMemory))
        }
    }
}
