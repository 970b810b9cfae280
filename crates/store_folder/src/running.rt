//! A run of a service over a folder: from its files to its files.
ghost use Rattle.std.specs.Prelude.{◌≡◌, ◌&&◌, [], List, ℕ, take, true, IsTrue, IfOk, IfErr, IfSome, Option};
ghost use Rattle.std.specs.Io.KnownBytes.{IsAtEnd};
ghost use Rattle.journal.specs.Crashes.{Only};
ghost use Rattle.line_loop.specs.Runs.{EndsRun, stopped_at_end, from, Kept, Answers};

use crate::carded::{Carded, Page};
use crate::counting::Counting;
use crate::folder_log::{Earlier, FolderLog};
use journal::{Journal, Note};
use line_loop::{RunBuffers, RunError, Service, Stop, run_lines};
use sqlite_disk::Disk;
use std::alloc::Global;
use std::io::{Read, Write};
use std::marker::Brand;
use std::sync::Wait;
use std::thread::Threads;

/// What keeps lines, as a log does, between two runs.
pub trait Lines {
    /// It has kept these lines, and those wait.
    ghost holds: { Self → List (List ℕ) → List (List ℕ) → Type 0 };

    /// After a crash at this moment a start may find these lines; or it refuses.
    ghost may_find: { Self → Option (List (List ℕ)) → Type 0 };

    /// No read of it has answered what isn't there.
    ghost reads: { Self → Type 0 };

    /// All that a run adds to is on the disk.
    ghost rests: { Self → Type 0 };
}

/// The two files of a store. The one that counts is open, and all of it is on the disk.
#[derive(Drop)]
pub struct Folder<E: Counting + Drop, D: Disk + Drop> {
    pub file: E,
    /// What the page of the file that counts says of it.
    pub card: Note,
    /// The sum before its first group, and the last one.
    pub first: [u8; 64],
    pub last: [u8; 64],
    /// Where its groups end.
    pub end: usize,
    /// The second file counts, not the first.
    pub is_second: bool,
    /// The file that doesn't count.
    pub spare: D,
}

impl<E: Counting + Drop, D: Disk + Drop> Lines for Folder<E, D> {
    ghost use Rattle.store_folder.specs.Folders.{MayTell};
    ghost use Rattle.store_folder.specs.Logs.{HoldsFolder};

    ghost holds = { λ f. HoldsFolder f.card f.is_second f.first (E.Log.is_clean f.file)
        (E.Log.text f.file) (E.Log.may_leave f.file) (E.Counting.leaves f.file)
        (D.Disk.may_leave f.spare) f.last f.end };

    ghost may_find = { λ f. MayTell f.is_second (E.Counting.leaves f.file)
        (D.Disk.may_leave f.spare) };

    ghost reads = { λ f. IsTrue (E.Log.is_clean f.file) × IsTrue (D.Disk.is_clean f.spare) };

    ghost rests = { λ f. IsTrue (E.Log.is_clean f.file)
        → Only (E.Log.text f.file) (E.Log.may_leave f.file) };
}

/// Where lines come from, and where replies go.
#[derive(Drop)]
pub struct Streams<R: Read + Drop, W: Write + Drop> {
    pub buffers: RunBuffers,
    pub reader: R,
    pub writer: W,
}

/// A folder after a run, and how the run stopped.
#[derive(Drop)]
pub struct Ran<E: Counting + Drop, D: Disk + Drop> {
    pub folder: Folder<E, D>,
    pub stop: Result<Stop, RunError>,
    /// All of the file that counts is known to be on the disk: no write of it failed.
    pub is_at_rest: bool,
    ghost rests: { is_at_rest ≡ true → IsTrue (E.Log.is_clean folder.file)
        → Only (E.Log.text folder.file) (E.Log.may_leave folder.file) },
}

// Runs a service over a folder whose file that counts has this page.
fn run_paged<
    K: Page + Earlier,
    S: Service,
    T: Threads + Wait + Sync,
    E: Counting + Drop,
    D: Disk + Drop,
    R: Read + Drop,
    W: Write + Drop,
>(
    rt: &T,
    alloc: Global,
    service: &mut S,
    folder: Folder<E, D>,
    due_at: usize,
    streams: &mut Streams<R, W>,
) -> Ran<E, D>
    requires rests { IsTrue (E.Log.is_clean folder.file)
        → Only (E.Log.text folder.file) (E.Log.may_leave folder.file) }
    requires page { take 4096 (E.Log.text folder.file) ≡ K.page }
    requires reads { (E.Log.is_clean folder.file && D.Disk.is_clean folder.spare) ≡ K.was_clean }
    ensures end { IfOk result.stop (λ stop. stop ≡ Stop.End
        → IsAtEnd (R.Read.remaining streams.new.reader) × (streams.new.buffers ≡ [])) }
    ensures answers { IfSome (stopped_at_end result.stop) (λ at_end. (kept : List (List ℕ))
        → ⟦<Folder<E, D> as Lines>⟧.holds folder kept []
        → Answers S.steps (from service.old kept (W.Write.contents streams.old.writer)
        streams.old.buffers (R.Read.remaining streams.old.reader)) at_end service.new
        (W.Write.contents streams.new.writer) streams.new.buffers
        (R.Read.remaining streams.new.reader) (⟦<Folder<E, D> as Lines>⟧.holds result.folder)) }
    ensures kept { (kept : List (List ℕ))
        → ⟦<Folder<E, D> as Lines>⟧.holds folder kept []
        → Kept S.steps (from service.old kept (W.Write.contents streams.old.writer)
        streams.old.buffers (R.Read.remaining streams.old.reader))
        (W.Write.contents streams.new.writer) (R.Read.remaining streams.new.reader)
        (⟦<Folder<E, D> as Lines>⟧.may_find result.folder) }
    ensures reads { ⟦<Folder<E, D> as Lines>⟧.reads result.folder → IsTrue K.was_clean }
    ensures error { IfErr result.stop (EndsRun true) }
{
    let Folder {
        file,
        card,
        first,
        last,
        end,
        is_second,
        spare,
    } = folder;
    let mut log = FolderLog::<E, D, K> {
        journal: Journal {
            log: Carded::new(file),
            last,
            end,
            pending: Vec::new(alloc),
        },
        card,
        first,
        is_second,
        spare,
        due_at,
    };
    let stop = run_lines(
        rt,
        service,
        &mut log,
        &mut streams.buffers,
        &mut streams.reader,
        &mut streams.writer,
    );
    let FolderLog {
        journal,
        card,
        first,
        is_second,
        spare,
        ..
    } = log;
    let Journal {
        log: text,
        last,
        end,
        ..
    } = journal;
    let is_at_rest = text.is_at_rest();
    Ran {
        folder: Folder {
            file: text.into_log(),
            card,
            first,
            last,
            end,
            is_second,
            spare,
        },
        stop,
        is_at_rest,
    }
}

/// Answers the lines of a reader from a service over a folder, each block kept before its replies
/// are written, until the reader ends or the journal is longer than `due_at`. No call touches the
/// file that doesn't count.
///
/// Whatever is read and whatever fails, at each moment: whatever a crash leaves of both files, a
/// start finds the lines that were there, and those accepted among the first lines that were read,
/// those of each written reply at least.
pub fn run_folder<
    S: Service,
    T: Threads + Wait + Sync,
    E: Counting + Drop,
    D: Disk + Drop,
    R: Read + Drop,
    W: Write + Drop,
>(
    rt: &T,
    alloc: Global,
    service: &mut S,
    folder: Folder<E, D>,
    due_at: usize,
    streams: &mut Streams<R, W>,
) -> Ran<E, D>
    requires rests { IsTrue (E.Log.is_clean folder.file)
        → Only (E.Log.text folder.file) (E.Log.may_leave folder.file) }
    ensures end { IfOk result.stop (λ stop. stop ≡ Stop.End
        → IsAtEnd (R.Read.remaining streams.new.reader) × (streams.new.buffers ≡ [])) }
    ensures answers { IfSome (stopped_at_end result.stop) (λ at_end. (kept : List (List ℕ))
        → ⟦<Folder<E, D> as Lines>⟧.holds folder kept []
        → Answers S.steps (from service.old kept (W.Write.contents streams.old.writer)
        streams.old.buffers (R.Read.remaining streams.old.reader)) at_end service.new
        (W.Write.contents streams.new.writer) streams.new.buffers
        (R.Read.remaining streams.new.reader) (⟦<Folder<E, D> as Lines>⟧.holds result.folder)) }
    ensures kept { (kept : List (List ℕ))
        → ⟦<Folder<E, D> as Lines>⟧.holds folder kept []
        → Kept S.steps (from service.old kept (W.Write.contents streams.old.writer)
        streams.old.buffers (R.Read.remaining streams.old.reader))
        (W.Write.contents streams.new.writer) (R.Read.remaining streams.new.reader)
        (⟦<Folder<E, D> as Lines>⟧.may_find result.folder) }
    ensures reads { ⟦<Folder<E, D> as Lines>⟧.reads result.folder
        → ⟦<Folder<E, D> as Lines>⟧.reads folder }
    ensures error { IfErr result.stop (EndsRun true) }
{
    run_paged::<Brand, S, T, E, D, R, W>(rt, alloc, service, folder, due_at, streams)
}
