//! Room for the next checkpoint, also where the disk is full.
ghost use Rattle.std.specs.Prelude.{◌≡◌, []};

use crate::files::{Counting, CountingFile, Files, Spare};
use crate::telling::tell_short;
use journal::{Active, JournalError, JournalFile, Log, PAGE, Selector, Standby};
use sqlite_disk::Disk;
use std::alloc::Global;

// Makes a file longer until it has this number of bytes. Answers how many it has.
fn grow_to<L: Log>(log: &mut L, bytes: usize) -> Result<usize, JournalError> {
    'growing: for _ in 0..bytes {
        let size = log.size()?;
        if size >= bytes {
            return Ok(size);
        }
        log.grow()?;
    }
    Err(JournalError::CannotGrow)
}

// Makes a file longer that doesn't count, and gives its disk back.
fn lengthen<D: Disk + Drop, C: Selector>(
    alloc: Global,
    disk: D,
    bytes: usize,
) -> (D, Result<usize, JournalError>) {
    let mut log = match JournalFile::<D, C>::open(alloc, disk) {
        Ok(log) => log,
        Err(not) => return (not.disk, Err(not.error)),
    };
    let size = grow_to(&mut log, bytes);
    (log.into_disk(), size)
}

// Makes the file longer that doesn't count.
fn lengthen_spare<D: Disk + Drop>(
    alloc: Global,
    spare: Spare<D>,
    bytes: usize,
) -> (Spare<D>, Result<usize, JournalError>) {
    match spare {
        Spare::First(disk) => {
            let (disk, size) = lengthen::<D, Standby>(alloc, disk, bytes);
            (Spare::First(disk), size)
        }
        Spare::Second(disk) => {
            let (disk, size) = lengthen::<D, Active>(alloc, disk, bytes);
            (Spare::Second(disk), size)
        }
    }
}

// How long a file is that doesn't count; 0 where it can't be read, or can't grow to the length that
// it should have. The latter is told.
fn length_of(rt: &HostRuntime, path: &str, size: Result<usize, JournalError>) -> usize {
    match size {
        Ok(bytes) => bytes,
        Err(error) => {
            if error == JournalError::CannotGrow {
                tell_short(rt, path);
            }
            0
        }
    }
}

// Whether a file of this length is longer than that of a journal.
fn is_longer<D: Disk + Drop>(bytes: usize, journal: &Counting<D>) -> bool {
    match journal.log.size() {
        Ok(size) => bytes > size.saturating_add(PAGE),
        Err(_) => false,
    }
}

// Whether the disk has no room for a journal to grow. Else the journal's file is longer now.
fn is_full<D: Disk + Drop>(journal: &mut Counting<D>) -> bool
    ensures { journal.new.pending.items ≡ journal.old.pending.items }
{
    match journal.grow() {
        Err(JournalError::CannotGrow) => true,
        _ => false,
    }
}

// Whether a file of this length has more room than that of a journal, which can't grow.
fn has_more_room<D: Disk + Drop>(bytes: usize, journal: &mut Counting<D>) -> bool
    ensures { journal.new.pending.items ≡ journal.old.pending.items }
{
    if !is_longer(bytes, journal) {
        return false;
    }
    is_full(journal)
}

/// Makes the file that doesn't count as long as the last checkpoint, so that the next one has room
/// there, even if the disk is full. Answers whether it is longer than the file that counts, though that
/// one can't grow. The code is there once, whatever calls it.
#[inline(never)]
pub fn keep_length<'a, D: Disk + Drop>(
    files: Files<'a, D, CountingFile<D>>,
) -> (Files<'a, D, CountingFile<D>>, bool)
    requires { files.log.journal.pending.items ≡ [] }
    ensures { result.0.log.journal.pending.items ≡ [] }
{
    let Files {
        rt,
        names,
        card,
        log,
        spare,
    } = files;
    let mut log = log;
    let path = names.of(spare.is_second());
    let (spare, size) = lengthen_spare(rt.alloc(), spare, card.end.saturating_add(PAGE));
    let bytes = length_of(rt, path, size);
    let has_more = has_more_room(bytes, &mut log.journal);
    (
        Files {
            rt,
            names,
            card,
            log,
            spare,
        },
        has_more,
    )
}
