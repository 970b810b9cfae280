//! Takes a checkpoint between two runs, which doesn't count yet.
ghost use Rattle.std.specs.Prelude.{◌≡◌, [], List, ℕ, IsTrue, IfOk, IfErr};
ghost use Rattle.store_folder.specs.Steps.{Keeps};

use crate::counting::Counting;
use crate::leaving::open_spare;
use crate::running::{Folder, Lines};
use crate::spare::Spare;
use crate::steps::closing::close_spare;
use crate::switching::{Checkpoint, Taken};
use crate::taking::{NotTaken, Refusal, Source, take};
use journal::{JournalError, Selector};
use sqlite_disk::Disk;
use std::alloc::Global;
use std::sync::Wait;
use std::thread::Threads;

/// A folder of which no checkpoint was taken, and why.
#[derive(Drop)]
pub struct NotDrafted<E: Counting + Drop, D: Disk + Drop, Y: Drop> {
    pub why: Refusal<Y>,
    pub folder: Folder<E, D>,
}

/// Takes a checkpoint into the file that doesn't count, which stays open. Where none is taken, that
/// file is closed, and a start finds the same lines, if no read of it answered what isn't there.
pub fn write_checkpoint<
    W: Source,
    T: Threads + Wait + Sync,
    E: Counting + Drop,
    D: Disk + Drop,
    C: Selector,
>(
    rt: &T,
    alloc: Global,
    source: &W,
    folder: Folder<E, D>,
) -> Result<Taken<E, D, C>, NotDrafted<E, D, W::Why>>
    ensures ok { IfOk result (λ taken. IsTrue (D.Disk.is_clean taken.folder.spare.file.disk)
        → Keeps (⟦<Folder<E, D> as Lines>⟧.holds folder)
        (⟦<Folder<E, Spare<D, C>> as Lines>⟧.holds taken.folder)) }
    ensures taken { IfOk result (λ taken. IsTrue (D.Disk.is_clean taken.folder.spare.file.disk)
        → (kept : List (List ℕ)) → ⟦<Folder<E, D> as Lines>⟧.holds folder kept []
        → (more : List (List ℕ)) × W.makes source.now more
        × ⟦<Taken<E, D, C> as Checkpoint>⟧.has taken more) }
    ensures failed { IfErr result (λ not. IsTrue (D.Disk.is_clean not.folder.spare)
        → Keeps (⟦<Folder<E, D> as Lines>⟧.holds folder)
        (⟦<Folder<E, D> as Lines>⟧.holds not.folder)) }
    ensures clean { IfOk result (λ taken. IsTrue (D.Disk.is_clean taken.folder.spare.file.disk)
        → IsTrue (D.Disk.is_clean folder.spare)) }
    ensures still { IfErr result (λ not. IsTrue (D.Disk.is_clean not.folder.spare)
        → IsTrue (D.Disk.is_clean folder.spare)) }
    ensures file { IfOk result (λ taken. taken.folder.file ≡ folder.file) }
    ensures same { IfErr result (λ not. not.folder.file ≡ folder.file) }
{
    let opened = match open_spare::<E, D, C>(alloc, folder) {
        Ok(opened) => opened,
        Err(back) => {
            return Err(NotDrafted {
                why: Refusal::File(JournalError::DiskFailed),
                folder: back,
            });
        }
    };
    let taken = match take(rt, alloc, source, opened) {
        Ok(taken) => taken,
        Err(not) => {
            let NotTaken { why, folder } = not;
            let closed = close_spare(folder);
            return Err(NotDrafted {
                why,
                folder: closed,
            });
        }
    };
    Ok(taken)
}
