//! What a service does between two runs: checkpoints and witnesses.
ghost use Rattle.std.specs.Prelude.{◌≡◌, [], List, ℕ, IfOk, IfErr};
ghost use Rattle.line_loop.specs.Runs.{FindsOnly};
ghost use Rattle.store_folder.specs.Serves.{Stays};

use crate::leaving::Witnessed;
use crate::running::{Folder, Lines};
use crate::serving::closing::{Ended, Served, close};
use crate::steps::{Lengthened, keep_length, witness_folder};
use crate::taking::Refusal;
use journal::{Active, JournalFile, STEP};
use line_loop::RunError;
use sqlite_disk::Disk;
use std::alloc::Global;

/// What a service tells between two runs.
pub trait Watcher<Y: Drop> {
    /// That a file gets a checkpoint, where the journal goes this far.
    fn renewing(&mut self, is_second: bool, end: usize);

    /// That a file has a checkpoint, which goes this far; or why it has none.
    fn renewed(&mut self, is_second: bool, end: usize, why: Option<Refusal<Y>>);

    /// That a file has no witness of the one that counts.
    fn unwitnessed(&mut self, is_second: bool);

    /// That a file has less room than the last checkpoint took.
    fn short(&mut self, is_second: bool);
}

/// The folder of a service, and whether it takes a checkpoint first.
#[derive(Drop)]
pub struct Begins<D: Disk + Drop> {
    pub folder: Folder<JournalFile<D, Active>, D>,
    pub takes_checkpoint: bool,
}

/// A folder between two runs, and the lengths of its journal behind which a run stops: for a
/// checkpoint, and for a witness.
#[derive(Drop)]
pub struct Paused<D: Disk + Drop> {
    pub folder: Folder<JournalFile<D, Active>, D>,
    pub checkpoint: usize,
    pub witness: usize,
}

/// A folder, and whether the file that doesn't count has more room, though the other can't grow.
#[derive(Drop)]
pub struct Room<D: Disk + Drop> {
    pub folder: Folder<JournalFile<D, Active>, D>,
    pub has_more: bool,
}

// Tells that there is no witness.
fn tell_unwitnessed<Y: Drop, V: Watcher<Y>>(watcher: &mut V, is_left: bool, is_second: bool) {
    if !is_left {
        watcher.unwitnessed(is_second);
    }
}

// Tells that there is little room.
fn tell_short<Y: Drop, V: Watcher<Y>>(watcher: &mut V, is_short: bool, is_second: bool) {
    if is_short {
        watcher.short(is_second);
    }
}

/// Leaves a witness in the file that doesn't count, and tells where that failed. The next one is
/// left once the journal is so much longer.
pub fn leave<D: Disk + Drop, Y: Drop, V: Watcher<Y>>(
    alloc: Global,
    paused: Paused<D>,
    watcher: &mut V,
) -> Paused<D>
    ensures { Stays ⟦<Folder<JournalFile<D, Active>, D> as Lines>⟧.reads
        ⟦<Folder<JournalFile<D, Active>, D> as Lines>⟧.rests
        ⟦<Folder<JournalFile<D, Active>, D> as Lines>⟧.holds paused.folder result.folder }
{
    let Paused {
        folder,
        checkpoint,
        ..
    } = paused;
    let Witnessed { folder, is_left } = witness_folder(alloc, folder);
    tell_unwitnessed::<Y, V>(watcher, is_left, !folder.is_second);
    let witness = folder.end.saturating_add(STEP - 1);
    Paused {
        folder,
        checkpoint,
        witness,
    }
}

/// Makes the file that doesn't count as long as the last checkpoint, and tells where that failed.
pub fn keep_room<D: Disk + Drop, Y: Drop, V: Watcher<Y>>(
    alloc: Global,
    folder: Folder<JournalFile<D, Active>, D>,
    watcher: &mut V,
) -> Result<Room<D>, Served<D>>
    requires rests { ⟦<Folder<JournalFile<D, Active>, D> as Lines>⟧.rests folder }
    ensures ok { IfOk result (λ room.
        Stays ⟦<Folder<JournalFile<D, Active>, D> as Lines>⟧.reads
        ⟦<Folder<JournalFile<D, Active>, D> as Lines>⟧.rests
        ⟦<Folder<JournalFile<D, Active>, D> as Lines>⟧.holds folder room.folder) }
    ensures failed { IfErr result (λ served. ⟦<Served<D> as Ended>⟧.reads served
        → ⟦<Folder<JournalFile<D, Active>, D> as Lines>⟧.reads folder) }
    ensures finds { IfErr result (λ served. (kept : List (List ℕ))
        → ⟦<Folder<JournalFile<D, Active>, D> as Lines>⟧.holds folder kept []
        → ⟦<Served<D> as Ended>⟧.reads served
        → FindsOnly kept (⟦<Served<D> as Ended>⟧.may_find served)) }
    ensures error { IfErr result (λ served. served.ended ≡ Err RunError.LogFailed) }
{
    let kept = keep_length(alloc, folder);
    let Lengthened {
        folder,
        has_more,
        is_short,
        is_at_rest,
    } = kept;
    tell_short::<Y, V>(watcher, is_short, !folder.is_second);
    if !is_at_rest {
        return Err(close(folder, Err(RunError::LogFailed)));
    }
    Ok(Room { folder, has_more })
}
