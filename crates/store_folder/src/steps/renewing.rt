//! Takes a checkpoint between two runs, and lets its file count.
ghost use Rattle.std.specs.Prelude.{◌≡◌, List, ℕ, not, true, false, IsTrue, IfOk, IfErr, IfNone};
ghost use Rattle.store_folder.specs.Folders.{MayTell};
ghost use Rattle.store_folder.specs.Steps.{Remakes, Retells};

use crate::running::{Folder, Lines};
use crate::steps::drafting::write_checkpoint;
use crate::steps::turns::{turn_to_first, turn_to_second};
use crate::switching::NotSelected;
use crate::taking::{Refusal, Source};
use journal::{Active, JournalFile, Log, Standby};
use sqlite_disk::Disk;
use std::alloc::Global;
use std::sync::Wait;
use std::thread::Threads;

/// The folder after a renewal.
#[derive(Drop)]
pub struct Tried<D: Disk + Drop, Y: Drop> {
    pub folder: Folder<JournalFile<D, Active>, D>,
    /// Why no checkpoint was taken, if none was.
    pub why: Option<Refusal<Y>>,
}

// Takes a checkpoint into the second file, and lets that one count in place of the first.
fn renew_second<W: Source, T: Threads + Wait + Sync, D: Disk + Drop>(
    rt: &T,
    alloc: Global,
    source: &W,
    folder: Folder<JournalFile<D, Active>, D>,
) -> Result<Tried<D, W::Why>, NotSelected<D>>
    ensures ok { IfOk result (λ renewed. IsTrue (D.Disk.is_clean renewed.folder.file.disk)
        → IsTrue (D.Disk.is_clean renewed.folder.spare) → Remakes (W.makes source.now)
        (⟦<Folder<JournalFile<D, Active>, D> as Lines>⟧.holds folder)
        (⟦<Folder<JournalFile<D, Active>, D> as Lines>⟧.holds renewed.folder)) }
    ensures failed { IfErr result (λ not. IsTrue (D.Disk.is_clean not.first)
        → IsTrue (D.Disk.is_clean not.second) → Retells (W.makes source.now)
        (⟦<Folder<JournalFile<D, Active>, D> as Lines>⟧.holds folder)
        (MayTell false (D.Disk.may_leave not.first) (D.Disk.may_leave not.second))) }
    ensures which { IfOk result
        (λ renewed. IfNone renewed.why (renewed.folder.is_second ≡ true)) }
    ensures rests { IfOk result (λ renewed. (IsTrue (D.Disk.is_clean folder.file.disk)
        → ⟦<JournalFile<D, Active> as Log>⟧.rests folder.file)
        → IsTrue (D.Disk.is_clean renewed.folder.file.disk)
        → ⟦<JournalFile<D, Active> as Log>⟧.rests renewed.folder.file) }
    ensures clean { IfOk result (λ renewed. IsTrue (D.Disk.is_clean renewed.folder.file.disk)
        → IsTrue (D.Disk.is_clean renewed.folder.spare)
        → IsTrue (D.Disk.is_clean folder.file.disk) × IsTrue (D.Disk.is_clean folder.spare)) }
    ensures still { IfErr result (λ not. IsTrue (D.Disk.is_clean not.first)
        → IsTrue (D.Disk.is_clean not.second)
        → IsTrue (D.Disk.is_clean folder.file.disk) × IsTrue (D.Disk.is_clean folder.spare)) }
{
    let taken = match write_checkpoint::<W, T, JournalFile<D, Active>, D, Active>(
        rt, alloc, source, folder,
    ) {
        Ok(taken) => taken,
        Err(not) => {
            return Ok(Tried {
                folder: not.folder,
                why: Some(not.why),
            });
        }
    };
    let turned = match turn_to_second(alloc, taken) {
        Ok(turned) => turned,
        Err(not) => return Err(not),
    };
    Ok(Tried {
        folder: turned,
        why: None,
    })
}

// Takes a checkpoint into the first file, and lets that one count in place of the second.
fn renew_first<W: Source, T: Threads + Wait + Sync, D: Disk + Drop>(
    rt: &T,
    alloc: Global,
    source: &W,
    folder: Folder<JournalFile<D, Active>, D>,
) -> Result<Tried<D, W::Why>, NotSelected<D>>
    ensures ok { IfOk result (λ renewed. IsTrue (D.Disk.is_clean renewed.folder.file.disk)
        → IsTrue (D.Disk.is_clean renewed.folder.spare) → Remakes (W.makes source.now)
        (⟦<Folder<JournalFile<D, Active>, D> as Lines>⟧.holds folder)
        (⟦<Folder<JournalFile<D, Active>, D> as Lines>⟧.holds renewed.folder)) }
    ensures failed { IfErr result (λ not. IsTrue (D.Disk.is_clean not.first)
        → IsTrue (D.Disk.is_clean not.second) → Retells (W.makes source.now)
        (⟦<Folder<JournalFile<D, Active>, D> as Lines>⟧.holds folder)
        (MayTell false (D.Disk.may_leave not.first) (D.Disk.may_leave not.second))) }
    ensures which { IfOk result
        (λ renewed. IfNone renewed.why (renewed.folder.is_second ≡ false)) }
    ensures rests { IfOk result (λ renewed. (IsTrue (D.Disk.is_clean folder.file.disk)
        → ⟦<JournalFile<D, Active> as Log>⟧.rests folder.file)
        → IsTrue (D.Disk.is_clean renewed.folder.file.disk)
        → ⟦<JournalFile<D, Active> as Log>⟧.rests renewed.folder.file) }
    ensures clean { IfOk result (λ renewed. IsTrue (D.Disk.is_clean renewed.folder.file.disk)
        → IsTrue (D.Disk.is_clean renewed.folder.spare)
        → IsTrue (D.Disk.is_clean folder.file.disk) × IsTrue (D.Disk.is_clean folder.spare)) }
    ensures still { IfErr result (λ not. IsTrue (D.Disk.is_clean not.first)
        → IsTrue (D.Disk.is_clean not.second)
        → IsTrue (D.Disk.is_clean folder.file.disk) × IsTrue (D.Disk.is_clean folder.spare)) }
{
    let taken = match write_checkpoint::<W, T, JournalFile<D, Active>, D, Standby>(
        rt, alloc, source, folder,
    ) {
        Ok(taken) => taken,
        Err(not) => {
            return Ok(Tried {
                folder: not.folder,
                why: Some(not.why),
            });
        }
    };
    let turned = match turn_to_first(alloc, taken) {
        Ok(turned) => turned,
        Err(not) => return Err(not),
    };
    Ok(Tried {
        folder: turned,
        why: None,
    })
}

/// Takes a checkpoint into the file that doesn't count, and lets that one count in place of the
/// other, with its witness in its own page. Where none is taken the folder goes on.
///
/// Whatever a crash leaves of both files at any moment, a start finds lines that make what the
/// checkpoint is taken of, if no read answered what isn't there.
pub fn renew<W: Source, T: Threads + Wait + Sync, D: Disk + Drop>(
    rt: &T,
    alloc: Global,
    source: &W,
    folder: Folder<JournalFile<D, Active>, D>,
) -> Result<Tried<D, W::Why>, NotSelected<D>>
    ensures ok { IfOk result (λ renewed. IsTrue (D.Disk.is_clean renewed.folder.file.disk)
        → IsTrue (D.Disk.is_clean renewed.folder.spare) → Remakes (W.makes source.now)
        (⟦<Folder<JournalFile<D, Active>, D> as Lines>⟧.holds folder)
        (⟦<Folder<JournalFile<D, Active>, D> as Lines>⟧.holds renewed.folder)) }
    ensures failed { IfErr result (λ not. IsTrue (D.Disk.is_clean not.first)
        → IsTrue (D.Disk.is_clean not.second) → Retells (W.makes source.now)
        (⟦<Folder<JournalFile<D, Active>, D> as Lines>⟧.holds folder)
        (MayTell false (D.Disk.may_leave not.first) (D.Disk.may_leave not.second))) }
    ensures which { IfOk result
        (λ renewed. IfNone renewed.why (renewed.folder.is_second ≡ not folder.is_second)) }
    ensures rests { IfOk result (λ renewed. (IsTrue (D.Disk.is_clean folder.file.disk)
        → ⟦<JournalFile<D, Active> as Log>⟧.rests folder.file)
        → IsTrue (D.Disk.is_clean renewed.folder.file.disk)
        → ⟦<JournalFile<D, Active> as Log>⟧.rests renewed.folder.file) }
    ensures clean { IfOk result (λ renewed. IsTrue (D.Disk.is_clean renewed.folder.file.disk)
        → IsTrue (D.Disk.is_clean renewed.folder.spare)
        → IsTrue (D.Disk.is_clean folder.file.disk) × IsTrue (D.Disk.is_clean folder.spare)) }
    ensures still { IfErr result (λ not. IsTrue (D.Disk.is_clean not.first)
        → IsTrue (D.Disk.is_clean not.second)
        → IsTrue (D.Disk.is_clean folder.file.disk) × IsTrue (D.Disk.is_clean folder.spare)) }
{
    let is_second = folder.is_second;
    if is_second {
        let renewed = match renew_first(rt, alloc, source, folder) {
            Ok(renewed) => renewed,
            Err(not) => return Err(not),
        };
        return Ok(renewed);
    }
    let renewed = match renew_second(rt, alloc, source, folder) {
        Ok(renewed) => renewed,
        Err(not) => return Err(not),
    };
    Ok(renewed)
}
