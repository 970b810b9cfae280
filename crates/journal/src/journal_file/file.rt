//! A journal's file over a disk.
ghost use Rattle.std.specs.Prelude.{◌≡◌, ◌≤◌, ◌*◌, true, IsTrue};
ghost use Rattle.journal.specs.Head.{IsHeaded};
ghost use Rattle.journal.specs.Selector.{AllSelect};

use crate::journal_file::growing::{add_zeros, put_marks};
use crate::journal_file::head::{STEP, STEPS, end_of, place_of};
use crate::journal_file::selecting::find;
use crate::journal_file::selector::{Selector, is_alike};
use crate::journal_file::steps::{put, read_block};
use crate::{JournalError, Log};
use sqlite_disk::Disk;
use std::alloc::Global;
use std::marker::PhantomData;

/// A file over a disk: a head, and behind it the bytes that are believed. Bytes are put only to a
/// disk that mixes: then each byte of a write that a crash cut short is the old one or the new one.
/// Each file that a crash may leave has the selector of the type, whatever was asked of it.
#[derive(Drop)]
pub struct JournalFile<D: Disk + Drop, C: Selector> {
    alloc: Global,
    disk: D,
    steps: usize,
    size: usize,
    is_open: bool,
    selector: PhantomData<C>,
    ghost headed: { is_open ≡ true → IsTrue (D.Disk.is_clean disk)
        → IsHeaded (D.Disk.seen disk) steps },
    ghost sized: { is_open ≡ true → (size ≡ 1048576 * steps) × (steps ≤ 2037) },
    ghost selected: { IsTrue (D.Disk.is_clean disk)
        → AllSelect C.IS_STANDBY (D.Disk.may_leave disk) },
}

/// Why a file isn't opened, and its disk.
#[derive(Drop)]
pub struct NotOpen<D: Disk + Drop> {
    pub error: JournalError,
    pub disk: D,
}

impl<D: Disk + Drop, C: Selector> JournalFile<D, C> {
    ghost use Rattle.std.specs.Prelude.{◌≡◌, true, IsTrue, IfOk, IfErr};
    ghost use Rattle.journal.specs.Crashes.{Only};
    ghost use Rattle.journal.specs.Head.{believed, Texts, IsHeaded, IsUnknown, HasLostHead};
    ghost use Rattle.journal.specs.Selector.{AllSelect, ReadsHead};

    /// Opens the file of a disk: reads its head. An empty file, or one that holds no more than zeros
    /// and a part of a new head, gets a head; any other isn't changed. One with another selector is
    /// refused.
    pub fn open(alloc: Global, disk: D) -> Result<JournalFile<D, C>, NotOpen<D>>
        ensures rests { IfOk result (λ file. Only (believed (D.Disk.seen file.disk))
            (Texts (D.Disk.may_leave file.disk))) }
        ensures headed { IfOk result (λ file. IsTrue (D.Disk.is_clean file.disk)
            → IsHeaded (D.Disk.seen file.disk) file.steps) }
        ensures opened { IfOk result (λ file. IsTrue (D.Disk.is_clean file.disk)
            → ReadsHead (D.Disk.seen disk) (D.Disk.seen file.disk) (D.Disk.may_leave disk)
            (D.Disk.may_leave file.disk)) }
        ensures refused { IfErr result (λ not. IsTrue (D.Disk.is_clean not.disk)
            → ReadsHead (D.Disk.seen disk) (D.Disk.seen not.disk) (D.Disk.may_leave disk)
            (D.Disk.may_leave not.disk)) }
        ensures unknown { IfErr result (λ not. not.error ≡ JournalError.UnknownFormat
            → IsTrue (D.Disk.is_clean not.disk) → IsUnknown (D.Disk.seen disk)) }
        ensures damaged { IfErr result (λ not. not.error ≡ JournalError.Damaged
            → IsTrue (D.Disk.is_clean not.disk) → HasLostHead (D.Disk.seen disk)) }
        ensures clean { IfOk result (λ file. IsTrue (D.Disk.is_clean file.disk)
            → IsTrue (D.Disk.is_clean disk)) }
        ensures still { IfErr result (λ not. IsTrue (D.Disk.is_clean not.disk)
            → IsTrue (D.Disk.is_clean disk)) }
    {
        let mut disk = disk;
        if !disk.may_be_used() {
            return Err(NotOpen {
                error: JournalError::DiskFailed,
                disk,
            });
        }
        let found = match find(alloc, &mut disk) {
            Ok(found) => found,
            Err(error) => return Err(NotOpen { error, disk }),
        };
        if !is_alike(found.is_standby, C::IS_STANDBY) {
            return Err(NotOpen {
                error: JournalError::DiskFailed,
                disk,
            });
        }
        Ok(JournalFile {
            alloc,
            disk,
            steps: found.steps,
            size: STEP * found.steps,
            is_open: true,
            selector: PhantomData,
        })
    }

    /// The disk of the file.
    pub fn into_disk(self) -> D
        ensures disk { result ≡ self.disk }
        ensures selected { IsTrue (D.Disk.is_clean result)
            → AllSelect C.IS_STANDBY (D.Disk.may_leave result) }
    {
        self.disk
    }
}

impl<D: Disk + Drop, C: Selector> Log for JournalFile<D, C> {
    ghost use Rattle.journal.specs.Crashes.{Only};
    ghost use Rattle.journal.specs.Head.{believed, Texts};

    ghost text = { λ f. believed (D.Disk.seen f.disk) };

    ghost may_leave = { λ f. Texts (D.Disk.may_leave f.disk) };

    ghost rests = { λ f. Only (believed (D.Disk.seen f.disk)) (Texts (D.Disk.may_leave f.disk)) };

    ghost is_clean = { λ f. D.Disk.is_clean f.disk };

    ghost rested = { λ f c only left. only c left };

    fn size(&self) -> Result<usize, JournalError> {
        if !self.is_open {
            return Err(JournalError::DiskFailed);
        }
        Ok(self.size)
    }

    fn read(&mut self, at: usize, count: usize, block: &mut Vec<u8>) -> Result<(), JournalError> {
        if !self.is_open || !self.disk.may_be_used() {
            return Err(JournalError::DiskFailed);
        }
        if count > self.size || at > self.size - count {
            return Err(JournalError::DiskFailed);
        }
        let place = place_of(at)?;
        read_block(&mut self.disk, place, count, block)?;
        Ok(())
    }

    fn put(&mut self, at: usize, bytes: &[u8]) -> Result<(), JournalError> {
        if !self.is_open || !self.disk.may_be_used() || !self.disk.mixes() {
            return Err(JournalError::DiskFailed);
        }
        if bytes.len() > self.size || at > self.size - bytes.len() {
            return Err(JournalError::DiskFailed);
        }
        let place = place_of(at)?;
        self.is_open = false;
        put(&mut self.disk, place, bytes)?;
        self.is_open = true;
        Ok(())
    }

    fn grow(&mut self) -> Result<(), JournalError> {
        if !self.is_open || !self.disk.may_be_used() {
            return Err(JournalError::DiskFailed);
        }
        if self.steps >= STEPS {
            return Err(JournalError::CannotGrow);
        }
        let from = end_of(self.steps);
        let till = end_of(self.steps + 1);
        add_zeros(self.alloc, &mut self.disk, from, till)?;
        self.is_open = false;
        match put_marks(&mut self.disk, self.steps) {
            Ok(()) => {}
            Err(_) => return Err(JournalError::DiskFailed),
        }
        self.steps += 1;
        self.size += STEP;
        self.is_open = true;
        Ok(())
    }
}
