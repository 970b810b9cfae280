//! A file whose head no call changes.
ghost use Rattle.std.specs.Prelude.{◌≡◌, ◌≤◌, ◌*◌, [], true, List, ℕ, take, IsTrue, IfOk, IfErr, OnOk};
ghost use Rattle.journal.specs.Crashes.{Only, written};
ghost use Rattle.journal.specs.Head.{IsHeaded};

use crate::opening::reading::{place_of, put_bytes, read_bytes};
use journal::{JournalError, Log, STEP};
use sqlite_disk::Disk;
use std::marker::{Brand, PhantomData};

/// The head of a file while what it tells is believed. Only proofs know it.
pub trait Head {
    ghost head: { List ℕ };
}

impl Head for Brand {
    ghost head = { [] };
}

/// A file with a head, and behind it the bytes that are believed. It never grows. Whatever was
/// asked of it, each file that a crash may leave has this head.
#[derive(Drop)]
pub struct HeadedFile<D: Disk + Drop, H: Head> {
    disk: D,
    steps: usize,
    size: usize,
    is_open: bool,
    of: PhantomData<H>,
    ghost sized: { (size ≡ 1048576 * steps) × (steps ≤ 2037) },
    ghost headed: { is_open ≡ true → IsTrue (D.Disk.is_clean disk)
        → IsHeaded (D.Disk.seen disk) steps },
    ghost fronts: { IsTrue (D.Disk.is_clean disk) → (file : List ℕ)
        → D.Disk.may_leave disk file → take 4096 file ≡ H.head },
}

impl<D: Disk + Drop, H: Head> HeadedFile<D, H> {
    ghost use Rattle.std.specs.Prelude.{◌≡◌, ◌≤◌, List, ℕ, take, IsTrue};
    ghost use Rattle.journal.specs.Crashes.{Only};
    ghost use Rattle.journal.specs.Head.{IsHeaded};

    /// A file with this head, all of which is on the disk.
    pub fn new(disk: D, steps: usize) -> HeadedFile<D, H>
        requires headed { IsTrue (D.Disk.is_clean disk) → IsHeaded (D.Disk.seen disk) steps }
        requires bound { steps ≤ 2037 }
        requires only { Only (D.Disk.seen disk) (D.Disk.may_leave disk) }
        requires head { IsTrue (D.Disk.is_clean disk) → take 4096 (D.Disk.seen disk) ≡ H.head }
        ensures same { result.disk ≡ disk }
    {
        HeadedFile {
            disk,
            steps,
            size: STEP * steps,
            is_open: true,
            of: PhantomData,
        }
    }

    /// The disk of the file.
    pub fn into_disk(self) -> D
        ensures same { result ≡ self.disk }
        ensures head { IsTrue (D.Disk.is_clean result) → (file : List ℕ)
            → D.Disk.may_leave result file → take 4096 file ≡ H.head }
    {
        self.disk
    }
}

impl<D: Disk + Drop, H: Head> Log for HeadedFile<D, H> {
    ghost use Rattle.journal.specs.Crashes.{Only};
    ghost use Rattle.journal.specs.Head.{believed, Texts};

    ghost text = { λ f. believed (D.Disk.seen f.disk) };

    ghost may_leave = { λ f. Texts (D.Disk.may_leave f.disk) };

    ghost rests = { λ f. Only (believed (D.Disk.seen f.disk)) (Texts (D.Disk.may_leave f.disk)) };

    ghost is_clean = { λ f. D.Disk.is_clean f.disk };

    ghost rested = { λ f c only left. only c left };

    fn size(&self) -> Result<usize, JournalError> {
        if !self.is_open {
            return Err(JournalError::DiskFailed);
        }
        Ok(self.size)
    }

    fn read(&mut self, at: usize, count: usize, block: &mut Vec<u8>) -> Result<(), JournalError> {
        if !self.is_open {
            return Err(JournalError::DiskFailed);
        }
        if count > self.size || at > self.size - count {
            return Err(JournalError::DiskFailed);
        }
        let place = place_of(at)?;
        read_bytes(&mut self.disk, place, count, block)?;
        Ok(())
    }

    fn put(&mut self, at: usize, bytes: &[u8]) -> Result<(), JournalError> {
        if !self.is_open || !self.disk.may_be_used() || !self.disk.mixes() {
            return Err(JournalError::DiskFailed);
        }
        if bytes.len() > self.size || at > self.size - bytes.len() {
            return Err(JournalError::DiskFailed);
        }
        let place = place_of(at)?;
        self.is_open = false;
        put_bytes(&mut self.disk, place, bytes)?;
        self.is_open = true;
        Ok(())
    }

    fn grow(&mut self) -> Result<(), JournalError> {
        Err(JournalError::CannotGrow)
    }
}
