//! The file that doesn't count, while it is open.
ghost use Rattle.std.specs.Prelude.{◌≡◌, List, ℕ, true, false, IsTrue};
ghost use Rattle.sqlite_disk.specs.Refusal.{is_no_room};
ghost use Rattle.journal.specs.Crashes.{Only};
ghost use Rattle.journal.specs.Head.{believed, Texts};

use crate::blanking::blank_file;
use crate::growing::grow_to;
use crate::witness::put_witness;
use journal::{JournalError, JournalFile, Note, Selector, has_head, reads_page};
use sqlite_disk::{Disk, Tally};
use std::alloc::Global;
use std::io;

/// The file that doesn't count, open, so that notes can be put into its page. As a disk it refuses
/// each call: a run leaves it as it is.
#[derive(Drop)]
pub struct Spare<D: Disk + Drop, C: Selector> {
    file: JournalFile<D, C>,
    is_settled: bool,
    may_be_used: bool,
    ghost settled: { is_settled ≡ true
        → IsTrue (D.Disk.is_clean file.disk)
        → Only (believed (D.Disk.seen file.disk)) (Texts (D.Disk.may_leave file.disk)) },
}

// Whether a file has a page, or gets one with its head. One of format 1 has no place for notes.
fn has_place<D: Disk>(alloc: Global, disk: &mut D) -> bool
    ensures clean { IsTrue (D.is_clean disk.new) → IsTrue (D.is_clean disk.old) }
    ensures seen { D.seen disk.new ≡ D.seen disk.old }
    ensures crash { (c : List ℕ) → D.may_leave disk.new c → D.may_leave disk.old c }
{
    match has_head(alloc, disk) {
        Ok(true) => {}
        Ok(false) => return true,
        Err(_) => return false,
    }
    match reads_page(disk) {
        Ok(has_page) => has_page,
        Err(_) => false,
    }
}

impl<D: Disk + Drop, C: Selector> Spare<D, C> {
    ghost use Rattle.std.specs.Prelude.{◌≡◌, ◌≤◌, List, ℕ, length, drop, replicate, IsTrue, IfOk, IfErr, OnOk};
    ghost use Rattle.sqlite_disk.specs.Disk.{Follows};
    ghost use Rattle.journal.specs.Crashes.{Only};
    ghost use Rattle.journal.specs.Head.{believed, Texts};
    ghost use Rattle.journal.specs.Notes.{IsNote, StandsAt};
    ghost use Rattle.journal.specs.Selector.{SameSelector};
    ghost use Rattle.store_folder.specs.Blanks.{BlankIn};
    ghost use Rattle.store_folder.specs.Spares.{WitnessIn, LongerIn};

    /// Opens a file that has this selector and a place for notes. It isn't changed, unless it never
    /// had a whole head.
    pub fn open(alloc: Global, disk: D) -> Result<Spare<D, C>, D>
        ensures opened { IfOk result (λ spare. IsTrue (⟦<Spare<D, C> as Disk>⟧.is_clean spare)
            → Follows SameSelector (D.Disk.may_leave disk)
            (⟦<Spare<D, C> as Disk>⟧.may_leave spare)) }
        ensures refused { IfErr result (λ back. IsTrue (D.Disk.is_clean back)
            → Follows SameSelector (D.Disk.may_leave disk) (D.Disk.may_leave back)) }
        ensures clean { IfOk result (λ spare. IsTrue (⟦<Spare<D, C> as Disk>⟧.is_clean spare)
            → IsTrue (D.Disk.is_clean disk)) }
        ensures still { IfErr result
            (λ back. IsTrue (D.Disk.is_clean back) → IsTrue (D.Disk.is_clean disk)) }
    {
        let mut disk = disk;
        let has_place = has_place(alloc, &mut disk);
        if !has_place {
            return Err(disk);
        }
        let file = match JournalFile::<D, C>::open(alloc, disk) {
            Ok(file) => file,
            Err(not) => return Err(not.disk),
        };
        Ok(Spare {
            file,
            is_settled: true,
            may_be_used: false,
        })
    }

    /// A file that was open, into which nothing is put any more.
    pub fn closed(file: JournalFile<D, C>) -> Spare<D, C>
        ensures { result.file ≡ file }
    {
        Spare {
            file,
            is_settled: false,
            may_be_used: false,
        }
    }

    /// The file.
    pub fn into_file(self) -> JournalFile<D, C>
        ensures { result ≡ self.file }
    {
        self.file
    }

    /// Its disk.
    pub fn into_disk(self) -> D
        ensures { result ≡ self.file.disk }
    {
        // For the prover: it reads the clause of a value with a name.
        let disk = self.file.into_disk();
        disk
    }

    /// Puts a witness into its page. Once that failed, nothing is put any more.
    pub fn witness(&mut self, alloc: Global, note: Note) -> Result<(), JournalError>
        ensures ok { OnOk result (IsTrue (⟦<Spare<D, C> as Disk>⟧.is_clean self.old)
            → (c : List ℕ) → ⟦<Spare<D, C> as Disk>⟧.may_leave self.new c
            → StandsAt 512 (believed c) note) }
        ensures whole { OnOk result (IsNote note) }
        ensures calm { ⟦<Spare<D, C> as Disk>⟧.is_clean self.new
            ≡ ⟦<Spare<D, C> as Disk>⟧.is_clean self.old }
        ensures crash { IsTrue (⟦<Spare<D, C> as Disk>⟧.is_clean self.old)
            → Follows (WitnessIn note) (⟦<Spare<D, C> as Disk>⟧.may_leave self.old)
            (⟦<Spare<D, C> as Disk>⟧.may_leave self.new) }
    {
        if !self.is_settled {
            return Err(JournalError::DiskFailed);
        }
        self.is_settled = false;
        put_witness(alloc, &mut self.file, note)?;
        self.is_settled = true;
        Ok(())
    }

    /// Makes it blank, but for a witness in its page. Once that failed, nothing is put any more.
    pub fn blank(&mut self, alloc: Global, witness: Note) -> Result<(), JournalError>
        ensures zeros { OnOk result (IsTrue (⟦<Spare<D, C> as Disk>⟧.is_clean self.old)
            → drop 4096 (believed (D.Disk.seen self.new.file.disk))
            ≡ replicate (length (drop 4096 (believed (D.Disk.seen self.new.file.disk)))) 0) }
        ensures whole { OnOk result (IsNote witness) }
        ensures durable { OnOk result (IsTrue (⟦<Spare<D, C> as Disk>⟧.is_clean self.old)
            → Only (believed (D.Disk.seen self.new.file.disk))
            (Texts (D.Disk.may_leave self.new.file.disk))) }
        ensures calm { ⟦<Spare<D, C> as Disk>⟧.is_clean self.new
            ≡ ⟦<Spare<D, C> as Disk>⟧.is_clean self.old }
        ensures crash { IsTrue (⟦<Spare<D, C> as Disk>⟧.is_clean self.old)
            → Follows (BlankIn witness) (⟦<Spare<D, C> as Disk>⟧.may_leave self.old)
            (⟦<Spare<D, C> as Disk>⟧.may_leave self.new) }
    {
        if !self.is_settled {
            return Err(JournalError::DiskFailed);
        }
        self.is_settled = false;
        blank_file(alloc, &mut self.file, witness)?;
        self.is_settled = true;
        Ok(())
    }

    /// Makes it longer by zeros until this number of bytes at least is behind its head. Answers how
    /// many there are. Once that failed, nothing is put any more.
    pub fn lengthen(&mut self, bytes: usize) -> Result<usize, JournalError>
        ensures size { IfOk result (λ size. IsTrue (D.Disk.is_clean self.new.file.disk)
            → (bytes ≤ size) × (size ≡ length (believed (D.Disk.seen self.new.file.disk)))) }
        ensures calm { ⟦<Spare<D, C> as Disk>⟧.is_clean self.new
            ≡ ⟦<Spare<D, C> as Disk>⟧.is_clean self.old }
        ensures crash { IsTrue (⟦<Spare<D, C> as Disk>⟧.is_clean self.old)
            → Follows LongerIn (⟦<Spare<D, C> as Disk>⟧.may_leave self.old)
            (⟦<Spare<D, C> as Disk>⟧.may_leave self.new) }
    {
        if !self.is_settled {
            return Err(JournalError::DiskFailed);
        }
        self.is_settled = false;
        let size = grow_to(&mut self.file, bytes)?;
        self.is_settled = true;
        Ok(size)
    }
}

// Why a call isn't made.
fn refusal() -> io::Error
    ensures { is_no_room result ≡ false }
{
    io::Error::from(io::ErrorKind::Unsupported)
}

impl<D: Disk + Drop, C: Selector> Disk for Spare<D, C> {
    ghost use Rattle.std.specs.Prelude.{◌^◌, ◌-◌, true, IsTrue, refl};

    ghost seen = { λ s. D.Disk.seen s.file.disk };

    ghost may_leave = { λ s. D.Disk.may_leave s.file.disk };

    ghost is_usable = { λ s. s.may_be_used };

    ghost faults = { λ _. 2 ^ 64 - 1 };

    ghost tally_of = { λ _. record { caught = 0; refused = 0 } };

    ghost is_clean = { λ s. D.Disk.is_clean s.file.disk };

    ghost key_of = { λ _. 0 };

    ghost is_fair = { λ _ _. true };

    ghost seen_may_stay = { λ s. D.Disk.seen_may_stay s.file.disk };

    ghost fair_if_clean = { λ _ _ _. refl };

    fn mixes(&self) -> bool {
        false
    }

    fn key(&self) -> u64 {
        0
    }

    fn tally(&self) -> Tally {
        Tally {
            caught: 0,
            refused: 0,
        }
    }

    fn may_be_used(&self) -> bool {
        self.may_be_used
    }

    fn len(&mut self) -> io::Result<usize> {
        Err(refusal())
    }

    fn read_at(&mut self, _: usize, _: &mut [u8]) -> io::Result<()> {
        Err(refusal())
    }

    fn read_checked(&mut self, _: u64, _: u64, _: usize, _: &mut [u8]) -> io::Result<()> {
        Err(refusal())
    }

    fn write_at(&mut self, _: usize, _: &[u8]) -> io::Result<()> {
        Err(refusal())
    }

    fn set_len(&mut self, _: usize) -> io::Result<()> {
        Err(refusal())
    }

    fn sync(&mut self) -> io::Result<()> {
        self.may_be_used = false;
        Err(refusal())
    }
}
