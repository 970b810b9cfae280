//! A file that grows by zeros, and what a crash may leave of it.
ghost use Rattle.std.specs.Prelude.{◌≡◌, ◌≢◌, ◌⊎◌, ◌<◌, ◌≤◌, ◌+◌, ◌++◌, List, ℕ, length, take, drop, replicate, Bool, IsTrue, IfOk, IfErr, OnOk, IsErrOf};
ghost use Rattle.journal.specs.Crashes.{Only, PutCrash, written};
ghost use Rattle.journal.specs.Growth.{Longer};

use crate::JournalError;

/// A file that is read block by block, and written over. A crash is read as a moment from which on
/// each call fails and changes nothing: so what a crash in the middle of a call may leave is what
/// `may_leave` says when the call has returned, be it with an error.
pub trait Log {
    /// The bytes that a read returns.
    ghost text: { Self → List ℕ };

    /// The bytes that a crash at this moment may leave.
    ghost may_leave: { Self → List ℕ → Type 0 };

    /// All that was written is on the disk.
    ghost rests: { Self → Type 0 };

    /// No read has answered what isn't there. It may fall at a read, and no code can tell.
    ghost is_clean: { Self → Bool };

    /// How many bytes the file has. The disk isn't asked.
    fn size(&self) -> Result<usize, JournalError>
        ensures size { IfOk result
            (λ size. IsTrue (is_clean self.now) → size ≡ length (text self.now)) }
        ensures blind { IsErrOf result JournalError.Damaged → ⊥ };

    /// Reads `count` bytes at a place, in place of what the block held.
    fn read(&mut self, at: usize, count: usize, block: &mut Vec<u8>) -> Result<(), JournalError>
        ensures bytes { OnOk result
            (IsTrue (is_clean self.new) → block.new.items ≡ take count (drop at (text self.old))) }
        ensures clean { IsTrue (is_clean self.new) → IsTrue (is_clean self.old) }
        ensures rests { rests self.old → rests self.new }
        ensures same { text self.new ≡ text self.old }
        ensures crash { (c : List ℕ) → may_leave self.new c → may_leave self.old c }
        ensures blind { IsErrOf result JournalError.Damaged → ⊥ };

    /// Writes bytes over those at a place, and waits until they are on the disk. It never makes the
    /// file larger.
    fn put(&mut self, at: usize, bytes: &[u8]) -> Result<(), JournalError>
        ensures ok { OnOk result
            (IsTrue (is_clean self.old) → text self.new ≡ written at bytes.now (text self.old)) }
        ensures fits { OnOk result
            (IsTrue (is_clean self.old) → at + length bytes.now ≤ length (text self.old)) }
        ensures durable { OnOk result
            (IsTrue (is_clean self.old) → Only (text self.new) (may_leave self.new)) }
        ensures calm { is_clean self.new ≡ is_clean self.old }
        ensures crash { IsTrue (is_clean self.old) → Only (text self.old) (may_leave self.old)
            → ((c : List ℕ) → may_leave self.new c → may_leave self.old c)
            ⊎ ((at + length bytes.now ≤ length (text self.old))
            × PutCrash (text self.old) at bytes.now (may_leave self.new)) }
        ensures blind { IsErrOf result JournalError.Damaged → ⊥ };

    /// Makes the file larger by zeros, and waits until they are on the disk. Where that is refused
    /// the file is as it was, and more may be asked, unless the disk failed.
    fn grow(&mut self) -> Result<(), JournalError>
        ensures ok { OnOk result
            (IsTrue (is_clean self.old) → (count : ℕ) × (0 < count)
            × (text self.new ≡ text self.old ++ replicate count 0)) }
        ensures refused { IfErr result (λ error. error ≢ JournalError.DiskFailed
            → IsTrue (is_clean self.old) → (text self.new ≡ text self.old)
            × ((c : List ℕ) → may_leave self.new c → may_leave self.old c)) }
        ensures durable { OnOk result
            (IsTrue (is_clean self.old) → Only (text self.new) (may_leave self.new)) }
        ensures calm { is_clean self.new ≡ is_clean self.old }
        ensures crash { IsTrue (is_clean self.old) → Only (text self.old) (may_leave self.old)
            → (c : List ℕ) → may_leave self.new c → Longer (text self.old) c }
        ensures blind { IsErrOf result JournalError.Damaged → ⊥ };

    /// So a crash leaves what a read returns.
    ghost rested: { (log : Self) (c : List ℕ) → rests log → may_leave log c → c ≡ text log };
}
