//! A file that counts, with all of its bytes.
ghost use Rattle.std.specs.Prelude.{◌≡◌, List, ℕ, IsTrue, false};
ghost use Rattle.journal.specs.Head.{believed};
ghost use Rattle.journal.specs.Selector.{HasSelector};

use journal::{Active, JournalFile, Log, Selector};
use sqlite_disk::Disk;

/// A file that was opened as the one that counts. Its text is what is believed of its bytes.
pub trait Counting: Log {
    type Device: Disk;

    /// All its bytes, as a crash may leave them.
    ghost leaves: { Self → List ℕ → Type 0 };

    /// The disk of the file.
    fn into_disk(self) -> Self::Device
        ensures leaves { (bytes : List ℕ) → Self.Device.may_leave result bytes
            → leaves self bytes }
        ensures clean { IsTrue (Self.Device.is_clean result) → IsTrue (Self.Log.is_clean self) };

    ghost believes: { (file : Self) (bytes : List ℕ) → leaves file bytes
        → Self.Log.may_leave file (believed bytes) };

    /// A process that dies leaves what a read returns.
    ghost stays: { (file : Self) → Self.Log.may_leave file (Self.Log.text file) };

    /// So the other file doesn't count, if this is the first one.
    ghost selects: { (file : Self) → IsTrue (Self.Log.is_clean file) → (bytes : List ℕ)
        → leaves file bytes → HasSelector false bytes };
}

impl<D: Disk + Drop> Counting for JournalFile<D, Active> {
    ghost use Rattle.std.specs.Prelude.{refl};

    type Device = D;

    ghost leaves = { λ f. D.Disk.may_leave f.disk };

    fn into_disk(self) -> D {
        JournalFile::into_disk(self)
    }

    ghost believes = { λ f bytes left. (bytes, left, refl) };

    ghost stays = { λ f. (D.Disk.seen f.disk, D.Disk.seen_may_stay f.disk, refl) };

    ghost selects = { λ f clean bytes left. f.selected clean bytes left };
}
