//! Makes a file larger: first the zeros, then the marks by which they are believed.
ghost use Rattle.std.specs.Prelude.{◌≡◌, ◌⊎◌, ◌≤◌, ◌<◌, ◌+◌, ◌-◌, ◌*◌, ℕ, List, length, take, drop, replicate, IsTrue, IfErr, OnOk, IsErrOf};
ghost use Rattle.sqlite_disk.specs.Disk.{Holds, Torn, Follows};
ghost use Rattle.journal.specs.Crashes.{Only};
ghost use Rattle.journal.specs.Head.{believed, IsHeaded};

use crate::JournalError;
use crate::journal_file::head::{PIECE, make_zeros};
use crate::journal_file::steps::{append, put, sync};
use sqlite_disk::Disk;
use std::alloc::Global;

// Writes so many zeros, which may stand behind the end of a file.
fn append_piece<D: Disk>(
    alloc: Global,
    disk: &mut D,
    at: usize,
    count: usize,
) -> Result<(), JournalError>
    requires { IsTrue (D.is_usable disk.old) }
    ensures torn { Torn at count (D.seen disk.old) (D.seen disk.new) }
    ensures holds { OnOk result (0 < count → Holds (D.seen disk.new) at (replicate count 0)) }
    ensures calm { D.is_clean disk.new ≡ D.is_clean disk.old }
    ensures crash { Follows (Torn at count) (D.may_leave disk.old) (D.may_leave disk.new) }
    ensures usable { IsTrue (D.is_usable disk.new) }
    ensures blind { IsErrOf result JournalError.Damaged → ⊥ }
{
    let zeros = make_zeros(alloc, count)?;
    append(disk, at, &zeros)?;
    Ok(())
}

// Writes zeros from one place to another, piece by piece: so a file grows in little memory.
fn append_zeros<D: Disk>(
    alloc: Global,
    disk: &mut D,
    from: usize,
    till: usize,
) -> Result<(), JournalError>
    requires { IsTrue (D.is_usable disk.old) }
    ensures torn { Torn from (till - from) (D.seen disk.old) (D.seen disk.new) }
    ensures holds { OnOk result
        (from < till → Holds (D.seen disk.new) from (replicate (till - from) 0)) }
    ensures calm { D.is_clean disk.new ≡ D.is_clean disk.old }
    ensures crash { Follows (Torn from (till - from)) (D.may_leave disk.old)
        (D.may_leave disk.new) }
    ensures usable { IsTrue (D.is_usable disk.new) }
    ensures blind { IsErrOf result JournalError.Damaged → ⊥ }
{
    let mut at = from;
    'appending: while at < till {
        let count = (till - at).min(PIECE);
        append_piece(alloc, disk, at, count)?;
        at += count;
    }
    Ok(())
}

/// Writes zeros behind what is believed, up to a place, and waits until they are on the disk.
pub fn add_zeros<D: Disk>(
    alloc: Global,
    disk: &mut D,
    from: usize,
    till: usize,
) -> Result<(), JournalError>
    requires { IsTrue (D.is_usable disk.old) }
    ensures torn { Torn from (till - from) (D.seen disk.old) (D.seen disk.new) }
    ensures holds { OnOk result
        (from < till → Holds (D.seen disk.new) from (replicate (till - from) 0)) }
    ensures durable { OnOk result (Only (D.seen disk.new) (D.may_leave disk.new)) }
    ensures calm { D.is_clean disk.new ≡ D.is_clean disk.old }
    ensures crash { (c : List ℕ) → D.may_leave disk.new c
        → (D.may_leave disk.old c) ⊎ Torn from (till - from) (D.seen disk.old) c }
    ensures usable { OnOk result (IsTrue (D.is_usable disk.new)) }
    ensures blind { IsErrOf result JournalError.Damaged → ⊥ }
{
    sync(disk)?;
    append_zeros(alloc, disk, from, till)?;
    sync(disk)?;
    Ok(())
}

// Where the next pair of marks stands.
fn mark_of(steps: usize) -> usize
    requires { steps < 2037 }
    ensures { result ≡ 17 + 2 * steps }
{
    17 + 2 * steps
}

/// Marks one step more as believed, and waits until the marks are on the disk.
pub fn put_marks<D: Disk>(disk: &mut D, steps: usize) -> Result<(), JournalError>
    requires usable { IsTrue (D.is_usable disk.old) }
    requires bound { steps < 2037 }
    ensures ok { OnOk result (IsHeaded (D.seen disk.old) steps
        → 4096 + 1048576 * (steps + 1) ≤ length (D.seen disk.old)
        → IsHeaded (D.seen disk.new) (steps + 1)
        × (drop 4096 (D.seen disk.new) ≡ drop 4096 (D.seen disk.old))) }
    ensures durable { OnOk result (Only (D.seen disk.new) (D.may_leave disk.new)) }
    ensures calm { D.is_clean disk.new ≡ D.is_clean disk.old }
    ensures crash { IsHeaded (D.seen disk.old) steps
        → 4096 + 1048576 * (steps + 1) ≤ length (D.seen disk.old)
        → Only (D.seen disk.old) (D.may_leave disk.old) → (c : List ℕ) → D.may_leave disk.new c
        → (believed c ≡ believed (D.seen disk.old))
        ⊎ (believed c ≡ take (1048576 * (steps + 1)) (drop 4096 (D.seen disk.old))) }
    ensures torn { Follows (Torn (17 + 2 * steps) 2) (D.may_leave disk.old)
        (D.may_leave disk.new) }
    ensures failed { IfErr result (λ error. error ≡ JournalError.DiskFailed) }
{
    put(disk, mark_of(steps), b"++")
}
