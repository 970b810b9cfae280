//! The calls of a disk that a file with a head makes.
ghost use Rattle.std.specs.Prelude.{◌≡◌, ◌≤◌, ◌<◌, ◌+◌, ◌^◌, ℕ, List, length, take, drop, IsTrue, IfOk, IfErr, OnOk, IsErrOf};
ghost use Rattle.sqlite_disk.specs.Disk.{Holds, Torn, Mixed, Follows};
ghost use Rattle.journal.specs.Crashes.{Only};

use journal::{HEAD, JournalError};
use sqlite_disk::Disk;

/// Where a place of what is believed stands in the file.
pub fn place_of(at: usize) -> Result<usize, JournalError>
    ensures ok { IfOk result (λ place. place ≡ 4096 + at) }
    ensures failed { IfErr result (λ error. error ≡ JournalError.DiskFailed) }
{
    match HEAD.checked_add(at) {
        Some(place) => Ok(place),
        None => Err(JournalError::DiskFailed),
    }
}

/// Bytes of a disk at a place, in place of what the block held.
pub fn read_bytes<D: Disk>(
    disk: &mut D,
    at: usize,
    count: usize,
    block: &mut Vec<u8>,
) -> Result<(), JournalError>
    ensures bytes { OnOk result
        (IsTrue (D.is_clean disk.new) → block.new.items ≡ take count (drop at (D.seen disk.old))) }
    ensures clean { IsTrue (D.is_clean disk.new) → IsTrue (D.is_clean disk.old) }
    ensures seen { D.seen disk.new ≡ D.seen disk.old }
    ensures crash { (c : List ℕ) → D.may_leave disk.new c → D.may_leave disk.old c }
    ensures blind { IsErrOf result JournalError.Damaged → ⊥ }
{
    if !disk.may_be_used() {
        return Err(JournalError::DiskFailed);
    }
    block.clear();
    block.resize(count, 0)?;
    match disk.read_at(at, block) {
        Ok(()) => {}
        Err(_) => return Err(JournalError::DiskFailed),
    }
    Ok(())
}

/// Writes bytes, and waits until they are on the disk.
pub fn put_bytes<D: Disk>(disk: &mut D, at: usize, bytes: &[u8]) -> Result<(), JournalError>
    requires { IsTrue (D.is_usable disk.old) }
    ensures calm { D.is_clean disk.new ≡ D.is_clean disk.old }
    ensures failed { IfErr result (λ error. error ≡ JournalError.DiskFailed) }
    ensures torn { OnOk result (Torn at (length bytes.now) (D.seen disk.old) (D.seen disk.new)) }
    ensures holds { OnOk result (0 < length bytes.now → Holds (D.seen disk.new) at bytes.now) }
    ensures durable { OnOk result (Only (D.seen disk.new) (D.may_leave disk.new)) }
    ensures mixed { IsTrue (D.is_mixing disk.old) → at + length bytes.now < 2 ^ 64
        → Follows (Mixed at bytes.now) (D.may_leave disk.old) (D.may_leave disk.new) }
    ensures crash { Follows (Torn at (length bytes.now)) (D.may_leave disk.old)
        (D.may_leave disk.new) }
{
    match disk.write_at(at, bytes) {
        Err(_) => Err(JournalError::DiskFailed),
        Ok(()) => match disk.sync() {
            Err(_) => Err(JournalError::DiskFailed),
            Ok(()) => Ok(()),
        },
    }
}
