//! The calls of a disk that a file makes.
ghost use Rattle.std.specs.Prelude.{◌≡◌, ◌≤◌, ◌<◌, ◌+◌, ◌^◌, ℕ, List, length, take, drop, IsTrue, IfOk, IfErr, OnOk, IsErrOf};
ghost use Rattle.sqlite_disk.specs.Disk.{Holds, Torn, Mixed, Follows};
ghost use Rattle.journal.specs.Crashes.{Only, written};

use crate::JournalError;
use sqlite_disk::Disk;
use std::alloc::AllocError;

/// Writes bytes that may stand behind the end of a file, and waits until they are on the disk.
pub fn write_through<D: Disk>(disk: &mut D, at: usize, bytes: &[u8]) -> Result<(), JournalError>
    requires { IsTrue (D.is_usable disk.old) }
    ensures calm { D.is_clean disk.new ≡ D.is_clean disk.old }
    ensures failed { IfErr result (λ error. error ≡ JournalError.DiskFailed) }
    ensures torn { OnOk result (Torn at (length bytes.now) (D.seen disk.old) (D.seen disk.new)) }
    ensures holds { OnOk result (0 < length bytes.now → Holds (D.seen disk.new) at bytes.now) }
    ensures durable { OnOk result (Only (D.seen disk.new) (D.may_leave disk.new)) }
    ensures mixed { IsTrue (D.is_mixing disk.old) → at + length bytes.now < 2 ^ 64
        → Follows (Mixed at bytes.now) (D.may_leave disk.old) (D.may_leave disk.new) }
    ensures crash { Follows (Torn at (length bytes.now)) (D.may_leave disk.old)
        (D.may_leave disk.new) }
{
    match disk.write_at(at, bytes) {
        Err(_) => Err(JournalError::DiskFailed),
        Ok(()) => match disk.sync() {
            Err(_) => Err(JournalError::DiskFailed),
            Ok(()) => Ok(()),
        },
    }
}

/// Writes bytes over those of a file, and waits until they are on the disk.
pub fn put<D: Disk>(disk: &mut D, at: usize, bytes: &[u8]) -> Result<(), JournalError>
    requires { IsTrue (D.is_usable disk.old) }
    ensures calm { D.is_clean disk.new ≡ D.is_clean disk.old }
    ensures failed { IfErr result (λ error. error ≡ JournalError.DiskFailed) }
    ensures ok { OnOk result
        (at + length bytes.now ≤ length (D.seen disk.old)
        → D.seen disk.new ≡ written at bytes.now (D.seen disk.old)) }
    ensures same { OnOk result
        (at + length bytes.now ≤ length (D.seen disk.old)
        → length (D.seen disk.new) ≡ length (D.seen disk.old)) }
    ensures durable { OnOk result (Only (D.seen disk.new) (D.may_leave disk.new)) }
    ensures mixed { IsTrue (D.is_mixing disk.old) → at + length bytes.now < 2 ^ 64
        → Follows (Mixed at bytes.now) (D.may_leave disk.old) (D.may_leave disk.new) }
    ensures crash { Follows (Torn at (length bytes.now)) (D.may_leave disk.old)
        (D.may_leave disk.new) }
{
    write_through(disk, at, bytes)
}

/// Waits until all that was written is on the disk.
pub fn sync<D: Disk>(disk: &mut D) -> Result<(), JournalError>
    requires { IsTrue (D.is_usable disk.old) }
    ensures calm { D.is_clean disk.new ≡ D.is_clean disk.old }
    ensures failed { IfErr result (λ error. error ≡ JournalError.DiskFailed) }
    ensures seen { D.seen disk.new ≡ D.seen disk.old }
    ensures durable { OnOk result (Only (D.seen disk.new) (D.may_leave disk.new)) }
    ensures usable { OnOk result (IsTrue (D.is_usable disk.new)) }
    ensures crash { (c : List ℕ) → D.may_leave disk.new c → D.may_leave disk.old c }
{
    match disk.sync() {
        Ok(()) => Ok(()),
        Err(_) => Err(JournalError::DiskFailed),
    }
}

/// Writes bytes that may stand behind the end of a file. A disk that has no room for them goes on.
pub fn append<D: Disk>(disk: &mut D, at: usize, bytes: &[u8]) -> Result<(), JournalError>
    requires { IsTrue (D.is_usable disk.old) }
    ensures calm { D.is_clean disk.new ≡ D.is_clean disk.old }
    ensures refused { IfErr result (λ error. error ≡ JournalError.CannotGrow) }
    ensures torn { Torn at (length bytes.now) (D.seen disk.old) (D.seen disk.new) }
    ensures holds { OnOk result (0 < length bytes.now → Holds (D.seen disk.new) at bytes.now) }
    ensures usable { IsTrue (D.is_usable disk.new) }
    ensures crash { Follows (Torn at (length bytes.now)) (D.may_leave disk.old)
        (D.may_leave disk.new) }
{
    match disk.write_at(at, bytes) {
        Ok(()) => Ok(()),
        Err(_) => Err(JournalError::CannotGrow),
    }
}

// As many bytes, whatever they are.
fn make_room(block: &mut Vec<u8>, count: usize) -> Result<(), AllocError>
    ensures { OnOk result (length block.new.items ≡ count) }
{
    block.clear();
    block.resize(count, 0)?;
    Ok(())
}

/// How many bytes a disk has.
pub fn size_of<D: Disk>(disk: &mut D) -> Result<usize, JournalError>
    requires { IsTrue (D.is_usable disk.old) }
    ensures size { IfOk result
        (λ size. IsTrue (D.is_clean disk.new) → size ≡ length (D.seen disk.old)) }
    ensures clean { IsTrue (D.is_clean disk.new) → IsTrue (D.is_clean disk.old) }
    ensures seen { D.seen disk.new ≡ D.seen disk.old }
    ensures usable { IsTrue (D.is_usable disk.new) }
    ensures crash { (c : List ℕ) → D.may_leave disk.new c → D.may_leave disk.old c }
    ensures blind { (IsErrOf result JournalError.Damaged → ⊥)
        × (IsErrOf result JournalError.UnknownFormat → ⊥) }
{
    match disk.len() {
        Ok(size) => Ok(size),
        Err(_) => Err(JournalError::DiskFailed),
    }
}

/// Bytes of a disk at a place.
#[tactic(auto, using(crate::proofs::Writing::read_is))]
pub fn read_block<D: Disk>(
    disk: &mut D,
    at: usize,
    count: usize,
    block: &mut Vec<u8>,
) -> Result<(), JournalError>
    requires { IsTrue (D.is_usable disk.old) }
    ensures length { OnOk result (length block.new.items ≡ count) }
    ensures bytes { OnOk result
        (IsTrue (D.is_clean disk.new) → block.new.items ≡ take count (drop at (D.seen disk.old))) }
    ensures clean { IsTrue (D.is_clean disk.new) → IsTrue (D.is_clean disk.old) }
    ensures seen { D.seen disk.new ≡ D.seen disk.old }
    ensures usable { IsTrue (D.is_usable disk.new) }
    ensures crash { (c : List ℕ) → D.may_leave disk.new c → D.may_leave disk.old c }
    ensures blind { (IsErrOf result JournalError.Damaged → ⊥)
        × (IsErrOf result JournalError.UnknownFormat → ⊥) }
{
    make_room(block, count)?;
    match disk.read_at(at, block) {
        Ok(()) => Ok(()),
        Err(_) => Err(JournalError::DiskFailed),
    }
}
