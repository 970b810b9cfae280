//! Reads the first bytes of a file.
ghost use Rattle.std.specs.Prelude.{◌≡◌, ◌≤◌, List, ℕ, length, take, IsTrue, IfOk, IfErr, OnOk};
ghost use Rattle.journal.specs.Crashes.{Only};
ghost use Rattle.journal.specs.Head.{IsHeaded};
ghost use Rattle.store_folder.specs.Openings.{IsPassing};

use crate::opening::error::OpenError;
use journal::{HEAD, read_head};
use sqlite_disk::Disk;
use std::alloc::Global;

/// The first bytes of a file, and how many it has.
#[derive(Drop)]
pub struct Front {
    pub bytes: Vec<u8>,
    pub size: usize,
}

/// The first bytes of a file, this number of them, or all.
pub fn read_front<D: Disk>(alloc: Global, disk: &mut D, most: usize) -> Result<Front, OpenError>
    ensures bytes { IfOk result (λ front. IsTrue (D.is_clean disk.new)
        → front.bytes.items ≡ take most (D.seen disk.old)) }
    ensures size { IfOk result (λ front. IsTrue (D.is_clean disk.new)
        → front.size ≡ length (D.seen disk.old)) }
    ensures within { IfOk result (λ front. length front.bytes.items ≤ most) }
    ensures passing { IfErr result IsPassing }
    ensures clean { IsTrue (D.is_clean disk.new) → IsTrue (D.is_clean disk.old) }
    ensures seen { D.seen disk.new ≡ D.seen disk.old }
    ensures crash { (c : List ℕ) → D.may_leave disk.new c → D.may_leave disk.old c }
{
    if !disk.may_be_used() {
        return Err(OpenError::DiskFailed);
    }
    let Ok(size) = disk.len() else {
        return Err(OpenError::DiskFailed);
    };
    let count = size.min(most);
    let mut bytes = vec![in alloc; 0u8; count]?;
    match disk.read_at(0, &mut bytes) {
        Ok(()) => {}
        Err(_) => return Err(OpenError::DiskFailed),
    }
    Ok(Front { bytes, size })
}

/// How many steps of a file are believed whose head can be read.
pub fn read_steps<D: Disk>(alloc: Global, disk: &mut D) -> Result<usize, OpenError>
    ensures headed { IfOk result
        (λ steps. IsTrue (D.is_clean disk.new) → IsHeaded (D.seen disk.old) steps) }
    ensures bound { IfOk result (λ steps. steps ≤ 2037) }
    ensures passing { IfErr result IsPassing }
    ensures clean { IsTrue (D.is_clean disk.new) → IsTrue (D.is_clean disk.old) }
    ensures seen { D.seen disk.new ≡ D.seen disk.old }
    ensures crash { (c : List ℕ) → D.may_leave disk.new c → D.may_leave disk.old c }
{
    let front = read_front(alloc, disk, HEAD)?;
    let Ok(found) = read_head(&front.bytes, front.size) else {
        return Err(OpenError::DiskFailed);
    };
    let Some(steps) = found else {
        return Err(OpenError::DiskFailed);
    };
    Ok(steps)
}

/// Waits until all that was written of a file is on the disk.
pub fn sync<D: Disk>(disk: &mut D) -> Result<(), OpenError>
    ensures durable { OnOk result (Only (D.seen disk.new) (D.may_leave disk.new)) }
    ensures passing { IfErr result IsPassing }
    ensures clean { IsTrue (D.is_clean disk.new) → IsTrue (D.is_clean disk.old) }
    ensures seen { D.seen disk.new ≡ D.seen disk.old }
    ensures crash { (c : List ℕ) → D.may_leave disk.new c → D.may_leave disk.old c }
{
    if !disk.may_be_used() {
        return Err(OpenError::DiskFailed);
    }
    match disk.sync() {
        Ok(()) => {}
        Err(_) => return Err(OpenError::DiskFailed),
    }
    Ok(())
}
