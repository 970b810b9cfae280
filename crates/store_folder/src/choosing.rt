//! Finds which of a store's two files counts, and whether there is a store.
ghost use Rattle.std.specs.Prelude.{◌≡◌, ◌<◌, List, ℕ, length, true, false, IsTrue, IfOk, IfErr};
ghost use Rattle.journal.specs.Head.{is_blank};
ghost use Rattle.store_folder.specs.Choices.{IsChoice};
ghost use Rattle.store_folder.specs.Openings.{IsReadable};

use journal::{JournalError, has_head, selects};
use sqlite_disk::Disk;
use std::alloc::Global;

// Whether a file has any bytes.
fn has_bytes<D: Disk>(disk: &mut D) -> Result<bool, JournalError>
    ensures some { IfOk result (λ has. IsTrue (D.is_clean disk.new) → has ≡ true
        → 0 < length (D.seen disk.old)) }
    ensures none { IfOk result (λ has. IsTrue (D.is_clean disk.new) → has ≡ false
        → length (D.seen disk.old) ≡ 0) }
    ensures failed { IfErr result (λ error. error ≡ JournalError.DiskFailed) }
    ensures clean { IsTrue (D.is_clean disk.new) → IsTrue (D.is_clean disk.old) }
    ensures seen { D.seen disk.new ≡ D.seen disk.old }
    ensures crash { (c : List ℕ) → D.may_leave disk.new c → D.may_leave disk.old c }
{
    if !disk.may_be_used() {
        return Err(JournalError::DiskFailed);
    }
    match disk.len() {
        Ok(count) => Ok(count > 0),
        Err(_) => Err(JournalError::DiskFailed),
    }
}

// Whether a file may have a head: one that can't be read is told where it is opened.
fn may_count<D: Disk>(alloc: Global, disk: &mut D) -> bool
    ensures blank { result ≡ false → IsTrue (D.is_clean disk.new)
        → is_blank (D.seen disk.old) ≡ true }
    ensures clean { IsTrue (D.is_clean disk.new) → IsTrue (D.is_clean disk.old) }
    ensures seen { D.seen disk.new ≡ D.seen disk.old }
    ensures crash { (c : List ℕ) → D.may_leave disk.new c → D.may_leave disk.old c }
{
    match has_head(alloc, disk) {
        Ok(has_head) => has_head,
        Err(_) => true,
    }
}

/// What two files hold.
#[derive(Clone, Copy)]
pub enum Selection {
    /// A store, of which this file counts.
    Store { is_second: bool },
    /// A part of a store: this file is missing, or empty.
    Missing { is_second: bool },
    /// No store.
    Nothing,
}

/// Finds what two files hold. Neither is changed.
pub fn select_file<D: Disk>(
    alloc: Global,
    first: &mut D,
    second: &mut D,
) -> Result<Selection, JournalError>
    ensures choice { IfOk result (λ found. IsTrue (D.is_clean first.new)
        → IsTrue (D.is_clean second.new) → IsChoice (D.seen first.old) (D.seen second.old) found) }
    ensures failed { IfErr result (λ error. IsTrue (D.is_clean first.new)
        → IsReadable (D.seen first.old) → (error ≡ JournalError.Damaged → ⊥)
        × (error ≡ JournalError.UnknownFormat → ⊥)) }
    ensures clean { (IsTrue (D.is_clean first.new) → IsTrue (D.is_clean first.old))
        × (IsTrue (D.is_clean second.new) → IsTrue (D.is_clean second.old)) }
    ensures seen { (D.seen first.new ≡ D.seen first.old)
        × (D.seen second.new ≡ D.seen second.old) }
    ensures crash { (c : List ℕ) → (D.may_leave first.new c → D.may_leave first.old c)
        × (D.may_leave second.new c → D.may_leave second.old c) }
{
    let has_second = match has_bytes(second) {
        Ok(has_second) => has_second,
        Err(_) => return Err(JournalError::DiskFailed),
    };
    let has_first = match has_head(alloc, first) {
        Ok(has_first) => has_first,
        Err(error) => return Err(error),
    };
    if !has_first {
        if has_second {
            return Ok(Selection::Missing { is_second: false });
        }
        return Ok(Selection::Nothing);
    }
    let is_second = match selects(first) {
        Ok(is_second) => is_second,
        Err(_) => return Err(JournalError::DiskFailed),
    };
    if !is_second {
        return Ok(Selection::Store { is_second: false });
    }
    if !has_second {
        return Ok(Selection::Missing { is_second: true });
    }
    let may_count = may_count(alloc, second);
    if !may_count {
        return Ok(Selection::Missing { is_second: true });
    }
    Ok(Selection::Store { is_second: true })
}
