//! Finds which of a store's two files counts, and whether there is a store.

use journal::{JournalError, has_head, selects};
use sqlite_disk::Disk;
use std::alloc::Global;

// Whether a file has any bytes.
fn has_bytes<D: Disk>(disk: &mut D) -> Result<bool, JournalError> {
    if !disk.may_be_used() {
        return Err(JournalError::DiskFailed);
    }
    match disk.len() {
        Ok(count) => Ok(count > 0),
        Err(_) => Err(JournalError::DiskFailed),
    }
}

// Whether a file may have a head: one that can't be read is told where it is opened.
fn may_count<D: Disk>(alloc: Global, disk: &mut D) -> bool {
    match has_head(alloc, disk) {
        Ok(has_head) => has_head,
        Err(_) => true,
    }
}

/// What two files hold.
#[derive(Clone, Copy)]
pub enum Selection {
    /// A store, of which this file counts.
    Store { is_second: bool },
    /// A part of a store: this file is missing, or empty.
    Missing { is_second: bool },
    /// No store.
    Nothing,
}

/// Finds what two files hold. Neither is changed.
pub fn select_file<D: Disk>(
    alloc: Global,
    first: &mut D,
    second: &mut D,
) -> Result<Selection, JournalError> {
    let has_second = has_bytes(second)?;
    if !has_head(alloc, first)? {
        if has_second {
            return Ok(Selection::Missing { is_second: false });
        }
        return Ok(Selection::Nothing);
    }
    let is_second = selects(first)?;
    if is_second && !(has_second && may_count(alloc, second)) {
        return Ok(Selection::Missing { is_second });
    }
    Ok(Selection::Store { is_second })
}
