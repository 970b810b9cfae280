//! Looks at the file of a store that doesn't count.

use journal::{
    Active, JournalError, JournalFile, Log, Notes, Selector, Standby, has_head, read_page,
    reads_page,
};
use sqlite_disk::Disk;
use std::alloc::Global;

/// What is known of the other file.
#[derive(Clone, Copy)]
pub struct Other {
    pub notes: Notes,
    /// It has a head, of format 1.
    pub is_old: bool,
    /// Its head can't be read.
    pub is_unread: bool,
}

// Nothing is known of a file.
const UNKNOWN: Other = Other {
    notes: Notes {
        card: None,
        witness: None,
    },
    is_old: false,
    is_unread: false,
};

/// Nothing is known of a file.
pub fn unknown() -> Other {
    UNKNOWN
}

// The notes of a file, and its disk.
fn notes_in<D: Disk + Drop, C: Selector>(
    alloc: Global,
    disk: D,
) -> (D, Result<Notes, JournalError>) {
    let mut log = match JournalFile::<D, C>::open(alloc, disk) {
        Ok(log) => log,
        Err(not) => return (not.disk, Err(not.error)),
    };
    let notes = read_page(alloc, &mut log);
    (log.into_disk(), notes)
}

/// Whether a file has a head, and a page.
pub fn has_page<D: Disk>(alloc: Global, disk: &mut D) -> Result<(bool, bool), JournalError> {
    if !has_head(alloc, disk)? {
        return Ok((false, false));
    }
    let has_page = reads_page(disk)?;
    Ok((true, has_page))
}

// What is known of a file that can't be read: nothing, unless memory was refused.
fn unread_by(error: JournalError) -> Result<Other, JournalError> {
    match error {
        JournalError::OutOfMemory => Err(error),
        _ => Ok(Other {
            is_unread: true,
            ..UNKNOWN
        }),
    }
}

// What is known of a file that doesn't count, and its disk. It isn't changed.
fn look_at<D: Disk + Drop, C: Selector>(
    alloc: Global,
    disk: D,
) -> (D, Result<Other, JournalError>) {
    let mut disk = disk;
    match has_page(alloc, &mut disk) {
        Ok((true, true)) => {
            let (disk, read) = notes_in::<D, C>(alloc, disk);
            match read {
                Ok(notes) => (disk, Ok(Other { notes, ..UNKNOWN })),
                Err(error) => (disk, unread_by(error)),
            }
        }
        Ok((is_old, _)) => (disk, Ok(Other { is_old, ..UNKNOWN })),
        Err(error) => (disk, unread_by(error)),
    }
}

/// What is known of the file that doesn't count, and its disk. It isn't changed. Only memory may be
/// refused.
pub fn look<D: Disk + Drop>(
    alloc: Global,
    is_second: bool,
    disk: D,
) -> (D, Result<Other, JournalError>) {
    if is_second {
        return look_at::<D, Active>(alloc, disk);
    }
    look_at::<D, Standby>(alloc, disk)
}
