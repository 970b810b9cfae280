//! Looks at the file that doesn't count, without its lock.

use crate::heads::{Other, unknown};
use crate::reading::plain_file::{PlainError, PlainFile, has_bytes};
use journal::{JournalError, hides_note, read_page};

// A file that doesn't count, whose head can't be read.
fn unread() -> Other {
    Other {
        is_unread: true,
        ..unknown()
    }
}

/// What is known of the file that doesn't count. Only memory may be refused.
pub fn look(rt: &HostRuntime, path: &str) -> Result<Other, JournalError> {
    if !has_bytes(rt, path) {
        return Ok(unknown());
    }
    let mut file = match PlainFile::open(rt, path) {
        Ok(file) => file,
        Err(PlainError::OutOfMemory) => return Err(JournalError::OutOfMemory),
        Err(PlainError::NoHead) => return Ok(unknown()),
        Err(_) => return Ok(unread()),
    };
    let is_old = !file.has_page;
    if is_old {
        return match hides_note(rt.alloc(), &mut file) {
            Ok(false) => Ok(Other {
                is_old,
                ..unknown()
            }),
            Err(JournalError::OutOfMemory) => Err(JournalError::OutOfMemory),
            Ok(true) | Err(_) => Ok(unread()),
        };
    }
    match read_page(rt.alloc(), &mut file) {
        Ok(notes) => Ok(Other { notes, ..unknown() }),
        Err(JournalError::OutOfMemory) => Err(JournalError::OutOfMemory),
        Err(_) => Ok(unread()),
    }
}
