//! How a service ends that can't start, or ends early.

use crate::finding::find;
use crate::heads::Unfit;
use crate::names::Names;
use crate::reading::plain_file::has_bytes;
use crate::telling::{
    fault_of, tell, tell_at, tell_damage, tell_format, tell_found, tell_head, tell_missing,
    tell_no_store, tell_unfit,
};
use journal::{JournalError, Log};
use kept_store::StartError;
use line_loop::RunError;
use meta_types::Fault;
use sqlite_std_file::OpenError;
use std::os::unix::fs::MetadataExt;
use std::process::ExitCode;
use std::{fs, io};

// Whether a file is refused: it is a link or another thing, or has a second name.
fn is_refused(rt: &HostRuntime, path: &str) -> bool {
    match fs::symlink_metadata(rt, path) {
        Ok(data) => !data.is_file() || data.nlink() != 1,
        Err(_) => false,
    }
}

/// How a start ends whose file can't be opened.
pub fn not_opened(rt: &HostRuntime, names: Names<'_>, error: OpenError) -> ExitCode {
    let path = names.first;
    match error {
        OpenError::Busy => {
            let _told = eprintln!(rt; "metad: {path} is in use by another program");
            ExitCode::from(4)
        }
        OpenError::OutOfMemory => tell(rt, Fault::OutOfMemory),
        OpenError::Io(error) if error.kind() == io::ErrorKind::OutOfMemory => {
            tell(rt, Fault::OutOfMemory)
        }
        OpenError::Io(error) if error.kind() == io::ErrorKind::Unsupported => {
            let path = names.of(is_refused(rt, names.second));
            let _told = eprintln!(rt; "metad: {path}: it is no file, a link, or has two names");
            tell(rt, Fault::WriteFailed)
        }
        OpenError::Io(error) => {
            let _told = eprintln!(rt; "metad: {path}: {error}");
            tell(rt, Fault::WriteFailed)
        }
        OpenError::HotJournal => {
            let _told = eprintln!(rt; "metad: {path}-journal is in the way");
            tell(rt, Fault::ReadFailed)
        }
    }
}

/// How a start ends whose first file isn't there: there is no store, or the second file is left of
/// one.
pub fn not_there(rt: &HostRuntime, names: Names<'_>) -> ExitCode {
    if has_bytes(rt, names.second) {
        return tell_missing(rt, names.first);
    }
    tell_no_store(rt, names.folder)
}

/// How a start ends whose file's head can't be read.
pub fn not_read(rt: &HostRuntime, path: &str, error: JournalError) -> ExitCode {
    match error {
        JournalError::UnknownFormat => tell_format(rt, path),
        JournalError::Damaged => tell_head(rt, path),
        error => tell_at(rt, path, fault_of(error)),
    }
}

/// How a start ends whose files don't belong together, or whose file that counts isn't whole.
pub fn not_fit(rt: &HostRuntime, names: Names<'_>, is_second: bool, unfit: Unfit) -> ExitCode {
    match unfit {
        Unfit::NoStore if is_second => tell_missing(rt, names.second),
        Unfit::NoStore => tell_no_store(rt, names.folder),
        unfit => tell_unfit(rt, names.of(is_second), unfit),
    }
}

// Tells what a damaged journal holds.
fn tell_rest<D: Log>(rt: &HostRuntime, path: &str, first: &[u8; 64], log: &mut D) -> ExitCode {
    match find(rt.alloc(), first, log) {
        Ok(found) => {
            tell_found(rt, path, found.lines, &found.sound);
            tell_damage(rt, path, found.sound.end)
        }
        Err(error) => tell_at(rt, path, fault_of(error)),
    }
}

/// How a start ends whose journal gives no store.
pub fn not_started<D: Log>(
    rt: &HostRuntime,
    path: &str,
    first: &[u8; 64],
    log: &mut D,
    error: StartError,
) -> ExitCode {
    match error {
        StartError::OutOfMemory => tell_at(rt, path, Fault::OutOfMemory),
        StartError::DiskFailed => tell_at(rt, path, Fault::ReadFailed),
        StartError::Damaged => tell_rest(rt, path, first, log),
        StartError::UnknownFormat => tell_format(rt, path),
        StartError::Refused => {
            let _told = eprintln!(rt; "metad: {path}: this metad refuses a line that is kept");
            ExitCode::from(3)
        }
    }
}

/// How a run ends early.
pub fn not_ended(rt: &HostRuntime, path: &str, error: RunError) -> ExitCode {
    match error {
        RunError::OutOfMemory => tell(rt, Fault::OutOfMemory),
        RunError::ReadFailed => tell(rt, Fault::ReadFailed),
        RunError::WriteFailed => tell(rt, Fault::WriteFailed),
        RunError::LogFailed => tell_at(rt, path, Fault::WriteFailed),
    }
}
