//! Writes a backup, without the lock, be it that a program writes meanwhile; and checks one.

pub mod text;
mod writing;

use crate::finding::FIRST;
use crate::heads::unfit_by;
use crate::names::Names;
use crate::reading::backing::text::{Backup, BackupError, read_backup};
use crate::reading::backing::writing::{front_of, write_groups};
use crate::reading::scripting::ScriptError;
use crate::reading::{Reading, read, tell_unread};
use crate::telling::{
    fault_of, print_found, print_identity, tell, tell_at, tell_damage, tell_io, tell_renewed,
    tell_unfit,
};
use journal::Note;
use meta_types::Fault;
use std::fs;
use std::io::Write;
use std::os::unix::fs::OpenOptionsExt;
use std::process::ExitCode;

// So often a backup is tried while the file that counts is written anew.
const TRIES: u64 = 4;

/// Tells why a text is no backup.
pub fn tell_no_backup(rt: &HostRuntime, path: &str, error: BackupError) -> ExitCode {
    let text = match error {
        BackupError::OutOfMemory => return tell_at(rt, path, Fault::OutOfMemory),
        BackupError::NoBackup => "its first line isn't that of a backup",
        BackupError::Newer => "a newer metad wrote it, in another format",
        BackupError::Damaged => "damage: it isn't as it was written",
    };
    let _told = eprintln!(rt; "metad: {path}: {text}");
    ExitCode::from(3)
}

// What the file that counts holds, if it is whole.
fn read_whole(rt: &HostRuntime, names: Names<'_>) -> Result<Reading, ExitCode> {
    let reading = match read(rt, names) {
        Ok(reading) => reading,
        Err(unread) => return Err(tell_unread(rt, names, unread)),
    };
    let path = names.of(reading.is_second);
    if reading.found.is_damaged {
        return Err(tell_damage(rt, path, reading.found.sound.end));
    }
    match unfit_by(reading.loss, false) {
        Some(unfit) => Err(tell_unfit(rt, path, unfit)),
        None => Ok(reading),
    }
}

// What the backup in a file holds.
fn read_file(rt: &HostRuntime, path: &str) -> Result<Backup, ExitCode> {
    let text = match fs::read(rt, path) {
        Ok(text) => text,
        Err(error) => return Err(tell_io(rt, path, error, Fault::ReadFailed)),
    };
    match read_backup(rt.alloc(), &text) {
        Ok(backup) => Ok(backup),
        Err(error) => Err(tell_no_backup(rt, path, error)),
    }
}

// Prints what a backup holds.
fn print_backup(rt: &HostRuntime, path: &str, backup: &Backup) -> ExitCode {
    let _told = print_identity(rt, backup.card);
    print_found(rt, path, &backup.found)
}

/// Tells what a backup holds, and whether it is whole.
pub fn check_backup(rt: &HostRuntime, path: &str) -> ExitCode {
    match read_file(rt, path) {
        Ok(backup) => print_backup(rt, path, &backup),
        Err(status) => status,
    }
}

// Makes a file of a name that nothing has, for its owner alone.
fn make_file(rt: &HostRuntime, path: &str) -> Result<fs::File, ExitCode> {
    let made = fs::OpenOptions::new()
        .write(true)
        .create_new(true)
        .mode(0o600)
        .open(rt, path);
    match made {
        Ok(file) => Ok(file),
        Err(error) => Err(tell_io(rt, path, error, Fault::WriteFailed)),
    }
}

// The card of a file that counts, as a backup has it: a file of format 1 has no place for one, so its
// card names the first sum.
fn card_of(reading: &Reading) -> Note {
    let card = reading.ready.card;
    if reading.ready.has_page {
        return card;
    }
    Note {
        end: 0,
        sum: FIRST,
        ..card
    }
}

// How a backup ends that isn't written.
fn tell_unwritten(rt: &HostRuntime, names: Names<'_>, path: &str, error: ScriptError) -> ExitCode {
    match error {
        ScriptError::Journal(error) => tell_at(rt, names.first, fault_of(error)),
        ScriptError::WriteFailed => tell_at(rt, path, Fault::WriteFailed),
        ScriptError::Renewed => tell_renewed(rt, names.first),
    }
}

// Writes a backup into a file that was just made, and waits until it is on the disk.
fn write_all(rt: &HostRuntime, file: fs::File, reading: &mut Reading) -> Result<(), ScriptError> {
    let mut file = file;
    let alloc = rt.alloc();
    let card = card_of(reading);
    let first = reading.ready.first;
    let sound = reading.found.sound;
    let sum = sound.last;
    let last = Note {
        end: sound.end,
        sum,
        ..card
    };
    let front = front_of(alloc, card)?;
    match file.write_all(&front) {
        Ok(()) => {}
        Err(_) => return Err(ScriptError::WriteFailed),
    }
    write_groups(alloc, &first, &mut reading.ready.text, last, &mut file)?;
    match file.sync_all() {
        Ok(()) => Ok(()),
        Err(_) => Err(ScriptError::WriteFailed),
    }
}

// Writes what a reading found into a file, and reads that again. There is none where the file that
// counts was written anew meanwhile.
fn try_once(rt: &HostRuntime, names: Names<'_>, path: &str) -> Result<Option<Backup>, ExitCode> {
    let mut reading = read_whole(rt, names)?;
    let _gone = fs::remove_file(rt, path);
    let file = make_file(rt, path)?;
    match write_all(rt, file, &mut reading) {
        Ok(()) => {}
        Err(ScriptError::Renewed) => return Ok(None),
        Err(error) => return Err(tell_unwritten(rt, names, path, error)),
    }
    let backup = read_file(rt, path)?;
    Ok(Some(backup))
}

// Writes a backup into a file, anew while the file that counts is written anew.
fn try_all(rt: &HostRuntime, names: Names<'_>, path: &str) -> Result<Backup, ExitCode> {
    'trying: for _ in 0..TRIES {
        if let Some(backup) = try_once(rt, names, path)? {
            return Ok(backup);
        }
    }
    Err(tell_renewed(rt, names.first))
}

// The folder of a file.
fn folder_of(path: &str) -> &str {
    match path.rsplit_once('/') {
        Some(("", _)) => "/",
        Some((folder, _)) => folder,
        None => ".",
    }
}

// Gives a file its name, and waits until the name is on the disk.
fn name(rt: &HostRuntime, part: &str, path: &str) -> Result<(), ExitCode> {
    match fs::rename(rt, part, path) {
        Ok(()) => {}
        Err(error) => return Err(tell_io(rt, path, error, Fault::WriteFailed)),
    }
    let folder = folder_of(path);
    let Ok(folder) = fs::open(rt, folder) else {
        return Err(tell_at(rt, path, Fault::WriteFailed));
    };
    match folder.sync_all() {
        Ok(()) => Ok(()),
        Err(error) => Err(tell_io(rt, path, error, Fault::WriteFailed)),
    }
}

// Writes a backup beside the name that it gets once it is whole.
fn write_beside(rt: &HostRuntime, names: Names<'_>, part: &str, path: &str) -> ExitCode {
    let backup = match try_all(rt, names, part) {
        Ok(backup) => backup,
        Err(status) => {
            let _gone = fs::remove_file(rt, part);
            return status;
        }
    };
    match name(rt, part, path) {
        Ok(()) => print_backup(rt, path, &backup),
        Err(status) => status,
    }
}

/// Writes all lines of a store into one file, up to a sum, which is printed. The file is there once
/// it is whole: until then it has another name.
pub fn backup(rt: &HostRuntime, names: Names<'_>, path: &str) -> ExitCode {
    if fs::symlink_metadata(rt, path).is_ok() {
        let _told = eprintln!(rt;
            "metad: {path}: it is there already, and a backup replaces no file"
        );
        return ExitCode::from(1);
    }
    let part = match format!(in rt.alloc(); "{path}.part") {
        Ok(part) => part,
        Err(_) => return tell(rt, Fault::OutOfMemory),
    };
    write_beside(rt, names, part.as_str(), path)
}
