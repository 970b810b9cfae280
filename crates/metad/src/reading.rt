//! Reads the file that counts, without its lock, be it that a program writes meanwhile.

pub mod backing;
mod looking;
pub mod plain_file;
pub mod scripting;

use crate::finding::{Finding, find};
use crate::heads::{Loss, NoHeads, Ready, Unfit, loss_of, make_ready, read_head, unfit_by};
use crate::names::{Names, is_missing, second_place};
use crate::reading::looking::look;
use crate::reading::plain_file::{PlainError, PlainFile, has_bytes};
use crate::reading::scripting::{Extent, ScriptError, write_script};
use crate::telling::{
    fault_of, print_found, print_identity, tell, tell_at, tell_damage, tell_format, tell_head,
    tell_missing, tell_no_store, tell_renewed, tell_unfit, tell_unread_head,
};
use journal::JournalError;
use meta_types::Fault;
use std::io;
use std::process::ExitCode;

// Why a file can't be read.
#[derive(Clone, Copy)]
enum Cause {
    Plain(PlainError),
    Journal(JournalError),
    Unfit(Unfit),
}

// Why a file can't be read, and which one it is.
#[derive(Clone, Copy)]
struct Unread {
    is_second: bool,
    cause: Cause,
}

// The file that counts.
#[derive(Drop)]
struct Counting {
    file: PlainFile,
    is_second: bool,
}

/// The file that counts, and what it holds.
#[derive(Drop)]
pub struct Reading {
    pub ready: Ready<PlainFile>,
    pub is_second: bool,
    pub found: Finding,
    pub loss: Loss,
}

// How a program ends whose file can't be read.
fn tell_unread(rt: &HostRuntime, names: Names<'_>, unread: Unread) -> ExitCode {
    let path = names.of(unread.is_second);
    match unread.cause {
        Cause::Plain(PlainError::OutOfMemory) => tell_at(rt, path, Fault::OutOfMemory),
        Cause::Plain(PlainError::ReadFailed) => tell_at(rt, path, Fault::ReadFailed),
        Cause::Plain(PlainError::UnknownFormat) => tell_format(rt, path),
        Cause::Plain(PlainError::Damaged) => tell_head(rt, path),
        Cause::Plain(PlainError::Missing) => tell_missing(rt, path),
        Cause::Plain(PlainError::NoHead) => tell_no_store(rt, names.folder),
        Cause::Journal(error) => tell_at(rt, path, fault_of(error)),
        Cause::Unfit(Unfit::NoStore) if unread.is_second => tell_missing(rt, path),
        Cause::Unfit(Unfit::NoStore) => tell_no_store(rt, names.folder),
        Cause::Unfit(unfit) => tell_unfit(rt, path, unfit),
    }
}

// Opens one of the two files.
fn open(rt: &HostRuntime, path: &str, is_second: bool) -> Result<Counting, Unread> {
    match PlainFile::open(rt, path) {
        Ok(file) => Ok(Counting { file, is_second }),
        Err(error) => Err(Unread {
            is_second,
            cause: Cause::Plain(error),
        }),
    }
}

// A file that is missing beside the other one.
fn missing(is_second: bool) -> Unread {
    Unread {
        is_second,
        cause: Cause::Plain(PlainError::Missing),
    }
}

// A folder without a store.
fn no_store() -> Unread {
    Unread {
        is_second: false,
        cause: Cause::Plain(PlainError::NoHead),
    }
}

// Whether no head was ever whole in a file.
fn is_headless(unread: Unread) -> bool {
    match unread.cause {
        Cause::Plain(error) => error == PlainError::NoHead,
        Cause::Journal(_) | Cause::Unfit(_) => false,
    }
}

// The file that counts.
fn open_counting(rt: &HostRuntime, names: Names<'_>) -> Result<Counting, Unread> {
    let Ok(second) = second_place(rt, names.first) else {
        return Err(Unread {
            is_second: true,
            cause: Cause::Plain(PlainError::OutOfMemory),
        });
    };
    let has_second = has_bytes(rt, second.as_str());
    let has_first = has_bytes(rt, names.first);
    if has_second && !has_first {
        return Err(missing(false));
    }
    if is_missing(rt, names.folder, names.first) {
        return Err(no_store());
    }
    let first = match open(rt, names.first, false) {
        Err(unread) if has_second && is_headless(unread) => return Err(missing(false)),
        opened => opened?,
    };
    if !first.file.names_other {
        return Ok(first);
    }
    if !has_second {
        return Err(missing(true));
    }
    match open(rt, second.as_str(), true) {
        Err(unread) if is_headless(unread) => Err(missing(true)),
        opened => opened,
    }
}

// Whether it is a second file of format 1 in which no line stands: a checkpoint has one at least.
fn is_blank(is_second: bool, has_page: bool, found: &Finding) -> bool {
    is_second && !has_page && found.sound.end == 0 && !found.is_damaged
}

// Why a file can't be read, by its heads.
fn unread_of(is_second: bool, no: NoHeads) -> Unread {
    let cause = match no {
        NoHeads::Journal(error) => Cause::Journal(error),
        NoHeads::Unfit(unfit) => Cause::Unfit(unfit),
    };
    Unread { is_second, cause }
}

// The file that counts as a text, where the other one belongs to it.
fn ready_of(
    rt: &HostRuntime,
    names: Names<'_>,
    counting: Counting,
) -> Result<Ready<PlainFile>, NoHeads> {
    let path = names.of(!counting.is_second);
    let other = look(rt, path)?;
    if other.is_unread {
        tell_unread_head(rt, path);
    }
    let has_page = counting.file.has_page;
    let head = read_head(rt.alloc(), counting.file, has_page)?;
    make_ready(rt.alloc(), rt, head, other)
}

// What a text holds, and what it lacks.
fn read_text(
    rt: &HostRuntime,
    ready: &mut Ready<PlainFile>,
) -> Result<(Finding, Loss), JournalError> {
    let first = ready.first;
    let found = find(rt.alloc(), &first, &mut ready.text)?;
    let loss = loss_of(rt.alloc(), ready)?;
    Ok((found, loss))
}

// What the file that counts holds.
fn read_once(rt: &HostRuntime, names: Names<'_>) -> Result<Reading, Unread> {
    let counting = open_counting(rt, names)?;
    let is_second = counting.is_second;
    let mut ready = match ready_of(rt, names, counting) {
        Ok(ready) => ready,
        Err(no) => return Err(unread_of(is_second, no)),
    };
    match read_text(rt, &mut ready) {
        Ok((found, _)) if is_blank(is_second, ready.has_page, &found) => Err(missing(true)),
        Ok((found, loss)) => Ok(Reading {
            ready,
            is_second,
            found,
            loss,
        }),
        Err(error) => Err(Unread {
            is_second,
            cause: Cause::Journal(error),
        }),
    }
}

// What the file that counts holds. A program may write meanwhile: then its heads and its lines are
// of two moments. So they are read twice before they are told so.
fn read_twice(rt: &HostRuntime, names: Names<'_>) -> Result<Reading, Unread> {
    match read_once(rt, names) {
        Ok(reading) => {
            if reading.loss == Loss::Nothing {
                return Ok(reading);
            }
        }
        Err(unread) => match unread.cause {
            Cause::Unfit(_) => {}
            Cause::Plain(_) | Cause::Journal(_) => return Err(unread),
        },
    }
    read_once(rt, names)
}

// What the file that counts holds. Where another one counts by then, that is read.
fn read(rt: &HostRuntime, names: Names<'_>) -> Result<Reading, Unread> {
    let mut reading = read_twice(rt, names)?;
    // For the prover: after fewer readings the file that was read still counts.
    'again: for _ in 0..u64::MAX {
        let now = open_counting(rt, names)?;
        if now.is_second == reading.is_second {
            break;
        }
        reading = read_twice(rt, names)?;
    }
    Ok(reading)
}

/// Tells what the journal holds.
pub fn check(rt: &HostRuntime, names: Names<'_>) -> ExitCode {
    match read(rt, names) {
        Ok(reading) => tell_reading(rt, names, &reading),
        Err(error) => tell_unread(rt, names, error),
    }
}

// How a word ends that has read a file: with this status, unless the file lacks something.
fn end_of(rt: &HostRuntime, path: &str, loss: Loss, status: ExitCode) -> ExitCode {
    match unfit_by(loss, false) {
        Some(unfit) => tell_unfit(rt, path, unfit),
        None => status,
    }
}

// Tells what a file holds, and whether it has all that was witnessed of it.
fn tell_reading(rt: &HostRuntime, names: Names<'_>, reading: &Reading) -> ExitCode {
    let path = names.of(reading.is_second);
    if reading.ready.has_page {
        let _told = print_identity(rt, reading.ready.card);
    }
    let status = print_found(rt, path, &reading.found);
    end_of(rt, path, reading.loss, status)
}

// Writes the lines of a file up to the place that was found.
fn write_lines(
    rt: &HostRuntime,
    path: &str,
    ready: &mut Ready<PlainFile>,
    found: &Finding,
) -> ExitCode {
    let Ok(mut writer) = io::BufWriter::new(rt.alloc(), io::writer(rt)) else {
        return tell(rt, Fault::OutOfMemory);
    };
    let first = ready.first;
    let sound = found.sound;
    let extent = Extent {
        first,
        checkpoint: ready.card.end,
        sound,
    };
    match write_script(rt.alloc(), &extent, &mut ready.text, &mut writer) {
        Ok(()) => ExitCode::SUCCESS,
        Err(ScriptError::Journal(error)) => tell_at(rt, path, fault_of(error)),
        Err(ScriptError::WriteFailed) => tell(rt, Fault::WriteFailed),
        Err(ScriptError::Renewed) => tell_renewed(rt, path),
    }
}

/// Writes the lines of the journal, up to damage, and says if it has less than it had.
pub fn script(rt: &HostRuntime, names: Names<'_>) -> ExitCode {
    let mut reading = match read(rt, names) {
        Ok(reading) => reading,
        Err(error) => return tell_unread(rt, names, error),
    };
    let path = names.of(reading.is_second);
    let status = write_lines(rt, path, &mut reading.ready, &reading.found);
    if reading.found.is_damaged {
        return tell_damage(rt, path, reading.found.sound.end);
    }
    end_of(rt, path, reading.loss, status)
}
