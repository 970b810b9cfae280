//! What the program tells beside its replies.

use crate::finding::Finding;
use crate::heads::Unfit;
use crate::renewing::Why;
use journal::{JournalError, Note, Sound};
use kept_store::CheckpointError;
use meta_types::Fault;
use std::os::unix::fs::FileExt;
use std::process::ExitCode;
use std::str::from_utf8;
use std::{fs, io};

/// What a journal's error is among the faults.
pub fn fault_of(error: JournalError) -> Fault {
    match error {
        JournalError::OutOfMemory => Fault::OutOfMemory,
        _ => Fault::ReadFailed,
    }
}

/// Tells the fault that ended the program.
pub fn tell(rt: &HostRuntime, fault: Fault) -> ExitCode {
    let number = fault.number();
    let name = fault.name();
    let _told = eprintln!(rt; "metad: fault {number} {name}");
    ExitCode::from(1)
}

/// Tells the fault that ended the program, and the file that it was at.
pub fn tell_at(rt: &HostRuntime, path: &str, fault: Fault) -> ExitCode {
    let number = fault.number();
    let name = fault.name();
    let _told = eprintln!(rt; "metad: fault {number} {name} at {path}");
    ExitCode::from(1)
}

/// Tells why a file can't be used, and the fault that ended the program.
pub fn tell_io(rt: &HostRuntime, path: &str, error: io::Error, fault: Fault) -> ExitCode {
    if error.kind() == io::ErrorKind::OutOfMemory {
        return tell_at(rt, path, Fault::OutOfMemory);
    }
    let _told = eprintln!(rt; "metad: {path}: {error}");
    tell_at(rt, path, fault)
}

/// Tells that a file can't grow.
pub fn tell_full(rt: &HostRuntime, path: &str) {
    let _told = eprintln!(rt; "metad: {path} can't grow: additions are refused until it can");
}

/// Tells how far a start is that takes long: in which of its three readings of the journal, and where.
pub fn tell_progress(
    rt: &HostRuntime,
    path: &str,
    seconds: u64,
    reading: u64,
    at: usize,
    size: usize,
) {
    let _told = eprintln!(rt;
        "metad: {path}: starting for {seconds} s: byte {at} of {size} in reading {reading} of 3"
    );
}

/// Tells how long a start took.
pub fn tell_started(rt: &HostRuntime, path: &str, seconds: u64) {
    let _told = eprintln!(rt; "metad: {path}: started after {seconds} s");
}

/// Tells that a checkpoint begins, and about how long clients wait for it at most, if that is known.
pub fn tell_renewing(rt: &HostRuntime, path: &str, bytes: usize, millis: Option<u64>) {
    let what = "a checkpoint begins, of a journal of";
    let _told = match millis {
        Some(wait) => {
            eprintln!(rt; "metad: {path}: {what} {bytes} bytes: all clients wait, some {wait} ms")
        }
        None => eprintln!(rt; "metad: {path}: {what} {bytes} bytes: all clients wait"),
    };
}

/// Tells how long a checkpoint took.
pub fn tell_renewed_after(rt: &HostRuntime, path: &str, millis: u128) {
    let _told = eprintln!(rt; "metad: {path}: clients waited {millis} ms for it");
}

/// Tells that a file's name leads to no file, or to another.
pub fn tell_gone(rt: &HostRuntime, path: &str) {
    let _told = eprintln!(rt;
        "metad: {path}: it was removed, moved or replaced while it was served"
    );
}

// The digits of a sum.
fn digits(sum: &[u8; 64]) -> &str {
    from_utf8(sum.as_slice()).unwrap_or("")
}

/// Tells how many lines a journal has, how far it goes, and its last sum.
pub fn tell_found(rt: &HostRuntime, path: &str, lines: u64, sound: &Sound) {
    let (end, last) = (sound.end, digits(&sound.last));
    let _told = eprintln!(rt; "metad: {path}: {lines} lines, {end} bytes, last sum {last}");
}

// The digits of an identity.
fn identity_digits(identity: &[u8; 32]) -> &str {
    from_utf8(identity.as_slice()).unwrap_or("")
}

/// Says which store a file belongs to, and which of its files it is.
pub fn tell_identity(rt: &HostRuntime, path: &str, card: Note) {
    let (identity, generation) = (identity_digits(&card.identity), card.generation);
    let _told = eprintln!(rt; "metad: {path}: store {identity}, generation {generation}");
}

/// Tells that a file took no witness.
pub fn tell_unwitnessed(rt: &HostRuntime, path: &str) {
    let _told = eprintln!(rt;
        "metad: {path}: it can't take a witness: a loss at the journal's end may pass unseen"
    );
}

/// Tells that a file's head can't be read, so that its witness is missing.
pub fn tell_unread_head(rt: &HostRuntime, path: &str) {
    let _told = eprintln!(rt; "metad: {path}: its head can't be read, so no witness is known");
}

// Why two files aren't served.
fn unfit_text(unfit: Unfit) -> &'static str {
    match unfit {
        Unfit::OtherStore => "the two files are of two stores",
        Unfit::OtherMoment => "the two files are of two moments",
        Unfit::Stale => "its head is stale, or the file: a later one counted already",
        Unfit::Less => "it has less than it had: serve a backup, or with --accept-loss",
        Unfit::Part => "it has less than its checkpoint had, so half a store: serve a backup",
        Unfit::NoStore => "no store was made there",
        Unfit::NoCard => "damage in its card",
    }
}

/// Tells why a file isn't served.
pub fn tell_unfit(rt: &HostRuntime, path: &str, unfit: Unfit) -> ExitCode {
    let text = unfit_text(unfit);
    let _told = eprintln!(rt; "metad: {path}: {text}");
    ExitCode::from(3)
}

/// Why there is no checkpoint.
pub fn checkpoint_text(why: Why) -> &'static str {
    match why {
        Why::Opening(JournalError::UnknownFormat) => "its first line isn't that of a journal",
        Why::Opening(JournalError::Damaged) => "damage in its head",
        Why::Taking(CheckpointError::Full) => "it can't grow",
        Why::Taking(CheckpointError::Refused) => "a line of it is refused",
        Why::Taking(CheckpointError::Differs) => "its lines make another store",
        Why::Opening(JournalError::OutOfMemory) | Why::Taking(CheckpointError::OutOfMemory) => {
            "memory is refused"
        }
        _ => "it can't be read or written",
    }
}

/// Tells that a file has a checkpoint, and counts from now on.
pub fn tell_checkpoint(rt: &HostRuntime, path: &str, bytes: usize) {
    let _told = eprintln!(rt; "metad: {path}: a checkpoint of {bytes} bytes");
}

/// Tells that a file took no checkpoint, so the other one goes on.
pub fn tell_no_checkpoint(rt: &HostRuntime, path: &str, why: Why) {
    let text = checkpoint_text(why);
    let _told = eprintln!(rt; "metad: {path}: no checkpoint: {text}");
}

/// Tells that a file is shorter than the checkpoint of the other one, and can't grow.
pub fn tell_short(rt: &HostRuntime, path: &str) {
    let _told = eprintln!(rt;
        "metad: {path}: it can't grow to the length of the checkpoint: the next one may have no room"
    );
}

/// Tells that one of the two files isn't there, or is empty, and the other one is.
pub fn tell_missing(rt: &HostRuntime, path: &str) -> ExitCode {
    let _told = eprintln!(rt; "metad: {path}: it is missing or empty, and the other file isn't");
    ExitCode::from(3)
}

/// Tells that a folder has no store.
pub fn tell_no_store(rt: &HostRuntime, folder: &str) -> ExitCode {
    let _told = eprintln!(rt;
        "metad: {folder}: no store is there: `metad new` or `serve --new` makes one"
    );
    ExitCode::from(3)
}

/// Tells that a folder that was to get a store has one with lines.
pub fn tell_taken(rt: &HostRuntime, folder: &str) -> ExitCode {
    let _told = eprintln!(rt;
        "metad: {folder}: a store with lines is there: serve it without --new"
    );
    ExitCode::from(3)
}

/// Tells that a file was written anew while it was read.
pub fn tell_renewed(rt: &HostRuntime, path: &str) -> ExitCode {
    let _told = eprintln!(rt; "metad: {path}: it was written anew meanwhile: ask again");
    ExitCode::from(1)
}

/// Says where damage is.
pub fn tell_damage(rt: &HostRuntime, path: &str, end: usize) -> ExitCode {
    let _told = eprintln!(rt; "metad: {path}: damage behind byte {end}");
    ExitCode::from(3)
}

// Whether a newer metad wrote a file: its first line has another number.
fn is_newer(rt: &HostRuntime, path: &str) -> bool {
    let Ok(file) = fs::open(rt, path) else {
        return false;
    };
    let mut line = [0u8; 17];
    match file.read_exact_at(&mut line, 0) {
        Ok(()) => {
            &line[..15] == b"#metad journal ".as_slice()
                && line[15].is_ascii_digit()
                && (line[16] == b'\n' || line[16].is_ascii_digit())
        }
        Err(_) => false,
    }
}

/// Tells that a file has another format.
pub fn tell_format(rt: &HostRuntime, path: &str) -> ExitCode {
    if is_newer(rt, path) {
        let _told = eprintln!(rt; "metad: {path}: a newer metad wrote it, in another format");
        return ExitCode::from(3);
    }
    let _told = eprintln!(rt; "metad: {path}: its first line isn't that of a journal");
    ExitCode::from(3)
}

/// Tells that the head of a file is damaged.
pub fn tell_head(rt: &HostRuntime, path: &str) -> ExitCode {
    let _told = eprintln!(rt; "metad: {path}: damage in its head");
    ExitCode::from(3)
}

/// Prints what a journal holds, and says where damage is.
pub fn print_found(rt: &HostRuntime, path: &str, found: &Finding) -> ExitCode {
    let (lines, end, last) = (found.lines, found.sound.end, digits(&found.sound.last));
    if println!(rt; "{lines} lines, {end} bytes, last sum {last}").is_err() {
        return tell(rt, Fault::WriteFailed);
    }
    if found.is_damaged {
        return tell_damage(rt, path, end);
    }
    ExitCode::SUCCESS
}

/// Prints of which store a file is, and which of its files.
pub fn print_identity(rt: &HostRuntime, card: Note) -> ExitCode {
    let (identity, generation) = (identity_digits(&card.identity), card.generation);
    if println!(rt; "store {identity}, generation {generation}").is_err() {
        return tell(rt, Fault::WriteFailed);
    }
    ExitCode::SUCCESS
}
