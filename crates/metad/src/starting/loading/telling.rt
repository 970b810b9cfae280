//! What a load tells.

use crate::finding::Finding;
use crate::telling::{print_found, print_identity, tell};
use journal::{Note, Sound};
use kept_store::{LoadError, NotLoaded};
use meta_types::Fault;
use std::process::ExitCode;

// Tells what is wrong with a line of the input.
fn tell_line(rt: &HostRuntime, line: u64, text: &str) -> ExitCode {
    let _told = eprintln!(rt; "metad: line {line} of the input: {text}");
    ExitCode::from(3)
}

/// Tells that a line is one of a backup, and the input isn't one.
pub fn tell_mark(rt: &HostRuntime, line: u64) -> ExitCode {
    tell_line(rt, line, "it is refused: `#` begins a line of a backup")
}

/// Tells why there is no store.
pub fn tell_not_loaded(rt: &HostRuntime, not: NotLoaded) -> ExitCode {
    let text = match not.error {
        LoadError::OutOfMemory => return tell(rt, Fault::OutOfMemory),
        LoadError::Refused => "it is refused",
        LoadError::Number => "its number is below one that was given",
        LoadError::End => "it doesn't end as many lines of a checkpoint as stand before it",
        LoadError::Part => "the last one, and the checkpoint has no line `end N`: half a store",
        LoadError::Cut => "no line feed ends the last line, so the input may be cut",
    };
    tell_line(rt, not.line, text)
}

/// Tells that a folder has a store.
pub fn tell_there(rt: &HostRuntime, folder: &str) -> ExitCode {
    let _told = eprintln!(rt; "metad: {folder}: a store is there: load into a folder without one");
    ExitCode::from(3)
}

/// Tells that a folder has what a load left that was cut off, or a store without a card.
pub fn tell_begun(rt: &HostRuntime, folder: &str) -> ExitCode {
    let _told = eprintln!(rt;
        "metad: {folder}: lines without a card are there, as a load leaves them that was cut off"
    );
    ExitCode::from(3)
}

/// Tells that the journal of a loaded store isn't written.
pub fn tell_not_kept(rt: &HostRuntime, path: &str, why: &str) -> ExitCode {
    let _told = eprintln!(rt; "metad: {path}: no store was made: {why}");
    ExitCode::from(1)
}

/// Prints of which store a load made files, and what they hold.
pub fn print_loaded(rt: &HostRuntime, lines: u64, card: Note) -> ExitCode {
    let last = card.sum;
    let sound = Sound {
        end: card.end,
        last,
    };
    let found = Finding {
        lines,
        sound,
        is_damaged: false,
    };
    let _told = print_identity(rt, card);
    print_found(rt, "", &found)
}
