//! Writes the text of a backup.

use crate::reading::backing::text::{CARD, LAST, MARK};
use crate::reading::scripting::{ScriptError, is_there};
use journal::{JournalError, Log, Note, Reader, Sound, note_bytes, read_lines};
use std::alloc::{AllocError, Global};
use std::io::Write;

impl From<AllocError> for ScriptError {
    fn from(_: AllocError) -> ScriptError {
        ScriptError::Journal(JournalError::OutOfMemory)
    }
}

// Puts a note and its mark behind a text.
fn push_note(alloc: Global, text: &mut Vec<u8>, mark: &[u8], note: Note) -> Result<(), AllocError> {
    let bytes = note_bytes(alloc, note)?;
    text.extend_from_slice(mark)?;
    text.extend_from_slice(&bytes)?;
    Ok(())
}

/// What stands before the groups of a file with this card.
pub fn front_of(alloc: Global, card: Note) -> Result<Vec<u8>, AllocError> {
    let mut text: Vec<u8> = Vec::new(alloc);
    text.extend_from_slice(MARK)?;
    push_note(alloc, &mut text, CARD, card)?;
    Ok(text)
}

// Writes bytes.
fn put<W: Write>(writer: &mut W, bytes: &[u8]) -> Result<(), ScriptError> {
    match writer.write_all(bytes) {
        Ok(()) => Ok(()),
        Err(_) => Err(ScriptError::WriteFailed),
    }
}

// Writes a block of groups, and reads it as a journal's.
fn put_block<W: Write>(
    writer: &mut W,
    reader: &mut Reader,
    block: &[u8],
) -> Result<(), ScriptError> {
    match reader.read(block) {
        Ok(()) => {}
        Err(JournalError::Damaged) => return Err(ScriptError::Renewed),
        Err(error) => return Err(ScriptError::Journal(error)),
    }
    put(writer, block)
}

/// Writes the groups of a journal by its first sum, up to where a note says that they end, and that
/// note.
pub fn write_groups<D: Log, W: Write>(
    alloc: Global,
    first: &[u8; 64],
    log: &mut D,
    last: Note,
    writer: &mut W,
) -> Result<(), ScriptError> {
    let mut block: Vec<u8> = Vec::new(alloc);
    let mut reader = Reader::new(alloc, first);
    let mut at = 0usize;
    // For the prover: a file has fewer blocks.
    'writing: for _ in 0..u64::MAX {
        if at >= last.end {
            break;
        }
        let next = read_lines(log, at, last.end, &mut block)?;
        if next <= at {
            return Err(ScriptError::Renewed);
        }
        put_block(writer, &mut reader, &block)?;
        at = next;
    }
    let sum = last.sum;
    let sound = Sound {
        end: last.end,
        last: sum,
    };
    if !is_there(&reader, &sound) {
        return Err(ScriptError::Renewed);
    }
    let mut text: Vec<u8> = Vec::new(alloc);
    push_note(alloc, &mut text, LAST, last)?;
    put(writer, &text)
}
