//! The lines of a journal, as a script that `metad run` answers.

use crate::finding::count_in;
use journal::{JournalError, Log, Reader, Sound, cut_line, is_commit, read_lines};
use std::alloc::Global;
use std::io::Write;

/// Why the lines aren't all written.
pub enum ScriptError {
    Journal(JournalError),
    WriteFailed,
    /// What was read isn't what was found before: a program wrote the file anew meanwhile.
    Renewed,
}

impl From<JournalError> for ScriptError {
    fn from(error: JournalError) -> ScriptError {
        ScriptError::Journal(error)
    }
}

/// Where the lines of a file begin and end, and where its checkpoint ends, or 0.
#[derive(Clone, Copy)]
pub struct Extent {
    pub first: [u8; 64],
    pub checkpoint: usize,
    pub sound: Sound,
}

// Writes bytes.
fn put<W: Write>(writer: &mut W, bytes: &[u8]) -> Result<(), ScriptError> {
    match writer.write_all(bytes) {
        Ok(()) => Ok(()),
        Err(_) => Err(ScriptError::WriteFailed),
    }
}

// Writes a line and its line feed, where it is no commit line.
fn write_line<W: Write>(writer: &mut W, line: &[u8]) -> Result<(), ScriptError> {
    if is_commit(line) {
        return Ok(());
    }
    put(writer, line)?;
    put(writer, b"\n")
}

// Writes the lines of a block.
fn write_lines<W: Write>(writer: &mut W, text: &[u8]) -> Result<(), ScriptError> {
    let mut rest = text;
    // For the prover: a block has fewer lines.
    'lines: for _ in 0..u64::MAX {
        let Some((line, later)) = cut_line(rest) else {
            break;
        };
        write_line(writer, line)?;
        rest = later;
    }
    Ok(())
}

// Writes the lines of a block, and reads them as a journal's.
fn write_block<W: Write>(
    writer: &mut W,
    reader: &mut Reader,
    block: &[u8],
) -> Result<(), ScriptError> {
    match reader.read(block) {
        Ok(()) => {}
        Err(JournalError::Damaged) => return Err(ScriptError::Renewed),
        Err(error) => return Err(ScriptError::Journal(error)),
    }
    write_lines(writer, block)
}

/// Whether a reader is where a journal was found to end.
pub fn is_there(reader: &Reader, sound: &Sound) -> bool {
    match reader.end() {
        Ok(end) => end.end == sound.end && end.last == sound.last,
        Err(_) => false,
    }
}

// Writes the lines from one place up to another, and answers how many they are.
fn write_part<D: Log, W: Write>(
    log: &mut D,
    reader: &mut Reader,
    from: usize,
    till: usize,
    block: &mut Vec<u8>,
    writer: &mut W,
) -> Result<u64, ScriptError> {
    let mut count = 0u64;
    let mut at = from;
    // For the prover: a file has fewer blocks.
    'writing: for _ in 0..u64::MAX {
        if at >= till {
            break;
        }
        let next = read_lines(log, at, till, block)?;
        if next <= at {
            return Err(ScriptError::Renewed);
        }
        write_block(writer, reader, block)?;
        count = count.saturating_add(count_in(block));
        at = next;
    }
    Ok(count)
}

// Writes the line that ends a checkpoint of so many lines.
fn write_end<W: Write>(alloc: Global, writer: &mut W, count: u64) -> Result<(), ScriptError> {
    match format!(in alloc; "end {count}\n") {
        Ok(line) => put(writer, line.as_bytes()),
        Err(_) => Err(ScriptError::Journal(JournalError::OutOfMemory)),
    }
}

// Whether a file has a whole checkpoint.
fn has_checkpoint(extent: &Extent) -> bool {
    extent.checkpoint > 0 && extent.checkpoint <= extent.sound.end
}

/// Writes the lines of a file, by its first sum and the last one that was found there. A line `end N`
/// stands behind those of its checkpoint.
pub fn write_script<D: Log, W: Write>(
    alloc: Global,
    extent: &Extent,
    log: &mut D,
    writer: &mut W,
) -> Result<(), ScriptError> {
    let mut block: Vec<u8> = Vec::new(alloc);
    let mut reader = Reader::new(alloc, &extent.first);
    let end = extent.sound.end;
    let mut from = 0usize;
    if has_checkpoint(extent) {
        from = extent.checkpoint;
        let count = write_part(log, &mut reader, 0, from, &mut block, writer)?;
        write_end(alloc, writer, count)?;
    }
    let _count = write_part(log, &mut reader, from, end, &mut block, writer)?;
    if !is_there(&reader, &extent.sound) {
        return Err(ScriptError::Renewed);
    }
    match writer.flush() {
        Ok(()) => Ok(()),
        Err(_) => Err(ScriptError::WriteFailed),
    }
}
