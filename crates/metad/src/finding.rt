//! What a journal's file holds, told in numbers.

use journal::{JournalError, Log, Reader, Sound, cut_line, is_commit, read_lines};
use std::alloc::Global;

/// The first sum of a file of format 1.
pub const FIRST: [u8; 64] = [b'0'; 64];

// How many bytes are read at a time.
const BLOCK: usize = 65536;

/// How far the groups of a file go, and how many lines they have. Behind them there is damage, or
/// nothing that was committed.
#[derive(Clone, Copy)]
pub struct Finding {
    pub lines: u64,
    pub sound: Sound,
    pub is_damaged: bool,
}

// Whether a part of a line, or its end, is no damage.
fn goes_on(reader: &mut Reader, part: &[u8]) -> Result<bool, JournalError> {
    match reader.read(part) {
        Ok(()) => Ok(true),
        Err(JournalError::Damaged) => Ok(false),
        Err(error) => Err(error),
    }
}

// How far the groups go, where it is known.
fn sound_so_far(reader: &Reader, sound: Sound) -> Sound {
    match reader.end() {
        Ok(sound) => sound,
        Err(_) => sound,
    }
}

// Reads a block line by line. Answers how far the groups go, and whether there is no damage.
fn read_block(reader: &mut Reader, block: &[u8], sound: &mut Sound) -> Result<bool, JournalError> {
    let mut rest = block;
    // For the prover: a text has fewer lines.
    'lines: for _ in 0..u64::MAX {
        let Some((line, later)) = cut_line(rest) else {
            break;
        };
        if !goes_on(reader, line)? || !goes_on(reader, b"\n")? {
            return Ok(false);
        }
        *sound = sound_so_far(reader, *sound);
        rest = later;
    }
    goes_on(reader, rest)
}

// How far the groups go, and whether damage follows them.
fn find_sound<D: Log>(
    alloc: Global,
    first: &[u8; 64],
    log: &mut D,
) -> Result<(Sound, bool), JournalError> {
    let size = log.size()?;
    let mut reader = Reader::new(alloc, first);
    let mut sound = Sound {
        end: 0,
        last: *first,
    };
    let mut block: Vec<u8> = Vec::new(alloc);
    let mut at = 0usize;
    // For the prover: a file has fewer blocks.
    'reading: for _ in 0..u64::MAX {
        if at >= size {
            break;
        }
        let count = size.saturating_sub(at).min(BLOCK);
        log.read(at, count, &mut block)?;
        if !read_block(&mut reader, &block, &mut sound)? {
            return Ok((sound, true));
        }
        at = at.saturating_add(count);
    }
    match reader.end() {
        Ok(sound) => Ok((sound, false)),
        Err(_) => Ok((sound, true)),
    }
}

/// How many lines of a text commit nothing.
pub fn count_in(text: &[u8]) -> u64 {
    let mut count = 0u64;
    let mut rest = text;
    // For the prover: a text has fewer lines.
    'lines: for _ in 0..u64::MAX {
        let Some((line, later)) = cut_line(rest) else {
            break;
        };
        if !is_commit(line) {
            count = count.saturating_add(1);
        }
        rest = later;
    }
    count
}

// How many lines stand before a place.
fn count_lines<D: Log>(alloc: Global, log: &mut D, end: usize) -> Result<u64, JournalError> {
    let mut block: Vec<u8> = Vec::new(alloc);
    let mut count = 0u64;
    let mut at = 0usize;
    // For the prover: a file has fewer blocks.
    'counting: for _ in 0..u64::MAX {
        if at >= end {
            break;
        }
        let next = read_lines(log, at, end, &mut block)?;
        if next <= at {
            return Err(JournalError::DiskFailed);
        }
        count = count.saturating_add(count_in(&block));
        at = next;
    }
    Ok(count)
}

// What a file holds, read once.
fn find_once<D: Log>(
    alloc: Global,
    first: &[u8; 64],
    log: &mut D,
) -> Result<Finding, JournalError> {
    let (sound, is_damaged) = find_sound(alloc, first, log)?;
    let lines = count_lines(alloc, log, sound.end)?;
    Ok(Finding {
        lines,
        sound,
        is_damaged,
    })
}

/// What a file with this first sum holds. It is left as it is. A program may write to it
/// meanwhile: then parts of two moments may look damaged. So only damage that is found twice
/// behind the same byte is damage.
pub fn find<D: Log>(alloc: Global, first: &[u8; 64], log: &mut D) -> Result<Finding, JournalError> {
    let mut found = find_once(alloc, first, log)?;
    // For the prover: after fewer readings two find the same damage, or one finds none.
    'again: for _ in 0..u64::MAX {
        if !found.is_damaged {
            break;
        }
        let end = found.sound.end;
        found = find_once(alloc, first, log)?;
        if found.sound.end == end {
            break;
        }
    }
    Ok(found)
}
