//! What stands in a backup: a line that says so, a card, the groups of a journal, and what is known of
//! their end. Every line of it that is no request begins by `#`.

use crate::finding::{FIRST, Finding, count_in};
use journal::{JournalError, NOTE, Note, Reader, first_sum, read_note};
use std::alloc::{AllocError, Global};

/// The first line of a backup.
pub const MARK: &[u8] = b"#metad backup 1\n";

/// The note of the file behind this is its card.
pub const CARD: &[u8] = b"#card ";

/// The note behind this says where the groups end.
pub const LAST: &[u8] = b"#last ";

/// The bytes before the groups.
pub const FRONT: usize = 16 + 6 + NOTE;

// The bytes behind the groups.
const BACK: usize = 6 + NOTE;

/// Why a text is no backup.
#[derive(Clone, Copy, Debug, PartialEq, Eq)]
pub enum BackupError {
    OutOfMemory,
    /// Its first line is another.
    NoBackup,
    /// A newer metad wrote it.
    Newer,
    /// It isn't as it was written.
    Damaged,
}

impl From<AllocError> for BackupError {
    fn from(_: AllocError) -> BackupError {
        BackupError::OutOfMemory
    }
}

/// What a backup holds.
#[derive(Clone, Copy)]
pub struct Backup {
    pub card: Note,
    pub found: Finding,
}

// Whether a text begins so.
fn begins(text: &[u8], mark: &[u8]) -> bool {
    match text.get(..mark.len()) {
        Some(front) => front == mark,
        None => false,
    }
}

/// Whether a text says that it is a backup, of whatever format.
pub fn is_backup(text: &[u8]) -> bool {
    begins(text, b"#metad backup ")
}

// The note behind a mark.
fn note_behind(alloc: Global, text: &[u8], mark: &[u8]) -> Result<Note, BackupError> {
    if !begins(text, mark) {
        return Err(BackupError::Damaged);
    }
    let Some(rest) = text.get(mark.len()..) else {
        return Err(BackupError::Damaged);
    };
    match read_note(alloc, rest)? {
        Some(note) => Ok(note),
        None => Err(BackupError::Damaged),
    }
}

// The sum before the first group of a file with this card.
fn first_of(card: Note) -> [u8; 64] {
    if card.end == 0 && card.sum == FIRST {
        return FIRST;
    }
    first_sum(card)
}

// What groups hold, which begin by this sum and end as a note says.
fn read_groups(
    alloc: Global,
    first: &[u8; 64],
    groups: &[u8],
    last: Note,
) -> Result<Finding, BackupError> {
    let mut reader = Reader::new(alloc, first);
    match reader.read(groups) {
        Ok(()) => {}
        Err(JournalError::OutOfMemory) => return Err(BackupError::OutOfMemory),
        Err(_) => return Err(BackupError::Damaged),
    }
    let Ok(sound) = reader.end() else {
        return Err(BackupError::Damaged);
    };
    if sound.end != groups.len() || sound.end != last.end || sound.last != last.sum {
        return Err(BackupError::Damaged);
    }
    Ok(Finding {
        lines: count_in(groups),
        sound,
        is_damaged: false,
    })
}

// The part of a text from one place up to another.
fn part(text: &[u8], from: usize, till: usize) -> Result<&[u8], BackupError> {
    if from > till {
        return Err(BackupError::Damaged);
    }
    match text.get(from..till) {
        Some(part) => Ok(part),
        None => Err(BackupError::Damaged),
    }
}

/// What a text holds that is a backup: each byte of it is as it was written.
pub fn read_backup(alloc: Global, text: &[u8]) -> Result<Backup, BackupError> {
    if !is_backup(text) {
        return Err(BackupError::NoBackup);
    }
    if !begins(text, MARK) {
        return Err(BackupError::Newer);
    }
    let till = text.len().saturating_sub(BACK);
    let groups = part(text, FRONT, till)?;
    let card = note_behind(alloc, part(text, MARK.len(), FRONT)?, CARD)?;
    let last = note_behind(alloc, part(text, till, text.len())?, LAST)?;
    if last.identity != card.identity || last.generation != card.generation {
        return Err(BackupError::Damaged);
    }
    if card.end > last.end {
        return Err(BackupError::Damaged);
    }
    let found = read_groups(alloc, &first_of(card), groups, last)?;
    Ok(Backup { card, found })
}
