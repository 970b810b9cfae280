//! A journal's file that is only read, without its lock. No clause says what such a file gives.
ghost use Rattle.std.specs.Prelude.{◌≡◌, ◌≤◌, [], length, false, OnOk};

use journal::{HEAD, JournalError, Log, STEP, has_page, is_blank, read_head};
use std::alloc::{AllocError, Global};
use std::fs;
use std::os::unix::fs::FileExt;

/// Why a file can't be read.
#[derive(Clone, Copy, Debug, PartialEq, Eq)]
pub enum PlainError {
    OutOfMemory,
    ReadFailed,
    /// Its first line names another format.
    UnknownFormat,
    /// Its head isn't as it was written.
    Damaged,
    /// It is missing or empty, and the other file isn't.
    Missing,
    /// No head was ever whole in it.
    NoHead,
}

/// A file as it is while it is read, be it that a program writes to it.
#[derive(Drop)]
pub struct PlainFile {
    file: fs::File,
    size: usize,
    /// Its head says that the other file counts.
    pub names_other: bool,
    /// A page of notes stands before its text.
    pub has_page: bool,
}

// What a head says: how many steps of its file are believed, and whether the other file counts.
#[derive(Clone, Copy)]
struct HeadFields {
    steps: usize,
    names_other: bool,
    has_page: bool,
}

// As many bytes, whatever they are.
fn make_room(block: &mut Vec<u8>, count: usize) -> Result<(), AllocError>
    ensures { OnOk result (length block.new.items ≡ count) }
{
    block.clear();
    block.resize(count, 0)?;
    Ok(())
}

// How many bytes a file has.
fn size_of(file: &fs::File) -> Result<usize, PlainError> {
    match file.metadata() {
        Ok(data) => Ok(data.len() as usize),
        Err(_) => Err(PlainError::ReadFailed),
    }
}

// Reads bytes from the front of a file.
fn read_front(file: &fs::File, block: &mut Vec<u8>, count: usize) -> Result<(), PlainError>
    ensures { OnOk result (length block.new.items ≡ count) }
{
    match make_room(block, count) {
        Ok(()) => {}
        Err(_) => return Err(PlainError::OutOfMemory),
    }
    match file.read_exact_at(block, 0) {
        Ok(()) => Ok(()),
        Err(_) => Err(PlainError::ReadFailed),
    }
}

// Whether a file never had a whole head, so that nothing of it is believed. It is read whole, so its
// front is looked at before.
fn is_new(alloc: Global, file: &fs::File) -> Result<bool, PlainError> {
    let size = size_of(file)?;
    let mut text: Vec<u8> = Vec::new(alloc);
    read_front(file, &mut text, size)?;
    Ok(is_blank(&text))
}

// How many steps a head says that are believed. A program that lets the file grow marks a step only
// once it is there, so the file is measured now.
fn steps_of(file: &fs::File, head: &[u8]) -> Result<usize, PlainError>
    requires { length head.now ≤ 4096 }
{
    let size = size_of(file)?;
    match read_head(head, size) {
        Ok(Some(steps)) => Ok(steps),
        Ok(None) => Err(PlainError::UnknownFormat),
        Err(_) => Err(PlainError::Damaged),
    }
}

// Whether two of the three bytes of a selector are there at least (docs/JOURNAL.md, "The
// selector").
fn names_other(head: &[u8]) -> bool {
    let Some(selector) = head.get(4_091..4_094) else {
        return false;
    };
    selector.iter().filter(|byte| **byte == b'+').count() >= 2
}

// What the head of a file says.
fn read_fields(alloc: Global, file: &fs::File) -> Result<HeadFields, PlainError> {
    let count = size_of(file)?.min(HEAD);
    let mut head: Vec<u8> = Vec::new(alloc);
    read_front(file, &mut head, count)?;
    match steps_of(file, &head) {
        Ok(steps) => Ok(HeadFields {
            steps,
            names_other: names_other(&head),
            has_page: has_page(&head),
        }),
        Err(error) => {
            if is_blank(&head) && is_new(alloc, file)? {
                return Err(PlainError::NoHead);
            }
            Err(error)
        }
    }
}

/// Whether there is a file with this name that isn't empty.
pub fn has_bytes(rt: &HostRuntime, path: &str) -> bool {
    match fs::metadata(rt, path) {
        Ok(data) => data.len() > 0,
        Err(_) => false,
    }
}

impl PlainFile {
    /// The file with this name.
    pub fn open(rt: &HostRuntime, path: &str) -> Result<PlainFile, PlainError> {
        let Ok(file) = fs::open(rt, path) else {
            return Err(PlainError::ReadFailed);
        };
        let fields = read_fields(rt.alloc(), &file)?;
        let size = fields.steps.saturating_mul(STEP);
        Ok(PlainFile {
            file,
            size,
            names_other: fields.names_other,
            has_page: fields.has_page,
        })
    }
}

impl Log for PlainFile {
    ghost text = { λ _. [] };

    ghost may_leave = { λ _ _. ⊥ };

    ghost rests = { λ _. ⊥ };

    ghost is_clean = { λ _. false };

    ghost rested = { λ log c rests left. absurd left };

    fn size(&self) -> Result<usize, JournalError> {
        Ok(self.size)
    }

    fn read(&mut self, at: usize, count: usize, block: &mut Vec<u8>) -> Result<(), JournalError> {
        make_room(block, count)?;
        let Some(place) = at.checked_add(HEAD) else {
            return Err(JournalError::DiskFailed);
        };
        match self.file.read_exact_at(block, place as u64) {
            Ok(()) => Ok(()),
            Err(_) => Err(JournalError::DiskFailed),
        }
    }

    fn put(&mut self, _at: usize, _bytes: &[u8]) -> Result<(), JournalError> {
        Err(JournalError::DiskFailed)
    }

    fn grow(&mut self) -> Result<(), JournalError> {
        Err(JournalError::DiskFailed)
    }
}
