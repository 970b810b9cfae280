//! Puts notes into the pages of a store's two files.

use crate::finding::FIRST;
use crate::heads::looking::has_page;
use journal::{
    CARD, JournalError, JournalFile, Log, Note, Selector, WITNESS, first_sum, identity_of,
    make_page, put_note,
};
use sqlite_disk::Disk;
use std::alloc::Global;
use std::io;
use std::random::RandomSource;

// A new identity.
fn new_identity<R: RandomSource>(source: &R) -> io::Result<[u8; 32]> {
    let mut bytes = [0u8; 16];
    source.fill_bytes(&mut bytes)?;
    Ok(identity_of(&bytes))
}

/// The card of a store's first file, with a new identity.
pub fn new_card<R: RandomSource>(source: &R) -> io::Result<Note> {
    let identity = new_identity(source)?;
    let card = Note {
        identity,
        generation: 0,
        end: 0,
        sum: FIRST,
    };
    Ok(Note {
        sum: first_sum(card),
        ..card
    })
}

/// The card of a store's first file. If a witness stands beside it, as where a load was cut off, the
/// store has that one's identity.
pub fn card_beside<R: RandomSource>(source: &R, witness: Option<Note>) -> io::Result<Note> {
    let card = new_card(source)?;
    let Some(witness) = witness else {
        return Ok(card);
    };
    let identity = witness.identity;
    let card = Note { identity, ..card };
    let sum = first_sum(card);
    Ok(Note { sum, ..card })
}

/// Puts a witness into a file that doesn't count, and gives its disk back. A file of format 1 has no
/// place for it.
pub fn put_witness<D: Disk + Drop, C: Selector>(
    alloc: Global,
    disk: D,
    note: Note,
) -> (D, Result<(), JournalError>) {
    let mut disk = disk;
    match has_page(alloc, &mut disk) {
        Ok((true, false)) => return (disk, Ok(())),
        Ok(_) => {}
        Err(error) => return (disk, Err(error)),
    }
    let mut log = match JournalFile::<D, C>::open(alloc, disk) {
        Ok(log) => log,
        Err(not) => return (not.disk, Err(not.error)),
    };
    let put = put_into(alloc, &mut log, note);
    (log.into_disk(), put)
}

// Puts a witness into the page of a file.
fn put_into<L: Log>(alloc: Global, log: &mut L, note: Note) -> Result<(), JournalError> {
    make_page(log)?;
    put_note(alloc, log, WITNESS, note)
}

/// Puts the card of a new store into its first file, which was just opened and is empty.
pub fn put_card<L: Log>(alloc: Global, log: &mut L, card: Note) -> Result<(), JournalError> {
    make_page(log)?;
    put_note(alloc, log, CARD, card)
}
