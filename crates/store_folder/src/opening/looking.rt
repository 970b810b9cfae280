//! Looks at the page of a file, whatever its head says.
ghost use Rattle.std.specs.Prelude.{◌≡◌, List, ℕ, take, drop, IsTrue, IfOk, IfErr, OnOk};
ghost use Rattle.journal.specs.Crashes.{Only};
ghost use Rattle.journal.specs.Head.{believed, is_pair};
ghost use Rattle.journal.specs.Notes.{Reads};
ghost use Rattle.store_folder.specs.Openings.{IsPassing, has_step};

use crate::opening::error::OpenError;
use crate::opening::fronts::{read_front, sync};
use journal::{Notes, PAGE, WITNESS, read_note};
use sqlite_disk::Disk;
use std::alloc::{AllocError, Global};

// A head and a page.
const FRONT: usize = 8_192;

// Where the marks of a head begin.
const MARKS: usize = 17;

// What stands behind a place of a block.
fn behind(block: &[u8], at: usize) -> &[u8]
    ensures { result.now ≡ drop at block.now }
{
    if at > block.len() {
        return &[];
    }
    &block[at..]
}

// Whether a pair of marks counts.
fn is_pair(one: u8, other: u8) -> bool
    ensures { result ≡ is_pair one other }
{
    let first = one == b'+';
    let second = other == b'+';
    first | second
}

// Whether the first pair of these marks counts.
fn has_step(marks: &[u8]) -> bool
    ensures { result ≡ has_step marks.now }
{
    match marks {
        [one, other, ..] => is_pair(*one, *other),
        _ => false,
    }
}

// What is believed of a page, by the first bytes of its file.
fn page_in(front: &[u8]) -> &[u8]
    ensures { (file : List ℕ) → front.now ≡ take 8192 file
        → result.now ≡ take 4096 (believed file) }
{
    let has_step = has_step(behind(front, MARKS));
    if !has_step {
        return &[];
    }
    behind(front, PAGE)
}

// The notes of a page.
fn notes_in(alloc: Global, page: &[u8]) -> Result<Notes, AllocError>
    ensures card { IfOk result (λ notes. Reads 0 page.now notes.card) }
    ensures witness { IfOk result (λ notes. Reads 512 page.now notes.witness) }
{
    let card = read_note(alloc, page)?;
    let witness = read_note(alloc, behind(page, WITNESS))?;
    Ok(Notes { card, witness })
}

/// The notes of a file's page, as far as that is believed. A file without one has none.
pub fn read_notes<D: Disk>(alloc: Global, disk: &mut D) -> Result<Notes, OpenError>
    ensures card { IfOk result (λ notes. IsTrue (D.is_clean disk.new)
        → Reads 0 (believed (D.seen disk.old)) notes.card) }
    ensures witness { IfOk result (λ notes. IsTrue (D.is_clean disk.new)
        → Reads 512 (believed (D.seen disk.old)) notes.witness) }
    ensures passing { IfErr result IsPassing }
    ensures clean { IsTrue (D.is_clean disk.new) → IsTrue (D.is_clean disk.old) }
    ensures seen { D.seen disk.new ≡ D.seen disk.old }
    ensures crash { (c : List ℕ) → D.may_leave disk.new c → D.may_leave disk.old c }
{
    let front = read_front(alloc, disk, FRONT)?;
    // For the prover: it reads the clauses of a result that was opened.
    let notes = notes_in(alloc, page_in(&front.bytes))?;
    Ok(notes)
}

/// The notes of the page of a file that doesn't count. All of that is on the disk then: a process
/// that was killed may have left a note that wasn't.
pub fn look<D: Disk>(alloc: Global, disk: &mut D) -> Result<Notes, OpenError>
    ensures card { IfOk result (λ notes. IsTrue (D.is_clean disk.new)
        → Reads 0 (believed (D.seen disk.old)) notes.card) }
    ensures witness { IfOk result (λ notes. IsTrue (D.is_clean disk.new)
        → Reads 512 (believed (D.seen disk.old)) notes.witness) }
    ensures durable { OnOk result (Only (D.seen disk.new) (D.may_leave disk.new)) }
    ensures passing { IfErr result IsPassing }
    ensures clean { IsTrue (D.is_clean disk.new) → IsTrue (D.is_clean disk.old) }
    ensures seen { D.seen disk.new ≡ D.seen disk.old }
    ensures crash { (c : List ℕ) → D.may_leave disk.new c → D.may_leave disk.old c }
{
    sync(disk)?;
    // For the prover: it reads the clauses of a result that was opened.
    let notes = read_notes(alloc, disk)?;
    Ok(notes)
}
