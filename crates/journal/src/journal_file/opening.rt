//! Finds the head of a file, or makes it.
ghost use Rattle.std.specs.Prelude.{◌≡◌, ◌⊎◌, ◌≤◌, ℕ, List, length, take, bytes_eq, true, false, IsTrue, IfOk, IfSome, IfNone, OnOk, IsErrOf};
ghost use Rattle.journal.specs.Crashes.{Only};
ghost use Rattle.journal.specs.Head.{is_first_line, is_blank, believed, IsHeaded};
ghost use Rattle.journal.specs.Misnamed.{HasNote, IsMisnamed};
ghost use Rattle.journal.specs.Selector.{SameSelector, IsUnused};

use crate::JournalError;
use crate::journal_file::format::reads_page;
use crate::journal_file::head::{HEAD, HEAD_END, is_blank, make_zeros, new_head, read_head};
use crate::journal_file::steps::{read_block, size_of, sync, write_through};
use crate::page::{PAGE, has_any, notes_in};
use sqlite_disk::Disk;
use std::alloc::Global;

// Whether a file of this size never had a whole head. The block holds its front, and all of it
// where it never had one: any other is no longer read.
fn is_new<D: Disk>(disk: &mut D, size: usize, block: &mut Vec<u8>) -> Result<bool, JournalError>
    requires { IsTrue (D.is_usable disk.old) }
    ensures ok { (count : ℕ) → IfOk result (λ is_new. IsTrue (D.is_clean disk.new)
        → size ≡ length (D.seen disk.old) → block.old.items ≡ take count (D.seen disk.old)
        → is_new ≡ is_blank (D.seen disk.old)) }
    ensures whole { IfOk result (λ is_new. IsTrue (D.is_clean disk.new)
        → size ≡ length (D.seen disk.old) → is_new ≡ true
        → length block.new.items ≡ length (D.seen disk.old)) }
    ensures blind { (IsErrOf result JournalError.Damaged → ⊥)
        × (IsErrOf result JournalError.UnknownFormat → ⊥) }
    ensures clean { IsTrue (D.is_clean disk.new) → IsTrue (D.is_clean disk.old) }
    ensures seen { D.seen disk.new ≡ D.seen disk.old }
    ensures usable { IsTrue (D.is_usable disk.new) }
    ensures crash { (c : List ℕ) → D.may_leave disk.new c → D.may_leave disk.old c }
{
    if !is_blank(block) {
        return Ok(false);
    }
    read_block(disk, 0, size, block)?;
    Ok(is_blank(block))
}

// How many steps of a file are believed; or none where it never had a whole head, and then the
// block holds all of it.
fn find_head<D: Disk>(disk: &mut D, block: &mut Vec<u8>) -> Result<Option<usize>, JournalError>
    requires { IsTrue (D.is_usable disk.old) }
    ensures some { IfOk result (λ found. IfSome found
        (λ steps. IsTrue (D.is_clean disk.new) → IsHeaded (D.seen disk.old) steps)) }
    ensures bound { IfOk result (λ found. IfSome found (λ steps. steps ≤ 2037)) }
    ensures none { IfOk result (λ found. IfNone found (IsTrue (D.is_clean disk.new)
        → (is_blank (D.seen disk.old) ≡ true)
        × (length block.new.items ≡ length (D.seen disk.old)))) }
    ensures unknown { IsErrOf result JournalError.UnknownFormat → IsTrue (D.is_clean disk.new)
        → (is_blank (D.seen disk.old) ≡ false)
        × (is_first_line (take 17 (D.seen disk.old)) ≡ false) }
    ensures damaged { IsErrOf result JournalError.Damaged → IsTrue (D.is_clean disk.new)
        → (is_first_line (take 17 (D.seen disk.old)) ≡ true)
        × ((steps : ℕ) → IsHeaded (D.seen disk.old) steps → ⊥) }
    ensures clean { IsTrue (D.is_clean disk.new) → IsTrue (D.is_clean disk.old) }
    ensures seen { D.seen disk.new ≡ D.seen disk.old }
    ensures usable { IsTrue (D.is_usable disk.new) }
    ensures crash { (c : List ℕ) → D.may_leave disk.new c → D.may_leave disk.old c }
{
    let size = size_of(disk)?;
    let count = size.min(HEAD);
    read_block(disk, 0, count, block)?;
    let head = read_head(block, size);
    if let Ok(Some(steps)) = head {
        return Ok(Some(steps));
    }
    if is_new(disk, size, block)? {
        return Ok(None);
    }
    match head {
        Err(_) => Err(JournalError::Damaged),
        Ok(_) => Err(JournalError::UnknownFormat),
    }
}

// Whether a note of a page stands where what is believed of a file begins.
fn has_note<D: Disk>(alloc: Global, disk: &mut D, steps: usize) -> Result<bool, JournalError>
    requires { IsTrue (D.is_usable disk.old) }
    ensures note { IfOk result (λ has. IsTrue (D.is_clean disk.new)
        → IsHeaded (D.seen disk.old) steps → has ≡ true → HasNote (believed (D.seen disk.old))) }
    ensures none { IfOk result (λ has. IsTrue (D.is_clean disk.new)
        → IsHeaded (D.seen disk.old) steps → has ≡ false
        → HasNote (believed (D.seen disk.old)) → ⊥) }
    ensures blind { (IsErrOf result JournalError.Damaged → ⊥)
        × (IsErrOf result JournalError.UnknownFormat → ⊥) }
    ensures clean { IsTrue (D.is_clean disk.new) → IsTrue (D.is_clean disk.old) }
    ensures seen { D.seen disk.new ≡ D.seen disk.old }
    ensures crash { (c : List ℕ) → D.may_leave disk.new c → D.may_leave disk.old c }
{
    if steps == 0 {
        return Ok(false);
    }
    let mut block = Vec::new(alloc);
    read_block(disk, HEAD, PAGE, &mut block)?;
    let notes = notes_in(alloc, &block)?;
    Ok(has_any(notes))
}

// Whether a file of format 1 has a note where its text begins.
fn is_misnamed<D: Disk>(alloc: Global, disk: &mut D, steps: usize) -> Result<bool, JournalError>
    requires { IsTrue (D.is_usable disk.old) }
    ensures misnamed { IfOk result (λ is. IsTrue (D.is_clean disk.new)
        → IsHeaded (D.seen disk.old) steps → is ≡ true → IsMisnamed (D.seen disk.old)) }
    ensures named { IfOk result (λ is. IsTrue (D.is_clean disk.new)
        → IsHeaded (D.seen disk.old) steps → is ≡ false → IsMisnamed (D.seen disk.old) → ⊥) }
    ensures blind { (IsErrOf result JournalError.Damaged → ⊥)
        × (IsErrOf result JournalError.UnknownFormat → ⊥) }
    ensures clean { IsTrue (D.is_clean disk.new) → IsTrue (D.is_clean disk.old) }
    ensures seen { D.seen disk.new ≡ D.seen disk.old }
    ensures crash { (c : List ℕ) → D.may_leave disk.new c → D.may_leave disk.old c }
{
    let has_page = reads_page(disk)?;
    if has_page {
        return Ok(false);
    }
    // For the prover: it reads the clauses of a result that was opened.
    let has = has_note(alloc, disk, steps)?;
    Ok(has)
}

/// Whether a file ever had a whole head. It isn't changed. Without one, nothing of it is believed.
/// A file of format 1 in which a note stands where its text begins is damaged: it has format 2, and
/// the digit in its first line was changed.
pub fn has_head<D: Disk>(alloc: Global, disk: &mut D) -> Result<bool, JournalError>
    ensures headed { IfOk result (λ has. IsTrue (D.is_clean disk.new) → has ≡ true
        → (steps : ℕ) × IsHeaded (D.seen disk.old) steps) }
    ensures none { IfOk result (λ has. IsTrue (D.is_clean disk.new) → has ≡ false
        → is_blank (D.seen disk.old) ≡ true) }
    ensures named { OnOk result
        (IsTrue (D.is_clean disk.new) → IsMisnamed (D.seen disk.old) → ⊥) }
    ensures unknown { IsErrOf result JournalError.UnknownFormat → IsTrue (D.is_clean disk.new)
        → (is_blank (D.seen disk.old) ≡ false)
        × (is_first_line (take 17 (D.seen disk.old)) ≡ false) }
    ensures damaged { IsErrOf result JournalError.Damaged → IsTrue (D.is_clean disk.new)
        → (is_first_line (take 17 (D.seen disk.old)) ≡ true)
        × (((steps : ℕ) → IsHeaded (D.seen disk.old) steps → ⊥)
        ⊎ IsMisnamed (D.seen disk.old)) }
    ensures clean { IsTrue (D.is_clean disk.new) → IsTrue (D.is_clean disk.old) }
    ensures seen { D.seen disk.new ≡ D.seen disk.old }
    ensures crash { (c : List ℕ) → D.may_leave disk.new c → D.may_leave disk.old c }
{
    if !disk.may_be_used() {
        return Err(JournalError::DiskFailed);
    }
    let mut block = Vec::new(alloc);
    let found = find_head(disk, &mut block)?;
    let Some(steps) = found else {
        return Ok(false);
    };
    let is_misnamed = is_misnamed(alloc, disk, steps)?;
    if is_misnamed {
        return Err(JournalError::Damaged);
    }
    Ok(true)
}

// Makes a file that never had a head as long as one without its last byte. So what a crash leaves
// of it has no selector.
fn make_long<D: Disk>(alloc: Global, disk: &mut D, size: usize) -> Result<(), JournalError>
    requires { IsTrue (D.is_usable disk.old) }
    ensures ok { OnOk result
        (size ≡ length (D.seen disk.old) → is_blank (D.seen disk.old) ≡ true
        → (is_blank (D.seen disk.new) ≡ true) × (4095 ≤ length (D.seen disk.new))) }
    ensures durable { OnOk result (Only (D.seen disk.old) (D.may_leave disk.old)
        → Only (D.seen disk.new) (D.may_leave disk.new)) }
    ensures calm { D.is_clean disk.new ≡ D.is_clean disk.old }
    ensures crash { size ≡ length (D.seen disk.old) → is_blank (D.seen disk.old) ≡ true
        → Only (D.seen disk.old) (D.may_leave disk.old)
        → (c : List ℕ) → D.may_leave disk.new c → IsUnused c }
    ensures blind { (IsErrOf result JournalError.Damaged → ⊥)
        × (IsErrOf result JournalError.UnknownFormat → ⊥) }
{
    if size >= HEAD_END {
        return Ok(());
    }
    let zeros = make_zeros(alloc, HEAD_END)?;
    write_through(disk, 0, &zeros)?;
    Ok(())
}

// Puts a new head over the front of a file that never had one.
fn put_head<D: Disk>(alloc: Global, disk: &mut D) -> Result<(), JournalError>
    ensures ok { OnOk result (IsHeaded (D.seen disk.new) 0) }
    ensures durable { OnOk result (Only (D.seen disk.new) (D.may_leave disk.new)) }
    ensures calm { D.is_clean disk.new ≡ D.is_clean disk.old }
    ensures crash { is_blank (D.seen disk.old) ≡ true → 4095 ≤ length (D.seen disk.old)
        → Only (D.seen disk.old) (D.may_leave disk.old)
        → (c : List ℕ) → D.may_leave disk.new c → IsUnused c }
    ensures blind { (IsErrOf result JournalError.Damaged → ⊥)
        × (IsErrOf result JournalError.UnknownFormat → ⊥) }
{
    let head = new_head(alloc)?;
    if !disk.may_be_used() {
        return Err(JournalError::DiskFailed);
    }
    if !disk.mixes() {
        return Err(JournalError::DiskFailed);
    }
    write_through(disk, 0, &head)?;
    Ok(())
}

// Makes the head of a file that never had one.
fn make_head<D: Disk>(alloc: Global, disk: &mut D, size: usize) -> Result<(), JournalError>
    requires { IsTrue (D.is_usable disk.old) }
    ensures ok { OnOk result (IsHeaded (D.seen disk.new) 0) }
    ensures durable { OnOk result (Only (D.seen disk.new) (D.may_leave disk.new)) }
    ensures calm { D.is_clean disk.new ≡ D.is_clean disk.old }
    ensures crash { size ≡ length (D.seen disk.old) → is_blank (D.seen disk.old) ≡ true
        → Only (D.seen disk.old) (D.may_leave disk.old)
        → (c : List ℕ) → D.may_leave disk.new c → IsUnused c }
    ensures blind { (IsErrOf result JournalError.Damaged → ⊥)
        × (IsErrOf result JournalError.UnknownFormat → ⊥) }
{
    make_long(alloc, disk, size)?;
    put_head(alloc, disk)?;
    Ok(())
}

/// How many steps of a file are believed. A file that never had a whole head gets one; any other
/// isn't changed.
pub fn open_disk<D: Disk>(alloc: Global, disk: &mut D) -> Result<usize, JournalError>
    requires { IsTrue (D.is_usable disk.old) }
    ensures headed { IfOk result
        (λ steps. IsTrue (D.is_clean disk.new) → IsHeaded (D.seen disk.new) steps) }
    ensures bound { IfOk result (λ steps. steps ≤ 2037) }
    ensures same { IsTrue (D.is_clean disk.new)
        → SameSelector (D.seen disk.old) (D.seen disk.new) }
    ensures durable { OnOk result (Only (D.seen disk.new) (D.may_leave disk.new)) }
    ensures crash { IsTrue (D.is_clean disk.new) → (c : List ℕ) → D.may_leave disk.new c
        → (D.may_leave disk.old c) ⊎ SameSelector (D.seen disk.old) c }
    ensures changed { IsTrue (D.is_clean disk.new)
        → (D.seen disk.new ≡ D.seen disk.old) ⊎ (is_blank (D.seen disk.old) ≡ true) }
    ensures unknown { IsErrOf result JournalError.UnknownFormat → IsTrue (D.is_clean disk.new)
        → (is_blank (D.seen disk.old) ≡ false)
        × (is_first_line (take 17 (D.seen disk.old)) ≡ false) }
    ensures damaged { IsErrOf result JournalError.Damaged → IsTrue (D.is_clean disk.new)
        → (is_first_line (take 17 (D.seen disk.old)) ≡ true)
        × ((steps : ℕ) → IsHeaded (D.seen disk.old) steps → ⊥) }
    ensures clean { IsTrue (D.is_clean disk.new) → IsTrue (D.is_clean disk.old) }
{
    sync(disk)?;
    let mut block = Vec::new(alloc);
    if let Some(steps) = find_head(disk, &mut block)? {
        return Ok(steps);
    }
    make_head(alloc, disk, block.len())?;
    Ok(0)
}
