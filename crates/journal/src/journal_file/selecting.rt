//! Puts into a head which of two files counts, and reads it.
ghost use Rattle.std.specs.Prelude.{◌≡◌, ◌⊎◌, ◌≤◌, ◌==◌, ℕ, List, length, take, slice_index, IsTrue, IfOk, IfErr, OnOk, IsErrOf, true, false};
ghost use Rattle.sqlite_disk.specs.Disk.{Follows};
ghost use Rattle.journal.specs.Crashes.{Only, written};
ghost use Rattle.journal.specs.Head.{is_first_line, selector_of, is_blank, IsHeaded};
ghost use Rattle.journal.specs.Selector.{tail_of, selector_bytes, other_counts, HasSelector, SelectorLeft, SameSelector};

use crate::JournalError;
use crate::journal_file::opening::open_disk;
use crate::journal_file::selector::{Said, judge, selector_bytes};
use crate::journal_file::steps::put;
use sqlite_disk::Disk;
use std::alloc::Global;

// The end of a file's head.
fn read_tail<D: Disk>(disk: &mut D) -> Result<[u8; 5], JournalError>
    ensures bytes { IfOk result
        (λ tail. IsTrue (D.is_clean disk.new) → tail ≡ tail_of (D.seen disk.old)) }
    ensures failed { IfErr result (λ error. error ≡ JournalError.DiskFailed) }
    ensures clean { IsTrue (D.is_clean disk.new) → IsTrue (D.is_clean disk.old) }
    ensures seen { D.seen disk.new ≡ D.seen disk.old }
    ensures crash { (c : List ℕ) → D.may_leave disk.new c → D.may_leave disk.old c }
{
    if !disk.may_be_used() {
        return Err(JournalError::DiskFailed);
    }
    let mut tail = [0u8; 5];
    match disk.read_at(4_091, &mut tail) {
        Ok(()) => Ok(tail),
        Err(_) => Err(JournalError::DiskFailed),
    }
}

// What the end of a file's head says.
fn read_selector<D: Disk>(disk: &mut D) -> Result<Said, JournalError>
    ensures other { IfOk result
        (λ said. IsTrue (D.is_clean disk.new) → said.is_standby ≡ other_counts (D.seen disk.old)) }
    ensures ended { IfOk result (λ said. IsTrue (D.is_clean disk.new)
        → said.is_ended ≡ (slice_index (tail_of (D.seen disk.old)) 4 == 10)) }
    ensures failed { IfErr result (λ error. error ≡ JournalError.DiskFailed) }
    ensures clean { IsTrue (D.is_clean disk.new) → IsTrue (D.is_clean disk.old) }
    ensures seen { D.seen disk.new ≡ D.seen disk.old }
    ensures crash { (c : List ℕ) → D.may_leave disk.new c → D.may_leave disk.old c }
{
    let tail = read_tail(disk)?;
    Ok(judge(&tail))
}

// Puts a selector over the one that a head has, and waits until it is on the disk.
fn put_selector<D: Disk>(disk: &mut D, is_standby: bool) -> Result<(), JournalError>
    ensures ok { OnOk result (4096 ≤ length (D.seen disk.old)
        → D.seen disk.new ≡ written 4091 (selector_bytes is_standby) (D.seen disk.old)) }
    ensures same { OnOk result (4096 ≤ length (D.seen disk.old)
        → length (D.seen disk.new) ≡ length (D.seen disk.old)) }
    ensures durable { OnOk result (Only (D.seen disk.new) (D.may_leave disk.new)) }
    ensures calm { D.is_clean disk.new ≡ D.is_clean disk.old }
    ensures failed { IfErr result (λ error. error ≡ JournalError.DiskFailed) }
    ensures crash { Follows (SelectorLeft is_standby) (D.may_leave disk.old)
        (D.may_leave disk.new) }
{
    if !disk.may_be_used() {
        return Err(JournalError::DiskFailed);
    }
    if !disk.mixes() {
        return Err(JournalError::DiskFailed);
    }
    let bytes = selector_bytes(is_standby);
    put(disk, 4_091, &bytes)?;
    Ok(())
}

/// What was found of a file: how many steps of it are believed, and what the end of its head says.
#[derive(Clone, Copy)]
pub struct Found {
    pub steps: usize,
    pub is_standby: bool,
}

/// Reads the head of a file. A file that never had a whole head gets one; any other isn't changed.
pub fn find<D: Disk>(alloc: Global, disk: &mut D) -> Result<Found, JournalError>
    requires { IsTrue (D.is_usable disk.old) }
    ensures headed { IfOk result
        (λ found. IsTrue (D.is_clean disk.new) → IsHeaded (D.seen disk.new) found.steps) }
    ensures bound { IfOk result (λ found. found.steps ≤ 2037) }
    ensures other { IfOk result (λ found. IsTrue (D.is_clean disk.new)
        → found.is_standby ≡ other_counts (D.seen disk.new)) }
    ensures same { IsTrue (D.is_clean disk.new)
        → SameSelector (D.seen disk.old) (D.seen disk.new) }
    ensures durable { OnOk result (Only (D.seen disk.new) (D.may_leave disk.new)) }
    ensures crash { IsTrue (D.is_clean disk.new) → (c : List ℕ) → D.may_leave disk.new c
        → (D.may_leave disk.old c) ⊎ SameSelector (D.seen disk.old) c }
    ensures changed { IsTrue (D.is_clean disk.new)
        → (D.seen disk.new ≡ D.seen disk.old) ⊎ (is_blank (D.seen disk.old) ≡ true) }
    ensures unknown { IsErrOf result JournalError.UnknownFormat → IsTrue (D.is_clean disk.new)
        → (is_blank (D.seen disk.old) ≡ false)
        × (is_first_line (take 17 (D.seen disk.old)) ≡ false) }
    ensures damaged { IsErrOf result JournalError.Damaged → IsTrue (D.is_clean disk.new)
        → (is_first_line (take 17 (D.seen disk.old)) ≡ true)
        × ((steps : ℕ) → IsHeaded (D.seen disk.old) steps → ⊥) }
    ensures clean { IsTrue (D.is_clean disk.new) → IsTrue (D.is_clean disk.old) }
{
    let steps = open_disk(alloc, disk)?;
    let said = read_selector(disk)?;
    Ok(Found {
        steps,
        is_standby: said.is_standby,
    })
}

/// Puts into the head of the first file which one counts. A file without the end of a head isn't
/// changed.
pub fn select<D: Disk>(disk: &mut D, is_standby: bool) -> Result<(), JournalError>
    ensures selector { OnOk result (IsTrue (D.is_clean disk.new)
        → HasSelector is_standby (D.seen disk.new)) }
    ensures whole { OnOk result (IsTrue (D.is_clean disk.new)
        → selector_of (D.seen disk.new) ≡ selector_bytes is_standby) }
    ensures left { OnOk result (IsTrue (D.is_clean disk.new)
        → SelectorLeft is_standby (D.seen disk.old) (D.seen disk.new)) }
    ensures durable { OnOk result (Only (D.seen disk.new) (D.may_leave disk.new)) }
    ensures failed { IfErr result (λ error. error ≡ JournalError.DiskFailed) }
    ensures clean { IsTrue (D.is_clean disk.new) → IsTrue (D.is_clean disk.old) }
    ensures crash { Follows (SelectorLeft is_standby) (D.may_leave disk.old)
        (D.may_leave disk.new) }
{
    let said = read_selector(disk)?;
    let is_ended = said.is_ended;
    if !is_ended {
        return Err(JournalError::DiskFailed);
    }
    put_selector(disk, is_standby)?;
    Ok(())
}

/// Whether the other file counts, by the head of the first one, where that has a head. It isn't
/// changed.
pub fn selects<D: Disk>(disk: &mut D) -> Result<bool, JournalError>
    ensures other { IfOk result (λ is_standby. IsTrue (D.is_clean disk.new)
        → is_standby ≡ other_counts (D.seen disk.old)) }
    ensures failed { IfErr result (λ error. error ≡ JournalError.DiskFailed) }
    ensures clean { IsTrue (D.is_clean disk.new) → IsTrue (D.is_clean disk.old) }
    ensures seen { D.seen disk.new ≡ D.seen disk.old }
    ensures crash { (c : List ℕ) → D.may_leave disk.new c → D.may_leave disk.old c }
{
    let said = read_selector(disk)?;
    let is_standby = said.is_standby;
    Ok(is_standby)
}
