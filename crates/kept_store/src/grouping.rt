//! Puts lines into a journal in groups, and makes room for these.
ghost use Rattle.std.specs.Prelude.{◌≡◌, [], List, ℕ, IsTrue, OnOk};
ghost use Rattle.journal.specs.Groups.{HasGroups};
ghost use Rattle.kept_store.specs.Checkpoints.{Drafts};

use crate::CheckpointError;
use crate::error::journal_error;
use journal::{Journal, Log};

/// The most bytes that the lines of a group take with their commit lines, but for a line that is
/// longer alone.
const GROUP: usize = 1 << 20;

/// Two commit lines, each with its line feed.
const COMMITS: usize = 166;

// Whether a journal has room for so many bytes.
fn has_room<E: Log + Drop>(journal: &Journal<E>, bytes: usize) -> Result<bool, CheckpointError> {
    match journal.room() {
        Ok(room) => Ok(room >= bytes),
        Err(error) => Err(journal_error(error)),
    }
}

// Makes the file larger.
fn grow<E: Log + Drop>(journal: &mut Journal<E>) -> Result<(), CheckpointError>
    ensures ok { OnOk result ((first : List ℕ) (groups : List (List (List ℕ)))
        → IsTrue (E.is_clean journal.old.log)
        → HasGroups (E.text journal.old.log)
        (E.may_leave journal.old.log) journal.old.last journal.old.end first groups
        → HasGroups (E.text journal.new.log)
        (E.may_leave journal.new.log) journal.new.last journal.new.end first groups) }
    ensures waits { journal.new.pending.items ≡ journal.old.pending.items }
    ensures calm { E.is_clean journal.new.log ≡ E.is_clean journal.old.log }
{
    match journal.grow() {
        Ok(()) => Ok(()),
        Err(error) => Err(journal_error(error)),
    }
}

// Whether there is room for so many bytes. Where there is none, the file is made larger.
fn has_grown<E: Log + Drop>(journal: &mut Journal<E>, bytes: usize) -> Result<bool, CheckpointError>
    ensures ok { OnOk result ((first : List ℕ) (groups : List (List (List ℕ)))
        → IsTrue (E.is_clean journal.old.log)
        → HasGroups (E.text journal.old.log)
        (E.may_leave journal.old.log) journal.old.last journal.old.end first groups
        → HasGroups (E.text journal.new.log)
        (E.may_leave journal.new.log) journal.new.last journal.new.end first groups) }
    ensures waits { journal.new.pending.items ≡ journal.old.pending.items }
    ensures calm { E.is_clean journal.new.log ≡ E.is_clean journal.old.log }
{
    let has_room = has_room(journal, bytes)?;
    if has_room {
        return Ok(true);
    }
    grow(journal)?;
    Ok(false)
}

// Makes room for the lines that wait. A growth is of one byte at least.
fn make_room<E: Log + Drop>(journal: &mut Journal<E>) -> Result<(), CheckpointError>
    ensures ok { OnOk result ((first : List ℕ) (groups : List (List (List ℕ)))
        → IsTrue (E.is_clean journal.old.log)
        → HasGroups (E.text journal.old.log)
        (E.may_leave journal.old.log) journal.old.last journal.old.end first groups
        → HasGroups (E.text journal.new.log)
        (E.may_leave journal.new.log) journal.new.last journal.new.end first groups) }
    ensures waits { journal.new.pending.items ≡ journal.old.pending.items }
    ensures calm { E.is_clean journal.new.log ≡ E.is_clean journal.old.log }
{
    let bytes = journal.pending.len().saturating_add(COMMITS);
    'growing: for _ in 0..bytes {
        let has_grown = has_grown(journal, bytes)?;
        if has_grown {
            return Ok(());
        }
    }
    Err(CheckpointError::Full)
}

/// Commits the lines that wait.
pub(crate) fn settle<E: Log + Drop>(journal: &mut Journal<E>) -> Result<(), CheckpointError>
    ensures ok { OnOk result ((first : List ℕ) → IsTrue (E.is_clean journal.old.log)
        → Drafts first (E.text journal.old.log) (E.may_leave journal.old.log) journal.old.last
        journal.old.end journal.old.pending.items
        → Drafts first (E.text journal.new.log) (E.may_leave journal.new.log) journal.new.last
        journal.new.end journal.new.pending.items) }
    ensures empty { OnOk result (journal.new.pending.items ≡ []) }
    ensures calm { E.is_clean journal.new.log ≡ E.is_clean journal.old.log }
{
    make_room(journal)?;
    match journal.commit() {
        Ok(()) => {}
        Err(error) => return Err(journal_error(error)),
    }
    Ok(())
}

// Whether lines of so many bytes, and one more, are too many for a group.
fn is_full(pending: usize, line: usize) -> bool {
    pending.saturating_add(line).saturating_add(1 + COMMITS) > GROUP
}

// Commits the lines that wait where one more is too many for their group.
fn settle_full<E: Log + Drop>(journal: &mut Journal<E>, line: &[u8]) -> Result<(), CheckpointError>
    ensures ok { OnOk result ((first : List ℕ) → IsTrue (E.is_clean journal.old.log)
        → Drafts first (E.text journal.old.log) (E.may_leave journal.old.log) journal.old.last
        journal.old.end journal.old.pending.items
        → Drafts first (E.text journal.new.log) (E.may_leave journal.new.log) journal.new.last
        journal.new.end journal.new.pending.items) }
    ensures calm { E.is_clean journal.new.log ≡ E.is_clean journal.old.log }
{
    if !is_full(journal.pending.len(), line.len()) {
        return Ok(());
    }
    settle(journal)?;
    Ok(())
}

// Puts a line behind those that wait.
fn push<E: Log + Drop>(journal: &mut Journal<E>, line: &[u8]) -> Result<(), CheckpointError>
    ensures ok { OnOk result ((first : List ℕ)
        → Drafts first (E.text journal.old.log) (E.may_leave journal.old.log)
        journal.old.last journal.old.end journal.old.pending.items
        → Drafts first (E.text journal.new.log) (E.may_leave journal.new.log) journal.new.last
        journal.new.end journal.new.pending.items) }
    ensures calm { E.is_clean journal.new.log ≡ E.is_clean journal.old.log }
{
    match journal.push(line) {
        Ok(()) => {}
        Err(error) => return Err(journal_error(error)),
    }
    Ok(())
}

/// Puts a line behind those that wait, or begins a group with it.
pub(crate) fn put_line<E: Log + Drop>(
    journal: &mut Journal<E>,
    line: &[u8],
) -> Result<(), CheckpointError>
    ensures ok { OnOk result ((first : List ℕ) → IsTrue (E.is_clean journal.old.log)
        → Drafts first (E.text journal.old.log) (E.may_leave journal.old.log) journal.old.last
        journal.old.end journal.old.pending.items
        → Drafts first (E.text journal.new.log) (E.may_leave journal.new.log) journal.new.last
        journal.new.end journal.new.pending.items) }
    ensures calm { E.is_clean journal.new.log ≡ E.is_clean journal.old.log }
{
    settle_full(journal, line)?;
    push(journal, line)?;
    Ok(())
}
