//! Accepted lines, each on the disk before it is acknowledged.
ghost use Rattle.std.specs.Prelude.{◌≡◌, ◌≢◌, ◌<◌, ◌-◌, ◌++◌, ◌∷◌, [], List, ℕ, length, IsTrue, IfOk, IfErr, OnOk};
ghost use Rattle.journal.specs.Text.{lines_text, commit_of, IsLine, AreLines};
ghost use Rattle.journal.specs.Reading.{found, sound};
ghost use Rattle.journal.specs.Groups.{HasGroups, GroupsStay, LeavesEither, added};

use crate::line_head::end_of;
use crate::lines::is_line;
use crate::sum::place_of;
use crate::{JournalError, Log, sum_of};

/// A journal, and the lines that are accepted and wait to be committed.
#[derive(Drop)]
pub struct Journal<D: Log + Drop> {
    pub log: D,
    pub last: [u8; 64],
    pub end: usize,
    pub pending: Vec<u8>,
}

// Puts a commit line behind a text.
fn push_commit(text: &mut Vec<u8>, sum: &[u8; 64], place: usize) -> Result<(), JournalError>
    ensures ok { OnOk result
        (text.new.items ≡ text.old.items ++ (commit_of sum.now place ++ 10 ∷ [])) }
{
    let digits = place_of(place);
    text.push(b'#')?;
    text.extend_from_slice(sum)?;
    text.push(b' ')?;
    text.extend_from_slice(&digits)?;
    text.push(b'\n')?;
    Ok(())
}

impl<D: Log + Drop> Journal<D> {
    /// Puts an accepted line behind those that wait. At `Err`, open the file again.
    pub fn push(&mut self, line: &[u8]) -> Result<(), JournalError>
        ensures ok { OnOk result
            (IsLine line.now × (self.new.pending.items
            ≡ self.old.pending.items ++ line.now ++ 10 ∷ [])) }
        ensures same { (self.new.log ≡ self.old.log) × (self.new.last ≡ self.old.last)
            × (self.new.end ≡ self.old.end) }
    {
        if !is_line(line) {
            return Err(JournalError::NoLine);
        }
        self.pending.reserve(line.len() + 1)?;
        self.pending.extend_from_slice(line)?;
        self.pending.push(b'\n')?;
        Ok(())
    }

    /// Commits the lines that wait. At `Ok` they are on the disk, whatever crash comes. A crash in
    /// the middle leaves all of them or none. At `Err`, open the file again.
    pub fn commit(&mut self) -> Result<(), JournalError>
        ensures ok { OnOk result
            ((first : List ℕ) (groups : List (List (List ℕ))) (lines : List (List ℕ))
            → IsTrue (D.is_clean self.old.log)
            → HasGroups (D.text self.old.log)
            (D.may_leave self.old.log) self.old.last self.old.end first groups
            → AreLines lines → self.old.pending.items ≡ lines_text lines
            → HasGroups (D.text self.new.log)
            (D.may_leave self.new.log) self.new.last self.new.end first (added groups lines)) }
        ensures empty { OnOk result (self.new.pending.items ≡ []) }
        ensures calm { D.is_clean self.new.log ≡ D.is_clean self.old.log }
        ensures crash { (first : List ℕ) (groups : List (List (List ℕ))) (lines : List (List ℕ))
            → IsTrue (D.is_clean self.old.log)
            → HasGroups (D.text self.old.log)
            (D.may_leave self.old.log) self.old.last self.old.end first groups
            → AreLines lines → self.old.pending.items ≡ lines_text lines
            → LeavesEither first groups (added groups lines) (D.may_leave self.new.log) }
    {
        if self.pending.is_empty() {
            return Ok(());
        }
        let sum = sum_of(&self.last, &self.pending);
        push_commit(&mut self.pending, &sum, self.end)?;
        push_commit(&mut self.pending, &sum, self.end)?;
        let Some(end) = end_of(self.end, &self.pending) else {
            return Err(JournalError::DiskFailed);
        };
        self.log.put(self.end, &self.pending)?;
        self.last = sum;
        self.end = end;
        self.pending.clear();
        Ok(())
    }

    /// How many bytes of zeros stand behind the groups. The disk isn't asked.
    pub fn room(&self) -> Result<usize, JournalError>
        ensures ok { IfOk result (λ room. IsTrue (D.is_clean self.now.log)
            → room ≡ length (D.text self.now.log) - self.now.end) }
    {
        let size = self.log.size()?;
        Ok(size.saturating_sub(self.end))
    }

    /// Makes room behind the groups. Where that is refused the journal is as it was and goes on,
    /// unless the disk failed; then open the file again. No crash changes what is read.
    pub fn grow(&mut self) -> Result<(), JournalError>
        ensures ok { OnOk result (GroupsStay (D.is_clean self.old.log)
            (HasGroups (D.text self.old.log) (D.may_leave self.old.log) self.old.last self.old.end)
            (HasGroups (D.text self.new.log) (D.may_leave self.new.log) self.new.last
            self.new.end)) }
        ensures larger { OnOk result (IsTrue (D.is_clean self.old.log)
            → length (D.text self.old.log) < length (D.text self.new.log)) }
        ensures refused { IfErr result (λ error. error ≢ JournalError.DiskFailed
            → GroupsStay (D.is_clean self.old.log)
            (HasGroups (D.text self.old.log) (D.may_leave self.old.log) self.old.last self.old.end)
            (HasGroups (D.text self.new.log) (D.may_leave self.new.log) self.new.last
            self.new.end)) }
        ensures same { (self.new.last ≡ self.old.last) × (self.new.end ≡ self.old.end)
            × (self.new.pending ≡ self.old.pending) }
        ensures calm { D.is_clean self.new.log ≡ D.is_clean self.old.log }
        ensures crash { (first : List ℕ) (groups : List (List (List ℕ)))
            → IsTrue (D.is_clean self.old.log)
            → HasGroups (D.text self.old.log)
            (D.may_leave self.old.log) self.old.last self.old.end first groups
            → (c : List ℕ) → D.may_leave self.new.log c → found first c ≡ sound groups }
    {
        self.log.grow()
    }
}
