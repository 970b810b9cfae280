//! A journal on a disk as a log.
ghost use Rattle.std.specs.Prelude.{◌≡◌, ◌≤◌, ◌-◌, List, ℕ, length, true, IsTrue, IfErr, OnOk};
ghost use Rattle.journal.specs.Reading.{found, sound};
ghost use Rattle.journal.specs.Groups.{HasGroups};
ghost use Rattle.line_loop.specs.Modes.{room_of};
ghost use Rattle.line_loop.specs.Runs.{EndsAnswering};

use crate::{LineLog, Mode, RunError};
use journal::{Journal, JournalError, Log};

/// The lines of a block and a pair of commit lines take no more than this. Each time that replies
/// don't wait for the end of the block there is one pair more, of 166 bytes.
const BLOCK_ROOM: usize = 135_168;

/// The last MiB is left to lines that don't add.
const LAST_ROOM: usize = 1 << 20;

/// A line feed, and both commit lines of a group.
const LINE_END: usize = 167;

/// A journal, its first sum, and the length in bytes behind which the run stops.
#[derive(Drop)]
pub struct JournalLog<D: Log + Drop> {
    pub journal: Journal<D>,
    pub first: [u8; 64],
    pub due_at: usize,
}

// Returns how much room a journal has, or 0 if it doesn't know.
fn room_in<D: Log + Drop>(journal: &Journal<D>) -> usize
    ensures { IsTrue (D.is_clean journal.now.log)
        → result ≤ length (D.text journal.now.log) - journal.now.end }
{
    match journal.room() {
        Ok(room) => room,
        Err(_) => 0,
    }
}

// Makes a journal larger, if it has less room than lines of any kind want. It isn't an error that
// the journal can't grow.
fn make_larger<D: Log + Drop>(journal: &mut Journal<D>) -> Result<(), RunError>
    ensures ok { OnOk result ((first : List ℕ) (groups : List (List (List ℕ)))
        → IsTrue (D.is_clean journal.old.log)
        → HasGroups (D.text journal.old.log)
        (D.may_leave journal.old.log) journal.old.last journal.old.end first groups
        → HasGroups (D.text journal.new.log)
        (D.may_leave journal.new.log) journal.new.last journal.new.end first groups) }
    ensures crash { (first : List ℕ) (groups : List (List (List ℕ)))
        → IsTrue (D.is_clean journal.old.log)
        → HasGroups (D.text journal.old.log)
        (D.may_leave journal.old.log) journal.old.last journal.old.end first groups
        → (c : List ℕ) → D.may_leave journal.new.log c → found first c ≡ sound groups }
    ensures waits { journal.new.pending.items ≡ journal.old.pending.items }
    ensures calm { D.is_clean journal.new.log ≡ D.is_clean journal.old.log }
    ensures error { IfErr result (EndsAnswering true) }
{
    if room_in(journal) >= LAST_ROOM + BLOCK_ROOM {
        return Ok(());
    }
    match journal.grow() {
        Ok(()) => Ok(()),
        Err(JournalError::DiskFailed) => Err(RunError::LogFailed),
        Err(_) => Ok(()),
    }
}

// Returns which lines so many bytes are room for.
fn mode_of(room: usize) -> Mode
    ensures { room_of result ≤ room }
{
    if room >= LAST_ROOM + BLOCK_ROOM {
        return Mode::AllLines;
    }
    if room >= BLOCK_ROOM {
        return Mode::NoAdditions;
    }
    Mode::ReadOnly
}

impl<D: Log + Drop> LineLog for JournalLog<D> {
    ghost use Rattle.std.specs.Prelude.{◌≡◌, ◌≤◌, ◌-◌, [], length, true, IsTrue};
    ghost use Rattle.line_loop.specs.JournalLines.{HasLines, MayFind};

    ghost keeps = { true };

    ghost holds = { λ l kept waiting. HasLines l.first (D.Log.is_clean l.journal.log)
        (D.Log.text l.journal.log) (D.Log.may_leave l.journal.log) l.journal.last l.journal.end
        l.journal.pending.items kept waiting };

    ghost settled = { λ l. l.journal.pending.items ≡ [] };

    ghost may_find = { λ l. MayFind l.first (D.Log.may_leave l.journal.log) };

    ghost has_room = { λ l room. IsTrue (D.Log.is_clean l.journal.log)
        → room ≤ length (D.Log.text l.journal.log) - l.journal.end };

    // One step of the file may be less than is wanted, where there was little room.
    fn make_room(&mut self) -> Result<Mode, RunError> {
        make_larger(&mut self.journal)?;
        make_larger(&mut self.journal)?;
        Ok(mode_of(room_in(&self.journal)))
    }

    fn reserve(&mut self, line: &[u8]) -> bool {
        self.journal.pending.reserve(line.len() + LINE_END).is_ok()
    }

    fn append(&mut self, line: &[u8]) -> Result<(), RunError> {
        match self.journal.push(line) {
            Ok(()) => Ok(()),
            Err(_) => Err(RunError::LogFailed),
        }
    }

    fn commit(&mut self) -> Result<(), RunError> {
        match self.journal.commit() {
            Ok(()) => Ok(()),
            Err(_) => Err(RunError::LogFailed),
        }
    }

    fn is_due(&self, work: u128) -> bool {
        self.journal.end > self.due_at || work > self.journal.end as u128
    }

    ghost found = { λ l kept waiting has. has.only };
}
