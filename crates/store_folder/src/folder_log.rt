//! The two files of a folder as the log of a run.
ghost use Rattle.std.specs.Prelude.{◌≡◌, ◌≤◌, ◌-◌, List, ℕ, length, Bool, true, IsTrue, IfErr, OnOk};
ghost use Rattle.journal.specs.Reading.{found, sound};
ghost use Rattle.journal.specs.Groups.{HasGroups};
ghost use Rattle.line_loop.specs.Modes.{room_of};
ghost use Rattle.line_loop.specs.Runs.{EndsAnswering};

use crate::carded::{Carded, Page};
use crate::counting::Counting;
use journal::{Journal, JournalError, Log, Note};
use line_loop::{LineLog, Mode, RunError};
use sqlite_disk::Disk;
use std::marker::Brand;

// The lines of a block and a pair of commit lines take no more than this. Each time that replies
// don't wait for the end of the block there is one pair more, of 166 bytes.
const BLOCK_ROOM: usize = 135_168;

// The last MiB is left to lines that don't add.
const LAST_ROOM: usize = 1 << 20;

// A line feed, and both commit lines of a group.
const LINE_END: usize = 167;

/// What was read before a run. Only proofs know it.
pub trait Earlier {
    /// No read of either file had answered what isn't there.
    ghost was_clean: { Bool };
}

impl Earlier for Brand {
    ghost was_clean = { true };
}

/// The journal of the file that counts, and the other file, which a run leaves as it is. A run only
/// writes: if no read answers what isn't there now, none had when it began.
#[derive(Drop)]
pub struct FolderLog<E: Counting + Drop, D: Disk + Drop, K: Page + Earlier> {
    pub journal: Journal<Carded<E, K>>,
    /// What the page of the file that counts says of it.
    pub card: Note,
    /// The sum before its first group.
    pub first: [u8; 64],
    /// The second file counts, not the first.
    pub is_second: bool,
    /// The file that doesn't count.
    pub spare: D,
    /// The length in bytes behind which a run stops.
    pub due_at: usize,
    ghost reads: { IsTrue (E.Log.is_clean journal.log.log) → IsTrue (D.Disk.is_clean spare)
        → IsTrue K.was_clean },
}

// Returns how much room a journal has, or 0 if it doesn't know.
fn room_in<E: Log + Drop>(journal: &Journal<E>) -> usize
    ensures { IsTrue (E.Log.is_clean journal.now.log)
        → result ≤ length (E.Log.text journal.now.log) - journal.now.end }
{
    match journal.room() {
        Ok(room) => room,
        Err(_) => 0,
    }
}

// Makes a journal larger, if it has less room than lines of any kind want. It isn't an error that
// the journal can't grow.
fn make_larger<E: Log + Drop>(journal: &mut Journal<E>) -> Result<(), RunError>
    ensures ok { OnOk result ((first : List ℕ) (groups : List (List (List ℕ)))
        → IsTrue (E.Log.is_clean journal.old.log)
        → HasGroups (E.Log.text journal.old.log)
        (E.Log.may_leave journal.old.log) journal.old.last journal.old.end first groups
        → HasGroups (E.Log.text journal.new.log)
        (E.Log.may_leave journal.new.log) journal.new.last journal.new.end first groups) }
    ensures crash { (first : List ℕ) (groups : List (List (List ℕ)))
        → IsTrue (E.Log.is_clean journal.old.log)
        → HasGroups (E.Log.text journal.old.log)
        (E.Log.may_leave journal.old.log) journal.old.last journal.old.end first groups
        → (c : List ℕ) → E.Log.may_leave journal.new.log c → found first c ≡ sound groups }
    ensures waits { journal.new.pending.items ≡ journal.old.pending.items }
    ensures calm { E.Log.is_clean journal.new.log ≡ E.Log.is_clean journal.old.log }
    ensures error { IfErr result (EndsAnswering true) }
{
    if room_in(journal) >= LAST_ROOM + BLOCK_ROOM {
        return Ok(());
    }
    match journal.grow() {
        Ok(()) => Ok(()),
        Err(JournalError::DiskFailed) => Err(RunError::LogFailed),
        Err(_) => Ok(()),
    }
}

// Returns which lines so many bytes are room for.
fn mode_of(room: usize) -> Mode
    ensures { room_of result ≤ room }
{
    if room >= LAST_ROOM + BLOCK_ROOM {
        return Mode::AllLines;
    }
    if room >= BLOCK_ROOM {
        return Mode::NoAdditions;
    }
    Mode::ReadOnly
}

impl<E: Counting + Drop, D: Disk + Drop, K: Page + Earlier> LineLog for FolderLog<E, D, K> {
    ghost use Rattle.std.specs.Prelude.{◌≡◌, ◌≤◌, ◌-◌, [], length, drop, true, IsTrue};
    ghost use Rattle.journal.specs.Growth.{Behind};
    ghost use Rattle.store_folder.specs.Folders.{MayTell};
    ghost use Rattle.store_folder.specs.Logs.{HasFolder};

    ghost keeps = { true };

    ghost holds = { λ f kept waiting. HasFolder K.page f.card f.is_second f.first
        (E.Log.is_clean f.journal.log.log) (drop 4096 (E.Log.text f.journal.log.log))
        (Behind 4096 (E.Log.may_leave f.journal.log.log)) (E.Counting.leaves f.journal.log.log)
        (D.Disk.may_leave f.spare) f.journal.last f.journal.end f.journal.pending.items kept
        waiting };

    ghost settled = { λ f. f.journal.pending.items ≡ [] };

    ghost may_find = { λ f. MayTell f.is_second (E.Counting.leaves f.journal.log.log)
        (D.Disk.may_leave f.spare) };

    ghost has_room = { λ f room. IsTrue (E.Log.is_clean f.journal.log.log)
        → room ≤ length (drop 4096 (E.Log.text f.journal.log.log)) - f.journal.end };

    // One step of the file may be less than is wanted, where there was little room.
    fn make_room(&mut self) -> Result<Mode, RunError> {
        make_larger(&mut self.journal)?;
        make_larger(&mut self.journal)?;
        Ok(mode_of(room_in(&self.journal)))
    }

    fn reserve(&mut self, line: &[u8]) -> bool {
        self.journal.pending.reserve(line.len() + LINE_END).is_ok()
    }

    fn append(&mut self, line: &[u8]) -> Result<(), RunError> {
        match self.journal.push(line) {
            Ok(()) => Ok(()),
            Err(_) => Err(RunError::LogFailed),
        }
    }

    fn commit(&mut self) -> Result<(), RunError> {
        match self.journal.commit() {
            Ok(()) => Ok(()),
            Err(_) => Err(RunError::LogFailed),
        }
    }

    fn is_due(&self, work: u128) -> bool {
        self.journal.end > self.due_at || work > self.journal.end as u128
    }

    ghost found = { λ f kept waiting has. has.only };
}
