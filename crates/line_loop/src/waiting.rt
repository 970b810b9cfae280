//! What waits between two reads of a run.
ghost use Rattle.std.specs.Prelude.{◌≡◌, ◌≤◌, ℕ, List, [], length, take, IfOk, IfErr, OnOk, false};
ghost use Rattle.line_loop.specs.Reads.{longer_line, cut_long};
ghost use Rattle.line_loop.specs.Runs.{EndsAnswering, FindsOnly};
ghost use Rattle.line_loop.specs.Modes.{room_of};

use crate::{LineLog, Mode, RunError};
use meta_types::LINE_LIMIT;
use std::alloc::{AllocError, Global};

/// A line that is longer is cut to this length: so much tells that it is too long.
const LINE_ROOM: usize = LINE_LIMIT + 1;

/// The replies to the lines of a block have room, but for long ones.
const REPLIES_ROOM: usize = 131_072;

/// A line as far as it was read, the replies that aren't written yet, and which lines are done.
#[derive(Drop)]
pub struct Waiting {
    pub line: Vec<u8>,
    pub replies: Vec<u8>,
    pub mode: Mode,
}

impl Waiting {
    /// Nothing waits. There is room for the longest line, and for replies.
    pub fn new(alloc: Global) -> Result<Waiting, AllocError>
        ensures empty { IfOk result (λ waiting. (waiting.line.items ≡ [])
            × (waiting.replies.items ≡ [])) }
    {
        let line = Vec::with_capacity(alloc, LINE_ROOM)?;
        let replies = Vec::with_capacity(alloc, REPLIES_ROOM)?;
        Ok(Waiting {
            line,
            replies,
            mode: Mode::AllLines,
        })
    }

    /// Makes room in the log for a block, before its lines are answered. What room the log then has
    /// says which lines are done.
    pub fn make_room<L: LineLog>(&mut self, log: &mut L) -> Result<(), RunError>
        ensures ok { OnOk result ((kept waiting : List (List ℕ)) → L.holds log.old kept waiting
            → L.holds log.new kept waiting) }
        ensures room { OnOk result (L.has_room log.new (room_of self.new.mode)) }
        ensures crash { (kept waiting : List (List ℕ)) → L.holds log.old kept waiting
            → FindsOnly kept (L.may_find log.new) }
        ensures waits { (self.new.line.items ≡ self.old.line.items)
            × (self.new.replies.items ≡ self.old.replies.items) }
        ensures error { IfErr result (EndsAnswering L.keeps) }
    {
        let mode = log.make_room()?;
        self.mode = mode;
        Ok(())
    }

    /// Forgets the line that was begun, and the replies, since the run failed.
    pub fn forget(&mut self)
        ensures { (self.new.line.items ≡ []) × (self.new.replies.items ≡ []) }
    {
        self.line.clear();
        self.replies.clear();
    }
}

// Returns as much of a piece as there is room for.
fn front_of(piece: &[u8], room: usize) -> &[u8]
    ensures { result.now ≡ take room piece.now }
{
    &piece[..piece.len().min(room)]
}

/// Returns as much of a whole line as is answered.
pub fn cut_long(line: &[u8]) -> &[u8]
    ensures { result.now ≡ cut_long line.now }
{
    front_of(line, LINE_ROOM)
}

/// Puts the next piece behind the line that was begun, as far as the line has room.
pub fn add_piece(line: &mut Vec<u8>, piece: &[u8]) -> Result<(), RunError>
    ensures ok { OnOk result (line.new.items ≡ longer_line line.old.items piece.now) }
    ensures error { IfErr result (EndsAnswering false) }
{
    let room = LINE_ROOM.saturating_sub(line.len());
    line.extend_from_slice(front_of(piece, room))?;
    Ok(())
}
