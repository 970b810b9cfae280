//! What keeps the lines that may have changed a service.
ghost use Rattle.std.specs.Prelude.{◌≡◌, ◌++◌, ◌∷◌, [], List, ℕ, Bool, true, Option, IsTrue, IfOk, IfErr, OnOk};
ghost use Rattle.line_loop.specs.Modes.{room_of};
ghost use Rattle.line_loop.specs.Runs.{EndsAnswering, FindsOnly, FindsEither};

use crate::{Mode, RunError};

/// A log of lines. A crash is read as a moment from which on each call fails and changes nothing: so
/// what a start may find after a crash in the middle of a call is what `may_find` says when the call
/// has returned, be it with an error.
pub trait LineLog {
    /// Whether it keeps lines at all. One that doesn't never fails and is never due.
    ghost keeps: { Bool };

    /// It has kept these lines, and those wait.
    ghost holds: { Self → List (List ℕ) → List (List ℕ) → Type 0 };

    /// No line waits.
    ghost settled: { Self → Type 0 };

    /// After a crash at this moment a start may find these lines; or damage.
    ghost may_find: { Self → Option (List (List ℕ)) → Type 0 };

    /// It has room for lines of this number of bytes.
    ghost has_room: { Self → ℕ → Type 0 };

    /// Makes room for the lines of a block, and returns which lines there is room for.
    fn make_room(&mut self) -> Result<Mode, RunError>
        ensures ok { OnOk result ((kept waiting : List (List ℕ)) → holds self.old kept waiting
            → holds self.new kept waiting) }
        ensures room { IfOk result (λ mode. has_room self.new (room_of mode)) }
        ensures settled { settled self.old → OnOk result (settled self.new) }
        ensures crash { (kept waiting : List (List ℕ)) → holds self.old kept waiting
            → FindsOnly kept (may_find self.new) }
        ensures error { IfErr result (EndsAnswering keeps) };

    /// Takes memory for a line and the end of its group before the line is done, and returns whether
    /// there was enough.
    fn reserve(&mut self, line: &[u8]) -> bool
        ensures same { (kept waiting : List (List ℕ)) → holds self.old kept waiting
            → holds self.new kept waiting };

    /// Puts a line behind those that wait.
    fn append(&mut self, line: &[u8]) -> Result<(), RunError>
        ensures ok { OnOk result ((kept waiting : List (List ℕ)) → holds self.old kept waiting
            → holds self.new kept (waiting ++ line.now ∷ [])) }
        ensures crash { (kept waiting : List (List ℕ)) → holds self.old kept waiting
            → FindsOnly kept (may_find self.new) }
        ensures error { IfErr result (EndsAnswering keeps) };

    /// Keeps the lines that wait. A crash in the middle leaves all of them or none.
    fn commit(&mut self) -> Result<(), RunError>
        ensures ok { OnOk result ((kept waiting : List (List ℕ)) → holds self.old kept waiting
            → holds self.new (kept ++ waiting) []) }
        ensures settled { OnOk result (settled self.new) }
        ensures crash { (kept waiting : List (List ℕ)) → holds self.old kept waiting
            → FindsEither kept (kept ++ waiting) (may_find self.new) }
        ensures error { IfErr result (EndsAnswering keeps) };

    /// Returns whether a checkpoint is due, so that the run stops and the log is made shorter: the log
    /// is long, or a start takes longer for this work than for the bytes of the log.
    fn is_due(&self, work: u128) -> bool
        ensures { result ≡ true → IsTrue keeps };

    /// What it keeps is found whatever comes, and nothing else.
    ghost found: { (log : Self) (kept waiting : List (List ℕ)) → holds log kept waiting
        → FindsOnly kept (may_find log) };
}
