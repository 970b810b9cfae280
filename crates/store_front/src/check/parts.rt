//! A session's part of the log, beside its list.
ghost use Rattle.std.specs.Prelude.{◌≡◌, ◌↔◌, IsTrue, Some, slice_get, MatchOption};
ghost use Rattle.store_front.specs.Entries.{event_of, answer_of};
ghost use Rattle.store_front.specs.Parts.{session_entry_of, part, DifferFirst, IsPart};

use crate::event::entry::{Entry, SessionEntry};
use crate::event::event::{Answer, Event};
use crate::session::Session;
use meta_types::Reply;
use std::sync::ledger::Ledger;

impl Event {
    /// Whether the two are the same.
    pub fn is(&self, other: &Event) -> bool
        ensures { IsTrue result ↔ (event_of self.now ≡ event_of other.now) }
    {
        match (self, other) {
            (Event::Requested(one), Event::Requested(two)) => one.get().is(two.get()),
            (Event::Collect(at, dry, workers), Event::Collect(moment, only, number)) => {
                at == moment && dry == only && workers == number
            }
            (
                Event::RemoveCollect(removal, at, workers),
                Event::RemoveCollect(other, moment, number),
            ) => removal.get().is(other.get()) && at == moment && workers == number,
            _ => false,
        }
    }
}

impl Answer {
    /// Whether the two are the same.
    pub fn is(&self, other: &Answer) -> bool
        ensures { IsTrue result ↔ (answer_of self.now ≡ answer_of other.now) }
    {
        match (self, other) {
            (Answer::Done, Answer::Done) => true,
            (Answer::Done, Answer::Answered(two)) => two.get().is(&Reply::Done),
            (Answer::Answered(one), Answer::Done) => one.get().is(&Reply::Done),
            (Answer::Answered(one), Answer::Answered(two)) => one.get().is(two.get()),
            (Answer::Reported(one), Answer::Reported(two)) => one.get().is(two.get()),
            (Answer::Refused(one), Answer::Refused(two)) => one == two,
            _ => false,
        }
    }
}

impl SessionEntry {
    /// Whether it is the entry's event and answer.
    pub fn is_of(&self, entry: &Entry) -> bool
        ensures { IsTrue result ↔ (self.now ≡ session_entry_of entry.now) }
    {
        self.event.is(&entry.event) && self.answer.is(&entry.answer)
    }
}

// Whether the entry stands at this place of a list.
pub(crate) fn stands_at(list: &[SessionEntry], place: usize, entry: &Entry) -> bool
    ensures { IsTrue result ↔ (slice_get list.now place ≡ Some (session_entry_of entry.now)) }
{
    if place < list.len() {
        list[place].is_of(entry)
    } else {
        false
    }
}

// Where the list and the part of the log differ first.
fn mismatch(number: u32, list: &[SessionEntry], log: &[Entry]) -> Option<usize>
    ensures { MatchOption result (part number log.now ≡ list.now)
        (DifferFirst (part number log.now) list.now) }
{
    let mut next = 0;
    for entry in log {
        if entry.session != number {
            continue;
        }
        if !stands_at(list, next, entry) {
            return Some(next);
        }
        next += 1;
    }
    if next == list.len() { None } else { Some(next) }
}

impl<L: Ledger> Session<L> {
    // Where its list and its part of the log differ first.
    pub(crate) fn mismatch(&self, log: &[Entry]) -> Option<usize>
        ensures { MatchOption result (IsPart log.now self.now)
            (DifferFirst (part self.now.number log.now) self.now.list) }
    {
        mismatch(self.number, &self.list, log)
    }
}
