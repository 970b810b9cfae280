//! Whether sessions fit the log.
ghost use Rattle.std.specs.Prelude.{◌≡◌, ◌<◌, ◌==◌, All, OnOk, IfErr, IfOk, MatchOption, None, count_by, length, slice_index_or};
ghost use Rattle.meta_types.specs.Faults.{Refuses};
ghost use Rattle.store_front.specs.SessionEntries.{Seat};
ghost use Rattle.store_front.specs.Finish.{AreEach, AreOfThese, OneDiffers, FinishFails};
ghost use Rattle.store_front.specs.Parts.{IsPart, AreOpened};
ghost use Rattle.store_front.specs.Cursors.{AreEnded, IsShort};

use crate::check::numbers::are_each;
use crate::check::parts::stands_at;
use crate::event::entry::Entry;
use crate::session::Session;
use meta_types::Fault;
use std::alloc::Global;
use std::sync::ledger::Ledger;

// Whether the sessions are all that were opened, and the list of each is its part of the log.
pub(crate) fn check_sessions<L: Ledger>(
    alloc: Global,
    opened: u32,
    sessions: &[Session<L>],
    log: &[Entry],
) -> Result<(), Fault>
    requires { AreOpened opened log.now }
    ensures own { OnOk result (All (IsPart log.now) sessions.now) }
    ensures all { OnOk result (AreEach opened sessions.now) }
    ensures err { IfErr result (λ f. FinishFails f opened log.now sessions.now) }
{
    if !are_each(opened, sessions) {
        return Err(Fault::InvalidArgument);
    }
    let Ok(found) = first_mismatch(alloc, sessions, log) else {
        return Err(Fault::OutOfMemory);
    };
    match found {
        Some(place) => Err(Fault::Mismatch {
            place: place as u64,
        }),
        None => Ok(()),
    }
}

// Where a session's list and its part of the log differ first, if one does: one pass over the log,
// with the place in each list.
fn first_mismatch<L: Ledger>(
    alloc: Global,
    sessions: &[Session<L>],
    log: &[Entry],
) -> Result<Option<usize>, Fault>
    requires { AreOfThese log.now sessions.now }
    ensures fault { Refuses result None }
    ensures ok { IfOk result (λ r. MatchOption r (All (IsPart log.now) sessions.now)
        (OneDiffers log.now sessions.now)) }
{
    let mut next = Vec::from_elem(alloc, 0usize, sessions.len())?;
    for entry in log {
        let place = place_of(sessions, entry.session);
        let session = &sessions[place];
        let list = session.list();
        let at = next[place];
        // It tells the check that the next place fits.
        let _ = list.len();
        if !stands_at(list, at, entry) {
            return Ok(Some(at));
        }
        next[place] = at + 1;
    }
    Ok(first_longer(sessions, &next))
}

// The place of the session with this number: that of the number itself, where they are in order.
fn place_of<L: Ledger>(sessions: &[Session<L>], number: u32) -> usize
    requires { 0 < count_by (λ s. s.number == number) sessions.now }
    ensures inside { result < length sessions.now }
    ensures number { (d : Seat) → (slice_index_or sessions.now result d).number ≡ number }
{
    let own = number as usize;
    if own < sessions.len() && sessions[own].number() == number {
        return own;
    }
    for place in 0..sessions.len() {
        if sessions[place].number() == number {
            return place;
        }
    }
    0
}

// The `next` of the first list that goes on there.
fn first_longer<L: Ledger>(sessions: &[Session<L>], next: &[usize]) -> Option<usize>
    requires { length next.now ≡ length sessions.now }
    ensures { MatchOption result (AreEnded sessions.now next.now) (IsShort sessions.now next.now) }
{
    for place in 0..sessions.len() {
        let session = &sessions[place];
        let at = next[place];
        if at != session.list().len() {
            return Some(at);
        }
    }
    None
}
