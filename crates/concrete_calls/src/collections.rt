//! Collections of each kind, on a store with a log and a session. A collection that is refused has
//! to leave the log, the session's list and the records as they were, and the same collection after
//! it has to report what it reports with ample memory. `trials/refusals` runs the program once for
//! each of its growths, which is refused then.
ghost use Rattle.std.specs.Prelude.{◌≡◌};

use crate::filling::{removal, request};
use crate::seen::{Seen, are_same_entries, are_same_records};
use backend_sweep::OpenSweepGate;
use gc_report::Report;
use meta_types::{Fault, Instant, Removal, Request};
use request_core::State;
use std::alloc::Global;
use std::marker::{Brand, Model};
use std::sync::Wait;
use std::sync::ledger::{Blank, Ledger};
use std::thread::Threads;
use steal_mark::OpenGate;
use store_front::{Locked, Session};

// 2024-03-01T00:00:00Z
const AT: Instant = Instant(1709251200000000000);

// ---- a store with its session

#[derive(Drop)]
struct SessionStore<L: Ledger> {
    locked: Locked<L>,
    session: Session<L>,
}

impl<L: Ledger> Model for SessionStore<L> {
    ghost use Rattle.std.specs.Prelude.{◌<◌};
    ghost use Rattle.store_front.specs.Front.{Front};

    ghost Value = { Front };

    ghost view = { λ d. d.locked };

    ghost invariant = { λ d. d.session.number < d.locked.opened };
}

impl<L: Ledger> SessionStore<L> {
    fn open(alloc: Global, blank: Blank) -> Result<SessionStore<L>, Fault>
        requires name { blank.name ≡ L.name }
        requires parts { (blank.parts ≡ L.parts) × (blank.parts ≡ 65536) }
    {
        let mut locked = Locked::open(alloc, blank, State::empty(alloc))?;
        let Ok(session) = locked.session(alloc) else {
            drop(locked); // for the prover: not in place
            return Err(Fault::OutOfMemory);
        };
        Ok(SessionStore { locked, session })
    }

    // Whether the request was answered with a success.
    fn ask(&mut self, alloc: Global, request: Request<'static>) -> bool {
        let reply = self.locked.apply(alloc, &mut self.session, request);
        let is_done = reply.is_ok();
        drop(reply); // for the prover: not in place
        is_done
    }

    fn fill(&mut self, alloc: Global) -> Result<(), Fault> {
        for place in 0..13 {
            let request = request(alloc, place)?;
            if !self.ask(alloc, request) {
                return Err(Fault::OutOfMemory);
            }
        }
        Ok(())
    }

    // The collection of a kind: by one worker, by two, a dry run, the removal of an image and that
    // of a lease.
    fn collect<R: Threads + Wait + Sync>(
        &mut self,
        rt: &R,
        alloc: Global,
        kind: u32,
        removal: Removal<'static>,
    ) -> Result<Report, Fault> {
        let SessionStore { locked, session } = self;
        let (gate, sweep_gate) = (&OpenGate, &OpenSweepGate);
        match kind {
            0 => locked.collect(rt, alloc, session, AT, false, 1, gate, sweep_gate),
            1 => locked.collect(rt, alloc, session, AT, false, 2, gate, sweep_gate),
            2 => locked.collect(rt, alloc, session, AT, true, 2, gate, sweep_gate),
            _ => locked.remove_collect(rt, alloc, session, removal, AT, 2, gate, sweep_gate),
        }
    }

    // The same, and how it was answered: 0 with the report that is expected, 1 refused for want of
    // memory or of a thread, else 2.
    fn tell<R: Threads + Wait + Sync>(
        &mut self,
        rt: &R,
        alloc: Global,
        removal: Removal<'static>,
        expected: &Expected<'_>,
    ) -> u8 {
        let reply = self.collect(rt, alloc, expected.kind, removal);
        let told = number_of(&reply, expected.report);
        drop(reply); // for the prover: not in place
        told
    }

    fn seen(&self, alloc: Global) -> Result<Seen, Fault> {
        let history = self.locked.cut(alloc, &self.session)?;
        match self.locked.records().copy(alloc) {
            Ok(records) => Ok(Seen { history, records }),
            Err(fault) => {
                drop(history); // for the prover: not in place
                Err(fault)
            }
        }
    }
}

// A kind of collection, and the report that it is to give.
#[derive(Drop)]
struct Expected<'r> {
    kind: u32,
    report: &'r Report,
}

fn number_of(reply: &Result<Report, Fault>, expected: &Report) -> u8 {
    match reply {
        Ok(report) => { if report.is(expected) { 0 } else { 2 } }
        Err(Fault::OutOfMemory | Fault::NoWorker) => 1,
        Err(_) => 2,
    }
}

// ---- what a refused collection leaves

fn is_left<L: Ledger>(session_store: &SessionStore<L>, alloc: Global, before: &Seen) -> bool {
    let Ok(now) = session_store.seen(alloc) else {
        return false;
    };
    let is_left = are_same_entries(&now.history.log, &before.history.log)
        && are_same_records(alloc, &now.records, &before.records);
    drop(now); // for the prover: not in place
    is_left
}

// Whether the log has this one entry more.
fn is_entered<L: Ledger>(session_store: &SessionStore<L>, alloc: Global, before: &Seen) -> bool {
    match session_store.locked.cut(alloc, &session_store.session) {
        Ok(history) => {
            let count = history.log.len() as u128;
            drop(history); // for the prover: not in place
            count == before.history.log.len() as u128 + 1
        }
        Err(Fault::OutOfMemory) => true,
        Err(_) => false,
    }
}

// ---- a collection, judged

// What it reports on this store.
fn reported_on<L: Ledger, R: Threads + Wait + Sync>(
    rt: &R,
    alloc: Global,
    session_store: &mut SessionStore<L>,
    kind: u32,
) -> Result<Report, Fault> {
    session_store.fill(alloc)?;
    let removal = removal(alloc, kind)?;
    session_store.collect(rt, alloc, kind, removal)
}

// What it reports on a store of its own.
fn reported<L: Ledger, R: Threads + Wait + Sync>(
    rt: &R,
    alloc: Global,
    blank: Blank,
    kind: u32,
) -> Result<Report, Fault>
    requires name { blank.name ≡ L.name }
    requires parts { (blank.parts ≡ L.parts) × (blank.parts ≡ 65536) }
{
    let mut session_store = SessionStore::<L>::open(alloc, blank)?;
    let reported = reported_on(rt, alloc, &mut session_store, kind);
    drop(session_store); // for the prover: not in place
    reported
}

// 0 where the collection was answered as expected, 1 where it was refused for want of memory or of
// a thread, left all as it was and was answered as expected then; else 2.
fn outcome_on<L: Ledger, R: Threads + Wait + Sync>(
    rt: &R,
    alloc: Global,
    session_store: &mut SessionStore<L>,
    removals: (Removal<'static>, Removal<'static>),
    before: &Seen,
    expected: &Expected<'_>,
) -> u8 {
    let (removal, once_more) = removals;
    let told = session_store.tell(rt, alloc, removal, expected);
    if told == 0 && is_entered(session_store, alloc, before) {
        return 0;
    }
    if told == 1 && is_left(session_store, alloc, before) {
        let again = session_store.tell(rt, alloc, once_more, expected);
        return if again == 0 { 1 } else { 2 };
    }
    2
}

// What a collection of a kind removes beside, twice.
fn two_removals(alloc: Global, kind: u32) -> Result<(Removal<'static>, Removal<'static>), Fault> {
    let once = removal(alloc, kind)?;
    match removal(alloc, kind) {
        Ok(again) => Ok((once, again)),
        Err(fault) => {
            drop(once); // for the prover: not in place
            Err(fault)
        }
    }
}

// The same once the store is filled, and an error where that couldn't be done.
fn judged_on<L: Ledger, R: Threads + Wait + Sync>(
    rt: &R,
    alloc: Global,
    session_store: &mut SessionStore<L>,
    expected: &Expected<'_>,
) -> Result<u8, Fault> {
    session_store.fill(alloc)?;
    let removals = two_removals(alloc, expected.kind)?;
    let before = match session_store.seen(alloc) {
        Ok(before) => before,
        Err(fault) => {
            drop(removals); // for the prover: not in place
            return Err(fault);
        }
    };
    let outcome = outcome_on(rt, alloc, session_store, removals, &before, expected);
    drop(before); // for the prover: not in place
    Ok(outcome)
}

// The same on a store of its own.
fn judged<L: Ledger, R: Threads + Wait + Sync>(
    rt: &R,
    alloc: Global,
    blank: Blank,
    expected: &Expected<'_>,
) -> Result<u8, Fault>
    requires name { blank.name ≡ L.name }
    requires parts { (blank.parts ≡ L.parts) × (blank.parts ≡ 65536) }
{
    let mut session_store = SessionStore::<L>::open(alloc, blank)?;
    let judged = judged_on(rt, alloc, &mut session_store, expected);
    drop(session_store); // for the prover: not in place
    judged
}

// The outcome of one kind of collection.
fn outcome<R: Threads + Wait + Sync>(rt: &R, alloc: Global, kind: u32) -> Result<u8, Fault> {
    let report = reported::<Brand, R>(rt, alloc, Blank::new(65536), kind)?;
    let expected = Expected {
        kind,
        report: &report,
    };
    let judged = judged::<Brand, R>(rt, alloc, Blank::new(65536), &expected);
    drop(report); // for the prover: not in place
    judged
}

/// How many collections went how.
#[derive(Clone, Copy)]
pub(crate) struct Outcomes {
    pub(crate) answered: u32,
    pub(crate) refused: u32,
    /// Answered otherwise, or refused with something changed.
    pub(crate) changed: u32,
}

/// Tries one collection of each kind.
pub(crate) fn calls<R: Threads + Wait + Sync>(rt: &R, alloc: Global) -> Outcomes {
    let mut outcomes = Outcomes {
        answered: 0,
        refused: 0,
        changed: 0,
    };
    for kind in 0..5 {
        match outcome(rt, alloc, kind) {
            Ok(0) => outcomes.answered = outcomes.answered.wrapping_add(1),
            Ok(1) => outcomes.refused = outcomes.refused.wrapping_add(1),
            Ok(_) => outcomes.changed = outcomes.changed.wrapping_add(1),
            Err(_) => {}
        }
    }
    outcomes
}
