//! A store behind its lock: two sessions, a plan and questions beside the lock, and the history at
//! the end.
ghost use Rattle.std.specs.Prelude.{◌≡◌};

use crate::requests::space;
use backend_sweep::OpenSweepGate;
use meta_types::{Fault, Instant, Object, Reply, ShortName};
use request_core::State;
use std::alloc::Global;
use std::marker::Brand;
use std::sync::Wait;
use std::sync::ledger::{Blank, Ledger};
use std::thread::Threads;
use steal_mark::OpenGate;
use store_front::{Session, Store, finish};

const AT: Instant = Instant(0);

fn is_called<L: Ledger, R: Threads + Wait + Sync>(
    rt: &R,
    alloc: Global,
    store: &Store<L>,
    session: &mut Session<L>,
) -> Result<bool, Fault> {
    let request = space(alloc)?;
    let reply = store.call(rt, alloc, session, request);
    let is_done = matches!(&reply, Ok(Reply::Done));
    // For the prover: dropped by a call, not in place.
    drop(reply);
    Ok(is_done)
}

fn is_collected<L: Ledger, R: Threads + Wait + Sync>(
    rt: &R,
    alloc: Global,
    store: &Store<L>,
    session: &mut Session<L>,
) -> bool {
    let report = store.collect(rt, alloc, session, AT, false, 2, &OpenGate, &OpenSweepGate);
    let is_ok = report.is_ok();
    // For the prover: dropped by a call, not in place.
    drop(report);
    is_ok
}

// Only the call is in the plan's history: nothing was collected yet.
fn is_planned<L: Ledger, R: Threads + Wait + Sync>(
    rt: &R,
    alloc: Global,
    store: &Store<L>,
    session: &Session<L>,
) -> Result<bool, Fault> {
    let planned = store.plan_copy(rt, alloc, session, AT, 2, &OpenGate)?;
    let count = planned.cut.log.len();
    // For the prover: dropped by a call, not in place.
    drop(planned);
    Ok(count == 1)
}

// There is no image to ask for.
fn is_asked<L: Ledger, R: Threads + Wait + Sync>(
    rt: &R,
    alloc: Global,
    store: &Store<L>,
    session: &Session<L>,
) -> Result<bool, Fault> {
    let ns = ShortName::read(alloc, "x")?;
    let object = Object::read(alloc, "images", "i")?;
    let told = store.explain(rt, alloc, session, &ns, &object, AT)?;
    let is_refused = matches!(&told.answer, Err(Fault::NotFound));
    // For the prover: dropped by a call, not in place.
    drop(told);
    let found = store.impact(rt, alloc, session, ns, object, AT)?;
    let is_missing = matches!(&found.answer, Err(Fault::NotFound));
    // For the prover: dropped by a call, not in place.
    drop(found);
    Ok(is_refused && is_missing)
}

fn ends<L: Ledger>(
    alloc: Global,
    store: Store<L>,
    first: Session<L>,
    second: Session<L>,
) -> Result<bool, Fault> {
    let mut sessions = Vec::new(alloc);
    sessions.push(first)?;
    sessions.push(second)?;
    let history = finish(alloc, store, sessions)?;
    let count = history.log.len();
    // For the prover: dropped by a call, not in place.
    drop(history);
    Ok(count == 2)
}

fn are_used<L: Ledger, R: Threads + Wait + Sync>(
    rt: &R,
    alloc: Global,
    store: &Store<L>,
    first: &mut Session<L>,
    second: &mut Session<L>,
) -> Result<bool, Fault> {
    let is_called = is_called(rt, alloc, store, first)?;
    let is_planned = is_planned(rt, alloc, store, first)?;
    let is_asked = is_asked(rt, alloc, store, first)?;
    let is_collected = is_collected(rt, alloc, store, second);
    Ok(is_called && is_planned && is_asked && is_collected)
}

fn calls_named<L: Ledger, R: Threads + Wait + Sync>(
    rt: &R,
    alloc: Global,
    blank: Blank,
) -> Result<bool, Fault>
    requires name { blank.name ≡ L.name }
    requires parts { (blank.parts ≡ L.parts) × (blank.parts ≡ 65536) }
{
    let store = Store::<L>::new(alloc, blank, State::empty(alloc))?;
    let Ok(mut first) = store.session(rt, alloc) else {
        // For the prover: dropped by a call, not in place.
        drop(store);
        return Err(Fault::OutOfMemory);
    };
    let Ok(mut second) = store.session(rt, alloc) else {
        // For the prover: dropped by a call, not in place.
        drop(first);
        drop(store);
        return Err(Fault::OutOfMemory);
    };
    let are_used = are_used(rt, alloc, &store, &mut first, &mut second);
    let is_ended = ends(alloc, store, first, second)?;
    Ok(are_used? && is_ended)
}

/// Adds a namespace in one session, plans and asks beside the lock, collects in another, and ends the
/// store.
pub(crate) fn calls<R: Threads + Wait + Sync>(rt: &R, alloc: Global) -> Result<bool, Fault> {
    calls_named::<Brand, R>(rt, alloc, Blank::new(65536))
}
