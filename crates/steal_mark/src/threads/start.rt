//! A thread for each worker but one.
ghost use Rattle.std.specs.Prelude.{◌≡◌, ◌++◌, ◌∷◌, [], All, IfOk, IfSome, None, map};
ghost use Rattle.steal_mark.specs.Hinting.{IsHintSeat};
ghost use Rattle.steal_mark.specs.Refusing.{RefusesThreads};
ghost use Rattle.steal_mark.specs.Team.{AreWorked, IsKept, IsReady};

use crate::shared::hints::{HintSeat, another, new_hints, stop};
use crate::threads::crew::Crew;
use crate::threads::worker::work;
use crate::turn::marker::Marker;
use crate::turn::turn::Gate;
use mark_core::Graph;
use meta_types::Fault;
use std::alloc::Global;
use std::snapshot::Snapshot;
use std::sync::Wait;
use std::thread;
use std::thread::{Promise, PromisedHandle, Scope, Threads};

// A worker comes back as the same, and sound.
#[derive(Drop)]
struct SameAs(Snapshot<Marker>);

impl Promise<Marker> for SameAs {
    ghost kept_by = { λ p m. IsKept p.0.value m };
}

// Starts the thread of one worker. None where no thread can be made.
fn start<'s, E, R: Wait + Sync, G: Gate>(
    scope: &Scope<'s, E>,
    crew: &Crew<'s, R, G>,
    seat: HintSeat,
    marker: Marker,
) -> Option<PromisedHandle<Marker, SameAs>>
    requires ready { IsReady crew.now.graph.now marker }
    requires hints { IsHintSeat crew.now.hints.now seat }
    ensures began { IfSome result (λ handle. handle.promise.0.value ≡ marker) }
{
    let Crew {
        rt,
        graph,
        gate,
        hints,
    } = *crew;
    let promise = SameAs(Snapshot::of(&marker));
    let worker = move || -> Marker
        requires ready { IsReady graph.now marker }
        requires hints { IsHintSeat hints.now seat }
        ensures kept { IsKept marker result }
    { work(rt, marker, graph, gate, hints, seat) };
    scope.spawn_with(promise, worker).ok()
}

// Starts a thread for each marker. Where one can't be made, those that run are told to stop.
fn start_all<'s, E, R: Wait + Sync, G: Gate>(
    scope: &Scope<'s, E>,
    crew: &Crew<'s, R, G>,
    alloc: Global,
    seat: &mut HintSeat,
    markers: Vec<Marker>,
) -> Result<Vec<PromisedHandle<Marker, SameAs>>, Fault>
    requires ready { All (IsReady crew.now.graph.now) markers.items }
    requires hints { IsHintSeat crew.now.hints.now seat.old }
    ensures seat { IsHintSeat crew.now.hints.now seat.new }
    ensures fault { RefusesThreads result None }
    ensures began { IfOk result (λ handles. map (λ h. h.promise.0.value) handles.items
        ≡ markers.items) }
{
    let mut handles = Vec::with_capacity(alloc, markers.len())?;
    for marker in markers {
        let own = another(crew.hints, seat);
        let Some(handle) = start(scope, crew, own, marker) else {
            stop(crew.hints, seat);
            return Err(Fault::NoWorker);
        };
        handles.push_reserved(handle);
    }
    Ok(handles)
}

// Runs each of the markers in a thread of its own, and one more in the calling thread. The scope ends
// when all threads have ended, also where one can't be made.
fn run_beside<'a, R: Threads + Wait + Sync, G: Gate>(
    rt: &'a R,
    alloc: Global,
    graph: &'a Graph,
    gate: &'a G,
    others: Vec<Marker>,
    own: Marker,
) -> Result<Vec<Marker>, Fault>
    requires ready { All (IsReady graph.now) others.items }
    requires own { IsReady graph.now own }
    ensures fault { RefusesThreads result None }
    ensures worked { IfOk result (λ done. AreWorked (others.items ++ own ∷ []) done.items) }
{
    let (hints, mut seat) = new_hints(alloc, others.len() + 1)?;
    let shared = &hints;
    thread::scope(
        thread::scope_env(),
        rt,
        move |scope| -> Result<Vec<Marker>, Fault>
            requires ready { All (IsReady graph.now) others.items }
            requires own { IsReady graph.now own }
            requires hints { IsHintSeat shared.now seat }
            ensures fault { RefusesThreads result None }
            ensures worked { IfOk result (λ done. AreWorked (others.items ++ own ∷ []) done.items) }
        {
            let crew = Crew {
                rt,
                graph,
                gate,
                hints: shared,
            };
            let handles = start_all(scope, &crew, alloc, &mut seat, others)?;
            let worked = work(rt, own, graph, gate, shared, seat);
            let mut done = thread::join_promised(rt, handles)?;
            done.push(worked)?;
            Ok(done)
        },
    )
}

// Runs each marker but the last in a thread of its own, and the last in the calling thread: a single
// worker starts none.
pub fn run<R: Threads + Wait + Sync, G: Gate>(
    rt: &R,
    alloc: Global,
    graph: &Graph,
    gate: &G,
    markers: Vec<Marker>,
) -> Result<Vec<Marker>, Fault>
    requires ready { All (IsReady graph.now) markers.items }
    ensures fault { RefusesThreads result None }
    ensures worked { IfOk result (λ done. AreWorked markers.items done.items) }
{
    let mut others = markers;
    match others.pop() {
        Some(own) => run_beside(rt, alloc, graph, gate, others, own),
        None => Ok(others),
    }
}
