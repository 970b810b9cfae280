//! The mark machine, run over a list of events.
ghost use Rattle.std.specs.Prelude.{◌≡◌, IfOk, IfErr};
ghost use Rattle.meta_types.specs.declared.fault.Fault.TheVariants.{InvalidArgument};
ghost use Rattle.meta_types.specs.Faults.{Refuses, unless};
ghost use Rattle.meta_types.specs.Limits.{is_worker_count};
ghost use Rattle.mark_core.specs.Reach.{IsInRange};
ghost use Rattle.mark_core.specs.Machine.{machine_start};
ghost use Rattle.mark_core.specs.Sound.{IsSound, IsIdle, IsMarked};
ghost use Rattle.mark_core.specs.Replays.{Replays, RefusesReplay};

use crate::event::MarkEvent;
use crate::graph::Graph;
use crate::machine_state::MachineState;
use crate::replay_fault::ReplayFault;
use crate::state::MarkState;
use meta_types::{Fault, is_worker_count};
use std::alloc::Global;

/// The state before the first event: the distinct roots are claimed, and dealt to the queues.
pub fn start(alloc: Global, graph: &Graph, workers: usize) -> Result<MarkState, Fault>
    requires { IsInRange graph.now }
    ensures fault { Refuses result (unless (is_worker_count workers) InvalidArgument) }
    ensures ok { IfOk result (λ state. state ≡ machine_start graph.now workers) }
    ensures sound { IfOk result (λ state. IsSound graph.now state) }
    ensures marked { IfOk result (λ state. IsIdle state → IsMarked graph.now state) }
{
    if !is_worker_count(workers) {
        return Err(Fault::InvalidArgument);
    }
    let machine_state = MachineState::new(alloc, graph, workers)?;
    Ok(MarkState { machine_state })
}

/// The state after the events, which happen one after another from the start.
pub fn replay(
    alloc: Global,
    graph: &Graph,
    workers: usize,
    events: &[MarkEvent],
) -> Result<MarkState, ReplayFault>
    requires { IsInRange graph.now }
    ensures fault { IfErr result (λ fault. RefusesReplay graph.now workers events.now fault) }
    ensures ok { IfOk result (λ state. Replays graph.now workers events.now state) }
    ensures sound { IfOk result (λ state. IsSound graph.now state) }
    ensures marked { IfOk result (λ state. IsIdle state → IsMarked graph.now state) }
{
    if !is_worker_count(workers) {
        return Err(ReplayFault::Workers);
    }
    let mut machine_state = MachineState::new(alloc, graph, workers)?;
    let mut place = 0;
    for event in events {
        if !machine_state.step(graph, *event)? {
            return Err(ReplayFault::BadEvent { place });
        }
        place += 1;
    }
    Ok(MarkState { machine_state })
}
