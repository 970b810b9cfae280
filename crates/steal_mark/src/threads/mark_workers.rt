//! A marking by threads.
ghost use Rattle.std.specs.Prelude.{IfOk};
ghost use Rattle.meta_types.specs.declared.fault.Fault.TheVariants.{InvalidArgument};
ghost use Rattle.meta_types.specs.Faults.{unless};
ghost use Rattle.meta_types.specs.Limits.{is_worker_count};
ghost use Rattle.mark_core.specs.Reach.{IsInRange};
ghost use Rattle.steal_mark.specs.Refusing.{RefusesThreads};
ghost use Rattle.steal_mark.specs.Team.{IsMarked};

use crate::finish::gather::gather;
use crate::start::markers::marking;
use crate::threads::start::run;
use crate::turn::turn::Gate;
use mark_core::{Graph, Marks};
use meta_types::Fault;
use std::alloc::Global;
use std::sync::Wait;
use std::thread::Threads;

/// Marks what the roots reference, directly or not, by `workers` threads that steal from one
/// another. All of them have ended when it returns, also after a refusal.
pub fn mark_workers<R: Threads + Wait + Sync, G: Gate>(
    rt: &R,
    alloc: Global,
    graph: &Graph,
    workers: usize,
    gate: &G,
) -> Result<(Marks, Vec<Vec<u32>>), Fault>
    requires range { IsInRange graph.now }
    ensures fault { RefusesThreads result (unless (is_worker_count workers) InvalidArgument) }
    ensures marked { IfOk result (λ r. IsMarked graph.now workers r.0 r.1.items) }
{
    let (rest, markers) = marking(alloc, graph, workers)?;
    let done = run(rt, alloc, graph, gate, markers)?;
    gather(alloc, rest, done, graph)
}
