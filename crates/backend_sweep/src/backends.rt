//! The sweep of all backends, by one thread or by several.
ghost use Rattle.std.specs.Prelude.{◌≡◌, ◌+◌, None, IfOk, OnErr};
ghost use Rattle.meta_types.specs.Faults.{Refuses, unless};
ghost use Rattle.meta_types.specs.Limits.{is_worker_count};
ghost use Rattle.meta_types.specs.declared.fault.Fault.TheVariants.{InvalidArgument};
ghost use Rattle.back_model.specs.Held.{held, failures};
ghost use Rattle.table_sweep.specs.BlobMarks.{AreBlobMarks};
ghost use Rattle.backend_sweep.specs.Planned.{IsPlanned};
ghost use Rattle.backend_sweep.specs.ObjectOutcomes.{AreOutcomesOf, failed_of};
ghost use Rattle.backend_sweep.specs.Swept.{SweepsNames, count_names};

use crate::gate::{SweepCrew, SweepGate};
use crate::outcomes::Outcomes;
use crate::shard_task::ShardTask;
use crate::tasks::{sweep_singles, sweep_tasks};
use back_model::{Backends, BlobBackend, IngestBackend, SnapBackend};
use meta_types::{Fault, Workers};
use std::alloc::Global;
use std::thread::Threads;
use table_sweep::Plan;

/// Removes what the plan names, on the calling thread; the plan's marks of blobs are of their order
/// as the backend lends them. Nothing is removed where it is refused.
pub fn sweep_plain<S: SnapBackend, B: BlobBackend, I: IngestBackend>(
    alloc: Global,
    backends: &mut Backends<S, B, I>,
    plan: &Plan,
) -> Result<Outcomes, Fault>
    requires planned { IsPlanned (held B.contents I.contents backends.old) plan.now }
    requires marks { AreBlobMarks plan.now.report.backend.blobs (B.arrived backends.old.blobs)
        plan.now.blobs.items }
    ensures fault { Refuses result None }
    ensures ok { IfOk result (SweepsNames plan.now.report.backend
        (held B.contents I.contents backends.old)
        (held B.contents I.contents backends.new)) }
    ensures of { IfOk result (AreOutcomesOf plan.now.report.backend) }
    ensures count { IfOk result (λ outcomes. failures B.fails I.fails backends.new
        ≡ failures B.fails I.fails backends.old
        + count_names (failed_of plan.now.report.backend outcomes)) }
    ensures err { OnErr result (backends.new ≡ backends.old) }
{
    let mut outcomes = Outcomes::room(alloc, plan)?;
    let mut task = ShardTask::take(alloc, backends, plan)?;
    task.sweep_in_turn();
    sweep_singles(plan, backends, &mut outcomes);
    task.put_back(backends, plan, &mut outcomes);
    Ok(outcomes)
}

/// Removes the objects that the plan names, and runs a task beside, which is to remove the plan's
/// rows. Each shard is a task of the crew, and so are the blobs, and the task. Ingests go last. The
/// plan's marks of blobs are of their order as the backend lends them. Nothing is removed, and the
/// task isn't run, where it is refused.
pub fn sweep_by<
    R: Threads + Sync,
    S: SnapBackend,
    B: BlobBackend,
    I: IngestBackend,
    H: SweepGate,
    F: FnMut() + Send,
>(
    crew: &SweepCrew<R, H>,
    alloc: Global,
    backends: &mut Backends<S, B, I>,
    plan: &Plan,
    beside: &mut F,
) -> Result<Outcomes, Fault>
    requires planned { IsPlanned (held B.contents I.contents backends.old) plan.now }
    requires marks { AreBlobMarks plan.now.report.backend.blobs (B.arrived backends.old.blobs)
        plan.now.blobs.items }
    requires beside { F.pre beside.old }
    ensures fault { Refuses result None }
    ensures ok { IfOk result (SweepsNames plan.now.report.backend
        (held B.contents I.contents backends.old)
        (held B.contents I.contents backends.new)) }
    ensures of { IfOk result (AreOutcomesOf plan.now.report.backend) }
    ensures count { IfOk result (λ outcomes. failures B.fails I.fails backends.new
        ≡ failures B.fails I.fails backends.old
        + count_names (failed_of plan.now.report.backend outcomes)) }
    ensures err { OnErr result (backends.new ≡ backends.old) }
    ensures ran { IfOk result (λ _. F.step beside.old tt beside.new) }
    ensures not_run { OnErr result (beside.new ≡ beside.old) }
{
    let mut outcomes = Outcomes::room(alloc, plan)?;
    let mut task = ShardTask::take(alloc, backends, plan)?;
    sweep_tasks(crew, &mut task, plan, backends, &mut outcomes, beside);
    task.put_back(backends, plan, &mut outcomes);
    Ok(outcomes)
}

/// Removes the objects that the plan names, as `sweep_by` does, by this number of workers, if it is
/// allowed.
pub fn sweep_shards<
    R: Threads + Sync,
    S: SnapBackend,
    B: BlobBackend,
    I: IngestBackend,
    H: SweepGate,
    F: FnMut() + Send,
>(
    rt: &R,
    alloc: Global,
    backends: &mut Backends<S, B, I>,
    plan: &Plan,
    workers: usize,
    gate: &H,
    beside: &mut F,
) -> Result<Outcomes, Fault>
    requires planned { IsPlanned (held B.contents I.contents backends.old) plan.now }
    requires marks { AreBlobMarks plan.now.report.backend.blobs (B.arrived backends.old.blobs)
        plan.now.blobs.items }
    requires beside { F.pre beside.old }
    ensures fault { Refuses result (unless (is_worker_count workers) InvalidArgument) }
    ensures ok { IfOk result (SweepsNames plan.now.report.backend
        (held B.contents I.contents backends.old)
        (held B.contents I.contents backends.new)) }
    ensures of { IfOk result (AreOutcomesOf plan.now.report.backend) }
    ensures count { IfOk result (λ outcomes. failures B.fails I.fails backends.new
        ≡ failures B.fails I.fails backends.old
        + count_names (failed_of plan.now.report.backend outcomes)) }
    ensures err { OnErr result (backends.new ≡ backends.old) }
    ensures ran { IfOk result (λ _. F.step beside.old tt beside.new) }
    ensures not_run { OnErr result (beside.new ≡ beside.old) }
{
    let Some(workers) = Workers::new(workers) else {
        return Err(Fault::InvalidArgument);
    };
    let crew = SweepCrew { rt, workers, gate };
    // For the prover: the result is opened, not passed on.
    let outcomes = sweep_by(&crew, alloc, backends, plan, beside)?;
    Ok(outcomes)
}
