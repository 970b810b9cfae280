//! Shards, blobs and ingests, and a task of the caller's, swept at once or in turn.
ghost use Rattle.std.specs.Prelude.{◌≡◌, length, bytes_eq};
ghost use Rattle.std.specs.Thread.{IsSync, IsSend};
ghost use Rattle.backend_sweep.specs.ObjectOutcomes.{AreOutcomesOf};
ghost use Rattle.backend_sweep.specs.Shards.{is_number};
ghost use Rattle.backend_sweep.specs.Singles.{AreHeldOnce};
ghost use Rattle.backend_sweep.specs.Tasks.{AreReady, SweepsJobs, MaySweepBlobs, SweepsList};

use crate::blobs::sweep_blobs;
use crate::gate::{SweepCrew, SweepGate};
use crate::ingests::sweep_ingests;
use crate::outcomes::{Outcome, Outcomes};
use crate::shard_task::ShardTask;
use back_model::{Backends, BlobBackend, IngestBackend, SnapBackend};
use std::thread::{Threads, join_mut};
use table_sweep::Plan;

// With 1,024 removals of one kind a thread pays for its start.
const MANY: usize = 1024;

fn has_many_blobs(plan: &Plan) -> bool {
    plan.report.backend.blobs.len() >= MANY
}

fn has_many_rows(plan: &Plan) -> bool {
    let rows = &plan.report.removed;
    rows.content.len() >= MANY
        || rows.snapshots.len() >= MANY
        || rows.images.len() >= MANY
        || rows.ingests.len() >= MANY
        || rows.leases.len() >= MANY
}

// Whether what isn't of a shard is swept beside the shards: each of these has a thread of its own
// then.
fn is_beside(plan: &Plan, shards: usize, workers: usize) -> bool {
    workers > shards
        && !plan.report.backend.snapshots.is_empty()
        && (has_many_blobs(plan) || has_many_rows(plan))
}

// Whether blobs and rows are swept by a thread each, where so many threads sweep shards.
fn is_split(plan: &Plan, busy: usize, workers: usize) -> bool {
    workers >= 2 && workers - 2 >= busy && has_many_blobs(plan) && has_many_rows(plan)
}

// Runs both, at once or in turn.
fn run_both<R: Threads, F: FnMut() + Send, G: FnMut()>(rt: &R, at_once: bool, f: &mut F, g: &mut G)
    requires { F.pre f.old × G.pre g.old }
    ensures { F.step f.old tt f.new × G.step g.old tt g.new }
{
    if at_once {
        join_mut(rt, f, g);
        return;
    }
    f();
    g();
}

/// Sweeps blobs and ingests, and sets what became of each. It takes no memory.
pub(crate) fn sweep_singles<S: SnapBackend, B: BlobBackend, I: IngestBackend>(
    plan: &Plan,
    backends: &mut Backends<S, B, I>,
    outcomes: &mut Outcomes,
)
    requires blobs { MaySweepBlobs plan.now (B.contents backends.old.blobs)
        (B.arrived backends.old.blobs) }
    requires ingests { AreHeldOnce is_number plan.now.report.backend.ingests
        (I.contents backends.old.ingests) }
    requires outcomes { AreOutcomesOf plan.now.report.backend outcomes.old }
    ensures blobs { SweepsList bytes_eq B.contents B.fails plan.now.report.backend.blobs
        outcomes.new.blobs backends.old.blobs backends.new.blobs }
    ensures ingests { SweepsList is_number I.contents I.fails plan.now.report.backend.ingests
        outcomes.new.ingests backends.old.ingests backends.new.ingests }
    ensures of { AreOutcomesOf plan.now.report.backend outcomes.new }
    ensures shards { backends.new.shards ≡ backends.old.shards }
{
    let objects = &plan.report.backend;
    let set = &mut outcomes.blobs;
    sweep_blobs(backends.blobs_mut(), &objects.blobs, &plan.blobs, set);
    sweep_ingests(
        backends.ingests_mut(),
        &objects.ingests,
        &mut outcomes.ingests,
    );
}

// Sweeps blobs, and runs the task, at once where it is `split`. A closure may capture the blobs'
// backend; one that captures all of `Backends` isn't covered by the borrow checker.
fn sweep_rest<R: Threads + Sync, B: BlobBackend, F: FnMut() + Send>(
    rt: &R,
    split: bool,
    plan: &Plan,
    backend: &mut B,
    outcomes: &mut [Outcome],
    beside: &mut F,
)
    requires blobs { MaySweepBlobs plan.now (B.contents backend.old) (B.arrived backend.old) }
    requires outcomes { length outcomes.old ≡ length plan.now.report.backend.blobs }
    requires beside { F.pre beside.old }
    ensures swept { SweepsList bytes_eq B.contents B.fails plan.now.report.backend.blobs
        outcomes.new
        backend.old backend.new }
    ensures outcomes { length outcomes.new ≡ length plan.now.report.backend.blobs }
    ensures beside { F.step beside.old tt beside.new }
{
    run_both(
        rt,
        split,
        beside,
        &mut ||
            requires { MaySweepBlobs plan.now (B.contents backend.now) (B.arrived backend.now)
                × (length outcomes.now ≡ length plan.now.report.backend.blobs) }
            ensures swept { SweepsList bytes_eq B.contents B.fails
                plan.entry.now.report.backend.blobs outcomes.exit.now backend.entry.now
                backend.exit.now }
            ensures outcomes { length outcomes.exit.now ≡ length plan.entry.now.report.backend.blobs }
        { sweep_blobs(backend, &plan.report.backend.blobs, &plan.blobs, outcomes) },
    );
}

// Sweeps each shard by its plan, and blobs, and runs the task: beside the shards where it is
// worth threads.
fn sweep_at_once<
    R: Threads + Sync,
    S: SnapBackend,
    B: BlobBackend,
    H: SweepGate,
    F: FnMut() + Send,
>(
    crew: &SweepCrew<R, H>,
    task: &mut ShardTask<S>,
    plan: &Plan,
    backend: &mut B,
    outcomes: &mut [Outcome],
    beside: &mut F,
)
    requires ready { AreReady S.contents S.fails task.old }
    requires blobs { MaySweepBlobs plan.now (B.contents backend.old) (B.arrived backend.old) }
    requires outcomes { length outcomes.old ≡ length plan.now.report.backend.blobs }
    requires beside { F.pre beside.old }
    ensures shards { SweepsJobs S.contents S.fails task.old task.new }
    ensures swept { SweepsList bytes_eq B.contents B.fails plan.now.report.backend.blobs
        outcomes.new
        backend.old backend.new }
    ensures outcomes { length outcomes.new ≡ length plan.now.report.backend.blobs }
    ensures beside { F.step beside.old tt beside.new }
{
    let rt = crew.rt;
    let count = task.count();
    let workers = crew.workers.count;
    let at_once = is_beside(plan, count, workers);
    let split = is_split(plan, if at_once { count } else { 0 }, workers);
    let removals = plan.report.backend.snapshots.len();
    run_both(
        rt,
        at_once,
        &mut ||
            requires { IsSync R.row × IsSync H.row × AreReady S.contents S.fails task.now }
            ensures { SweepsJobs S.contents S.fails task.entry.now task.exit.now }
        { task.sweep(crew, removals) },
        &mut ||
            requires { IsSync R.row × IsSend F.row × F.pre beside.now
                × MaySweepBlobs plan.now (B.contents backend.now) (B.arrived backend.now)
                × (length outcomes.now ≡ length plan.now.report.backend.blobs) }
            ensures swept { SweepsList bytes_eq B.contents B.fails
                plan.entry.now.report.backend.blobs outcomes.exit.now backend.entry.now
                backend.exit.now }
            ensures outcomes { length outcomes.exit.now ≡ length plan.entry.now.report.backend.blobs }
            ensures beside { F.step beside.entry.now tt beside.exit.now }
        { sweep_rest(rt, split, plan, backend, outcomes, beside) },
    );
}

/// Sweeps each shard by its plan, blobs and ingests, and runs the task. As many shards as there are
/// workers are swept at once, if enough snapshots go, blobs and the task beside them where workers
/// are left. Ingests are
/// few: the calling thread sweeps them last. No clause speaks of threads.
pub(crate) fn sweep_tasks<
    R: Threads + Sync,
    S: SnapBackend,
    B: BlobBackend,
    I: IngestBackend,
    H: SweepGate,
    F: FnMut() + Send,
>(
    crew: &SweepCrew<R, H>,
    task: &mut ShardTask<S>,
    plan: &Plan,
    backends: &mut Backends<S, B, I>,
    outcomes: &mut Outcomes,
    beside: &mut F,
)
    requires ready { AreReady S.contents S.fails task.old }
    requires blobs { MaySweepBlobs plan.now (B.contents backends.old.blobs)
        (B.arrived backends.old.blobs) }
    requires ingests { AreHeldOnce is_number plan.now.report.backend.ingests
        (I.contents backends.old.ingests) }
    requires outcomes { AreOutcomesOf plan.now.report.backend outcomes.old }
    requires beside { F.pre beside.old }
    ensures jobs { SweepsJobs S.contents S.fails task.old task.new }
    ensures blobs { SweepsList bytes_eq B.contents B.fails plan.now.report.backend.blobs
        outcomes.new.blobs backends.old.blobs backends.new.blobs }
    ensures ingests { SweepsList is_number I.contents I.fails plan.now.report.backend.ingests
        outcomes.new.ingests backends.old.ingests backends.new.ingests }
    ensures of { AreOutcomesOf plan.now.report.backend outcomes.new }
    ensures shards { backends.new.shards ≡ backends.old.shards }
    ensures beside { F.step beside.old tt beside.new }
{
    let blobs = &mut outcomes.blobs;
    sweep_at_once(crew, task, plan, backends.blobs_mut(), blobs, beside);
    let ingests = &mut outcomes.ingests;
    sweep_ingests(
        backends.ingests_mut(),
        &plan.report.backend.ingests,
        ingests,
    );
}
