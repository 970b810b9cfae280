//! Shards beside their plans: what the workers sweep at once.
ghost use Rattle.std.specs.Prelude.{◌≡◌, ◌<◌, ◌≤◌, [], length, map, filter, None, IfOk, OnOk, OnErr};
ghost use Rattle.std.specs.Vec.{vec_capacity};
ghost use Rattle.meta_types.specs.Faults.{Refuses};
ghost use Rattle.back_model.specs.Shown.{AreApart, shown};
ghost use Rattle.backend_sweep.specs.ObjectOutcomes.{AreOutcomesOf};
ghost use Rattle.backend_sweep.specs.Parts.{StandBySnapshotter};
ghost use Rattle.backend_sweep.specs.ShardPlans.{shard_plan_for, IsReady, outcome_of};
ghost use Rattle.backend_sweep.specs.Tasks.{entries_in, shards_in, shard_plans_in, is_left, left_in, AreJobsOf, AreReady, SweepsJob, SweepsJobs};

use crate::gate::{OpenSweepGate, SweepCrew, SweepGate};
use crate::outcomes::Outcomes;
use crate::parts::part_of;
use crate::shard_plans::{ShardPlan, set_snapshots, shard_plans_of, sweep_shard_plan};
use back_model::{Backends, BlobBackend, IngestBackend, SnapBackend};
use gc_graph::thread_count;
use meta_types::{Fault, ShortName};
use std::alloc::Global;
use std::marker::Model;
use std::thread::{self, Threads};
use table_sweep::Plan;

/// A shard with its plan, to be lent to one thread.
#[derive(Drop)]
pub(crate) struct ShardJob<S: SnapBackend> {
    entry: (ShortName, S),
    shard_plan: ShardPlan<S>,
}

// Room for a number of jobs, and for their shards and plans when these are put back.
#[derive(Drop)]
struct JobRoom<S: SnapBackend> {
    jobs: Vec<ShardJob<S>>,
    shards: Vec<(ShortName, S)>,
    shard_plans: Vec<ShardPlan<S>>,
}

impl<S: SnapBackend> JobRoom<S> {
    fn room(alloc: Global, count: usize) -> Result<JobRoom<S>, Fault>
        ensures fault { Refuses result None }
        ensures jobs { IfOk result (λ room. (room.jobs.items ≡ [])
            × (count ≤ vec_capacity room.jobs)) }
        ensures shards { IfOk result (λ room. (room.shards.items ≡ [])
            × (count ≤ vec_capacity room.shards)) }
        ensures shard_plans { IfOk result (λ room. (room.shard_plans.items ≡ [])
            × (count ≤ vec_capacity room.shard_plans)) }
    {
        Ok(JobRoom {
            jobs: Vec::with_capacity(alloc, count)?,
            shards: Vec::with_capacity(alloc, count)?,
            shard_plans: Vec::with_capacity(alloc, count)?,
        })
    }
}

// A plan for each shard, and room for as many jobs.
fn shard_plans_and_room<S: SnapBackend>(
    alloc: Global,
    shards: &[(ShortName, S)],
    names: &[(ShortName, u64)],
) -> Result<(Vec<ShardPlan<S>>, JobRoom<S>), Fault>
    requires { StandBySnapshotter names.now }
    ensures fault { Refuses result None }
    ensures shard_plans { IfOk result (λ made. made.0.items
        ≡ map (λ entry. shard_plan_for names.now entry.0) shards.now) }
    ensures jobs { IfOk result (λ made. (made.1.jobs.items ≡ [])
        × (length shards.now ≤ vec_capacity made.1.jobs)) }
    ensures shards { IfOk result (λ made. (made.1.shards.items ≡ [])
        × (length shards.now ≤ vec_capacity made.1.shards)) }
    ensures shard_plans_left { IfOk result (λ made. (made.1.shard_plans.items ≡ [])
        × (length shards.now ≤ vec_capacity made.1.shard_plans)) }
{
    let shard_plans = shard_plans_of(alloc, shards, names)?;
    let room = JobRoom::room(alloc, shards.len())?;
    Ok((shard_plans, room))
}

// Puts each shard beside its plan, in the room for it.
fn join_jobs<S: SnapBackend>(
    shards: Vec<(ShortName, S)>,
    shard_plans: Vec<ShardPlan<S>>,
    jobs: &mut Vec<ShardJob<S>>,
)
    requires shard_plans { length shard_plans.items ≡ length shards.items }
    requires room { (jobs.old.items ≡ []) × (length shards.items ≤ vec_capacity jobs.old) }
    ensures shards { entries_in jobs.new.items ≡ shards.items }
    ensures shard_plans { shard_plans_in jobs.new.items ≡ shard_plans.items }
{
    let mut rest = shard_plans.into_iter();
    for entry in shards {
        let Some(shard_plan) = rest.next() else {
            unreachable!();
        };
        jobs.push_reserved(ShardJob { entry, shard_plan });
    }
}

// Takes shards and plans apart again, into the room for them.
fn part_jobs<S: SnapBackend>(
    jobs: Vec<ShardJob<S>>,
    shards: &mut Vec<(ShortName, S)>,
    shard_plans: &mut Vec<ShardPlan<S>>,
)
    requires shards { (shards.old.items ≡ []) × (length jobs.items ≤ vec_capacity shards.old) }
    requires shard_plans { (shard_plans.old.items ≡ []) × (length jobs.items ≤ vec_capacity shard_plans.old) }
    ensures shards { shards.new.items ≡ entries_in jobs.items }
    ensures shard_plans { shard_plans.new.items ≡ shard_plans_in jobs.items }
{
    for job in jobs {
        let ShardJob { entry, shard_plan } = job;
        shards.push_reserved(entry);
        shard_plans.push_reserved(shard_plan);
    }
}

// Whether a shard stays behind a sweep of these names: one goes that lost its last snapshot, and
// has counted no failure.
fn is_left<S: SnapBackend>(entry: &(ShortName, S), names: &[(ShortName, u64)]) -> bool
    requires { StandBySnapshotter names.now }
    ensures { result ≡ is_left S.contents S.fails names.now entry.now }
{
    !entry.1.is_empty() || entry.1.failures() != 0 || part_of(names, &entry.0).is_empty()
}

// Leaves out the shards that go.
fn leave_out<S: SnapBackend>(shards: &mut Vec<(ShortName, S)>, names: &[(ShortName, u64)])
    requires { StandBySnapshotter names.now }
    ensures { shards.new.items ≡ filter (is_left S.contents S.fails names.now) shards.old.items }
{
    shards.retain(
        |entry: &(ShortName, S)| -> bool
            requires { StandBySnapshotter names.now }
        { is_left(entry, names) },
    );
}

fn sweep_job<S: SnapBackend, H: SweepGate>(job: &mut ShardJob<S>, gate: &H)
    requires { IsReady (shown S.contents S.fails job.old.entry) job.old.shard_plan }
    ensures { SweepsJob S.contents S.fails job.old job.new }
{
    sweep_shard_plan(&mut job.entry.1, &mut job.shard_plan, gate);
}

fn sweep_jobs_in_turn<S: SnapBackend>(jobs: &mut [ShardJob<S>])
    requires { AreReady S.contents S.fails jobs.old }
    ensures { SweepsJobs S.contents S.fails jobs.old jobs.new }
{
    for i in 0..jobs.len() {
        sweep_job(&mut jobs[i], &OpenSweepGate);
    }
}

// The number of threads that sweep the shards, for this number of removals. A device may be slow, so
// with a device each removal is worth a thread. A backend that never fails is in memory.
fn sweeper_count<S: SnapBackend>(removals: usize, workers: usize) -> usize
    ensures { 0 < result }
{
    if removals == 0 || S::never_fails() {
        return thread_count(removals, workers);
    }
    workers.max(1)
}

fn sweep_jobs<R: Threads + Sync, S: SnapBackend, H: SweepGate>(
    crew: &SweepCrew<R, H>,
    removals: usize,
    jobs: &mut [ShardJob<S>],
)
    requires { AreReady S.contents S.fails jobs.old }
    ensures { SweepsJobs S.contents S.fails jobs.old jobs.new }
{
    let gate = crew.gate;
    thread::for_each_mut(
        crew.rt,
        jobs,
        sweeper_count::<S>(removals, crew.workers.count),
        &|_, job: &mut ShardJob<S>|
            requires { IsReady (shown S.contents S.fails job.old.entry) job.old.shard_plan }
        { sweep_job(job, gate) },
    );
}

/// Shards beside their plans, and room to put them apart again.
#[derive(Drop)]
pub(crate) struct ShardTask<S: SnapBackend> {
    jobs: Vec<ShardJob<S>>,
    shards: Vec<(ShortName, S)>,
    shard_plans: Vec<ShardPlan<S>>,
}

impl<S: SnapBackend> Model for ShardTask<S> {
    ghost use Rattle.std.specs.Prelude.{◌≡◌, ◌≤◌, List, [], length};
    ghost use Rattle.std.specs.Vec.{vec_capacity};
    ghost use Rattle.backend_sweep.specs.declared.shard_task.ShardJob.{ShardJob};

    ghost Value = { List (ShardJob S) };

    ghost view = { λ task. task.jobs.items };

    ghost invariant = { λ task. (task.shards.items ≡ [])
        × (length task.jobs.items ≤ vec_capacity task.shards) × (task.shard_plans.items ≡ [])
        × (length task.jobs.items ≤ vec_capacity task.shard_plans) };
}

impl<S: SnapBackend> ShardTask<S> {
    /// Takes the shards out of the backends, each with its plan of the names that are to go.
    pub(crate) fn take<B: BlobBackend, I: IngestBackend>(
        alloc: Global,
        backends: &mut Backends<S, B, I>,
        plan: &Plan,
    ) -> Result<ShardTask<S>, Fault>
        requires { StandBySnapshotter plan.now.report.backend.snapshots }
        ensures fault { Refuses result None }
        ensures jobs { IfOk result (AreJobsOf S.contents S.fails
            plan.now.report.backend.snapshots backends.old.shards) }
        ensures order { AreApart backends.old.shards }
        ensures ok { OnOk result (backends.new ≡ record backends.old { shards = [] }) }
        ensures err { OnErr result (backends.new ≡ backends.old) }
    {
        let names = &plan.report.backend.snapshots;
        let shards = backends.take_shards();
        let (shard_plans, room) = match shard_plans_and_room(alloc, &shards, names) {
            Ok(made) => made,
            Err(fault) => {
                backends.put_shards(shards);
                return Err(fault);
            }
        };
        let JobRoom {
            mut jobs,
            shards: shards_left,
            shard_plans: shard_plans_left,
        } = room;
        join_jobs(shards, shard_plans, &mut jobs);
        Ok(ShardTask {
            jobs,
            shards: shards_left,
            shard_plans: shard_plans_left,
        })
    }

    /// How many shards there are.
    pub(crate) fn count(&self) -> usize {
        self.jobs.len()
    }

    /// Sweeps each shard by its plan, one after the other. It takes no memory.
    pub(crate) fn sweep_in_turn(&mut self)
        requires { AreReady S.contents S.fails self.old }
        ensures { SweepsJobs S.contents S.fails self.old self.new }
    {
        sweep_jobs_in_turn(&mut self.jobs);
    }

    /// Sweeps each shard by its plan. There are at most as many shards at once as workers, and as
    /// this number of removals is worth. Threads alone take memory.
    pub(crate) fn sweep<R: Threads + Sync, H: SweepGate>(
        &mut self,
        crew: &SweepCrew<R, H>,
        removals: usize,
    )
        requires { AreReady S.contents S.fails self.old }
        ensures { SweepsJobs S.contents S.fails self.old self.new }
    {
        sweep_jobs(crew, removals, &mut self.jobs);
    }

    /// Puts the shards back that are left, and copies each snapshot's outcome from its shard's plan.
    /// It takes no memory.
    pub(crate) fn put_back<B: BlobBackend, I: IngestBackend>(
        self,
        backends: &mut Backends<S, B, I>,
        plan: &Plan,
        outcomes: &mut Outcomes,
    )
        requires names { StandBySnapshotter plan.now.report.backend.snapshots }
        requires apart { AreApart (shards_in S.contents S.fails self) }
        requires of { AreOutcomesOf plan.now.report.backend outcomes.old }
        ensures shards { backends.new ≡ record backends.old {
          shards = left_in S.contents S.fails plan.now.report.backend.snapshots self;
        } }
        ensures set { outcomes.new ≡ record outcomes.old {
          snapshots = map (outcome_of (shard_plans_in self)) plan.now.report.backend.snapshots;
        } }
        ensures of { AreOutcomesOf plan.now.report.backend outcomes.new }
    {
        let ShardTask {
            jobs,
            mut shards,
            mut shard_plans,
        } = self;
        part_jobs(jobs, &mut shards, &mut shard_plans);
        leave_out(&mut shards, &plan.report.backend.snapshots);
        backends.put_shards(shards);
        set_snapshots(&shard_plans, plan, outcomes);
    }
}
