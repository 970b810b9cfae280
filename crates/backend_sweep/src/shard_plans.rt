//! Shards beside what is to be swept of each.
ghost use Rattle.std.specs.Prelude.{◌≡◌, ◌≤◌, true, length, map, find, option_map, bytes_eq, None, Some, IfOk};
ghost use Rattle.meta_types.specs.Faults.{Refuses};
ghost use Rattle.backend_sweep.specs.ObjectOutcomes.{AreOutcomesOf};
ghost use Rattle.backend_sweep.specs.Sweep.{Childfirst, IsRoomFor, Sweeps};
ghost use Rattle.backend_sweep.specs.ShardPlans.{shard_plan_for, StandFrom, IsPlanAt, outcome_in, outcome_of};
ghost use Rattle.backend_sweep.specs.Parts.{StandBySnapshotter};

use crate::gate::SweepGate;
use crate::outcomes::{Outcome, Outcomes};
use crate::parts::part_of;
use crate::shard_outcome::ShardOutcome;
use back_model::SnapBackend;
use meta_types::{Fault, ShortName};
use std::alloc::Global;
use std::marker::{Model, PhantomData};
use std::mem;
use table_sweep::Plan;

/// What is to be swept of one snapshotter's shard, and what was.
#[derive(Drop)]
pub(crate) struct ShardPlan<S: SnapBackend> {
    snapshotter: ShortName,
    list: Vec<u64>,
    outcome: ShardOutcome,
    of: PhantomData<S>,
}

impl<S: SnapBackend> Model for ShardPlan<S> {
    ghost use Rattle.backend_sweep.specs.ShardPlans.{PlannedShard};
    ghost use Rattle.backend_sweep.specs.ShardOutcomes.{FitsDevice, swept_of};

    ghost Value = { PlannedShard };

    ghost view = { λ s. record {
      snapshotter = s.snapshotter;
      list = s.list.items;
      swept = swept_of s.list.items s.outcome;
    } };

    ghost invariant = { λ s. FitsDevice S.fails s.outcome };
}

fn numbers_in(alloc: Global, names: &[(ShortName, u64)]) -> Result<Vec<u64>, Fault>
    ensures fault { Refuses result None }
    ensures ok { IfOk result (λ numbers. numbers.items ≡ map (λ name. name.1) names.now) }
{
    let mut numbers = Vec::with_capacity(alloc, names.len())?;
    for name in names {
        numbers.push(name.1)?;
    }
    Ok(numbers)
}

// The plan of one snapshotter's shard.
fn shard_plan_for<S: SnapBackend>(
    alloc: Global,
    names: &[(ShortName, u64)],
    snapshotter: &ShortName,
) -> Result<ShardPlan<S>, Fault>
    requires { StandBySnapshotter names.now }
    ensures fault { Refuses result None }
    ensures ok { IfOk result (λ shard_plan. shard_plan ≡ shard_plan_for names.now snapshotter.now) }
{
    let list = numbers_in(alloc, part_of(names, snapshotter))?;
    let outcome = ShardOutcome::room::<S>(alloc, &list)?;
    Ok(ShardPlan {
        snapshotter: snapshotter.copy()?,
        list,
        outcome,
        of: PhantomData,
    })
}

/// The plan of each shard, with the numbers of its snapshotter.
pub(crate) fn shard_plans_of<S: SnapBackend>(
    alloc: Global,
    shards: &[(ShortName, S)],
    names: &[(ShortName, u64)],
) -> Result<Vec<ShardPlan<S>>, Fault>
    requires { StandBySnapshotter names.now }
    ensures fault { Refuses result None }
    ensures ok { IfOk result (λ shard_plans. shard_plans.items
        ≡ map (λ entry. shard_plan_for names.now entry.0) shards.now) }
{
    let mut shard_plans = Vec::with_capacity(alloc, shards.len())?;
    for entry in shards {
        shard_plans.push(shard_plan_for(alloc, names, &entry.0)?)?;
    }
    Ok(shard_plans)
}

/// Sweeps a shard by its plan. It takes no memory.
pub(crate) fn sweep_shard_plan<S: SnapBackend, H: SweepGate>(
    shard: &mut S,
    shard_plan: &mut ShardPlan<S>,
    gate: &H,
)
    requires list { Childfirst shard_plan.old.list (S.contents shard.old) }
    requires into { IsRoomFor shard_plan.old.list shard_plan.old.swept }
    ensures shard_plan { shard_plan.new ≡ record shard_plan.old { swept = shard_plan.new.swept } }
    ensures sweeps { Sweeps shard_plan.old.list (S.contents shard.old) (S.contents shard.new)
        (S.fails shard.old) (S.fails shard.new) shard_plan.new.swept }
{
    let ShardPlan {
        snapshotter,
        list,
        outcome,
        of: _,
    } = shard_plan;
    let into = mem::replace(outcome, ShardOutcome::Whole(false));
    *outcome = into.sweep(snapshotter.text(), shard, list, gate);
}

// The plan of a snapshotter's shard, if it has one.
fn shard_plan_at<'a, S: SnapBackend>(
    shard_plans: &'a [ShardPlan<S>],
    snapshotter: &ShortName,
) -> Option<&'a ShardPlan<S>>
    ensures { option_map (λ shard_plan. shard_plan.now) result
        ≡ find (λ shard_plan. bytes_eq shard_plan.snapshotter snapshotter.now) shard_plans.now }
{
    for shard_plan in shard_plans {
        if shard_plan.snapshotter == *snapshotter {
            return Some(shard_plan);
        }
    }
    None
}

// A place among the plans, and whether the plan of the snapshotter that was looked for is there.
#[derive(Clone, Copy)]
struct Reached {
    place: usize,
    found: bool,
}

// Looks for a snapshotter's plan from a place on. It passes the plans of lesser snapshotters alone,
// where no later name looks again.
fn reach<S: SnapBackend>(
    shard_plans: &[ShardPlan<S>],
    from: usize,
    snapshotter: &ShortName,
) -> Reached
    requires within { from ≤ length shard_plans.now }
    requires passed { StandFrom shard_plans.now from snapshotter.now }
    ensures within { result.place ≤ length shard_plans.now }
    ensures passed { StandFrom shard_plans.now result.place snapshotter.now }
    ensures found { result.found ≡ true
        → IsPlanAt shard_plans.now snapshotter.now result.place }
{
    for place in from..shard_plans.len() {
        let shard_plan = &shard_plans[place];
        let order = shard_plan.snapshotter.cmp(snapshotter);
        if order.is_eq() {
            return Reached { place, found: true };
        }
        if order.is_gt() {
            return Reached {
                place,
                found: false,
            };
        }
    }
    Reached {
        place: shard_plans.len(),
        found: false,
    }
}

// What became of a number, as its shard's plan has it.
fn outcome_in<S: SnapBackend>(shard_plan: &ShardPlan<S>, number: u64) -> Outcome
    ensures { result ≡ outcome_in (Some shard_plan.now) number }
{
    if shard_plan.outcome.has_failed(number) {
        return Outcome::Failed;
    }
    if shard_plan.outcome.has_kept(number) {
        return Outcome::Kept;
    }
    Outcome::Removed
}

// What became of a name, by the plan that was reached; all plans are asked where that isn't its
// own.
fn outcome_at<S: SnapBackend>(
    shard_plans: &[ShardPlan<S>],
    reached: Reached,
    name: &(ShortName, u64),
) -> Outcome
    requires { reached.found ≡ true → IsPlanAt shard_plans.now name.now.0 reached.place }
    ensures { result ≡ outcome_of shard_plans.now name.now }
{
    if reached.found {
        return outcome_in(&shard_plans[reached.place], name.1);
    }
    let Some(shard_plan) = shard_plan_at(shard_plans, &name.0) else {
        return Outcome::Kept;
    };
    outcome_in(shard_plan, name.1)
}

// Sets the outcome of each name, in one pass over names and plans.
fn set_outcomes<S: SnapBackend>(
    shard_plans: &[ShardPlan<S>],
    names: &[(ShortName, u64)],
    outcomes: &mut [Outcome],
)
    requires names { StandBySnapshotter names.now }
    requires outcomes { length outcomes.old ≡ length names.now }
    ensures { outcomes.new ≡ map (outcome_of shard_plans.now) names.now }
{
    let mut from = 0;
    for i in 0..names.len() {
        let name = &names[i];
        let reached = reach(shard_plans, from, &name.0);
        from = reached.place;
        outcomes[i] = outcome_at(shard_plans, reached, name);
    }
}

/// Copies what became of each snapshot from its shard's plan. It takes no memory.
pub(crate) fn set_snapshots<S: SnapBackend>(
    shard_plans: &[ShardPlan<S>],
    plan: &Plan,
    outcomes: &mut Outcomes,
)
    requires names { StandBySnapshotter plan.now.report.backend.snapshots }
    requires outcomes { AreOutcomesOf plan.now.report.backend outcomes.old }
    ensures set { outcomes.new ≡ record outcomes.old {
      snapshots = map (outcome_of shard_plans.now) plan.now.report.backend.snapshots;
    } }
    ensures of { AreOutcomesOf plan.now.report.backend outcomes.new }
{
    set_outcomes(
        shard_plans,
        &plan.report.backend.snapshots,
        &mut outcomes.snapshots,
    );
}
