//! Copies of a report, made before anything is removed, where a history is kept.
ghost use Rattle.std.specs.Prelude.{◌≡◌, None, IfOk};
ghost use Rattle.meta_types.specs.Faults.{Refuses};
ghost use Rattle.backend_sweep.specs.ObjectOutcomes.{AreOutcomesOf};
ghost use Rattle.collection.specs.Copies.{IsSpare, AreSpare, CanFill, AreCopies};
ghost use Rattle.collection.specs.Rooms.{AreRoomsFor, CanTell};
ghost use Rattle.collection.specs.Whole.{reported};

use crate::history_mode::HistoryMode;
use crate::reporting::{Rooms, report, rooms_of};
use crate::reports::{Copies, Reports};
use backend_sweep::Outcomes;
use gc_report::Report;
use meta_types::Fault;
use std::alloc::Global;
use std::marker::PhantomData;
use std::mem::drop;
use table_sweep::Plan;

/// A copy of the plan's report, with room for the outcomes where a device may fail.
#[derive(Drop)]
pub(crate) struct SpareReport {
    pub(crate) report: Report,
    pub(crate) rooms: Option<Rooms>,
}

impl SpareReport {
    fn of(alloc: Global, plan: &Plan, may_fail: bool) -> Result<SpareReport, Fault>
        ensures fault { Refuses result None }
        ensures ok { IfOk result (IsSpare may_fail plan.now.report) }
    {
        let rooms = rooms_of(alloc, plan, may_fail)?;
        let report = plan.report.copy(alloc)?;
        Ok(SpareReport { report, rooms })
    }

    // The report of what was swept. It takes no memory.
    fn swept(self, outcomes: &Outcomes) -> Report
        requires of { AreOutcomesOf self.report.backend outcomes.now }
        requires room { CanTell self.report.backend outcomes.now self.rooms }
        ensures { result ≡ reported self.report outcomes.now }
    {
        let SpareReport {
            report: planned,
            rooms,
        } = self;
        report(planned, outcomes, rooms)
    }
}

// Two of them, for log and session, where a history is kept.
fn spares_of<K: HistoryMode>(
    alloc: Global,
    plan: &Plan,
    may_fail: bool,
) -> Result<Option<(SpareReport, SpareReport)>, Fault>
    ensures fault { Refuses result None }
    ensures ok { IfOk result (AreSpare K.KEPT may_fail plan.now.report) }
{
    if !K::KEPT {
        return Ok(None);
    }
    let log = SpareReport::of(alloc, plan, may_fail)?;
    let list = SpareReport::of(alloc, plan, may_fail)?;
    Ok(Some((log, list)))
}

/// What is made before anything is removed: copies, and room for what becomes of the objects.
#[derive(Drop)]
pub(crate) struct Ready {
    pub(crate) rooms: Option<Rooms>,
    pub(crate) spares: Option<(SpareReport, SpareReport)>,
}

impl Ready {
    /// For what the plan names.
    pub(crate) fn of<K: HistoryMode>(
        alloc: Global,
        plan: &Plan,
        may_fail: bool,
    ) -> Result<Ready, Fault>
        ensures fault { Refuses result None }
        ensures rooms { IfOk result (λ ready. AreRoomsFor may_fail plan.now.report.backend
            ready.rooms) }
        ensures spares { IfOk result (λ ready. AreSpare K.KEPT may_fail plan.now.report
            ready.spares) }
    {
        let rooms = rooms_of(alloc, plan, may_fail)?;
        match spares_of::<K>(alloc, plan, may_fail) {
            Ok(spares) => Ok(Ready { rooms, spares }),
            Err(fault) => {
                // For the prover: dropped by a call, not in place.
                drop(rooms);
                Err(fault)
            }
        }
    }
}

// Fills each copy by the outcomes. It takes no memory.
fn filled<K: HistoryMode>(
    planned: &Report,
    outcomes: &Outcomes,
    spares: Option<(SpareReport, SpareReport)>,
) -> Option<Copies>
    requires of { AreOutcomesOf planned.now.backend outcomes.now }
    requires spares { CanFill K.KEPT planned.now outcomes.now spares }
    ensures { AreCopies K.KEPT (reported planned.now outcomes.now) result }
{
    let Some((log, list)) = spares else {
        return None;
    };
    let log = log.swept(outcomes);
    let list = list.swept(outcomes);
    Some(Copies { log, list })
}

// The report of what was swept, and its copies. It takes no memory.
fn with_copies<K: HistoryMode>(
    planned: Report,
    outcomes: &Outcomes,
    rooms: Option<Rooms>,
    spares: Option<(SpareReport, SpareReport)>,
) -> Reports<K>
    requires of { AreOutcomesOf planned.backend outcomes.now }
    requires room { CanTell planned.backend outcomes.now rooms }
    requires spares { CanFill K.KEPT planned outcomes.now spares }
    ensures { result ≡ reported planned outcomes.now }
{
    let others = filled::<K>(&planned, outcomes, spares);
    Reports {
        caller: report(planned, outcomes, rooms),
        others,
        mode: PhantomData,
    }
}

/// The report of a plan that was swept, and its copies. It takes no memory.
pub(crate) fn reports_of<K: HistoryMode>(plan: Plan, outcomes: Outcomes, ready: Ready) -> Reports<K>
    requires of { AreOutcomesOf plan.report.backend outcomes }
    requires room { CanTell plan.report.backend outcomes ready.rooms }
    requires spares { CanFill K.KEPT plan.report outcomes ready.spares }
    ensures { result ≡ reported plan.report outcomes }
{
    let Plan {
        masks: _,
        blobs: _,
        report,
    } = plan;
    let Ready { rooms, spares } = ready;
    with_copies(report, &outcomes, rooms, spares)
}
