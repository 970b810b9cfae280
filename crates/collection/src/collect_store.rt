//! A collection of a store, from its check to its report.
ghost use Rattle.std.specs.Prelude.{◌≡◌, ◌+◌, None, IfOk, OnErr, option_copied, false};
ghost use Rattle.meta_types.specs.Faults.{Refuses};
ghost use Rattle.meta_types.specs.Limits.{is_too_large};
ghost use Rattle.meta_types.specs.Reports.{Collects};
ghost use Rattle.meta_types.specs.Sound.{IsSound};
ghost use Rattle.back_model.specs.Held.{held, failures};
ghost use Rattle.steal_mark.specs.Refusing.{RefusesThreads};
ghost use Rattle.table_sweep.specs.BlobMarks.{AreBlobMarks};
ghost use Rattle.table_sweep.specs.Stays.{FitRows, StayNumbered};
ghost use Rattle.collection.specs.Arrived.{in_order, arrived_in};
ghost use Rattle.collection.specs.Leaving.{less, FitOthers, tables_by, leases_by, IsPlanLess, SweepsTables, SweepsLeases};
ghost use Rattle.collection.specs.Refused.{large_fault};
ghost use Rattle.collection.specs.Stores.{records_in, store_in};
ghost use Rattle.backend_sweep.specs.Planned.{IsPlanned};
ghost use Rattle.backend_sweep.specs.ObjectOutcomes.{AreOutcomesOf, failed_of};
ghost use Rattle.backend_sweep.specs.Swept.{count_names, SweepsNames};

use crate::arrived::{ArrivedRecords, CollectionTask, put_back, take_out};
use crate::crew::CollectionCrew;
use crate::history_mode::HistoryMode;
use crate::leaving::Planned;
use crate::planning::check;
use crate::reporting::may_fail;
use crate::reports::Reports;
use crate::spare::{Ready, reports_of};
use back_model::{Backends, BlobBackend, IngestBackend, SnapBackend};
use backend_sweep::{Outcomes, SweepGate, rows_lent, sweep_by};
use lease_book::Lease;
use meta_types::{Fault, Instant, Name};
use object_tables::ArrivedTables;
use request_core::State;
use row_tables::ArrivedByNamespace;
use std::mem::drop;
use std::sync::Wait;
use std::thread::Threads;
use steal_mark::Gate;

// The plan of a collection of these records and of what the backends hold: digests are lent, and
// no blob is copied to be listed.
fn plan_held<
    R: Threads + Wait + Sync,
    S: SnapBackend,
    B: BlobBackend,
    I: IngestBackend,
    G: Gate,
    H: SweepGate,
>(
    crew: &CollectionCrew<'_, R, G, H>,
    arrived: &ArrivedRecords,
    backends: &Backends<S, B, I>,
    task: &CollectionTask<'_>,
) -> Result<Planned, Fault>
    requires few { is_too_large (records_in (in_order arrived.now)) ≡ false }
    ensures fault { RefusesThreads result None }
    ensures ok { IfOk result (IsPlanLess (arrived_in arrived.now) (option_copied task.now.without)
        (held B.contents I.contents backends.now) task.now.at.0) }
    ensures blobs { IfOk result (λ planned. AreBlobMarks planned.plan.report.backend.blobs
        (B.arrived backends.now.blobs) planned.plan.blobs.items) }
{
    let lent = backends.lent(crew.alloc)?;
    // For the prover: the result is opened, not passed on.
    let planned = arrived.plan(crew, &rows_lent(&lent), task)?;
    Ok(planned)
}

// Removes what the plan names from the backends, and the plan's rows beside. Nothing is removed
// where it is refused.
fn sweep_all<
    R: Threads + Sync,
    S: SnapBackend,
    B: BlobBackend,
    I: IngestBackend,
    G: Gate,
    H: SweepGate,
>(
    crew: &CollectionCrew<'_, R, G, H>,
    tables: &mut ArrivedTables,
    leases: &mut ArrivedByNamespace<Name, Lease>,
    backends: &mut Backends<S, B, I>,
    planned: &Planned,
) -> Result<Outcomes, Fault>
    requires planned { IsPlanned (held B.contents I.contents backends.old) planned.now.plan }
    requires marks { AreBlobMarks planned.now.plan.report.backend.blobs
        (B.arrived backends.old.blobs) planned.now.plan.blobs.items }
    requires others { FitOthers planned.now.others tables.old.images leases.old }
    requires rows { FitRows (tables_by planned.now.others tables.old)
        (leases_by planned.now.others leases.old) planned.now.plan.masks }
    requires numbered { StayNumbered (tables_by planned.now.others tables.old)
        planned.now.plan.masks }
    ensures fault { Refuses result None }
    ensures ok { IfOk result (SweepsNames planned.now.plan.report.backend
        (held B.contents I.contents backends.old) (held B.contents I.contents backends.new)) }
    ensures of { IfOk result (AreOutcomesOf planned.now.plan.report.backend) }
    ensures count { IfOk result (λ outcomes. failures B.fails I.fails backends.new
        ≡ failures B.fails I.fails backends.old + count_names
        (failed_of planned.now.plan.report.backend outcomes)) }
    ensures tables { IfOk result (λ _. SweepsTables planned.now tables.old tables.new) }
    ensures leases { IfOk result (λ _. SweepsLeases planned.now leases.old leases.new) }
    ensures tables_err { OnErr result (tables.new ≡ tables.old) }
    ensures leases_err { OnErr result (leases.new ≡ leases.old) }
    ensures backends_err { OnErr result (backends.new ≡ backends.old) }
{
    let sweepers = backend_sweep::SweepCrew {
        rt: crew.rt,
        workers: crew.workers,
        gate: crew.sweep_gate,
    };
    // For the prover: the result is opened, not passed on.
    let outcomes = sweep_by(
        &sweepers,
        crew.alloc,
        backends,
        &planned.plan,
        &mut ||
            requires { FitOthers planned.now.others tables.now.images leases.now
                × FitRows (tables_by planned.now.others tables.now)
                (leases_by planned.now.others leases.now) planned.now.plan.masks
                × StayNumbered (tables_by planned.now.others tables.now) planned.now.plan.masks }
            ensures tables { SweepsTables planned.entry.now tables.entry.now tables.exit.now }
            ensures leases { SweepsLeases planned.entry.now leases.entry.now leases.exit.now }
        { planned.sweep(tables, leases) },
    )?;
    Ok(outcomes)
}

// Collects records as they arrived, without what is named. From the first removal on nothing is
// refused; what is refused leaves all as it was.
fn collect_arrived<
    R: Threads + Wait + Sync,
    S: SnapBackend,
    B: BlobBackend,
    I: IngestBackend,
    G: Gate,
    H: SweepGate,
    K: HistoryMode,
>(
    crew: &CollectionCrew<'_, R, G, H>,
    arrived: &mut ArrivedRecords,
    backends: &mut Backends<S, B, I>,
    task: &CollectionTask<'_>,
) -> Result<Reports<K>, Fault>
    requires sound { IsSound (store_in (in_order arrived.old) (held B.contents I.contents backends.old)) }
    requires few { is_too_large (records_in (in_order arrived.old)) ≡ false }
    ensures fault { RefusesThreads result None }
    ensures ok { IfOk result (λ report. Collects (record {
      records = less (records_in (in_order arrived.old)) (option_copied task.now.without);
      backends = held B.contents I.contents backends.old;
    }) task.now.at.0 report.failed report (store_in (in_order arrived.new)
        (held B.contents I.contents backends.new))) }
    ensures count { IfOk result (λ report. failures B.fails I.fails backends.new
        ≡ failures B.fails I.fails backends.old + count_names report.failed) }
    ensures arrived_err { OnErr result (arrived.new ≡ arrived.old) }
    ensures backends_err { OnErr result (backends.new ≡ backends.old) }
    ensures sound { IsSound (store_in (in_order arrived.new) (held B.contents I.contents backends.new)) }
{
    let planned = plan_held(crew, arrived, backends, task)?;
    let alloc = crew.alloc;
    let may = may_fail::<S, B, I>();
    let ready = match Ready::of::<K>(alloc, &planned.plan, may) {
        Ok(ready) => ready,
        Err(fault) => {
            // For the prover: dropped by a call, not in place.
            drop(planned);
            return Err(fault);
        }
    };
    if let Err(fault) = crew.sweep_gate.before_sweep(alloc, &planned.plan.report) {
        // For the prover: dropped by a call, not in place.
        drop(ready);
        drop(planned);
        return Err(fault);
    }
    let tables = &mut arrived.tables;
    let leases = &mut arrived.leases;
    let outcomes = match sweep_all(crew, tables, leases, backends, &planned) {
        Ok(outcomes) => outcomes,
        Err(fault) => {
            // For the prover: dropped by a call, not in place.
            drop(ready);
            drop(planned);
            return Err(fault);
        }
    };
    // For the prover: no removal failed where no device may.
    backends.none_failed();
    let Planned { others: _, plan } = planned;
    Ok(reports_of(plan, outcomes, ready))
}

// Collects records without what is named, where no fault applies.
pub(crate) fn collect_checked<
    R: Threads + Wait + Sync,
    S: SnapBackend,
    B: BlobBackend,
    I: IngestBackend,
    G: Gate,
    H: SweepGate,
    K: HistoryMode,
>(
    crew: &CollectionCrew<'_, R, G, H>,
    state: &mut State<S, B, I>,
    task: &CollectionTask<'_>,
) -> Result<Reports<K>, Fault>
    requires sound { IsSound state.old.state }
    requires few { is_too_large state.old.state.records ≡ false }
    ensures fault { RefusesThreads result None }
    ensures ok { IfOk result (λ report. Collects (record {
      records = less state.old.state.records (option_copied task.now.without);
      backends = state.old.state.backends;
    }) task.now.at.0 report.failed report state.new.state) }
    ensures count { IfOk result (λ report. state.new.failures
        ≡ state.old.failures + count_names report.failed) }
    ensures err { OnErr result (state.new ≡ state.old) }
    ensures sound { IsSound state.new.state }
{
    let State { records, backends } = state;
    let mut arrived = take_out(crew.alloc, records);
    let reports = collect_arrived(crew, &mut arrived, backends, task);
    put_back(records, arrived);
    reports
}

/// Collects, and reports the removals, in copies too where a history is kept. From the first
/// removal on nothing is refused.
pub fn collect<
    R: Threads + Wait + Sync,
    S: SnapBackend,
    B: BlobBackend,
    I: IngestBackend,
    G: Gate,
    H: SweepGate,
    K: HistoryMode,
>(
    crew: &CollectionCrew<'_, R, G, H>,
    state: &mut State<S, B, I>,
    at: Instant,
) -> Result<Reports<K>, Fault>
    requires { IsSound state.old.state }
    ensures fault { RefusesThreads result (large_fault state.old.state.records) }
    ensures ok { IfOk result (λ report. Collects state.old.state at.0 report.failed report
        state.new.state) }
    ensures count { IfOk result (λ report. state.new.failures
        ≡ state.old.failures + count_names report.failed) }
    ensures err { OnErr result (state.new ≡ state.old) }
    ensures sound { IsSound state.new.state }
{
    check(state.records())?;
    let task = CollectionTask { at, without: None };
    // For the prover: the result is opened, not passed on.
    let reports = collect_checked(crew, state, &task)?;
    Ok(reports)
}
