//! Dry runs: the report that a collection would give, without a sweep; for questions by the calling
//! thread alone, also of records without a row.
ghost use Rattle.std.specs.Prelude.{◌≡◌, length, None, false, true, IfOk};
ghost use Rattle.meta_types.specs.Faults.{Refuses};
ghost use Rattle.back_model.specs.Held.{lists_in};
ghost use Rattle.meta_types.specs.Limits.{is_too_large};
ghost use Rattle.meta_types.specs.Reports.{Plans};
ghost use Rattle.gc_graph.specs.Built.{AreApart};
ghost use Rattle.gc_graph.specs.Stored.{records_of, AreLent};
ghost use Rattle.collection.specs.Impacts.{has_number, is_parent, less_row};
ghost use Rattle.collection.specs.Refused.{large_fault};
ghost use Rattle.collection.specs.Stores.{records_in};
ghost use Rattle.table_sweep.specs.Backed.{lists_of};
ghost use Rattle.table_sweep.specs.Plans.{IsPlanOfRows, IsPlanOf};
ghost use Rattle.meta_types.specs.Sound.{AreTables};
ghost use Rattle.steal_mark.specs.Refusing.{RefusesThreads};

use crate::crew::CollectionCrew;
use crate::history_mode::HistoryMode;
use crate::planning::{check, plan_store};
use crate::reports::Reports;
use crate::row_name::RowName;
use back_model::{BackLists, BlobBackend, IngestBackend, SnapBackend};
use backend_sweep::{SweepGate, rows_lent, rows_listed};
use gc_graph::{ListedRows, StoreRows, build};
use gc_report::Report;
use mark_core::mark_plain;
use meta_types::{Fault, Instant};
use request_core::{Records, State};
use std::alloc::Global;
use std::sync::Wait;
use std::thread::Threads;
use steal_mark::Gate;
use table_sweep::{BackRows, Plan, Team, plan_of};

// What a collection of these records and of what is lent would report.
fn dry_lent<R: Threads + Wait + Sync, G: Gate, H: SweepGate>(
    crew: &CollectionCrew<'_, R, G, H>,
    records: &Records,
    back: &BackRows<'_>,
    at: Instant,
) -> Result<Report, Fault>
    requires { AreTables records.now.tables }
    ensures fault { RefusesThreads result (large_fault (records_in records.now)) }
    ensures ok { IfOk result (λ report. Plans (record {
      records = records_in records.now;
      backends = lists_of back.now;
    }) at.0 report) }
{
    let Plan {
        masks: _,
        blobs: _,
        report,
    } = plan_store(crew, records, back, at)?;
    Ok(report)
}

/// What a collection of these records and lists would report.
pub fn dry_report<R: Threads + Wait + Sync, G: Gate, H: SweepGate>(
    crew: &CollectionCrew<'_, R, G, H>,
    records: &Records,
    back: &BackLists,
    at: Instant,
) -> Result<Report, Fault>
    requires { AreTables records.now.tables }
    ensures fault { RefusesThreads result (large_fault (records_in records.now)) }
    ensures ok { IfOk result (λ report. Plans (record {
      records = records_in records.now;
      backends = lists_in back.now;
    }) at.0 report) }
{
    dry_lent(crew, records, &rows_listed(back), at)
}

/// What a collection of this store would report. Nothing is swept.
pub fn dry_run<
    R: Threads + Wait + Sync,
    S: SnapBackend,
    B: BlobBackend,
    I: IngestBackend,
    G: Gate,
    H: SweepGate,
    K: HistoryMode,
>(
    crew: &CollectionCrew<'_, R, G, H>,
    state: &State<S, B, I>,
    at: Instant,
) -> Result<Reports<K>, Fault>
    requires { AreTables state.now.state.records.tables }
    ensures fault { RefusesThreads result (large_fault state.now.state.records) }
    ensures ok { IfOk result (λ report. Plans state.now.state at.0 report) }
{
    let State { records, backends } = state;
    check(records)?;
    let lent = backends.lent(crew.alloc)?;
    let report = dry_lent(crew, records, &rows_lent(&lent), at)?;
    Ok(Reports::of(crew.alloc, report)?)
}

// One worker reads labels, which is the calling thread.
fn plan_rows<R: Threads + Sync>(
    rt: &R,
    alloc: Global,
    rows: &StoreRows<'_>,
    namespaces: u64,
    back: &BackRows<'_>,
    at: Instant,
) -> Result<Plan, Fault>
    requires apart { AreApart (records_of rows.now) }
    requires lent { AreLent rows.now }
    requires few { is_too_large (records_of rows.now) ≡ false }
    ensures fault { Refuses result None }
    ensures ok { IfOk result (λ plan. IsPlanOfRows (records_of rows.now) namespaces
        (lists_of back.now) at.0 plan) }
{
    let (book, graph, ignored) = build(rt, alloc, rows, at, 1)?;
    let marks = mark_plain(alloc, &graph)?;
    let team = Team {
        rt,
        alloc,
        workers: 1,
    };
    // For the prover: the result is opened, not passed on.
    let plan = plan_of(&team, rows, namespaces, back, &book, &marks, ignored, at)?;
    Ok(plan)
}

// The plan of records without the row, which has no number, so that it needn't be listed.
fn plan_left<R: Threads + Sync>(
    rt: &R,
    alloc: Global,
    records: &Records,
    back: &BackRows<'_>,
    row: &RowName,
    at: Instant,
) -> Result<Plan, Fault>
    requires unnumbered { has_number row.now ≡ false }
    requires few { is_too_large (records_in records.now) ≡ false }
    ensures fault { Refuses result None }
    ensures ok { IfOk result (λ plan. IsPlanOf (less_row (records_in records.now) row.now)
        (length (less_row (records_in records.now) row.now).tables.namespaces)
        (lists_of back.now) at.0 plan) }
{
    let arrived = records.tables.arrived();
    let leases = records.leases.arrived();
    // The clauses of `len` say that no key stands twice.
    let _ = arrived.images.len();
    let _ = arrived.containers.len();
    let _ = leases.len();
    let namespaces = records.tables.count_ns();
    let mut listed = ListedRows::new(alloc, &arrived, leases, records.profile)?;
    row.leave(&mut listed);
    let rows = listed.rows();
    // For the prover: the result is opened, not passed on.
    let plan = plan_rows(rt, alloc, &rows, namespaces, back, at)?;
    Ok(plan)
}

fn plan_alone<R: Threads + Sync>(
    rt: &R,
    alloc: Global,
    records: &Records,
    back: &BackRows<'_>,
    at: Instant,
) -> Result<Plan, Fault>
    requires { is_too_large (records_in records.now) ≡ false }
    ensures fault { Refuses result None }
    ensures ok { IfOk result (λ plan. IsPlanOf (records_in records.now)
        (length records.now.tables.namespaces) (lists_of back.now) at.0 plan) }
{
    let arrived = records.tables.arrived();
    let leases = records.leases.arrived();
    let namespaces = records.tables.count_ns();
    let listed = ListedRows::new(alloc, &arrived, leases, records.profile)?;
    let rows = listed.rows();
    // For the prover: the result is opened, not passed on.
    let plan = plan_rows(rt, alloc, &rows, namespaces, back, at)?;
    Ok(plan)
}

// What a collection of these records and of what is lent would report.
pub(crate) fn dry_alone<R: Threads + Sync>(
    rt: &R,
    alloc: Global,
    records: &Records,
    back: &BackRows<'_>,
    at: Instant,
) -> Result<Report, Fault>
    requires { is_too_large (records_in records.now) ≡ false }
    ensures fault { Refuses result None }
    ensures ok { IfOk result (λ report. Plans (record {
      records = records_in records.now;
      backends = lists_of back.now;
    }) at.0 report) }
{
    let Plan {
        masks: _,
        blobs: _,
        report,
    } = plan_alone(rt, alloc, records, back, at)?;
    Ok(report)
}

// What a collection of these records would report, after the row is taken away.
fn dry_removed<R: Threads + Sync>(
    rt: &R,
    alloc: Global,
    records: &mut Records,
    back: &BackRows<'_>,
    row: &RowName,
    at: Instant,
) -> Result<Report, Fault>
    requires parent { is_parent (records_in records.old) row.now ≡ false }
    requires few { is_too_large (records_in records.old) ≡ false }
    ensures fault { Refuses result None }
    ensures ok { IfOk result (λ report. Plans (record {
      records = less_row (records_in records.old) row.now;
      backends = lists_of back.now;
    }) at.0 report) }
{
    row.remove(records);
    // For the prover: the result is opened, not passed on.
    let report = dry_alone(rt, alloc, records, back, at)?;
    Ok(report)
}

// The same of records that stay as they are: their rows are copied.
fn dry_copied<R: Threads + Sync>(
    rt: &R,
    alloc: Global,
    records: &Records,
    back: &BackRows<'_>,
    row: &RowName,
    at: Instant,
) -> Result<Report, Fault>
    requires parent { is_parent (records_in records.now) row.now ≡ false }
    requires few { is_too_large (records_in records.now) ≡ false }
    ensures fault { Refuses result None }
    ensures ok { IfOk result (λ report. Plans (record {
      records = less_row (records_in records.now) row.now;
      backends = lists_of back.now;
    }) at.0 report) }
{
    let mut left = records.copy(alloc)?;
    dry_removed(rt, alloc, &mut left, back, row, at)
}

// The same of a row without a number: it isn't listed.
fn dry_unlisted<R: Threads + Sync>(
    rt: &R,
    alloc: Global,
    records: &Records,
    back: &BackRows<'_>,
    row: &RowName,
    at: Instant,
) -> Result<Report, Fault>
    requires unnumbered { has_number row.now ≡ false }
    requires few { is_too_large (records_in records.now) ≡ false }
    ensures fault { Refuses result None }
    ensures ok { IfOk result (λ report. Plans (record {
      records = less_row (records_in records.now) row.now;
      backends = lists_of back.now;
    }) at.0 report) }
{
    let Plan {
        masks: _,
        blobs: _,
        report,
    } = plan_left(rt, alloc, records, back, row, at)?;
    Ok(report)
}

// What a collection of these records without the row would report. Rows are copied only where the
// row has a number.
pub(crate) fn dry_less<R: Threads + Sync>(
    rt: &R,
    alloc: Global,
    records: &Records,
    back: &BackRows<'_>,
    row: &RowName,
    at: Instant,
) -> Result<Report, Fault>
    requires parent { is_parent (records_in records.now) row.now ≡ false }
    requires few { is_too_large (records_in records.now) ≡ false }
    ensures fault { Refuses result None }
    ensures ok { IfOk result (λ report. Plans (record {
      records = less_row (records_in records.now) row.now;
      backends = lists_of back.now;
    }) at.0 report) }
{
    if row.has_number() {
        // For the prover: the result is opened, not passed on.
        let report = dry_copied(rt, alloc, records, back, row, at)?;
        return Ok(report);
    }
    // For the prover: the result is opened, not passed on.
    let report = dry_unlisted(rt, alloc, records, back, row, at)?;
    Ok(report)
}
