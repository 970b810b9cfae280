//! What refuses a collection, and its plan: the graph, its marks, and the removals.
ghost use Rattle.std.specs.Prelude.{◌≡◌, ◌↔◌, ℕ, length, None, false, IfOk};
ghost use Rattle.meta_types.specs.Faults.{OnlyRefuses};
ghost use Rattle.meta_types.specs.Limits.{is_too_large};
ghost use Rattle.meta_types.specs.Sound.{AreTables};
ghost use Rattle.mark_core.specs.Bits.{bit_of};
ghost use Rattle.mark_core.specs.Reach.{Reached, IsInRange};
ghost use Rattle.gc_graph.specs.Built.{AreApart};
ghost use Rattle.gc_graph.specs.Stored.{records_of, AreLent};
ghost use Rattle.steal_mark.specs.Refusing.{RefusesThreads};
ghost use Rattle.collection.specs.Refused.{large_fault};
ghost use Rattle.collection.specs.Stores.{records_in};
ghost use Rattle.table_sweep.specs.Backed.{lists_of};
ghost use Rattle.table_sweep.specs.BlobMarks.{AreBlobMarks};
ghost use Rattle.table_sweep.specs.Plans.{IsPlanOfRows};
ghost use Rattle.backend_sweep.specs.Planned.{IsPlanOf};

use crate::crew::CollectionCrew;
use backend_sweep::SweepGate;
use gc_graph::{ListedRows, StoreRows, build, thread_count};
use mark_core::{Graph, Marks, mark_plain};
use meta_types::{Fault, Instant, Workers};
use request_core::Records;
use std::mem::drop;
use std::sync::Wait;
use std::thread::Threads;
use steal_mark::{Gate, mark_workers};
use table_sweep::{BackRows, Plan, Team, plan_of};

/// The fault of a collection, before anything is done; never OutOfMemory.
pub(crate) fn check(records: &Records) -> Result<(), Fault>
    ensures { OnlyRefuses result (large_fault (records_in records.now)) }
{
    if records.is_too_large() {
        return Err(Fault::FailedPrecondition);
    }
    Ok(())
}

// The marks of the reached numbers, by as many workers as the nodes are worth. One worker is the
// calling thread, and needs no deque.
fn marks_of<R: Threads + Wait + Sync, G: Gate, H: SweepGate>(
    crew: &CollectionCrew<'_, R, G, H>,
    graph: &Graph,
) -> Result<Marks, Fault>
    requires range { IsInRange graph.now }
    ensures fault { RefusesThreads result None }
    ensures marks { IfOk result (λ m. (n : ℕ) → (bit_of m n ≡ 1) ↔ Reached graph.now n) }
{
    let alloc = crew.alloc;
    let count = thread_count(graph.edges.len(), crew.workers.count);
    let workers = Workers::new(count).unwrap_or(Workers::ONE);
    if workers.count == 1 {
        // For the prover: the result is opened, not passed on.
        let marks = mark_plain(alloc, graph)?;
        return Ok(marks);
    }
    let (marks, lists) = mark_workers(crew.rt, alloc, graph, workers.count, crew.gate)?;
    // For the prover: dropped by a call, not in place.
    drop(lists);
    Ok(marks)
}

fn plan_rows<R: Threads + Wait + Sync, G: Gate, H: SweepGate>(
    crew: &CollectionCrew<'_, R, G, H>,
    rows: &StoreRows<'_>,
    namespaces: u64,
    back: &BackRows<'_>,
    at: Instant,
) -> Result<Plan, Fault>
    requires apart { AreApart (records_of rows.now) }
    requires lent { AreLent rows.now }
    requires few { is_too_large (records_of rows.now) ≡ false }
    ensures fault { RefusesThreads result None }
    ensures ok { IfOk result (λ plan. IsPlanOfRows (records_of rows.now) namespaces
        (lists_of back.now) at.0 plan) }
    ensures blobs { IfOk result (λ plan. AreBlobMarks plan.report.backend.blobs back.now.blobs.now
        plan.blobs.items) }
{
    let alloc = crew.alloc;
    let (book, graph, ignored) = build(crew.rt, alloc, rows, at, crew.workers.count)?;
    let marks = marks_of(crew, &graph)?;
    // Frees the graph before the plan takes memory.
    drop(graph);
    let team = Team {
        rt: crew.rt,
        alloc,
        workers: crew.workers.count,
    };
    // For the prover: the result is opened, not passed on.
    let plan = plan_of(&team, rows, namespaces, back, &book, &marks, ignored, at)?;
    Ok(plan)
}

// The plan of a collection of rows that are listed, in any order.
pub(crate) fn plan_listed<R: Threads + Wait + Sync, G: Gate, H: SweepGate>(
    crew: &CollectionCrew<'_, R, G, H>,
    listed: &ListedRows<'_>,
    namespaces: u64,
    back: &BackRows<'_>,
    at: Instant,
) -> Result<Plan, Fault>
    requires few { is_too_large listed.now ≡ false }
    ensures fault { RefusesThreads result None }
    ensures ok { IfOk result (λ plan. IsPlanOfRows listed.now namespaces (lists_of back.now)
        at.0 plan) }
    ensures blobs { IfOk result (λ plan. AreBlobMarks plan.report.backend.blobs back.now.blobs.now
        plan.blobs.items) }
{
    let rows = listed.rows();
    // For the prover: the result is opened, not passed on.
    let plan = plan_rows(crew, &rows, namespaces, back, at)?;
    Ok(plan)
}

/// The plan of a collection of these records and lists at a moment.
pub fn plan_store<R: Threads + Wait + Sync, G: Gate, H: SweepGate>(
    crew: &CollectionCrew<'_, R, G, H>,
    records: &Records,
    back: &BackRows<'_>,
    at: Instant,
) -> Result<Plan, Fault>
    requires { AreTables records.now.tables }
    ensures fault { RefusesThreads result (large_fault (records_in records.now)) }
    ensures ok { IfOk result (λ plan. IsPlanOf (records_in records.now)
        (length records.now.tables.namespaces) (lists_of back.now) at.0 plan) }
    ensures blobs { IfOk result (λ plan. AreBlobMarks plan.report.backend.blobs back.now.blobs.now
        plan.blobs.items) }
{
    check(records)?;
    let arrived = records.tables.arrived();
    let leases = records.leases.arrived();
    let namespaces = records.tables.count_ns();
    let listed = ListedRows::new(crew.alloc, &arrived, leases, records.profile)?;
    // For the prover: the result is opened, not passed on.
    let plan = plan_listed(crew, &listed, namespaces, back, at)?;
    Ok(plan)
}
