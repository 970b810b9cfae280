//! What would go without a row.
ghost use Rattle.std.specs.Prelude.{◌≡◌, IfOk, None, false};
ghost use Rattle.meta_types.specs.Faults.{Refuses};
ghost use Rattle.back_model.specs.Held.{lists_in};
ghost use Rattle.meta_types.specs.Limits.{is_too_large};
ghost use Rattle.meta_types.specs.Impacts.{impact_fault, removed, IsImpact};
ghost use Rattle.table_sweep.specs.Backed.{lists_of};
ghost use Rattle.collection.specs.Impacts.{less_row, is_parent};
ghost use Rattle.collection.specs.Stores.{records_in};

use crate::dry::{dry_alone, dry_less};
use crate::row_name::RowName;
use back_model::{BackLists, BlobBackend, IngestBackend, SnapBackend};
use backend_sweep::{rows_lent, rows_listed};
use gc_report::Impact;
use meta_types::{Fault, Instant, Object, ShortName};
use request_core::{Records, State};
use std::alloc::Global;
use std::thread::Threads;
use table_sweep::BackRows;

// What a dry run of the records without the row names, and one of the records as they are doesn't.
fn impact_lent<R: Threads + Sync>(
    rt: &R,
    alloc: Global,
    records: &Records,
    back: &BackRows<'_>,
    row: &RowName,
    at: Instant,
) -> Result<Impact, Fault>
    requires parent { is_parent (records_in records.now) row.now ≡ false }
    requires few { is_too_large (records_in records.now) ≡ false }
    ensures fault { Refuses result None }
    ensures ok { IfOk result (λ impact. IsImpact
        (record { records = records_in records.now; backends = lists_of back.now })
        (record { records = less_row (records_in records.now) row.now; backends = lists_of back.now })
        at.0 impact) }
{
    let now = dry_alone(rt, alloc, records, back, at)?;
    let then = dry_less(rt, alloc, records, back, row, at)?;
    Ok(Impact::of(now, then))
}

/// What would go at a moment without a row of these records and lists.
pub fn impact_of_lists<R: Threads + Sync>(
    rt: &R,
    alloc: Global,
    records: &Records,
    back: &BackLists,
    ns: ShortName,
    object: Object,
    at: Instant,
) -> Result<Impact, Fault>
    ensures fault { Refuses result (impact_fault (record {
      records = records_in records.now;
      backends = lists_in back.now;
    }) ns object) }
    ensures ok { IfOk result (λ impact. IsImpact (record {
      records = records_in records.now;
      backends = lists_in back.now;
    }) (removed (record {
      records = records_in records.now;
      backends = lists_in back.now;
    }) ns object).after at.0 impact) }
{
    let row = RowName::of(ns, object);
    row.check(records)?;
    impact_lent(rt, alloc, records, &rows_listed(back), &row, at)
}

/// What would go at a moment without a row of this store, which stays as it is.
pub fn impact<R: Threads + Sync, S: SnapBackend, B: BlobBackend, I: IngestBackend>(
    rt: &R,
    alloc: Global,
    state: &State<S, B, I>,
    ns: ShortName,
    object: Object,
    at: Instant,
) -> Result<Impact, Fault>
    ensures fault { Refuses result (impact_fault state.now.state ns object) }
    ensures ok { IfOk result (λ impact. IsImpact state.now.state
        (removed state.now.state ns object).after at.0 impact) }
{
    let State { records, backends } = state;
    let row = RowName::of(ns, object);
    row.check(records)?;
    let lent = backends.lent(alloc)?;
    impact_lent(rt, alloc, records, &rows_lent(&lent), &row, at)
}
