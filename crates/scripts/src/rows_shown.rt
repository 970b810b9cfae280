//! Copies of the rows of a listing, as they are shown: they share the texts of data.
ghost use Rattle.std.specs.Prelude.{◌≡◌, ◌++◌, ◌∷◌, [], map, IfOk, OnOk, None};
ghost use Rattle.meta_types.specs.Faults.{Refuses};
ghost use Rattle.meta_types.specs.Shown.{plain_row, snapshot_shown};
ghost use Rattle.request_core.specs.Listed.{listed_rows};

use back_model::{MemBackend, MemBlobs, MemIngests};
use lease_book::Lease;
use meta_types::{
    ContainerRow, ContentRow, Fault, ImageRow, IngestRow, ReplyRow, ShownRow, SnapRow,
};
use request_core::{ListedRows, State};
use std::alloc::Global;

/// A store in memory.
type MemState = State<MemBackend, MemBlobs, MemIngests>;

// A row of another kind than a snapshot.
fn plain(row: ReplyRow) -> ShownRow
    ensures { result ≡ plain_row row }
{
    ShownRow {
        row,
        parent_number: None,
    }
}

fn images(alloc: Global, lent: &[&ImageRow]) -> Result<Vec<ShownRow>, Fault>
    ensures fault { Refuses result None }
    ensures ok { IfOk result (λ rows. rows.items
        ≡ map (λ row. plain_row (ReplyRow.Image row.now)) lent.now) }
{
    let mut rows = Vec::with_capacity(alloc, lent.len())?;
    for row in lent {
        rows.push(plain(ReplyRow::Image(row.copy(alloc)?)))?;
    }
    Ok(rows)
}

fn containers(alloc: Global, lent: &[&ContainerRow]) -> Result<Vec<ShownRow>, Fault>
    ensures fault { Refuses result None }
    ensures ok { IfOk result (λ rows. rows.items
        ≡ map (λ row. plain_row (ReplyRow.Container row.now)) lent.now) }
{
    let mut rows = Vec::with_capacity(alloc, lent.len())?;
    for row in lent {
        rows.push(plain(ReplyRow::Container(row.copy(alloc)?)))?;
    }
    Ok(rows)
}

fn content(alloc: Global, lent: &[&ContentRow]) -> Result<Vec<ShownRow>, Fault>
    ensures fault { Refuses result None }
    ensures ok { IfOk result (λ rows. rows.items
        ≡ map (λ row. plain_row (ReplyRow.Content row.now)) lent.now) }
{
    let mut rows = Vec::with_capacity(alloc, lent.len())?;
    for row in lent {
        rows.push(plain(ReplyRow::Content(row.copy(alloc)?)))?;
    }
    Ok(rows)
}

fn ingests(alloc: Global, lent: &[&IngestRow]) -> Result<Vec<ShownRow>, Fault>
    ensures fault { Refuses result None }
    ensures ok { IfOk result (λ rows. rows.items
        ≡ map (λ row. plain_row (ReplyRow.Ingest row.now)) lent.now) }
{
    let mut rows = Vec::with_capacity(alloc, lent.len())?;
    for row in lent {
        rows.push(plain(ReplyRow::Ingest(row.copy()?)))?;
    }
    Ok(rows)
}

// A snapshot with the number of its parent.
fn snapshot(alloc: Global, state: &MemState, row: &SnapRow) -> Result<ShownRow, Fault>
    ensures fault { Refuses result None }
    ensures ok { IfOk result (λ shown. shown
        ≡ snapshot_shown state.now.state.records.tables.snapshots row.now) }
{
    let parent_number = state.parent_number(row);
    let row = row.copy(alloc)?;
    Ok(ShownRow {
        row: ReplyRow::Snap(row),
        parent_number,
    })
}

fn snapshots(alloc: Global, state: &MemState, lent: &[&SnapRow]) -> Result<Vec<ShownRow>, Fault>
    ensures fault { Refuses result None }
    ensures ok { IfOk result (λ rows. rows.items ≡ map
        (λ row. snapshot_shown state.now.state.records.tables.snapshots row.now) lent.now) }
{
    let mut rows = Vec::with_capacity(alloc, lent.len())?;
    for row in lent {
        rows.push(snapshot(alloc, state, row)?)?;
    }
    Ok(rows)
}

fn lease(alloc: Global, lease: &Lease) -> Result<ShownRow, Fault>
    ensures fault { Refuses result None }
    ensures ok { IfOk result (λ shown. shown
        ≡ plain_row (ReplyRow.Lease lease.now.id lease.now.labels lease.now.extra)) }
{
    let id = lease.id().copy()?;
    let labels = lease.labels().copy(alloc)?;
    let extra = lease.extra().copy()?;
    Ok(plain(ReplyRow::Lease(id, labels, extra)))
}

fn leases(alloc: Global, lent: &[&Lease]) -> Result<Vec<ShownRow>, Fault>
    ensures fault { Refuses result None }
    ensures ok { IfOk result (λ rows. rows.items ≡ map
        (λ row. plain_row (ReplyRow.Lease row.now.id row.now.labels row.now.extra)) lent.now) }
{
    let mut rows = Vec::with_capacity(alloc, lent.len())?;
    for row in lent {
        rows.push(lease(alloc, row)?)?;
    }
    Ok(rows)
}

/// Copies of these rows, as they are shown.
pub(crate) fn rows_shown(
    alloc: Global,
    state: &MemState,
    lent: &ListedRows<'_>,
) -> Result<Vec<ShownRow>, Fault>
    ensures fault { Refuses result None }
    ensures ok { IfOk result (λ rows. rows.items ≡ listed_rows state.now.state lent.now) }
{
    match lent {
        ListedRows::Images(rows) => images(alloc, rows),
        ListedRows::Containers(rows) => containers(alloc, rows),
        ListedRows::Content(rows) => content(alloc, rows),
        ListedRows::Ingests(rows) => ingests(alloc, rows),
        ListedRows::Snapshots(rows) => snapshots(alloc, state, rows),
        ListedRows::Leases(rows) => leases(alloc, rows),
    }
}
