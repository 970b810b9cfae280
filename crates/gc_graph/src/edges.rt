//! The rows of the graph: what each thing references.
ghost use Rattle.std.specs.Prelude.{◌≡◌, ◌++◌, map, OnOk, None};
ghost use Rattle.std.specs.List.{flat_map};
ghost use Rattle.meta_types.specs.Faults.{Refuses};
ghost use Rattle.meta_types.specs.Paths.{ingest, content, snapshot};
ghost use Rattle.meta_types.specs.declared.resource.Mode.TheVariants.{Full, Flat};
ghost use Rattle.gc_graph.specs.Targets.{parent_target};
ghost use Rattle.gc_graph.specs.Built.{numbers_in, targets_in};

use crate::book::NodeBook;
use crate::parallel::{RowReader, read_rows};
use crate::refs::{Lookup, push_labels, push_number};
use crate::rows::near::Near;
use mark_core::TargetLists;
use meta_types::{ContentRow, Fault, IngestRow, Mode, SnapRow};
use row_tables::Slices;
use std::alloc::Global;
use std::thread::Threads;

// Adds the number of the content that an ingest expects.
fn push_expected(
    book: &NodeBook<'_>,
    row: &IngestRow,
    near: &mut Near,
    numbers: &mut Vec<u32>,
) -> Result<(), Fault>
    ensures fault { Refuses result None }
    ensures ok { OnOk result (numbers.new.items
        ≡ numbers.old.items ++ targets_in book.now (ingest row.now)) }
{
    match &row.expected {
        None => Ok(()),
        Some(digest) => {
            let number = book.content_number(&row.ns, digest, Mode::Full, near);
            push_number(number, numbers)
        }
    }
}

// Adds the numbers of a snapshot's parent, in full and in flat. In a chain it stands before the
// snapshot.
fn push_parent(
    book: &NodeBook<'_>,
    row: &SnapRow,
    place: usize,
    full: &mut Vec<u32>,
    flat: &mut Vec<u32>,
) -> Result<(), Fault>
    ensures fault { Refuses result None }
    ensures full { OnOk result (full.new.items
        ≡ full.old.items ++ numbers_in book.now (parent_target Full row.now)) }
    ensures flat { OnOk result (flat.new.items
        ≡ flat.old.items ++ numbers_in book.now (parent_target Flat row.now)) }
{
    let Some(name) = &row.parent else {
        return Ok(());
    };
    let key = &row.key;
    let numbers = book.parent_numbers(&key.ns, &key.snapshotter, name, place);
    let Some((in_full, in_flat)) = numbers else {
        return Ok(());
    };
    full.push(in_full)?;
    flat.push(in_flat)?;
    Ok(())
}

// Adds the targets of content in full.
fn push_full(
    alloc: Global,
    book: &NodeBook<'_>,
    rows: &[ContentRow],
    full: &mut TargetLists,
) -> Result<(), Fault>
    ensures fault { Refuses result None }
    ensures ok { OnOk result (full.new ≡ full.old
        ++ map (λ row. targets_in book.now (content Full row)) rows.now) }
{
    let mut near = Near::first();
    let mut in_full = Vec::new(alloc);
    for row in rows {
        in_full.clear();
        let lookup = Lookup {
            alloc,
            book,
            ns: &row.ns,
        };
        push_labels(&lookup, &row.labels, &mut near, &mut in_full)?;
        full.push(&in_full)?;
    }
    Ok(())
}

/// Reads content: in flat it references nothing.
#[derive(Clone, Copy)]
struct Contents<'b, 'a> {
    book: &'b NodeBook<'a>,
}

impl<'b, 'a> RowReader<ContentRow> for Contents<'b, 'a> {
    ghost full_of = { λ reader row. targets_in reader.book.now (content Full row) };

    ghost flat_of = { λ reader row. targets_in reader.book.now (content Flat row) };

    fn read(
        &self,
        alloc: Global,
        rows: &[ContentRow],
        full: &mut TargetLists,
        flat: &mut TargetLists,
    ) -> Result<(), Fault> {
        push_full(alloc, self.book, rows, full)?;
        flat.push_empty(rows.len())?;
        Ok(())
    }
}

// Adds the numbers of what a snapshot references, in full and in flat.
fn push_snapshot(
    alloc: Global,
    book: &NodeBook<'_>,
    row: &SnapRow,
    near: &mut Near,
    full: &mut Vec<u32>,
    flat: &mut Vec<u32>,
) -> Result<(), Fault>
    ensures fault { Refuses result None }
    ensures full { OnOk result (full.new.items
        ≡ full.old.items ++ targets_in book.now (snapshot Full row.now)) }
    ensures flat { OnOk result (flat.new.items
        ≡ flat.old.items ++ targets_in book.now (snapshot Flat row.now)) }
{
    push_parent(book, row, near.row, full, flat)?;
    near.row = near.row.saturating_add(1);
    let lookup = Lookup {
        alloc,
        book,
        ns: &row.key.ns,
    };
    push_labels(&lookup, &row.labels, near, full)
}

// Adds the targets of snapshots, in full and in flat.
fn push_both(
    alloc: Global,
    book: &NodeBook<'_>,
    rows: &[SnapRow],
    full: &mut TargetLists,
    flat: &mut TargetLists,
) -> Result<(), Fault>
    ensures fault { Refuses result None }
    ensures full { OnOk result (full.new ≡ full.old
        ++ map (λ row. targets_in book.now (snapshot Full row)) rows.now) }
    ensures flat { OnOk result (flat.new ≡ flat.old
        ++ map (λ row. targets_in book.now (snapshot Flat row)) rows.now) }
{
    let mut near = book.near_first(rows);
    let mut in_full = Vec::new(alloc);
    let mut in_flat = Vec::new(alloc);
    for row in rows {
        in_full.clear();
        in_flat.clear();
        push_snapshot(alloc, book, row, &mut near, &mut in_full, &mut in_flat)?;
        full.push(&in_full)?;
        flat.push(&in_flat)?;
    }
    Ok(())
}

/// Reads snapshots: in flat each references its parent in flat.
#[derive(Clone, Copy)]
struct Snapshots<'b, 'a> {
    book: &'b NodeBook<'a>,
}

impl<'b, 'a> RowReader<SnapRow> for Snapshots<'b, 'a> {
    ghost full_of = { λ reader row. targets_in reader.book.now (snapshot Full row) };

    ghost flat_of = { λ reader row. targets_in reader.book.now (snapshot Flat row) };

    fn read(
        &self,
        alloc: Global,
        rows: &[SnapRow],
        full: &mut TargetLists,
        flat: &mut TargetLists,
    ) -> Result<(), Fault> {
        push_both(alloc, self.book, rows, full, flat)
    }
}

// Adds the rows of ingests of one slice.
fn push_some_ingests(
    alloc: Global,
    book: &NodeBook<'_>,
    rows: &[IngestRow],
    near: &mut Near,
    edges: &mut TargetLists,
) -> Result<(), Fault>
    ensures fault { Refuses result None }
    ensures ok { OnOk result (edges.new ≡ edges.old
        ++ map (λ row. targets_in book.now (ingest row)) rows.now) }
{
    let mut numbers = Vec::new(alloc);
    for row in rows {
        numbers.clear();
        push_expected(book, row, near, &mut numbers)?;
        edges.push(&numbers)?;
    }
    Ok(())
}

// Adds the rows of ingests.
pub(crate) fn push_ingests(
    alloc: Global,
    book: &NodeBook<'_>,
    slices: &[&[IngestRow]],
    edges: &mut TargetLists,
) -> Result<(), Fault>
    ensures fault { Refuses result None }
    ensures ok { OnOk result (edges.new ≡ edges.old
        ++ map (λ row. targets_in book.now (ingest row)) (flat_map (λ rows. rows.now) slices.now)) }
{
    let mut near = Near::first();
    for rows in slices {
        push_some_ingests(alloc, book, rows, &mut near, edges)?;
    }
    Ok(())
}

// Adds the rows of content, in full and then in flat.
pub(crate) fn push_content(
    rt: &(impl Threads + Sync),
    alloc: Global,
    book: &NodeBook<'_>,
    rows: &Slices<'_, ContentRow>,
    workers: usize,
    edges: &mut TargetLists,
) -> Result<(), Fault>
    ensures fault { Refuses result None }
    ensures ok { OnOk result (edges.new ≡ edges.old
        ++ map (λ row. targets_in book.now (content Full row)) rows.now
        ++ map (λ row. targets_in book.now (content Flat row)) rows.now) }
{
    read_rows(rt, alloc, &Contents { book }, rows, workers, edges)
}

// Adds the rows of snapshots, in full and then in flat.
pub(crate) fn push_snapshots(
    rt: &(impl Threads + Sync),
    alloc: Global,
    book: &NodeBook<'_>,
    rows: &Slices<'_, SnapRow>,
    workers: usize,
    edges: &mut TargetLists,
) -> Result<(), Fault>
    ensures fault { Refuses result None }
    ensures ok { OnOk result (edges.new ≡ edges.old
        ++ map (λ row. targets_in book.now (snapshot Full row)) rows.now
        ++ map (λ row. targets_in book.now (snapshot Flat row)) rows.now) }
{
    read_rows(rt, alloc, &Snapshots { book }, rows, workers, edges)
}
