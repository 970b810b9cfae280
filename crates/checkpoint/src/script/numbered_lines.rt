//! Lines that make what has a number, under this number.
ghost use Rattle.std.specs.Prelude.{IfErr};
ghost use Rattle.checkpoint.specs.Writing.{Stops};

use crate::script::line::{Lines, RowLine, put_data, put_number, put_plain, put_row};
use crate::script::moment::{ANY_MOMENT, began};
use crate::script::numbered::Numbered;
use crate::script::spare::Spare;
use crate::script::unowned_lines::{put_unowned, put_unowned_ingest};
use meta_types::{Fault, IngestRow, SnapKind, SnapRow};
use std::alloc::{AllocError, Global};

/// The next number is this one from here on: where it is another so far, a line raises it.
pub(crate) fn go_on_at<L: Lines>(
    lines: &mut L,
    alloc: Global,
    next: u64,
    number: u64,
) -> Result<(), Fault>
    ensures { IfErr result (Stops L.refuses) }
{
    if next == number {
        return Ok(());
    }
    put_number(lines, alloc, number)
}

// The texts of the members `at` and `lease`: an ingest without an end is begun under a spare lease.
fn beginning(
    alloc: Global,
    spare: &Spare,
    row: &IngestRow,
) -> Result<(String, String), AllocError> {
    match row.expires {
        Some(end) => Ok((began(alloc, end)?, String::new(alloc))),
        None => Ok((String::from_str(alloc, ANY_MOMENT)?, spare.name(alloc, 0)?)),
    }
}

fn expected_text(alloc: Global, row: &IngestRow) -> Result<String, AllocError> {
    match &row.expected {
        Some(digest) => String::from_str(alloc, digest.text().as_str()),
        None => Ok(String::new(alloc)),
    }
}

fn put_ingest<L: Lines>(
    lines: &mut L,
    alloc: Global,
    spare: &Spare,
    row: &IngestRow,
) -> Result<(), Fault>
    ensures { IfErr result (Stops L.refuses) }
{
    let (at, lease) = beginning(alloc, spare, row)?;
    let expected = expected_text(alloc, row)?;
    put_begin(lines, alloc, row, &at, &expected, &lease)
}

fn put_begin<L: Lines>(
    lines: &mut L,
    alloc: Global,
    row: &IngestRow,
    at: &str,
    expected: &str,
    lease: &str,
) -> Result<(), Fault>
    ensures { IfErr result (Stops L.refuses) }
{
    let members = [
        ("ns", row.ns.text()),
        ("ref", row.name.text()),
        ("at", at),
        ("expected", expected),
        ("data", row.extra.text()),
        ("lease", lease),
    ];
    put_plain(lines, alloc, "ingest.begin", &members)
}

// The name of a row's parent; an empty text where it has none.
fn parent_text(row: &SnapRow) -> &str {
    match &row.parent {
        Some(parent) => parent.text(),
        None => "",
    }
}

// An active snapshot, or a view.
fn put_open<L: Lines>(lines: &mut L, alloc: Global, op: &str, row: &SnapRow) -> Result<(), Fault>
    ensures { IfErr result (Stops L.refuses) }
{
    let members = [
        ("ns", row.key.ns.text()),
        ("snapshotter", row.key.snapshotter.text()),
        ("key", row.key.name.text()),
        ("parent", parent_text(row)),
    ];
    let naming = [
        ("ns", row.key.ns.text()),
        ("snapshotter", row.key.snapshotter.text()),
        ("name", row.key.name.text()),
    ];
    let line = RowLine {
        op,
        members: &members,
        label_op: "snap.label",
        naming: &naming,
    };
    put_row(lines, alloc, &line, &row.labels)
}

// A committed snapshot, which is prepared under a spare name.
fn put_committed<L: Lines>(
    lines: &mut L,
    alloc: Global,
    spare: &Spare,
    row: &SnapRow,
) -> Result<(), Fault>
    ensures { IfErr result (Stops L.refuses) }
{
    let key = spare.name(alloc, row.number)?;
    put_working(lines, alloc, row, &key)?;
    put_commit(lines, alloc, row, &key)
}

// The active snapshot that a row was before it was committed.
fn put_working<L: Lines>(
    lines: &mut L,
    alloc: Global,
    row: &SnapRow,
    key: &str,
) -> Result<(), Fault>
    ensures { IfErr result (Stops L.refuses) }
{
    let members = [
        ("ns", row.key.ns.text()),
        ("snapshotter", row.key.snapshotter.text()),
        ("key", key),
        ("parent", parent_text(row)),
    ];
    put_plain(lines, alloc, "snap.prepare", &members)
}

fn put_commit<L: Lines>(lines: &mut L, alloc: Global, row: &SnapRow, key: &str) -> Result<(), Fault>
    ensures { IfErr result (Stops L.refuses) }
{
    let members = [
        ("ns", row.key.ns.text()),
        ("snapshotter", row.key.snapshotter.text()),
        ("key", key),
        ("name", row.key.name.text()),
    ];
    let naming = [
        ("ns", row.key.ns.text()),
        ("snapshotter", row.key.snapshotter.text()),
        ("name", row.key.name.text()),
    ];
    let line = RowLine {
        op: "snap.commit",
        members: &members,
        label_op: "snap.label",
        naming: &naming,
    };
    put_row(lines, alloc, &line, &row.labels)
}

fn put_snapshot<L: Lines>(
    lines: &mut L,
    alloc: Global,
    spare: &Spare,
    row: &SnapRow,
) -> Result<(), Fault>
    ensures { IfErr result (Stops L.refuses) }
{
    match row.kind {
        SnapKind::Active => put_open(lines, alloc, "snap.prepare", row)?,
        SnapKind::View => put_open(lines, alloc, "snap.view", row)?,
        SnapKind::Committed => put_committed(lines, alloc, spare, row)?,
    }
    let naming = [
        ("ns", row.key.ns.text()),
        ("snapshotter", row.key.snapshotter.text()),
        ("key", row.key.name.text()),
    ];
    put_data(lines, alloc, "snap.set", &naming, row.extra.text())
}

// Puts a row, or what makes an object without one. `parents` are the numbers of such objects that
// others stand over, in their order.
fn put_one<L: Lines>(
    lines: &mut L,
    alloc: Global,
    spare: &Spare,
    one: &Numbered<'_>,
    parents: &[u64],
) -> Result<(), Fault>
    ensures { IfErr result (Stops L.refuses) }
{
    match one {
        Numbered::Ingest(row) => put_ingest(lines, alloc, spare, row),
        Numbered::Snapshot(row) => put_snapshot(lines, alloc, spare, row),
        Numbered::UnownedIngest(number) => put_unowned_ingest(lines, alloc, spare, *number),
        Numbered::UnownedSnapshot(other) => {
            let is_parent = parents.binary_search(&other.number).is_ok();
            put_unowned(lines, alloc, spare, other, is_parent)
        }
    }
}

/// Puts all that has a number, each behind a line that raises the next number where it is another.
/// Answers the next number behind them. `parents` are the numbers of objects without a row that
/// others stand over, in their order.
pub(crate) fn put_numbered<L: Lines>(
    lines: &mut L,
    alloc: Global,
    spare: &Spare,
    list: &[Numbered<'_>],
    parents: &[u64],
) -> Result<u64, Fault>
    ensures { IfErr result (Stops L.refuses) }
{
    let mut next = 1u64;
    for one in list {
        let number = one.number();
        go_on_at(lines, alloc, next, number)?;
        next = number.saturating_add(1);
        put_one(lines, alloc, spare, one, parents)?;
    }
    Ok(next)
}
