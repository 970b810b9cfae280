//! Where walks begin: references of images, containers and leases, and rows that are roots.
ghost use Rattle.std.specs.Prelude.{◌≡◌, ◌+◌, ◌≤◌, ◌++◌, ◌∷◌, [], length, if◌then◌else◌, OnOk, None, IfOk};
ghost use Rattle.std.specs.List.{flat_map};
ghost use Rattle.std.specs.List.Sorted.{IsPermutation};
ghost use Rattle.meta_types.specs.Faults.{Refuses};
ghost use Rattle.meta_types.specs.CollectorLabels.{is_marked_root};
ghost use Rattle.meta_types.specs.Paths.{image, container, lease, lease_mode, ingest_holds_itself};
ghost use Rattle.gc_graph.specs.Targets.{node, resource_mode, resource_targets};
ghost use Rattle.gc_graph.specs.Built.{numbers_in, targets_in, root_targets, places};

use crate::book::NodeBook;
use crate::ends::{image_stays, ingest_holds_itself, lease_stays};
use crate::refs::{Lookup, push_labels, push_number};
use crate::rows::near::Near;
use gc_labels::{is_flat, is_root};
use lease_book::Lease;
use meta_types::{
    ContainerRow, ContentRow, Fault, ImageRow, IngestRow, Instant, Mode, Resource, ShortName,
    SnapRow,
};
use std::alloc::Global;

fn push_image(
    alloc: Global,
    book: &NodeBook<'_>,
    row: &ImageRow,
    roots: &mut Vec<u32>,
) -> Result<(), Fault>
    ensures fault { Refuses result None }
    ensures ok { OnOk result (roots.new.items
        ≡ roots.old.items ++ targets_in book.now (image row.now)) }
{
    let ns = &row.ns;
    let mut near = Near::first();
    let number = book.content_number(ns, &row.target, Mode::Full, &mut near);
    push_number(number, roots)?;
    let lookup = Lookup { alloc, book, ns };
    push_labels(&lookup, &row.labels, &mut near, roots)
}

fn push_image_root(
    alloc: Global,
    book: &NodeBook<'_>,
    row: &ImageRow,
    profile: u8,
    at: Instant,
    roots: &mut Vec<u32>,
) -> Result<(), Fault>
    ensures fault { Refuses result None }
    ensures ok { OnOk result (roots.new.items
        ≡ roots.old.items ++ root_targets profile at.0 book.now (image row.now)) }
{
    if image_stays(row, profile, at) {
        push_image(alloc, book, row, roots)
    } else {
        Ok(())
    }
}

// Adds the numbers of what images reference that haven't ended.
pub(crate) fn push_images(
    alloc: Global,
    book: &NodeBook<'_>,
    rows: &[&ImageRow],
    profile: u8,
    at: Instant,
    roots: &mut Vec<u32>,
) -> Result<(), Fault>
    ensures fault { Refuses result None }
    ensures ok { OnOk result (roots.new.items ≡ roots.old.items
        ++ flat_map (λ row. root_targets profile at.0 book.now (image row.now)) rows.now) }
{
    for row in rows {
        push_image_root(alloc, book, row, profile, at, roots)?;
    }
    Ok(())
}

fn push_container(
    alloc: Global,
    book: &NodeBook<'_>,
    row: &ContainerRow,
    roots: &mut Vec<u32>,
) -> Result<(), Fault>
    ensures fault { Refuses result None }
    ensures ok { OnOk result (roots.new.items
        ≡ roots.old.items ++ targets_in book.now (container row.now)) }
{
    let ns = &row.ns;
    let mut near = Near::first();
    if let Some((snapshotter, key)) = &row.snapshot {
        let number = book.snapshot_number(ns, snapshotter, key, Mode::Full, &mut near);
        push_number(number, roots)?;
    }
    let lookup = Lookup { alloc, book, ns };
    let labels = &row.labels;
    push_labels(&lookup, labels, &mut near, roots)
}

// Adds the numbers of what containers reference.
pub(crate) fn push_containers(
    alloc: Global,
    book: &NodeBook<'_>,
    rows: &[&ContainerRow],
    roots: &mut Vec<u32>,
) -> Result<(), Fault>
    ensures fault { Refuses result None }
    ensures ok { OnOk result (roots.new.items ≡ roots.old.items
        ++ flat_map (λ row. targets_in book.now (container row.now)) rows.now) }
{
    for row in rows {
        push_container(alloc, book, row, roots)?;
    }
    Ok(())
}

fn push_resource(
    book: &NodeBook<'_>,
    ns: &ShortName,
    mode: Mode,
    resource: &Resource,
    near: &mut Near,
    roots: &mut Vec<u32>,
) -> Result<(), Fault>
    ensures fault { Refuses result None }
    ensures ok { OnOk result (roots.new.items ≡ roots.old.items ++ numbers_in book.now
        (node ns.now resource.now (resource_mode mode resource.now) ∷ [])) }
{
    push_number(book.resource_number(ns, resource, mode, near), roots)
}

fn push_resources(
    book: &NodeBook<'_>,
    ns: &ShortName,
    mode: Mode,
    resources: &[Resource],
    roots: &mut Vec<u32>,
) -> Result<(), Fault>
    ensures fault { Refuses result None }
    ensures ok { OnOk result (roots.new.items ≡ roots.old.items
        ++ numbers_in book.now (resource_targets ns.now mode resources.now)) }
{
    let mut near = Near::first();
    for resource in resources {
        push_resource(book, ns, mode, resource, &mut near, roots)?;
    }
    Ok(())
}

/// The mode in which a lease holds its resources.
pub fn lease_mode(row: &Lease) -> Mode
    ensures { result ≡ lease_mode row.now }
{
    if is_flat(row.labels()) {
        Mode::Flat
    } else {
        Mode::Full
    }
}

// A lease's resources are read as they arrived, so its roots stand in any order.
fn push_lease_root(
    book: &NodeBook<'_>,
    row: &Lease,
    profile: u8,
    at: Instant,
    roots: &mut Vec<u32>,
) -> Result<(), Fault>
    ensures fault { Refuses result None }
    ensures ok { OnOk result (IsPermutation (roots.old.items
        ++ root_targets profile at.0 book.now (lease row.now)) roots.new.items) }
{
    // The profile is named by the clauses alone.
    let _profile = profile;
    if lease_stays(row, at) {
        let held = row.arrived_resources();
        push_resources(book, row.ns(), lease_mode(row), held, roots)
    } else {
        Ok(())
    }
}

// Adds the numbers of what leases hold that haven't ended, in any order.
pub(crate) fn push_leases(
    book: &NodeBook<'_>,
    rows: &[&Lease],
    profile: u8,
    at: Instant,
    roots: &mut Vec<u32>,
) -> Result<(), Fault>
    ensures fault { Refuses result None }
    ensures ok { OnOk result (IsPermutation (roots.old.items
        ++ flat_map (λ row. root_targets profile at.0 book.now (lease row.now)) rows.now)
        roots.new.items) }
{
    for row in rows {
        push_lease_root(book, row, profile, at, roots)?;
    }
    Ok(())
}

fn push_place(number: u32, is_root: bool, roots: &mut Vec<u32>) -> Result<(), Fault>
    ensures fault { Refuses result None }
    ensures ok { OnOk result (roots.new.items
        ≡ roots.old.items ++ (if is_root then number ∷ [] else [])) }
{
    if is_root {
        roots.push(number)?;
    }
    Ok(())
}

// Adds the numbers of ingests of one slice that hold themselves; the first has the number `base`.
// It gives the number behind the last.
fn push_some_own_ingests(
    base: u32,
    rows: &[IngestRow],
    at: Instant,
    roots: &mut Vec<u32>,
) -> Result<u32, Fault>
    requires { base + length rows.now ≤ 16777216 }
    ensures fault { Refuses result None }
    ensures next { IfOk result (λ next. next ≡ base + length rows.now) }
    ensures ok { OnOk result (roots.new.items ≡ roots.old.items
        ++ places (λ row. ingest_holds_itself at.0 row) base rows.now) }
{
    let mut number = base;
    for row in rows {
        push_place(number, ingest_holds_itself(row, at), roots)?;
        number += 1;
    }
    Ok(number)
}

// Adds the numbers of ingests that hold themselves; the first has the number `base`.
pub(crate) fn push_own_ingests(
    base: u32,
    slices: &[&[IngestRow]],
    at: Instant,
    roots: &mut Vec<u32>,
) -> Result<(), Fault>
    requires { base + length (flat_map (λ rows. rows.now) slices.now) ≤ 16777216 }
    ensures fault { Refuses result None }
    ensures ok { OnOk result (roots.new.items ≡ roots.old.items
        ++ places (λ row. ingest_holds_itself at.0 row) base
        (flat_map (λ rows. rows.now) slices.now)) }
{
    let mut number = base;
    for rows in slices {
        let next = push_some_own_ingests(number, rows, at, roots)?;
        number = next;
    }
    Ok(())
}

// Adds the numbers of content of one slice with a root label; the first row has the number `base`.
// It gives the number behind the last.
fn push_some_marked_content(
    base: u32,
    rows: &[ContentRow],
    roots: &mut Vec<u32>,
) -> Result<u32, Fault>
    requires { base + length rows.now ≤ 16777216 }
    ensures fault { Refuses result None }
    ensures next { IfOk result (λ next. next ≡ base + length rows.now) }
    ensures ok { OnOk result (roots.new.items ≡ roots.old.items
        ++ places (λ row. is_marked_root row.labels) base rows.now) }
{
    let mut number = base;
    for row in rows {
        push_place(number, is_root(&row.labels), roots)?;
        number += 1;
    }
    Ok(number)
}

// Adds the numbers of content with a root label; the first row has the number `base`.
pub(crate) fn push_marked_content(
    base: u32,
    slices: &[&[ContentRow]],
    roots: &mut Vec<u32>,
) -> Result<(), Fault>
    requires { base + length (flat_map (λ rows. rows.now) slices.now) ≤ 16777216 }
    ensures fault { Refuses result None }
    ensures ok { OnOk result (roots.new.items ≡ roots.old.items
        ++ places (λ row. is_marked_root row.labels) base
        (flat_map (λ rows. rows.now) slices.now)) }
{
    let mut number = base;
    for rows in slices {
        let next = push_some_marked_content(number, rows, roots)?;
        number = next;
    }
    Ok(())
}

// Adds the numbers of snapshots of one slice with a root label; the first has the number `base`. It
// gives the number behind the last.
fn push_some_marked_snapshots(
    base: u32,
    rows: &[SnapRow],
    roots: &mut Vec<u32>,
) -> Result<u32, Fault>
    requires { base + length rows.now ≤ 16777216 }
    ensures fault { Refuses result None }
    ensures next { IfOk result (λ next. next ≡ base + length rows.now) }
    ensures ok { OnOk result (roots.new.items ≡ roots.old.items
        ++ places (λ row. is_marked_root row.labels) base rows.now) }
{
    let mut number = base;
    for row in rows {
        push_place(number, is_root(&row.labels), roots)?;
        number += 1;
    }
    Ok(number)
}

// Adds the numbers of snapshots with a root label; the first has the number `base`.
pub(crate) fn push_marked_snapshots(
    base: u32,
    slices: &[&[SnapRow]],
    roots: &mut Vec<u32>,
) -> Result<(), Fault>
    requires { base + length (flat_map (λ rows. rows.now) slices.now) ≤ 16777216 }
    ensures fault { Refuses result None }
    ensures ok { OnOk result (roots.new.items ≡ roots.old.items
        ++ places (λ row. is_marked_root row.labels) base
        (flat_map (λ rows. rows.now) slices.now)) }
{
    let mut number = base;
    for rows in slices {
        let next = push_some_marked_snapshots(number, rows, roots)?;
        number = next;
    }
    Ok(())
}
