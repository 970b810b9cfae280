//! Lines that make rows without a number.
ghost use Rattle.std.specs.Prelude.{IfErr};
ghost use Rattle.checkpoint.specs.Writing.{Stops};

use crate::script::line::{Lines, RowLine, put_data, put_plain, put_row};
use lease_book::Lease;
use meta_types::{ContainerRow, ContentRow, Fault, ImageRow, Resource};
use std::alloc::{AllocError, Global};

fn put_content_row<L: Lines>(lines: &mut L, alloc: Global, row: &ContentRow) -> Result<(), Fault>
    ensures { IfErr result (Stops L.refuses) }
{
    let digest = row.digest.text();
    put_content_at(lines, alloc, row, digest.as_str())
}

fn put_content_at<L: Lines>(
    lines: &mut L,
    alloc: Global,
    row: &ContentRow,
    digest: &str,
) -> Result<(), Fault>
    ensures { IfErr result (Stops L.refuses) }
{
    let naming = [("ns", row.ns.text()), ("digest", digest)];
    let line = RowLine {
        op: "content.add",
        members: &naming,
        label_op: "content.label",
        naming: &naming,
    };
    put_row(lines, alloc, &line, &row.labels)?;
    put_data(lines, alloc, "content.set", &naming, row.extra.text())
}

/// Puts rows of content.
pub(crate) fn put_content<L: Lines>(
    lines: &mut L,
    alloc: Global,
    rows: &[&ContentRow],
) -> Result<(), Fault>
    ensures { IfErr result (Stops L.refuses) }
{
    for row in rows {
        put_content_row(lines, alloc, row)?;
    }
    Ok(())
}

fn put_image<L: Lines>(lines: &mut L, alloc: Global, row: &ImageRow) -> Result<(), Fault>
    ensures { IfErr result (Stops L.refuses) }
{
    let target = row.target.text();
    put_image_of(lines, alloc, row, target.as_str())
}

fn put_image_of<L: Lines>(
    lines: &mut L,
    alloc: Global,
    row: &ImageRow,
    target: &str,
) -> Result<(), Fault>
    ensures { IfErr result (Stops L.refuses) }
{
    let naming = [("ns", row.ns.text()), ("name", row.name.text())];
    let members = [
        ("ns", row.ns.text()),
        ("name", row.name.text()),
        ("target", target),
    ];
    let line = RowLine {
        op: "image.add",
        members: &members,
        label_op: "image.label",
        naming: &naming,
    };
    put_row(lines, alloc, &line, &row.labels)?;
    put_data(lines, alloc, "image.set", &naming, row.extra.text())
}

/// Puts images.
pub(crate) fn put_images<L: Lines>(
    lines: &mut L,
    alloc: Global,
    rows: &[&ImageRow],
) -> Result<(), Fault>
    ensures { IfErr result (Stops L.refuses) }
{
    for row in rows {
        put_image(lines, alloc, row)?;
    }
    Ok(())
}

// The snapshotter and the name of a container's snapshot; empty texts where it has none.
fn snapshot_texts(row: &ContainerRow) -> (&str, &str) {
    match &row.snapshot {
        Some((snapshotter, key)) => (snapshotter.text(), key.text()),
        None => ("", ""),
    }
}

fn put_container<L: Lines>(lines: &mut L, alloc: Global, row: &ContainerRow) -> Result<(), Fault>
    ensures { IfErr result (Stops L.refuses) }
{
    let (snapshotter, key) = snapshot_texts(row);
    let naming = [("ns", row.ns.text()), ("name", row.name.text())];
    let members = [
        ("ns", row.ns.text()),
        ("name", row.name.text()),
        ("snapshotter", snapshotter),
        ("key", key),
    ];
    let line = RowLine {
        op: "container.add",
        members: &members,
        label_op: "container.label",
        naming: &naming,
    };
    put_row(lines, alloc, &line, &row.labels)?;
    put_data(lines, alloc, "container.set", &naming, row.extra.text())
}

/// Puts containers.
pub(crate) fn put_containers<L: Lines>(
    lines: &mut L,
    alloc: Global,
    rows: &[&ContainerRow],
) -> Result<(), Fault>
    ensures { IfErr result (Stops L.refuses) }
{
    for row in rows {
        put_container(lines, alloc, row)?;
    }
    Ok(())
}

fn put_lease<L: Lines>(lines: &mut L, alloc: Global, lease: &Lease) -> Result<(), Fault>
    ensures { IfErr result (Stops L.refuses) }
{
    let naming = [("ns", lease.ns().text()), ("id", lease.id().text())];
    let line = RowLine {
        op: "lease.add",
        members: &naming,
        label_op: "lease.label",
        naming: &naming,
    };
    put_row(lines, alloc, &line, lease.labels())?;
    put_data(lines, alloc, "lease.set", &naming, lease.extra().text())
}

/// Puts leases, which hold nothing yet.
pub(crate) fn put_leases<L: Lines>(
    lines: &mut L,
    alloc: Global,
    leases: &[&Lease],
) -> Result<(), Fault>
    ensures { IfErr result (Stops L.refuses) }
{
    for lease in leases {
        put_lease(lines, alloc, lease)?;
    }
    Ok(())
}

// The type and the name of a resource.
fn resource_texts(alloc: Global, resource: &Resource) -> Result<(String, String), AllocError> {
    match resource {
        Resource::Content(digest) => Ok((
            String::from_str(alloc, "content")?,
            String::from_str(alloc, digest.text().as_str())?,
        )),
        Resource::Ingest(name) => Ok((
            String::from_str(alloc, "ingests")?,
            String::from_str(alloc, name.text())?,
        )),
        Resource::Snapshot(snapshotter, name) => {
            let mut kind = String::from_str(alloc, "snapshots/")?;
            kind.push_str(snapshotter.text())?;
            Ok((kind, String::from_str(alloc, name.text())?))
        }
    }
}

fn put_hold<L: Lines>(
    lines: &mut L,
    alloc: Global,
    lease: &Lease,
    resource: &Resource,
) -> Result<(), Fault>
    ensures { IfErr result (Stops L.refuses) }
{
    let (kind, name) = resource_texts(alloc, resource)?;
    put_hold_of(lines, alloc, lease, &kind, &name)
}

fn put_hold_of<L: Lines>(
    lines: &mut L,
    alloc: Global,
    lease: &Lease,
    kind: &str,
    name: &str,
) -> Result<(), Fault>
    ensures { IfErr result (Stops L.refuses) }
{
    let members = [
        ("ns", lease.ns().text()),
        ("id", lease.id().text()),
        ("type", kind),
        ("resource", name),
    ];
    put_plain(lines, alloc, "lease.hold", &members)
}

fn put_holds_of<L: Lines>(lines: &mut L, alloc: Global, lease: &Lease) -> Result<(), Fault>
    ensures { IfErr result (Stops L.refuses) }
{
    let resources = lease.resources(alloc)?;
    for resource in &resources {
        put_hold(lines, alloc, lease, resource)?;
    }
    Ok(())
}

/// Puts what leases hold.
pub(crate) fn put_holds<L: Lines>(
    lines: &mut L,
    alloc: Global,
    leases: &[&Lease],
) -> Result<(), Fault>
    ensures { IfErr result (Stops L.refuses) }
{
    for lease in leases {
        put_holds_of(lines, alloc, lease)?;
    }
    Ok(())
}
