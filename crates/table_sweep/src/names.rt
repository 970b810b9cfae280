//! The names of the removed rows, in key order.
ghost use Rattle.std.specs.Prelude.{◌≡◌, ◌++◌, ◌∷◌, [], map, length, if◌then◌else◌, OnOk, None, IfOk};
ghost use Rattle.std.specs.List.Sorted.{IsPermutation};
ghost use Rattle.meta_types.specs.Faults.{Refuses};
ghost use Rattle.row_tables.specs.Arrived.{sorted};
ghost use Rattle.gc_graph.specs.Stored.{records_of};
ghost use Rattle.table_sweep.specs.Masks.{gone};
ghost use Rattle.table_sweep.specs.Stays.{FitRows, gone_names};
ghost use Rattle.table_sweep.specs.InKeyOrder.{name_key, snapshot_name_key, names_in_key_order};

use crate::leases::lease_names;
use crate::masks::{Masks, count_removed};
use crate::prefix_order::{Prefixed, sorted_by_prefix};
use crate::sorting::{digests_in_order, names_in_order, snapshots_in_order};
use gc_graph::StoreRows;
use gc_report::Removed;
use meta_types::{ContentRow, Digest, Fault, ImageRow, IngestRow, Name, ShortName, SnapRow};
use row_tables::Slices;
use std::alloc::Global;

fn push_image(row: &ImageRow, stays: bool, names: &mut Vec<(ShortName, Name)>) -> Result<(), Fault>
    ensures fault { Refuses result None }
    ensures ok { OnOk result (names.new.items ≡ names.old.items
        ++ (if stays then [] else (row.now.ns, row.now.name) ∷ [])) }
{
    if !stays {
        names.push((row.ns.copy()?, row.name.copy()?))?;
    }
    Ok(())
}

fn image_names(
    alloc: Global,
    rows: &[&ImageRow],
    mask: &[bool],
) -> Result<Vec<(ShortName, Name)>, Fault>
    requires { length mask.now ≡ length rows.now }
    ensures fault { Refuses result None }
    ensures ok { IfOk result (λ names. names.items
        ≡ map (λ row. (row.now.ns, row.now.name)) (gone mask.now rows.now)) }
{
    let mut names = Vec::with_capacity(alloc, count_removed(mask))?;
    for (i, row) in rows.iter().enumerate() {
        push_image(row, mask[i], &mut names)?;
    }
    Ok(names)
}

fn push_ingest(
    row: &IngestRow,
    stays: bool,
    names: &mut Vec<(ShortName, Name)>,
) -> Result<(), Fault>
    ensures fault { Refuses result None }
    ensures ok { OnOk result (names.new.items ≡ names.old.items
        ++ (if stays then [] else (row.now.ns, row.now.name) ∷ [])) }
{
    if !stays {
        names.push((row.ns.copy()?, row.name.copy()?))?;
    }
    Ok(())
}

// Adds the names of those in a slice that go.
fn push_ingests(
    rows: &[IngestRow],
    mask: &[bool],
    names: &mut Vec<(ShortName, Name)>,
) -> Result<(), Fault>
    requires { length mask.now ≡ length rows.now }
    ensures fault { Refuses result None }
    ensures ok { OnOk result (names.new.items ≡ names.old.items
        ++ map (λ row. (row.ns, row.name)) (gone mask.now rows.now)) }
{
    for (i, row) in rows.iter().enumerate() {
        push_ingest(row, mask[i], names)?;
    }
    Ok(())
}

fn ingest_names(
    alloc: Global,
    rows: &Slices<'_, IngestRow>,
    mask: &[bool],
) -> Result<Vec<(ShortName, Name)>, Fault>
    requires { length mask.now ≡ length rows.now }
    ensures fault { Refuses result None }
    ensures ok { IfOk result (λ names. names.items
        ≡ map (λ row. (row.ns, row.name)) (gone mask.now rows.now)) }
{
    let mut names = Vec::with_capacity(alloc, count_removed(mask))?;
    let mut rest = mask;
    let slices = rows.as_slices();
    for slice in slices {
        let (here, behind) = rest.split_at(slice.len());
        push_ingests(slice, here, &mut names)?;
        rest = behind;
    }
    Ok(names)
}

fn push_content(
    row: &ContentRow,
    stays: bool,
    names: &mut Vec<(ShortName, Digest)>,
) -> Result<(), Fault>
    ensures fault { Refuses result None }
    ensures ok { OnOk result (names.new.items ≡ names.old.items
        ++ (if stays then [] else (row.now.ns, row.now.digest) ∷ [])) }
{
    if !stays {
        names.push((row.ns.copy()?, row.digest.copy()?))?;
    }
    Ok(())
}

// Adds the names of content in a slice that goes.
fn push_all_content(
    rows: &[ContentRow],
    mask: &[bool],
    names: &mut Vec<(ShortName, Digest)>,
) -> Result<(), Fault>
    requires { length mask.now ≡ length rows.now }
    ensures fault { Refuses result None }
    ensures ok { OnOk result (names.new.items ≡ names.old.items
        ++ map (λ row. (row.ns, row.digest)) (gone mask.now rows.now)) }
{
    for (i, row) in rows.iter().enumerate() {
        push_content(row, mask[i], names)?;
    }
    Ok(())
}

// The names of content, as it arrived.
fn content_as_arrived(
    names: Vec<(ShortName, Digest)>,
    rows: &Slices<'_, ContentRow>,
    mask: &[bool],
) -> Result<Vec<(ShortName, Digest)>, Fault>
    requires length { length mask.now ≡ length rows.now }
    requires empty { names.items ≡ [] }
    ensures fault { Refuses result None }
    ensures ok { IfOk result (λ names. names.items
        ≡ map (λ row. (row.ns, row.digest)) (gone mask.now rows.now)) }
{
    let mut names = names;
    let mut rest = mask;
    let slices = rows.as_slices();
    for slice in slices {
        let (here, behind) = rest.split_at(slice.len());
        push_all_content(slice, here, &mut names)?;
        rest = behind;
    }
    Ok(names)
}

// The names of content, as it is listed.
fn content_as_listed(
    names: Vec<(ShortName, Digest)>,
    near: &[Prefixed<'_, ContentRow>],
) -> Result<Vec<(ShortName, Digest)>, Fault>
    requires { names.items ≡ [] }
    ensures fault { Refuses result None }
    ensures ok { IfOk result (λ names. names.items
        ≡ map (λ one. (one.row.now.ns, one.row.now.digest)) near.now) }
{
    let mut names = names;
    for one in near {
        let listed = one.row;
        names.push((listed.ns.copy()?, listed.digest.copy()?))?;
    }
    Ok(names)
}

// The names of content that goes: nearly in order, where there is memory for that.
fn content_names(
    alloc: Global,
    rows: &Slices<'_, ContentRow>,
    mask: &[bool],
) -> Result<Vec<(ShortName, Digest)>, Fault>
    requires { length mask.now ≡ length rows.now }
    ensures fault { Refuses result None }
    ensures ok { IfOk result (λ names. IsPermutation
        (map (λ row. (row.ns, row.digest)) (gone mask.now rows.now)) names.items) }
{
    let names = Vec::with_capacity(alloc, count_removed(mask))?;
    let Ok(near) = sorted_by_prefix(alloc, rows, mask) else {
        let names = content_as_arrived(names, rows, mask)?; // for the prover: opened
        return Ok(names);
    };
    let names = content_as_listed(names, &near)?; // for the prover: opened
    Ok(names)
}

// The names of content that goes, in key order.
fn removed_content(
    alloc: Global,
    rows: &Slices<'_, ContentRow>,
    mask: &[bool],
) -> Result<Vec<(ShortName, Digest)>, Fault>
    requires { length mask.now ≡ length rows.now }
    ensures fault { Refuses result None }
    ensures ok { IfOk result (λ names. names.items ≡ sorted name_key
        (map (λ row. (row.ns, row.digest)) (gone mask.now rows.now))) }
{
    let names = content_names(alloc, rows, mask)?;
    let names = digests_in_order(names)?; // for the prover: opened
    Ok(names)
}

fn push_snapshot(
    row: &SnapRow,
    stays: bool,
    names: &mut Vec<(ShortName, ShortName, Name)>,
) -> Result<(), Fault>
    ensures fault { Refuses result None }
    ensures ok { OnOk result (names.new.items ≡ names.old.items ++ (if stays then []
        else (row.now.key.ns, row.now.key.snapshotter, row.now.key.name) ∷ [])) }
{
    if !stays {
        let key = &row.key;
        names.push((key.ns.copy()?, key.snapshotter.copy()?, key.name.copy()?))?;
    }
    Ok(())
}

// Adds the names of snapshots in a slice that go.
fn push_snapshots(
    rows: &[SnapRow],
    mask: &[bool],
    names: &mut Vec<(ShortName, ShortName, Name)>,
) -> Result<(), Fault>
    requires { length mask.now ≡ length rows.now }
    ensures fault { Refuses result None }
    ensures ok { OnOk result (names.new.items ≡ names.old.items
        ++ map (λ row. (row.key.ns, row.key.snapshotter, row.key.name))
        (gone mask.now rows.now)) }
{
    for (i, row) in rows.iter().enumerate() {
        push_snapshot(row, mask[i], names)?;
    }
    Ok(())
}

// The names of snapshots, as they arrived.
fn snapshots_as_arrived(
    names: Vec<(ShortName, ShortName, Name)>,
    rows: &Slices<'_, SnapRow>,
    mask: &[bool],
) -> Result<Vec<(ShortName, ShortName, Name)>, Fault>
    requires length { length mask.now ≡ length rows.now }
    requires empty { names.items ≡ [] }
    ensures fault { Refuses result None }
    ensures ok { IfOk result (λ names. names.items
        ≡ map (λ row. (row.key.ns, row.key.snapshotter, row.key.name))
        (gone mask.now rows.now)) }
{
    let mut names = names;
    let mut rest = mask;
    let slices = rows.as_slices();
    for slice in slices {
        let (here, behind) = rest.split_at(slice.len());
        push_snapshots(slice, here, &mut names)?;
        rest = behind;
    }
    Ok(names)
}

// The names of snapshots, as they are listed.
fn snapshots_as_listed(
    names: Vec<(ShortName, ShortName, Name)>,
    near: &[Prefixed<'_, SnapRow>],
) -> Result<Vec<(ShortName, ShortName, Name)>, Fault>
    requires { names.items ≡ [] }
    ensures fault { Refuses result None }
    ensures ok { IfOk result (λ names. names.items
        ≡ map (λ one. (one.row.now.key.ns, one.row.now.key.snapshotter, one.row.now.key.name))
        near.now) }
{
    let mut names = names;
    for one in near {
        let listed = &one.row.key;
        names.push((
            listed.ns.copy()?,
            listed.snapshotter.copy()?,
            listed.name.copy()?,
        ))?;
    }
    Ok(names)
}

// The names of snapshots that go: nearly in order, where there is memory for that.
fn snapshot_names(
    alloc: Global,
    rows: &Slices<'_, SnapRow>,
    mask: &[bool],
) -> Result<Vec<(ShortName, ShortName, Name)>, Fault>
    requires { length mask.now ≡ length rows.now }
    ensures fault { Refuses result None }
    ensures ok { IfOk result (λ names. IsPermutation
        (map (λ row. (row.key.ns, row.key.snapshotter, row.key.name))
        (gone mask.now rows.now)) names.items) }
{
    let names = Vec::with_capacity(alloc, count_removed(mask))?;
    let Ok(near) = sorted_by_prefix(alloc, rows, mask) else {
        let names = snapshots_as_arrived(names, rows, mask)?; // for the prover: opened
        return Ok(names);
    };
    let names = snapshots_as_listed(names, &near)?; // for the prover: opened
    Ok(names)
}

// The names of snapshots that go, in key order.
fn removed_snapshots(
    alloc: Global,
    rows: &Slices<'_, SnapRow>,
    mask: &[bool],
) -> Result<Vec<(ShortName, ShortName, Name)>, Fault>
    requires { length mask.now ≡ length rows.now }
    ensures fault { Refuses result None }
    ensures ok { IfOk result (λ names. names.items ≡ sorted snapshot_name_key
        (map (λ row. (row.key.ns, row.key.snapshotter, row.key.name))
        (gone mask.now rows.now))) }
{
    let names = snapshot_names(alloc, rows, mask)?;
    let names = snapshots_in_order(names)?; // for the prover: opened
    Ok(names)
}

// The names of the removed rows, in key order.
pub(crate) fn removed_of(
    alloc: Global,
    rows: &StoreRows<'_>,
    masks: &Masks,
) -> Result<Removed, Fault>
    requires { FitRows (records_of rows.now).tables (records_of rows.now).leases masks.now }
    ensures fault { Refuses result None }
    ensures ok { IfOk result (λ r. r
        ≡ names_in_key_order (gone_names (records_of rows.now) masks.now)) }
{
    let content = removed_content(alloc, rows.content, &masks.content)?;
    let images = image_names(alloc, rows.images, &masks.images)?;
    let images = names_in_order(images)?;
    let ingests = ingest_names(alloc, rows.ingests, &masks.ingests)?;
    let ingests = names_in_order(ingests)?;
    let leases = lease_names(alloc, rows.leases, &masks.leases)?;
    let leases = names_in_order(leases)?;
    let snapshots = removed_snapshots(alloc, rows.snapshots, &masks.snapshots)?;
    Ok(Removed {
        content,
        images,
        ingests,
        leases,
        snapshots,
    })
}
