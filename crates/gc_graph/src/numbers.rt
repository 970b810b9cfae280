//! A number is the first of its kind and mode, plus the place of its row.
ghost use Rattle.std.specs.Prelude.{◌≡◌, ◌<◌, length, map, None, Some, IfOk, IfSome, slice_get, option_map};
ghost use Rattle.meta_types.specs.Faults.{Refuses};
ghost use Rattle.meta_types.specs.declared.resource.Mode.TheVariants.{Full, Flat};
ghost use Rattle.meta_types.specs.declared.resource.Resource.TheVariants.{Content, Snapshot, Ingest};
ghost use Rattle.gc_graph.specs.Targets.{node, ingest_node, content_node, snapshot_node, nodes_of};
ghost use Rattle.gc_graph.specs.Built.{number_of};
ghost use Rattle.gc_graph.specs.Numbers.{first_content, first_snapshot};
ghost use Rattle.gc_graph.specs.Stored.{records_of, IsSmall, AreLent};

use crate::node::Node;
use crate::nodes::{content_node, ingest_node, snapshot_node};
use crate::rows::StoreRows;
use crate::rows::places::{content_place, is_snapshot_at, snapshot_place};
use meta_types::{ContentRow, Digest, Fault, IngestRow, Mode, Name, ShortName, SnapRow};
use row_tables::Slices;

fn first_content(rows: &StoreRows<'_>, mode: Mode) -> usize
    requires { IsSmall rows.now }
    ensures { result ≡ first_content mode (records_of rows.now) }
{
    match mode {
        Mode::Full => rows.ingests.len(),
        Mode::Flat => rows.ingests.len() + rows.content.len(),
    }
}

fn first_snapshot(rows: &StoreRows<'_>, mode: Mode) -> usize
    requires { IsSmall rows.now }
    ensures { result ≡ first_snapshot mode (records_of rows.now) }
{
    let first = rows.ingests.len() + 2 * rows.content.len();
    match mode {
        Mode::Full => first,
        Mode::Flat => first + rows.snapshots.len(),
    }
}

/// The number of a snapshot in a mode.
pub(crate) fn snapshot_number(
    rows: &StoreRows<'_>,
    ns: &ShortName,
    snapshotter: &ShortName,
    name: &Name,
    mode: Mode,
    near: &mut usize,
) -> Option<u32>
    requires small { IsSmall rows.now }
    requires lent { AreLent rows.now }
    ensures { result ≡ number_of (nodes_of (records_of rows.now))
        (node ns.now (Snapshot snapshotter.now name.now) mode) }
{
    let (full, flat) = snapshot_numbers(rows, ns, snapshotter, name, near)?;
    match mode {
        Mode::Full => Some(full),
        Mode::Flat => Some(flat),
    }
}

/// The number of an ingest.
pub(crate) fn ingest_number(rows: &StoreRows<'_>, ns: &ShortName, name: &Name) -> Option<u32>
    requires small { IsSmall rows.now }
    requires lent { AreLent rows.now }
    ensures { result ≡ number_of (nodes_of (records_of rows.now))
        (node ns.now (Ingest name.now) Full) }
{
    match rows.places.ingests.place(ns, name) {
        Some(place) => Some(place as u32),
        None => None,
    }
}

/// An ingest has no number in flat.
pub(crate) fn flat_ingest_number(rows: &StoreRows<'_>, ns: &ShortName, name: &Name) -> Option<u32>
    ensures { result ≡ number_of (nodes_of (records_of rows.now))
        (node ns.now (Ingest name.now) Flat) }
{
    // The rows and the texts are named by the clauses alone.
    let _rows = rows;
    let _ns = ns;
    let _name = name;
    None
}

/// The number of content in a mode. The place `near` is tried first, and then the one behind the
/// content that was found.
pub(crate) fn content_number(
    rows: &StoreRows<'_>,
    ns: &ShortName,
    digest: &Digest,
    mode: Mode,
    near: &mut usize,
) -> Option<u32>
    requires small { IsSmall rows.now }
    requires lent { AreLent rows.now }
    ensures { result ≡ number_of (nodes_of (records_of rows.now))
        (node ns.now (Content digest.now) mode) }
{
    let first = first_content(rows, mode);
    match content_place(rows, *near, ns, digest) {
        Some(place) => {
            *near = place.saturating_add(1);
            Some((first + place) as u32)
        }
        None => None,
    }
}

/// The numbers of a snapshot, in full and in flat: one look-up finds both. The place `near` is tried
/// first, and then the one behind the snapshot that was found.
pub(crate) fn snapshot_numbers(
    rows: &StoreRows<'_>,
    ns: &ShortName,
    snapshotter: &ShortName,
    name: &Name,
    near: &mut usize,
) -> Option<(u32, u32)>
    requires small { IsSmall rows.now }
    requires lent { AreLent rows.now }
    ensures full { option_map (λ numbers. numbers.0) result
        ≡ number_of (nodes_of (records_of rows.now))
        (node ns.now (Snapshot snapshotter.now name.now) Full) }
    ensures flat { option_map (λ numbers. numbers.1) result
        ≡ number_of (nodes_of (records_of rows.now))
        (node ns.now (Snapshot snapshotter.now name.now) Flat) }
{
    let full = first_snapshot(rows, Mode::Full);
    let flat = first_snapshot(rows, Mode::Flat);
    match snapshot_place(rows, *near, ns, snapshotter, name) {
        Some(place) => {
            *near = place.saturating_add(1);
            Some(((full + place) as u32, (flat + place) as u32))
        }
        None => None,
    }
}

/// The number of the snapshot at the place `near`, where it is the one of these texts. None of them
/// is copied.
pub(crate) fn near_snapshot_number(
    rows: &StoreRows<'_>,
    ns: &ShortName,
    snapshotter: &str,
    name: &str,
    near: &mut usize,
) -> Option<u32>
    requires small { IsSmall rows.now }
    requires lent { AreLent rows.now }
    ensures { IfSome result (λ number. Some number ≡ number_of (nodes_of (records_of rows.now))
        (node ns.now (Snapshot snapshotter.now name.now) Full)) }
{
    let place = *near;
    if !is_snapshot_at(rows.snapshots, place, ns, snapshotter, name) {
        return None;
    }
    // Its clause says that no key stands twice.
    let _count = rows.places.snapshots.len();
    *near = place.saturating_add(1);
    Some((first_snapshot(rows, Mode::Full) + place) as u32)
}

fn ingest_at(rows: &Slices<'_, IngestRow>, place: usize) -> Result<Option<Node>, Fault>
    ensures fault { Refuses result None }
    ensures ok { IfOk result (λ node. node
        ≡ slice_get (map ingest_node rows.now) place) }
{
    match rows.at(place) {
        Some(row) => Ok(Some(ingest_node(row)?)),
        None => Ok(None),
    }
}

fn content_at(
    rows: &Slices<'_, ContentRow>,
    place: usize,
    mode: Mode,
) -> Result<Option<Node>, Fault>
    ensures fault { Refuses result None }
    ensures ok { IfOk result (λ node. node
        ≡ slice_get (map (content_node mode) rows.now) place) }
{
    match rows.at(place) {
        Some(row) => Ok(Some(content_node(row, mode)?)),
        None => Ok(None),
    }
}

fn snapshot_at(rows: &Slices<'_, SnapRow>, place: usize, mode: Mode) -> Result<Option<Node>, Fault>
    ensures fault { Refuses result None }
    ensures ok { IfOk result (λ node. node
        ≡ slice_get (map (snapshot_node mode) rows.now) place) }
{
    match rows.at(place) {
        Some(row) => Ok(Some(snapshot_node(row, mode)?)),
        None => Ok(None),
    }
}

/// The node of a number, made from its row.
pub(crate) fn node_at(rows: &StoreRows<'_>, number: usize) -> Result<Option<Node>, Fault>
    requires { IsSmall rows.now }
    ensures fault { Refuses result None }
    ensures ok { IfOk result (λ node. node ≡ slice_get (nodes_of (records_of rows.now)) number) }
{
    let content = rows.ingests.len();
    if number < content {
        return Ok(ingest_at(rows.ingests, number)?);
    }
    let flat_content = content + rows.content.len();
    if number < flat_content {
        return Ok(content_at(rows.content, number - content, Mode::Full)?);
    }
    let snapshots = flat_content + rows.content.len();
    if number < snapshots {
        let place = number - flat_content;
        return Ok(content_at(rows.content, place, Mode::Flat)?);
    }
    let flat_snapshots = snapshots + rows.snapshots.len();
    if number < flat_snapshots {
        let place = number - snapshots;
        return Ok(snapshot_at(rows.snapshots, place, Mode::Full)?);
    }
    let end = flat_snapshots + rows.snapshots.len();
    if number < end {
        let place = number - flat_snapshots;
        return Ok(snapshot_at(rows.snapshots, place, Mode::Flat)?);
    }
    Ok(None)
}
