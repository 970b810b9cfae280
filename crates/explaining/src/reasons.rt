//! By what a thing references another.
ghost use Rattle.std.specs.Prelude.{◌≡◌, option_map, map, false, None, IfOk, bytes_eq};
ghost use Rattle.std.specs.List.{list_any};
ghost use Rattle.std.specs.Option.{option_map_or};
ghost use Rattle.meta_types.specs.Faults.{Refuses};
ghost use Rattle.meta_types.specs.Paths.{is_content, is_snapshot, is_resource, is_parent, lease_mode};
ghost use Rattle.meta_types.specs.declared.resource.Mode.TheVariants.{Full};
ghost use Rattle.explaining.specs.ThingRows.{thing_of};
ghost use Rattle.meta_types.specs.Reasons.{is_ref, label_reason, reason_in, reason_of};
ghost use Rattle.explaining.specs.Reasons.{by_of};

use crate::thing_row::{ThingRow, is_content, is_resource, is_snapshot, namespace_of};
use gc_graph::lease_mode;
use gc_labels::{content_ref, snapshot_ref};
use lease_book::Lease;
use meta_types::{ContainerRow, Digest, Fault, IngestRow, Labels, Mode, Resource, SnapRow};
use std::alloc::Global;

/// By what a thing references another.
#[derive(Clone, Copy)]
pub(crate) enum Why<'a> {
    Target,
    Snapshot,
    Resource,
    Expected,
    Parent,
    Label(&'a str),
}

fn is_text(text: &str, digest: &Digest) -> bool
    ensures { result ≡ bytes_eq text.now digest.now }
{
    let written = digest.text();
    text == written.as_str()
}

// Whether a label references a thing.
fn is_ref(key: &str, value: &str, thing: ThingRow<'_>) -> bool
    ensures { result ≡ is_ref (key.now, value.now) (thing_of thing.entry) }
{
    match thing {
        ThingRow::Content(Mode::Full, row) => content_ref(key) && is_text(value, &row.digest),
        ThingRow::Snapshot(Mode::Full, row) => match snapshot_ref(key) {
            Some(s) => s == row.key.snapshotter.text() && value == row.key.name.text(),
            None => false,
        },
        _ => false,
    }
}

// The first label that references a thing.
fn label_reason<'a>(labels: &'a Labels, thing: ThingRow<'_>) -> Option<Why<'a>>
    ensures { option_map by_of result ≡ label_reason labels.now (thing_of thing.entry) }
{
    let entries = labels.entries();
    for entry in entries {
        if is_ref(&entry.0, &entry.1, thing) {
            return Some(Why::Label(entry.0.as_str()));
        }
    }
    None
}

fn is_held(resources: &[&Resource], mode: Mode, thing: ThingRow<'_>) -> bool
    ensures { result ≡ list_any (λ held. is_resource held mode (thing_of thing.entry))
        (map (λ resource. resource.now) resources.now) }
{
    for resource in resources {
        if is_resource(resource, mode, thing) {
            return true;
        }
    }
    false
}

fn holds(alloc: Global, row: &Lease, thing: ThingRow<'_>) -> Result<bool, Fault>
    ensures fault { Refuses result None }
    ensures ok { IfOk result (λ b. b ≡ list_any
        (λ held. is_resource held (lease_mode row.now) (thing_of thing.entry)) row.now.resources) }
{
    let resources = row.resources(alloc)?;
    Ok(is_held(&resources, lease_mode(row), thing))
}

fn mounts(row: &ContainerRow, thing: ThingRow<'_>) -> bool
    ensures { result ≡ option_map_or (λ key. is_snapshot key.0 key.1 Full (thing_of thing.entry))
        row.now.snapshot false }
{
    match &row.snapshot {
        Some((snapshotter, name)) => {
            is_snapshot(snapshotter.text(), name.text(), Mode::Full, thing)
        }
        None => false,
    }
}

fn expects(row: &IngestRow, thing: ThingRow<'_>) -> bool
    ensures { result ≡ option_map_or (λ digest. is_content digest Full (thing_of thing.entry))
        row.now.expected false }
{
    match &row.expected {
        Some(digest) => is_content(digest, Mode::Full, thing),
        None => false,
    }
}

fn is_parent(row: &SnapRow, mode: Mode, thing: ThingRow<'_>) -> bool
    ensures { result ≡ is_parent row.now mode (thing_of thing.entry) }
{
    match &row.parent {
        Some(name) => is_snapshot(row.key.snapshotter.text(), name.text(), mode, thing),
        None => false,
    }
}

// By what a thing references another, where their namespace is the same.
fn reason_in<'a>(
    alloc: Global,
    from: ThingRow<'a>,
    to: ThingRow<'_>,
) -> Result<Option<Why<'a>>, Fault>
    ensures fault { Refuses result None }
    ensures ok { IfOk result (λ why. option_map by_of why
        ≡ reason_in (thing_of from.entry) (thing_of to.entry)) }
{
    let why = match from {
        ThingRow::Image(row) => {
            if is_content(&row.target, Mode::Full, to) {
                Some(Why::Target)
            } else {
                label_reason(&row.labels, to)
            }
        }
        ThingRow::Container(row) => {
            if mounts(row, to) {
                Some(Why::Snapshot)
            } else {
                label_reason(&row.labels, to)
            }
        }
        ThingRow::Lease(row) => {
            if holds(alloc, row, to)? {
                Some(Why::Resource)
            } else {
                None
            }
        }
        ThingRow::Ingest(row) => {
            if expects(row, to) {
                Some(Why::Expected)
            } else {
                None
            }
        }
        ThingRow::Content(Mode::Full, row) => label_reason(&row.labels, to),
        ThingRow::Content(Mode::Flat, _) => None,
        ThingRow::Snapshot(Mode::Full, row) => {
            if is_parent(row, Mode::Full, to) {
                Some(Why::Parent)
            } else {
                label_reason(&row.labels, to)
            }
        }
        ThingRow::Snapshot(Mode::Flat, row) => {
            if is_parent(row, Mode::Flat, to) {
                Some(Why::Parent)
            } else {
                None
            }
        }
    };
    Ok(why)
}

/// By what a thing references another; none where it doesn't.
pub(crate) fn reason<'a>(
    alloc: Global,
    from: ThingRow<'a>,
    to: ThingRow<'_>,
) -> Result<Option<Why<'a>>, Fault>
    ensures fault { Refuses result None }
    ensures ok { IfOk result (λ why. option_map by_of why
        ≡ reason_of (thing_of from.entry) (thing_of to.entry)) }
{
    if namespace_of(from) == namespace_of(to) {
        reason_in(alloc, from, to)
    } else {
        Ok(None)
    }
}
