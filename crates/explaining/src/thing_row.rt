//! A thing that a path goes over, and what it is.
ghost use Rattle.std.specs.Prelude.{◌≡◌};
ghost use Rattle.meta_types.specs.Paths.{namespace_of, is_same_mode, is_content, is_snapshot, is_ingest};
ghost use Rattle.meta_types.specs.Paths.{is_resource};
ghost use Rattle.explaining.specs.ThingRows.{thing_of};

use lease_book::Lease;
use meta_types::{ContainerRow, ContentRow, Digest, ImageRow, IngestRow, Mode, Resource, SnapRow};

/// A thing of a store, by its row.
#[derive(Clone, Copy)]
pub(crate) enum ThingRow<'a> {
    Image(&'a ImageRow),
    Container(&'a ContainerRow),
    Lease(&'a Lease),
    Ingest(&'a IngestRow),
    Content(Mode, &'a ContentRow),
    Snapshot(Mode, &'a SnapRow),
}

pub(crate) fn namespace_of<'a>(thing: ThingRow<'a>) -> &'a str
    ensures { result.now ≡ namespace_of (thing_of thing.entry) }
{
    match thing {
        ThingRow::Image(row) => row.ns.text(),
        ThingRow::Container(row) => row.ns.text(),
        ThingRow::Lease(row) => row.ns().text(),
        ThingRow::Ingest(row) => row.ns.text(),
        ThingRow::Content(_, row) => row.ns.text(),
        ThingRow::Snapshot(_, row) => row.key.ns.text(),
    }
}

fn is_same_mode(a: Mode, b: Mode) -> bool
    ensures { result ≡ is_same_mode a b }
{
    match (a, b) {
        (Mode::Full, Mode::Full) => true,
        (Mode::Flat, Mode::Flat) => true,
        (Mode::Full, Mode::Flat) => false,
        (Mode::Flat, Mode::Full) => false,
    }
}

pub(crate) fn is_content(digest: &Digest, mode: Mode, thing: ThingRow<'_>) -> bool
    ensures { result ≡ is_content digest.now mode (thing_of thing.entry) }
{
    match thing {
        ThingRow::Content(m, row) => is_same_mode(mode, m) && row.digest == *digest,
        _ => false,
    }
}

pub(crate) fn is_snapshot(snapshotter: &str, name: &str, mode: Mode, thing: ThingRow<'_>) -> bool
    ensures { result ≡ is_snapshot snapshotter.now name.now mode (thing_of thing.entry) }
{
    match thing {
        ThingRow::Snapshot(m, row) => {
            is_same_mode(mode, m)
                && row.key.snapshotter.text() == snapshotter
                && row.key.name.text() == name
        }
        _ => false,
    }
}

fn is_ingest(name: &str, thing: ThingRow<'_>) -> bool
    ensures { result ≡ is_ingest name.now (thing_of thing.entry) }
{
    match thing {
        ThingRow::Ingest(row) => row.name.text() == name,
        _ => false,
    }
}

pub(crate) fn is_resource(resource: &Resource, mode: Mode, thing: ThingRow<'_>) -> bool
    ensures { result ≡ is_resource resource.now mode (thing_of thing.entry) }
{
    match resource {
        Resource::Content(digest) => is_content(digest, mode, thing),
        Resource::Snapshot(snapshotter, name) => {
            is_snapshot(snapshotter.text(), name.text(), mode, thing)
        }
        Resource::Ingest(name) => is_ingest(name.text(), thing),
    }
}
