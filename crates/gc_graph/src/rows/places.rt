//! The places of rows: a near one is tried first.
ghost use Rattle.std.specs.Prelude.{◌≡◌, ◌∷◌, ◌&&◌, [], false, bytes_eq, slice_get};
ghost use Rattle.std.specs.List.{position};
ghost use Rattle.std.specs.Option.{option_map_or};
ghost use Rattle.meta_types.specs.Keys.{is_key};
ghost use Rattle.meta_types.specs.Rows.{content_key, snap_key};
ghost use Rattle.gc_graph.specs.Stored.{AreLent};

use crate::rows::StoreRows;
use meta_types::{ContentRow, Digest, Name, ShortName, SnapRow};
use row_tables::Slices;

// Whether the content stands at a place.
fn is_content_at(
    rows: &Slices<'_, ContentRow>,
    place: usize,
    ns: &ShortName,
    digest: &Digest,
) -> bool
    ensures { result ≡ option_map_or (λ row. bytes_eq digest.now row.digest
        && bytes_eq ns.now row.ns) (slice_get rows.now place) false }
{
    match rows.at(place) {
        Some(row) => *digest == row.digest && *ns == row.ns,
        None => false,
    }
}

/// The place of content: `near` is tried first.
pub(crate) fn content_place(
    rows: &StoreRows<'_>,
    near: usize,
    ns: &ShortName,
    digest: &Digest,
) -> Option<usize>
    requires { AreLent rows.now }
    ensures { result ≡ position (λ row. is_key (ns.now ∷ digest.now ∷ []) (content_key row))
        rows.now.places.content.now }
{
    if is_content_at(rows.content, near, ns, digest) {
        // Its clause says that no key stands twice.
        let _count = rows.places.content.len();
        return Some(near);
    }
    rows.places.content.place(ns, digest)
}

/// Whether the snapshot stands at a place. Its texts are compared, so that none has to be read.
pub(crate) fn is_snapshot_at(
    rows: &Slices<'_, SnapRow>,
    place: usize,
    ns: &ShortName,
    snapshotter: &str,
    name: &str,
) -> bool
    ensures { result ≡ option_map_or (λ row. bytes_eq name.now row.key.name
        && bytes_eq snapshotter.now row.key.snapshotter && bytes_eq ns.now row.key.ns)
        (slice_get rows.now place) false }
{
    match rows.at(place) {
        Some(row) => is_snapshot(row, ns, snapshotter, name),
        None => false,
    }
}

fn is_snapshot(row: &SnapRow, ns: &ShortName, snapshotter: &str, name: &str) -> bool
    ensures { result ≡ (bytes_eq name.now row.now.key.name
        && bytes_eq snapshotter.now row.now.key.snapshotter && bytes_eq ns.now row.now.key.ns) }
{
    let key = &row.key;
    name == key.name.text() && snapshotter == key.snapshotter.text() && *ns == key.ns
}

/// The place of a snapshot: `near` is tried first.
pub(crate) fn snapshot_place(
    rows: &StoreRows<'_>,
    near: usize,
    ns: &ShortName,
    snapshotter: &ShortName,
    name: &Name,
) -> Option<usize>
    requires { AreLent rows.now }
    ensures { result ≡ position (λ row. is_key (ns.now ∷ snapshotter.now ∷ name.now ∷ [])
        (snap_key row)) rows.now.places.snapshots.now }
{
    if is_snapshot_at(rows.snapshots, near, ns, snapshotter.text(), name.text()) {
        // Its clause says that no key stands twice.
        let _count = rows.places.snapshots.len();
        return Some(near);
    }
    rows.places.snapshots.place(ns, snapshotter, name)
}
