//! Tells proofs that the texts of rows are allowed. The loops read and keep nothing.
ghost use Rattle.std.specs.Prelude.{All};
ghost use Rattle.std.specs.List.{flat_map};
ghost use Rattle.meta_types.specs.Text.{IsDigest, IsShortName, IsName};
ghost use Rattle.gc_graph.specs.Nodes.{AreAllowed};
ghost use Rattle.gc_graph.specs.Targets.{nodes_of};
ghost use Rattle.gc_graph.specs.Stored.{records_of};

use crate::rows::StoreRows;
use meta_types::{ContentRow, IngestRow, SnapRow};

fn tell_some_ingests(rows: &[IngestRow])
    ensures { All (λ row. IsName row.name) rows.now }
{
    for row in rows {
        // The text's clause says that it is allowed; nothing else is wanted of it.
        let _name = row.name.text();
    }
}

fn tell_ingests(slices: &[&[IngestRow]])
    ensures { All (λ row. IsName row.name) (flat_map (λ rows. rows.now) slices.now) }
{
    for rows in slices {
        tell_some_ingests(rows);
    }
}

fn tell_some_content(rows: &[ContentRow])
    ensures { All (λ row. IsDigest row.digest) rows.now }
{
    for row in rows {
        // The text's clause says that it is allowed; nothing else is wanted of it.
        let _length = row.digest.text_len();
    }
}

fn tell_content(slices: &[&[ContentRow]])
    ensures { All (λ row. IsDigest row.digest) (flat_map (λ rows. rows.now) slices.now) }
{
    for rows in slices {
        tell_some_content(rows);
    }
}

fn tell_some_snapshotters(rows: &[SnapRow])
    ensures { All (λ row. IsShortName row.key.snapshotter) rows.now }
{
    for row in rows {
        // The text's clause says that it is allowed; nothing else is wanted of it.
        let _snapshotter = row.key.snapshotter.text();
    }
}

fn tell_snapshotters(slices: &[&[SnapRow]])
    ensures { All (λ row. IsShortName row.key.snapshotter)
        (flat_map (λ rows. rows.now) slices.now) }
{
    for rows in slices {
        tell_some_snapshotters(rows);
    }
}

fn tell_some_snapshots(rows: &[SnapRow])
    ensures { All (λ row. IsName row.key.name) rows.now }
{
    for row in rows {
        // The text's clause says that it is allowed; nothing else is wanted of it.
        let _name = row.key.name.text();
    }
}

fn tell_snapshots(slices: &[&[SnapRow]])
    ensures { All (λ row. IsName row.key.name) (flat_map (λ rows. rows.now) slices.now) }
{
    for rows in slices {
        tell_some_snapshots(rows);
    }
}

// For proofs alone: the texts of all nodes are allowed.
pub(crate) fn tell_rows(rows: &StoreRows<'_>)
    ensures { AreAllowed (nodes_of (records_of rows.now)) }
{
    tell_ingests(rows.ingests.as_slices());
    tell_content(rows.content.as_slices());
    tell_snapshotters(rows.snapshots.as_slices());
    tell_snapshots(rows.snapshots.as_slices());
}
