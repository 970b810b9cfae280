//! Names in key order: only those of removed and of ignored rows are sorted.
ghost use Rattle.std.specs.Prelude.{◌≡◌, None, IfOk};
ghost use Rattle.meta_types.specs.Faults.{Refuses};
ghost use Rattle.row_tables.specs.Arrived.{sorted};
ghost use Rattle.table_sweep.specs.InKeyOrder.{name_key, name_cmp, snapshot_name_key, snapshot_name_cmp};

use meta_types::{Digest, Fault, Name, ShortName};
use std::cmp::Ordering;

fn compare_names(a: &(ShortName, Name), b: &(ShortName, Name)) -> Ordering
    ensures { result ≡ name_cmp a.now b.now }
{
    a.0.cmp(&b.0).then(a.1.cmp(&b.1))
}

// Names of images, ingests or leases, by namespace and name.
pub(crate) fn names_in_order(names: Vec<(ShortName, Name)>) -> Result<Vec<(ShortName, Name)>, Fault>
    ensures fault { Refuses result None }
    ensures ok { IfOk result (λ list. list.items ≡ sorted name_key names.items) }
{
    let mut names = names;
    names.sort_unstable_by(|a, b| compare_names(a, b));
    Ok(names)
}

fn compare_digests(a: &(ShortName, Digest), b: &(ShortName, Digest)) -> Ordering
    ensures { result ≡ name_cmp a.now b.now }
{
    a.0.cmp(&b.0).then(a.1.cmp(&b.1))
}

// Names of content, by namespace and digest.
pub(crate) fn digests_in_order(
    names: Vec<(ShortName, Digest)>,
) -> Result<Vec<(ShortName, Digest)>, Fault>
    ensures fault { Refuses result None }
    ensures ok { IfOk result (λ list. list.items ≡ sorted name_key names.items) }
{
    let mut names = names;
    names.sort_unstable_by(|a, b| compare_digests(a, b));
    Ok(names)
}

fn compare_snapshots(a: &(ShortName, ShortName, Name), b: &(ShortName, ShortName, Name)) -> Ordering
    ensures { result ≡ snapshot_name_cmp a.now b.now }
{
    a.0.cmp(&b.0).then(a.1.cmp(&b.1)).then(a.2.cmp(&b.2))
}

// Names of snapshots, by namespace, snapshotter and name.
pub(crate) fn snapshots_in_order(
    names: Vec<(ShortName, ShortName, Name)>,
) -> Result<Vec<(ShortName, ShortName, Name)>, Fault>
    ensures fault { Refuses result None }
    ensures ok { IfOk result (λ list. list.items ≡ sorted snapshot_name_key names.items) }
{
    let mut names = names;
    names.sort_unstable_by(|a, b| compare_snapshots(a, b));
    Ok(names)
}
