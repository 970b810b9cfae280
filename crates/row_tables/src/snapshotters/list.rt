//! Rows of all namespaces, lent and copied.
ghost use Rattle.std.specs.Prelude.{◌≡◌, ◌<◌, ◌&&◌, map, None, IsTrue, OnOk, Some, slice_get, IfOk, filter, bytes_eq};
ghost use Rattle.std.specs.List.{flat_map, IsDistinct};
ghost use Rattle.std.specs.Cmp.Lexicographic.{slice_cmp};
ghost use Rattle.std.specs.List.Sorted.{IsPermutation};
ghost use Rattle.meta_types.specs.Keys.{are_in_order};
ghost use Rattle.meta_types.specs.Text.{text_cmp};
ghost use Rattle.meta_types.specs.Faults.{Refuses};
ghost use Rattle.row_tables.specs.Arrived.{sorted, same_key};
ghost use Rattle.row_tables.specs.Namespaces.{full_key, layered_key, all_rows, joined};
ghost use Rattle.row_tables.specs.ArrivedNamespaces.{AreApart};

use crate::arrived_by_namespace::ArrivedByNamespace;
use crate::named::Named;
use crate::namespaces::homes::{home, name_at};
use crate::namespaces::list::order as order_within;
use crate::row::SnapshotterRow;
use crate::seed::Seed;
use indexmap::IndexMap;
use meta_types::{Fault, ShortName};
use std::alloc::Global;
use std::cmp::Ordering;

/// The rows of a namespace, in the order of their names.
pub(crate) fn rows_in<'a, K: Named, R: SnapshotterRow<K>>(
    groups: &'a IndexMap<ShortName, ArrivedByNamespace<K, R>, Seed>,
    alloc: Global,
    ns: &ShortName,
) -> Result<Vec<&'a R>, Fault>
    requires { AreApart (layered_key K.texts_of R.name_of R.group_of R.ns_of)
        R.ns_of groups.now.entries }
    ensures fault { Refuses result None }
    ensures ok { IfOk result (λ list. map (λ row. row.now) list.items
        ≡ filter (λ row. bytes_eq ns.now (R.ns_of row)) (sorted
        (layered_key K.texts_of R.name_of R.group_of R.ns_of) (all_rows groups.now.entries))) }
{
    match home(groups, ns) {
        Some(home) => groups[home].list(alloc),
        None => Ok(Vec::new(alloc)),
    }
}

/// The rows of a snapshotter in a namespace, in the order of their names.
pub(crate) fn rows_of<'a, K: Named, R: SnapshotterRow<K>>(
    groups: &'a IndexMap<ShortName, ArrivedByNamespace<K, R>, Seed>,
    alloc: Global,
    ns: &ShortName,
    snapshotter: &ShortName,
) -> Result<Vec<&'a R>, Fault>
    requires { AreApart (layered_key K.texts_of R.name_of R.group_of R.ns_of) R.ns_of
        groups.now.entries }
    ensures fault { Refuses result None }
    ensures ok { IfOk result (λ list. map (λ row. row.now) list.items ≡ filter
        (λ row. bytes_eq ns.now (R.ns_of row) && bytes_eq snapshotter.now (R.group_of row))
        (sorted (layered_key K.texts_of R.name_of R.group_of R.ns_of)
        (all_rows groups.now.entries))) }
{
    match home(groups, ns) {
        Some(home) => groups[home].list_in(alloc, snapshotter),
        None => Ok(Vec::new(alloc)),
    }
}

/// All rows, in the order of their keys.
pub(crate) fn rows<'a, K: Named, R: SnapshotterRow<K>>(
    tables: &'a [ArrivedByNamespace<K, R>],
    alloc: Global,
) -> Result<Vec<&'a R>, Fault>
    requires { IsDistinct (same_key (layered_key K.texts_of R.name_of R.group_of R.ns_of))
        (joined tables.now) }
    ensures fault { Refuses result None }
    ensures ok { IfOk result (λ list. map (λ row. row.now) list.items
        ≡ sorted (layered_key K.texts_of R.name_of R.group_of R.ns_of) (joined tables.now)) }
{
    let mut list = rows_arrived(tables, alloc)?;
    sort_rows(&mut list)?;
    Ok(list)
}

fn order<K: Named, R: SnapshotterRow<K>>(a: &R, b: &R) -> Ordering
    ensures { result ≡ slice_cmp text_cmp
        (layered_key K.texts_of R.name_of R.group_of R.ns_of a.now)
        (layered_key K.texts_of R.name_of R.group_of R.ns_of b.now) }
{
    match a.ns().text().cmp(b.ns().text()) {
        Ordering::Less => Ordering::Less,
        Ordering::Equal => order_within(a, b),
        Ordering::Greater => Ordering::Greater,
    }
}

fn sort_rows<'a, K: Named, R: SnapshotterRow<K>>(list: &mut Vec<&'a R>) -> Result<(), Fault>
    requires { IsDistinct (same_key (layered_key K.texts_of R.name_of R.group_of R.ns_of))
        (map (λ row. row.now) list.old.items) }
    ensures fault { Refuses result None }
    ensures same { IsPermutation list.old.items list.new.items }
    ensures order { OnOk result
        (IsTrue (are_in_order (layered_key K.texts_of R.name_of R.group_of R.ns_of)
        (map (λ row. row.now) list.new.items))) }
{
    list.sort_by(|a, b| order(*a, *b))?;
    Ok(())
}

/// All rows, in the order of their places.
pub(crate) fn rows_arrived<'a, K: Named, R: SnapshotterRow<K>>(
    tables: &'a [ArrivedByNamespace<K, R>],
    alloc: Global,
) -> Result<Vec<&'a R>, Fault>
    ensures fault { Refuses result None }
    ensures ok { IfOk result (λ list. map (λ row. row.now) list.items ≡ joined tables.now) }
{
    let mut list = Vec::new(alloc);
    for table in tables {
        let mut rows = table.list_arrived(alloc)?;
        list.append(&mut rows)?;
    }
    Ok(list)
}

/// The slices of all rows, in the order of their places.
pub(crate) fn slices_arrived<'a, K: Named, R: SnapshotterRow<K>>(
    tables: &'a [ArrivedByNamespace<K, R>],
    alloc: Global,
) -> Result<Vec<&'a [R]>, Fault>
    ensures fault { Refuses result None }
    ensures ok { IfOk result (λ slices. flat_map (λ rows. rows.now) slices.items
        ≡ joined tables.now) }
{
    let mut slices = Vec::new(alloc);
    for table in tables {
        table.push_slices(&mut slices)?;
    }
    Ok(slices)
}

/// A copy of the namespaces and of their rows, which shares their texts.
pub(crate) fn copy_groups<K: Named, R: SnapshotterRow<K>>(
    groups: &IndexMap<ShortName, ArrivedByNamespace<K, R>, Seed>,
    alloc: Global,
) -> Result<IndexMap<ShortName, ArrivedByNamespace<K, R>, Seed>, Fault>
    requires { AreApart
        (layered_key K.texts_of R.name_of R.group_of R.ns_of) R.ns_of groups.now.entries }
    ensures fault { Refuses result None }
    ensures ok { IfOk result (λ copies. copies.entries ≡ groups.now.entries) }
{
    let mut copies = IndexMap::with_capacity_and_hasher(alloc, groups.len(), *groups.hasher())?;
    for at in 0..groups.len() {
        let ns = name_at(groups, at).copy()?;
        let rows = groups[at].copy(alloc)?;
        copies.insert(ns, rows)?;
    }
    Ok(copies)
}
