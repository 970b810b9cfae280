//! Rows of all namespaces, lent and copied.
ghost use Rattle.std.specs.Prelude.{◌≡◌, ◌<◌, ◌++◌, map, None, IsTrue, OnOk, Some, slice_get, IfOk, filter, bytes_eq};
ghost use Rattle.std.specs.List.{flat_map, IsDistinct};
ghost use Rattle.std.specs.Cmp.Lexicographic.{slice_cmp};
ghost use Rattle.std.specs.List.Sorted.{IsPermutation};
ghost use Rattle.meta_types.specs.Keys.{are_in_order};
ghost use Rattle.meta_types.specs.Text.{text_cmp};
ghost use Rattle.meta_types.specs.Faults.{Refuses};
ghost use Rattle.row_tables.specs.Arrived.{sorted, same_key};
ghost use Rattle.row_tables.specs.Namespaces.{full_key, all_rows, joined};
ghost use Rattle.row_tables.specs.ArrivedNamespaces.{AreApart};

use crate::listing::{borrow_rows, in_key_order};
use crate::named::Named;
use crate::namespaces::homes::{home, name_at};
use crate::row::GroupedRow;
use crate::row_table::RowTable;
use crate::seed::Seed;
use indexmap::IndexMap;
use meta_types::{Fault, ShortName};
use std::alloc::Global;
use std::cmp::Ordering;

/// The rows of a namespace, in the order of their names.
pub(crate) fn rows_in<'a, K: Named, R: GroupedRow<K>>(
    groups: &'a IndexMap<ShortName, RowTable<K, R>, Seed>,
    alloc: Global,
    ns: &ShortName,
) -> Result<Vec<&'a R>, Fault>
    requires { AreApart (full_key K.texts_of R.name_of R.group_of)
        R.group_of groups.now.entries }
    ensures fault { Refuses result None }
    ensures ok { IfOk result (λ list. map (λ row. row.now) list.items
        ≡ filter (λ row. bytes_eq ns.now (R.group_of row)) (sorted
        (full_key K.texts_of R.name_of R.group_of) (all_rows groups.now.entries))) }
{
    match home(groups, ns) {
        Some(home) => in_key_order(alloc, &groups[home]),
        None => Ok(Vec::new(alloc)),
    }
}

/// All rows, in the order of their keys.
pub(crate) fn rows<'a, K: Named, R: GroupedRow<K>>(
    tables: &'a [RowTable<K, R>],
    alloc: Global,
) -> Result<Vec<&'a R>, Fault>
    requires { IsDistinct (same_key (full_key K.texts_of R.name_of R.group_of))
        (joined tables.now) }
    ensures fault { Refuses result None }
    ensures ok { IfOk result (λ list. map (λ row. row.now) list.items
        ≡ sorted (full_key K.texts_of R.name_of R.group_of) (joined tables.now)) }
{
    let mut list = rows_arrived(tables, alloc)?;
    sort_rows(&mut list)?;
    Ok(list)
}

/// Where a row stands to another, by the bytes of its namespace and of its name.
pub(crate) fn order<K: Named, R: GroupedRow<K>>(a: &R, b: &R) -> Ordering
    ensures { result ≡ slice_cmp text_cmp (full_key K.texts_of R.name_of R.group_of a.now)
        (full_key K.texts_of R.name_of R.group_of b.now) }
{
    match a.group().text().cmp(b.group().text()) {
        Ordering::Less => Ordering::Less,
        Ordering::Equal => a.name().order(b.name()),
        Ordering::Greater => Ordering::Greater,
    }
}

fn sort_rows<'a, K: Named, R: GroupedRow<K>>(list: &mut Vec<&'a R>) -> Result<(), Fault>
    requires { IsDistinct (same_key (full_key K.texts_of R.name_of R.group_of))
        (map (λ row. row.now) list.old.items) }
    ensures fault { Refuses result None }
    ensures same { IsPermutation list.old.items list.new.items }
    ensures order { OnOk result (IsTrue (are_in_order (full_key K.texts_of R.name_of R.group_of)
        (map (λ row. row.now) list.new.items))) }
{
    list.sort_by(|a, b| order(*a, *b))?;
    Ok(())
}

/// All rows, in the order of their places.
pub(crate) fn rows_arrived<'a, K: Named, R: GroupedRow<K>>(
    tables: &'a [RowTable<K, R>],
    alloc: Global,
) -> Result<Vec<&'a R>, Fault>
    ensures fault { Refuses result None }
    ensures ok { IfOk result (λ list. map (λ row. row.now) list.items ≡ joined tables.now) }
{
    let mut list = Vec::new(alloc);
    for table in tables {
        let mut rows = borrow_rows(alloc, table.rows())?;
        list.append(&mut rows)?;
    }
    Ok(list)
}

/// Adds the slices of tables behind those that are there.
pub(crate) fn push_slices<'a, K: Named, R: GroupedRow<K>>(
    tables: &'a [RowTable<K, R>],
    slices: &mut Vec<&'a [R]>,
) -> Result<(), Fault>
    ensures fault { Refuses result None }
    ensures ok { OnOk result (flat_map (λ rows. rows.now) slices.new.items
        ≡ flat_map (λ rows. rows.now) slices.old.items ++ joined tables.now) }
{
    for table in tables {
        slices.push(table.rows())?;
    }
    Ok(())
}

/// The slices of all rows, in the order of their places.
pub(crate) fn slices_arrived<'a, K: Named, R: GroupedRow<K>>(
    tables: &'a [RowTable<K, R>],
    alloc: Global,
) -> Result<Vec<&'a [R]>, Fault>
    ensures fault { Refuses result None }
    ensures ok { IfOk result (λ slices. flat_map (λ rows. rows.now) slices.items
        ≡ joined tables.now) }
{
    let mut slices = Vec::with_capacity(alloc, tables.len())?;
    push_slices(tables, &mut slices)?;
    Ok(slices)
}

/// A copy of the namespaces and of their rows, which shares their texts.
pub(crate) fn copy_groups<K: Named, R: GroupedRow<K>>(
    groups: &IndexMap<ShortName, RowTable<K, R>, Seed>,
    alloc: Global,
) -> Result<IndexMap<ShortName, RowTable<K, R>, Seed>, Fault>
    requires { AreApart (full_key K.texts_of R.name_of R.group_of) R.group_of groups.now.entries }
    ensures fault { Refuses result None }
    ensures ok { IfOk result (λ copies. copies.entries ≡ groups.now.entries) }
{
    let mut copies = IndexMap::with_capacity_and_hasher(alloc, groups.len(), *groups.hasher())?;
    for at in 0..groups.len() {
        let ns = name_at(groups, at).copy()?;
        let rows = groups[at].copy(alloc)?;
        copies.insert(ns, rows)?;
    }
    Ok(copies)
}
