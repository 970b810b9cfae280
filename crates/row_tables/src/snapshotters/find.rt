//! Look-ups: a row of a snapshotter in a namespace, and the place of a row among all.
ghost use Rattle.std.specs.Prelude.{◌≡◌, ◌<◌, ◌^◌, ◌∷◌, [], None, IfOk, IfSome, IfNone, length, map, filter, bytes_eq, ◌&&◌, option_copied};
ghost use Rattle.std.specs.List.{position, list_any, list_all};
ghost use Rattle.meta_types.specs.Faults.{Refuses};
ghost use Rattle.meta_types.specs.Keys.{is_key, row_at, has_row};
ghost use Rattle.row_tables.specs.Arrived.{sorted};
ghost use Rattle.row_tables.specs.Namespaces.{full_key, layered_key, all_rows};
ghost use Rattle.row_tables.specs.ArrivedNamespaces.{AreApart, AreFull};
ghost use Rattle.row_tables.specs.Starts.{AreStarts};

use crate::arrived_by_namespace::ArrivedByNamespace;
use crate::named::Named;
use crate::namespaces::homes::home;
use crate::namespaces::places::PlacesByNamespace;
use crate::row::{SnapshotterRow, Test};
use crate::seed::Seed;
use indexmap::IndexMap;
use meta_types::{Fault, ShortName};
use std::alloc::Global;

/// Where the rows of each namespace begin.
pub(crate) fn starts_of<K: Named, R: SnapshotterRow<K>>(
    groups: &IndexMap<ShortName, ArrivedByNamespace<K, R>, Seed>,
    alloc: Global,
) -> Result<Vec<usize>, Fault>
    requires { length (all_rows groups.now.entries) < 2 ^ 64 }
    ensures fault { Refuses result None }
    ensures ok { IfOk result (λ starts. AreStarts starts.items groups.now.entries) }
{
    let mut starts = Vec::new(alloc);
    let mut first = 0;
    for at in 0..groups.len() {
        starts.push(first)?;
        first += groups[at].len();
    }
    Ok(starts)
}

/// The places of the rows in each namespace.
pub(crate) fn places_in_each<'a, K: Named, R: SnapshotterRow<K>>(
    tables: &'a [ArrivedByNamespace<K, R>],
    alloc: Global,
) -> Result<Vec<PlacesByNamespace<'a, K, R>>, Fault>
    ensures fault { Refuses result None }
    ensures ok { IfOk result (λ each. each.items ≡ tables.now) }
{
    let mut each = Vec::new(alloc);
    for table in tables {
        each.push(table.places(alloc)?)?;
    }
    Ok(each)
}

/// The place of the row of a namespace, a snapshotter and a name.
pub(crate) fn place_of<K: Named, R: SnapshotterRow<K>>(
    groups: &IndexMap<ShortName, ArrivedByNamespace<K, R>, Seed>,
    starts: &[usize],
    each: &[PlacesByNamespace<'_, K, R>],
    ns: &ShortName,
    snapshotter: &ShortName,
    name: &K,
) -> Option<usize>
    requires are { AreApart (layered_key K.texts_of R.name_of R.group_of R.ns_of)
        R.ns_of groups.now.entries }
    requires fits { length (all_rows groups.now.entries) < 2 ^ 64 }
    requires starts { AreStarts starts.now groups.now.entries }
    requires each { each.now ≡ map (λ group. group.1) groups.now.entries }
    ensures { result ≡ position (λ row. is_key (ns.now ∷ snapshotter.now ∷ K.texts_of name.now)
        (layered_key K.texts_of R.name_of R.group_of R.ns_of row)) (all_rows groups.now.entries) }
{
    match home(groups, ns) {
        Some(home) => match each[home].place(snapshotter, name) {
            Some(place) => Some(starts[home] + place),
            None => None,
        },
        None => None,
    }
}

/// The row of a namespace, a snapshotter and a name.
pub(crate) fn row_in<'a, K: Named, R: SnapshotterRow<K>>(
    groups: &'a IndexMap<ShortName, ArrivedByNamespace<K, R>, Seed>,
    ns: &ShortName,
    snapshotter: &ShortName,
    name: &K,
) -> Option<&'a R>
    requires { AreApart (layered_key K.texts_of R.name_of R.group_of R.ns_of)
        R.ns_of groups.now.entries }
    ensures { option_copied result ≡ row_at (layered_key K.texts_of R.name_of R.group_of R.ns_of)
        (ns.now ∷ snapshotter.now ∷ K.texts_of name.now)
        (sorted (layered_key K.texts_of R.name_of R.group_of R.ns_of)
        (all_rows groups.now.entries)) }
{
    match home(groups, ns) {
        Some(home) => groups[home].get(snapshotter, name),
        None => None,
    }
}

/// Whether the row is there.
pub(crate) fn has_row<K: Named, R: SnapshotterRow<K>>(
    groups: &IndexMap<ShortName, ArrivedByNamespace<K, R>, Seed>,
    ns: &ShortName,
    snapshotter: &ShortName,
    name: &K,
) -> bool
    requires { AreApart (layered_key K.texts_of R.name_of R.group_of R.ns_of)
        R.ns_of groups.now.entries }
    ensures { result ≡ has_row (layered_key K.texts_of R.name_of R.group_of R.ns_of)
        (ns.now ∷ snapshotter.now ∷ K.texts_of name.now)
        (sorted (layered_key K.texts_of R.name_of R.group_of R.ns_of)
        (all_rows groups.now.entries)) }
{
    match home(groups, ns) {
        Some(home) => groups[home].has(snapshotter, name),
        None => false,
    }
}

/// The rows of a snapshotter in a namespace, as they arrived.
pub(crate) fn rows_of<'a, K: Named, R: SnapshotterRow<K>>(
    groups: &'a IndexMap<ShortName, ArrivedByNamespace<K, R>, Seed>,
    ns: &ShortName,
    snapshotter: &ShortName,
) -> Option<&'a [R]>
    requires { AreApart (layered_key K.texts_of R.name_of R.group_of R.ns_of)
        R.ns_of groups.now.entries }
    ensures rows { IfSome result (λ rows. rows.now ≡ filter
        (λ row. bytes_eq ns.now (R.ns_of row) && bytes_eq snapshotter.now (R.group_of row))
        (all_rows groups.now.entries)) }
    ensures none { IfNone result (filter
        (λ row. bytes_eq ns.now (R.ns_of row) && bytes_eq snapshotter.now (R.group_of row))
        (all_rows groups.now.entries) ≡ []) }
{
    match home(groups, ns) {
        Some(home) => groups[home].rows(snapshotter),
        None => None,
    }
}

/// Whether some row is in the namespace.
pub(crate) fn any_in<K: Named, R: SnapshotterRow<K>>(
    groups: &IndexMap<ShortName, ArrivedByNamespace<K, R>, Seed>,
    ns: &ShortName,
) -> bool
    requires are { AreApart (layered_key K.texts_of R.name_of R.group_of R.ns_of) R.ns_of
        groups.now.entries }
    requires full { AreFull groups.now.entries }
    ensures { result ≡ list_any (λ row. bytes_eq ns.now (R.ns_of row)) (sorted
        (layered_key K.texts_of R.name_of R.group_of R.ns_of) (all_rows groups.now.entries)) }
{
    match home(groups, ns) {
        Some(_home) => true,
        None => false,
    }
}

/// Whether the rows of all namespaces pass the test.
pub(crate) fn all_pass<K: Named, R: SnapshotterRow<K>, T: Test<R>>(
    tables: &[ArrivedByNamespace<K, R>],
    test: &T,
) -> bool
    ensures { result ≡ list_all (λ rows. list_all (T.passes test.now) (sorted
        (full_key K.texts_of R.name_of R.group_of) rows)) tables.now }
{
    tables.iter().all(|rows| rows.all(test))
}
