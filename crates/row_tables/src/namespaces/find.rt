//! Look-ups: a row of a namespace, and the place of a row among all.
ghost use Rattle.std.specs.Prelude.{◌≡◌, ◌<◌, ◌^◌, ◌∷◌, [], None, IfOk, IfSome, IfNone, length, take, drop, filter, bytes_eq, option_copied};
ghost use Rattle.std.specs.List.{position, list_any, list_all};
ghost use Rattle.meta_types.specs.Faults.{Refuses};
ghost use Rattle.meta_types.specs.Keys.{is_key, row_at, has_row};
ghost use Rattle.row_tables.specs.Arrived.{sorted, by_name};
ghost use Rattle.row_tables.specs.Namespaces.{full_key, all_rows};
ghost use Rattle.row_tables.specs.ArrivedNamespaces.{AreApart, AreFull};
ghost use Rattle.row_tables.specs.Starts.{AreStarts};

use crate::named::Named;
use crate::namespaces::homes::home;
use crate::row::{GroupedRow, Test};
use crate::row_table::RowTable;
use crate::seed::Seed;
use indexmap::IndexMap;
use meta_types::{Fault, ShortName};
use std::alloc::Global;

/// Where the rows of each namespace begin.
pub(crate) fn starts_of<K: Named, R: GroupedRow<K>>(
    groups: &IndexMap<ShortName, RowTable<K, R>, Seed>,
    alloc: Global,
) -> Result<Vec<usize>, Fault>
    requires { length (all_rows groups.now.entries) < 2 ^ 64 }
    ensures fault { Refuses result None }
    ensures ok { IfOk result (λ starts. AreStarts starts.items groups.now.entries) }
{
    let mut starts = Vec::new(alloc);
    let mut first = 0;
    for at in 0..groups.len() {
        starts.push(first)?;
        first += groups[at].len();
    }
    Ok(starts)
}

/// The place of the row of a namespace and a name.
pub(crate) fn place_of<K: Named, R: GroupedRow<K>>(
    groups: &IndexMap<ShortName, RowTable<K, R>, Seed>,
    starts: &[usize],
    ns: &ShortName,
    name: &K,
) -> Option<usize>
    requires are { AreApart (full_key K.texts_of R.name_of R.group_of)
        R.group_of groups.now.entries }
    requires fits { length (all_rows groups.now.entries) < 2 ^ 64 }
    requires starts { AreStarts starts.now groups.now.entries }
    ensures { result ≡ position (λ row. is_key (ns.now ∷ K.texts_of name.now)
        (full_key K.texts_of R.name_of R.group_of row)) (all_rows groups.now.entries) }
{
    match home(groups, ns) {
        Some(home) => match groups[home].place(name) {
            Some(place) => Some(starts[home] + place),
            None => None,
        },
        None => None,
    }
}

/// The row of a namespace and a name.
pub(crate) fn row_in<'a, K: Named, R: GroupedRow<K>>(
    groups: &'a IndexMap<ShortName, RowTable<K, R>, Seed>,
    ns: &ShortName,
    name: &K,
) -> Option<&'a R>
    requires { AreApart (full_key K.texts_of R.name_of R.group_of)
        R.group_of groups.now.entries }
    ensures { option_copied result ≡ row_at (full_key K.texts_of R.name_of R.group_of)
        (ns.now ∷ K.texts_of name.now)
        (sorted (full_key K.texts_of R.name_of R.group_of) (all_rows groups.now.entries)) }
{
    match home(groups, ns) {
        Some(home) => groups[home].get(name),
        None => None,
    }
}

/// Whether the row is there.
pub(crate) fn has_row<K: Named, R: GroupedRow<K>>(
    groups: &IndexMap<ShortName, RowTable<K, R>, Seed>,
    ns: &ShortName,
    name: &K,
) -> bool
    requires { AreApart (full_key K.texts_of R.name_of R.group_of)
        R.group_of groups.now.entries }
    ensures { result ≡ has_row (full_key K.texts_of R.name_of R.group_of)
        (ns.now ∷ K.texts_of name.now)
        (sorted (full_key K.texts_of R.name_of R.group_of) (all_rows groups.now.entries)) }
{
    match home(groups, ns) {
        Some(home) => groups[home].has(name),
        None => false,
    }
}

/// The rows of a namespace as they arrived.
pub(crate) fn rows_of<'a, K: Named, R: GroupedRow<K>>(
    groups: &'a IndexMap<ShortName, RowTable<K, R>, Seed>,
    ns: &ShortName,
) -> Option<&'a [R]>
    requires { AreApart (full_key K.texts_of R.name_of R.group_of)
        R.group_of groups.now.entries }
    ensures rows { IfSome result (λ rows. rows.now
        ≡ filter (λ row. bytes_eq ns.now (R.group_of row)) (all_rows groups.now.entries)) }
    ensures none { IfNone result (filter (λ row. bytes_eq ns.now (R.group_of row))
        (all_rows groups.now.entries) ≡ []) }
{
    match home(groups, ns) {
        Some(home) => Some(groups[home].rows()),
        None => None,
    }
}

/// The place of the first row of a namespace.
pub(crate) fn first_in<K: Named, R: GroupedRow<K>>(
    groups: &IndexMap<ShortName, RowTable<K, R>, Seed>,
    starts: &[usize],
    ns: &ShortName,
) -> Option<usize>
    requires are { AreApart (full_key K.texts_of R.name_of R.group_of)
        R.group_of groups.now.entries }
    requires starts { AreStarts starts.now groups.now.entries }
    ensures first { IfSome result (λ first.
        take (length
        (filter (λ row. bytes_eq ns.now (R.group_of row)) (all_rows groups.now.entries)))
        (drop first (all_rows groups.now.entries))
        ≡ filter (λ row. bytes_eq ns.now (R.group_of row)) (all_rows groups.now.entries)) }
    ensures none { IfNone result (filter (λ row. bytes_eq ns.now (R.group_of row))
        (all_rows groups.now.entries) ≡ []) }
{
    match home(groups, ns) {
        Some(home) => Some(starts[home]),
        None => None,
    }
}

/// Whether some row is in the namespace.
pub(crate) fn any_in<K: Named, R: GroupedRow<K>>(
    groups: &IndexMap<ShortName, RowTable<K, R>, Seed>,
    ns: &ShortName,
) -> bool
    requires are { AreApart (full_key K.texts_of R.name_of R.group_of) R.group_of
        groups.now.entries }
    requires full { AreFull groups.now.entries }
    ensures { result ≡ list_any (λ row. bytes_eq ns.now (R.group_of row)) (sorted
        (full_key K.texts_of R.name_of R.group_of) (all_rows groups.now.entries)) }
{
    match home(groups, ns) {
        Some(_home) => true,
        None => false,
    }
}

/// Whether the rows of all namespaces pass the test.
pub(crate) fn all_pass<K: Named, R: GroupedRow<K>, T: Test<R>>(
    tables: &[RowTable<K, R>],
    test: &T,
) -> bool
    ensures { result ≡ list_all (λ rows. list_all (T.passes test.now) (sorted
        (by_name K.texts_of R.name_of) rows)) tables.now }
{
    tables.iter().all(|rows| rows.all(test))
}
