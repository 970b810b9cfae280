//! The places of rows among those of all namespaces.
ghost use Rattle.std.specs.Prelude.{◌≡◌, ◌∷◌, [], None, IfOk, IfSome, IfNone, length, filter, take, drop, bytes_eq};
ghost use Rattle.std.specs.List.{position, IsDistinct};
ghost use Rattle.meta_types.specs.Keys.{is_key};
ghost use Rattle.meta_types.specs.Faults.{Refuses};
ghost use Rattle.row_tables.specs.Arrived.{same_key};
ghost use Rattle.row_tables.specs.Namespaces.{full_key, all_rows};
ghost use Rattle.row_tables.specs.ArrivedNamespaces.{AreHoused};

use crate::named::Named;
use crate::namespaces::find;
use crate::row::GroupedRow;
use crate::row_table::RowTable;
use crate::seed::Seed;
use indexmap::IndexMap;
use meta_types::{Fault, ShortName};
use std::alloc::Global;
use std::marker::Model;

/// The places of a table's rows, which it borrows. It knows where each namespace begins, so a
/// look-up takes the same time in the last one as in the first.
#[derive(Drop)]
pub struct PlacesByNamespace<'a, K: Named, R: GroupedRow<K>> {
    groups: &'a IndexMap<ShortName, RowTable<K, R>, Seed>,
    starts: Vec<usize>,
    count: usize,
}

impl<'a, K: Named, R: GroupedRow<K>> Model for PlacesByNamespace<'a, K, R> {
    ghost use Rattle.std.specs.Prelude.{List};
    ghost use Rattle.row_tables.specs.Namespaces.{full_key, all_rows};
    ghost use Rattle.row_tables.specs.ArrivedNamespaces.{AreHoused};
    ghost use Rattle.row_tables.specs.Starts.{AreStarts};

    ghost Value = { List R };

    ghost view = { λ p. all_rows p.groups.now.entries };

    ghost invariant = { λ p. AreHoused (full_key K.texts_of R.name_of R.group_of) R.group_of
        p.groups.now.entries p.count
        × AreStarts p.starts.items p.groups.now.entries };
}

impl<'a, K: Named, R: GroupedRow<K>> PlacesByNamespace<'a, K, R> {
    /// The places of the rows of all namespaces.
    pub(crate) fn new(
        groups: &'a IndexMap<ShortName, RowTable<K, R>, Seed>,
        count: usize,
        alloc: Global,
    ) -> Result<PlacesByNamespace<'a, K, R>, Fault>
        requires { AreHoused (full_key K.texts_of R.name_of R.group_of) R.group_of
            groups.now.entries count }
        ensures fault { Refuses result None }
        ensures ok { IfOk result (λ places. places ≡ all_rows groups.now.entries) }
    {
        let starts = find::starts_of(groups, alloc)?;
        Ok(PlacesByNamespace {
            groups,
            starts,
            count,
        })
    }

    /// How many rows there are. Each caller learns here that no key stands twice.
    pub fn len(&self) -> usize
        ensures len { result ≡ length self.now }
        ensures distinct { IsDistinct (same_key (full_key K.texts_of R.name_of R.group_of))
            self.now }
    {
        self.count
    }

    /// The place of the row of a namespace and a name.
    pub fn place(&self, ns: &ShortName, name: &K) -> Option<usize>
        ensures { result ≡ position (λ row. is_key (ns.now ∷ K.texts_of name.now)
            (full_key K.texts_of R.name_of R.group_of row)) self.now }
    {
        find::place_of(self.groups, &self.starts, ns, name)
    }

    /// The place of the first row of a namespace: the others stand behind it.
    pub fn first(&self, ns: &ShortName) -> Option<usize>
        ensures first { IfSome result (λ first.
            take (length (filter (λ row. bytes_eq ns.now (R.group_of row)) self.now))
            (drop first self.now)
            ≡ filter (λ row. bytes_eq ns.now (R.group_of row)) self.now) }
        ensures none { IfNone result (filter (λ row. bytes_eq ns.now (R.group_of row)) self.now
            ≡ []) }
    {
        find::first_in(self.groups, &self.starts, ns)
    }
}
