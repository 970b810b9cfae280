//! The places of rows by snapshotter, among those of all namespaces.
ghost use Rattle.std.specs.Prelude.{◌≡◌, ◌∷◌, None, IfOk, length};
ghost use Rattle.std.specs.List.{position, IsDistinct};
ghost use Rattle.meta_types.specs.Keys.{is_key};
ghost use Rattle.meta_types.specs.Faults.{Refuses};
ghost use Rattle.row_tables.specs.Arrived.{same_key};
ghost use Rattle.row_tables.specs.Namespaces.{layered_key, all_rows};
ghost use Rattle.row_tables.specs.ArrivedNamespaces.{AreHoused};

use crate::arrived_by_namespace::ArrivedByNamespace;
use crate::named::Named;
use crate::namespaces::places::PlacesByNamespace;
use crate::row::SnapshotterRow;
use crate::seed::Seed;
use crate::snapshotters::find;
use indexmap::IndexMap;
use meta_types::{Fault, ShortName};
use std::alloc::Global;
use std::marker::Model;

/// The places of a table's rows, which it borrows. It knows where each namespace, and in it each
/// snapshotter, begins.
#[derive(Drop)]
pub struct PlacesBySnapshotter<'a, K: Named, R: SnapshotterRow<K>> {
    groups: &'a IndexMap<ShortName, ArrivedByNamespace<K, R>, Seed>,
    starts: Vec<usize>,
    each: Vec<PlacesByNamespace<'a, K, R>>,
    count: usize,
}

impl<'a, K: Named, R: SnapshotterRow<K>> Model for PlacesBySnapshotter<'a, K, R> {
    ghost use Rattle.std.specs.Prelude.{◌≡◌, List, map};
    ghost use Rattle.row_tables.specs.Namespaces.{layered_key, all_rows};
    ghost use Rattle.row_tables.specs.ArrivedNamespaces.{AreHoused};
    ghost use Rattle.row_tables.specs.Starts.{AreStarts};

    ghost Value = { List R };

    ghost view = { λ p. all_rows p.groups.now.entries };

    ghost invariant = { λ p. AreHoused (layered_key K.texts_of R.name_of R.group_of R.ns_of) R.ns_of
        p.groups.now.entries p.count
        × AreStarts p.starts.items p.groups.now.entries
        × (p.each.items ≡ map (λ group. group.1) p.groups.now.entries) };
}

impl<'a, K: Named, R: SnapshotterRow<K>> PlacesBySnapshotter<'a, K, R> {
    /// The places of the rows of all namespaces.
    pub(crate) fn new(
        groups: &'a IndexMap<ShortName, ArrivedByNamespace<K, R>, Seed>,
        count: usize,
        alloc: Global,
    ) -> Result<PlacesBySnapshotter<'a, K, R>, Fault>
        requires { AreHoused (layered_key K.texts_of R.name_of R.group_of R.ns_of) R.ns_of
            groups.now.entries count }
        ensures fault { Refuses result None }
        ensures ok { IfOk result (λ places. places ≡ all_rows groups.now.entries) }
    {
        let starts = find::starts_of(groups, alloc)?;
        let each = find::places_in_each(groups.values().as_slice(), alloc)?;
        Ok(PlacesBySnapshotter {
            groups,
            starts,
            each,
            count,
        })
    }

    /// How many rows there are. Each caller learns here that no key stands twice.
    pub fn len(&self) -> usize
        ensures len { result ≡ length self.now }
        ensures distinct { IsDistinct (same_key
            (layered_key K.texts_of R.name_of R.group_of R.ns_of)) self.now }
    {
        self.count
    }

    /// The place of the row of a namespace, a snapshotter and a name.
    pub fn place(&self, ns: &ShortName, snapshotter: &ShortName, name: &K) -> Option<usize>
        ensures { result ≡ position (λ row. is_key (ns.now ∷ snapshotter.now ∷ K.texts_of name.now)
            (layered_key K.texts_of R.name_of R.group_of R.ns_of row)) self.now }
    {
        find::place_of(self.groups, &self.starts, &self.each, ns, snapshotter, name)
    }
}
