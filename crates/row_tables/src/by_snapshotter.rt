//! Rows of all namespaces by snapshotter, which contracts see in key order.
ghost use Rattle.std.specs.Prelude.{◌≡◌, ◌∷◌, [], map, false, None, IfOk, IfSome, IfNone, OnOk, OnErr, IsTrue, length, filter, bytes_eq, ◌&&◌, option_copied};
ghost use Rattle.std.specs.Bool.{OnFalse};
ghost use Rattle.std.specs.List.{list_any, list_all};
ghost use Rattle.meta_types.specs.Keys.{are_in_order, row_at, has_row, add_row, remove_row};
ghost use Rattle.meta_types.specs.Faults.{Refuses};
ghost use Rattle.row_tables.specs.Arrived.{sorted, Becomes};
ghost use Rattle.row_tables.specs.Namespaces.{layered_key};

use crate::arrived_by_snapshotter::ArrivedBySnapshotter;
use crate::named::Named;
use crate::row::{Change, SnapshotterRow, Test};
use crate::seed::Seed;
use meta_types::{Fault, ShortName};
use std::alloc::Global;
use std::marker::Model;

/// Rows by namespace, snapshotter and name, which contracts see in the order of their keys. A row
/// is found by a hash of its name.
#[derive(Drop)]
pub struct BySnapshotter<K: Named, R: SnapshotterRow<K>> {
    arrived: ArrivedBySnapshotter<K, R>,
}

impl<K: Named, R: SnapshotterRow<K>> Model for BySnapshotter<K, R> {
    ghost use Rattle.std.specs.Prelude.{List};
    ghost use Rattle.row_tables.specs.Arrived.{sorted};
    ghost use Rattle.row_tables.specs.Namespaces.{layered_key};

    ghost Value = { List R };

    ghost view = { λ t. sorted (layered_key K.texts_of R.name_of R.group_of R.ns_of) t.arrived };
}

impl<K: Named, R: SnapshotterRow<K>> BySnapshotter<K, R> {
    /// No row.
    pub fn new(alloc: Global, seed: Seed) -> BySnapshotter<K, R>
        ensures { result ≡ [] }
    {
        BySnapshotter {
            arrived: ArrivedBySnapshotter::new(alloc, seed),
        }
    }

    /// The seed of its hashes, for tables that stand beside it or in its rows.
    pub fn seed(&self) -> Seed {
        self.arrived.seed()
    }

    /// Lends the rows as they arrived.
    pub fn arrived(&self) -> &ArrivedBySnapshotter<K, R>
        ensures { sorted (layered_key K.texts_of R.name_of R.group_of R.ns_of) result.now ≡ self.now }
    {
        &self.arrived
    }

    /// Hands over the rows as they arrived; none is copied or sorted.
    pub fn into_arrived(self) -> ArrivedBySnapshotter<K, R>
        ensures { sorted (layered_key K.texts_of R.name_of R.group_of R.ns_of) result ≡ self }
    {
        self.arrived
    }

    /// Takes over the rows as they arrived; none is copied or sorted.
    pub fn from_arrived(arrived: ArrivedBySnapshotter<K, R>) -> BySnapshotter<K, R>
        ensures { result ≡ sorted (layered_key K.texts_of R.name_of R.group_of R.ns_of) arrived }
    {
        BySnapshotter { arrived }
    }

    /// How many rows there are. Each caller learns here that keys stand in their order.
    pub fn len(&self) -> u128
        ensures len { result ≡ length self.now }
        ensures order { IsTrue (are_in_order (layered_key K.texts_of R.name_of R.group_of R.ns_of)
            self.now) }
    {
        self.arrived.len() as u128
    }

    /// Whether the row is there.
    pub fn has(&self, ns: &ShortName, snapshotter: &ShortName, name: &K) -> bool
        ensures there { result ≡ has_row (layered_key K.texts_of R.name_of R.group_of R.ns_of)
            (ns.now ∷ snapshotter.now ∷ K.texts_of name.now) self.now }
        ensures order { IsTrue (are_in_order (layered_key K.texts_of R.name_of R.group_of R.ns_of)
            self.now) }
    {
        // Its clause says that the keys stand in their order.
        let _count = self.arrived.len();
        self.arrived.has(ns, snapshotter, name)
    }

    /// The row of a namespace, a snapshotter and a name.
    pub fn get(&self, ns: &ShortName, snapshotter: &ShortName, name: &K) -> Option<&R>
        ensures row { option_copied result
            ≡ row_at (layered_key K.texts_of R.name_of R.group_of R.ns_of)
            (ns.now ∷ snapshotter.now ∷ K.texts_of name.now) self.now }
        ensures order { IsTrue (are_in_order (layered_key K.texts_of R.name_of R.group_of R.ns_of)
            self.now) }
    {
        // Its clause says that the keys stand in their order.
        let _count = self.arrived.len();
        self.arrived.get(ns, snapshotter, name)
    }

    /// Adds a row where none has its key. It takes the texts of its namespace and its snapshotter
    /// that are there.
    pub fn add(&mut self, alloc: Global, row: R) -> Result<(), Fault>
        requires { has_row (layered_key K.texts_of R.name_of R.group_of R.ns_of)
            (layered_key K.texts_of R.name_of R.group_of R.ns_of row) self.old ≡ false }
        ensures fault { Refuses result None }
        ensures ok { OnOk result (self.new
            ≡ add_row (layered_key K.texts_of R.name_of R.group_of R.ns_of) row self.old) }
        ensures err { OnErr result (self.new ≡ self.old) }
    {
        self.arrived.add_new(alloc, row)
    }

    /// Takes out the row of a namespace, a snapshotter and a name.
    pub fn take(&mut self, ns: &ShortName, snapshotter: &ShortName, name: &K) -> Option<R>
        ensures row { result ≡ row_at (layered_key K.texts_of R.name_of R.group_of R.ns_of)
            (ns.now ∷ snapshotter.now ∷ K.texts_of name.now) self.old }
        ensures left { self.new ≡ remove_row (layered_key K.texts_of R.name_of R.group_of R.ns_of)
            (ns.now ∷ snapshotter.now ∷ K.texts_of name.now) self.old }
    {
        self.arrived.take(ns, snapshotter, name)
    }

    /// Removes the row of a namespace, a snapshotter and a name; says whether it was there.
    pub fn remove(&mut self, ns: &ShortName, snapshotter: &ShortName, name: &K) -> bool
        ensures found { result ≡ has_row (layered_key K.texts_of R.name_of R.group_of R.ns_of)
            (ns.now ∷ snapshotter.now ∷ K.texts_of name.now) self.old }
        ensures left { self.new ≡ remove_row (layered_key K.texts_of R.name_of R.group_of R.ns_of)
            (ns.now ∷ snapshotter.now ∷ K.texts_of name.now) self.old }
        ensures same { OnFalse result (self.new ≡ self.old) }
    {
        match self.take(ns, snapshotter, name) {
            Some(_row) => true,
            None => false,
        }
    }

    /// Changes the row of a namespace, a snapshotter and a name in its place, and gives the answer
    /// of the change. Only the change itself may take memory.
    pub fn change<A, C: Change<K, R, A>>(
        &mut self,
        ns: &ShortName,
        snapshotter: &ShortName,
        name: &K,
        change: C,
    ) -> Option<A>
        requires keeps_group { (row : R) (answer : A) (after : R)
            → C.changes change row answer after → R.group_of after ≡ R.group_of row }
        requires keeps_ns { (row : R) (answer : A) (after : R)
            → C.changes change row answer after → R.ns_of after ≡ R.ns_of row }
        ensures absent { IfNone result
            (has_row (layered_key K.texts_of R.name_of R.group_of R.ns_of)
            (ns.now ∷ snapshotter.now ∷ K.texts_of name.now) self.old ≡ false) }
        ensures same { IfNone result (self.new ≡ self.old) }
        ensures changed { IfSome result (λ answer. (row : R) × (after : R)
            × C.changes change row answer after
            × Becomes (layered_key K.texts_of R.name_of R.group_of R.ns_of)
            (ns.now ∷ snapshotter.now ∷ K.texts_of name.now) row after self.old self.new) }
    {
        self.arrived.change(ns, snapshotter, name, change)
    }

    /// Whether all rows pass the test.
    pub fn all<T: Test<R>>(&self, test: &T) -> bool
        ensures { result ≡ list_all (T.passes test.now) self.now }
    {
        self.arrived.all(test)
    }

    /// Whether some row is in the namespace.
    pub fn any_in(&self, ns: &ShortName) -> bool
        ensures { result ≡ list_any (λ row. bytes_eq ns.now (R.ns_of row)) self.now }
    {
        self.arrived.any_in(ns)
    }

    /// The rows of a namespace, in the order of their keys.
    pub fn rows_in(&self, alloc: Global, ns: &ShortName) -> Result<Vec<&R>, Fault>
        ensures fault { Refuses result None }
        ensures ok { IfOk result (λ list. map (λ row. row.now) list.items
            ≡ filter (λ row. bytes_eq ns.now (R.ns_of row)) self.now) }
    {
        self.arrived.list_in(alloc, ns)
    }

    /// The rows of a snapshotter in a namespace, in the order of their keys.
    pub fn rows_of(
        &self,
        alloc: Global,
        ns: &ShortName,
        snapshotter: &ShortName,
    ) -> Result<Vec<&R>, Fault>
        ensures fault { Refuses result None }
        ensures ok { IfOk result (λ list. map (λ row. row.now) list.items ≡ filter
            (λ row. bytes_eq ns.now (R.ns_of row) && bytes_eq snapshotter.now (R.group_of row))
            self.now) }
    {
        self.arrived.list_of(alloc, ns, snapshotter)
    }

    /// The rows, in the order of their keys.
    pub fn rows(&self, alloc: Global) -> Result<Vec<&R>, Fault>
        ensures fault { Refuses result None }
        ensures ok { IfOk result (λ list. map (λ row. row.now) list.items ≡ self.now) }
        ensures order { IsTrue (are_in_order (layered_key K.texts_of R.name_of R.group_of R.ns_of)
            self.now) }
    {
        // Its clause says that the keys stand in their order.
        let _count = self.arrived.len();
        self.arrived.list(alloc)
    }

    /// A copy, which shares the texts of the rows.
    pub fn copy(&self, alloc: Global) -> Result<BySnapshotter<K, R>, Fault>
        ensures fault { Refuses result None }
        ensures ok { IfOk result (λ table. table ≡ self.now) }
    {
        let arrived = self.arrived.copy(alloc)?;
        Ok(BySnapshotter { arrived })
    }
}
