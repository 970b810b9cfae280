//! Rows of all namespaces, by snapshotter, as they arrived.
ghost use Rattle.std.specs.Prelude.{◌≡◌, ◌∷◌, [], map, false, None, count_by, IfOk, OnOk, OnErr, IfSome, IfNone, IsTrue, Bool, length, filter, bytes_eq, ◌&&◌, option_copied};
ghost use Rattle.std.specs.List.{list_any, list_all, IsDistinct};
ghost use Rattle.meta_types.specs.Keys.{are_in_order, row_at, has_row, add_row, remove_row};
ghost use Rattle.meta_types.specs.Faults.{Refuses, least_of};
ghost use Rattle.row_tables.specs.Arrived.{sorted, same_key, kept, without_memory, Becomes};
ghost use Rattle.row_tables.specs.Visiting.{gone, all_visited};
ghost use Rattle.row_tables.specs.Namespaces.{full_key, layered_key};

use crate::arrived_by_namespace::ArrivedByNamespace;
use crate::named::Named;
use crate::row::{Change, RemovedRows, SnapshotterRow, Test};
use crate::row_table::marks::count_marks;
use crate::seed::Seed;
use crate::slices::Slices;
use crate::snapshotters::places::PlacesBySnapshotter;
use crate::snapshotters::{change, find, keep, list};
use indexmap::IndexMap;
use meta_types::{Fault, ShortName};
use std::alloc::Global;
use std::marker::Model;

/// Rows of all namespaces, by snapshotter, as they arrived: those of one snapshotter in a namespace
/// stand together. A row's place is its number. Where one goes, the last of its snapshotter and
/// namespace takes its place. A namespace and a snapshotter in it come with their first row, and go
/// with their last.
#[derive(Drop)]
pub struct ArrivedBySnapshotter<K: Named, R: SnapshotterRow<K>> {
    groups: IndexMap<ShortName, ArrivedByNamespace<K, R>, Seed>,
    count: usize,
}

impl<K: Named, R: SnapshotterRow<K>> Model for ArrivedBySnapshotter<K, R> {
    ghost use Rattle.std.specs.Prelude.{List};
    ghost use Rattle.row_tables.specs.Namespaces.{layered_key, all_rows};
    ghost use Rattle.row_tables.specs.ArrivedNamespaces.{AreHoused};

    ghost Value = { List R };

    ghost view = { λ t. all_rows t.groups.entries };

    ghost invariant = { λ t. AreHoused (layered_key K.texts_of R.name_of R.group_of R.ns_of) R.ns_of
        t.groups.entries t.count };
}

impl<K: Named, R: SnapshotterRow<K>> ArrivedBySnapshotter<K, R> {
    /// No row.
    pub fn new(alloc: Global, seed: Seed) -> ArrivedBySnapshotter<K, R>
        ensures { result ≡ [] }
    {
        ArrivedBySnapshotter {
            groups: IndexMap::with_hasher(alloc, seed),
            count: 0,
        }
    }

    pub(crate) fn seed(&self) -> Seed {
        *self.groups.hasher()
    }

    /// How many rows there are. Each caller learns here that no key stands twice.
    pub fn len(&self) -> usize
        ensures len { result ≡ length self.now }
        ensures distinct { IsDistinct (same_key
            (layered_key K.texts_of R.name_of R.group_of R.ns_of))
            self.now }
        ensures order { IsTrue (are_in_order (layered_key K.texts_of R.name_of R.group_of R.ns_of)
            (sorted
            (layered_key K.texts_of R.name_of R.group_of R.ns_of) self.now)) }
    {
        self.count
    }

    /// The places of the rows: made once, they serve many look-ups.
    pub fn places(&self, alloc: Global) -> Result<PlacesBySnapshotter<'_, K, R>, Fault>
        ensures fault { Refuses result None }
        ensures ok { IfOk result (λ places. places ≡ self.now) }
    {
        PlacesBySnapshotter::new(&self.groups, self.count, alloc)
    }

    /// Whether the row is there.
    pub fn has(&self, ns: &ShortName, snapshotter: &ShortName, name: &K) -> bool
        ensures { result ≡ has_row (layered_key K.texts_of R.name_of R.group_of R.ns_of)
            (ns.now ∷ snapshotter.now ∷ K.texts_of name.now)
            (sorted (layered_key K.texts_of R.name_of R.group_of R.ns_of) self.now) }
    {
        find::has_row(&self.groups, ns, snapshotter, name)
    }

    /// The row of a namespace, a snapshotter and a name.
    pub fn get(&self, ns: &ShortName, snapshotter: &ShortName, name: &K) -> Option<&R>
        ensures { option_copied result ≡ row_at
            (layered_key K.texts_of R.name_of R.group_of R.ns_of)
            (ns.now ∷ snapshotter.now ∷ K.texts_of name.now)
            (sorted (layered_key K.texts_of R.name_of R.group_of R.ns_of) self.now) }
    {
        find::row_in(&self.groups, ns, snapshotter, name)
    }

    /// The rows of a snapshotter in a namespace, as they arrived.
    pub fn rows(&self, ns: &ShortName, snapshotter: &ShortName) -> Option<&[R]>
        ensures rows { IfSome result (λ rows. rows.now ≡ filter
            (λ row. bytes_eq ns.now (R.ns_of row) && bytes_eq snapshotter.now (R.group_of row))
            self.now) }
        ensures none { IfNone result (filter
            (λ row. bytes_eq ns.now (R.ns_of row) && bytes_eq snapshotter.now (R.group_of row))
            self.now ≡ []) }
    {
        find::rows_of(&self.groups, ns, snapshotter)
    }

    /// Adds a row where none has its key; one look finds whether one has. It takes the texts of its
    /// namespace and its snapshotter that are there.
    pub fn add_new(&mut self, alloc: Global, row: R) -> Result<(), Fault>
        ensures fault { Refuses result (least_of false false
            (has_row (layered_key K.texts_of R.name_of R.group_of R.ns_of)
            (layered_key K.texts_of R.name_of R.group_of R.ns_of row)
            (sorted (layered_key K.texts_of R.name_of R.group_of R.ns_of) self.old)) false) }
        ensures ok { OnOk result (sorted
            (layered_key K.texts_of R.name_of R.group_of R.ns_of) self.new
            ≡ add_row (layered_key K.texts_of R.name_of R.group_of R.ns_of) row
            (sorted (layered_key K.texts_of R.name_of R.group_of R.ns_of) self.old)) }
        ensures err { OnErr result (self.new ≡ self.old) }
    {
        if self.count == usize::MAX {
            return Err(self.refusal(row));
        }
        change::add_new_row(&mut self.groups, alloc, row)?;
        self.count += 1;
        Ok(())
    }

    // Why no row more is added, where there is no number for it.
    fn refusal(&self, row: R) -> Fault
        ensures { result ≡ without_memory (has_row
            (layered_key K.texts_of R.name_of R.group_of R.ns_of)
            (layered_key K.texts_of R.name_of R.group_of R.ns_of row)
            (sorted (layered_key K.texts_of R.name_of R.group_of R.ns_of) self.now)) }
    {
        if self.has(row.ns(), row.group(), row.name()) {
            Fault::AlreadyExists
        } else {
            Fault::OutOfMemory
        }
    }

    /// Takes out the row of a namespace, a snapshotter and a name; the last row of its snapshotter
    /// takes its place. A snapshotter and a namespace without a row go, and the last of them takes
    /// the place.
    pub fn take(&mut self, ns: &ShortName, snapshotter: &ShortName, name: &K) -> Option<R>
        ensures row { result ≡ row_at (layered_key K.texts_of R.name_of R.group_of R.ns_of)
            (ns.now ∷ snapshotter.now ∷ K.texts_of name.now)
            (sorted (layered_key K.texts_of R.name_of R.group_of R.ns_of) self.old) }
        ensures left { sorted (layered_key K.texts_of R.name_of R.group_of R.ns_of) self.new
            ≡ remove_row (layered_key K.texts_of R.name_of R.group_of R.ns_of)
            (ns.now ∷ snapshotter.now ∷ K.texts_of name.now)
            (sorted (layered_key K.texts_of R.name_of R.group_of R.ns_of) self.old) }
    {
        let row = change::take_row(&mut self.groups, ns, snapshotter, name)?;
        self.count -= 1;
        Some(row)
    }

    /// Changes the row of a namespace, a snapshotter and a name in its place, and gives the answer
    /// of the change. Only the change itself may take memory.
    pub fn change<A, C: Change<K, R, A>>(
        &mut self,
        ns: &ShortName,
        snapshotter: &ShortName,
        name: &K,
        change: C,
    ) -> Option<A>
        requires keeps_group { (row : R) (answer : A) (after : R)
            → C.changes change row answer after → R.group_of after ≡ R.group_of row }
        requires keeps_ns { (row : R) (answer : A) (after : R)
            → C.changes change row answer after → R.ns_of after ≡ R.ns_of row }
        ensures absent { IfNone result (has_row
            (layered_key K.texts_of R.name_of R.group_of R.ns_of)
            (ns.now ∷ snapshotter.now ∷ K.texts_of name.now)
            (sorted (layered_key K.texts_of R.name_of R.group_of R.ns_of) self.old) ≡ false) }
        ensures same { IfNone result (self.new ≡ self.old) }
        ensures changed { IfSome result (λ answer. (row : R) × (after : R)
            × C.changes change row answer after × Becomes
            (layered_key K.texts_of R.name_of R.group_of R.ns_of)
            (ns.now ∷ snapshotter.now ∷ K.texts_of name.now) row after
            (sorted (layered_key K.texts_of R.name_of R.group_of R.ns_of) self.old)
            (sorted (layered_key K.texts_of R.name_of R.group_of R.ns_of) self.new)) }
    {
        change::change_row(&mut self.groups, ns, snapshotter, name, change)
    }

    /// Whether all rows pass the test.
    pub fn all<T: Test<R>>(&self, test: &T) -> bool
        ensures { result ≡ list_all (T.passes test.now)
            (sorted (layered_key K.texts_of R.name_of R.group_of R.ns_of) self.now) }
    {
        find::all_pass(self.groups.values().as_slice(), test)
    }

    /// Whether some row is in the namespace.
    pub fn any_in(&self, ns: &ShortName) -> bool
        ensures { result ≡ list_any (λ row. bytes_eq ns.now (R.ns_of row))
            (sorted (layered_key K.texts_of R.name_of R.group_of R.ns_of) self.now) }
    {
        find::any_in(&self.groups, ns)
    }

    /// The rows of a namespace, in the order of their keys.
    pub fn list_in(&self, alloc: Global, ns: &ShortName) -> Result<Vec<&R>, Fault>
        ensures fault { Refuses result None }
        ensures ok { IfOk result (λ list. map (λ row. row.now) list.items
            ≡ filter (λ row. bytes_eq ns.now (R.ns_of row))
            (sorted (layered_key K.texts_of R.name_of R.group_of R.ns_of) self.now)) }
    {
        list::rows_in(&self.groups, alloc, ns)
    }

    /// The rows of a snapshotter in a namespace, in the order of their keys.
    pub fn list_of(
        &self,
        alloc: Global,
        ns: &ShortName,
        snapshotter: &ShortName,
    ) -> Result<Vec<&R>, Fault>
        ensures fault { Refuses result None }
        ensures ok { IfOk result (λ list. map (λ row. row.now) list.items ≡ filter
            (λ row. bytes_eq ns.now (R.ns_of row) && bytes_eq snapshotter.now (R.group_of row))
            (sorted (layered_key K.texts_of R.name_of R.group_of R.ns_of) self.now)) }
    {
        list::rows_of(&self.groups, alloc, ns, snapshotter)
    }

    /// The rows, in the order of their keys.
    pub fn list(&self, alloc: Global) -> Result<Vec<&R>, Fault>
        ensures fault { Refuses result None }
        ensures ok { IfOk result (λ list. map (λ row. row.now) list.items
            ≡ sorted (layered_key K.texts_of R.name_of R.group_of R.ns_of) self.now) }
    {
        list::rows(self.groups.values().as_slice(), alloc)
    }

    /// The rows, in the order of their places.
    pub fn list_arrived(&self, alloc: Global) -> Result<Vec<&R>, Fault>
        ensures fault { Refuses result None }
        ensures ok { IfOk result (λ list. map (λ row. row.now) list.items ≡ self.now) }
    {
        list::rows_arrived(self.groups.values().as_slice(), alloc)
    }

    /// The rows, in the order of their places, lent as the slices in which they stand. No row is
    /// copied, and none is listed.
    pub fn slices(&self, alloc: Global) -> Result<Slices<'_, R>, Fault>
        ensures fault { Refuses result None }
        ensures ok { IfOk result (λ slices. slices ≡ self.now) }
    {
        let slices = list::slices_arrived(self.groups.values().as_slice(), alloc)?;
        Slices::new(alloc, slices)
    }

    /// A copy, with the rows at the same places, which shares their texts.
    pub fn copy(&self, alloc: Global) -> Result<ArrivedBySnapshotter<K, R>, Fault>
        ensures fault { Refuses result None }
        ensures ok { IfOk result (λ table. table ≡ self.now) }
    {
        let groups = list::copy_groups(&self.groups, alloc)?;
        Ok(ArrivedBySnapshotter {
            groups,
            count: self.count,
        })
    }

    /// Shows the visitor each row whose mark is unset, from the first to the last.
    pub fn visit_removed<P: RemovedRows<R>>(&self, marks: &[bool], visitor: &mut P)
        requires { length marks.now ≡ length self.now }
        ensures { visitor.new ≡ all_visited P.after_visit (gone marks.now self.now) visitor.old }
    {
        keep::visit_removed_rows(self.groups.values().as_slice(), marks, visitor);
    }

    /// Keeps the rows whose mark is set, in the order in which they stand.
    pub fn retain(&mut self, marks: &[bool])
        requires { length marks.now ≡ length self.old }
        ensures left { self.new ≡ kept marks.now self.old }
        ensures stays { (stays : R → Bool) → marks.now ≡ map stays self.old
            → sorted (layered_key K.texts_of R.name_of R.group_of R.ns_of) self.new ≡ filter stays
            (sorted (layered_key K.texts_of R.name_of R.group_of R.ns_of) self.old) }
    {
        keep::retain_all(&mut self.groups, marks);
        self.count = count_marks(marks);
    }
}
