//! Rows of all namespaces, as they arrived.
ghost use Rattle.std.specs.Prelude.{◌≡◌, ◌∷◌, ◌++◌, [], map, false, None, count_by, IfOk, OnOk, OnErr, IfSome, IfNone, IsTrue, Bool, length, filter, bytes_eq, option_copied};
ghost use Rattle.std.specs.List.{list_any, list_all, flat_map, IsDistinct};
ghost use Rattle.meta_types.specs.Keys.{are_in_order, row_at, has_row, add_row, remove_row};
ghost use Rattle.meta_types.specs.Faults.{Refuses, least_of};
ghost use Rattle.row_tables.specs.Arrived.{sorted, same_key, kept, without_memory, Becomes};
ghost use Rattle.row_tables.specs.Visiting.{gone, all_visited};
ghost use Rattle.row_tables.specs.Namespaces.{full_key};

use crate::named::Named;
use crate::namespaces::places::PlacesByNamespace;
use crate::namespaces::{change, find, keep, list};
use crate::row::{Change, GroupedRow, RemovedRows, Test};
use crate::row_table::RowTable;
use crate::row_table::marks::count_marks;
use crate::seed::Seed;
use crate::slices::Slices;
use indexmap::IndexMap;
use meta_types::{Fault, ShortName};
use std::alloc::Global;
use std::marker::Model;

/// Rows of all namespaces, as they arrived: those of one namespace stand together. A row's place is
/// its number. Where one goes, the last of its namespace takes its place. A namespace comes with its
/// first row, and goes with its last; then the last namespace takes its place.
#[derive(Drop)]
pub struct ArrivedByNamespace<K: Named, R: GroupedRow<K>> {
    groups: IndexMap<ShortName, RowTable<K, R>, Seed>,
    count: usize,
}

impl<K: Named, R: GroupedRow<K>> Model for ArrivedByNamespace<K, R> {
    ghost use Rattle.std.specs.Prelude.{List};
    ghost use Rattle.row_tables.specs.Namespaces.{full_key, all_rows};
    ghost use Rattle.row_tables.specs.ArrivedNamespaces.{AreHoused};

    ghost Value = { List R };

    ghost view = { λ t. all_rows t.groups.entries };

    ghost invariant = { λ t. AreHoused (full_key K.texts_of R.name_of R.group_of) R.group_of
        t.groups.entries t.count };
}

impl<K: Named, R: GroupedRow<K>> ArrivedByNamespace<K, R> {
    /// No row.
    pub fn new(alloc: Global, seed: Seed) -> ArrivedByNamespace<K, R>
        ensures { result ≡ [] }
    {
        ArrivedByNamespace {
            groups: IndexMap::with_hasher(alloc, seed),
            count: 0,
        }
    }

    pub(crate) fn seed(&self) -> Seed {
        *self.groups.hasher()
    }

    /// How many rows there are. Each caller learns here that no key stands twice.
    pub fn len(&self) -> usize
        ensures len { result ≡ length self.now }
        ensures distinct { IsDistinct (same_key (full_key K.texts_of R.name_of R.group_of))
            self.now }
        ensures order { IsTrue (are_in_order (full_key K.texts_of R.name_of R.group_of) (sorted
            (full_key K.texts_of R.name_of R.group_of) self.now)) }
    {
        self.count
    }

    /// The places of the rows: made once, they serve many look-ups.
    pub fn places(&self, alloc: Global) -> Result<PlacesByNamespace<'_, K, R>, Fault>
        ensures fault { Refuses result None }
        ensures ok { IfOk result (λ places. places ≡ self.now) }
    {
        PlacesByNamespace::new(&self.groups, self.count, alloc)
    }

    /// Whether the row is there.
    pub fn has(&self, ns: &ShortName, name: &K) -> bool
        ensures { result ≡ has_row (full_key K.texts_of R.name_of R.group_of)
            (ns.now ∷ K.texts_of name.now)
            (sorted (full_key K.texts_of R.name_of R.group_of) self.now) }
    {
        find::has_row(&self.groups, ns, name)
    }

    /// The row of a namespace and a name.
    pub fn get(&self, ns: &ShortName, name: &K) -> Option<&R>
        ensures { option_copied result ≡ row_at (full_key K.texts_of R.name_of R.group_of)
            (ns.now ∷ K.texts_of name.now)
            (sorted (full_key K.texts_of R.name_of R.group_of) self.now) }
    {
        find::row_in(&self.groups, ns, name)
    }

    /// The rows of a namespace, as they arrived.
    pub fn rows(&self, ns: &ShortName) -> Option<&[R]>
        ensures rows { IfSome result (λ rows. rows.now
            ≡ filter (λ row. bytes_eq ns.now (R.group_of row)) self.now) }
        ensures none { IfNone result (filter (λ row. bytes_eq ns.now (R.group_of row)) self.now
            ≡ []) }
    {
        find::rows_of(&self.groups, ns)
    }

    /// Adds a row where none has its key; one look finds whether one has. It takes the text of its
    /// namespace that is there.
    pub fn add_new(&mut self, alloc: Global, row: R) -> Result<(), Fault>
        ensures fault { Refuses result (least_of false false
            (has_row (full_key K.texts_of R.name_of R.group_of)
            (full_key K.texts_of R.name_of R.group_of row)
            (sorted (full_key K.texts_of R.name_of R.group_of) self.old)) false) }
        ensures ok { OnOk result (sorted (full_key K.texts_of R.name_of R.group_of) self.new
            ≡ add_row (full_key K.texts_of R.name_of R.group_of) row
            (sorted (full_key K.texts_of R.name_of R.group_of) self.old)) }
        ensures err { OnErr result (self.new ≡ self.old) }
    {
        if self.count == usize::MAX {
            return Err(self.refusal(row));
        }
        change::add_new_row(&mut self.groups, alloc, row)?;
        self.count += 1;
        Ok(())
    }

    // Why no row more is added, where there is no number for it.
    fn refusal(&self, row: R) -> Fault
        ensures { result ≡ without_memory (has_row (full_key K.texts_of R.name_of R.group_of)
            (full_key K.texts_of R.name_of R.group_of row)
            (sorted (full_key K.texts_of R.name_of R.group_of) self.now)) }
    {
        if self.has(row.group(), row.name()) {
            Fault::AlreadyExists
        } else {
            Fault::OutOfMemory
        }
    }

    /// Takes out the row of a namespace and a name; the last row of its namespace takes its place. A
    /// namespace without a row goes, and the last namespace takes its place.
    pub fn take(&mut self, ns: &ShortName, name: &K) -> Option<R>
        ensures row { result ≡ row_at (full_key K.texts_of R.name_of R.group_of)
            (ns.now ∷ K.texts_of name.now)
            (sorted (full_key K.texts_of R.name_of R.group_of) self.old) }
        ensures left { sorted (full_key K.texts_of R.name_of R.group_of) self.new
            ≡ remove_row (full_key K.texts_of R.name_of R.group_of) (ns.now ∷ K.texts_of name.now)
            (sorted (full_key K.texts_of R.name_of R.group_of) self.old) }
    {
        let row = change::take_row(&mut self.groups, ns, name)?;
        self.count -= 1;
        Some(row)
    }

    /// Changes the row of a namespace and a name in its place, and gives the answer of the change.
    /// Only the change itself may take memory.
    pub fn change<A, C: Change<K, R, A>>(
        &mut self,
        ns: &ShortName,
        name: &K,
        change: C,
    ) -> Option<A>
        requires { (row : R) (answer : A) (after : R) → C.changes change row answer after
            → R.group_of after ≡ R.group_of row }
        ensures absent { IfNone result (has_row (full_key K.texts_of R.name_of R.group_of)
            (ns.now ∷ K.texts_of name.now)
            (sorted (full_key K.texts_of R.name_of R.group_of) self.old) ≡ false) }
        ensures same { IfNone result (self.new ≡ self.old) }
        ensures changed { IfSome result (λ answer. (row : R) × (after : R)
            × C.changes change row answer after × Becomes (full_key K.texts_of R.name_of R.group_of)
            (ns.now ∷ K.texts_of name.now) row after
            (sorted (full_key K.texts_of R.name_of R.group_of) self.old)
            (sorted (full_key K.texts_of R.name_of R.group_of) self.new)) }
    {
        change::change_row(&mut self.groups, ns, name, change)
    }

    /// Whether all rows pass the test.
    pub fn all<T: Test<R>>(&self, test: &T) -> bool
        ensures { result ≡ list_all (T.passes test.now)
            (sorted (full_key K.texts_of R.name_of R.group_of) self.now) }
    {
        find::all_pass(self.groups.values().as_slice(), test)
    }

    /// Whether some row is in the namespace.
    pub fn any_in(&self, ns: &ShortName) -> bool
        ensures { result ≡ list_any (λ row. bytes_eq ns.now (R.group_of row))
            (sorted (full_key K.texts_of R.name_of R.group_of) self.now) }
    {
        find::any_in(&self.groups, ns)
    }

    /// The rows of a namespace, in the order of their keys.
    pub fn list_in(&self, alloc: Global, ns: &ShortName) -> Result<Vec<&R>, Fault>
        ensures fault { Refuses result None }
        ensures ok { IfOk result (λ list. map (λ row. row.now) list.items
            ≡ filter (λ row. bytes_eq ns.now (R.group_of row))
            (sorted (full_key K.texts_of R.name_of R.group_of) self.now)) }
    {
        list::rows_in(&self.groups, alloc, ns)
    }

    /// The rows, in the order of their keys.
    pub fn list(&self, alloc: Global) -> Result<Vec<&R>, Fault>
        ensures fault { Refuses result None }
        ensures ok { IfOk result (λ list. map (λ row. row.now) list.items
            ≡ sorted (full_key K.texts_of R.name_of R.group_of) self.now) }
    {
        list::rows(self.groups.values().as_slice(), alloc)
    }

    /// The rows, in the order of their places.
    pub fn list_arrived(&self, alloc: Global) -> Result<Vec<&R>, Fault>
        ensures fault { Refuses result None }
        ensures ok { IfOk result (λ list. map (λ row. row.now) list.items ≡ self.now) }
    {
        list::rows_arrived(self.groups.values().as_slice(), alloc)
    }

    /// The rows, in the order of their places, lent as the slices in which they stand. No row is
    /// copied, and none is listed.
    pub fn slices(&self, alloc: Global) -> Result<Slices<'_, R>, Fault>
        ensures fault { Refuses result None }
        ensures ok { IfOk result (λ slices. slices ≡ self.now) }
    {
        let slices = list::slices_arrived(self.groups.values().as_slice(), alloc)?;
        Slices::new(alloc, slices)
    }

    // Adds the slices behind those that are there.
    pub(crate) fn push_slices<'a>(&'a self, slices: &mut Vec<&'a [R]>) -> Result<(), Fault>
        ensures fault { Refuses result None }
        ensures ok { OnOk result (flat_map (λ rows. rows.now) slices.new.items
            ≡ flat_map (λ rows. rows.now) slices.old.items ++ self.now) }
    {
        list::push_slices(self.groups.values().as_slice(), slices)
    }

    /// A copy, with the rows at the same places, which shares their texts.
    pub fn copy(&self, alloc: Global) -> Result<ArrivedByNamespace<K, R>, Fault>
        ensures fault { Refuses result None }
        ensures ok { IfOk result (λ table. table ≡ self.now) }
    {
        let groups = list::copy_groups(&self.groups, alloc)?;
        Ok(ArrivedByNamespace {
            groups,
            count: self.count,
        })
    }

    /// Shows the visitor each row whose mark is unset, from the first to the last.
    pub fn visit_removed<P: RemovedRows<R>>(&self, marks: &[bool], visitor: &mut P)
        requires { length marks.now ≡ length self.now }
        ensures { visitor.new ≡ all_visited P.after_visit (gone marks.now self.now) visitor.old }
    {
        keep::visit_removed_rows(self.groups.values().as_slice(), marks, visitor);
    }

    /// Keeps the rows whose mark is set, in the order in which they stand.
    pub fn retain(&mut self, marks: &[bool])
        requires { length marks.now ≡ length self.old }
        ensures left { self.new ≡ kept marks.now self.old }
        ensures stays { (stays : R → Bool) → marks.now ≡ map stays self.old
            → sorted (full_key K.texts_of R.name_of R.group_of) self.new ≡ filter stays
            (sorted (full_key K.texts_of R.name_of R.group_of) self.old) }
    {
        keep::retain_all(&mut self.groups, marks);
        self.count = count_marks(marks);
    }
}
