//! Rows of one kind, as they arrived.
ghost use Rattle.std.specs.Prelude.{◌≡◌, ◌<◌, ◌≤◌, ◌^◌, ◌++◌, ◌∷◌, [], Bool, map, filter, false, None, Some, IfOk, IfErr, IfSome, IfNone, OnOk, OnErr, IsTrue, length, is_some, option_copied, slice_get, slice_index_or, drop, swap_remove};
ghost use Rattle.std.specs.Bool.{OnFalse};
ghost use Rattle.std.specs.List.{IsDistinct, list_all, position};
ghost use Rattle.meta_types.specs.Keys.{is_key, are_in_order, row_at, has_row, add_row, remove_row, change_row};
ghost use Rattle.meta_types.specs.Faults.{Refuses, least_of};
ghost use Rattle.indexmap.specs.IndexMap.{IsUnique, get, insert_entry};
ghost use Rattle.row_tables.specs.Arrived.{sorted, by_name, same_key, kept, without_memory, Becomes};
ghost use Rattle.row_tables.specs.Visiting.{gone, all_visited};

mod inserting;
pub(crate) mod marks;

use crate::named::Named;
use crate::row::{Change, NamedRow, RemovedRows, Test};
use crate::row_table::inserting::insert_new;
use crate::row_table::marks::take_mark;
use crate::seed::Seed;
use crate::visiting::visit_removed;
use indexmap::IndexMap;
use meta_types::Fault;
use std::alloc::{AllocFailed, Global};
use std::hash::Hash;
use std::marker::Model;

/// Rows in the order in which they arrived, each found by its name. Where one goes, the last takes its
/// place.
#[derive(Drop)]
pub struct RowTable<K: Named, R: NamedRow<K>> {
    rows: IndexMap<K, R, Seed>,
}

impl<K: Named, R: NamedRow<K>> Model for RowTable<K, R> {
    ghost use Rattle.std.specs.Prelude.{List};
    ghost use Rattle.indexmap.specs.IndexMap.{values};
    ghost use Rattle.row_tables.specs.Arrived.{AreNamed};

    ghost Value = { List R };

    ghost view = { λ t. values t.rows };

    ghost invariant = { λ t. AreNamed K.eq R.name_of t.rows.entries };
}

impl<K: Named, R: NamedRow<K>> RowTable<K, R> {
    /// No row.
    pub fn new(alloc: Global, seed: Seed) -> RowTable<K, R>
        ensures { result ≡ [] }
    {
        RowTable {
            rows: IndexMap::with_hasher(alloc, seed),
        }
    }

    /// How many rows there are.
    pub fn len(&self) -> usize
        ensures len { result ≡ length self.now }
        ensures small { result < 2 ^ 63 }
    {
        self.rows.len()
    }

    /// Whether a row has the name.
    pub fn has(&self, name: &K) -> bool
        ensures { result ≡ has_row (by_name K.texts_of R.name_of) (K.texts_of name.now)
            (sorted (by_name K.texts_of R.name_of) self.now) }
    {
        self.rows.contains_key(name)
    }

    /// The row of a name.
    pub fn get(&self, name: &K) -> Option<&R>
        ensures { option_copied result ≡ row_at (by_name K.texts_of R.name_of)
            (K.texts_of name.now) (sorted (by_name K.texts_of R.name_of) self.now) }
    {
        self.rows.get(name)
    }

    /// The place of the row of a name.
    pub fn place(&self, name: &K) -> Option<usize>
        ensures place { result ≡ position (λ row. is_key (K.texts_of name.now)
            (by_name K.texts_of R.name_of row)) self.now }
        ensures within { IfSome result (λ place. place < length self.now) }
    {
        self.rows.get_index_of(name)
    }

    /// The rows, in the order of their places.
    pub fn rows(&self) -> &[R]
        ensures rows { result.now ≡ self.now }
        ensures order { IsTrue (are_in_order (by_name K.texts_of R.name_of) (sorted
            (by_name K.texts_of R.name_of) self.now)) }
        ensures distinct { IsDistinct (same_key (by_name K.texts_of R.name_of)) self.now }
    {
        self.rows.values().as_slice()
    }

    /// Whether all rows pass the test.
    pub fn all<T: Test<R>>(&self, test: &T) -> bool
        ensures { result ≡ list_all (T.passes test.now)
            (sorted (by_name K.texts_of R.name_of) self.now) }
    {
        all_pass(self.rows(), test)
    }

    /// Adds a row behind all others. Where memory is refused, the caller gets it back.
    pub fn add(&mut self, row: R) -> Result<(), AllocFailed<R>>
        requires { has_row (by_name K.texts_of R.name_of) (K.texts_of (R.name_of row)) (sorted
            (by_name K.texts_of R.name_of) self.old) ≡ false }
        ensures ok { OnOk result (sorted (by_name K.texts_of R.name_of) self.new ≡ add_row
            (by_name K.texts_of R.name_of) row (sorted (by_name K.texts_of R.name_of) self.old)) }
        ensures last { OnOk result (self.new ≡ self.old ++ row ∷ []) }
        ensures err { OnErr result (self.new ≡ self.old) }
        ensures value_returned { IfErr result (λ refused. refused.value ≡ row) }
    {
        let Ok(name) = row.name().copy_name() else {
            return Err(AllocFailed { value: row });
        };
        match self.rows.insert(name, row) {
            Ok(_) => Ok(()),
            Err(refused) => Err(AllocFailed {
                value: refused.value.1,
            }),
        }
    }

    /// Adds a row behind all others, where none has its name; one look finds whether one has.
    pub fn add_new(&mut self, row: R) -> Result<(), Fault>
        ensures fault { Refuses result (least_of false false (has_row
            (by_name K.texts_of R.name_of) (K.texts_of (R.name_of row)) (sorted
            (by_name K.texts_of R.name_of) self.old)) false) }
        ensures ok { OnOk result (sorted (by_name K.texts_of R.name_of) self.new ≡ add_row
            (by_name K.texts_of R.name_of) row (sorted (by_name K.texts_of R.name_of) self.old)) }
        ensures last { OnOk result (self.new ≡ self.old ++ row ∷ []) }
        ensures err { OnErr result (self.new ≡ self.old) }
    {
        let Ok(name) = row.name().copy_name() else {
            return Err(self.refusal(row.name()));
        };
        insert_new(&mut self.rows, name, row)
    }

    /// Why no row of the name is added, where memory was refused.
    pub(crate) fn refusal(&self, name: &K) -> Fault
        ensures { result ≡ without_memory (has_row (by_name K.texts_of R.name_of)
            (K.texts_of name.now) (sorted (by_name K.texts_of R.name_of) self.now)) }
    {
        if self.has(name) {
            Fault::AlreadyExists
        } else {
            Fault::OutOfMemory
        }
    }

    /// Takes out the row of a name; the last row takes its place.
    pub fn take(&mut self, name: &K) -> Option<R>
        ensures row { result ≡ row_at (by_name K.texts_of R.name_of) (K.texts_of name.now) (sorted
            (by_name K.texts_of R.name_of) self.old) }
        ensures left { sorted (by_name K.texts_of R.name_of) self.new ≡ remove_row
            (by_name K.texts_of R.name_of) (K.texts_of name.now) (sorted
            (by_name K.texts_of R.name_of) self.old) }
        ensures same { IfNone result (self.new ≡ self.old) }
        ensures len { length self.new ≤ length self.old }
    {
        let place = match self.rows.get_full(name) {
            Some((place, _name, _row)) => place,
            None => return None,
        };
        let (_name, row) = take_at(&mut self.rows, place).unwrap();
        Some(row)
    }

    /// Changes the row of a name in its place, and gives the answer of the change. Only the change
    /// itself may take memory.
    pub fn change<A, C: Change<K, R, A>>(&mut self, name: &K, change: C) -> Option<A>
        ensures absent { IfNone result (has_row (by_name K.texts_of R.name_of)
            (K.texts_of name.now) (sorted (by_name K.texts_of R.name_of) self.old) ≡ false) }
        ensures same { IfNone result (self.new ≡ self.old) }
        ensures changed { IfSome result (λ answer. (row : R) × (after : R)
            × C.changes change row answer after × Becomes (by_name K.texts_of R.name_of)
            (K.texts_of name.now) row after (sorted (by_name K.texts_of R.name_of) self.old)
            (sorted (by_name K.texts_of R.name_of) self.new)) }
        ensures len { length self.new ≡ length self.old }
    {
        let place = match self.rows.get_full(name) {
            Some((place, _name, _row)) => place,
            None => return None,
        };
        Some(change.change(&mut self.rows[place]))
    }

    /// A copy, with the rows at the same places, which shares their texts.
    pub fn copy(&self, alloc: Global) -> Result<RowTable<K, R>, Fault>
        ensures fault { Refuses result None }
        ensures ok { IfOk result (λ table. table ≡ self.now) }
    {
        copy_rows(self.rows(), alloc, *self.rows.hasher())
    }

    /// Shows the visitor each row whose mark is unset, from the first to the last.
    pub(crate) fn visit_removed<P: RemovedRows<R>>(&self, marks: &[bool], visitor: &mut P)
        requires { length marks.now ≡ length self.now }
        ensures { visitor.new ≡ all_visited P.after_visit (gone marks.now self.now) visitor.old }
    {
        visit_removed(self.rows(), marks, visitor);
    }

    /// Keeps the rows whose mark is set, in the order in which they arrived.
    pub fn retain(&mut self, marks: &[bool])
        requires { length marks.now ≡ length self.old }
        ensures left { self.new ≡ kept marks.now self.old }
        ensures stays { (stays : R → Bool) → marks.now ≡ map stays self.old
            → sorted (by_name K.texts_of R.name_of) self.new ≡ filter stays
            (sorted (by_name K.texts_of R.name_of) self.old) }
    {
        retain_rows(&mut self.rows, marks);
    }
}

fn all_pass<R, T: Test<R>>(rows: &[R], test: &T) -> bool
    ensures { result ≡ list_all (T.passes test.now) rows.now }
{
    rows.iter().all(|row| test.test(row))
}

fn copy_rows<K: Named, R: NamedRow<K>>(
    rows: &[R],
    alloc: Global,
    seed: Seed,
) -> Result<RowTable<K, R>, Fault>
    requires { IsDistinct (same_key (by_name K.texts_of R.name_of)) rows.now }
    ensures fault { Refuses result None }
    ensures ok { IfOk result (λ copies. copies ≡ rows.now) }
{
    let mut copies = RowTable::new(alloc, seed);
    for row in rows {
        let copy = row.copy_row(alloc)?;
        copies.add(copy)?;
    }
    Ok(copies)
}

// Keeps the rows whose mark is set, in their order.
fn retain_rows<K: Named, R: NamedRow<K>>(rows: &mut IndexMap<K, R, Seed>, marks: &[bool])
    requires { length marks.now ≡ length rows.old.entries }
    ensures kept { rows.new.entries ≡ kept marks.now rows.old.entries }
    ensures unique { IsUnique K.eq rows.new }
{
    let mut rest = marks;
    rows.retain(
        |_name: &K, row: &mut R| -> bool
            ensures { (result ≡ slice_index_or rest.entry.now 0 false)
                × (rest.exit.now ≡ drop 1 rest.entry.now) × (row.new ≡ row.old) }
        { take_mark(&mut rest) },
    );
    give_back(rows);
}

// Takes out a row by its place; the last takes it.
pub(crate) fn take_at<K: Eq + Hash, V>(
    rows: &mut IndexMap<K, V, Seed>,
    place: usize,
) -> Option<(K, V)>
    ensures entry { result ≡ slice_get rows.old.entries place }
    ensures entries { IfSome result (λ entry. rows.new.entries
        ≡ swap_remove rows.old.entries place entry) }
    ensures unique { IsUnique K.eq rows.new }
{
    let taken = rows.swap_remove_index(place);
    give_back(rows);
    taken
}

// Gives back memory where less than a quarter of it is in use: half of what is left stays free, so
// that tables which grow and shrink by turns rarely move.
pub(crate) fn give_back<K: Eq + Hash, V>(rows: &mut IndexMap<K, V, Seed>)
    ensures entries { rows.new.entries ≡ rows.old.entries }
{
    let len = rows.len();
    if len < rows.capacity() / 4 {
        rows.shrink_to(len * 2);
    }
}
