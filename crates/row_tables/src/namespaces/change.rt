//! A row more in its namespace, a row less, and a row that becomes another. A namespace comes with
//! its first row, and goes with its last.
ghost use Rattle.std.specs.Prelude.{◌≡◌, List, ◌∷◌, ◌<◌, [], false, None, Some, IfOk, OnOk, OnErr, IfSome, IfNone, length, slice_get, if◌then◌else◌};
ghost use Rattle.std.specs.List.{swap_remove};
ghost use Rattle.meta_types.specs.Keys.{Key, row_at, has_row, add_row, remove_row};
ghost use Rattle.meta_types.specs.Text.{Text};
ghost use Rattle.meta_types.specs.Faults.{Refuses, least_of};
ghost use Rattle.row_tables.specs.Arrived.{sorted, by_name, Becomes};
ghost use Rattle.row_tables.specs.Namespaces.{full_key, all_rows, group_key, IsHome};
ghost use Rattle.row_tables.specs.ArrivedNamespaces.{AreApart, AreFull, has_rows};

use crate::named::Named;
use crate::namespaces::homes::{home, name_at};
use crate::row::{Change, GroupedRow};
use crate::row_table::{RowTable, take_at};
use crate::seed::Seed;
use indexmap::IndexMap;
use meta_types::{Fault, ShortName};
use std::alloc::Global;

/// Adds a row where none has its key; one look in its namespace finds whether one has.
pub(crate) fn add_new_row<K: Named, R: GroupedRow<K>>(
    groups: &mut IndexMap<ShortName, RowTable<K, R>, Seed>,
    alloc: Global,
    row: R,
) -> Result<(), Fault>
    requires { AreApart (full_key K.texts_of R.name_of R.group_of) R.group_of groups.old.entries }
    ensures fault { Refuses result (least_of false false
        (has_row (full_key K.texts_of R.name_of R.group_of)
        (full_key K.texts_of R.name_of R.group_of row)
        (sorted (full_key K.texts_of R.name_of R.group_of) (all_rows groups.old.entries))) false) }
    ensures ok { OnOk result (sorted (full_key K.texts_of R.name_of R.group_of)
        (all_rows groups.new.entries) ≡ add_row (full_key K.texts_of R.name_of R.group_of) row
        (sorted (full_key K.texts_of R.name_of R.group_of) (all_rows groups.old.entries))) }
    ensures err { OnErr result (all_rows groups.new.entries ≡ all_rows groups.old.entries) }
    ensures groups { AreApart (full_key K.texts_of R.name_of R.group_of) R.group_of
        groups.new.entries }
    ensures full { AreFull groups.old.entries → AreFull groups.new.entries }
{
    match home(groups, row.group()) {
        Some(home) => add_there(groups, home, row),
        None => open(groups, alloc, row),
    }
}

fn add_there<K: Named, R: GroupedRow<K>>(
    groups: &mut IndexMap<ShortName, RowTable<K, R>, Seed>,
    home: usize,
    row: R,
) -> Result<(), Fault>
    requires are { AreApart (full_key K.texts_of R.name_of R.group_of) R.group_of
        groups.old.entries }
    requires home { IsHome (R.group_of row) home groups.old.entries }
    requires within { home < length groups.old.entries }
    ensures fault { Refuses result (least_of false false
        (has_row (full_key K.texts_of R.name_of R.group_of)
        (full_key K.texts_of R.name_of R.group_of row)
        (sorted (full_key K.texts_of R.name_of R.group_of) (all_rows groups.old.entries))) false) }
    ensures ok { OnOk result (sorted (full_key K.texts_of R.name_of R.group_of)
        (all_rows groups.new.entries) ≡ add_row (full_key K.texts_of R.name_of R.group_of) row
        (sorted (full_key K.texts_of R.name_of R.group_of) (all_rows groups.old.entries))) }
    ensures err { OnErr result (all_rows groups.new.entries ≡ all_rows groups.old.entries) }
    ensures groups { AreApart (full_key K.texts_of R.name_of R.group_of) R.group_of
        groups.new.entries }
    ensures full { AreFull groups.old.entries → AreFull groups.new.entries }
{
    let row = with_text(name_at(groups, home), row);
    groups[home].add_new(row)
}

// The row takes the namespace's own text, where that may be shared once more.
fn with_text<K: Named, R: GroupedRow<K>>(ns: &ShortName, mut row: R) -> R
    requires { ns.now ≡ R.group_of row }
    ensures { result ≡ row }
{
    if let Ok(ns) = ns.copy() {
        row.share_group(ns);
    }
    row
}

// The namespace comes with its first row.
fn open<K: Named, R: GroupedRow<K>>(
    groups: &mut IndexMap<ShortName, RowTable<K, R>, Seed>,
    alloc: Global,
    row: R,
) -> Result<(), Fault>
    requires are { AreApart (full_key K.texts_of R.name_of R.group_of) R.group_of
        groups.old.entries }
    requires none { has_row group_key (R.group_of row ∷ []) groups.old.entries ≡ false }
    ensures fault { Refuses result None }
    ensures ok { OnOk result (sorted (full_key K.texts_of R.name_of R.group_of)
        (all_rows groups.new.entries) ≡ add_row (full_key K.texts_of R.name_of R.group_of) row
        (sorted (full_key K.texts_of R.name_of R.group_of) (all_rows groups.old.entries))) }
    ensures err { OnErr result (groups.new.entries ≡ groups.old.entries) }
    ensures groups { AreApart (full_key K.texts_of R.name_of R.group_of) R.group_of
        groups.new.entries }
    ensures full { AreFull groups.old.entries → AreFull groups.new.entries }
{
    let ns = row.group().copy()?;
    let rows = only(alloc, *groups.hasher(), row)?;
    match groups.insert(ns, rows) {
        Ok(_) => Ok(()),
        Err(_) => Err(Fault::OutOfMemory),
    }
}

// A table of one row.
fn only<K: Named, R: GroupedRow<K>>(
    alloc: Global,
    seed: Seed,
    row: R,
) -> Result<RowTable<K, R>, Fault>
    ensures fault { Refuses result None }
    ensures ok { IfOk result (λ rows. rows ≡ row ∷ []) }
{
    let mut rows = RowTable::new(alloc, seed);
    rows.add(row)?;
    Ok(rows)
}

/// Takes out the row of a namespace and a name; the last row of its namespace takes its place. With
/// its last row a namespace goes, and the last namespace takes its place.
pub(crate) fn take_row<K: Named, R: GroupedRow<K>>(
    groups: &mut IndexMap<ShortName, RowTable<K, R>, Seed>,
    ns: &ShortName,
    name: &K,
) -> Option<R>
    requires { AreApart (full_key K.texts_of R.name_of R.group_of) R.group_of groups.old.entries }
    ensures row { result ≡ row_at (full_key K.texts_of R.name_of R.group_of)
        (ns.now ∷ K.texts_of name.now)
        (sorted (full_key K.texts_of R.name_of R.group_of) (all_rows groups.old.entries)) }
    ensures left { sorted (full_key K.texts_of R.name_of R.group_of) (all_rows groups.new.entries)
        ≡ remove_row (full_key K.texts_of R.name_of R.group_of) (ns.now ∷ K.texts_of name.now)
        (sorted (full_key K.texts_of R.name_of R.group_of) (all_rows groups.old.entries)) }
    ensures groups { AreApart (full_key K.texts_of R.name_of R.group_of) R.group_of
        groups.new.entries }
    ensures full { AreFull groups.old.entries → AreFull groups.new.entries }
{
    match home(groups, ns) {
        Some(home) => {
            let row = groups[home].take(name);
            close(groups, home);
            row
        }
        None => None,
    }
}

// A namespace that has no row goes.
fn close<K: Named, R: GroupedRow<K>>(
    groups: &mut IndexMap<ShortName, RowTable<K, R>, Seed>,
    home: usize,
)
    requires { home < length groups.old.entries }
    ensures { (group : Text × List R) → slice_get groups.old.entries home ≡ Some group
        → groups.new.entries ≡ (if has_rows group then groups.old.entries
        else swap_remove groups.old.entries home group) }
{
    if groups[home].len() == 0 {
        let _gone = take_at(groups, home);
    }
}

/// Changes the row of a namespace and a name in its place.
pub(crate) fn change_row<K: Named, R: GroupedRow<K>, A, C: Change<K, R, A>>(
    groups: &mut IndexMap<ShortName, RowTable<K, R>, Seed>,
    ns: &ShortName,
    name: &K,
    change: C,
) -> Option<A>
    requires groups { AreApart (full_key K.texts_of R.name_of R.group_of) R.group_of
        groups.old.entries }
    requires keeps_ns { (row : R) (answer : A) (after : R) → C.changes change row answer after
        → R.group_of after ≡ R.group_of row }
    ensures absent { IfNone result (has_row (full_key K.texts_of R.name_of R.group_of)
        (ns.now ∷ K.texts_of name.now)
        (sorted (full_key K.texts_of R.name_of R.group_of) (all_rows groups.old.entries)) ≡ false) }
    ensures same { IfNone result (all_rows groups.new.entries ≡ all_rows groups.old.entries) }
    ensures changed { IfSome result (λ answer. (row : R) × (after : R)
        × C.changes change row answer after × Becomes (full_key K.texts_of R.name_of R.group_of)
        (ns.now ∷ K.texts_of name.now) row after
        (sorted (full_key K.texts_of R.name_of R.group_of) (all_rows groups.old.entries))
        (sorted (full_key K.texts_of R.name_of R.group_of) (all_rows groups.new.entries))) }
    ensures groups { AreApart (full_key K.texts_of R.name_of R.group_of) R.group_of
        groups.new.entries }
    ensures full { AreFull groups.old.entries → AreFull groups.new.entries }
{
    match home(groups, ns) {
        Some(home) => groups[home].change(name, change),
        None => None,
    }
}
