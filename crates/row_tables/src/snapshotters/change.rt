//! A row more in its namespace, a row less, and a row that becomes another. A namespace comes with
//! its first row, and goes with its last.
ghost use Rattle.std.specs.Prelude.{◌≡◌, List, ◌∷◌, ◌<◌, [], false, None, Some, IfOk, OnOk, OnErr, IfSome, IfNone, length, slice_get, if◌then◌else◌};
ghost use Rattle.std.specs.List.{swap_remove};
ghost use Rattle.meta_types.specs.Keys.{Key, row_at, has_row, add_row, remove_row};
ghost use Rattle.meta_types.specs.Text.{Text};
ghost use Rattle.meta_types.specs.Faults.{Refuses, least_of};
ghost use Rattle.row_tables.specs.Arrived.{sorted, by_name, Becomes};
ghost use Rattle.row_tables.specs.Namespaces.{layered_key, all_rows, group_key, IsHome};
ghost use Rattle.row_tables.specs.ArrivedNamespaces.{AreApart, AreFull, has_rows};

use crate::arrived_by_namespace::ArrivedByNamespace;
use crate::named::Named;
use crate::namespaces::homes::{home, name_at};
use crate::row::{Change, SnapshotterRow};
use crate::row_table::take_at;
use crate::seed::Seed;
use indexmap::IndexMap;
use meta_types::{Fault, ShortName};
use std::alloc::Global;

/// Adds a row where none has its key; one look in its namespace finds whether one has.
pub(crate) fn add_new_row<K: Named, R: SnapshotterRow<K>>(
    groups: &mut IndexMap<ShortName, ArrivedByNamespace<K, R>, Seed>,
    alloc: Global,
    row: R,
) -> Result<(), Fault>
    requires { AreApart
        (layered_key K.texts_of R.name_of R.group_of R.ns_of) R.ns_of groups.old.entries }
    ensures fault { Refuses result (least_of false false
        (has_row (layered_key K.texts_of R.name_of R.group_of R.ns_of)
        (layered_key K.texts_of R.name_of R.group_of R.ns_of row)
        (sorted (layered_key K.texts_of R.name_of R.group_of R.ns_of)
        (all_rows groups.old.entries))) false) }
    ensures ok { OnOk result (sorted (layered_key K.texts_of R.name_of R.group_of R.ns_of)
        (all_rows groups.new.entries) ≡ add_row
        (layered_key K.texts_of R.name_of R.group_of R.ns_of) row
        (sorted (layered_key K.texts_of R.name_of R.group_of R.ns_of)
        (all_rows groups.old.entries))) }
    ensures err { OnErr result (all_rows groups.new.entries ≡ all_rows groups.old.entries) }
    ensures groups { AreApart (layered_key K.texts_of R.name_of R.group_of R.ns_of) R.ns_of
        groups.new.entries }
    ensures full { AreFull groups.old.entries → AreFull groups.new.entries }
{
    match home(groups, row.ns()) {
        Some(home) => add_there(groups, alloc, home, row),
        None => open(groups, alloc, row),
    }
}

fn add_there<K: Named, R: SnapshotterRow<K>>(
    groups: &mut IndexMap<ShortName, ArrivedByNamespace<K, R>, Seed>,
    alloc: Global,
    home: usize,
    row: R,
) -> Result<(), Fault>
    requires are { AreApart (layered_key K.texts_of R.name_of R.group_of R.ns_of) R.ns_of
        groups.old.entries }
    requires home { IsHome (R.ns_of row) home groups.old.entries }
    requires within { home < length groups.old.entries }
    ensures fault { Refuses result (least_of false false
        (has_row (layered_key K.texts_of R.name_of R.group_of R.ns_of)
        (layered_key K.texts_of R.name_of R.group_of R.ns_of row)
        (sorted (layered_key K.texts_of R.name_of R.group_of R.ns_of)
        (all_rows groups.old.entries))) false) }
    ensures ok { OnOk result (sorted (layered_key K.texts_of R.name_of R.group_of R.ns_of)
        (all_rows groups.new.entries) ≡ add_row
        (layered_key K.texts_of R.name_of R.group_of R.ns_of) row
        (sorted (layered_key K.texts_of R.name_of R.group_of R.ns_of)
        (all_rows groups.old.entries))) }
    ensures err { OnErr result (all_rows groups.new.entries ≡ all_rows groups.old.entries) }
    ensures groups { AreApart (layered_key K.texts_of R.name_of R.group_of R.ns_of) R.ns_of
        groups.new.entries }
    ensures full { AreFull groups.old.entries → AreFull groups.new.entries }
{
    let row = with_text(name_at(groups, home), row);
    groups[home].add_new(alloc, row)
}

// The row takes the namespace's own text, where that may be shared once more.
fn with_text<K: Named, R: SnapshotterRow<K>>(ns: &ShortName, mut row: R) -> R
    requires { ns.now ≡ R.ns_of row }
    ensures { result ≡ row }
{
    if let Ok(ns) = ns.copy() {
        row.share_ns(ns);
    }
    row
}

// The namespace comes with its first row.
fn open<K: Named, R: SnapshotterRow<K>>(
    groups: &mut IndexMap<ShortName, ArrivedByNamespace<K, R>, Seed>,
    alloc: Global,
    row: R,
) -> Result<(), Fault>
    requires are { AreApart (layered_key K.texts_of R.name_of R.group_of R.ns_of) R.ns_of
        groups.old.entries }
    requires none { has_row group_key (R.ns_of row ∷ []) groups.old.entries ≡ false }
    ensures fault { Refuses result None }
    ensures ok { OnOk result (sorted (layered_key K.texts_of R.name_of R.group_of R.ns_of)
        (all_rows groups.new.entries) ≡ add_row
        (layered_key K.texts_of R.name_of R.group_of R.ns_of) row
        (sorted (layered_key K.texts_of R.name_of R.group_of R.ns_of)
        (all_rows groups.old.entries))) }
    ensures err { OnErr result (groups.new.entries ≡ groups.old.entries) }
    ensures groups { AreApart (layered_key K.texts_of R.name_of R.group_of R.ns_of) R.ns_of
        groups.new.entries }
    ensures full { AreFull groups.old.entries → AreFull groups.new.entries }
{
    let ns = row.ns().copy()?;
    let rows = only(alloc, *groups.hasher(), row)?;
    match groups.insert(ns, rows) {
        Ok(_) => Ok(()),
        Err(_) => Err(Fault::OutOfMemory),
    }
}

// A table of one row.
fn only<K: Named, R: SnapshotterRow<K>>(
    alloc: Global,
    seed: Seed,
    row: R,
) -> Result<ArrivedByNamespace<K, R>, Fault>
    ensures fault { Refuses result None }
    ensures ok { IfOk result (λ rows. rows ≡ row ∷ []) }
{
    let mut rows = ArrivedByNamespace::new(alloc, seed);
    rows.add_new(alloc, row)?;
    Ok(rows)
}

/// Takes out the row of a namespace, a snapshotter and a name; the last row of its snapshotter
/// takes its place. With its last row a namespace goes, and the last namespace takes its place.
pub(crate) fn take_row<K: Named, R: SnapshotterRow<K>>(
    groups: &mut IndexMap<ShortName, ArrivedByNamespace<K, R>, Seed>,
    ns: &ShortName,
    snapshotter: &ShortName,
    name: &K,
) -> Option<R>
    requires { AreApart
        (layered_key K.texts_of R.name_of R.group_of R.ns_of) R.ns_of groups.old.entries }
    ensures row { result ≡ row_at (layered_key K.texts_of R.name_of R.group_of R.ns_of)
        (ns.now ∷ snapshotter.now ∷ K.texts_of name.now)
        (sorted (layered_key K.texts_of R.name_of R.group_of R.ns_of)
        (all_rows groups.old.entries)) }
    ensures left { sorted (layered_key K.texts_of R.name_of R.group_of R.ns_of)
        (all_rows groups.new.entries)
        ≡ remove_row (layered_key K.texts_of R.name_of R.group_of R.ns_of)
        (ns.now ∷ snapshotter.now ∷ K.texts_of name.now)
        (sorted (layered_key K.texts_of R.name_of R.group_of R.ns_of)
        (all_rows groups.old.entries)) }
    ensures groups { AreApart (layered_key K.texts_of R.name_of R.group_of R.ns_of) R.ns_of
        groups.new.entries }
    ensures full { AreFull groups.old.entries → AreFull groups.new.entries }
{
    match home(groups, ns) {
        Some(home) => {
            let row = groups[home].take(snapshotter, name);
            close(groups, home);
            row
        }
        None => None,
    }
}

// A namespace that has no row goes.
fn close<K: Named, R: SnapshotterRow<K>>(
    groups: &mut IndexMap<ShortName, ArrivedByNamespace<K, R>, Seed>,
    home: usize,
)
    requires { home < length groups.old.entries }
    ensures { (group : Text × List R) → slice_get groups.old.entries home ≡ Some group
        → groups.new.entries ≡ (if has_rows group then groups.old.entries
        else swap_remove groups.old.entries home group) }
{
    if groups[home].len() == 0 {
        let _gone = take_at(groups, home);
    }
}

/// Changes the row of a namespace, a snapshotter and a name in its place.
pub(crate) fn change_row<K: Named, R: SnapshotterRow<K>, A, C: Change<K, R, A>>(
    groups: &mut IndexMap<ShortName, ArrivedByNamespace<K, R>, Seed>,
    ns: &ShortName,
    snapshotter: &ShortName,
    name: &K,
    change: C,
) -> Option<A>
    requires groups { AreApart (layered_key K.texts_of R.name_of R.group_of R.ns_of) R.ns_of
        groups.old.entries }
    requires keeps_group { (row : R) (answer : A) (after : R) → C.changes change row answer after
        → R.group_of after ≡ R.group_of row }
    requires keeps_ns { (row : R) (answer : A) (after : R) → C.changes change row answer after
        → R.ns_of after ≡ R.ns_of row }
    ensures absent { IfNone result (has_row (layered_key K.texts_of R.name_of R.group_of R.ns_of)
        (ns.now ∷ snapshotter.now ∷ K.texts_of name.now)
        (sorted (layered_key K.texts_of R.name_of R.group_of R.ns_of) (all_rows groups.old.entries))
        ≡ false) }
    ensures same { IfNone result (all_rows groups.new.entries ≡ all_rows groups.old.entries) }
    ensures changed { IfSome result (λ answer. (row : R) × (after : R)
        × C.changes change row answer after × Becomes (layered_key K.texts_of R.name_of R.group_of
        R.ns_of) (ns.now ∷ snapshotter.now ∷ K.texts_of name.now) row after
        (sorted (layered_key K.texts_of R.name_of R.group_of R.ns_of) (all_rows groups.old.entries))
        (sorted (layered_key K.texts_of R.name_of R.group_of R.ns_of)
        (all_rows groups.new.entries))) }
    ensures groups { AreApart (layered_key K.texts_of R.name_of R.group_of R.ns_of) R.ns_of
        groups.new.entries }
    ensures full { AreFull groups.old.entries → AreFull groups.new.entries }
{
    match home(groups, ns) {
        Some(home) => groups[home].change(snapshotter, name, change),
        None => None,
    }
}
