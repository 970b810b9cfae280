//! A sweep of all namespaces: keeps the marked rows, and shows a visitor the others. A namespace
//! goes with its last row.
ghost use Rattle.std.specs.Prelude.{◌≡◌, ◌==◌, not, filter, length};
ghost use Rattle.row_tables.specs.Arrived.{kept};
ghost use Rattle.row_tables.specs.Visiting.{gone, all_visited};
ghost use Rattle.row_tables.specs.Namespaces.{layered_key, all_rows, joined};
ghost use Rattle.row_tables.specs.ArrivedNamespaces.{AreApart, AreFull, has_rows};

use crate::arrived_by_namespace::ArrivedByNamespace;
use crate::named::Named;
use crate::row::{RemovedRows, SnapshotterRow};
use crate::row_table::give_back;
use crate::seed::Seed;
use indexmap::IndexMap;
use meta_types::ShortName;

/// Keeps the rows whose mark is set.
pub(crate) fn retain_all<K: Named, R: SnapshotterRow<K>>(
    groups: &mut IndexMap<ShortName, ArrivedByNamespace<K, R>, Seed>,
    marks: &[bool],
)
    requires groups { AreApart (layered_key K.texts_of R.name_of R.group_of R.ns_of) R.ns_of
        groups.old.entries }
    requires length { length marks.now ≡ length (all_rows groups.old.entries) }
    ensures rows { all_rows groups.new.entries ≡ kept marks.now (all_rows groups.old.entries) }
    ensures groups { AreApart (layered_key K.texts_of R.name_of R.group_of R.ns_of) R.ns_of
        groups.new.entries }
    ensures full { AreFull groups.new.entries }
{
    retain_rows(groups, marks);
    close_all(groups);
}

fn retain_rows<K: Named, R: SnapshotterRow<K>>(
    groups: &mut IndexMap<ShortName, ArrivedByNamespace<K, R>, Seed>,
    marks: &[bool],
)
    requires groups { AreApart (layered_key K.texts_of R.name_of R.group_of R.ns_of) R.ns_of
        groups.old.entries }
    requires length { length marks.now ≡ length (all_rows groups.old.entries) }
    ensures rows { all_rows groups.new.entries ≡ kept marks.now (all_rows groups.old.entries) }
    ensures groups { AreApart (layered_key K.texts_of R.name_of R.group_of R.ns_of) R.ns_of
        groups.new.entries }
{
    let mut rest = marks;
    for at in 0..groups.len() {
        let (own, later) = rest.split_at(groups[at].len());
        groups[at].retain(own);
        rest = later;
    }
}

// The namespaces that have no row go.
fn close_all<K: Named, R: SnapshotterRow<K>>(
    groups: &mut IndexMap<ShortName, ArrivedByNamespace<K, R>, Seed>,
)
    ensures { groups.new.entries ≡ filter has_rows groups.old.entries }
{
    groups.retain(
        |_ns: &ShortName, rows: &mut ArrivedByNamespace<K, R>| -> bool
            ensures { (result ≡ not (length rows.old == 0)) × (rows.new ≡ rows.old) }
        { rows.len() != 0 },
    );
    give_back(groups);
}

/// Shows the visitor each row whose mark is unset, from the first to the last.
pub(crate) fn visit_removed_rows<K: Named, R: SnapshotterRow<K>, P: RemovedRows<R>>(
    tables: &[ArrivedByNamespace<K, R>],
    marks: &[bool],
    visitor: &mut P,
)
    requires { length marks.now ≡ length (joined tables.now) }
    ensures { visitor.new
        ≡ all_visited P.after_visit (gone marks.now (joined tables.now)) visitor.old }
{
    let mut rest = marks;
    for table in tables {
        let (own, later) = rest.split_at(table.len());
        table.visit_removed(own, visitor);
        rest = later;
    }
}
