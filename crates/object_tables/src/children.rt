//! The snapshots, and the names of each one's children.
ghost use Rattle.std.specs.Prelude.{◌≡◌, ◌∷◌, [], Bool, map, filter, false, None, IfOk, OnOk, OnErr, length};
ghost use Rattle.std.specs.Bool.{OnFalse};
ghost use Rattle.std.specs.List.{list_any};
ghost use Rattle.meta_types.specs.Keys.{has_row, row_at, add_row, remove_row, change_row};
ghost use Rattle.meta_types.specs.Labels.{put_label};
ghost use Rattle.meta_types.specs.Rows.{snap_key};
ghost use Rattle.meta_types.specs.Faults.{Refuses};
ghost use Rattle.meta_types.specs.Ops.Snapshots.{is_child_of};
ghost use Rattle.meta_types.specs.declared.rows.SnapRow.{SnapRow};
ghost use Rattle.row_tables.specs.Arrived.{sorted};
ghost use Rattle.object_tables.specs.Calls.{children_of, labelling_fault, kept};
ghost use Rattle.object_tables.specs.Edits.{snap_with};
ghost use Rattle.object_tables.specs.Children.{child_named, families_visited};

use crate::families::Families;
use crate::parts::set_snap;
use crate::stored::relabel_snap;
use meta_types::{Data, Fault, Labels, Name, SnapKey, SnapRow};
use row_tables::{ArrivedBySnapshotter, BySnapshotter, RemovedRows, Seed};
use std::alloc::Global;
use std::marker::Model;

/// The snapshots, with the names of each one's children.
#[derive(Drop)]
pub(crate) struct Snapshots {
    rows: BySnapshotter<Name, SnapRow>,
    families: Families,
}

impl Model for Snapshots {
    ghost use Rattle.std.specs.Prelude.{◌≡◌, List};
    ghost use Rattle.meta_types.specs.declared.rows.SnapRow.{SnapRow};
    ghost use Rattle.object_tables.specs.Children.{family_names, names_under};

    ghost Value = { List SnapRow };

    ghost view = { λ t. t.rows };

    ghost invariant = { λ t. family_names t.families ≡ names_under t.rows };
}

impl Snapshots {
    pub(crate) fn new(alloc: Global, seed: Seed) -> Snapshots
        ensures { result ≡ [] }
    {
        Snapshots {
            rows: BySnapshotter::new(alloc, seed),
            families: Families::new(alloc, seed),
        }
    }

    pub(crate) fn copy(&self, alloc: Global) -> Result<Snapshots, Fault>
        ensures fault { Refuses result None }
        ensures ok { IfOk result (λ table. table ≡ self.now) }
    {
        let rows = self.rows.copy(alloc)?;
        let families = self.families.copy(alloc)?;
        Ok(Snapshots { rows, families })
    }

    /// The rows themselves, for what needs no index.
    pub(crate) fn table(&self) -> &BySnapshotter<Name, SnapRow>
        ensures { result.now ≡ self.now }
    {
        &self.rows
    }

    /// The snapshots as they arrived.
    pub(crate) fn into_arrived(self) -> ArrivedSnapshots
        ensures { sorted snap_key result ≡ self }
    {
        ArrivedSnapshots {
            rows: self.rows.into_arrived(),
            families: self.families,
        }
    }

    /// The snapshots that arrived, seen in the order of their keys.
    pub(crate) fn from_arrived(arrived: ArrivedSnapshots) -> Snapshots
        ensures { result ≡ sorted snap_key arrived }
    {
        Snapshots {
            rows: BySnapshotter::from_arrived(arrived.rows),
            families: arrived.families,
        }
    }

    /// Adds a snapshot, and before it its name under its parent. Where memory is refused to the
    /// row, the name is taken out again.
    pub(crate) fn add(&mut self, alloc: Global, row: SnapRow) -> Result<(), Fault>
        requires { has_row snap_key (snap_key row) self.old ≡ false }
        ensures fault { Refuses result None }
        ensures ok { OnOk result (self.new ≡ add_row snap_key row self.old) }
        ensures err { OnErr result (self.new ≡ self.old) }
    {
        let Some(parent) = &row.parent else {
            return self.rows.add(alloc, row);
        };
        let parent = parent.copy()?;
        let key = row.key.copy()?;
        self.families.enter(alloc, &key, &parent)?;
        // Its clause says that the keys stand in their order.
        let _ = self.rows.len();
        match self.rows.add(alloc, row) {
            Ok(()) => Ok(()),
            Err(fault) => {
                self.families.leave(&key, &parent);
                Err(fault)
            }
        }
    }

    pub(crate) fn remove(&mut self, key: &SnapKey) -> bool
        ensures found { result ≡ has_row snap_key (key.now.ns ∷ key.now.snapshotter
            ∷ key.now.name ∷ []) self.old }
        ensures left { self.new ≡ remove_row snap_key (key.now.ns ∷ key.now.snapshotter
            ∷ key.now.name ∷ []) self.old }
        ensures same { OnFalse result (self.new ≡ self.old) }
    {
        // Its clause says that the keys stand in their order.
        let _ = self.rows.len();
        let Some(row) = self.rows.take(&key.ns, &key.snapshotter, &key.name) else {
            return false;
        };
        if let Some(parent) = &row.parent {
            self.families.leave(&row.key, parent);
        }
        true
    }

    pub(crate) fn relabel(
        &mut self,
        alloc: Global,
        at: &SnapKey,
        key: &str,
        value: &str,
    ) -> Result<(), Fault>
        ensures fault { Refuses result (labelling_fault (λ row. row.labels) key.now value.now
            (row_at snap_key (at.now.ns ∷ at.now.snapshotter ∷ at.now.name ∷ []) self.old)) }
        ensures ok { OnOk result (self.new ≡ change_row snap_key (at.now.ns
            ∷ at.now.snapshotter ∷ at.now.name ∷ [])
            (λ row. record row { labels = put_label key.now value.now row.labels }) self.old) }
        ensures err { OnErr result (self.new ≡ self.old) }
    {
        relabel_snap(&mut self.rows, alloc, at, key, value)
    }

    pub(crate) fn set(&mut self, at: &SnapKey, labels: Labels, extra: Data) -> bool
        ensures found { result ≡ has_row snap_key
            (at.now.ns ∷ at.now.snapshotter ∷ at.now.name ∷ []) self.old }
        ensures left { self.new ≡ change_row snap_key
            (at.now.ns ∷ at.now.snapshotter ∷ at.now.name ∷ []) (snap_with labels extra) self.old }
        ensures same { OnFalse result (self.new ≡ self.old) }
    {
        set_snap(&mut self.rows, at, labels, extra)
    }

    pub(crate) fn is_parent(&self, key: &SnapKey) -> bool
        ensures { result ≡ list_any (is_child_of key.now.ns key.now.snapshotter key.now.name)
            self.now }
    {
        self.families.has_any(key)
    }

    /// The keys of a snapshot's children, in their order.
    pub(crate) fn children(&self, alloc: Global, key: &SnapKey) -> Result<Vec<SnapKey>, Fault>
        ensures fault { Refuses result None }
        ensures ok { IfOk result (λ keys. keys.items
            ≡ children_of key.now.ns key.now.snapshotter key.now.name self.now) }
    {
        let names = self.families.names(alloc, key)?;
        keys_of(alloc, key, &names)
    }
}

/// The snapshots as they arrived, with the names of each one's children.
#[derive(Drop)]
pub(crate) struct ArrivedSnapshots {
    rows: ArrivedBySnapshotter<Name, SnapRow>,
    families: Families,
}

impl Model for ArrivedSnapshots {
    ghost use Rattle.std.specs.Prelude.{◌≡◌, List};
    ghost use Rattle.meta_types.specs.Rows.{snap_key};
    ghost use Rattle.meta_types.specs.declared.rows.SnapRow.{SnapRow};
    ghost use Rattle.row_tables.specs.Arrived.{sorted};
    ghost use Rattle.object_tables.specs.Children.{family_names, names_under};

    ghost Value = { List SnapRow };

    ghost view = { λ t. t.rows };

    ghost invariant = { λ t. family_names t.families ≡ names_under (sorted snap_key t.rows) };
}

impl ArrivedSnapshots {
    /// The rows themselves, for what needs no index.
    pub(crate) fn table(&self) -> &ArrivedBySnapshotter<Name, SnapRow>
        ensures { result.now ≡ self.now }
    {
        &self.rows
    }

    /// Keeps the rows whose mark is set.
    pub(crate) fn retain(&mut self, marks: &[bool])
        requires { length marks.now ≡ length self.old }
        ensures left { self.new ≡ kept marks.now self.old }
        ensures stays { (stays : SnapRow → Bool) → marks.now ≡ map stays self.old
            → sorted snap_key self.new ≡ filter stays (sorted snap_key self.old) }
    {
        // Their clauses say that no key stands twice.
        let _ = self.rows.len();
        let _ = self.families.len();
        self.rows.visit_removed(marks, &mut self.families);
        self.rows.retain(marks);
    }
}

impl RemovedRows<SnapRow> for Families {
    ghost after_visit = { families_visited };

    fn visit(&mut self, row: &SnapRow) {
        if let Some(parent) = &row.parent {
            self.leave(&row.key, parent);
        }
    }
}

fn key_of(parent: &SnapKey, name: &Name) -> Result<SnapKey, Fault>
    ensures fault { Refuses result None }
    ensures ok { IfOk result (λ key. key ≡ child_named parent.now.ns parent.now.snapshotter
        name.now) }
{
    let ns = parent.ns.copy()?;
    let snapshotter = parent.snapshotter.copy()?;
    let name = name.copy()?;
    Ok(SnapKey {
        ns,
        snapshotter,
        name,
    })
}

fn keys_of(alloc: Global, parent: &SnapKey, names: &[&Name]) -> Result<Vec<SnapKey>, Fault>
    ensures fault { Refuses result None }
    ensures ok { IfOk result (λ keys. keys.items ≡ map (child_named parent.now.ns
        parent.now.snapshotter) (map (λ name. name.now) names.now)) }
{
    let mut keys = Vec::new(alloc);
    for name in names {
        let key = key_of(parent, name)?;
        keys.push(key)?;
    }
    Ok(keys)
}
