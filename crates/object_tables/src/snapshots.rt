//! Snapshots, each over a committed parent or none.
ghost use Rattle.std.specs.Prelude.{◌≡◌, ◌∷◌, [], false, None, IfOk, OnOk, OnErr, option_copied, option_map, IsTrue, nat_lt};
ghost use Rattle.meta_types.specs.Keys.{row_at, has_row, add_row, change_row, are_in_order};
ghost use Rattle.meta_types.specs.Labels.{put_label};
ghost use Rattle.meta_types.specs.Rows.{snap_key};
ghost use Rattle.meta_types.specs.Faults.{Refuses, OnlyRefuses};
ghost use Rattle.meta_types.specs.Sound.{AreNumbered};
ghost use Rattle.meta_types.specs.Ops.Snapshots.{committed, parent_row};
ghost use Rattle.meta_types.specs.declared.rows.SnapKind.TheVariants.{Committed};
ghost use Rattle.object_tables.specs.Edits.{snap_with};
ghost use Rattle.object_tables.specs.Calls.{adding_snap_fault, removing_snap_fault, committing_fault, without_snap, labelling_fault, missing_fault, children_of};

use crate::ingests::Below;
use crate::tables::Tables;
use meta_types::{Data, Fault, Labels, Name, SnapKey, SnapKind, SnapRow};
use row_tables::Test;
use std::alloc::Global;

impl Test<SnapRow> for Below {
    ghost passes = { λ t row. nat_lt row.number t.number };

    fn test(&self, row: &SnapRow) -> bool {
        row.number < self.number
    }
}

impl Tables {
    /// The row of a snapshot.
    pub fn get_snap(&self, key: &SnapKey) -> Option<&SnapRow>
        ensures { option_copied result ≡ row_at snap_key (key.now.ns ∷ key.now.snapshotter
            ∷ key.now.name ∷ []) self.now.snapshots }
    {
        self.snapshots
            .table()
            .get(&key.ns, &key.snapshotter, &key.name)
    }

    /// Whether the snapshot is there.
    pub fn has_snap(&self, key: &SnapKey) -> bool
        ensures { result ≡ has_row snap_key (key.now.ns ∷ key.now.snapshotter ∷ key.now.name
            ∷ []) self.now.snapshots }
    {
        self.snapshots
            .table()
            .has(&key.ns, &key.snapshotter, &key.name)
    }

    /// Puts one label on a snapshot.
    pub fn relabel_snap(
        &mut self,
        alloc: Global,
        at: &SnapKey,
        key: &str,
        value: &str,
    ) -> Result<(), Fault>
        ensures fault { Refuses result (labelling_fault (λ row. row.labels) key.now value.now
            (row_at snap_key (at.now.ns ∷ at.now.snapshotter ∷ at.now.name
            ∷ []) self.old.snapshots)) }
        ensures ok { OnOk result (self.new ≡ record self.old {
          snapshots = change_row snap_key
              (at.now.ns ∷ at.now.snapshotter ∷ at.now.name ∷ []) (λ row. record row
              { labels = put_label key.now value.now row.labels }) self.old.snapshots;
        }) }
        ensures err { OnErr result (self.new ≡ self.old) }
    {
        self.snapshots.relabel(alloc, at, key, value)
    }

    /// Sets the labels and the data of a snapshot.
    pub fn set_snap(&mut self, at: &SnapKey, labels: Labels, extra: Data) -> Result<(), Fault>
        ensures fault { OnlyRefuses result (missing_fault (has_row snap_key
            (at.now.ns ∷ at.now.snapshotter ∷ at.now.name ∷ []) self.old.snapshots)) }
        ensures left { self.new ≡ record self.old {
          snapshots = change_row snap_key
              (at.now.ns ∷ at.now.snapshotter ∷ at.now.name ∷ []) (snap_with labels extra)
              self.old.snapshots;
        } }
        ensures err { OnErr result (self.new ≡ self.old) }
    {
        if self.snapshots.set(at, labels, extra) {
            Ok(())
        } else {
            Err(Fault::NotFound)
        }
    }

    /// Adds a snapshot's row. Its number is no ingest's or snapshot's, and above its parent's.
    pub fn add_snap(&mut self, alloc: Global, row: SnapRow) -> Result<(), Fault>
        requires numbered { adding_snap_fault self.old row ≡ None
            → AreNumbered (add_row snap_key row self.old.snapshots) self.old.ingests }
        ensures fault { Refuses result (adding_snap_fault self.old row) }
        ensures ok { OnOk result (self.new ≡ record self.old
            { snapshots = add_row snap_key row self.old.snapshots }) }
        ensures err { OnErr result (self.new ≡ self.old) }
    {
        self.check_add(&row)?;
        self.snapshots.add(alloc, row)
    }

    /// Checks a new snapshot without making it; never answers OutOfMemory.
    pub fn check_add(&self, row: &SnapRow) -> Result<(), Fault>
        ensures fault { OnlyRefuses result (adding_snap_fault self.now row.now) }
        ensures free { OnOk result (has_row snap_key (snap_key row.now) self.now.snapshots
            ≡ false) }
    {
        if !self.has_ns(&row.key.ns) {
            return Err(Fault::NotFound);
        }
        let committed = match &row.parent {
            Some(parent) => {
                let rows = self.snapshots.table();
                match rows.get(&row.key.ns, &row.key.snapshotter, parent) {
                    Some(above) => above.kind == SnapKind::Committed,
                    None => return Err(Fault::NotFound),
                }
            }
            None => true,
        };
        if self.has_snap(&row.key) {
            return Err(Fault::AlreadyExists);
        }
        if !committed {
            return Err(Fault::FailedPrecondition);
        }
        Ok(())
    }

    /// The backend number of the parent that a row names, if it names one that is there.
    pub fn parent_number(&self, row: &SnapRow) -> Option<u64>
        ensures { result ≡ option_map (λ above. above.number) (parent_row self.now.snapshots
            row.now.key.ns row.now.key.snapshotter row.now.parent) }
    {
        match &row.parent {
            Some(parent) => {
                let rows = self.snapshots.table();
                match rows.get(&row.key.ns, &row.key.snapshotter, parent) {
                    Some(above) => Some(above.number),
                    None => None,
                }
            }
            None => None,
        }
    }

    /// Checks a commit without making it; never answers OutOfMemory.
    pub fn check_commit(&self, key: &SnapKey, name: &Name) -> Result<(), Fault>
        ensures fault { OnlyRefuses result
            (committing_fault key.now.ns key.now.snapshotter key.now.name name.now
            self.now.snapshots) }
        ensures free { OnOk result (has_row snap_key (key.now.ns ∷ key.now.snapshotter ∷ name.now
            ∷ []) self.now.snapshots ≡ false) }
        ensures order { IsTrue (are_in_order snap_key self.now.snapshots) }
    {
        // Its clause says that the keys stand in their order.
        let _ = self.snapshots.table().len();
        let Some(row) = self.get_snap(key) else {
            return Err(Fault::NotFound);
        };
        let rows = self.snapshots.table();
        if rows.has(&key.ns, &key.snapshotter, name) {
            return Err(Fault::AlreadyExists);
        }
        if row.kind != SnapKind::Active {
            return Err(Fault::FailedPrecondition);
        }
        Ok(())
    }

    /// Removes a snapshot that is no parent.
    pub fn remove_snap(&mut self, key: &SnapKey) -> Result<(), Fault>
        ensures fault { OnlyRefuses result
            (removing_snap_fault key.now.ns key.now.snapshotter key.now.name self.old.snapshots) }
        ensures left { self.new ≡ record self.old {
          snapshots = without_snap key.now.ns key.now.snapshotter key.now.name
              self.old.snapshots;
        } }
        ensures err { OnErr result (self.new ≡ self.old) }
    {
        if !self.has_snap(key) {
            return Err(Fault::NotFound);
        }
        if self.snapshots.is_parent(key) {
            return Err(Fault::FailedPrecondition);
        }
        self.snapshots.remove(key);
        Ok(())
    }

    /// Commits an active snapshot under a name that none has, with its parent and its number.
    pub fn commit_snap(
        &mut self,
        alloc: Global,
        key: &SnapKey,
        name: Name,
        labels: Labels,
        extra: Data,
    ) -> Result<(), Fault>
        ensures fault { Refuses result
            (committing_fault key.now.ns key.now.snapshotter key.now.name name self.old.snapshots) }
        ensures ok { OnOk result (self.new ≡ record self.old {
          snapshots = committed key.now.ns key.now.snapshotter key.now.name name labels extra
              self.old.snapshots;
        }) }
        ensures err { OnErr result (self.new ≡ self.old) }
    {
        self.check_commit(key, &name)?;
        let Some(row) = self.get_snap(key) else {
            return Err(Fault::NotFound);
        };
        let row = committed_row(row, key, name, labels, extra)?;
        self.snapshots.add(alloc, row)?;
        self.snapshots.remove(key);
        Ok(())
    }

    /// The keys of a snapshot's children, in their order.
    pub fn children(&self, alloc: Global, key: &SnapKey) -> Result<Vec<SnapKey>, Fault>
        ensures fault { Refuses result None }
        ensures ok { IfOk result (λ keys. keys.items
            ≡ children_of key.now.ns key.now.snapshotter key.now.name self.now.snapshots) }
    {
        self.snapshots.children(alloc, key)
    }
}

// The row that a commit makes. Its texts are shared.
fn committed_row(
    row: &SnapRow,
    key: &SnapKey,
    name: Name,
    labels: Labels,
    extra: Data,
) -> Result<SnapRow, Fault>
    ensures fault { Refuses result None }
    ensures ok { IfOk result (λ new. new ≡ record row.now {
      key = record
          { ns = key.now.ns; snapshotter = key.now.snapshotter; name = name };
      kind = Committed;
      labels = labels;
      extra = extra;
    }) }
{
    let ns = key.ns.copy()?;
    let snapshotter = key.snapshotter.copy()?;
    let parent = match &row.parent {
        Some(parent) => Some(parent.copy()?),
        None => None,
    };
    Ok(SnapRow {
        key: SnapKey {
            ns,
            snapshotter,
            name,
        },
        kind: SnapKind::Committed,
        parent,
        number: row.number,
        labels,
        extra,
    })
}
