//! The rows of requests on snapshots, with the number of the parent.
#![tactic(auto, unfolding(crate::specs::Foreseen::ShowsRow))]

ghost use Rattle.std.specs.Prelude.{◌≡◌, IfOk, None, Some};
ghost use Rattle.meta_types.specs.Faults.{Refuses};
ghost use Rattle.meta_types.specs.Shown.{shown_row, snapshot_shown};
ghost use Rattle.meta_types.specs.Sound.{IsSound};
ghost use Rattle.meta_types.specs.declared.object.Object.TheVariants as O;
ghost use Rattle.meta_types.specs.declared.request.Request.TheVariants as R;
ghost use Rattle.meta_types.specs.declared.resource.Resource.TheVariants as H;
ghost use Rattle.meta_types.specs.declared.rows.SnapKind.TheVariants as K;
ghost use Rattle.object_tables.specs.Edits.{snap_with};
ghost use Rattle.request_core.specs.Foreseen.{ShowsRow};

use crate::read::names::read_snap;
use crate::read::rows::{read_commit, read_prepare};
use crate::read::updates::make_parts;
use crate::refusal::Refusal;
use crate::row_parts::RowParts;
use crate::state::State;
use back_model::{BlobBackend, IngestBackend, SnapBackend};
use meta_types::{
    Data, Fault, Labels, Name, RawLabel, RawSnapshot, ReplyRow, RowUpdate, ShownRow, SnapAdd,
    SnapCommit, SnapKey, SnapKind, SnapRow,
};
use std::alloc::Global;

impl<S: SnapBackend, B: BlobBackend, I: IngestBackend> State<S, B, I> {
    // A snapshot with the number of its parent.
    fn with_parent(&self, row: SnapRow) -> Option<ShownRow>
        ensures { result ≡ Some (snapshot_shown self.now.state.records.tables.snapshots row) }
    {
        let parent_number = self.records.tables.parent_number(&row);
        Some(ShownRow {
            row: ReplyRow::Snap(row),
            parent_number,
        })
    }

    pub(crate) fn show_snap_prepare(
        &self,
        alloc: Global,
        asked: &SnapAdd,
    ) -> Result<Option<ShownRow>, Refusal>
        ensures { ShowsRow self.now.state (R.SnapPrepare asked.now) result }
    {
        let (row, lease) = read_prepare(alloc, SnapKind::Active, self.records.next, asked)?;
        // The row doesn't name its lease.
        let _lease = lease;
        Ok(self.with_parent(row))
    }

    pub(crate) fn show_snap_view(
        &self,
        alloc: Global,
        asked: &SnapAdd,
    ) -> Result<Option<ShownRow>, Refusal>
        ensures { ShowsRow self.now.state (R.SnapView asked.now) result }
    {
        let (row, lease) = read_prepare(alloc, SnapKind::View, self.records.next, asked)?;
        // The row doesn't name its lease.
        let _lease = lease;
        Ok(self.with_parent(row))
    }

    pub(crate) fn show_snap_commit(
        &self,
        alloc: Global,
        asked: &SnapCommit,
    ) -> Result<Option<ShownRow>, Refusal>
        requires { IsSound self.now.state }
        ensures { ShowsRow self.now.state (R.SnapCommit asked.now) result }
    {
        let (key, name, parts, holders) = read_commit(alloc, asked)?;
        // The row names no lease.
        let _holders = holders;
        match self.records.tables.get_snap(&key) {
            Some(row) => {
                let row = commit(row, key, name, parts)?;
                Ok(self.with_parent(row))
            }
            None => Ok(None),
        }
    }

    pub(crate) fn show_snap_set(
        &self,
        alloc: Global,
        snapshot: &RawSnapshot,
        update: &RowUpdate,
    ) -> Result<Option<ShownRow>, Refusal>
        ensures { ShowsRow self.now.state (R.SnapSet snapshot.now update.now) result }
    {
        let key = read_snap(alloc, snapshot)?;
        let found = self.records.tables.get_snap(&key);
        let (labels, extra) = make_parts(alloc, update, found)?;
        let Some(row) = found else {
            return Ok(None);
        };
        let row = set_snapshot(row, labels, extra)?;
        Ok(self.with_parent(row))
    }

    pub(crate) fn show_snap_get(
        &self,
        alloc: Global,
        snapshot: &RawSnapshot,
    ) -> Result<Option<ShownRow>, Refusal>
        ensures { ShowsRow self.now.state (R.SnapGet snapshot.now) result }
    {
        let key = read_snap(alloc, snapshot)?;
        // For the prover: the result is opened, not passed on.
        let shown = self.found_snapshot(alloc, &key)?;
        Ok(shown)
    }

    /// A snapshot that is there.
    pub(crate) fn found_snapshot(
        &self,
        alloc: Global,
        key: &SnapKey,
    ) -> Result<Option<ShownRow>, Fault>
        ensures fault { Refuses result None }
        ensures ok { IfOk result (λ shown. shown ≡ shown_row self.now.state key.now.ns
            (O.Held (H.Snapshot key.now.snapshotter key.now.name))) }
    {
        let Some(row) = self.records.tables.get_snap(key) else {
            return Ok(None);
        };
        let row = row.copy(alloc)?;
        Ok(self.with_parent(row))
    }

    pub(crate) fn show_snap_label(
        &self,
        alloc: Global,
        snapshot: &RawSnapshot,
        label: &RawLabel,
    ) -> Result<Option<ShownRow>, Refusal>
        ensures { ShowsRow self.now.state (R.SnapLabel snapshot.now label.now) result }
    {
        let key = read_snap(alloc, snapshot)?;
        let Some(row) = self.records.tables.get_snap(&key) else {
            return Ok(None);
        };
        let mut row = row.copy(alloc)?;
        row.labels.put(alloc, label.key.text(), label.value.text())?;
        Ok(self.with_parent(row))
    }
}

// A copy of a snapshot, with all that may be set of it.
fn set_snapshot(row: &SnapRow, labels: Labels, extra: Data) -> Result<SnapRow, Fault>
    ensures fault { Refuses result None }
    ensures ok { IfOk result (λ set. set ≡ snap_with labels extra row.now) }
{
    let key = row.key.copy()?;
    let parent = row.parent.clone()?;
    Ok(SnapRow {
        key,
        kind: row.kind,
        parent,
        number: row.number,
        labels,
        extra,
    })
}

// A snapshot as it is committed.
fn commit(row: &SnapRow, key: SnapKey, name: Name, parts: RowParts) -> Result<SnapRow, Fault>
    ensures fault { Refuses result None }
    ensures ok { IfOk result (λ new. new ≡ record row.now {
      key = record { ns = key.ns; snapshotter = key.snapshotter; name = name };
      kind = K.Committed;
      labels = parts.labels;
      extra = parts.extra;
    }) }
{
    let parent = row.parent.clone()?;
    Ok(SnapRow {
        key: SnapKey {
            ns: key.ns,
            snapshotter: key.snapshotter,
            name,
        },
        kind: SnapKind::Committed,
        parent,
        number: row.number,
        labels: parts.labels,
        extra: parts.extra,
    })
}
