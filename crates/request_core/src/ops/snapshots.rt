//! Requests on snapshots: prepare, view, commit, set, label, remove.
#![tactic(auto, unfolding(crate::specs::Follows::AnswersExactly))]

ghost use Rattle.meta_types.specs.declared.request.Request.TheVariants as R;
ghost use Rattle.std.specs.Prelude.{◌≡◌, ◌≤◌, true, false, None, OnOk, option_map};
ghost use Rattle.std.specs.List.{list_any};
ghost use Rattle.std.specs.Option.{option_map_or};
ghost use Rattle.meta_types.specs.Backends.{is_named};
ghost use Rattle.meta_types.specs.Ops.Snapshots.{parent_row, prepares};
ghost use Rattle.meta_types.specs.Sound.{IsSound};
ghost use Rattle.meta_types.specs.Faults.{OnlyRefuses};
ghost use Rattle.object_tables.specs.Calls.{committing_fault, adding_snap_fault};
ghost use Rattle.request_core.specs.Follows.{AnswersExactly, FollowsExactly};
ghost use Rattle.request_core.specs.Parts.{commit_fault, prepare_fault, is_lease_there};

use crate::add::commit::{grow_commit, snapshot_resource};
use crate::add::content::drop_from;
use crate::add::snapshot::grow_snap;
use crate::read::names::{read_ns, read_snap, read_snap_to_remove, read_snapshotter};
use crate::read::rows::{read_commit, read_prepare};
use crate::read::updates::make_parts;
use crate::refusal::Refusal;
use crate::state::State;
use back_model::{BlobBackend, IngestBackend, SnapBackend};
use meta_types::{
    Fault, MAX_NUMBER, Name, RawLabel, RawSnapshot, RawText, Reply, ReplyRow, RowUpdate, SnapAdd,
    SnapCommit, SnapKey, SnapKind, SnapRow,
};
use std::alloc::Global;

impl<S: SnapBackend, B: BlobBackend, I: IngestBackend> State<S, B, I> {
    // The least fault of a commit; never OutOfMemory.
    fn check_commit(&self, key: &SnapKey, name: &Name, lease: &Option<Name>) -> Result<(), Fault>
        ensures fault { OnlyRefuses result (commit_fault self.now.state key.now.ns
            key.now.snapshotter key.now.name name.now lease.now) }
        ensures lease { OnOk result
            (is_lease_there key.now.ns lease.now self.now.state.records.leases ≡ true) }
        ensures fine { OnOk result (committing_fault key.now.ns key.now.snapshotter key.now.name
            name.now self.now.state.records.tables.snapshots ≡ None) }
    {
        if self.lacks(&key.ns, lease) {
            return Err(Fault::NotFound);
        }
        self.records.tables.check_commit(key, name)
    }

    // The least fault of a new snapshot; never OutOfMemory.
    fn check_prepare(&self, row: &SnapRow, lease: &Option<Name>) -> Result<(), Fault>
        ensures fault { OnlyRefuses result (prepare_fault self.now.state row.now lease.now) }
        ensures lease { OnOk result
            (is_lease_there row.now.key.ns lease.now self.now.state.records.leases ≡ true) }
        ensures fine { OnOk result
            (adding_snap_fault self.now.state.records.tables row.now ≡ None) }
        ensures few { OnOk result (self.now.state.records.next ≤ 4000000000) }
    {
        if self.lacks(&row.key.ns, lease) {
            return Err(Fault::NotFound);
        }
        self.records.tables.check_add(row)?;
        if self.records.next > MAX_NUMBER {
            return Err(Fault::FailedPrecondition);
        }
        Ok(())
    }

    // The number of a new snapshot's parent. It shows a proof that the backend holds the parent,
    // and not the next number.
    fn number_above(&self, row: &SnapRow) -> Option<u64>
        requires { IsSound self.now.state }
        ensures above { result ≡ option_map (λ above. above.number)
            (parent_row self.now.state.records.tables.snapshots row.now.key.ns
            row.now.key.snapshotter row.now.parent) }
        ensures held { option_map_or (λ n. list_any (is_named (row.now.key.snapshotter, n))
            self.now.state.backends.snapshots) result true ≡ true }
        ensures free { list_any
            (is_named (row.now.key.snapshotter, self.now.state.records.next))
            self.now.state.backends.snapshots ≡ false }
    {
        self.records.tables.parent_number(row)
    }

    // Makes a snapshot of a kind, active or a view.
    pub(crate) fn prepare(
        &mut self,
        alloc: Global,
        kind: SnapKind,
        asked: &SnapAdd,
    ) -> Result<Reply, Refusal>
        requires { IsSound self.old.state }
        ensures { FollowsExactly self.old (prepares self.old.state kind asked.now) result self.new }
    {
        let (row, lease) = read_prepare(alloc, kind, self.records.next, asked)?;
        if let Err(fault) = self.check_prepare(&row, &lease) {
            return Err(Refusal::By(fault));
        }
        let above = self.number_above(&row);
        grow_snap(
            &mut self.records,
            &mut self.backends,
            alloc,
            row,
            above,
            &lease,
        )?;
        self.records.next += 1;
        Ok(Reply::Done)
    }

    pub(crate) fn snap_commit(
        &mut self,
        alloc: Global,
        asked: &SnapCommit,
    ) -> Result<Reply, Refusal>
        ensures { AnswersExactly self.old (R.SnapCommit asked.now) result self.new }
    {
        let (key, name, parts, holders) = read_commit(alloc, asked)?;
        let lease = holders.lease;
        let dropped_by = holders.dropped_by;
        if let Err(fault) = self.check_commit(&key, &name, &lease) {
            return Err(Refusal::By(fault));
        }
        let resource = snapshot_resource(&key.snapshotter, &key.name)?;
        grow_commit(&mut self.records, alloc, &key, name, parts, &lease)?;
        drop_from(&mut self.records.leases, &key.ns, &dropped_by, &resource);
        Ok(Reply::Done)
    }

    pub(crate) fn snap_remove(
        &mut self,
        alloc: Global,
        snapshot: &RawSnapshot,
        dropped_by: &Option<RawText>,
    ) -> Result<Reply, Refusal>
        ensures { AnswersExactly self.old (R.SnapRemove snapshot.now dropped_by.now) result
            self.new }
    {
        let (key, dropped_by) = read_snap_to_remove(alloc, snapshot, dropped_by)?;
        let Ok(resource) = snapshot_resource(&key.snapshotter, &key.name) else {
            return Err(Refusal::Reading);
        };
        self.records.tables.remove_snap(&key)?;
        drop_from(&mut self.records.leases, &key.ns, &dropped_by, &resource);
        Ok(Reply::Done)
    }

    pub(crate) fn snap_set(
        &mut self,
        alloc: Global,
        snapshot: &RawSnapshot,
        update: &RowUpdate,
    ) -> Result<Reply, Refusal>
        ensures { AnswersExactly self.old (R.SnapSet snapshot.now update.now) result self.new }
    {
        let key = read_snap(alloc, snapshot)?;
        let found = self.records.tables.get_snap(&key);
        let (labels, extra) = make_parts(alloc, update, found)?;
        self.records.tables.set_snap(&key, labels, extra)?;
        Ok(Reply::Done)
    }

    pub(crate) fn snap_snapshotters(
        &mut self,
        alloc: Global,
        ns: &RawText,
    ) -> Result<Reply, Refusal>
        ensures { AnswersExactly self.old (R.SnapSnapshotters ns.now) result self.new }
    {
        let ns = read_ns(alloc, ns)?;
        let names = self.records.tables.snapshotters(alloc, &ns)?;
        Ok(Reply::Names(names))
    }

    pub(crate) fn snap_get(
        &mut self,
        alloc: Global,
        snapshot: &RawSnapshot,
    ) -> Result<Reply, Refusal>
        ensures { AnswersExactly self.old (R.SnapGet snapshot.now) result self.new }
    {
        let key = read_snap(alloc, snapshot)?;
        match self.records.tables.get_snap(&key) {
            Some(row) => Ok(Reply::Row(ReplyRow::Snap(row.copy(alloc)?))),
            None => Err(Refusal::By(Fault::NotFound)),
        }
    }

    pub(crate) fn snap_list(
        &mut self,
        alloc: Global,
        ns: &RawText,
        snapshotter: &RawText,
    ) -> Result<Reply, Refusal>
        ensures { AnswersExactly self.old (R.SnapList ns.now snapshotter.now) result self.new }
    {
        let (ns, snapshotter) = read_snapshotter(alloc, ns, snapshotter)?;
        let names = self.records.tables.list_snaps(alloc, &ns, &snapshotter)?;
        Ok(Reply::Names(names))
    }

    pub(crate) fn snap_label(
        &mut self,
        alloc: Global,
        snapshot: &RawSnapshot,
        label: &RawLabel,
    ) -> Result<Reply, Refusal>
        ensures { AnswersExactly self.old (R.SnapLabel snapshot.now label.now) result self.new }
    {
        let at = read_snap(alloc, snapshot)?;
        self.records
            .tables
            .relabel_snap(alloc, &at, label.key.text(), label.value.text())?;
        Ok(Reply::Done)
    }
}
