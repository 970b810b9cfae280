//! The rows of requests on containers.
#![tactic(auto, unfolding(crate::specs::Foreseen::ShowsRow))]

ghost use Rattle.std.specs.Prelude.{◌≡◌, IfOk, None};
ghost use Rattle.meta_types.specs.Faults.{Refuses};
ghost use Rattle.meta_types.specs.declared.request.Request.TheVariants as R;
ghost use Rattle.object_tables.specs.Edits.{container_with};
ghost use Rattle.request_core.specs.Foreseen.{ShowsRow};

use crate::read::names::read_object;
use crate::read::rows::{read_container, read_snapshot_if};
use crate::read::updates::{make_parts, snapshot_after};
use crate::refusal::Refusal;
use crate::showing::plain;
use crate::state::State;
use back_model::{BlobBackend, IngestBackend, SnapBackend};
use meta_types::{
    ContainerAdd, ContainerRow, ContainerSet, Data, Fault, Labels, Name, RawLabel, RawName,
    ReplyRow, ShortName, ShownRow,
};
use std::alloc::Global;

impl<S: SnapBackend, B: BlobBackend, I: IngestBackend> State<S, B, I> {
    pub(crate) fn show_container_add(
        &self,
        alloc: Global,
        asked: &ContainerAdd,
    ) -> Result<Option<ShownRow>, Refusal>
        ensures { ShowsRow self.now.state (R.ContainerAdd asked.now) result }
    {
        let row = read_container(alloc, asked)?;
        Ok(plain(ReplyRow::Container(row)))
    }

    pub(crate) fn show_container_set(
        &self,
        alloc: Global,
        asked: &ContainerSet,
    ) -> Result<Option<ShownRow>, Refusal>
        ensures { ShowsRow self.now.state (R.ContainerSet asked.now) result }
    {
        let (ns, name) = read_object(alloc, &asked.container)?;
        let snapshot = read_snapshot_if(alloc, &asked.snapshotter, &asked.key)?;
        let found = self.records.tables.get_container(&ns, &name);
        let (labels, extra) = make_parts(alloc, &asked.update, found)?;
        let snapshot = snapshot_after(snapshot, found)?;
        let Some(row) = found else {
            return Ok(None);
        };
        let row = set_container(row, snapshot, labels, extra)?;
        Ok(plain(ReplyRow::Container(row)))
    }

    pub(crate) fn show_container_get(
        &self,
        alloc: Global,
        container: &RawName,
    ) -> Result<Option<ShownRow>, Refusal>
        ensures { ShowsRow self.now.state (R.ContainerGet container.now) result }
    {
        let (ns, name) = read_object(alloc, container)?;
        let Some(row) = self.records.tables.get_container(&ns, &name) else {
            return Ok(None);
        };
        let row = row.copy(alloc)?;
        Ok(plain(ReplyRow::Container(row)))
    }

    pub(crate) fn show_container_label(
        &self,
        alloc: Global,
        container: &RawName,
        label: &RawLabel,
    ) -> Result<Option<ShownRow>, Refusal>
        ensures { ShowsRow self.now.state (R.ContainerLabel container.now label.now) result }
    {
        let (ns, name) = read_object(alloc, container)?;
        let Some(row) = self.records.tables.get_container(&ns, &name) else {
            return Ok(None);
        };
        let mut row = row.copy(alloc)?;
        row.labels.put(alloc, label.key.text(), label.value.text())?;
        Ok(plain(ReplyRow::Container(row)))
    }
}

// A copy of a container, with all that may be set of it.
fn set_container(
    row: &ContainerRow,
    snapshot: Option<(ShortName, Name)>,
    labels: Labels,
    extra: Data,
) -> Result<ContainerRow, Fault>
    ensures fault { Refuses result None }
    ensures ok { IfOk result (λ set. set ≡ container_with snapshot labels extra row.now) }
{
    let ns = row.ns.copy()?;
    let name = row.name.copy()?;
    Ok(ContainerRow {
        ns,
        name,
        snapshot,
        labels,
        extra,
    })
}
