//! Requests on containers: add, set, look up, label, remove.
#![tactic(auto, unfolding(crate::specs::Follows::AnswersExactly))]

ghost use Rattle.meta_types.specs.declared.request.Request.TheVariants as R;
ghost use Rattle.request_core.specs.Follows.{AnswersExactly};

use crate::read::names::read_object;
use crate::read::rows::{read_container, read_snapshot_if};
use crate::read::updates::{make_parts, snapshot_after};
use crate::refusal::Refusal;
use crate::state::State;
use back_model::{BlobBackend, IngestBackend, SnapBackend};
use meta_types::{ContainerAdd, ContainerSet, Fault, RawLabel, RawName, Reply, ReplyRow};
use std::alloc::Global;

impl<S: SnapBackend, B: BlobBackend, I: IngestBackend> State<S, B, I> {
    pub(crate) fn container_remove(
        &mut self,
        alloc: Global,
        container: &RawName,
    ) -> Result<Reply, Refusal>
        ensures { AnswersExactly self.old (R.ContainerRemove container.now) result self.new }
    {
        let (ns, name) = read_object(alloc, container)?;
        self.records.tables.remove_container(&ns, &name)?;
        Ok(Reply::Done)
    }

    pub(crate) fn container_get(
        &mut self,
        alloc: Global,
        container: &RawName,
    ) -> Result<Reply, Refusal>
        ensures { AnswersExactly self.old (R.ContainerGet container.now) result self.new }
    {
        let (ns, name) = read_object(alloc, container)?;
        match self.records.tables.get_container(&ns, &name) {
            Some(row) => Ok(Reply::Row(ReplyRow::Container(row.copy(alloc)?))),
            None => Err(Refusal::By(Fault::NotFound)),
        }
    }

    pub(crate) fn container_label(
        &mut self,
        alloc: Global,
        container: &RawName,
        label: &RawLabel,
    ) -> Result<Reply, Refusal>
        ensures { AnswersExactly self.old (R.ContainerLabel container.now label.now) result self.new }
    {
        let (ns, name) = read_object(alloc, container)?;
        self.records
            .tables
            .relabel_container(alloc, &ns, &name, label.key.text(), label.value.text())?;
        Ok(Reply::Done)
    }

    pub(crate) fn container_set(
        &mut self,
        alloc: Global,
        asked: &ContainerSet,
    ) -> Result<Reply, Refusal>
        ensures { AnswersExactly self.old (R.ContainerSet asked.now) result self.new }
    {
        let (ns, name) = read_object(alloc, &asked.container)?;
        let snapshot = read_snapshot_if(alloc, &asked.snapshotter, &asked.key)?;
        let found = self.records.tables.get_container(&ns, &name);
        let (labels, extra) = make_parts(alloc, &asked.update, found)?;
        let snapshot = snapshot_after(snapshot, found)?;
        self.records
            .tables
            .set_container(&ns, &name, snapshot, labels, extra)?;
        Ok(Reply::Done)
    }

    pub(crate) fn container_add(
        &mut self,
        alloc: Global,
        asked: &ContainerAdd,
    ) -> Result<Reply, Refusal>
        ensures { AnswersExactly self.old (R.ContainerAdd asked.now) result self.new }
    {
        let row = read_container(alloc, asked)?;
        self.records.tables.add_container(alloc, row)?;
        Ok(Reply::Done)
    }
}
