//! Requests on leases: add, set, hold, drop, label, remove.
#![tactic(auto, unfolding(crate::specs::Follows::AnswersExactly))]

ghost use Rattle.meta_types.specs.declared.request.Request.TheVariants as R;
ghost use Rattle.request_core.specs.Follows.{AnswersExactly};

use crate::read::lists::{copies, listing_of};
use crate::read::names::{read_held, read_ns, read_object};
use crate::read::rows::read_lease;
use crate::read::updates::make_parts;
use crate::refusal::Refusal;
use crate::state::State;
use back_model::{BlobBackend, IngestBackend, SnapBackend};
use meta_types::{
    Fault, Holdings, LeaseAdd, LeaseResource, RawLabel, RawName, RawText, Reply, ReplyRow,
    RowUpdate,
};
use std::alloc::Global;

impl<S: SnapBackend, B: BlobBackend, I: IngestBackend> State<S, B, I> {
    pub(crate) fn lease_add(&mut self, alloc: Global, asked: &LeaseAdd) -> Result<Reply, Refusal>
        ensures { AnswersExactly self.old (R.LeaseAdd asked.now) result self.new }
    {
        let (ns, id, parts) = read_lease(alloc, asked)?;
        if !self.records.tables.has_ns(&ns) {
            return Err(Refusal::By(Fault::NotFound));
        }
        let labels = parts.labels;
        let extra = parts.extra;
        self.records.leases.create(alloc, &ns, &id, labels, extra)?;
        Ok(Reply::Done)
    }

    pub(crate) fn lease_set(
        &mut self,
        alloc: Global,
        lease: &RawName,
        update: &RowUpdate,
    ) -> Result<Reply, Refusal>
        ensures { AnswersExactly self.old (R.LeaseSet lease.now update.now) result self.new }
    {
        let (ns, id) = read_object(alloc, lease)?;
        let found = self.records.leases.get(&ns, &id);
        let (labels, extra) = make_parts(alloc, update, found)?;
        self.records.leases.set(&ns, &id, labels, extra)?;
        Ok(Reply::Done)
    }

    pub(crate) fn lease_remove(&mut self, alloc: Global, lease: &RawName) -> Result<Reply, Refusal>
        ensures { AnswersExactly self.old (R.LeaseRemove lease.now) result self.new }
    {
        let (ns, id) = read_object(alloc, lease)?;
        self.records.leases.remove(&ns, &id)?;
        Ok(Reply::Done)
    }

    pub(crate) fn lease_label(
        &mut self,
        alloc: Global,
        lease: &RawName,
        label: &RawLabel,
    ) -> Result<Reply, Refusal>
        ensures { AnswersExactly self.old (R.LeaseLabel lease.now label.now) result self.new }
    {
        let (ns, id) = read_object(alloc, lease)?;
        self.records
            .leases
            .relabel(alloc, &ns, &id, label.key.text(), label.value.text())?;
        Ok(Reply::Done)
    }

    pub(crate) fn lease_get(&mut self, alloc: Global, lease: &RawName) -> Result<Reply, Refusal>
        ensures { AnswersExactly self.old (R.LeaseGet lease.now) result self.new }
    {
        let (ns, id) = read_object(alloc, lease)?;
        match self.records.leases.get(&ns, &id) {
            Some(lease) => {
                let labels = lease.labels().copy(alloc)?;
                let extra = lease.extra().copy()?;
                Ok(Reply::Row(ReplyRow::Lease(id, labels, extra)))
            }
            None => Err(Refusal::By(Fault::NotFound)),
        }
    }

    pub(crate) fn lease_list(&mut self, alloc: Global, ns: &RawText) -> Result<Reply, Refusal>
        ensures { AnswersExactly self.old (R.LeaseList ns.now) result self.new }
    {
        let ns = read_ns(alloc, ns)?;
        if !self.records.tables.has_ns(&ns) {
            return Err(Refusal::By(Fault::NotFound));
        }
        let ids = self.records.leases.list(alloc, &ns)?;
        let names = listing_of(alloc, &ids)?;
        Ok(Reply::Names(names))
    }

    pub(crate) fn lease_hold(
        &mut self,
        alloc: Global,
        asked: &LeaseResource,
    ) -> Result<Reply, Refusal>
        ensures { AnswersExactly self.old (R.LeaseHold asked.now) result self.new }
    {
        let (ns, id, resource) = read_held(alloc, asked)?;
        self.records.leases.add_resource(alloc, &ns, &id, resource)?;
        Ok(Reply::Done)
    }

    pub(crate) fn lease_drop(
        &mut self,
        alloc: Global,
        asked: &LeaseResource,
    ) -> Result<Reply, Refusal>
        ensures { AnswersExactly self.old (R.LeaseDrop asked.now) result self.new }
    {
        let (ns, id, resource) = read_held(alloc, asked)?;
        self.records.leases.drop_resource(&ns, &id, &resource)?;
        Ok(Reply::Done)
    }

    pub(crate) fn lease_resources(
        &mut self,
        alloc: Global,
        lease: &RawName,
    ) -> Result<Reply, Refusal>
        ensures { AnswersExactly self.old (R.LeaseResources lease.now) result self.new }
    {
        let (ns, id) = read_object(alloc, lease)?;
        let resources = self.records.leases.resources(alloc, &ns, &id)?;
        let held = copies(alloc, &resources)?;
        Ok(Reply::Resources(Holdings::new(held)))
    }
}
