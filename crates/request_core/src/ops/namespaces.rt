//! Requests on namespaces, and on the profile.
#![tactic(auto, unfolding(crate::specs::Follows::AnswersExactly))]

ghost use Rattle.meta_types.specs.declared.request.Request.TheVariants as R;
ghost use Rattle.std.specs.Prelude.{◌≡◌};
ghost use Rattle.request_core.specs.Follows.{AnswersExactly};
ghost use Rattle.request_core.specs.Parts.{has_no_row};

use crate::read::names::read_ns;
use crate::refusal::Refusal;
use crate::state::State;
use back_model::{BlobBackend, IngestBackend, SnapBackend};
use meta_types::{Fault, RawText, Reply};
use std::alloc::Global;

impl<S: SnapBackend, B: BlobBackend, I: IngestBackend> State<S, B, I> {
    pub(crate) fn ns_add(&mut self, alloc: Global, ns: &RawText) -> Result<Reply, Refusal>
        ensures { AnswersExactly self.old (R.NsAdd ns.now) result self.new }
    {
        let ns = read_ns(alloc, ns)?;
        self.records.tables.add_ns(alloc, ns)?;
        Ok(Reply::Done)
    }

    pub(crate) fn ns_remove(&mut self, alloc: Global, ns: &RawText) -> Result<Reply, Refusal>
        ensures { AnswersExactly self.old (R.NsRemove ns.now) result self.new }
    {
        let ns = read_ns(alloc, ns)?;
        if !self.records.tables.has_ns(&ns) {
            return Err(Refusal::By(Fault::NotFound));
        }
        if self.records.leases.any_in(&ns) {
            return Err(Refusal::By(Fault::FailedPrecondition));
        }
        self.records.tables.remove_ns(&ns)?;
        Ok(Reply::Done)
    }

    // Whether no row is stored.
    fn has_no_row(&self) -> bool
        ensures { result ≡ has_no_row self.now.state.records }
    {
        let counts = self.records.tables.counts();
        counts.namespaces == 0
            && counts.images == 0
            && counts.containers == 0
            && counts.content == 0
            && counts.ingests == 0
            && counts.snapshots == 0
            && self.records.leases.len() == 0
    }

    pub(crate) fn profile(&mut self, v: &u64) -> Result<Reply, Refusal>
        ensures { AnswersExactly self.old (R.Profile v.now) result self.new }
    {
        let profile = match *v {
            1 => 1,
            2 => 2,
            _ => return Err(Refusal::By(Fault::InvalidArgument)),
        };
        if !(self.has_no_row() && self.records.next == 1) {
            return Err(Refusal::By(Fault::FailedPrecondition));
        }
        self.records.profile = profile;
        Ok(Reply::Done)
    }

    pub(crate) fn ns_list(&mut self, alloc: Global) -> Result<Reply, Refusal>
        ensures { AnswersExactly self.old R.NsList result self.new }
    {
        let names = self.records.tables.list_ns(alloc)?;
        Ok(Reply::Names(names))
    }
}
