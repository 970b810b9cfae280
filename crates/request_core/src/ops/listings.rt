//! Requests for the names of a kind's rows.

ghost use Rattle.request_core.specs.Follows.{FollowsExactly};
ghost use Rattle.request_core.specs.Parts.{lists_kind};

use crate::read::names::read_ns;
use crate::refusal::Refusal;
use crate::state::State;
use back_model::{BlobBackend, IngestBackend, SnapBackend};
use meta_types::{Kind, RawText, Reply};
use std::alloc::Global;

impl<S: SnapBackend, B: BlobBackend, I: IngestBackend> State<S, B, I> {
    pub(crate) fn list(&mut self, alloc: Global, kind: Kind, ns: &RawText) -> Result<Reply, Refusal>
        ensures { FollowsExactly self.old (lists_kind self.old.state kind ns.now) result self.new }
    {
        let ns = read_ns(alloc, ns)?;
        let names = self.records.tables.list(alloc, kind, &ns)?;
        Ok(Reply::Names(names))
    }
}
