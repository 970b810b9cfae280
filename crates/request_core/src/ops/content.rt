//! Requests on content: add, set, look up, label, remove.
#![tactic(auto, unfolding(crate::specs::Follows::AnswersExactly))]

ghost use Rattle.meta_types.specs.declared.request.Request.TheVariants as R;
ghost use Rattle.request_core.specs.Follows.{AnswersExactly};

use crate::add::content::{content_resource, drop_from, insert_content};
use crate::read::names::{read_content, read_content_to_remove};
use crate::read::rows::read_new_content;
use crate::read::updates::make_parts;
use crate::refusal::Refusal;
use crate::state::State;
use back_model::{BlobBackend, IngestBackend, SnapBackend};
use meta_types::{ContentAdd, Fault, RawContent, RawLabel, RawText, Reply, ReplyRow, RowUpdate};
use std::alloc::Global;

impl<S: SnapBackend, B: BlobBackend, I: IngestBackend> State<S, B, I> {
    pub(crate) fn content_add(
        &mut self,
        alloc: Global,
        asked: &ContentAdd,
    ) -> Result<Reply, Refusal>
        ensures { AnswersExactly self.old (R.ContentAdd asked.now) result self.new }
    {
        let (ns, digest, parts, lease) = read_new_content(alloc, asked)?;
        if self.lacks(&ns, &lease) {
            return Err(Refusal::By(Fault::NotFound));
        }
        insert_content(
            &mut self.records,
            &mut self.backends,
            alloc,
            &ns,
            &digest,
            parts,
            &lease,
        )?;
        Ok(Reply::Done)
    }

    pub(crate) fn content_remove(
        &mut self,
        alloc: Global,
        content: &RawContent,
        dropped_by: &Option<RawText>,
    ) -> Result<Reply, Refusal>
        ensures { AnswersExactly self.old (R.ContentRemove content.now dropped_by.now) result
            self.new }
    {
        let (ns, digest, dropped_by) = read_content_to_remove(alloc, content, dropped_by)?;
        let Ok(resource) = content_resource(&digest) else {
            return Err(Refusal::Reading);
        };
        self.records.tables.remove_content(&ns, &digest)?;
        drop_from(&mut self.records.leases, &ns, &dropped_by, &resource);
        Ok(Reply::Done)
    }

    pub(crate) fn content_set(
        &mut self,
        alloc: Global,
        content: &RawContent,
        update: &RowUpdate,
    ) -> Result<Reply, Refusal>
        ensures { AnswersExactly self.old (R.ContentSet content.now update.now) result self.new }
    {
        let (ns, digest) = read_content(alloc, content)?;
        let found = self.records.tables.get_content(&ns, &digest);
        let (labels, extra) = make_parts(alloc, update, found)?;
        self.records
            .tables
            .set_content(&ns, &digest, labels, extra)?;
        Ok(Reply::Done)
    }

    pub(crate) fn content_get(
        &mut self,
        alloc: Global,
        content: &RawContent,
    ) -> Result<Reply, Refusal>
        ensures { AnswersExactly self.old (R.ContentGet content.now) result self.new }
    {
        let (ns, digest) = read_content(alloc, content)?;
        match self.records.tables.get_content(&ns, &digest) {
            Some(row) => Ok(Reply::Row(ReplyRow::Content(row.copy(alloc)?))),
            None => Err(Refusal::By(Fault::NotFound)),
        }
    }

    pub(crate) fn content_label(
        &mut self,
        alloc: Global,
        content: &RawContent,
        label: &RawLabel,
    ) -> Result<Reply, Refusal>
        ensures { AnswersExactly self.old (R.ContentLabel content.now label.now) result self.new }
    {
        let (ns, digest) = read_content(alloc, content)?;
        self.records
            .tables
            .relabel_content(alloc, &ns, &digest, label.key.text(), label.value.text())?;
        Ok(Reply::Done)
    }
}
