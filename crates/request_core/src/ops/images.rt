//! Requests on images: add, retarget, set, look up, label, remove.
#![tactic(auto, unfolding(crate::specs::Follows::AnswersExactly))]

ghost use Rattle.meta_types.specs.declared.request.Request.TheVariants as R;
ghost use Rattle.request_core.specs.Follows.{AnswersExactly};

use crate::read::names::{read_digest_if, read_object};
use crate::read::rows::{read_image, read_target};
use crate::read::updates::{make_parts, target_after};
use crate::refusal::Refusal;
use crate::state::State;
use back_model::{BlobBackend, IngestBackend, SnapBackend};
use meta_types::{Fault, ImageAdd, ImageSet, ImageTarget, RawLabel, RawName, Reply, ReplyRow};
use std::alloc::Global;

impl<S: SnapBackend, B: BlobBackend, I: IngestBackend> State<S, B, I> {
    pub(crate) fn image_add(&mut self, alloc: Global, asked: &ImageAdd) -> Result<Reply, Refusal>
        ensures { AnswersExactly self.old (R.ImageAdd asked.now) result self.new }
    {
        let row = read_image(alloc, asked)?;
        self.records.tables.add_image(alloc, row)?;
        Ok(Reply::Done)
    }

    pub(crate) fn image_target(
        &mut self,
        alloc: Global,
        asked: &ImageTarget,
    ) -> Result<Reply, Refusal>
        ensures { AnswersExactly self.old (R.ImageTarget asked.now) result self.new }
    {
        let (ns, name, target) = read_target(alloc, asked)?;
        self.records.tables.set_target(&ns, &name, target)?;
        Ok(Reply::Done)
    }

    pub(crate) fn image_set(&mut self, alloc: Global, asked: &ImageSet) -> Result<Reply, Refusal>
        ensures { AnswersExactly self.old (R.ImageSet asked.now) result self.new }
    {
        let (ns, name) = read_object(alloc, &asked.image)?;
        let target = read_digest_if(alloc, &asked.target)?;
        let found = self.records.tables.get_image(&ns, &name);
        let (labels, extra) = make_parts(alloc, &asked.update, found)?;
        let target = target_after(target, found)?;
        self.records
            .tables
            .set_image(&ns, &name, target, labels, extra)?;
        Ok(Reply::Done)
    }

    pub(crate) fn image_remove(&mut self, alloc: Global, image: &RawName) -> Result<Reply, Refusal>
        ensures { AnswersExactly self.old (R.ImageRemove image.now) result self.new }
    {
        let (ns, name) = read_object(alloc, image)?;
        self.records.tables.remove_image(&ns, &name)?;
        Ok(Reply::Done)
    }

    pub(crate) fn image_get(&mut self, alloc: Global, image: &RawName) -> Result<Reply, Refusal>
        ensures { AnswersExactly self.old (R.ImageGet image.now) result self.new }
    {
        let (ns, name) = read_object(alloc, image)?;
        match self.records.tables.get_image(&ns, &name) {
            Some(row) => Ok(Reply::Row(ReplyRow::Image(row.copy(alloc)?))),
            None => Err(Refusal::By(Fault::NotFound)),
        }
    }

    pub(crate) fn image_label(
        &mut self,
        alloc: Global,
        image: &RawName,
        label: &RawLabel,
    ) -> Result<Reply, Refusal>
        ensures { AnswersExactly self.old (R.ImageLabel image.now label.now) result self.new }
    {
        let (ns, name) = read_object(alloc, image)?;
        self.records
            .tables
            .relabel_image(alloc, &ns, &name, label.key.text(), label.value.text())?;
        Ok(Reply::Done)
    }
}
