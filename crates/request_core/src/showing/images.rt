//! The rows of requests on images.
#![tactic(auto, unfolding(crate::specs::Foreseen::ShowsRow))]

ghost use Rattle.std.specs.Prelude.{◌≡◌, IfOk, None};
ghost use Rattle.meta_types.specs.Faults.{Refuses};
ghost use Rattle.meta_types.specs.declared.request.Request.TheVariants as R;
ghost use Rattle.object_tables.specs.Edits.{image_with};
ghost use Rattle.request_core.specs.Foreseen.{ShowsRow};

use crate::read::names::{read_digest_if, read_object};
use crate::read::rows::{read_image, read_target};
use crate::read::updates::{make_parts, target_after};
use crate::refusal::Refusal;
use crate::showing::plain;
use crate::state::State;
use back_model::{BlobBackend, IngestBackend, SnapBackend};
use meta_types::{
    Data, Digest, Fault, ImageAdd, ImageRow, ImageSet, ImageTarget, Labels, RawLabel, RawName,
    ReplyRow, ShownRow,
};
use std::alloc::Global;

impl<S: SnapBackend, B: BlobBackend, I: IngestBackend> State<S, B, I> {
    pub(crate) fn show_image_add(
        &self,
        alloc: Global,
        asked: &ImageAdd,
    ) -> Result<Option<ShownRow>, Refusal>
        ensures { ShowsRow self.now.state (R.ImageAdd asked.now) result }
    {
        let row = read_image(alloc, asked)?;
        Ok(plain(ReplyRow::Image(row)))
    }

    pub(crate) fn show_image_target(
        &self,
        alloc: Global,
        asked: &ImageTarget,
    ) -> Result<Option<ShownRow>, Refusal>
        ensures { ShowsRow self.now.state (R.ImageTarget asked.now) result }
    {
        let (ns, name, target) = read_target(alloc, asked)?;
        let Some(row) = self.records.tables.get_image(&ns, &name) else {
            return Ok(None);
        };
        let mut row = row.copy(alloc)?;
        row.target = target;
        Ok(plain(ReplyRow::Image(row)))
    }

    pub(crate) fn show_image_set(
        &self,
        alloc: Global,
        asked: &ImageSet,
    ) -> Result<Option<ShownRow>, Refusal>
        ensures { ShowsRow self.now.state (R.ImageSet asked.now) result }
    {
        let (ns, name) = read_object(alloc, &asked.image)?;
        let target = read_digest_if(alloc, &asked.target)?;
        let found = self.records.tables.get_image(&ns, &name);
        let (labels, extra) = make_parts(alloc, &asked.update, found)?;
        let target = target_after(target, found)?;
        let Some(row) = found else {
            return Ok(None);
        };
        let row = set_image(row, target, labels, extra)?;
        Ok(plain(ReplyRow::Image(row)))
    }

    pub(crate) fn show_image_get(
        &self,
        alloc: Global,
        image: &RawName,
    ) -> Result<Option<ShownRow>, Refusal>
        ensures { ShowsRow self.now.state (R.ImageGet image.now) result }
    {
        let (ns, name) = read_object(alloc, image)?;
        let Some(row) = self.records.tables.get_image(&ns, &name) else {
            return Ok(None);
        };
        let row = row.copy(alloc)?;
        Ok(plain(ReplyRow::Image(row)))
    }

    pub(crate) fn show_image_label(
        &self,
        alloc: Global,
        image: &RawName,
        label: &RawLabel,
    ) -> Result<Option<ShownRow>, Refusal>
        ensures { ShowsRow self.now.state (R.ImageLabel image.now label.now) result }
    {
        let (ns, name) = read_object(alloc, image)?;
        let Some(row) = self.records.tables.get_image(&ns, &name) else {
            return Ok(None);
        };
        let mut row = row.copy(alloc)?;
        row.labels.put(alloc, label.key.text(), label.value.text())?;
        Ok(plain(ReplyRow::Image(row)))
    }
}

// A copy of an image, with all that may be set of it.
fn set_image(row: &ImageRow, target: Digest, labels: Labels, extra: Data) -> Result<ImageRow, Fault>
    ensures fault { Refuses result None }
    ensures ok { IfOk result (λ set. set ≡ image_with target labels extra row.now) }
{
    let ns = row.ns.copy()?;
    let name = row.name.copy()?;
    Ok(ImageRow {
        ns,
        name,
        target,
        labels,
        extra,
    })
}
