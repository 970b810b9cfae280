//! The rows of requests on content.
#![tactic(auto, unfolding(crate::specs::Foreseen::ShowsRow))]

ghost use Rattle.std.specs.Prelude.{◌≡◌, IfOk, None};
ghost use Rattle.meta_types.specs.Faults.{Refuses};
ghost use Rattle.meta_types.specs.Shown.{shown_row};
ghost use Rattle.meta_types.specs.declared.object.Object.TheVariants as O;
ghost use Rattle.meta_types.specs.declared.request.Request.TheVariants as R;
ghost use Rattle.meta_types.specs.declared.resource.Resource.TheVariants as H;
ghost use Rattle.object_tables.specs.Edits.{content_with};
ghost use Rattle.request_core.specs.Foreseen.{ShowsRow};

use crate::read::names::read_content;
use crate::read::rows::read_new_content;
use crate::read::updates::make_parts;
use crate::refusal::Refusal;
use crate::showing::plain;
use crate::state::State;
use back_model::{BlobBackend, IngestBackend, SnapBackend};
use meta_types::{
    ContentAdd, ContentRow, Data, Digest, Fault, Labels, RawContent, RawLabel, ReplyRow, RowUpdate,
    ShortName, ShownRow,
};
use std::alloc::Global;

impl<S: SnapBackend, B: BlobBackend, I: IngestBackend> State<S, B, I> {
    pub(crate) fn show_content_add(
        &self,
        alloc: Global,
        asked: &ContentAdd,
    ) -> Result<Option<ShownRow>, Refusal>
        ensures { ShowsRow self.now.state (R.ContentAdd asked.now) result }
    {
        let (ns, digest, parts, lease) = read_new_content(alloc, asked)?;
        // The row doesn't name its lease.
        let _lease = lease;
        let row = ContentRow {
            ns,
            digest,
            labels: parts.labels,
            extra: parts.extra,
        };
        Ok(plain(ReplyRow::Content(row)))
    }

    pub(crate) fn show_content_set(
        &self,
        alloc: Global,
        content: &RawContent,
        update: &RowUpdate,
    ) -> Result<Option<ShownRow>, Refusal>
        ensures { ShowsRow self.now.state (R.ContentSet content.now update.now) result }
    {
        let (ns, digest) = read_content(alloc, content)?;
        let found = self.records.tables.get_content(&ns, &digest);
        let (labels, extra) = make_parts(alloc, update, found)?;
        let Some(row) = found else {
            return Ok(None);
        };
        let row = set_content(row, labels, extra)?;
        Ok(plain(ReplyRow::Content(row)))
    }

    pub(crate) fn show_content_get(
        &self,
        alloc: Global,
        content: &RawContent,
    ) -> Result<Option<ShownRow>, Refusal>
        ensures { ShowsRow self.now.state (R.ContentGet content.now) result }
    {
        let (ns, digest) = read_content(alloc, content)?;
        // For the prover: the result is opened, not passed on.
        let shown = self.found_content(alloc, &ns, &digest)?;
        Ok(shown)
    }

    /// Content that is there.
    pub(crate) fn found_content(
        &self,
        alloc: Global,
        ns: &ShortName,
        digest: &Digest,
    ) -> Result<Option<ShownRow>, Fault>
        ensures fault { Refuses result None }
        ensures ok { IfOk result (λ shown. shown
            ≡ shown_row self.now.state ns.now (O.Held (H.Content digest.now))) }
    {
        let Some(row) = self.records.tables.get_content(ns, digest) else {
            return Ok(None);
        };
        let row = row.copy(alloc)?;
        Ok(plain(ReplyRow::Content(row)))
    }

    pub(crate) fn show_content_label(
        &self,
        alloc: Global,
        content: &RawContent,
        label: &RawLabel,
    ) -> Result<Option<ShownRow>, Refusal>
        ensures { ShowsRow self.now.state (R.ContentLabel content.now label.now) result }
    {
        let (ns, digest) = read_content(alloc, content)?;
        let Some(row) = self.records.tables.get_content(&ns, &digest) else {
            return Ok(None);
        };
        let mut row = row.copy(alloc)?;
        row.labels.put(alloc, label.key.text(), label.value.text())?;
        Ok(plain(ReplyRow::Content(row)))
    }
}

// A copy of content, with all that may be set of it.
fn set_content(row: &ContentRow, labels: Labels, extra: Data) -> Result<ContentRow, Fault>
    ensures fault { Refuses result None }
    ensures ok { IfOk result (λ set. set ≡ content_with labels extra row.now) }
{
    let ns = row.ns.copy()?;
    let digest = row.digest.copy()?;
    Ok(ContentRow {
        ns,
        digest,
        labels,
        extra,
    })
}
