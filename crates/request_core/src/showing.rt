//! The row that a request makes, changes or gets, told before it is done: so a text of it can be
//! refused for memory while nothing has changed.
ghost use Rattle.std.specs.Prelude.{◌≡◌, None, Some, IfOk};
ghost use Rattle.meta_types.specs.Faults.{Refuses};
ghost use Rattle.meta_types.specs.Shown.{plain_row};
ghost use Rattle.meta_types.specs.Sound.{IsSound};
ghost use Rattle.request_core.specs.Foreseen.{ShowsRow, TellsRow, told};

mod containers;
mod content;
mod images;
mod ingests;
mod leases;
mod snapshots;

use crate::refusal::Refusal;
use crate::state::State;
use back_model::{BlobBackend, IngestBackend, SnapBackend};
use meta_types::{Fault, ReplyRow, Request, ShownRow};
use std::alloc::Global;

impl<S: SnapBackend, B: BlobBackend, I: IngestBackend> State<S, B, I> {
    /// The row as it will be once the request is done, if it is of one row and no fault refuses it.
    /// What refuses it, `apply` tells.
    pub fn show(&self, alloc: Global, request: &Request) -> Result<Option<ShownRow>, Fault>
        requires { IsSound self.now.state }
        ensures fault { Refuses result None }
        ensures ok { IfOk result (λ shown. TellsRow self.now.state request.now shown) }
    {
        told(self.show_row(alloc, request))
    }

    fn show_row(&self, alloc: Global, request: &Request) -> Result<Option<ShownRow>, Refusal>
        requires { IsSound self.now.state }
        ensures { ShowsRow self.now.state request.now result }
    {
        match request {
            Request::ImageAdd(asked) => self.show_image_add(alloc, asked),
            Request::ImageTarget(asked) => self.show_image_target(alloc, asked),
            Request::ImageSet(asked) => self.show_image_set(alloc, asked),
            Request::ImageGet(image) => self.show_image_get(alloc, image),
            Request::ImageLabel(image, label) => self.show_image_label(alloc, image, label),
            Request::ContainerAdd(asked) => self.show_container_add(alloc, asked),
            Request::ContainerSet(asked) => self.show_container_set(alloc, asked),
            Request::ContainerGet(container) => self.show_container_get(alloc, container),
            Request::ContainerLabel(container, label) => self.show_container_label(
                alloc, container, label,
            ),
            Request::ContentAdd(asked) => self.show_content_add(alloc, asked),
            Request::ContentSet(content, update) => self.show_content_set(alloc, content, update),
            Request::ContentGet(content) => self.show_content_get(alloc, content),
            Request::ContentLabel(content, label) => self.show_content_label(alloc, content, label),
            Request::IngestBegin(asked) => self.show_ingest_begin(alloc, asked),
            Request::IngestOpen(asked) => self.show_ingest_open(alloc, asked),
            Request::IngestCommit(asked) => self.show_ingest_commit(alloc, asked),
            Request::IngestGet(ingest) => self.show_ingest_get(alloc, ingest),
            Request::SnapPrepare(asked) => self.show_snap_prepare(alloc, asked),
            Request::SnapView(asked) => self.show_snap_view(alloc, asked),
            Request::SnapCommit(asked) => self.show_snap_commit(alloc, asked),
            Request::SnapSet(snapshot, update) => self.show_snap_set(alloc, snapshot, update),
            Request::SnapGet(snapshot) => self.show_snap_get(alloc, snapshot),
            Request::SnapLabel(snapshot, label) => self.show_snap_label(alloc, snapshot, label),
            Request::LeaseAdd(asked) => self.show_lease_add(alloc, asked),
            Request::LeaseSet(lease, update) => self.show_lease_set(alloc, lease, update),
            Request::LeaseGet(lease) => self.show_lease_get(alloc, lease),
            Request::LeaseLabel(lease, label) => self.show_lease_label(alloc, lease, label),
            Request::NsAdd { .. } => Ok(None),
            Request::NsRemove { .. } => Ok(None),
            Request::NsList => Ok(None),
            Request::ImageRemove(_) => Ok(None),
            Request::ImageList { .. } => Ok(None),
            Request::ContainerRemove(_) => Ok(None),
            Request::ContainerList { .. } => Ok(None),
            Request::ContentRemove(_, _) => Ok(None),
            Request::ContentList { .. } => Ok(None),
            Request::IngestAbort(_, _) => Ok(None),
            Request::IngestList { .. } => Ok(None),
            Request::SnapRemove(_, _) => Ok(None),
            Request::SnapList { .. } => Ok(None),
            Request::SnapSnapshotters { .. } => Ok(None),
            Request::LeaseRemove(_) => Ok(None),
            Request::LeaseList { .. } => Ok(None),
            Request::LeaseHold(_) => Ok(None),
            Request::LeaseDrop(_) => Ok(None),
            Request::LeaseResources(_) => Ok(None),
            Request::Profile { .. } => Ok(None),
        }
    }
}

/// A row, or that memory ran out; none where a fault refuses the request.
pub(crate) fn told(shown: Result<Option<ShownRow>, Refusal>) -> Result<Option<ShownRow>, Fault>
    ensures { result ≡ told shown }
{
    match shown {
        Ok(shown) => Ok(shown),
        Err(Refusal::Reading) => Err(Fault::OutOfMemory),
        Err(Refusal::By(Fault::OutOfMemory)) => Err(Fault::OutOfMemory),
        Err(Refusal::By(_)) => Ok(None),
    }
}

/// A row of another kind than a snapshot.
pub(crate) fn plain(row: ReplyRow) -> Option<ShownRow>
    ensures { result ≡ Some (plain_row row) }
{
    Some(ShownRow {
        row,
        parent_number: None,
    })
}
