//! Hands each request to the function of its op.
ghost use Rattle.std.specs.Prelude.{◌≡◌, ◌⊎◌, Ok};
ghost use Rattle.meta_types.specs.Sound.{IsSound};
ghost use Rattle.meta_types.specs.declared.reply.Reply.TheVariants as P;
ghost use Rattle.request_core.specs.Follows.{Answers, AnswersExactly};

use crate::refusal::{Refusal, plain};
use crate::state::State;
use back_model::{BlobBackend, IngestBackend, SnapBackend};
use meta_types::{Fault, Kind, Reply, Request, SnapKind};
use std::alloc::Global;

impl<S: SnapBackend, B: BlobBackend, I: IngestBackend> State<S, B, I> {
    /// Answers a request. A refused call leaves all rows and objects as they were, also where
    /// memory ran out or the device failed.
    pub fn apply(&mut self, alloc: Global, request: &Request) -> Result<Reply, Fault>
        requires { IsSound self.old.state }
        ensures step { Answers self.old request.now result self.new }
        ensures quiet { (result ≡ Ok P.Done) ⊎ (self.new.state ≡ self.old.state) }
        ensures sound { IsSound self.new.state }
    {
        plain(self.dispatch(alloc, request))
    }

    fn dispatch(&mut self, alloc: Global, request: &Request) -> Result<Reply, Refusal>
        requires { IsSound self.old.state }
        ensures { AnswersExactly self.old request.now result self.new }
    {
        match request {
            Request::NsAdd { ns } => self.ns_add(alloc, ns),
            Request::NsRemove { ns } => self.ns_remove(alloc, ns),
            Request::NsList => self.ns_list(alloc),
            Request::ImageAdd(asked) => self.image_add(alloc, asked),
            Request::ImageTarget(asked) => self.image_target(alloc, asked),
            Request::ImageSet(asked) => self.image_set(alloc, asked),
            Request::ImageRemove(image) => self.image_remove(alloc, image),
            Request::ImageGet(image) => self.image_get(alloc, image),
            Request::ImageList { ns } => self.list(alloc, Kind::Image, ns),
            Request::ImageLabel(image, label) => self.image_label(alloc, image, label),
            Request::ContainerAdd(asked) => self.container_add(alloc, asked),
            Request::ContainerSet(asked) => self.container_set(alloc, asked),
            Request::ContainerRemove(container) => self.container_remove(alloc, container),
            Request::ContainerGet(container) => self.container_get(alloc, container),
            Request::ContainerList { ns } => self.list(alloc, Kind::Container, ns),
            Request::ContainerLabel(container, label) => self.container_label(
                alloc, container, label,
            ),
            Request::ContentAdd(asked) => self.content_add(alloc, asked),
            Request::ContentSet(content, update) => self.content_set(alloc, content, update),
            Request::ContentRemove(content, dropped_by) => self.content_remove(
                alloc, content, dropped_by,
            ),
            Request::ContentGet(content) => self.content_get(alloc, content),
            Request::ContentLabel(content, label) => self.content_label(alloc, content, label),
            Request::ContentList { ns } => self.list(alloc, Kind::Content, ns),
            Request::IngestBegin(asked) => self.ingest_begin(alloc, asked),
            Request::IngestOpen(asked) => self.ingest_open(alloc, asked),
            Request::IngestCommit(asked) => self.ingest_commit(alloc, asked),
            Request::IngestAbort(ingest, dropped_by) => self.ingest_abort(
                alloc, ingest, dropped_by,
            ),
            Request::IngestGet(ingest) => self.ingest_get(alloc, ingest),
            Request::IngestList { ns } => self.list(alloc, Kind::Ingest, ns),
            Request::SnapPrepare(asked) => self.prepare(alloc, SnapKind::Active, asked),
            Request::SnapView(asked) => self.prepare(alloc, SnapKind::View, asked),
            Request::SnapCommit(asked) => self.snap_commit(alloc, asked),
            Request::SnapSet(snapshot, update) => self.snap_set(alloc, snapshot, update),
            Request::SnapRemove(snapshot, dropped_by) => self.snap_remove(
                alloc, snapshot, dropped_by,
            ),
            Request::SnapGet(snapshot) => self.snap_get(alloc, snapshot),
            Request::SnapLabel(snapshot, label) => self.snap_label(alloc, snapshot, label),
            Request::SnapList { ns, snapshotter } => self.snap_list(alloc, ns, snapshotter),
            Request::SnapSnapshotters { ns } => self.snap_snapshotters(alloc, ns),
            Request::LeaseAdd(asked) => self.lease_add(alloc, asked),
            Request::LeaseSet(lease, update) => self.lease_set(alloc, lease, update),
            Request::LeaseRemove(lease) => self.lease_remove(alloc, lease),
            Request::LeaseGet(lease) => self.lease_get(alloc, lease),
            Request::LeaseLabel(lease, label) => self.lease_label(alloc, lease, label),
            Request::LeaseList { ns } => self.lease_list(alloc, ns),
            Request::LeaseHold(asked) => self.lease_hold(alloc, asked),
            Request::LeaseDrop(asked) => self.lease_drop(alloc, asked),
            Request::LeaseResources(lease) => self.lease_resources(alloc, lease),
            Request::Profile { v } => self.profile(v),
        }
    }
}
