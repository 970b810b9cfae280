//! What clients ask for, in texts that are not yet read.
use crate::raw::{RawLabel, RawLabels, RawText};

/// What names an image, a container, an ingest or a lease.
#[derive(PartialEq, Drop)]
pub struct RawName<'a> {
    pub ns: RawText<'a>,
    pub name: RawText<'a>,
}

/// What names content.
#[derive(PartialEq, Drop)]
pub struct RawContent<'a> {
    pub ns: RawText<'a>,
    pub digest: RawText<'a>,
}

/// What names a snapshot.
#[derive(PartialEq, Drop)]
pub struct RawSnapshot<'a> {
    pub ns: RawText<'a>,
    pub snapshotter: RawText<'a>,
    pub name: RawText<'a>,
}

/// What of a row is replaced: all its labels, or those with the keys of `put`; its data.
#[derive(PartialEq, Drop)]
pub struct RowUpdate<'a> {
    pub labels: Option<RawLabels<'a>>,
    pub put: Option<RawLabels<'a>>,
    pub extra: Option<RawText<'a>>,
}

/// A new image.
#[derive(PartialEq, Drop)]
pub struct ImageAdd<'a> {
    pub image: RawName<'a>,
    pub target: RawText<'a>,
    pub labels: RawLabels<'a>,
    pub extra: Option<RawText<'a>>,
}

/// An image's new target, if any, with what else of it is replaced.
#[derive(PartialEq, Drop)]
pub struct ImageSet<'a> {
    pub image: RawName<'a>,
    pub target: Option<RawText<'a>>,
    pub update: RowUpdate<'a>,
}

/// An image's new target.
#[derive(PartialEq, Drop)]
pub struct ImageTarget<'a> {
    pub image: RawName<'a>,
    pub target: RawText<'a>,
}

/// A new container, with the snapshot that it runs on, if any.
#[derive(PartialEq, Drop)]
pub struct ContainerAdd<'a> {
    pub container: RawName<'a>,
    pub snapshotter: Option<RawText<'a>>,
    pub key: Option<RawText<'a>>,
    pub labels: RawLabels<'a>,
    pub extra: Option<RawText<'a>>,
}

/// The snapshot that a container runs on from now on, if one is given, with what else of it is
/// replaced.
#[derive(PartialEq, Drop)]
pub struct ContainerSet<'a> {
    pub container: RawName<'a>,
    pub snapshotter: Option<RawText<'a>>,
    pub key: Option<RawText<'a>>,
    pub update: RowUpdate<'a>,
}

/// New content, with the lease that is to hold it, if any.
#[derive(PartialEq, Drop)]
pub struct ContentAdd<'a> {
    pub content: RawContent<'a>,
    pub labels: RawLabels<'a>,
    pub lease: Option<RawText<'a>>,
    pub extra: Option<RawText<'a>>,
}

/// A new ingest: when it begins, the digest that it expects, and the lease that is to hold it, if
/// any.
#[derive(PartialEq, Drop)]
pub struct IngestBegin<'a> {
    pub ingest: RawName<'a>,
    pub at: RawText<'a>,
    pub expected: Option<RawText<'a>>,
    pub lease: Option<RawText<'a>>,
    pub extra: Option<RawText<'a>>,
}

/// The content that an ingest becomes, with the lease that is to hold it, and the lease that drops
/// the ingest, if any.
#[derive(PartialEq, Drop)]
pub struct IngestCommit<'a> {
    pub ingest: RawName<'a>,
    pub digest: RawText<'a>,
    pub labels: RawLabels<'a>,
    pub lease: Option<RawText<'a>>,
    pub dropped_by: Option<RawText<'a>>,
    pub extra: Option<RawText<'a>>,
}

/// A new snapshot, active or a view, over a parent or none, with the lease that is to hold it, if
/// any.
#[derive(PartialEq, Drop)]
pub struct SnapAdd<'a> {
    pub snapshot: RawSnapshot<'a>,
    pub parent: Option<RawText<'a>>,
    pub labels: RawLabels<'a>,
    pub lease: Option<RawText<'a>>,
    pub extra: Option<RawText<'a>>,
}

/// The name under which a snapshot is committed, with the lease that is to hold it, and the lease
/// that drops the active one, if any.
#[derive(PartialEq, Drop)]
pub struct SnapCommit<'a> {
    pub snapshot: RawSnapshot<'a>,
    pub name: RawText<'a>,
    pub labels: RawLabels<'a>,
    pub lease: Option<RawText<'a>>,
    pub dropped_by: Option<RawText<'a>>,
    pub extra: Option<RawText<'a>>,
}

/// A new lease.
#[derive(PartialEq, Drop)]
pub struct LeaseAdd<'a> {
    pub lease: RawName<'a>,
    pub labels: RawLabels<'a>,
    pub extra: Option<RawText<'a>>,
}

/// A resource that a lease is to hold, or to let go.
#[derive(PartialEq, Drop)]
pub struct LeaseResource<'a> {
    pub lease: RawName<'a>,
    pub kind: RawText<'a>,
    pub resource: RawText<'a>,
}

/// What a client asks for, but a collection. A second text of a removal or an abort is the lease
/// that drops the row, if any.
#[derive(PartialEq, Drop)]
pub enum Request<'a> {
    NsAdd {
        ns: RawText<'a>,
    },
    NsRemove {
        ns: RawText<'a>,
    },
    NsList,
    ImageAdd(ImageAdd<'a>),
    ImageTarget(ImageTarget<'a>),
    ImageSet(ImageSet<'a>),
    ImageRemove(RawName<'a>),
    ImageGet(RawName<'a>),
    ImageList {
        ns: RawText<'a>,
    },
    ImageLabel(RawName<'a>, RawLabel<'a>),
    ContainerAdd(ContainerAdd<'a>),
    ContainerSet(ContainerSet<'a>),
    ContainerRemove(RawName<'a>),
    ContainerGet(RawName<'a>),
    ContainerList {
        ns: RawText<'a>,
    },
    ContainerLabel(RawName<'a>, RawLabel<'a>),
    ContentAdd(ContentAdd<'a>),
    ContentSet(RawContent<'a>, RowUpdate<'a>),
    ContentRemove(RawContent<'a>, Option<RawText<'a>>),
    ContentGet(RawContent<'a>),
    ContentLabel(RawContent<'a>, RawLabel<'a>),
    ContentList {
        ns: RawText<'a>,
    },
    IngestBegin(IngestBegin<'a>),
    IngestOpen(IngestBegin<'a>),
    IngestCommit(IngestCommit<'a>),
    IngestAbort(RawName<'a>, Option<RawText<'a>>),
    IngestGet(RawName<'a>),
    IngestList {
        ns: RawText<'a>,
    },
    SnapPrepare(SnapAdd<'a>),
    SnapView(SnapAdd<'a>),
    SnapCommit(SnapCommit<'a>),
    SnapSet(RawSnapshot<'a>, RowUpdate<'a>),
    SnapRemove(RawSnapshot<'a>, Option<RawText<'a>>),
    SnapGet(RawSnapshot<'a>),
    SnapLabel(RawSnapshot<'a>, RawLabel<'a>),
    SnapList {
        ns: RawText<'a>,
        snapshotter: RawText<'a>,
    },
    SnapSnapshotters {
        ns: RawText<'a>,
    },
    LeaseAdd(LeaseAdd<'a>),
    LeaseSet(RawName<'a>, RowUpdate<'a>),
    LeaseRemove(RawName<'a>),
    LeaseGet(RawName<'a>),
    LeaseLabel(RawName<'a>, RawLabel<'a>),
    LeaseList {
        ns: RawText<'a>,
    },
    LeaseHold(LeaseResource<'a>),
    LeaseDrop(LeaseResource<'a>),
    LeaseResources(RawName<'a>),
    /// Which profile the store follows: 2 where images may expire.
    Profile {
        v: u64,
    },
}

/// A removal that is done with a collection, as one event.
#[derive(PartialEq, Drop)]
pub enum Removal<'a> {
    Image(RawName<'a>),
    Lease(RawName<'a>),
}
