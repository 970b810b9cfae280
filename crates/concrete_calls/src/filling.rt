//! Requests that fill a store, and removals.

use meta_types::{
    ContentAdd, Fault, ImageAdd, IngestBegin, LeaseAdd, RawContent, RawLabels, RawName,
    RawSnapshot, RawText, Removal, Request, SnapAdd, SnapCommit,
};
use std::alloc::Global;

const A: &str = "sha256:aaaaaaaaaaaaaaaaaaaaaaaaaaaaaaaaaaaaaaaaaaaaaaaaaaaaaaaaaaaaaaaa";

const B: &str = "sha256:bbbbbbbbbbbbbbbbbbbbbbbbbbbbbbbbbbbbbbbbbbbbbbbbbbbbbbbbbbbbbbbb";

const C: &str = "sha256:cccccccccccccccccccccccccccccccccccccccccccccccccccccccccccccccc";

fn words(alloc: Global, text: &str) -> Result<RawText<'static>, Fault> {
    Ok(RawText::new(String::from_str(alloc, text)?))
}

fn labels(alloc: Global, key: &str, value: &str) -> Result<RawLabels<'static>, Fault> {
    let key = words(alloc, key)?;
    let value = words(alloc, value)?;
    Ok(RawLabels::new(vec![in alloc; (key, value)]?))
}

fn space(alloc: Global) -> Result<Request<'static>, Fault> {
    let ns = words(alloc, "x")?;
    Ok(Request::NsAdd { ns })
}

fn lease(alloc: Global, id: &str, key: &str, value: &str) -> Result<Request<'static>, Fault> {
    let ns = words(alloc, "x")?;
    let id = words(alloc, id)?;
    let labels = labels(alloc, key, value)?;
    Ok(Request::LeaseAdd(LeaseAdd {
        lease: RawName { ns, name: id },
        labels,
        extra: None,
    }))
}

fn content(alloc: Global, digest: &str) -> Result<Request<'static>, Fault> {
    let ns = words(alloc, "x")?;
    let digest = words(alloc, digest)?;
    Ok(Request::ContentAdd(ContentAdd {
        content: RawContent { ns, digest },
        labels: RawLabels::new(Vec::new(alloc)),
        lease: None,
        extra: None,
    }))
}

fn held_content(alloc: Global, digest: &str, lease: &str) -> Result<Request<'static>, Fault> {
    let ns = words(alloc, "x")?;
    let digest = words(alloc, digest)?;
    let lease = words(alloc, lease)?;
    Ok(Request::ContentAdd(ContentAdd {
        content: RawContent { ns, digest },
        labels: RawLabels::new(Vec::new(alloc)),
        lease: Some(lease),
        extra: None,
    }))
}

fn image(alloc: Global) -> Result<Request<'static>, Fault> {
    let ns = words(alloc, "x")?;
    let name = words(alloc, "i")?;
    let target = words(alloc, B)?;
    let labels = labels(alloc, "k", "v")?;
    Ok(Request::ImageAdd(ImageAdd {
        image: RawName { ns, name },
        target,
        labels,
        extra: None,
    }))
}

fn begin(alloc: Global) -> Result<Request<'static>, Fault> {
    let ns = words(alloc, "x")?;
    let name = words(alloc, "r")?;
    let at = words(alloc, "2024-02-01T00:00:00Z")?;
    Ok(Request::IngestBegin(IngestBegin {
        ingest: RawName { ns, name },
        at,
        expected: None,
        lease: None,
        extra: None,
    }))
}

fn prepare(alloc: Global, snapshotter: &str, key: &str) -> Result<Request<'static>, Fault> {
    let ns = words(alloc, "x")?;
    let snapshotter = words(alloc, snapshotter)?;
    let key = words(alloc, key)?;
    Ok(Request::SnapPrepare(SnapAdd {
        snapshot: RawSnapshot {
            ns,
            snapshotter,
            name: key,
        },
        parent: None,
        labels: RawLabels::new(Vec::new(alloc)),
        lease: None,
        extra: None,
    }))
}

fn commit(alloc: Global) -> Result<Request<'static>, Fault> {
    let ns = words(alloc, "x")?;
    let snapshotter = words(alloc, "overlayfs")?;
    let key = words(alloc, "p")?;
    let name = words(alloc, "c")?;
    Ok(Request::SnapCommit(SnapCommit {
        snapshot: RawSnapshot {
            ns,
            snapshotter,
            name: key,
        },
        name,
        labels: RawLabels::new(Vec::new(alloc)),
        lease: None,
        dropped_by: None,
        extra: None,
    }))
}

fn view(alloc: Global) -> Result<Request<'static>, Fault> {
    let ns = words(alloc, "x")?;
    let snapshotter = words(alloc, "overlayfs")?;
    let key = words(alloc, "v")?;
    let parent = words(alloc, "c")?;
    Ok(Request::SnapView(SnapAdd {
        snapshot: RawSnapshot {
            ns,
            snapshotter,
            name: key,
        },
        parent: Some(parent),
        labels: RawLabels::new(Vec::new(alloc)),
        lease: None,
        extra: None,
    }))
}

// The request at a place of the store's filling, from 0 to 12: content A, which nothing references;
// B, which the image `i` has; C under the lease `l`; a lease whose expiry can't be read, and one that
// has expired, as the ingest has; and snapshots by two snapshotters, one of them over another.
pub(crate) fn request(alloc: Global, place: u32) -> Result<Request<'static>, Fault> {
    match place {
        0 => space(alloc),
        1 => lease(alloc, "l", "k", "v"),
        2 => lease(alloc, "m", "containerd.io/gc.expire", "tomorrow"),
        3 => lease(
            alloc,
            "n",
            "containerd.io/gc.expire",
            "2024-02-01T00:00:00Z",
        ),
        4 => content(alloc, A),
        5 => content(alloc, B),
        6 => held_content(alloc, C, "l"),
        7 => image(alloc),
        8 => begin(alloc),
        9 => prepare(alloc, "overlayfs", "p"),
        10 => commit(alloc),
        11 => view(alloc),
        _ => prepare(alloc, "native", "q"),
    }
}

// What a kind of collection removes: the lease `l`, or the image `i`.
pub(crate) fn removal(alloc: Global, kind: u32) -> Result<Removal<'static>, Fault> {
    let ns = words(alloc, "x")?;
    if kind == 4 {
        let id = words(alloc, "l")?;
        return Ok(Removal::Lease(RawName { ns, name: id }));
    }
    let name = words(alloc, "i")?;
    Ok(Removal::Image(RawName { ns, name }))
}
