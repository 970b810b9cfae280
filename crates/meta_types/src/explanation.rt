//! Explanations: the path of references that keeps a row.

use crate::object::Object;
use crate::raw::RawText;
use crate::resource::Mode;

/// By what a thing stands on a path: as its root, or by what the thing before names.
#[derive(Drop)]
pub enum By {
    Root,
    Ended,
    Target,
    Snapshot,
    Resource,
    Expected,
    Parent,
    Label(RawText<'static>),
}

/// A thing of a path. `mode` is that of content and of snapshots; `expire` is the expiry label of a
/// root that may end, as it is stored, or the own end of an ingest, in UTC.
#[derive(Drop)]
pub struct PathStep {
    pub by: By,
    pub object: Object,
    pub mode: Option<Mode>,
    pub expire: Option<RawText<'static>>,
}

/// What keeps a row, from the root on. Where nothing does, `kept` is false, and the path is that
/// of the last moment at which something kept it; it is empty where there never was one.
#[derive(Drop)]
pub struct Explanation {
    pub kept: bool,
    pub path: Vec<PathStep>,
}
