//! Things with numbers: content and snapshots in a mode, and ingests.

use meta_types::{Mode, Resource, ShortName};

/// A resource of a namespace, in a mode. An ingest's mode is Full.
#[derive(PartialEq, Eq, Hash, Drop)]
pub struct Node {
    pub ns: ShortName,
    pub resource: Resource,
    pub mode: Mode,
}
