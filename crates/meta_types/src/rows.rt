//! Rows: what a store keeps of each object.
ghost use Rattle.std.specs.Prelude.{◌≡◌, IfOk, None};
ghost use Rattle.meta_types.specs.Faults.{Refuses};

use crate::data::Data;
use crate::digest::Digest;
use crate::fault::Fault;
use crate::instant::Instant;
use crate::labels::Labels;
use crate::name::Name;
use crate::short_name::ShortName;
use std::alloc::Global;

/// An image: a name for the content that it runs from (containerd image store).
#[derive(PartialEq, Clone, Drop)]
pub struct ImageRow {
    pub ns: ShortName,
    pub name: Name,
    pub target: Digest,
    pub labels: Labels,
    pub extra: Data,
}

impl ImageRow {
    /// A copy, which shares its names; its labels have bytes of their own.
    pub fn copy(&self, _alloc: Global) -> Result<ImageRow, Fault>
        ensures fault { Refuses result None }
        ensures ok { IfOk result (λ row. row ≡ self.now) }
    {
        Ok(ImageRow::clone(self)?)
    }
}

/// A container, with the snapshot that it runs on, if any (containerd container store).
#[derive(PartialEq, Clone, Drop)]
pub struct ContainerRow {
    pub ns: ShortName,
    pub name: Name,
    pub snapshot: Option<(ShortName, Name)>,
    pub labels: Labels,
    pub extra: Data,
}

impl ContainerRow {
    /// A copy, which shares its names; its labels have bytes of their own.
    pub fn copy(&self, _alloc: Global) -> Result<ContainerRow, Fault>
        ensures fault { Refuses result None }
        ensures ok { IfOk result (λ row. row ≡ self.now) }
    {
        Ok(ContainerRow::clone(self)?)
    }
}

/// A blob as one namespace sees it: the blob itself is kept once (containerd content-flow.md).
#[derive(PartialEq, Clone, Drop)]
pub struct ContentRow {
    pub ns: ShortName,
    pub digest: Digest,
    pub labels: Labels,
    pub extra: Data,
}

impl ContentRow {
    /// A copy, which shares its names; its labels have bytes of their own.
    pub fn copy(&self, _alloc: Global) -> Result<ContentRow, Fault>
        ensures fault { Refuses result None }
        ensures ok { IfOk result (λ row. row ≡ self.now) }
    {
        Ok(ContentRow::clone(self)?)
    }
}

/// Content that is being written (containerd content-flow.md, ingests). `expires` is its own end,
/// which one that was begun under a lease doesn't have; `number` names it in the backend.
#[derive(PartialEq, Clone, Drop)]
pub struct IngestRow {
    pub ns: ShortName,
    pub name: Name,
    pub expected: Option<Digest>,
    pub expires: Option<Instant>,
    pub number: u64,
    pub extra: Data,
}

impl IngestRow {
    /// A copy, which shares its texts.
    pub fn copy(&self) -> Result<IngestRow, Fault>
        ensures fault { Refuses result None }
        ensures ok { IfOk result (λ row. row ≡ self.now) }
    {
        Ok(IngestRow::clone(self)?)
    }
}

/// Which snapshot: its namespace, its snapshotter and its name there.
#[derive(PartialEq, Clone, Drop)]
pub struct SnapKey {
    pub ns: ShortName,
    pub snapshotter: ShortName,
    pub name: Name,
}

impl SnapKey {
    /// A copy, which shares its texts.
    pub fn copy(&self) -> Result<SnapKey, Fault>
        ensures fault { Refuses result None }
        ensures ok { IfOk result (λ key. key ≡ self.now) }
    {
        Ok(SnapKey::clone(self)?)
    }
}

/// What may be done with a snapshot (containerd snapshots service, Kind).
#[derive(Clone, Copy, PartialEq, Eq)]
pub enum SnapKind {
    Active,
    View,
    Committed,
}

/// A snapshot. `parent` is a name of the same namespace and snapshotter; `number` names it in the
/// backend.
#[derive(PartialEq, Clone, Drop)]
pub struct SnapRow {
    pub key: SnapKey,
    pub kind: SnapKind,
    pub parent: Option<Name>,
    pub number: u64,
    pub labels: Labels,
    pub extra: Data,
}

impl SnapRow {
    /// A copy, which shares its names; its labels have bytes of their own.
    pub fn copy(&self, _alloc: Global) -> Result<SnapRow, Fault>
        ensures fault { Refuses result None }
        ensures ok { IfOk result (λ row. row ≡ self.now) }
    {
        Ok(SnapRow::clone(self)?)
    }
}
