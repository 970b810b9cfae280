//! Resources of leases, and the kinds of objects.
ghost use Rattle.std.specs.Prelude.{◌≡◌, ◌&&◌, IfOk, Some, None, is_some};
ghost use Rattle.meta_types.specs.Text.{is_short_name, is_name, is_digest};
ghost use Rattle.meta_types.specs.Resources.{resource_of, content_of, ingest_of, snapshot_of};
ghost use Rattle.meta_types.specs.Faults.{Refuses, unless};
ghost use Rattle.meta_types.specs.declared.fault.Fault.TheVariants.{InvalidArgument};

use crate::digest::Digest;
use crate::fault::Fault;
use crate::name::Name;
use crate::short_name::ShortName;
use crate::text::{is_name, is_short_name};
use std::alloc::Global;

/// The kinds of objects that are listed by namespace alone.
#[derive(Clone, Copy, PartialEq, Eq)]
pub enum Kind {
    Image,
    Container,
    Content,
    Ingest,
}

/// In which way a row is reached: with its labels followed, or without (containerd
/// garbage-collection.md, flat leases).
#[derive(Clone, Copy, PartialEq, Eq, Hash)]
pub enum Mode {
    Full,
    Flat,
}

/// What a lease holds (containerd leases service, Resource). It needn't be there.
#[derive(PartialEq, Eq, Hash, Clone, Drop)]
pub enum Resource {
    Content(Digest),
    Snapshot(ShortName, Name),
    Ingest(Name),
}

impl Resource {
    /// Reads a resource: `kind` is `content`, `ingests`, or `snapshots/` and a snapshotter.
    pub fn read(alloc: Global, kind: &str, id: &str) -> Result<Resource, Fault>
        ensures fault { Refuses result
            (unless (is_some (resource_of kind.now id.now)) InvalidArgument) }
        ensures ok { IfOk result (λ resource. resource_of kind.now id.now ≡ Some resource) }
    {
        if kind == "content" {
            return read_content(alloc, id);
        }
        if kind == "ingests" {
            return read_ingest(alloc, id);
        }
        match kind.strip_prefix("snapshots/") {
            Some(snapshotter) => read_snapshot(alloc, snapshotter, id),
            None => Err(Fault::InvalidArgument),
        }
    }

    /// A copy, which shares its texts.
    pub fn copy(&self) -> Result<Resource, Fault>
        ensures fault { Refuses result None }
        ensures ok { IfOk result (λ resource. resource ≡ self.now) }
    {
        Ok(Resource::clone(self)?)
    }
}

fn read_content(alloc: Global, id: &str) -> Result<Resource, Fault>
    ensures fault { Refuses result (unless (is_digest id.now) InvalidArgument) }
    ensures ok { IfOk result (λ resource. content_of id.now ≡ Some resource) }
{
    let digest = Digest::read(alloc, id)?;
    Ok(Resource::Content(digest))
}

fn read_ingest(alloc: Global, id: &str) -> Result<Resource, Fault>
    ensures fault { Refuses result (unless (is_name id.now) InvalidArgument) }
    ensures ok { IfOk result (λ resource. ingest_of id.now ≡ Some resource) }
{
    let name = Name::read(alloc, id)?;
    Ok(Resource::Ingest(name))
}

fn read_snapshot(alloc: Global, snapshotter: &str, id: &str) -> Result<Resource, Fault>
    ensures fault { Refuses result
        (unless (is_short_name snapshotter.now && is_name id.now) InvalidArgument) }
    ensures ok { IfOk result (λ resource. snapshot_of snapshotter.now id.now ≡ Some resource) }
{
    if !is_short_name(snapshotter) || !is_name(id) {
        return Err(Fault::InvalidArgument);
    }
    let snapshotter = ShortName::make(alloc, snapshotter)?;
    let name = Name::make(alloc, id)?;
    Ok(Resource::Snapshot(snapshotter, name))
}
