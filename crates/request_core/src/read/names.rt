//! Names, digests and resources that the texts of a request give.
ghost use Rattle.std.specs.Prelude.{◌∷◌, [], is_some};
ghost use Rattle.meta_types.specs.Resources.{resource_of};
ghost use Rattle.request_core.specs.Parts.{some_of, some_third};
ghost use Rattle.meta_types.specs.Text.{is_short_name, is_name, is_digest};
ghost use Rattle.meta_types.specs.Changes.{all_of, is_allowed_if};
ghost use Rattle.request_core.specs.Follows.{ReadsTexts};

use crate::refusal::{Refusal, reading};
use meta_types::{
    Digest, LeaseResource, Name, RawContent, RawName, RawSnapshot, RawText, Resource, ShortName,
    SnapKey,
};
use std::alloc::Global;

/// Reads a namespace or a snapshotter.
pub(crate) fn read_short_name(alloc: Global, text: &RawText) -> Result<ShortName, Refusal>
    ensures { ReadsTexts result (is_short_name text.now) text.now }
{
    match ShortName::read(alloc, text.text()) {
        Ok(read) => Ok(read),
        Err(fault) => Err(reading(fault)),
    }
}

/// Reads another name.
pub(crate) fn read_name(alloc: Global, text: &RawText) -> Result<Name, Refusal>
    ensures { ReadsTexts result (is_name text.now) text.now }
{
    match Name::read(alloc, text.text()) {
        Ok(read) => Ok(read),
        Err(fault) => Err(reading(fault)),
    }
}

/// Reads a name that may be left out.
pub(crate) fn read_name_if(alloc: Global, text: &Option<RawText>) -> Result<Option<Name>, Refusal>
    ensures { ReadsTexts result (is_allowed_if is_name text.now) text.now }
{
    match text {
        Some(text) => Ok(Some(read_name(alloc, text)?)),
        None => Ok(None),
    }
}

/// Reads a digest.
pub(crate) fn read_digest(alloc: Global, text: &RawText) -> Result<Digest, Refusal>
    ensures { ReadsTexts result (is_digest text.now) text.now }
{
    match Digest::read(alloc, text.text()) {
        Ok(read) => Ok(read),
        Err(fault) => Err(reading(fault)),
    }
}

/// Reads a namespace.
pub(crate) fn read_ns(alloc: Global, ns: &RawText) -> Result<ShortName, Refusal>
    ensures { ReadsTexts result (all_of (is_short_name ns.now ∷ [])) ns.now }
{
    read_short_name(alloc, ns)
}

/// Reads a namespace and a name.
pub(crate) fn read_object(alloc: Global, object: &RawName) -> Result<(ShortName, Name), Refusal>
    ensures { ReadsTexts result
        (all_of (is_short_name object.now.ns ∷ is_name object.now.name ∷ []))
        (object.now.ns, object.now.name) }
{
    let ns = read_short_name(alloc, &object.ns)?;
    let name = read_name(alloc, &object.name)?;
    Ok((ns, name))
}

/// Reads a namespace and a digest.
pub(crate) fn read_content(
    alloc: Global,
    content: &RawContent,
) -> Result<(ShortName, Digest), Refusal>
    ensures { ReadsTexts result
        (all_of (is_short_name content.now.ns ∷ is_digest content.now.digest ∷ []))
        (content.now.ns, content.now.digest) }
{
    let ns = read_short_name(alloc, &content.ns)?;
    let digest = read_digest(alloc, &content.digest)?;
    Ok((ns, digest))
}

/// Reads what names a snapshot.
pub(crate) fn read_snap(alloc: Global, snapshot: &RawSnapshot) -> Result<SnapKey, Refusal>
    ensures { ReadsTexts result (all_of (is_short_name snapshot.now.ns
        ∷ is_short_name snapshot.now.snapshotter ∷ is_name snapshot.now.name ∷ [])) (record {
          ns = snapshot.now.ns;
          snapshotter = snapshot.now.snapshotter;
          name = snapshot.now.name;
        }) }
{
    let (ns, snapshotter) = read_snapshotter(alloc, &snapshot.ns, &snapshot.snapshotter)?;
    let name = read_name(alloc, &snapshot.name)?;
    Ok(SnapKey {
        ns,
        snapshotter,
        name,
    })
}

/// Reads a namespace and a snapshotter.
pub(crate) fn read_snapshotter(
    alloc: Global,
    ns: &RawText,
    snapshotter: &RawText,
) -> Result<(ShortName, ShortName), Refusal>
    ensures { ReadsTexts result (all_of (is_short_name ns.now ∷ is_short_name snapshotter.now
        ∷ [])) (ns.now, snapshotter.now) }
{
    let ns = read_short_name(alloc, ns)?;
    let snapshotter = read_short_name(alloc, snapshotter)?;
    Ok((ns, snapshotter))
}

/// Reads a digest that may be left out.
pub(crate) fn read_digest_if(
    alloc: Global,
    text: &Option<RawText>,
) -> Result<Option<Digest>, Refusal>
    ensures { ReadsTexts result (is_allowed_if is_digest text.now) text.now }
{
    match text {
        Some(text) => Ok(Some(read_digest(alloc, text)?)),
        None => Ok(None),
    }
}

/// Reads a lease's namespace and id, and a resource.
pub(crate) fn read_held(
    alloc: Global,
    asked: &LeaseResource,
) -> Result<(ShortName, Name, Resource), Refusal>
    ensures { ReadsTexts (some_third result) (all_of (is_short_name asked.now.lease.ns
        ∷ is_name asked.now.lease.name
        ∷ is_some (resource_of asked.now.kind asked.now.resource) ∷ [])) (
          asked.now.lease.ns,
          asked.now.lease.name,
          resource_of asked.now.kind asked.now.resource,
        ) }
{
    let (ns, id) = read_object(alloc, &asked.lease)?;
    let resource = read_resource(alloc, &asked.kind, &asked.resource)?;
    Ok((ns, id, resource))
}

// Reads a resource.
fn read_resource(alloc: Global, kind: &RawText, resource: &RawText) -> Result<Resource, Refusal>
    ensures { ReadsTexts (some_of result) (is_some (resource_of kind.now resource.now))
        (resource_of kind.now resource.now) }
{
    match Resource::read(alloc, kind.text(), resource.text()) {
        Ok(resource) => Ok(resource),
        Err(fault) => Err(reading(fault)),
    }
}

/// Reads what names an ingest, and the lease that drops it, if one is named.
pub(crate) fn read_ingest_to_abort(
    alloc: Global,
    ingest: &RawName,
    dropped_by: &Option<RawText>,
) -> Result<(ShortName, Name, Option<Name>), Refusal>
    ensures { ReadsTexts result (all_of (is_short_name ingest.now.ns ∷ is_name ingest.now.name
        ∷ is_allowed_if is_name dropped_by.now ∷ []))
        (ingest.now.ns, ingest.now.name, dropped_by.now) }
{
    let (ns, name) = read_object(alloc, ingest)?;
    let dropped_by = read_name_if(alloc, dropped_by)?;
    Ok((ns, name, dropped_by))
}

/// Reads what names content, and the lease that drops it, if one is named.
pub(crate) fn read_content_to_remove(
    alloc: Global,
    content: &RawContent,
    dropped_by: &Option<RawText>,
) -> Result<(ShortName, Digest, Option<Name>), Refusal>
    ensures { ReadsTexts result (all_of (is_short_name content.now.ns
        ∷ is_digest content.now.digest ∷ is_allowed_if is_name dropped_by.now ∷ []))
        (content.now.ns, content.now.digest, dropped_by.now) }
{
    let (ns, digest) = read_content(alloc, content)?;
    let dropped_by = read_name_if(alloc, dropped_by)?;
    Ok((ns, digest, dropped_by))
}

/// Reads what names a snapshot, and the lease that drops it, if one is named.
pub(crate) fn read_snap_to_remove(
    alloc: Global,
    snapshot: &RawSnapshot,
    dropped_by: &Option<RawText>,
) -> Result<(SnapKey, Option<Name>), Refusal>
    ensures { ReadsTexts result (all_of (is_short_name snapshot.now.ns
        ∷ is_short_name snapshot.now.snapshotter ∷ is_name snapshot.now.name
        ∷ is_allowed_if is_name dropped_by.now ∷ [])) (
          record {
            ns = snapshot.now.ns;
            snapshotter = snapshot.now.snapshotter;
            name = snapshot.now.name;
          },
          dropped_by.now,
        ) }
{
    let key = read_snap(alloc, snapshot)?;
    let dropped_by = read_name_if(alloc, dropped_by)?;
    Ok((key, dropped_by))
}
