//! Additions that happen whole or not at all.
ghost use Rattle.std.specs.Prelude.{◌≡◌, ◌∷◌, [], true, false, OnOk, OnErr, IfOk, Err};
ghost use Rattle.meta_types.specs.Keys.{has_row, add_row};
ghost use Rattle.meta_types.specs.Rows.{content_key};
ghost use Rattle.meta_types.specs.Faults.{Refuses, least_of};
ghost use Rattle.meta_types.specs.Changes.{has_namespace, put_blob, hold_under, release_under, is_new_to};
ghost use Rattle.meta_types.specs.declared.fault.Fault.TheVariants as F;
ghost use Rattle.meta_types.specs.declared.resource.Resource.TheVariants as H;
ghost use Rattle.request_core.specs.Parts.{is_lease_there, release_if, MakesOrFails, MakesWhereFree};

use crate::row_parts::RowParts;
use crate::state::Records;
use back_model::{Backends, BlobBackend, IngestBackend, MakeFault, SnapBackend};
use lease_book::Leases;
use meta_types::{ContentRow, Digest, Fault, Name, Resource, ShortName};
use object_tables::Tables;
use std::alloc::Global;

/// Has the named lease hold a resource, and tells whether it is new there.
pub(crate) fn hold(
    leases: &mut Leases,
    alloc: Global,
    ns: &ShortName,
    lease: &Option<Name>,
    resource: &Resource,
) -> Result<bool, Fault>
    requires { is_lease_there ns.now lease.now leases.old ≡ true }
    ensures new { IfOk result (λ new. new ≡ is_new_to ns.now lease.now resource.now leases.old) }
    ensures ok { OnOk result (leases.new ≡ hold_under ns.now lease.now resource.now leases.old) }
    ensures err { OnErr result ((result ≡ Err F.OutOfMemory) × (leases.new ≡ leases.old)) }
{
    match lease {
        Some(id) => {
            let new = !leases.holds(ns, id, resource);
            let resource = resource.copy()?;
            leases.add_resource(alloc, ns, id, resource)?;
            Ok(new)
        }
        None => Ok(false),
    }
}

/// Drops a resource from its lease, where it was new there.
pub(crate) fn release(
    leases: &mut Leases,
    ns: &ShortName,
    lease: &Option<Name>,
    resource: &Resource,
    new: bool,
)
    ensures { leases.new ≡ release_if new ns.now lease.now resource.now leases.old }
{
    if new {
        drop_from(leases, ns, lease, resource);
    }
}

/// Takes a resource from the lease that is named, if that lease is there and has it.
pub(crate) fn drop_from(
    leases: &mut Leases,
    ns: &ShortName,
    lease: &Option<Name>,
    resource: &Resource,
)
    ensures { leases.new ≡ release_under ns.now lease.now resource.now leases.old }
{
    if let Some(id) = lease {
        let _ = leases.drop_resource(ns, id, resource);
    }
}

/// Makes a blob where the backend doesn't hold it.
pub(crate) fn make_blob<S: SnapBackend, B: BlobBackend, I: IngestBackend>(
    backends: &mut Backends<S, B, I>,
    alloc: Global,
    digest: &Digest,
) -> Result<(), Fault>
    ensures ok { OnOk result
        (B.contents backends.new.blobs ≡ put_blob digest.now (B.contents backends.old.blobs)) }
    ensures err { OnErr result (B.contents backends.new.blobs ≡ B.contents backends.old.blobs) }
    ensures others { (backends.new.shards ≡ backends.old.shards)
        × (backends.new.ingests ≡ backends.old.ingests) }
    ensures fault { MakesOrFails result (B.fails backends.old.blobs) (B.fails backends.new.blobs) }
{
    match backends.blobs_mut().make(alloc, digest) {
        Ok(()) | Err(MakeFault::Taken) => Ok(()),
        Err(MakeFault::Device) => Err(Fault::BackendFailed),
        Err(MakeFault::Memory) => Err(Fault::OutOfMemory),
        Err(MakeFault::Missing) => unreachable!(),
    }
}

/// The resource of a digest.
pub(crate) fn content_resource(digest: &Digest) -> Result<Resource, Fault>
    ensures ok { IfOk result (λ resource. resource ≡ H.Content digest.now) }
    ensures err { OnErr result (result ≡ Err F.OutOfMemory) }
{
    let digest = digest.copy()?;
    Ok(Resource::Content(digest))
}

// Has the named lease hold content and the backend its blob, or neither.
fn hold_and_create<S: SnapBackend, B: BlobBackend, I: IngestBackend>(
    leases: &mut Leases,
    backends: &mut Backends<S, B, I>,
    alloc: Global,
    ns: &ShortName,
    lease: &Option<Name>,
    digest: &Digest,
) -> Result<(), Fault>
    requires { is_lease_there ns.now lease.now leases.old ≡ true }
    ensures leases { OnOk result
        (leases.new ≡ hold_under ns.now lease.now (H.Content digest.now) leases.old) }
    ensures blobs { OnOk result
        (B.contents backends.new.blobs ≡ put_blob digest.now (B.contents backends.old.blobs)) }
    ensures err { OnErr result ((leases.new ≡ leases.old)
        × (B.contents backends.new.blobs ≡ B.contents backends.old.blobs)) }
    ensures others { (backends.new.shards ≡ backends.old.shards)
        × (backends.new.ingests ≡ backends.old.ingests) }
    ensures fault { MakesOrFails result (B.fails backends.old.blobs) (B.fails backends.new.blobs) }
{
    let resource = content_resource(digest)?;
    let new = hold(leases, alloc, ns, lease, &resource)?;
    match make_blob(backends, alloc, digest) {
        Ok(()) => Ok(()),
        Err(fault) => {
            release(leases, ns, lease, &resource, new);
            Err(fault)
        }
    }
}

// A row of content.
fn content_row(ns: &ShortName, digest: &Digest, parts: RowParts) -> Result<ContentRow, Fault>
    ensures ok { IfOk result (λ row. row ≡ record {
      ns = ns.now;
      digest = digest.now;
      labels = parts.labels;
      extra = parts.extra;
    }) }
    ensures err { OnErr result (result ≡ Err F.OutOfMemory) }
{
    let ns = ns.copy()?;
    let digest = digest.copy()?;
    Ok(ContentRow {
        ns,
        digest,
        labels: parts.labels,
        extra: parts.extra,
    })
}

// One look-up finds whether the row is there. Where memory runs out before it, the look-up tells
// which fault comes first.
fn add_row_of(
    tables: &mut Tables,
    alloc: Global,
    ns: &ShortName,
    digest: &Digest,
    parts: RowParts,
) -> Result<(), Fault>
    requires { has_namespace tables.old ns.now ≡ true }
    ensures fault { Refuses result (least_of false false
        (has_row content_key (ns.now ∷ digest.now ∷ []) tables.old.content) false) }
    ensures free { OnOk result
        (has_row content_key (ns.now ∷ digest.now ∷ []) tables.old.content ≡ false) }
    ensures ok { OnOk result (tables.new ≡ record tables.old {
      content = add_row content_key
          (record { ns = ns.now; digest = digest.now; labels = parts.labels; extra = parts.extra })
          tables.old.content;
    }) }
    ensures err { OnErr result (tables.new ≡ tables.old) }
{
    match content_row(ns, digest, parts) {
        Ok(row) => tables.add_content(alloc, row),
        Err(_) if tables.has_content(ns, digest) => Err(Fault::AlreadyExists),
        Err(fault) => Err(fault),
    }
}

/// Adds content that isn't there, which the named lease then holds, with its blob; or nothing at
/// all.
pub(crate) fn insert_content<S: SnapBackend, B: BlobBackend, I: IngestBackend>(
    records: &mut Records,
    backends: &mut Backends<S, B, I>,
    alloc: Global,
    ns: &ShortName,
    digest: &Digest,
    parts: RowParts,
    lease: &Option<Name>,
) -> Result<(), Fault>
    requires ns { has_namespace records.old.tables ns.now ≡ true }
    requires lease { is_lease_there ns.now lease.now records.old.leases ≡ true }
    ensures tables { OnOk result (records.new.tables ≡ record records.old.tables {
      content = add_row content_key
          (record { ns = ns.now; digest = digest.now; labels = parts.labels; extra = parts.extra })
          records.old.tables.content;
    }) }
    ensures leases { OnOk result
        (records.new.leases
        ≡ hold_under ns.now lease.now (H.Content digest.now) records.old.leases) }
    ensures numbers { (records.new.next ≡ records.old.next)
        × (records.new.profile ≡ records.old.profile) }
    ensures blobs { OnOk result
        (B.contents backends.new.blobs ≡ put_blob digest.now (B.contents backends.old.blobs)) }
    ensures err { OnErr result ((records.new.tables ≡ records.old.tables)
        × (records.new.leases ≡ records.old.leases)
        × (B.contents backends.new.blobs ≡ B.contents backends.old.blobs)) }
    ensures others { (backends.new.shards ≡ backends.old.shards)
        × (backends.new.ingests ≡ backends.old.ingests) }
    ensures fault { MakesWhereFree
        (has_row content_key (ns.now ∷ digest.now ∷ []) records.old.tables.content) result
        (B.fails backends.old.blobs) (B.fails backends.new.blobs) }
{
    add_row_of(&mut records.tables, alloc, ns, digest, parts)?;
    match hold_and_create(&mut records.leases, backends, alloc, ns, lease, digest) {
        Ok(()) => Ok(()),
        Err(fault) => {
            // The row was added above, so it is there.
            let _ = records.tables.remove_content(ns, digest);
            Err(fault)
        }
    }
}
