//! The beginning of an ingest, which happens whole or not at all.
ghost use Rattle.std.specs.Prelude.{◌≡◌, true, false, OnOk, OnErr, IfOk, Err};
ghost use Rattle.meta_types.specs.Keys.{has_row, add_row};
ghost use Rattle.meta_types.specs.Rows.{ingest_key};
ghost use Rattle.meta_types.specs.Changes.{has_namespace, hold_under};
ghost use Rattle.meta_types.specs.declared.fault.Fault.TheVariants as F;
ghost use Rattle.meta_types.specs.declared.resource.Resource.TheVariants as H;
ghost use Rattle.back_model.specs.Objects.{has_number, put_number};
ghost use Rattle.request_core.specs.Adding.{IsNumberedIngest};
ghost use Rattle.request_core.specs.Parts.{is_lease_there, MakesOrFails};

use crate::add::content::{hold, release};
use crate::state::Records;
use back_model::{Backends, BlobBackend, IngestBackend, MakeFault, SnapBackend};
use lease_book::Leases;
use meta_types::{Fault, IngestRow, Name, Resource, ShortName};
use std::alloc::Global;

// Makes an ingest's object under a number that is free.
fn make_ingest<S: SnapBackend, B: BlobBackend, I: IngestBackend>(
    backends: &mut Backends<S, B, I>,
    alloc: Global,
    number: u64,
) -> Result<(), Fault>
    requires { has_number number (I.contents backends.old.ingests) ≡ false }
    ensures ok { OnOk result
        (I.contents backends.new.ingests ≡ put_number number (I.contents backends.old.ingests)) }
    ensures err { OnErr result
        (I.contents backends.new.ingests ≡ I.contents backends.old.ingests) }
    ensures others { (backends.new.shards ≡ backends.old.shards)
        × (backends.new.blobs ≡ backends.old.blobs) }
    ensures fault { MakesOrFails result (I.fails backends.old.ingests)
        (I.fails backends.new.ingests) }
{
    match backends.ingests_mut().make(alloc, number) {
        Ok(()) => Ok(()),
        Err(MakeFault::Device) => Err(Fault::BackendFailed),
        Err(MakeFault::Memory) => Err(Fault::OutOfMemory),
        Err(MakeFault::Taken | MakeFault::Missing) => unreachable!(),
    }
}

// Has the named lease hold a resource and the backend an ingest, or neither.
fn hold_and_begin<S: SnapBackend, B: BlobBackend, I: IngestBackend>(
    leases: &mut Leases,
    backends: &mut Backends<S, B, I>,
    alloc: Global,
    ns: &ShortName,
    lease: &Option<Name>,
    resource: &Resource,
    number: u64,
) -> Result<(), Fault>
    requires lease { is_lease_there ns.now lease.now leases.old ≡ true }
    requires number { has_number number (I.contents backends.old.ingests) ≡ false }
    ensures leases { OnOk result (leases.new ≡ hold_under ns.now lease.now resource.now leases.old) }
    ensures ingests { OnOk result
        (I.contents backends.new.ingests ≡ put_number number (I.contents backends.old.ingests)) }
    ensures err { OnErr result ((leases.new ≡ leases.old)
        × (I.contents backends.new.ingests ≡ I.contents backends.old.ingests)) }
    ensures others { (backends.new.shards ≡ backends.old.shards)
        × (backends.new.blobs ≡ backends.old.blobs) }
    ensures fault { MakesOrFails result (I.fails backends.old.ingests)
        (I.fails backends.new.ingests) }
{
    let new = hold(leases, alloc, ns, lease, resource)?;
    match make_ingest(backends, alloc, number) {
        Ok(()) => Ok(()),
        Err(fault) => {
            release(leases, ns, lease, resource, new);
            Err(fault)
        }
    }
}

/// The resource of an ingest.
pub(crate) fn ingest_resource(name: &Name) -> Result<Resource, Fault>
    ensures ok { IfOk result (λ resource. resource ≡ H.Ingest name.now) }
    ensures err { OnErr result (result ≡ Err F.OutOfMemory) }
{
    let name = name.copy()?;
    Ok(Resource::Ingest(name))
}

/// Adds an ingest, which the named lease then holds, with its object; or nothing at all.
pub(crate) fn grow_ingest<S: SnapBackend, B: BlobBackend, I: IngestBackend>(
    records: &mut Records,
    backends: &mut Backends<S, B, I>,
    alloc: Global,
    row: IngestRow,
    lease: &Option<Name>,
) -> Result<(), Fault>
    requires ns { has_namespace records.old.tables row.ns ≡ true }
    requires lease { is_lease_there row.ns lease.now records.old.leases ≡ true }
    requires free { has_row ingest_key (ingest_key row) records.old.tables.ingests ≡ false }
    requires number { has_number row.number (I.contents backends.old.ingests) ≡ false }
    requires numbered { IsNumberedIngest records.old.tables row }
    ensures tables { OnOk result (records.new.tables ≡ record records.old.tables
        { ingests = add_row ingest_key row records.old.tables.ingests }) }
    ensures leases { OnOk result
        (records.new.leases ≡ hold_under row.ns lease.now (H.Ingest row.name) records.old.leases) }
    ensures numbers { (records.new.next ≡ records.old.next)
        × (records.new.profile ≡ records.old.profile) }
    ensures ingests { OnOk result (I.contents backends.new.ingests
        ≡ put_number row.number (I.contents backends.old.ingests)) }
    ensures err { OnErr result ((records.new.tables ≡ records.old.tables)
        × (records.new.leases ≡ records.old.leases)
        × (I.contents backends.new.ingests ≡ I.contents backends.old.ingests)) }
    ensures others { (backends.new.shards ≡ backends.old.shards)
        × (backends.new.blobs ≡ backends.old.blobs) }
    ensures fault { MakesOrFails result (I.fails backends.old.ingests)
        (I.fails backends.new.ingests) }
{
    let ns = row.ns.copy()?;
    let name = row.name.copy()?;
    let resource = ingest_resource(&name)?;
    let number = row.number;
    records.tables.add_ingest(alloc, row)?;
    match hold_and_begin(
        &mut records.leases,
        backends,
        alloc,
        &ns,
        lease,
        &resource,
        number,
    ) {
        Ok(()) => Ok(()),
        Err(fault) => {
            // The row was added above, so it is there.
            let _ = records.tables.remove_ingest(&ns, &name);
            Err(fault)
        }
    }
}
