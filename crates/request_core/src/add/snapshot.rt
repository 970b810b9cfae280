//! A snapshot that is made whole or not at all.
ghost use Rattle.std.specs.Prelude.{◌≡◌, ◌∷◌, [], true, false, None, OnOk, OnErr};
ghost use Rattle.std.specs.List.{list_any};
ghost use Rattle.std.specs.Option.{option_map_or};
ghost use Rattle.meta_types.specs.Keys.{add_row, put_in_order};
ghost use Rattle.meta_types.specs.Rows.{snap_key};
ghost use Rattle.meta_types.specs.Changes.{hold_under, stands_before};
ghost use Rattle.meta_types.specs.Backends.{is_named};
ghost use Rattle.meta_types.specs.Sound.{AreTables};
ghost use Rattle.meta_types.specs.declared.resource.Resource.TheVariants as H;
ghost use Rattle.object_tables.specs.Calls.{adding_snap_fault};
ghost use Rattle.back_model.specs.Shown.{all_snaps, all_failures, back_snap};
ghost use Rattle.request_core.specs.Adding.{IsNumberedSnap, has_snap, has_above};
ghost use Rattle.request_core.specs.Parts.{is_lease_there, MakesOrFails};

use crate::add::commit::snapshot_resource;
use crate::add::content::{hold, release};
use crate::state::Records;
use back_model::{Backends, BlobBackend, IngestBackend, MakeFault, SnapBackend};
use lease_book::Leases;
use meta_types::{Fault, Name, ShortName, SnapKey, SnapRow};
use std::alloc::Global;

// Makes a snapshot's object under a number that is free, over its parent's.
fn make_object<S: SnapBackend, B: BlobBackend, I: IngestBackend>(
    backends: &mut Backends<S, B, I>,
    alloc: Global,
    snapshotter: &ShortName,
    number: u64,
    above: Option<u64>,
) -> Result<(), Fault>
    requires number { list_any (is_named (snapshotter.now, number)) (all_snaps backends.old.shards)
        ≡ false }
    requires above { option_map_or (λ n. list_any (is_named (snapshotter.now, n))
        (all_snaps backends.old.shards)) above true ≡ true }
    ensures ok { OnOk result (all_snaps backends.new.shards ≡ put_in_order stands_before
        (back_snap snapshotter.now (number, above)) (all_snaps backends.old.shards)) }
    ensures err { OnErr result (all_snaps backends.new.shards ≡ all_snaps backends.old.shards) }
    ensures others { (backends.new.blobs ≡ backends.old.blobs)
        × (backends.new.ingests ≡ backends.old.ingests) }
    ensures fault { MakesOrFails result (all_failures backends.old.shards)
        (all_failures backends.new.shards) }
{
    match backends.make_snap(alloc, snapshotter, number, above) {
        Ok(()) => Ok(()),
        Err(MakeFault::Device) => Err(Fault::BackendFailed),
        Err(MakeFault::Memory) => Err(Fault::OutOfMemory),
        Err(MakeFault::Taken | MakeFault::Missing) => unreachable!(),
    }
}

// Has the named lease hold a snapshot and the backend its object, or neither.
fn hold_and_prepare<S: SnapBackend, B: BlobBackend, I: IngestBackend>(
    leases: &mut Leases,
    backends: &mut Backends<S, B, I>,
    alloc: Global,
    key: &SnapKey,
    lease: &Option<Name>,
    number: u64,
    above: Option<u64>,
) -> Result<(), Fault>
    requires lease { is_lease_there key.now.ns lease.now leases.old ≡ true }
    requires number { list_any (is_named (key.now.snapshotter, number))
        (all_snaps backends.old.shards) ≡ false }
    requires above { option_map_or (λ n. list_any (is_named (key.now.snapshotter, n))
        (all_snaps backends.old.shards)) above true ≡ true }
    ensures leases { OnOk result (leases.new ≡ hold_under key.now.ns lease.now
        (H.Snapshot key.now.snapshotter key.now.name) leases.old) }
    ensures snapshots { OnOk result (all_snaps backends.new.shards ≡ put_in_order stands_before
        (back_snap key.now.snapshotter (number, above)) (all_snaps backends.old.shards)) }
    ensures err { OnErr result ((leases.new ≡ leases.old)
        × (all_snaps backends.new.shards ≡ all_snaps backends.old.shards)) }
    ensures others { (backends.new.blobs ≡ backends.old.blobs)
        × (backends.new.ingests ≡ backends.old.ingests) }
    ensures fault { MakesOrFails result (all_failures backends.old.shards)
        (all_failures backends.new.shards) }
{
    let resource = snapshot_resource(&key.snapshotter, &key.name)?;
    let new = hold(leases, alloc, &key.ns, lease, &resource)?;
    match make_object(backends, alloc, &key.snapshotter, number, above) {
        Ok(()) => Ok(()),
        Err(fault) => {
            release(leases, &key.ns, lease, &resource, new);
            Err(fault)
        }
    }
}

/// Adds a snapshot, which the named lease then holds, with its object over its parent's; or
/// nothing at all.
pub(crate) fn grow_snap<S: SnapBackend, B: BlobBackend, I: IngestBackend>(
    records: &mut Records,
    backends: &mut Backends<S, B, I>,
    alloc: Global,
    row: SnapRow,
    above: Option<u64>,
    lease: &Option<Name>,
) -> Result<(), Fault>
    requires fine { adding_snap_fault records.old.tables row ≡ None }
    requires sound { AreTables records.old.tables }
    requires numbered { IsNumberedSnap records.old.tables row }
    requires lease { is_lease_there row.key.ns lease.now records.old.leases ≡ true }
    requires number { has_snap backends.old.shards row.key.snapshotter row.number ≡ false }
    requires above { has_above backends.old.shards row.key.snapshotter above ≡ true }
    ensures tables { OnOk result (records.new.tables ≡ record records.old.tables
        { snapshots = add_row snap_key row records.old.tables.snapshots }) }
    ensures leases { OnOk result (records.new.leases ≡ hold_under row.key.ns lease.now
        (H.Snapshot row.key.snapshotter row.key.name) records.old.leases) }
    ensures numbers { (records.new.next ≡ records.old.next)
        × (records.new.profile ≡ records.old.profile) }
    ensures snapshots { OnOk result (all_snaps backends.new.shards ≡ put_in_order stands_before
        (back_snap row.key.snapshotter (row.number, above)) (all_snaps backends.old.shards)) }
    ensures err { OnErr result ((records.new.tables ≡ records.old.tables) × (records.new.leases
        ≡ records.old.leases) × (all_snaps backends.new.shards ≡ all_snaps backends.old.shards)) }
    ensures others { (backends.new.blobs ≡ backends.old.blobs)
        × (backends.new.ingests ≡ backends.old.ingests) }
    ensures fault { MakesOrFails result (all_failures backends.old.shards)
        (all_failures backends.new.shards) }
{
    let key = row.key.copy()?;
    let number = row.number;
    records.tables.add_snap(alloc, row)?;
    match hold_and_prepare(
        &mut records.leases,
        backends,
        alloc,
        &key,
        lease,
        number,
        above,
    ) {
        Ok(()) => Ok(()),
        Err(fault) => {
            // The row was added above, so it is there, and no child has it.
            let _ = records.tables.remove_snap(&key);
            Err(fault)
        }
    }
}
