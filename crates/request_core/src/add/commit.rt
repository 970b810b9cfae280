//! A commit of a snapshot, which happens whole or not at all.
ghost use Rattle.std.specs.Prelude.{◌≡◌, true, None, OnOk, OnErr, IfOk, Err};
ghost use Rattle.meta_types.specs.Ops.Snapshots.{committed};
ghost use Rattle.meta_types.specs.Changes.{hold_under};
ghost use Rattle.meta_types.specs.declared.fault.Fault.TheVariants as F;
ghost use Rattle.meta_types.specs.declared.resource.Resource.TheVariants as H;
ghost use Rattle.object_tables.specs.Calls.{committing_fault};
ghost use Rattle.request_core.specs.Parts.{is_lease_there};

use crate::add::content::{hold, release};
use crate::row_parts::RowParts;
use crate::state::Records;
use meta_types::{Fault, Name, Resource, ShortName, SnapKey};
use std::alloc::Global;

/// The resource of a snapshot.
pub(crate) fn snapshot_resource(snapshotter: &ShortName, name: &Name) -> Result<Resource, Fault>
    ensures ok { IfOk result (λ resource. resource ≡ H.Snapshot snapshotter.now name.now) }
    ensures err { OnErr result (result ≡ Err F.OutOfMemory) }
{
    let snapshotter = snapshotter.copy()?;
    let name = name.copy()?;
    Ok(Resource::Snapshot(snapshotter, name))
}

/// Commits a snapshot, which the named lease then holds; or nothing at all.
pub(crate) fn grow_commit(
    records: &mut Records,
    alloc: Global,
    key: &SnapKey,
    name: Name,
    parts: RowParts,
    lease: &Option<Name>,
) -> Result<(), Fault>
    requires lease { is_lease_there key.now.ns lease.now records.old.leases ≡ true }
    requires fine { committing_fault key.now.ns key.now.snapshotter key.now.name name
        records.old.tables.snapshots ≡ None }
    ensures tables { OnOk result (records.new.tables ≡ record records.old.tables {
      snapshots = committed key.now.ns key.now.snapshotter key.now.name name parts.labels
          parts.extra records.old.tables.snapshots;
    }) }
    ensures leases { OnOk result
        (records.new.leases ≡ hold_under key.now.ns lease.now (H.Snapshot key.now.snapshotter name)
        records.old.leases) }
    ensures err { OnErr result ((result ≡ Err F.OutOfMemory)
        × (records.new.tables ≡ records.old.tables)
        × (records.new.leases ≡ records.old.leases)) }
    ensures numbers { (records.new.next ≡ records.old.next)
        × (records.new.profile ≡ records.old.profile) }
{
    let resource = snapshot_resource(&key.snapshotter, &name)?;
    let new = hold(&mut records.leases, alloc, &key.ns, lease, &resource)?;
    let labels = parts.labels;
    let extra = parts.extra;
    match records.tables.commit_snap(alloc, key, name, labels, extra) {
        Ok(()) => Ok(()),
        Err(fault) => {
            release(&mut records.leases, &key.ns, lease, &resource, new);
            Err(fault)
        }
    }
}
