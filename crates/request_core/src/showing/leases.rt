//! The rows of requests on leases.
#![tactic(auto, unfolding(crate::specs::Foreseen::ShowsRow))]

ghost use Rattle.std.specs.Prelude.{◌≡◌, IfOk, None};
ghost use Rattle.meta_types.specs.Faults.{Refuses};
ghost use Rattle.meta_types.specs.declared.request.Request.TheVariants as R;
ghost use Rattle.request_core.specs.Foreseen.{ShowsRow};

use crate::read::names::read_object;
use crate::read::rows::read_lease;
use crate::read::updates::make_parts;
use crate::refusal::Refusal;
use crate::showing::plain;
use crate::state::State;
use back_model::{BlobBackend, IngestBackend, SnapBackend};
use lease_book::Lease;
use meta_types::{Fault, LeaseAdd, Name, RawLabel, RawName, ReplyRow, RowUpdate, ShownRow};
use std::alloc::Global;

impl<S: SnapBackend, B: BlobBackend, I: IngestBackend> State<S, B, I> {
    pub(crate) fn show_lease_add(
        &self,
        alloc: Global,
        asked: &LeaseAdd,
    ) -> Result<Option<ShownRow>, Refusal>
        ensures { ShowsRow self.now.state (R.LeaseAdd asked.now) result }
    {
        let (ns, id, parts) = read_lease(alloc, asked)?;
        // The row doesn't name its namespace.
        let _ns = ns;
        Ok(plain(ReplyRow::Lease(id, parts.labels, parts.extra)))
    }

    pub(crate) fn show_lease_set(
        &self,
        alloc: Global,
        lease: &RawName,
        update: &RowUpdate,
    ) -> Result<Option<ShownRow>, Refusal>
        ensures { ShowsRow self.now.state (R.LeaseSet lease.now update.now) result }
    {
        let (ns, id) = read_object(alloc, lease)?;
        let found = self.records.leases.get(&ns, &id);
        let (labels, extra) = make_parts(alloc, update, found)?;
        let Some(row) = found else {
            return Ok(None);
        };
        let id = own_id(row)?;
        Ok(plain(ReplyRow::Lease(id, labels, extra)))
    }

    pub(crate) fn show_lease_get(
        &self,
        alloc: Global,
        lease: &RawName,
    ) -> Result<Option<ShownRow>, Refusal>
        ensures { ShowsRow self.now.state (R.LeaseGet lease.now) result }
    {
        let (ns, id) = read_object(alloc, lease)?;
        let Some(row) = self.records.leases.get(&ns, &id) else {
            return Ok(None);
        };
        let id = own_id(row)?;
        let labels = row.labels().copy(alloc)?;
        let extra = row.extra().copy()?;
        Ok(plain(ReplyRow::Lease(id, labels, extra)))
    }

    pub(crate) fn show_lease_label(
        &self,
        alloc: Global,
        lease: &RawName,
        label: &RawLabel,
    ) -> Result<Option<ShownRow>, Refusal>
        ensures { ShowsRow self.now.state (R.LeaseLabel lease.now label.now) result }
    {
        let (ns, id) = read_object(alloc, lease)?;
        let Some(row) = self.records.leases.get(&ns, &id) else {
            return Ok(None);
        };
        let id = own_id(row)?;
        let mut labels = row.labels().copy(alloc)?;
        labels.put(alloc, label.key.text(), label.value.text())?;
        let extra = row.extra().copy()?;
        Ok(plain(ReplyRow::Lease(id, labels, extra)))
    }
}

// The id of a lease.
fn own_id(row: &Lease) -> Result<Name, Fault>
    ensures fault { Refuses result None }
    ensures ok { IfOk result (λ id. id ≡ row.now.id) }
{
    Ok(row.id().copy()?)
}
