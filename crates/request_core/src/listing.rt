//! The rows of a listing, lent as they are stored.
ghost use Rattle.std.specs.Prelude.{◌≡◌, ◌∷◌, [], IfOk, IfErr, None, false, not, option_map, true};
ghost use Rattle.meta_types.specs.Changes.{all_of, has_namespace};
ghost use Rattle.meta_types.specs.Faults.{least_of};
ghost use Rattle.meta_types.specs.Ops.{lacks, least_fault};
ghost use Rattle.meta_types.specs.Ops.Snapshots.{parent_row};
ghost use Rattle.meta_types.specs.Requests.{outcome};
ghost use Rattle.meta_types.specs.Text.{is_short_name};
ghost use Rattle.request_core.specs.Listed.{IsRefusedBy, Lists};

use crate::read::names::{read_ns, read_snapshotter};
use crate::refusal::Refusal;
use crate::state::State;
use back_model::{BlobBackend, IngestBackend, SnapBackend};
use lease_book::Lease;
use meta_types::{
    ContainerRow, ContentRow, Fault, ImageRow, IngestRow, RawText, Request, ShortName, SnapRow,
};
use std::alloc::Global;

/// The rows of a listing, in its order.
#[derive(Drop)]
pub enum ListedRows<'a> {
    Images(Vec<&'a ImageRow>),
    Containers(Vec<&'a ContainerRow>),
    Content(Vec<&'a ContentRow>),
    Ingests(Vec<&'a IngestRow>),
    Snapshots(Vec<&'a SnapRow>),
    Leases(Vec<&'a Lease>),
}

impl<S: SnapBackend, B: BlobBackend, I: IngestBackend> State<S, B, I> {
    /// The rows that a listing names, in its order, or why it is refused; nothing of another
    /// request.
    pub fn rows(&self, alloc: Global, request: &Request) -> Result<Option<ListedRows<'_>>, Fault>
        ensures fault { IfErr result (λ fault. IsRefusedBy fault
            (least_fault (outcome self.now.state request.now))) }
        ensures ok { IfOk result (λ rows. Lists self.now.state request.now rows) }
    {
        match request {
            Request::ImageList { ns } => {
                let ns = self.listed_ns(alloc, ns)?;
                let rows = self.records.tables.images_in(alloc, &ns)?;
                Ok(Some(ListedRows::Images(rows)))
            }
            Request::ContainerList { ns } => {
                let ns = self.listed_ns(alloc, ns)?;
                let rows = self.records.tables.containers_in(alloc, &ns)?;
                Ok(Some(ListedRows::Containers(rows)))
            }
            Request::ContentList { ns } => {
                let ns = self.listed_ns(alloc, ns)?;
                let rows = self.records.tables.content_in(alloc, &ns)?;
                Ok(Some(ListedRows::Content(rows)))
            }
            Request::IngestList { ns } => {
                let ns = self.listed_ns(alloc, ns)?;
                let rows = self.records.tables.ingests_in(alloc, &ns)?;
                Ok(Some(ListedRows::Ingests(rows)))
            }
            Request::SnapList { ns, snapshotter } => {
                let (ns, snapshotter) = self.listed_snapshotter(alloc, ns, snapshotter)?;
                let rows = self.records.tables.snaps_in(alloc, &ns, &snapshotter)?;
                Ok(Some(ListedRows::Snapshots(rows)))
            }
            Request::LeaseList { ns } => {
                let ns = self.listed_ns(alloc, ns)?;
                let rows = self.records.leases.leases_in(alloc, &ns)?;
                Ok(Some(ListedRows::Leases(rows)))
            }
            _ => Ok(None),
        }
    }

    // The namespace of a listing, which is there.
    fn listed_ns(&self, alloc: Global, ns: &RawText) -> Result<ShortName, Fault>
        ensures fault { IfErr result (λ fault. IsRefusedBy fault
            (least_of (not (all_of (is_short_name ns.now ∷ []))) (lacks self.now.state ns.now None)
            false false)) }
        ensures ok { IfOk result (λ read. (read ≡ ns.now) × (is_short_name ns.now ≡ true)
            × (has_namespace self.now.state.records.tables ns.now ≡ true)) }
    {
        match read_ns(alloc, ns) {
            Ok(ns) if self.records.tables.has_ns(&ns) => Ok(ns),
            Ok(_) => Err(Fault::NotFound),
            Err(Refusal::Reading) => Err(Fault::OutOfMemory),
            Err(Refusal::By(fault)) => Err(fault),
        }
    }

    // The namespace of a listing, which is there, and the snapshotter.
    fn listed_snapshotter(
        &self,
        alloc: Global,
        ns: &RawText,
        snapshotter: &RawText,
    ) -> Result<(ShortName, ShortName), Fault>
        ensures fault { IfErr result (λ fault. IsRefusedBy fault
            (least_of (not (all_of (is_short_name ns.now ∷ is_short_name snapshotter.now ∷ [])))
            (lacks self.now.state ns.now None) false false)) }
        ensures ok { IfOk result (λ read. (read.0 ≡ ns.now) × (read.1 ≡ snapshotter.now)
            × (all_of (is_short_name ns.now ∷ is_short_name snapshotter.now ∷ []) ≡ true)
            × (has_namespace self.now.state.records.tables ns.now ≡ true)) }
    {
        match read_snapshotter(alloc, ns, snapshotter) {
            Ok((ns, snapshotter)) if self.records.tables.has_ns(&ns) => Ok((ns, snapshotter)),
            Ok(_) => Err(Fault::NotFound),
            Err(Refusal::Reading) => Err(Fault::OutOfMemory),
            Err(Refusal::By(fault)) => Err(fault),
        }
    }

    /// The number of a snapshot's parent in the backend, if it has a parent.
    pub fn parent_number(&self, row: &SnapRow) -> Option<u64>
        ensures { result ≡ option_map (λ above. above.number)
            (parent_row self.now.state.records.tables.snapshots row.now.key.ns
            row.now.key.snapshotter row.now.parent) }
    {
        self.records.tables.parent_number(row)
    }
}
