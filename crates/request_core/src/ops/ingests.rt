//! Requests on ingests: begin, open, commit, look up, abort.
#![tactic(auto, unfolding(crate::specs::Follows::AnswersExactly))]

ghost use Rattle.meta_types.specs.declared.request.Request.TheVariants as R;
ghost use Rattle.std.specs.Prelude.{◌≡◌, ◌≤◌, ◌∷◌, [], true, false, OnOk, OnErr, Err, option_map};
ghost use Rattle.std.specs.Option.{option_map_or};
ghost use Rattle.meta_types.specs.Keys.{has_row, change_row};
ghost use Rattle.meta_types.specs.Rows.{content_key, ingest_key};
ghost use Rattle.meta_types.specs.Changes.{has_namespace, holding, with_ingests};
ghost use Rattle.meta_types.specs.Limits.{is_out_of_numbers};
ghost use Rattle.meta_types.specs.Ops.{lacks};
ghost use Rattle.meta_types.specs.Ops.Ingests.{expects_another, later_end};
ghost use Rattle.meta_types.specs.declared.fault.Fault.TheVariants as F;
ghost use Rattle.meta_types.specs.declared.resource.Resource.TheVariants as H;
ghost use Rattle.object_tables.specs.Edits.{ingest_until};
ghost use Rattle.meta_types.specs.Faults.{OnlyRefuses, least_of};
ghost use Rattle.meta_types.specs.Sound.{IsSound};
ghost use Rattle.back_model.specs.Objects.{has_number};
ghost use Rattle.request_core.specs.Follows.{AnswersExactly};
ghost use Rattle.request_core.specs.Parts.{ingest_commit_fault, is_lease_there};

use crate::add::content::{drop_from, hold, insert_content};
use crate::add::ingest::{grow_ingest, ingest_resource};
use crate::read::names::{read_ingest_to_abort, read_object};
use crate::read::rows::{read_begin, read_ingest_commit};
use crate::refusal::Refusal;
use crate::state::State;
use back_model::{BlobBackend, IngestBackend, SnapBackend};
use meta_types::{
    Digest, Fault, IngestBegin, IngestCommit, IngestRow, Instant, MAX_NUMBER, Name, RawName,
    RawText, Reply, ReplyRow, ShortName,
};
use std::alloc::Global;

impl<S: SnapBackend, B: BlobBackend, I: IngestBackend> State<S, B, I> {
    // The next number. It shows a proof that no ingest of the backend has it.
    fn free_number(&self) -> u64
        requires { IsSound self.now.state }
        ensures next { result ≡ self.now.state.records.next }
        ensures free { has_number result self.now.state.backends.ingests ≡ false }
    {
        self.records.next
    }

    // The least fault of a beginning; never OutOfMemory.
    fn check_begin(&self, ns: &ShortName, name: &Name, lease: &Option<Name>) -> Result<(), Fault>
        ensures fault { OnlyRefuses result (least_of false (lacks self.now.state ns.now lease.now)
            (has_row ingest_key (ns.now ∷ name.now ∷ []) self.now.state.records.tables.ingests)
            (is_out_of_numbers self.now.state)) }
        ensures ns { OnOk result (has_namespace self.now.state.records.tables ns.now ≡ true) }
        ensures lease { OnOk result
            (is_lease_there ns.now lease.now self.now.state.records.leases ≡ true) }
        ensures free { OnOk result (has_row ingest_key (ns.now ∷ name.now ∷ [])
            self.now.state.records.tables.ingests ≡ false) }
        ensures few { OnOk result (self.now.state.records.next ≤ 4000000000) }
    {
        if self.lacks(ns, lease) {
            return Err(Fault::NotFound);
        }
        if self.records.tables.has_ingest(ns, name) {
            return Err(Fault::AlreadyExists);
        }
        if self.records.next > MAX_NUMBER {
            return Err(Fault::FailedPrecondition);
        }
        Ok(())
    }

    pub(crate) fn ingest_begin(
        &mut self,
        alloc: Global,
        asked: &IngestBegin,
    ) -> Result<Reply, Refusal>
        requires { IsSound self.old.state }
        ensures { AnswersExactly self.old (R.IngestBegin asked.now) result self.new }
    {
        let (ns, name, expires, expected, lease, extra) = read_begin(alloc, asked)?;
        if let Err(fault) = self.check_begin(&ns, &name, &lease) {
            return Err(Refusal::By(fault));
        }
        let number = self.free_number();
        let row = IngestRow {
            ns,
            name,
            expected,
            expires,
            number,
            extra,
        };
        grow_ingest(&mut self.records, &mut self.backends, alloc, row, &lease)?;
        self.records.next += 1;
        Ok(Reply::Done)
    }

    // Goes on with an ingest that is there: another end, and the lease that is named holds it.
    fn reopen(
        &mut self,
        alloc: Global,
        ns: &ShortName,
        name: &Name,
        expires: Option<Instant>,
        lease: &Option<Name>,
    ) -> Result<(), Fault>
        requires { is_lease_there ns.now lease.now self.old.state.records.leases ≡ true }
        ensures ok { OnOk result (self.new ≡ record self.old {
          state = holding ns.now lease.now
              (H.Ingest name.now) (with_ingests self.old.state (change_row ingest_key
              (ns.now ∷ name.now ∷ []) (ingest_until expires)
              self.old.state.records.tables.ingests));
        }) }
        ensures err { OnErr result ((result ≡ Err F.OutOfMemory) × (self.new ≡ self.old)) }
    {
        let resource = ingest_resource(name)?;
        hold(&mut self.records.leases, alloc, ns, lease, &resource)?;
        // The caller found the ingest, so it is there.
        let _ = self.records.tables.set_ingest_end(ns, name, expires);
        Ok(())
    }

    pub(crate) fn ingest_open(
        &mut self,
        alloc: Global,
        asked: &IngestBegin,
    ) -> Result<Reply, Refusal>
        requires { IsSound self.old.state }
        ensures { AnswersExactly self.old (R.IngestOpen asked.now) result self.new }
    {
        let (ns, name) = read_object(alloc, &asked.ingest)?;
        if !self.records.tables.has_ingest(&ns, &name) {
            return self.ingest_begin(alloc, asked);
        }
        let (ns, name, expires, expected, lease, extra) = read_begin(alloc, asked)?;
        // The row's own data stays.
        let _extra = extra;
        if self.lacks(&ns, &lease) {
            return Err(Refusal::By(Fault::NotFound));
        }
        let Some(row) = self.records.tables.get_ingest(&ns, &name) else {
            return Err(Refusal::By(Fault::NotFound));
        };
        if expects_another(&expected, row) {
            return Err(Refusal::By(Fault::FailedPrecondition));
        }
        let expires = reopened_end(expires, row);
        self.reopen(alloc, &ns, &name, expires, &lease)?;
        Ok(Reply::Done)
    }

    pub(crate) fn ingest_abort(
        &mut self,
        alloc: Global,
        ingest: &RawName,
        dropped_by: &Option<RawText>,
    ) -> Result<Reply, Refusal>
        ensures { AnswersExactly self.old (R.IngestAbort ingest.now dropped_by.now) result
            self.new }
    {
        let (ns, name, dropped_by) = read_ingest_to_abort(alloc, ingest, dropped_by)?;
        let Ok(resource) = ingest_resource(&name) else {
            return Err(Refusal::Reading);
        };
        self.records.tables.remove_ingest(&ns, &name)?;
        drop_from(&mut self.records.leases, &ns, &dropped_by, &resource);
        Ok(Reply::Done)
    }

    pub(crate) fn ingest_get(&mut self, alloc: Global, ingest: &RawName) -> Result<Reply, Refusal>
        ensures { AnswersExactly self.old (R.IngestGet ingest.now) result self.new }
    {
        let (ns, name) = read_object(alloc, ingest)?;
        match self.records.tables.get_ingest(&ns, &name) {
            Some(row) => Ok(Reply::Row(ReplyRow::Ingest(row.copy()?))),
            None => Err(Refusal::By(Fault::NotFound)),
        }
    }

    // The least fault of a commit; never OutOfMemory.
    fn check_ingest_commit(
        &self,
        ns: &ShortName,
        name: &Name,
        digest: &Digest,
        lease: &Option<Name>,
    ) -> Result<(), Fault>
        ensures fault { OnlyRefuses result
            (ingest_commit_fault self.now.state ns.now name.now digest.now lease.now) }
        ensures ns { OnOk result (has_namespace self.now.state.records.tables ns.now ≡ true) }
        ensures lease { OnOk result
            (is_lease_there ns.now lease.now self.now.state.records.leases ≡ true) }
        ensures free { OnOk result (has_row content_key (ns.now ∷ digest.now ∷ [])
            self.now.state.records.tables.content ≡ false) }
    {
        if self.lacks(ns, lease) {
            return Err(Fault::NotFound);
        }
        let Some(row) = self.records.tables.get_ingest(ns, name) else {
            return Err(Fault::NotFound);
        };
        if self.records.tables.has_content(ns, digest) {
            return Err(Fault::AlreadyExists);
        }
        match &row.expected {
            Some(expected) if *expected != *digest => Err(Fault::FailedPrecondition),
            _ => Ok(()),
        }
    }

    pub(crate) fn ingest_commit(
        &mut self,
        alloc: Global,
        asked: &IngestCommit,
    ) -> Result<Reply, Refusal>
        ensures { AnswersExactly self.old (R.IngestCommit asked.now) result self.new }
    {
        let (ns, name, digest, parts, holders) = read_ingest_commit(alloc, asked)?;
        let lease = holders.lease;
        let dropped_by = holders.dropped_by;
        if let Err(fault) = self.check_ingest_commit(&ns, &name, &digest, &lease) {
            return Err(Refusal::By(fault));
        }
        let resource = ingest_resource(&name)?;
        insert_content(
            &mut self.records,
            &mut self.backends,
            alloc,
            &ns,
            &digest,
            parts,
            &lease,
        )?;
        // The checks found the ingest, so it is there.
        let _ = self.records.tables.remove_ingest(&ns, &name);
        drop_from(&mut self.records.leases, &ns, &dropped_by, &resource);
        Ok(Reply::Done)
    }
}

// Whether another digest is expected than the one that the ingest was begun for.
fn expects_another(expected: &Option<Digest>, row: &IngestRow) -> bool
    ensures { result ≡ expects_another expected.now row.now }
{
    match (expected, &row.expected) {
        (Some(digest), Some(other)) => *digest != *other,
        (Some(_), None) => true,
        (None, _) => false,
    }
}

fn later_end(one: Instant, other: Instant) -> Instant
    ensures { result ≡ later_end one other }
{
    if one.0 < other.0 { other } else { one }
}

// The end of an ingest that is opened again: one with an end of its own ends at the later of both.
pub(crate) fn reopened_end(end: Option<Instant>, row: &IngestRow) -> Option<Instant>
    ensures { result ≡ option_map (λ expiry. option_map_or (later_end expiry) end expiry)
        row.now.expires }
{
    match (row.expires, end) {
        (Some(expiry), Some(end)) => Some(later_end(expiry, end)),
        (Some(expiry), None) => Some(expiry),
        (None, _) => None,
    }
}
