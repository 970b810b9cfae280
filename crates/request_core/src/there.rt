//! What a request makes under a lease may be there already: its lease may hold that, too.
ghost use Rattle.std.specs.Prelude.{◌≡◌, ◌⊎◌, IfOk, None, Ok, Some, option_map, true};
ghost use Rattle.std.specs.Option.{option_map_or};
ghost use Rattle.meta_types.specs.Faults.{Refuses};
ghost use Rattle.meta_types.specs.Ops.{least_fault};
ghost use Rattle.meta_types.specs.Requests.{outcome};
ghost use Rattle.meta_types.specs.Shown.{held_by, hold_of, holds_there, object_to_hold, request_done, shown_row};
ghost use Rattle.meta_types.specs.Sound.{IsSound};
ghost use Rattle.meta_types.specs.Text.{is_digest, is_name, is_short_name};
ghost use Rattle.meta_types.specs.declared.fault.Fault.TheVariants as F;
ghost use Rattle.meta_types.specs.declared.object.Object.TheVariants as O;
ghost use Rattle.meta_types.specs.declared.reply.Reply.TheVariants as P;
ghost use Rattle.meta_types.specs.declared.request.Request.TheVariants as R;
ghost use Rattle.meta_types.specs.declared.resource.Resource.TheVariants as H;
ghost use Rattle.request_core.specs.Follows.{Answers};
ghost use Rattle.request_core.specs.Foreseen.{LooksThere, Shows, TellsDone, TellsThere, reply_of, there_of};

use crate::read::names::{read_digest, read_name, read_short_name, read_snapshotter};
use crate::refusal::{Refusal, plain};
use crate::showing::told;
use crate::state::State;
use crate::there_fault::says_there;
use back_model::{BlobBackend, IngestBackend, SnapBackend};
use meta_types::{Fault, LeaseResource, RawName, RawText, Reply, Request, ShownRow, SnapKey};
use std::alloc::Global;

/// What a request came to: its reply, and whether what it makes was there, so that its lease holds
/// it.
#[derive(Drop)]
pub struct Applied {
    pub reply: Reply,
    pub there: bool,
}

/// What the lease of a request is to hold: what that request makes, if it names a lease.
pub fn hold_request<'a>(
    alloc: Global,
    request: &'a Request<'_>,
) -> Result<Option<LeaseResource<'a>>, Fault>
    ensures fault { Refuses result None }
    ensures ok { IfOk result (λ hold. option_map R.LeaseHold hold
        ≡ option_map hold_of (object_to_hold request.now)) }
{
    match request {
        Request::ContentAdd(asked) => {
            Ok(hold_content(&asked.content.ns, &asked.lease, &asked.content.digest))
        }
        Request::IngestCommit(asked) => {
            Ok(hold_content(&asked.ingest.ns, &asked.lease, &asked.digest))
        }
        Request::SnapPrepare(asked) => {
            let at = &asked.snapshot;
            // For the prover: the result is opened, not passed on.
            let hold = hold_snapshot(alloc, &at.ns, &asked.lease, &at.snapshotter, &at.name)?;
            Ok(hold)
        }
        Request::SnapView(asked) => {
            let at = &asked.snapshot;
            // For the prover: the result is opened, not passed on.
            let hold = hold_snapshot(alloc, &at.ns, &asked.lease, &at.snapshotter, &at.name)?;
            Ok(hold)
        }
        Request::SnapCommit(asked) => {
            let at = &asked.snapshot;
            // For the prover: the result is opened, not passed on.
            let hold = hold_snapshot(alloc, &at.ns, &asked.lease, &at.snapshotter, &asked.name)?;
            Ok(hold)
        }
        _ => Ok(None),
    }
}

fn hold_content<'a>(
    ns: &'a RawText<'_>,
    lease: &'a Option<RawText<'_>>,
    digest: &'a RawText<'_>,
) -> Option<LeaseResource<'a>>
    ensures { option_map R.LeaseHold result
        ≡ option_map hold_of (held_by ns.now lease.now (H.Content digest.now)) }
{
    match lease {
        Some(id) => Some(LeaseResource {
            lease: RawName {
                ns: RawText::lent(ns.text()),
                name: RawText::lent(id.text()),
            },
            kind: RawText::lent("content"),
            resource: RawText::lent(digest.text()),
        }),
        None => None,
    }
}

fn hold_snapshot<'a>(
    alloc: Global,
    ns: &'a RawText<'_>,
    lease: &'a Option<RawText<'_>>,
    snapshotter: &'a RawText<'_>,
    name: &'a RawText<'_>,
) -> Result<Option<LeaseResource<'a>>, Fault>
    ensures fault { Refuses result None }
    ensures ok { IfOk result (λ hold. option_map R.LeaseHold hold
        ≡ option_map hold_of (held_by ns.now lease.now (H.Snapshot snapshotter.now name.now))) }
{
    match lease {
        Some(id) => {
            let mut kind = String::from_str(alloc, "snapshots/")?;
            kind.push_str(snapshotter.text())?;
            Ok(Some(LeaseResource {
                lease: RawName {
                    ns: RawText::lent(ns.text()),
                    name: RawText::lent(id.text()),
                },
                kind: RawText::new(kind),
                resource: RawText::lent(name.text()),
            }))
        }
        None => Ok(None),
    }
}

impl<S: SnapBackend, B: BlobBackend, I: IngestBackend> State<S, B, I> {
    /// Answers a request. Where it would be refused since what it makes is there, and `there` is
    /// given, its lease holds that, and nothing else changes.
    pub fn apply_or_hold(
        &mut self,
        alloc: Global,
        request: &Request<'_>,
        there: &Option<RawText<'_>>,
    ) -> Result<Applied, Fault>
        requires { IsSound self.old.state }
        ensures step { Answers self.old (request_done self.old.state request.now there.now)
            (reply_of result) self.new }
        ensures there { IfOk result (λ applied. applied.there
            ≡ holds_there self.old.state request.now there.now) }
        ensures quiet { (reply_of result ≡ Ok P.Done) ⊎ (self.new.state ≡ self.old.state) }
        ensures sound { IsSound self.new.state }
    {
        match self.apply(alloc, request) {
            Ok(reply) => Ok(Applied {
                reply,
                there: false,
            }),
            Err(fault) => {
                if there.is_none() {
                    return Err(fault);
                }
                if !says_there(fault) {
                    return Err(fault);
                }
                let reply = self.hold_there(alloc, request)?;
                Ok(Applied { reply, there: true })
            }
        }
    }

    // Has the lease of a request hold what the request makes, which is there.
    fn hold_there(&mut self, alloc: Global, request: &Request<'_>) -> Result<Reply, Fault>
        requires sound { IsSound self.old.state }
        requires there { least_fault (outcome self.old.state request.now) ≡ Some F.AlreadyExists }
        ensures step { Answers self.old
            (option_map_or hold_of (object_to_hold request.now) request.now) result self.new }
        ensures quiet { (result ≡ Ok P.Done) ⊎ (self.new.state ≡ self.old.state) }
        ensures sound { IsSound self.new.state }
    {
        let hold = hold_request(alloc, request)?;
        match hold {
            Some(hold) => plain(self.lease_hold(alloc, &hold)),
            None => Err(Fault::AlreadyExists),
        }
    }

    /// The row as it will be once `apply_or_hold` is done, if there is one and no fault refuses it.
    pub fn show_or_there(
        &self,
        alloc: Global,
        request: &Request<'_>,
        there: &Option<RawText<'_>>,
    ) -> Result<Option<ShownRow>, Fault>
        requires { IsSound self.now.state }
        ensures fault { Refuses result None }
        ensures ok { IfOk result (λ shown. TellsDone self.now.state request.now there.now shown) }
    {
        if there.is_none() {
            let shown = self.show(alloc, request)?; // for the prover: opened
            return Ok(shown);
        }
        let found = self.show_there(alloc, request)?;
        match found {
            Some(row) => Ok(Some(row)),
            None => {
                // For the prover: the result is opened, not passed on.
                let made = self.show(alloc, request)?;
                Ok(made)
            }
        }
    }

    // The row that is there of what a request makes under a lease.
    fn show_there(&self, alloc: Global, request: &Request<'_>) -> Result<Option<ShownRow>, Fault>
        ensures fault { Refuses result None }
        ensures ok { IfOk result (λ shown. TellsThere self.now.state request.now shown) }
    {
        told(self.look_there(alloc, request))
    }

    // The same, as its texts are read.
    fn look_there(&self, alloc: Global, request: &Request<'_>) -> Result<Option<ShownRow>, Refusal>
        ensures { LooksThere self.now.state request.now result }
    {
        match request {
            Request::ContentAdd(asked) => {
                self.content_there(
                    alloc,
                    &asked.lease,
                    &asked.content.ns,
                    &asked.content.digest,
                )
            }
            Request::IngestCommit(asked) => {
                self.content_there(alloc, &asked.lease, &asked.ingest.ns, &asked.digest)
            }
            Request::SnapPrepare(asked) => {
                let at = &asked.snapshot;
                self.snapshot_there(alloc, &asked.lease, &at.ns, &at.snapshotter, &at.name)
            }
            Request::SnapView(asked) => {
                let at = &asked.snapshot;
                self.snapshot_there(alloc, &asked.lease, &at.ns, &at.snapshotter, &at.name)
            }
            Request::SnapCommit(asked) => {
                let at = &asked.snapshot;
                self.snapshot_there(alloc, &asked.lease, &at.ns, &at.snapshotter, &asked.name)
            }
            _ => Ok(None),
        }
    }

    // Content that is there, where a lease is named.
    fn content_there(
        &self,
        alloc: Global,
        lease: &Option<RawText<'_>>,
        ns: &RawText<'_>,
        digest: &RawText<'_>,
    ) -> Result<Option<ShownRow>, Refusal>
        ensures { (is_short_name ns.now ≡ true) × (is_digest digest.now ≡ true)
            → Shows (there_of self.now.state (held_by ns.now lease.now (H.Content digest.now)))
            result }
    {
        match lease {
            Some(_) => self.look_content(alloc, ns, digest),
            None => Ok(None),
        }
    }

    fn look_content(
        &self,
        alloc: Global,
        ns: &RawText<'_>,
        digest: &RawText<'_>,
    ) -> Result<Option<ShownRow>, Refusal>
        ensures { (is_short_name ns.now ≡ true) × (is_digest digest.now ≡ true)
            → Shows (shown_row self.now.state ns.now (O.Held (H.Content digest.now))) result }
    {
        let ns = read_short_name(alloc, ns)?;
        let digest = read_digest(alloc, digest)?;
        // For the prover: the result is opened, not passed on.
        let shown = self.found_content(alloc, &ns, &digest)?;
        Ok(shown)
    }

    // A snapshot that is there, where a lease is named.
    fn snapshot_there(
        &self,
        alloc: Global,
        lease: &Option<RawText<'_>>,
        ns: &RawText<'_>,
        snapshotter: &RawText<'_>,
        name: &RawText<'_>,
    ) -> Result<Option<ShownRow>, Refusal>
        ensures { (is_short_name ns.now ≡ true) × (is_short_name snapshotter.now ≡ true)
            × (is_name name.now ≡ true)
            → Shows (there_of self.now.state
            (held_by ns.now lease.now (H.Snapshot snapshotter.now name.now))) result }
    {
        match lease {
            Some(_) => self.look_snapshot(alloc, ns, snapshotter, name),
            None => Ok(None),
        }
    }

    fn look_snapshot(
        &self,
        alloc: Global,
        ns: &RawText<'_>,
        snapshotter: &RawText<'_>,
        name: &RawText<'_>,
    ) -> Result<Option<ShownRow>, Refusal>
        ensures { (is_short_name ns.now ≡ true) × (is_short_name snapshotter.now ≡ true)
            × (is_name name.now ≡ true)
            → Shows (shown_row self.now.state ns.now
            (O.Held (H.Snapshot snapshotter.now name.now))) result }
    {
        let (ns, snapshotter) = read_snapshotter(alloc, ns, snapshotter)?;
        let name = read_name(alloc, name)?;
        let key = SnapKey {
            ns,
            snapshotter,
            name,
        };
        // For the prover: the result is opened, not passed on.
        let shown = self.found_snapshot(alloc, &key)?;
        Ok(shown)
    }
}
