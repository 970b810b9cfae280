//! Requests and removals to a store that keeps no history: it asks for no texts of its own, and
//! there is no entry.
ghost use Rattle.std.specs.Prelude.{◌≡◌, ◌⊎◌, ◌+◌, ◌<◌, Ok, IfOk, IfErr};
ghost use Rattle.meta_types.specs.Steps.{requested, remove_collect, remove_collect_fault};
ghost use Rattle.meta_types.specs.Ops.{least_fault};
ghost use Rattle.meta_types.specs.Requests.{outcome};
ghost use Rattle.meta_types.specs.Rows.{State as Stored};
ghost use Rattle.meta_types.specs.Shown.{holds_there, request_done};
ghost use Rattle.meta_types.specs.Sound.{IsSound};
ghost use Rattle.meta_types.specs.declared.reply.Reply.TheVariants as P;
ghost use Rattle.request_core.specs.Follows.{Answers, Fails};
ghost use Rattle.request_core.specs.Foreseen.{reply_of};
ghost use Rattle.collection.specs.Refused.{CollectFails};
ghost use Rattle.store_front.specs.KeptAnswers.{kept_reply, kept_report, Takes, reply_failures, report_failures};

use crate::calls::call_resources::CallResources;
use crate::calls::collect::run_removal;
use crate::event::room::report_alone;
use crate::history_mode::WithoutHistory;
use crate::locked::Locked;
use crate::session::Session;
use crate::store::Store;
use back_model::{BlobBackend, IngestBackend, SnapBackend};
use backend_sweep::SweepGate;
use gc_report::Report;
use meta_types::{Fault, Instant, RawText, Removal, Reply, Request};
use request_core::Applied;
use std::alloc::Global;
use std::sync::Wait;
use std::sync::ledger::Ledger;
use std::thread::Threads;
use steal_mark::Gate;

impl<L: Ledger, S: SnapBackend, B: BlobBackend, I: IngestBackend> Locked<
    L,
    S,
    B,
    I,
    WithoutHistory,
> {
    /// Answers a request.
    pub fn apply(
        &mut self,
        alloc: Global,
        session: &mut Session<L>,
        request: &Request<'_>,
    ) -> Result<Reply, Fault>
        requires { session.old.number < self.old.opened }
        ensures step { Takes self.old.store.state (requested request.now) (kept_reply result)
            self.new.store.state }
        ensures fault { IfErr result (λ f. Fails f
            (least_fault (outcome self.old.store.state request.now))) }
        ensures log { self.new.log ≡ self.old.log }
        ensures list { session.new.list ≡ session.old.list }
        ensures number { session.new.number ≡ session.old.number }
        ensures base { self.new.base ≡ self.old.base }
        ensures opened { self.new.opened ≡ self.old.opened }
        ensures failures { self.new.store.failures
            ≡ self.old.store.failures + reply_failures result }
    {
        self.state.apply(alloc, request)
    }

    /// Answers a request. Where it would be refused since what it makes is there, and `there` is
    /// given, its lease holds that, and nothing else changes.
    pub fn apply_or_hold(
        &mut self,
        alloc: Global,
        request: &Request<'_>,
        there: &Option<RawText<'_>>,
    ) -> Result<Applied, Fault>
        ensures step { Answers self.old.store
            (request_done self.old.store.state request.now there.now) (reply_of result)
            self.new.store }
        ensures there { IfOk result (λ applied. applied.there
            ≡ holds_there self.old.store.state request.now there.now) }
        ensures quiet { (reply_of result ≡ Ok P.Done)
            ⊎ (self.new.store.state ≡ self.old.store.state) }
        ensures log { self.new.log ≡ self.old.log }
        ensures base { self.new.base ≡ self.old.base }
        ensures opened { self.new.opened ≡ self.old.opened }
    {
        self.state.apply_or_hold(alloc, request, there)
    }

    /// Removes an image or a lease and collects, with the refusals of a collection. Graph and plan
    /// are made of records without the row.
    pub fn remove_collect<R: Threads + Wait + Sync, G: Gate, H: SweepGate>(
        &mut self,
        rt: &R,
        alloc: Global,
        session: &mut Session<L>,
        removal: &Removal<'_>,
        at: Instant,
        workers: usize,
        gate: &G,
        sweep_gate: &H,
    ) -> Result<Report, Fault>
        requires { session.old.number < self.old.opened }
        ensures step { Takes self.old.store.state (remove_collect removal.now at.0 workers)
            (kept_report result) self.new.store.state }
        ensures fault { IfErr result (λ f. CollectFails f
            (remove_collect_fault self.old.store.state removal.now workers)) }
        ensures log { self.new.log ≡ self.old.log }
        ensures list { session.new.list ≡ session.old.list }
        ensures number { session.new.number ≡ session.old.number }
        ensures base { self.new.base ≡ self.old.base }
        ensures opened { self.new.opened ≡ self.old.opened }
        ensures failures { self.new.store.failures
            ≡ self.old.store.failures + report_failures result }
    {
        let resources = CallResources {
            rt,
            alloc,
            workers,
            gate,
            sweep_gate,
        };
        let reports = run_removal(&resources, &mut self.state, removal, at);
        report_alone(reports)
    }
}

impl<L: Ledger, S: SnapBackend, B: BlobBackend, I: IngestBackend> Store<
    L,
    S,
    B,
    I,
    WithoutHistory,
> {
    /// Answers a request, of a sound store: the one that was there when the lock was taken.
    pub fn call(
        &self,
        rt: &impl Wait,
        alloc: Global,
        session: &mut Session<L>,
        request: &Request<'_>,
    ) -> Result<Reply, Fault>
        ensures step { (old : Stored) × (new : Stored) × IsSound old
            × Takes old (requested request.now) (kept_reply result) new
            × IfErr result (λ f. Fails f (least_fault (outcome old request.now))) }
        ensures list { session.new.list ≡ session.old.list }
        ensures number { session.new.number ≡ session.old.number }
    {
        let mut guard = self.inner.lock(rt);
        let locked = &mut *guard;
        // For the prover: the session is one of this store.
        locked.admit(session);
        locked.apply(alloc, session, request)
    }

    /// Removes an image or a lease and collects, as `Locked::remove_collect`.
    pub fn remove_collect<R: Threads + Wait + Sync, G: Gate, H: SweepGate>(
        &self,
        rt: &R,
        alloc: Global,
        session: &mut Session<L>,
        removal: &Removal<'_>,
        at: Instant,
        workers: usize,
        gate: &G,
        sweep_gate: &H,
    ) -> Result<Report, Fault>
        ensures step { (old : Stored) × (new : Stored) × IsSound old
            × Takes old (remove_collect removal.now at.0 workers) (kept_report result) new
            × IfErr result (λ f. CollectFails f (remove_collect_fault old removal.now workers)) }
        ensures list { session.new.list ≡ session.old.list }
        ensures number { session.new.number ≡ session.old.number }
    {
        let mut guard = self.inner.lock(rt);
        let locked = &mut *guard;
        // For the prover: the session is one of this store.
        locked.admit(session);
        locked.remove_collect(rt, alloc, session, removal, at, workers, gate, sweep_gate)
    }
}
