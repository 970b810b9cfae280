//! A store that many threads may use.
ghost use Rattle.std.specs.Prelude.{◌≡◌, ◌↔◌, ℕ, List, [], Err, None, IfOk, IfErr, OnOk, OnErr, All, map, false};
ghost use Rattle.meta_types.specs.Faults.{Refuses};
ghost use Rattle.meta_types.specs.Limits.{is_worker_count};
ghost use Rattle.meta_types.specs.Ops.{least_fault};
ghost use Rattle.meta_types.specs.Requests.{outcome};
ghost use Rattle.meta_types.specs.Rows.{State as Stored};
ghost use Rattle.meta_types.specs.Sound.{IsSound};
ghost use Rattle.meta_types.specs.Histories.{Entry};
ghost use Rattle.meta_types.specs.Steps.{requested, collect, collect_fault, remove_collect, remove_collect_fault};
ghost use Rattle.meta_types.specs.declared.fault.Fault.TheVariants.{InvalidArgument, FailedPrecondition};
ghost use Rattle.request_core.specs.Follows.{Fails};
ghost use Rattle.collection.specs.Refused.{CollectFails};
ghost use Rattle.store_front.specs.KeptAnswers.{kept_if, kept_reply, kept_report, Takes, list_after};
ghost use Rattle.store_front.specs.Finish.{IsHistory, AreOfThese, CutFails, FinishFails, fresh};
ghost use Rattle.store_front.specs.Parts.{IsPart, part};

use crate::history::base::History;
use crate::history_mode::{HistoryMode, WithHistory, WithoutHistory};
use crate::locked::Locked;
use crate::session::Session;
use back_model::{BlobBackend, IngestBackend, MemBackend, MemBlobs, MemIngests, SnapBackend};
use backend_sweep::SweepGate;
use gc_report::Report;
use meta_types::{Fault, Instant, Removal, Reply, Request};
use request_core::State;
use std::alloc::Global;
use std::sync::ledger::{Blank, Ledger};
use std::sync::{Mutex, Wait};
use std::thread::Threads;
use steal_mark::Gate;

/// A store behind its lock. Each call holds the lock until it is answered.
#[derive(Drop)]
pub struct Store<
    L: Ledger,
    S: SnapBackend = MemBackend,
    B: BlobBackend = MemBlobs,
    I: IngestBackend = MemIngests,
    K: HistoryMode = WithHistory,
> {
    pub(crate) inner: Mutex<Locked<L, S, B, I, K>>,
}

impl<L: Ledger, S: SnapBackend, B: BlobBackend, I: IngestBackend> Store<L, S, B, I> {
    /// A store over this state, with no entry and no session. The blank has 65,536 parts.
    pub fn new(
        alloc: Global,
        blank: Blank,
        state: State<S, B, I>,
    ) -> Result<Store<L, S, B, I>, Fault>
        requires sound { IsSound state.state }
        requires name { blank.name ≡ L.name }
        requires parts { (blank.parts ≡ L.parts) × (blank.parts ≡ 65536) }
        ensures { Refuses result None }
    {
        Ok(Store {
            inner: Mutex::new(Locked::open(alloc, blank, state)?),
        })
    }
}

impl<L: Ledger, S: SnapBackend, B: BlobBackend, I: IngestBackend> Store<
    L,
    S,
    B,
    I,
    WithoutHistory,
> {
    /// A store over this state that keeps no history, with no session. It takes no memory. The
    /// blank has 65,536 parts.
    pub fn new_without_history(
        alloc: Global,
        blank: Blank,
        state: State<S, B, I>,
    ) -> Store<L, S, B, I, WithoutHistory>
        requires sound { IsSound state.state }
        requires name { blank.name ≡ L.name }
        requires parts { (blank.parts ≡ L.parts) × (blank.parts ≡ 65536) }
    {
        Store {
            inner: Mutex::new(Locked::open_without_history(alloc, blank, state)),
        }
    }
}

impl<L: Ledger, S: SnapBackend, B: BlobBackend, I: IngestBackend, K: HistoryMode> Store<
    L,
    S,
    B,
    I,
    K,
> {
    /// A new session, refused where as many are open as may be.
    pub fn session(&self, rt: &impl Wait, alloc: Global) -> Result<Session<L>, Fault>
        ensures ok { IfOk result (λ s. s.list ≡ []) }
        ensures fault { IfErr result (λ f. f ≡ FailedPrecondition) }
    {
        self.inner.lock(rt).session(alloc)
    }

    /// Collects, or with `dry` only reports, as `Locked::collect`.
    pub fn collect<R: Threads + Wait + Sync, G: Gate, H: SweepGate>(
        &self,
        rt: &R,
        alloc: Global,
        session: &mut Session<L>,
        at: Instant,
        dry: bool,
        workers: usize,
        gate: &G,
        sweep_gate: &H,
    ) -> Result<Report, Fault>
        ensures step { (old : Stored) × (new : Stored) × IsSound old
            × Takes old (collect at.0 dry workers) (kept_report result) new
            × IfErr result (λ f. CollectFails f (collect_fault old.records workers)) }
        ensures list { session.new.list ≡ list_after session.old.list (collect at.0 dry workers)
            (kept_if K.KEPT (kept_report result)) }
        ensures number { session.new.number ≡ session.old.number }
    {
        let mut guard = self.inner.lock(rt);
        let locked = &mut *guard;
        // For the prover: the session is one of this store.
        locked.admit(session);
        locked.collect(rt, alloc, session, at, dry, workers, gate, sweep_gate)
    }
}

impl<L: Ledger, S: SnapBackend, B: BlobBackend, I: IngestBackend> Store<L, S, B, I> {
    /// Answers a request, of a sound store: the one that was there when the lock was taken. The
    /// session's list has it with its answer, where it is an entry.
    pub fn call(
        &self,
        rt: &impl Wait,
        alloc: Global,
        session: &mut Session<L>,
        request: Request<'static>,
    ) -> Result<Reply, Fault>
        ensures step { (old : Stored) × (new : Stored) × IsSound old
            × Takes old (requested request.entry) (kept_reply result) new
            × IfErr result (λ f. Fails f (least_fault (outcome old request.entry))) }
        ensures list { session.new.list ≡ list_after session.old.list (requested request.entry)
            (kept_reply result) }
        ensures number { session.new.number ≡ session.old.number }
    {
        let mut guard = self.inner.lock(rt);
        let locked = &mut *guard;
        // For the prover: the session is one of this store.
        locked.admit(session);
        locked.apply(alloc, session, request)
    }

    /// Removes an image or a lease and collects, as `Locked::remove_collect`.
    pub fn remove_collect<R: Threads + Wait + Sync, G: Gate, H: SweepGate>(
        &self,
        rt: &R,
        alloc: Global,
        session: &mut Session<L>,
        removal: Removal<'static>,
        at: Instant,
        workers: usize,
        gate: &G,
        sweep_gate: &H,
    ) -> Result<Report, Fault>
        ensures step { (old : Stored) × (new : Stored) × IsSound old
            × Takes old (remove_collect removal.entry at.0 workers) (kept_report result) new
            × IfErr result (λ f. CollectFails f (remove_collect_fault old removal.entry workers)) }
        ensures list { session.new.list ≡ list_after session.old.list
            (remove_collect removal.entry at.0 workers) (kept_report result) }
        ensures number { session.new.number ≡ session.old.number }
    {
        let mut guard = self.inner.lock(rt);
        let locked = &mut *guard;
        // For the prover: the session is one of this store.
        locked.admit(session);
        locked.remove_collect(rt, alloc, session, removal, at, workers, gate, sweep_gate)
    }

    /// A history so far, in which the session's part is its list.
    pub fn cut(&self, rt: &impl Wait, alloc: Global, session: &Session<L>) -> Result<History, Fault>
        ensures ok { IfOk result (λ h. IsPart h.log session.now × IsHistory h) }
        ensures fault { (log : List Entry) × IfErr result (λ f. CutFails f
            (part session.now.number log) session.now.list) }
    {
        self.inner.lock(rt).cut(alloc, session)
    }

    /// The history so far, and a new one begun, as `Locked::begin_anew`.
    pub fn begin_anew(
        &self,
        rt: &impl Wait,
        alloc: Global,
        sessions: &mut [Session<L>],
    ) -> Result<History, Fault>
        ensures ok { IfOk result (λ h. IsHistory h × All (IsPart h.log) sessions.old
            × AreOfThese h.log sessions.old) }
        ensures sessions { OnOk result (sessions.new ≡ map fresh sessions.old) }
        ensures fault { (opened : ℕ) × (log : List Entry)
            × IfErr result (λ f. FinishFails f opened log sessions.old) }
        ensures left { OnErr result (sessions.new ≡ sessions.old) }
    {
        self.inner.lock(rt).begin_anew(alloc, sessions)
    }
}

/// The history, where the sessions are all that were opened. Each session's part of it is its list,
/// and no entry is another's. Store and sessions are spent, also on a refusal.
pub fn finish<L: Ledger, S: SnapBackend, B: BlobBackend, I: IngestBackend>(
    alloc: Global,
    store: Store<L, S, B, I>,
    sessions: Vec<Session<L>>,
) -> Result<History, Fault>
    ensures ok { IfOk result (λ h. IsHistory h × All (IsPart h.log) sessions.items
        × AreOfThese h.log sessions.items) }
    ensures fault { (opened : ℕ) × (log : List Entry)
        × IfErr result (λ f. FinishFails f opened log sessions.items) }
{
    let Store { inner } = store;
    inner.into_inner().finish(alloc, sessions)
}
