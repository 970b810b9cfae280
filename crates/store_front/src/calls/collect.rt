//! Collections of the locked store, and removals with one, each with its entry.
ghost use Rattle.std.specs.Prelude.{◌≡◌, ◌+◌, ◌<◌, IfErr};
ghost use Rattle.meta_types.specs.Steps.{collect, collect_fault, remove_collect, remove_collect_fault};
ghost use Rattle.collection.specs.Refused.{CollectFails};
ghost use Rattle.store_front.specs.KeptAnswers.{kept_if, kept_report, Takes, log_after, list_after, report_failures};
ghost use Rattle.meta_types.specs.Sound.{IsSound};

use crate::calls::call_resources::CallResources;
use crate::event::pairs::Events;
use crate::event::room::{keep_report, make_room, report_alone, report_rooms};
use crate::history_mode::HistoryMode;
use crate::locked::Locked;
use crate::session::Session;
use back_model::{BlobBackend, IngestBackend, SnapBackend};
use backend_sweep::SweepGate;
use collection::Reports;
use gc_report::Report;
use meta_types::{Fault, Instant, Removal};
use request_core::State;
use std::alloc::Global;
use std::sync::Wait;
use std::sync::ledger::Ledger;
use std::thread::Threads;
use steal_mark::Gate;

// Collects, or with `dry` only reports.
pub(crate) fn run_collect<
    R: Threads + Wait + Sync,
    S: SnapBackend,
    B: BlobBackend,
    I: IngestBackend,
    G: Gate,
    H: SweepGate,
    K: HistoryMode,
>(
    resources: &CallResources<'_, R, G, H>,
    state: &mut State<S, B, I>,
    at: Instant,
    dry: bool,
) -> Result<Reports<K>, Fault>
    requires { IsSound state.old.state }
    ensures step { Takes state.old.state (collect at.0 dry resources.now.workers)
        (kept_report result)
        state.new.state }
    ensures fault { IfErr result (λ f. CollectFails f
        (collect_fault state.old.state.records resources.now.workers)) }
    ensures failures { state.new.failures ≡ state.old.failures + report_failures result }
    ensures sound { IsSound state.new.state }
{
    let Some(crew) = resources.crew() else {
        return Err(Fault::InvalidArgument);
    };
    if dry {
        return collection::dry_run(&crew, state, at);
    }
    collection::collect(&crew, state, at)
}

// Removes an image or a lease, and collects.
pub(crate) fn run_removal<
    R: Threads + Wait + Sync,
    S: SnapBackend,
    B: BlobBackend,
    I: IngestBackend,
    G: Gate,
    H: SweepGate,
    K: HistoryMode,
>(
    resources: &CallResources<'_, R, G, H>,
    state: &mut State<S, B, I>,
    removal: &Removal,
    at: Instant,
) -> Result<Reports<K>, Fault>
    requires { IsSound state.old.state }
    ensures step { Takes state.old.state
        (remove_collect removal.now at.0 resources.now.workers)
        (kept_report result) state.new.state }
    ensures fault { IfErr result (λ f. CollectFails f
        (remove_collect_fault state.old.state removal.now resources.now.workers)) }
    ensures failures { state.new.failures ≡ state.old.failures + report_failures result }
    ensures sound { IsSound state.new.state }
{
    let Some(crew) = resources.crew() else {
        return Err(Fault::InvalidArgument);
    };
    collection::remove_collect(&crew, state, removal, at)
}

impl<L: Ledger, S: SnapBackend, B: BlobBackend, I: IngestBackend, K: HistoryMode> Locked<
    L,
    S,
    B,
    I,
    K,
> {
    /// Collects with this number of workers, or with `dry` only reports the removals. It is an
    /// entry unless memory ran out or a thread couldn't be started. From the first removal on
    /// nothing is refused.
    pub fn collect<R: Threads + Wait + Sync, G: Gate, H: SweepGate>(
        &mut self,
        rt: &R,
        alloc: Global,
        session: &mut Session<L>,
        at: Instant,
        dry: bool,
        workers: usize,
        gate: &G,
        sweep_gate: &H,
    ) -> Result<Report, Fault>
        requires { session.old.number < self.old.opened }
        ensures step { Takes self.old.store.state (collect at.0 dry workers) (kept_report result)
            self.new.store.state }
        ensures fault { IfErr result (λ f. CollectFails f
            (collect_fault self.old.store.state.records workers)) }
        ensures log { self.new.log ≡ log_after self.old.log session.old.number
            (collect at.0 dry workers) (kept_if K.KEPT (kept_report result)) }
        ensures list { session.new.list ≡ list_after session.old.list (collect at.0 dry workers)
            (kept_if K.KEPT (kept_report result)) }
        ensures number { session.new.number ≡ session.old.number }
        ensures base { self.new.base ≡ self.old.base }
        ensures opened { self.new.opened ≡ self.old.opened }
        ensures failures { self.new.store.failures
            ≡ self.old.store.failures + report_failures result }
    {
        let Locked {
            state,
            log,
            book,
            ..
        } = self;
        let resources = CallResources {
            rt,
            alloc,
            workers,
            gate,
            sweep_gate,
        };
        if !K::KEPT {
            let reports = run_collect(&resources, state, at, dry);
            return report_alone(reports);
        }
        let Session {
            number,
            list,
            share,
        } = session;
        if make_room(log, list).is_err() {
            return Err(Fault::OutOfMemory);
        }
        let events = Events::collect(at, dry, workers);
        let Ok(rooms) = report_rooms(alloc) else {
            return Err(Fault::OutOfMemory);
        };
        let reports = run_collect(&resources, state, at, dry);
        keep_report(log, list, book, share, *number, events, rooms, reports)
    }
}

impl<L: Ledger, S: SnapBackend, B: BlobBackend, I: IngestBackend> Locked<L, S, B, I> {
    /// Removes an image or a lease and collects, as one event, with the entry and the refusals of
    /// a collection. Graph and plan are made of records without the row.
    pub fn remove_collect<R: Threads + Wait + Sync, G: Gate, H: SweepGate>(
        &mut self,
        rt: &R,
        alloc: Global,
        session: &mut Session<L>,
        removal: Removal<'static>,
        at: Instant,
        workers: usize,
        gate: &G,
        sweep_gate: &H,
    ) -> Result<Report, Fault>
        requires { session.old.number < self.old.opened }
        ensures step { Takes self.old.store.state (remove_collect removal.entry at.0 workers)
            (kept_report result) self.new.store.state }
        ensures fault { IfErr result (λ f. CollectFails f
            (remove_collect_fault self.old.store.state removal.entry workers)) }
        ensures log { self.new.log ≡ log_after self.old.log session.old.number
            (remove_collect removal.entry at.0 workers) (kept_report result) }
        ensures list { session.new.list ≡ list_after session.old.list
            (remove_collect removal.entry at.0 workers) (kept_report result) }
        ensures number { session.new.number ≡ session.old.number }
        ensures base { self.new.base ≡ self.old.base }
        ensures opened { self.new.opened ≡ self.old.opened }
        ensures failures { self.new.store.failures
            ≡ self.old.store.failures + report_failures result }
    {
        let Locked {
            state,
            log,
            book,
            ..
        } = self;
        let resources = CallResources {
            rt,
            alloc,
            workers,
            gate,
            sweep_gate,
        };
        let Session {
            number,
            list,
            share,
        } = session;
        if make_room(log, list).is_err() {
            return Err(Fault::OutOfMemory);
        }
        let Ok((shared, events)) = Events::remove_collect(alloc, removal, at, workers) else {
            return Err(Fault::OutOfMemory);
        };
        let Ok(rooms) = report_rooms(alloc) else {
            return Err(Fault::OutOfMemory);
        };
        let removal = shared.get();
        let reports = run_removal(&resources, state, removal, at);
        keep_report(log, list, book, share, *number, events, rooms, reports)
    }
}
