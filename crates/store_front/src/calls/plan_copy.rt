//! Plans beside the lock.
ghost use Rattle.std.specs.Prelude.{◌≡◌, ◌↔◌, Err, IfOk, IfErr, false};
ghost use Rattle.meta_types.specs.Limits.{is_worker_count};
ghost use Rattle.meta_types.specs.Reports.{Plans};
ghost use Rattle.meta_types.specs.Rows.{State as Kept};
ghost use Rattle.meta_types.specs.Sound.{IsSound};
ghost use Rattle.meta_types.specs.Histories.{IsLegal};
ghost use Rattle.meta_types.specs.declared.fault.Fault.TheVariants.{InvalidArgument};
ghost use Rattle.store_front.specs.Finish.{CutFails, PlanFails};
ghost use Rattle.store_front.specs.Parts.{part, IsPart};

use crate::history::base::{Base, History};
use crate::locked::{Locked, base_of};
use crate::session::Session;
use crate::store::Store;
use back_model::{BlobBackend, IngestBackend, SnapBackend};
use backend_sweep::OpenSweepGate;
use collection::CollectionCrew;
use gc_report::Report;
use meta_types::{Fault, Instant, Workers};
use std::alloc::Global;
use std::mem::drop;
use std::sync::Wait;
use std::sync::ledger::Ledger;
use std::thread::Threads;
use steal_mark::Gate;

/// What a collection would report, and the history of the store that it was planned on.
#[derive(Drop)]
pub struct PlannedCopy {
    pub report: Report,
    pub cut: History,
}

// The history so far, and the store that it leads to.
#[derive(Drop)]
pub(crate) struct Copied {
    pub(crate) cut: History,
    pub(crate) now: Base,
}

impl<L: Ledger, S: SnapBackend, B: BlobBackend, I: IngestBackend> Locked<L, S, B, I> {
    // The history so far, as `cut`, and the store at rest.
    pub(crate) fn copies(&self, alloc: Global, session: &Session<L>) -> Result<Copied, Fault>
        ensures own { IfOk result (λ c. IsPart c.cut.log session.now) }
        ensures legal { IfOk result (λ c. IsLegal c.cut.base c.cut.log c.now) }
        ensures sound { IfOk result (λ c. IsSound c.now) }
        ensures err { IfErr result (λ f. CutFails f (part session.now.number self.now.log)
            session.now.list) }
    {
        let cut = self.cut(alloc, session)?;
        let Ok(now) = base_of(alloc, &self.state) else {
            return Err(Fault::OutOfMemory);
        };
        Ok(Copied { cut, now })
    }
}

impl<L: Ledger, S: SnapBackend, B: BlobBackend, I: IngestBackend> Store<L, S, B, I> {
    /// What a collection would report. Records, lists and history are copied under one hold of the
    /// lock; the plan is made after its release. It is no entry.
    pub fn plan_copy<R: Threads + Wait + Sync, G: Gate>(
        &self,
        rt: &R,
        alloc: Global,
        session: &Session<L>,
        at: Instant,
        workers: usize,
        gate: &G,
    ) -> Result<PlannedCopy, Fault>
        ensures own { IfOk result (λ p. IsPart p.cut.log session.now) }
        ensures planned { IfOk result (λ p. (state : Kept) × IsLegal p.cut.base p.cut.log state
            × Plans state at.0 p.report) }
        ensures workers { (result ≡ Err InvalidArgument) ↔ (is_worker_count workers ≡ false) }
        ensures fault { IfErr result (λ f. PlanFails f workers session.now) }
    {
        let Some(workers) = Workers::new(workers) else {
            return Err(Fault::InvalidArgument);
        };
        let Copied { cut, now } = self.inner.lock(rt).copies(alloc, session)?;
        let crew = CollectionCrew {
            rt,
            alloc,
            workers,
            gate,
            sweep_gate: &OpenSweepGate,
        };
        let made = collection::dry_report(&crew, &now.records, &now.lists, at);
        // For the prover: dropped by a call, not in place.
        drop(now);
        let report = match made {
            Ok(report) => report,
            Err(fault) => {
                // For the prover: dropped by a call, not in place.
                drop(cut);
                return Err(fault);
            }
        };
        Ok(PlannedCopy { report, cut })
    }
}
