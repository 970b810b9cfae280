//! What would go without a row: questions, which are no entries.
ghost use Rattle.std.specs.Prelude.{◌≡◌, IfOk, IfErr};
ghost use Rattle.meta_types.specs.Faults.{Refuses};
ghost use Rattle.meta_types.specs.Impacts.{impact_fault, removed, IsImpact};
ghost use Rattle.meta_types.specs.Rows.{State as Kept};
ghost use Rattle.store_front.specs.Parts.{IsPart};
ghost use Rattle.store_front.specs.Questions.{CopyFails, AnswersOf};

use crate::calls::plan_copy::Copied;
use crate::history::base::History;
use crate::history_mode::HistoryMode;
use crate::locked::Locked;
use crate::session::Session;
use crate::store::Store;
use back_model::{BlobBackend, IngestBackend, SnapBackend};
use gc_report::Impact;
use meta_types::{Fault, Instant, Object, ShortName};
use std::alloc::Global;
use std::sync::Wait;
use std::sync::ledger::Ledger;
use std::thread::Threads;

/// What would go without a row, or why that isn't answered, and the history of the store that it was
/// asked of.
#[derive(Drop)]
pub struct Foreseen {
    pub answer: Result<Impact, Fault>,
    pub cut: History,
}

impl<L: Ledger, S: SnapBackend, B: BlobBackend, I: IngestBackend, K: HistoryMode> Locked<
    L,
    S,
    B,
    I,
    K,
> {
    /// What would go at a moment without a row. The store stays as it is.
    pub fn impact<R: Threads + Sync>(
        &self,
        rt: &R,
        alloc: Global,
        ns: ShortName,
        object: Object,
        at: Instant,
    ) -> Result<Impact, Fault>
        ensures fault { Refuses result (impact_fault self.now.store.state ns object) }
        ensures ok { IfOk result (λ impact. IsImpact self.now.store.state
            (removed self.now.store.state ns object).after at.0 impact) }
    {
        collection::impact(rt, alloc, &self.state, ns, object, at)
    }
}

impl<L: Ledger, S: SnapBackend, B: BlobBackend, I: IngestBackend> Store<L, S, B, I> {
    /// What would go at a moment without a row. Records, lists and history are copied under one hold
    /// of the lock; the question is answered after its release. It is no entry. What the store
    /// refuses stands in the answer, beside the history that leads to it; only the copies are refused
    /// here.
    pub fn impact<R: Threads + Wait + Sync>(
        &self,
        rt: &R,
        alloc: Global,
        session: &Session<L>,
        ns: ShortName,
        object: Object,
        at: Instant,
    ) -> Result<Foreseen, Fault>
        ensures own { IfOk result (λ f. IsPart f.cut.log session.now) }
        ensures foreseen { IfOk result (λ f. AnswersOf f.cut.base f.cut.log (λ (state : Kept).
            Refuses f.answer (impact_fault state ns object)
            × IfOk f.answer (λ impact. IsImpact state (removed state ns object).after at.0
            impact))) }
        ensures fault { IfErr result (λ f. CopyFails f session.now) }
    {
        let Copied { cut, now } = self.inner.lock(rt).copies(alloc, session)?;
        let answer = collection::impact_of_lists(
            rt,
            alloc,
            &now.records,
            &now.lists,
            ns,
            object,
            at,
        );
        Ok(Foreseen { answer, cut })
    }
}
