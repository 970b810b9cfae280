//! Explanations: questions, which are no entries.
ghost use Rattle.std.specs.Prelude.{◌≡◌, IfOk, IfErr};
ghost use Rattle.meta_types.specs.Explanations.{is_asked, explain_fault, IsExplanation};
ghost use Rattle.meta_types.specs.Faults.{Refuses};
ghost use Rattle.meta_types.specs.Rows.{State as Kept};
ghost use Rattle.store_front.specs.Parts.{IsPart};
ghost use Rattle.store_front.specs.Questions.{CopyFails, AnswersOf};

use crate::calls::plan_copy::Copied;
use crate::history::base::History;
use crate::history_mode::HistoryMode;
use crate::locked::Locked;
use crate::session::Session;
use crate::store::Store;
use back_model::{BlobBackend, IngestBackend, SnapBackend};
use meta_types::{Explanation, Fault, Instant, Object, ShortName};
use std::alloc::Global;
use std::sync::Wait;
use std::sync::ledger::Ledger;
use std::thread::Threads;

/// What keeps a row, or why that isn't answered, and the history of the store that it was asked of.
#[derive(Drop)]
pub struct Explained {
    pub answer: Result<Explanation, Fault>,
    pub cut: History,
}

impl<L: Ledger, S: SnapBackend, B: BlobBackend, I: IngestBackend, K: HistoryMode> Locked<
    L,
    S,
    B,
    I,
    K,
> {
    /// What keeps a row at a moment, or kept it until its root ended. The store stays as it is.
    pub fn explain<R: Threads + Sync>(
        &self,
        rt: &R,
        alloc: Global,
        ns: &ShortName,
        object: &Object,
        at: Instant,
    ) -> Result<Explanation, Fault>
        ensures fault { Refuses result
            (explain_fault self.now.store.state.records ns.now object.now) }
        ensures ok { IfOk result (λ e. IsExplanation self.now.store.state.records at.0
            (is_asked ns.now object.now) e.kept e.path.items) }
    {
        explaining::explain(rt, alloc, self.state.records(), ns, object, at)
    }
}

impl<L: Ledger, S: SnapBackend, B: BlobBackend, I: IngestBackend> Store<L, S, B, I> {
    /// What keeps a row at a moment. Records and history are copied under one hold of the lock; the
    /// question is answered after its release. It is no entry. What the store refuses stands in the
    /// answer, beside the history that leads to it; only the copies are refused here.
    pub fn explain<R: Threads + Wait + Sync>(
        &self,
        rt: &R,
        alloc: Global,
        session: &Session<L>,
        ns: &ShortName,
        object: &Object,
        at: Instant,
    ) -> Result<Explained, Fault>
        ensures own { IfOk result (λ e. IsPart e.cut.log session.now) }
        ensures explained { IfOk result (λ e. AnswersOf e.cut.base e.cut.log (λ (state : Kept).
            Refuses e.answer (explain_fault state.records ns.now object.now)
            × IfOk e.answer (λ told. IsExplanation state.records at.0
            (is_asked ns.now object.now) told.kept told.path.items))) }
        ensures fault { IfErr result (λ f. CopyFails f session.now) }
    {
        let Copied { cut, now } = self.inner.lock(rt).copies(alloc, session)?;
        let answer = explaining::explain(rt, alloc, &now.records, ns, object, at);
        Ok(Explained { answer, cut })
    }
}
