//! Rows that a line shows: questions, which are no entries.
ghost use Rattle.std.specs.Prelude.{IfOk, None};
ghost use Rattle.meta_types.specs.Faults.{Refuses};
ghost use Rattle.request_core.specs.Foreseen.{TellsDone};

use crate::history_mode::HistoryMode;
use crate::locked::Locked;
use back_model::{BlobBackend, IngestBackend, SnapBackend};
use meta_types::{Fault, RawText, Request, ShownRow};
use std::alloc::Global;
use std::sync::ledger::Ledger;

impl<L: Ledger, S: SnapBackend, B: BlobBackend, I: IngestBackend, K: HistoryMode> Locked<
    L,
    S,
    B,
    I,
    K,
> {
    /// The row as it will be once `apply_or_hold` is done, if there is one and no fault refuses it.
    pub fn show_or_there(
        &self,
        alloc: Global,
        request: &Request<'_>,
        there: &Option<RawText<'_>>,
    ) -> Result<Option<ShownRow>, Fault>
        ensures fault { Refuses result None }
        ensures ok { IfOk result (λ shown.
            TellsDone self.now.store.state request.now there.now shown) }
    {
        self.state.show_or_there(alloc, request, there)
    }
}
