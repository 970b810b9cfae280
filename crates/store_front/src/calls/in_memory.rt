//! Stores over models in memory, whose devices never fail.
ghost use Rattle.std.specs.Prelude.{◌≡◌};

use crate::history_mode::HistoryMode;
use crate::locked::MemLocked;
use std::sync::ledger::Ledger;

impl<L: Ledger, K: HistoryMode> MemLocked<L, K> {
    /// No device of a store in memory ever failed. It does nothing, and serves a proof alone.
    pub fn never_failed(&self)
        ensures { self.now.store.failures ≡ 0 }
    {
        self.state.never_failed()
    }
}
