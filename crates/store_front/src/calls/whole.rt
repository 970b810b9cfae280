//! A store whole: lent, and its next backend number raised.
ghost use Rattle.std.specs.Prelude.{◌≡◌};
ghost use Rattle.meta_types.specs.Sound.{IsSound};
ghost use Rattle.store_front.specs.NextNumber.{raised};

use crate::history_mode::{HistoryMode, WithoutHistory};
use crate::locked::Locked;
use back_model::{BlobBackend, IngestBackend, SnapBackend};
use request_core::State;
use std::sync::ledger::Ledger;

// Raises the next backend number of a store.
fn raise<S: SnapBackend, B: BlobBackend, I: IngestBackend>(state: &mut State<S, B, I>, number: u64)
    ensures { state.new ≡ record state.old { state = raised number state.old.state } }
{
    state.records.next = state.records.next.max(number);
}

// Raises it; the store stays sound.
fn raise_soundly<S: SnapBackend, B: BlobBackend, I: IngestBackend>(
    state: &mut State<S, B, I>,
    number: u64,
)
    ensures raised { state.new ≡ record state.old { state = raised number state.old.state } }
    ensures sound { IsSound state.old.state → IsSound state.new.state }
{
    raise(state, number);
}

impl<L: Ledger, S: SnapBackend, B: BlobBackend, I: IngestBackend, K: HistoryMode> Locked<
    L,
    S,
    B,
    I,
    K,
> {
    /// The store.
    pub fn state(&self) -> &State<S, B, I>
        ensures { result.now ≡ self.now.store }
    {
        &self.state
    }
}

impl<L: Ledger, S: SnapBackend, B: BlobBackend, I: IngestBackend> Locked<
    L,
    S,
    B,
    I,
    WithoutHistory,
> {
    /// From now on the next backend number is at least this one. A history has no entry for that,
    /// so there is none.
    pub fn raise_next(&mut self, number: u64)
        ensures { self.new ≡ record self.old {
          store = record self.old.store {
            state = raised number self.old.store.state;
          };
        } }
    {
        raise_soundly(&mut self.state, number);
    }
}
