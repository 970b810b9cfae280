//! The next backend number, raised.
ghost use Rattle.std.specs.Prelude.{◌≡◌};
ghost use Rattle.meta_types.specs.Sound.{IsSound};
ghost use Rattle.checkpoint.specs.Numbers.{raised};

use back_model::{BlobBackend, IngestBackend, SnapBackend};
use request_core::State;

/// The next backend number is at least this one from now on.
pub fn raise_next<S: SnapBackend, B: BlobBackend, I: IngestBackend>(
    store: &mut State<S, B, I>,
    number: u64,
)
    ensures raised { store.new ≡ record store.old { state = raised number store.old.state } }
    ensures sound { IsSound store.old.state → IsSound store.new.state }
{
    if store.records.next < number {
        store.records.next = number;
    }
}
