//! Why a replay was refused.
ghost use Rattle.std.specs.Prelude.{◌≡◌};

use std::alloc::AllocError;
use thiserror::Error;

/// Why a replay was refused. Places count from 0.
#[derive(Clone, Copy, Debug, PartialEq, Eq, Error)]
pub enum ReplayFault {
    /// The event at this place is the first that isn't allowed.
    #[error("the event at place {place} isn't allowed")]
    BadEvent { place: usize },
    /// The number of workers is outside a marking's limits.
    #[error("the number of workers isn't allowed")]
    Workers,
    /// Memory ran out.
    #[error("a growth was refused")]
    Memory,
}

/// A refused growth is the fault `Memory`, and nothing else is.
impl From<AllocError> for ReplayFault {
    ghost use Rattle.mark_core.specs.declared.replay_fault.ReplayFault.TheVariants.{Memory};

    ghost from_gives = { λ _ fault. fault ≡ Memory };

    fn from(_: AllocError) -> ReplayFault {
        ReplayFault::Memory
    }
}
