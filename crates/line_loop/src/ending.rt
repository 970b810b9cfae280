//! How a run ends.
ghost use Rattle.std.specs.Prelude.{◌≡◌};
ghost use Rattle.line_loop.specs.declared.ending.RunError.TheVariants.{OutOfMemory};

use std::alloc::{AllocError, AllocFailed};

/// Where a run stopped that nothing failed.
#[derive(Clone, Copy, Debug, PartialEq, Eq)]
pub enum Stop {
    /// The reader has no more.
    End,
    /// The log is to be made shorter by a checkpoint. The next call goes on from here.
    CheckpointDue,
}

/// Why a run ends early.
#[derive(Clone, Copy, Debug, PartialEq, Eq)]
pub enum RunError {
    /// The service, or the run, was refused memory.
    OutOfMemory,
    /// A line couldn't be kept.
    LogFailed,
    /// The reader failed, or the run took in as many blocks as it may.
    ReadFailed,
    /// The writer failed.
    WriteFailed,
}

impl From<AllocError> for RunError {
    ghost from_gives = { λ _ e. e ≡ OutOfMemory };

    fn from(_: AllocError) -> Self {
        RunError::OutOfMemory
    }
}

impl<T: Drop> From<AllocFailed<T>> for RunError {
    ghost from_gives = { λ _ e. e ≡ OutOfMemory };

    fn from(_: AllocFailed<T>) -> Self {
        RunError::OutOfMemory
    }
}
