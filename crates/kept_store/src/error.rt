//! Why a store can't start, and why a checkpoint isn't taken.
ghost use Rattle.std.specs.Prelude.{◌≡◌};
ghost use Rattle.journal.specs.declared.error.JournalError.TheVariants.{Damaged as damaged_journal, CannotGrow as cannot_grow, NoLine as no_line};

use journal::{JournalError, Log};

#[derive(Clone, Copy, Debug, PartialEq, Eq)]
pub enum StartError {
    OutOfMemory,
    /// The file can't be read, or written.
    DiskFailed,
    /// A commit line isn't that of what stands before it.
    Damaged,
    /// The file's first line names another format.
    UnknownFormat,
    /// A line that was logged is refused.
    Refused,
}

/// What a journal's error is for a start.
pub fn start_error(error: JournalError) -> StartError
    ensures damaged { result ≡ StartError.Damaged → error ≡ damaged_journal }
    ensures willing { result ≡ StartError.Refused → ⊥ }
{
    match error {
        JournalError::OutOfMemory => StartError::OutOfMemory,
        JournalError::Damaged => StartError::Damaged,
        JournalError::UnknownFormat => StartError::UnknownFormat,
        _ => StartError::DiskFailed,
    }
}

#[derive(Clone, Copy, Debug, PartialEq, Eq)]
pub enum CheckpointError {
    OutOfMemory,
    /// The file can't be read, or written.
    DiskFailed,
    /// The file has no room, and can't grow.
    Full,
    /// A line of the checkpoint can't stand in a journal, or is refused when it is done again.
    Refused,
    /// The lines make another store.
    Differs,
}

/// Why there is no checkpoint, and the file, of which nothing is known then.
#[derive(Drop)]
pub struct NotTaken<E: Log + Drop> {
    pub error: CheckpointError,
    pub log: E,
}

/// What a journal's error is for a checkpoint.
pub(crate) fn journal_error(error: JournalError) -> CheckpointError
    ensures full { result ≡ CheckpointError.Full → error ≡ cannot_grow }
    ensures refused { result ≡ CheckpointError.Refused → error ≡ no_line }
    ensures differs { result ≡ CheckpointError.Differs → ⊥ }
{
    match error {
        JournalError::OutOfMemory => CheckpointError::OutOfMemory,
        JournalError::NoLine => CheckpointError::Refused,
        JournalError::CannotGrow => CheckpointError::Full,
        _ => CheckpointError::DiskFailed,
    }
}

/// What a start's error is for a checkpoint.
pub(crate) fn replay_error(error: StartError) -> CheckpointError
    ensures refused { result ≡ CheckpointError.Refused → error ≡ StartError.Refused }
    ensures full { result ≡ CheckpointError.Full → ⊥ }
    ensures differs { result ≡ CheckpointError.Differs → ⊥ }
{
    match error {
        StartError::OutOfMemory => CheckpointError::OutOfMemory,
        StartError::Refused => CheckpointError::Refused,
        StartError::DiskFailed | StartError::Damaged | StartError::UnknownFormat => {
            CheckpointError::DiskFailed
        }
    }
}
