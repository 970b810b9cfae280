//! Why two files aren't opened as the folder of a store.
ghost use Rattle.std.specs.Prelude.{◌≡◌};
ghost use Rattle.journal.specs.declared.error.JournalError.TheVariants.{OutOfMemory as no_memory, Damaged as damaged_journal, UnknownFormat as unknown_format};
ghost use Rattle.store_folder.specs.Openings.{IsPassing};
ghost use Rattle.store_folder.specs.declared.opening.error.OpenError.TheVariants.{OutOfMemory};

use journal::JournalError;
use sqlite_disk::Disk;
use std::alloc::{AllocError, AllocFailed};

#[derive(Clone, Copy, Debug, PartialEq, Eq)]
pub enum OpenError {
    OutOfMemory,
    DiskFailed,
    /// A head isn't one that was written, or a commit line isn't that of what stands before it.
    Damaged,
    /// A file's first line names another format.
    UnknownFormat,
    /// Neither file has a head.
    NoStore,
    /// A part of a store is there: this file is missing, or empty.
    Missing { is_second: bool },
    /// The file that counts has format 1, and so no page.
    OldFormat,
    /// The card of the file that counts can't be read.
    NoCard,
    /// The files are of two stores.
    OtherStore,
    /// They are of two moments of a store: a checkpoint or more was taken between them.
    OtherMoment,
    /// A later file than the one that counts counted already.
    Stale,
    /// The file that counts has fewer lines than a witness says.
    Less,
    /// The file that counts lacks a part of its checkpoint.
    Part,
}

impl From<AllocError> for OpenError {
    ghost from_gives = { λ _ e. e ≡ OutOfMemory };

    fn from(_: AllocError) -> Self {
        OpenError::OutOfMemory
    }
}

impl<T: Drop> From<AllocFailed<T>> for OpenError {
    ghost from_gives = { λ _ e. e ≡ OutOfMemory };

    fn from(_: AllocFailed<T>) -> Self {
        OpenError::OutOfMemory
    }
}

/// Two files that aren't opened, and why.
#[derive(Drop)]
pub struct NotOpened<D: Disk + Drop> {
    pub error: OpenError,
    pub first: D,
    pub second: D,
}

/// What an error says of the head of a file.
pub fn head_error(error: JournalError) -> OpenError
    ensures memory { error ≡ no_memory → result ≡ OpenError.OutOfMemory }
    ensures damaged { error ≡ damaged_journal → result ≡ OpenError.Damaged }
    ensures unknown { error ≡ unknown_format → result ≡ OpenError.UnknownFormat }
    ensures passing { (error ≡ damaged_journal → ⊥) → (error ≡ unknown_format → ⊥)
        → IsPassing result }
{
    match error {
        JournalError::OutOfMemory => OpenError::OutOfMemory,
        JournalError::Damaged => OpenError::Damaged,
        JournalError::UnknownFormat => OpenError::UnknownFormat,
        _ => OpenError::DiskFailed,
    }
}

/// What an error says of what stands behind a head.
pub fn text_error(error: JournalError) -> OpenError
    ensures memory { error ≡ no_memory → result ≡ OpenError.OutOfMemory }
    ensures damaged { error ≡ damaged_journal → result ≡ OpenError.Damaged }
    ensures passing { (error ≡ damaged_journal → ⊥) → IsPassing result }
{
    match error {
        JournalError::OutOfMemory => OpenError::OutOfMemory,
        JournalError::Damaged => OpenError::Damaged,
        _ => OpenError::DiskFailed,
    }
}
