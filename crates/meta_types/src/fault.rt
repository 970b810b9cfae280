//! Why a call was refused.
ghost use Rattle.std.specs.Prelude.{◌≡◌};
ghost use Rattle.meta_types.specs.Faults.{number_of, name_of};

use std::alloc::{AllocError, AllocFailed};
use thiserror::Error;

/// Why a call was refused. The first four are containerd's error classes; the others are ours.
#[derive(Debug, Clone, Copy, PartialEq, Eq, Error)]
pub enum Fault {
    /// A text, or a number of workers, isn't one that is allowed.
    #[error("a name, digest, label, time, resource type or worker number isn't allowed")]
    InvalidArgument,
    /// What the call names isn't stored.
    #[error("a named namespace, object, parent or lease isn't there")]
    NotFound,
    /// What the call would make is stored already.
    #[error("the object to be made is there")]
    AlreadyExists,
    /// The state, or a limit, forbids the call.
    #[error("the state or a limit forbids it")]
    FailedPrecondition,
    /// The line isn't a request.
    #[error("the line is no request")]
    BadLine,
    /// The line is longer than a request may be.
    #[error("the line has more than 65,536 bytes")]
    TooLong,
    /// Memory ran out: a growth was refused.
    #[error("a growth was refused")]
    OutOfMemory,
    /// A thread couldn't be started in this call.
    #[error("a thread couldn't be started")]
    NoWorker,
    /// The backend's device failed in this call.
    #[error("the device failed")]
    BackendFailed,
    /// The reader failed, or the bound of reads was met.
    #[error("the reader failed, or the bound of reads was met")]
    ReadFailed,
    /// The writer failed, or took no byte.
    #[error("the writer failed or took no byte")]
    WriteFailed,
    /// A session's list and the log differ, first at this place of the list.
    #[error("a session's list and the log differ, first at place {place}")]
    Mismatch { place: u64 },
}

impl Fault {
    /// The number that a reply shows, from 1 to 12. Ours.
    pub fn number(&self) -> u8
        ensures { result ≡ number_of self.now }
    {
        match self {
            Fault::InvalidArgument => 1,
            Fault::NotFound => 2,
            Fault::AlreadyExists => 3,
            Fault::FailedPrecondition => 4,
            Fault::BadLine => 5,
            Fault::TooLong => 6,
            Fault::OutOfMemory => 7,
            Fault::NoWorker => 8,
            Fault::BackendFailed => 9,
            Fault::ReadFailed => 10,
            Fault::WriteFailed => 11,
            Fault::Mismatch { place: _ } => 12,
        }
    }

    /// The name that a reply shows: containerd's name of the error class, or ours.
    pub fn name(&self) -> &'static str
        ensures { result.now ≡ name_of self.now }
    {
        match self {
            Fault::InvalidArgument => "InvalidArgument",
            Fault::NotFound => "NotFound",
            Fault::AlreadyExists => "AlreadyExists",
            Fault::FailedPrecondition => "FailedPrecondition",
            Fault::BadLine => "BadLine",
            Fault::TooLong => "TooLong",
            Fault::OutOfMemory => "OutOfMemory",
            Fault::NoWorker => "NoWorker",
            Fault::BackendFailed => "BackendFailed",
            Fault::ReadFailed => "ReadFailed",
            Fault::WriteFailed => "WriteFailed",
            Fault::Mismatch { place: _ } => "Mismatch",
        }
    }
}

/// A refused growth becomes OutOfMemory.
impl From<AllocError> for Fault {
    ghost use Rattle.meta_types.specs.declared.fault.Fault.TheVariants.{OutOfMemory};

    ghost from_gives = { λ _ fault. fault ≡ OutOfMemory };

    fn from(_: AllocError) -> Fault {
        Fault::OutOfMemory
    }
}

impl<T: Drop> From<AllocFailed<T>> for Fault {
    ghost use Rattle.meta_types.specs.declared.fault.Fault.TheVariants.{OutOfMemory};

    ghost from_gives = { λ _ fault. fault ≡ OutOfMemory };

    fn from(_: AllocFailed<T>) -> Fault {
        Fault::OutOfMemory
    }
}
