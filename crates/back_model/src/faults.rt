//! Faults of one call of a backend: to make an object, or to remove one.

/// Why an object wasn't made.
#[derive(Clone, Copy, Debug, PartialEq, Eq)]
pub enum MakeFault {
    /// An object of this name is there.
    Taken,
    /// The parent isn't there.
    Missing,
    /// The device failed in this call.
    Device,
    /// Memory ran out.
    Memory,
}

/// Why an object wasn't removed.
#[derive(Clone, Copy, Debug, PartialEq, Eq)]
pub enum RemoveFault {
    /// No object of this name is there.
    Missing,
    /// The snapshot is the parent of another.
    HasChildren,
    /// The device failed in this call.
    Device,
}
