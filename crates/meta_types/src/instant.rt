//! Moments as one signed number, so that two are compared at once.

/// A moment, in nanoseconds since 1970-01-01T00:00:00Z, of either sign.
#[derive(Clone, Copy, PartialEq, Eq)]
pub struct Instant(pub i128);
