//! When an object ends, as its labels say.

use meta_types::Instant;

/// What labels say of an object's end (containerd garbage-collection.md, gc.expire).
#[derive(Clone, Copy, PartialEq, Eq)]
pub enum Expiry {
    /// There is no such label.
    Never,
    /// The object ends after this moment.
    At(Instant),
    /// The label's value is no time: the object doesn't end, and a report names it.
    Unreadable,
}
