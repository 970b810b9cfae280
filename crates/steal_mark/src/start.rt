//! The start of a marking: roots, passes and markers.

pub(crate) mod markers;
pub(crate) mod passes;
pub(crate) mod roots;
