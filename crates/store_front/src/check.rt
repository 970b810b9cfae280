//! What a cut requires of the sessions that it is given.

pub(crate) mod numbers;
pub(crate) mod parts;
pub(crate) mod sessions;
