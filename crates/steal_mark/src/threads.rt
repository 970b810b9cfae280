//! The threads of a marking: how they start, and what they give back.

pub(crate) mod crew;
pub(crate) mod mark_workers;
pub(crate) mod start;
pub(crate) mod worker;
