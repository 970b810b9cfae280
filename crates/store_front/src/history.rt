//! The history of a store: from its base to its cut.

pub(crate) mod base;
pub(crate) mod begin_anew;
pub(crate) mod clear;
pub(crate) mod copies;
pub(crate) mod cut;
