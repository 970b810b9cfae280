//! The end of a marking: the marks, from what the workers leave.

pub(crate) mod close;
pub(crate) mod close_all;
pub(crate) mod drain;
pub(crate) mod gather;
pub(crate) mod marks;
pub(crate) mod take_apart;
