//! Who does a line.

use meta_types::Workers;
use std::alloc::Global;

/// The threads that do a line, and how many of them collect.
#[derive(Drop)]
pub(crate) struct LineCrew<'c, R> {
    pub(crate) rt: &'c R,
    pub(crate) alloc: Global,
    pub(crate) workers: Workers,
}
