//! Who does a collection, and how many of them.

use backend_sweep::SweepGate;
use meta_types::Workers;
use std::alloc::Global;
use steal_mark::Gate;

/// The threads of a collection, how many of them at most mark and sweep, the gate that each asks
/// before it scans a node if several mark, and the one that each tells before it removes a snapshot
/// of the backend.
#[derive(Drop)]
pub struct CollectionCrew<'c, R, G: Gate, H: SweepGate> {
    pub rt: &'c R,
    pub alloc: Global,
    pub workers: Workers,
    pub gate: &'c G,
    pub sweep_gate: &'c H,
}
