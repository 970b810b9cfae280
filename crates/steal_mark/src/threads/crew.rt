//! What the threads of a marking are lent.

use crate::shared::hints::Hints;
use mark_core::Graph;

/// The graph that the threads of a marking share, the gate that each asks before it scans a node,
/// and the hints by which they end.
#[derive(Drop)]
pub struct Crew<'a, R, G> {
    pub(crate) rt: &'a R,
    pub(crate) graph: &'a Graph,
    pub(crate) gate: &'a G,
    pub(crate) hints: &'a Hints,
}
