//! The graph that a marking walks.
ghost use Rattle.std.specs.Prelude.{◌≡◌, ◌<◌, ◌↔◌, IsTrue, All};
ghost use Rattle.mark_core.specs.Reach.{IsInRange, targets};

use crate::target_lists::TargetLists;

/// Nodes are numbered from 0. A number may stand in `roots` more than once.
#[derive(Drop)]
pub struct Graph {
    /// The targets of each node, in order.
    pub edges: TargetLists,
    /// Where the walks begin.
    pub roots: Vec<u32>,
}

impl Graph {
    /// The targets of a node, in order. A number that is no node has none.
    pub fn targets(&self, node: u32) -> &[u32]
        ensures { result.now ≡ targets self.now node }
    {
        if (node as usize) < self.edges.len() {
            return self.edges.list(node as usize);
        }
        &[]
    }

    /// The test of what a marking requires: each number of the graph names a node.
    pub fn is_in_range(&self) -> bool
        ensures { IsTrue result ↔ IsInRange self.now }
    {
        let count = self.edges.len();
        for node in 0..count {
            if !are_below(self.edges.list(node), count) {
                return false;
            }
        }
        are_below(&self.roots, count)
    }
}

fn are_below(numbers: &[u32], count: usize) -> bool
    ensures { IsTrue result ↔ All (λ n. n < count) numbers.now }
{
    numbers.iter().all(|n| (*n as usize) < count)
}
