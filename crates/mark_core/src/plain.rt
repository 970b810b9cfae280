//! Marking by one thread.
ghost use Rattle.std.specs.Prelude.{◌≡◌, ◌↔◌, ℕ, IfOk, None};
ghost use Rattle.meta_types.specs.Faults.{Refuses};
ghost use Rattle.mark_core.specs.Bits.{bit_of};
ghost use Rattle.mark_core.specs.Reach.{Reached, IsInRange};

use crate::found::Found;
use crate::graph::Graph;
use crate::marks::Marks;
use meta_types::Fault;
use std::alloc::Global;

/// Marks what the roots reference, directly or not, on the calling thread.
pub fn mark_plain(alloc: Global, graph: &Graph) -> Result<Marks, Fault>
    requires { IsInRange graph.now }
    ensures fault { Refuses result None }
    ensures marks { IfOk result (λ m. (n : ℕ) → (bit_of m n ≡ 1) ↔ Reached graph.now n) }
{
    let mut found = Found::empty(alloc, graph.edges.len())?;
    found.add_all(&graph.roots)?;

    // All nodes before this place of the list have been scanned.
    let mut next = 0;
    while next < found.order.len() {
        let node = found.order[next];
        found.add_all(graph.targets(node))?;
        next += 1;
    }
    Ok(found.marks)
}
