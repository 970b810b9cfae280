//! How far each node of a graph is from the starts.
ghost use Rattle.std.specs.Prelude.{◌≡◌, ◌<◌, ◌==◌, ℕ, List, Option, length, get_or, All, Some, None, IfOk, OnOk};
ghost use Rattle.meta_types.specs.Faults.{Refuses};
ghost use Rattle.mark_core.specs.Reach.{IsInRange, node_count};
ghost use Rattle.mark_core.specs.Seeing.{Seen};
ghost use Rattle.mark_core.specs.Depths.{queued, KeepsDepths};
ghost use Rattle.mark_core.specs.Firsts.{filled};
ghost use Rattle.mark_core.specs.Nearest.{IsDepth};
ghost use Rattle.mark_core.specs.Seeing.{see_all};

use crate::graph::Graph;
use meta_types::Fault;
use std::alloc::{AllocError, Global};

// As many nodes, none of which was seen.
fn unseen(alloc: Global, count: usize) -> Result<Vec<Option<u32>>, AllocError>
    ensures count { IfOk result (λ depths. length depths.items ≡ count) }
    ensures none { IfOk result (λ depths. (n : ℕ) → n < count
        → get_or depths.items n None ≡ None) }
{
    let mut depths = Vec::with_capacity(alloc, count)?;
    depths.resize(count, None)?;
    Ok(depths)
}

// Sees a node, unless it has a depth already.
fn see(
    queue: &mut Vec<u32>,
    depths: &mut Vec<Option<u32>>,
    node: u32,
    depth: u32,
) -> Result<(), AllocError>
    requires { node < length depths.old.items }
    ensures count { length depths.new.items ≡ length depths.old.items }
    ensures queue { OnOk result
        (queue.new.items ≡ queued queue.old.items (get_or depths.old.items node None) node) }
    ensures each { OnOk result ((n : ℕ) → n < length depths.old.items
        → get_or depths.new.items n None
        ≡ filled (get_or depths.old.items n None) (node == n) depth) }
{
    let place = node as usize;
    if depths[place].is_none() {
        queue.push(node)?;
        depths[place] = Some(depth);
    }
    Ok(())
}

// Sees nodes at one depth. What the search keeps says nothing of where a node was found.
fn see_all(
    queue: &mut Vec<u32>,
    depths: &mut Vec<Option<u32>>,
    nodes: &[u32],
    depth: u32,
) -> Result<(), AllocError>
    requires { All (λ n. n < length depths.old.items) nodes.now }
    ensures count { length depths.new.items ≡ length depths.old.items }
    ensures sees { OnOk result ((seen : List Seen) (before : Option ℕ)
        → KeepsDepths seen queue.old.items depths.old.items
        → KeepsDepths (see_all before depth seen nodes.now) queue.new.items depths.new.items) }
{
    for node in nodes {
        see(queue, depths, *node, depth)?;
    }
    Ok(())
}

// The depth of a node that was seen.
fn depth_at(depths: &Vec<Option<u32>>, node: u32) -> u32
    requires { node < length depths.now.items }
    ensures { (depth : ℕ) → get_or depths.now.items node None ≡ Some depth → result ≡ depth }
{
    match depths[node as usize] {
        Some(depth) => depth,
        None => 0,
    }
}

/// For each node, by its number, the cost of the nearest walk that leads to it: a start of `own`
/// costs nothing, one of `held` 1, and each step 1. None where no walk leads there. The search
/// takes 12 bytes for each node of the graph, of which it gives 8 back.
pub fn depths(
    alloc: Global,
    graph: &Graph,
    own: &[u32],
    held: &[u32],
) -> Result<Vec<Option<u32>>, Fault>
    requires range { IsInRange graph.now }
    requires own { All (λ r. r < node_count graph.now) own.now }
    requires held { All (λ r. r < node_count graph.now) held.now }
    requires few { node_count graph.now < 4294967295 }
    ensures fault { Refuses result None }
    ensures count { IfOk result (λ depths. length depths.items ≡ node_count graph.now) }
    ensures nearest { IfOk result (λ depths. (n : ℕ) → n < node_count graph.now
        → IsDepth graph.now own.now held.now n (get_or depths.items n None)) }
{
    let mut depths = unseen(alloc, graph.edges.len())?;

    // No node is seen twice, so the queue never grows.
    let mut queue = Vec::with_capacity(alloc, graph.edges.len())?;
    see_all(&mut queue, &mut depths, own, 0)?;
    see_all(&mut queue, &mut depths, held, 1)?;

    // The targets of all before this place have been seen.
    let mut next: u32 = 0;
    while (next as usize) < queue.len() {
        let node = queue[next as usize];
        let depth = depth_at(&depths, node);
        see_all(&mut queue, &mut depths, graph.targets(node), depth + 1)?;
        next += 1;
    }
    Ok(depths)
}
