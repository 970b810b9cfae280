//! The claim words, the deques, and the roots.
ghost use Rattle.std.specs.Prelude.{◌≡◌, ◌<◌, [], All, IfOk, OnOk, Some, length};
ghost use Rattle.std.specs.Arc.{arc_value};
ghost use Rattle.crossbeam_deque.specs.Handles.{worker_flavor, worker_view};
ghost use Rattle.steal_mark.specs.Claiming.{claims, IsSeatOf};
ghost use Rattle.steal_mark.specs.Closing.{ids_of, pushed_in};
ghost use Rattle.steal_mark.specs.Dealing.{pass_view};
ghost use Rattle.steal_mark.specs.Growing.{MayClaim};
ghost use Rattle.steal_mark.specs.Starting.{Deals, IsDealing, IsFresh};

use crate::shared::claim_table::{ClaimSeat, ClaimTable, look, put};
use crate::shared::deques::{Deque, Names, Naming};
use mark_core::Graph;
use std::alloc::{AllocError, Global};
use std::marker::Brand;
use std::sync::Arc;

/// What a marking keeps beside its markers.
#[derive(Drop)]
pub struct Rest {
    pub(crate) claim_table: Arc<ClaimTable, Global>,
    pub(crate) seat: ClaimSeat,
    pub(crate) workers: usize,
}

// A deque whose first pass knows the graph.
fn new_deque<J: Naming>(alloc: Global, _graph: &Graph) -> Result<Deque, AllocError>
    ensures fifo { IfOk result (λ d. worker_flavor d ≡ 0) }
    ensures pass_view { IfOk result (λ d. worker_view d ≡ pass_view 1024 J.graph [] []) }
{
    let mut deque = Deque::fifo_as(alloc, 64)?;
    // For the prover: this split tells the deque's pass its graph. The new pass isn't needed.
    drop(deque.another::<Names<J>>());
    Ok(deque)
}

// A deque for each worker, for this graph.
pub fn new_deques(alloc: Global, graph: &Graph, workers: usize) -> Result<Vec<Deque>, AllocError>
    ensures many { IfOk result (λ ds. length ds.items ≡ workers) }
    ensures fresh { IfOk result (λ ds. All (IsFresh graph.now) ds.items) }
{
    let mut deques = Vec::new(alloc);
    for count in 0..workers {
        // The invariant counts the rounds; the body doesn't.
        let _ = count;
        deques.push(new_deque::<Brand>(alloc, graph)?)?;
    }
    Ok(deques)
}

// The claim words of a graph, all clear, and the seat that has every part.
pub fn new_claim_table(
    alloc: Global,
    graph: &Graph,
) -> Result<(Arc<ClaimTable, Global>, ClaimSeat), AllocError>
    ensures key { IfOk result (λ b. (arc_value b.0).shared.key ≡ graph.now) }
    ensures seat { IfOk result (λ b. IsSeatOf graph.now (arc_value b.0).shared.table_id b.1) }
    ensures view { IfOk result (λ b. b.1.me ≡ (claims 1024 [] [], [])) }
{
    let words = Vec::from_elem(alloc, 0u64, graph.edges.len() / 64 + 1)?;
    let (table, seat) = ClaimTable::of_words(alloc, words.as_slice(), graph)?;
    let claim_table = Arc::new(alloc, table)?;
    Ok((claim_table, seat))
}

// Claims each root, and puts those that were not claimed before to the deques in turn.
pub fn deal(
    claim_table: &ClaimTable,
    seat: &mut ClaimSeat,
    deques: &mut [Deque],
    roots: &[u32],
) -> Result<(), AllocError>
    requires seat { IsSeatOf claim_table.now.shared.key claim_table.now.shared.table_id seat.old }
    requires part { 0 < seat.old.me.0.parts }
    requires roots { MayClaim claim_table.now.shared.key roots.now }
    requires deques { All (IsDealing claim_table.now.shared.key) deques.old }
    requires some_deque { 0 < length deques.old }
    ensures same { (seat.new.table_id ≡ seat.old.table_id) × (seat.new.me.1 ≡ seat.old.me.1) }
    ensures deals { OnOk result (Deals claim_table.now.shared.key roots.now seat.old.me.0 seat.new.me.0
        deques.old deques.new) }
{
    let mut next = 0;
    for root in roots {
        if look(claim_table, seat, *root) {
            put(&mut deques[next], *root)?;
            next = (next + 1) % deques.len();
        }
    }
    Ok(())
}
