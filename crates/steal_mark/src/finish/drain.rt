//! What a closed deque still holds.
ghost use Rattle.std.specs.Prelude.{◌≡◌, ◌≤◌, ◌<◌, ◌/◌, ◌+◌, ℕ, OnOk, Some};
ghost use Rattle.crossbeam_deque.specs.Handles.{worker_flavor, worker_view};
ghost use Rattle.mark_core.specs.Bits.{times};
ghost use Rattle.mark_core.specs.Reach.{IsInRange, node_count};
ghost use Rattle.steal_mark.specs.Claiming.{Knows, IsSeatOf};
ghost use Rattle.steal_mark.specs.Dealing.{SameDeque, NoMore};
ghost use Rattle.steal_mark.specs.Draining.{DrainsAll};

use crate::shared::claim_table::{ClaimSeat, ClaimTable, take};
use crate::shared::claims::Learn;
use crate::shared::deques::{Deque, Naming, Total};
use crate::turn::ahead::Ahead;
use crate::turn::scan::scan;
use mark_core::Graph;
use std::alloc::{AllocError, Global};
use std::marker::Brand;

// For proofs alone: shows the seat that has every part what all have claimed.
pub fn learn<J: Naming>(claim_table: &ClaimTable, seat: &mut ClaimSeat)
    requires graph { J.graph ≡ Some claim_table.now.shared.key }
    requires seat { IsSeatOf claim_table.now.shared.key claim_table.now.shared.table_id seat.old }
    requires whole { seat.old.me.0.parts ≡ 1024 }
    ensures same { (seat.new.table_id ≡ seat.old.table_id) × (seat.new.me ≡ seat.old.me) }
    ensures knows { Knows claim_table.now.shared.key seat.old.me.0 }
{
    // For the prover: a load tells the seat of all claims. The loaded word isn't needed.
    claim_table.shared.load::<Learn<J>>(seat, 0);
}

// For proofs alone: shows the pass that has every part that no more was taken than was pushed.
pub fn count(deque: &mut Deque)
    requires whole { (worker_view deque.old).parts ≡ 1024 }
    ensures same { worker_view deque.new ≡ worker_view deque.old }
    ensures less { (n : ℕ) → times n (worker_view deque.old).taken ≤ times n
        (worker_view deque.old).pushed }
{
    // For the prover: asking for the length tells the pass. The length isn't needed.
    deque.len_as::<Total>();
}

// Scans what the deque still holds. Of the markers' seats and passes none is left, so that it ends.
pub fn drain(
    alloc: Global,
    claim_table: &ClaimTable,
    seat: &mut ClaimSeat,
    deque: &mut Deque,
    graph: &Graph,
    list: &mut Vec<u32>,
) -> Result<(), AllocError>
    requires seat { IsSeatOf graph.now claim_table.now.shared.table_id seat.old }
    requires graph { graph.now ≡ claim_table.now.shared.key }
    requires range { IsInRange graph.now }
    requires whole { (seat.old.me.0.parts ≡ 1024) × ((worker_view deque.old).parts ≡ 1024) }
    requires fifo { worker_flavor deque.old ≡ 0 }
    requires named { (worker_view deque.old).graph ≡ Some graph.now }
    requires backed { (n : ℕ) → times n (worker_view deque.old).pushed ≤ times n
        seat.old.me.0.claimed }
    ensures same { (seat.new.table_id ≡ seat.old.table_id) × (seat.new.me.1 ≡ seat.old.me.1) }
    ensures drains { OnOk result (DrainsAll graph.now seat.old.me.0 seat.new.me.0
        (worker_view deque.old) (worker_view deque.new) list.old.items list.new.items) }
{
    let mut ahead = Ahead::new(alloc);
    for count in 0..graph.edges.len() + 1 {
        // The rounds only bound the loop: the deque says when it ends.
        let _ = count;
        list.reserve(1)?;
        let Some(node) = take(deque) else {
            return Ok(());
        };
        ahead.took(node, graph);
        let targets = graph.targets(node);
        scan(claim_table, seat, deque, &mut ahead, targets)?;
        list.push_reserved(node);
    }
    // For the prover: these two tell that no more nodes were taken than the graph has.
    learn::<Brand>(claim_table, seat);
    self::count(deque);
    unreachable!()
}
