//! The marks and the lists.
ghost use Rattle.std.specs.Prelude.{◌≡◌, ◌<◌, ◌↔◌, ◌⊎◌, ◌/◌, [], ℕ, All, IfOk, Some, length};
ghost use Rattle.mark_core.specs.Bits.{bit_of, times};
ghost use Rattle.mark_core.specs.Reach.{IsInRange, Reached, node_count};
ghost use Rattle.steal_mark.specs.Claiming.{IsSeatOf};
ghost use Rattle.steal_mark.specs.Closing.{Balanced, listing};
ghost use Rattle.steal_mark.specs.Listing.{listed, HoldsEachOnce};

use crate::finish::drain::learn;
use crate::shared::claim_table::{ClaimSeat, ClaimTable};
use crate::turn::thief_pass::ThiefPass;
use mark_core::{Graph, Marks};
use std::alloc::{AllocError, Global};
use std::marker::Brand;

// Marks the nodes of one list.
fn mark_list(marks: &mut Marks, list: &[u32])
    requires { All (λ n. n / 64 < length marks.old) list.now }
    ensures len { length marks.new ≡ length marks.old }
    ensures bits { (n : ℕ) → (bit_of marks.new n ≡ 1)
        ↔ ((bit_of marks.old n ≡ 1) ⊎ (0 < times n list.now)) }
{
    for node in list {
        marks.insert(*node);
    }
}

// Marks the nodes of all lists.
fn marks_of(alloc: Global, graph: &Graph, lists: &[Vec<u32>]) -> Result<Marks, AllocError>
    requires { (n : ℕ) → 0 < listed n (listing lists.now) → n < node_count graph.now }
    ensures { IfOk result (λ m. (n : ℕ) → (bit_of m n ≡ 1) ↔ (0 < listed n (listing lists.now))) }
{
    let mut marks = Marks::empty(alloc, graph.edges.len())?;
    for list in lists {
        mark_list(&mut marks, list.as_slice());
    }
    Ok(marks)
}

// Once no deque is open, the lists hold each reached node once, and the marks are the reached
// nodes.
pub fn conclude(
    alloc: Global,
    claim_table: &ClaimTable,
    seat: &mut ClaimSeat,
    rows: &[Vec<ThiefPass>],
    graph: &Graph,
    lists: &[Vec<u32>],
) -> Result<Marks, AllocError>
    requires seat { IsSeatOf graph.now claim_table.now.shared.table_id seat.old }
    requires graph { graph.now ≡ claim_table.now.shared.key }
    requires range { IsInRange graph.now }
    requires balanced { Balanced graph.now [] rows.now lists.now seat.old.me.0 }
    ensures lists { HoldsEachOnce graph.now (listing lists.now) }
    ensures marks { IfOk result (λ m. (n : ℕ) → (bit_of m n ≡ 1) ↔ Reached graph.now n) }
{
    // For the prover: this tells that each claimed node is reached, and was claimed once.
    learn::<Brand>(claim_table, seat);
    marks_of(alloc, graph, lists)
}
