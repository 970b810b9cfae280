//! One look at a node's claim, and one put, take or steal at a deque.
ghost use Rattle.std.specs.Prelude.{◌≡◌, ◌<◌, ◌/◌, ◌+◌, ◌∷◌, [], MatchBool, OnOk, IfSome, IfNone};
ghost use Rattle.crossbeam_deque.specs.Handles.{view, IsPassOf, SamePass, stealer_deque, stealer_flavor, worker_flavor, worker_view};
ghost use Rattle.mark_core.specs.Reach.{Reached, node_count};
ghost use Rattle.steal_mark.specs.Claiming.{looked};
ghost use Rattle.steal_mark.specs.Dealing.{ReachedIn, Pushed, Taken, Emptied, SameDeque};

use crate::shared::claims::{ClaimRule, Claims, Look};
use crate::shared::deques::{Deque, NodePass, Puts, Takes, Thief};
use atomic_table::{Seat, Table};
use mark_core::Graph;
use std::alloc::{AllocError, Global};

pub type ClaimTable = Table<(), Claims, Graph, ClaimRule, Global>;

pub type ClaimSeat = Seat<(), Claims>;

// Claims a node, and says whether it was not claimed before.
pub fn look(claim_table: &ClaimTable, seat: &mut ClaimSeat, node: u32) -> bool
    requires claim_table { seat.old.table_id ≡ claim_table.now.shared.table_id }
    requires wide { claim_table.now.shared.table_id.words ≡ node_count claim_table.now.shared.key / 64 + 1 }
    requires reached { Reached claim_table.now.shared.key node
        × (node < node_count claim_table.now.shared.key) }
    requires part { 0 < seat.old.me.0.parts }
    ensures same { (seat.new.table_id ≡ seat.old.table_id) × (seat.new.me.1 ≡ seat.old.me.1) }
    ensures looked { MatchBool result (seat.new.me.0 ≡ looked node 0 seat.old.me.0) (seat.new.me.0
        ≡ looked node 1 seat.old.me.0) }
{
    let word = (node / 64) as usize;
    let mask = 1u64 << (node % 64);
    let found = claim_table.shared.fetch_or::<Look>(seat, word, mask);
    found & mask == 0
}

// Puts a node behind the others. At `Err` the deque has refused it.
pub fn put(deque: &mut Deque, node: u32) -> Result<(), AllocError>
    requires part { 0 < (worker_view deque.old).parts }
    requires reached { ReachedIn (worker_view deque.old).graph node }
    ensures same { SameDeque deque.old deque.new }
    ensures ok { OnOk result (Pushed (worker_view deque.old) (node ∷ []) (worker_view deque.new)) }
{
    match deque.push_as::<Puts>(node) {
        Ok(()) => Ok(()),
        Err(_) => Err(AllocError),
    }
}

// Takes the first node of the own deque.
pub fn take(deque: &mut Deque) -> Option<u32>
    requires part { 0 < (worker_view deque.old).parts }
    requires first_in_first_out { worker_flavor deque.old ≡ 0 }
    ensures same { SameDeque deque.old deque.new }
    ensures some { IfSome result (λ node. Taken (worker_view deque.old) (node ∷ [])
        (worker_view deque.new)) }
    ensures none { IfNone result ((worker_view deque.new ≡ worker_view deque.old)
        × Emptied (worker_view deque.old)) }
{
    deque.pop_as::<Takes>()
}

// Takes the first node of another's deque.
pub fn steal(stealer: &Thief, pass: &mut NodePass) -> Option<u32>
    requires pass { IsPassOf (stealer_deque stealer.now) pass.old }
    requires part { 0 < (view pass.old).parts }
    requires first_in_first_out { stealer_flavor stealer.now ≡ 0 }
    ensures same { SamePass pass.old pass.new }
    ensures some { IfSome result (λ node. Taken (view pass.old) (node ∷ []) (view pass.new)) }
    ensures none { IfNone result (view pass.new ≡ view pass.old) }
{
    stealer.steal_as::<Takes>(pass).success()
}
