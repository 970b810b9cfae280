//! The scan of one node.
ghost use Rattle.std.specs.Prelude.{◌≡◌, ◌<◌, ◌/◌, ◌+◌, OnOk, Some};
ghost use Rattle.crossbeam_deque.specs.Handles.{worker_view};
ghost use Rattle.mark_core.specs.Reach.{node_count};
ghost use Rattle.steal_mark.specs.Dealing.{SameDeque};
ghost use Rattle.steal_mark.specs.Growing.{Grows, MayClaim};

use crate::shared::claim_table::{ClaimSeat, ClaimTable, look, put};
use crate::shared::deques::Deque;
use crate::turn::ahead::Ahead;
use std::alloc::AllocError;

// Looks at each target, and puts those that were not claimed before.
pub fn scan(
    claim_table: &ClaimTable,
    seat: &mut ClaimSeat,
    deque: &mut Deque,
    ahead: &mut Ahead,
    targets: &[u32],
) -> Result<(), AllocError>
    requires claim_table { seat.old.table_id ≡ claim_table.now.shared.table_id }
    requires wide { claim_table.now.shared.table_id.words ≡ node_count claim_table.now.shared.key / 64 + 1 }
    requires targets { MayClaim claim_table.now.shared.key targets.now }
    requires seat_part { 0 < seat.old.me.0.parts }
    requires deque_part { 0 < (worker_view deque.old).parts }
    requires graph { (worker_view deque.old).graph ≡ Some claim_table.now.shared.key }
    ensures same { (seat.new.table_id ≡ seat.old.table_id) × (seat.new.me.1 ≡ seat.old.me.1)
        × SameDeque deque.old deque.new }
    ensures grows { OnOk result (Grows targets.now seat.old.me.0 seat.new.me.0
        (worker_view deque.old) (worker_view deque.new)) }
{
    for target in targets {
        if look(claim_table, seat, *target) {
            put(deque, *target)?;
            ahead.note(*target);
        }
    }
    Ok(())
}
