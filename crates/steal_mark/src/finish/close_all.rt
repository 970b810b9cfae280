//! All deques are closed and drained.
ghost use Rattle.std.specs.Prelude.{◌≡◌, [], OnOk, length};
ghost use Rattle.mark_core.specs.Reach.{IsInRange};
ghost use Rattle.steal_mark.specs.Claiming.{IsSeatOf};
ghost use Rattle.steal_mark.specs.Closing.{Balanced};

use crate::finish::close::close;
use crate::finish::drain::drain;
use crate::shared::claim_table::{ClaimSeat, ClaimTable};
use crate::shared::deques::Deque;
use crate::turn::thief_pass::ThiefPass;
use mark_core::Graph;
use std::alloc::{AllocError, Global};

// Closes the deques from the last to the first, and scans what each still holds, at the end of
// its owner's list.
pub fn close_all(
    alloc: Global,
    claim_table: &ClaimTable,
    seat: &mut ClaimSeat,
    mut deques: Vec<Deque>,
    rows: &mut [Vec<ThiefPass>],
    graph: &Graph,
    lists: &mut [Vec<u32>],
) -> Result<(), AllocError>
    requires seat { IsSeatOf graph.now claim_table.now.shared.table_id seat.old }
    requires graph { graph.now ≡ claim_table.now.shared.key }
    requires range { IsInRange graph.now }
    requires balanced { Balanced graph.now deques.items rows.old lists.old seat.old.me.0 }
    ensures same { (seat.new.table_id ≡ seat.old.table_id) × (seat.new.me.1 ≡ seat.old.me.1) }
    ensures many { length lists.new ≡ length lists.old }
    ensures balanced { OnOk result (Balanced graph.now [] rows.new lists.new seat.new.me.0) }
{
    while let Some(mut deque) = deques.pop() {
        close(&mut deque, rows, graph, deques.as_slice());
        drain(
            alloc,
            claim_table,
            seat,
            &mut deque,
            graph,
            &mut lists[deques.len()],
        )?;
    }
    Ok(())
}
