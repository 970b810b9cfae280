//! Markers are taken apart into their seats, deques, passes and lists.
ghost use Rattle.std.specs.Prelude.{◌≡◌, ◌<◌, All, IfOk};
ghost use Rattle.steal_mark.specs.Team.{Apart, IsLoose};

use crate::shared::claim_table::{ClaimSeat, ClaimTable};
use crate::shared::claims::JoinClaims;
use crate::shared::deques::Deque;
use crate::turn::marker::Marker;
use crate::turn::thief_pass::ThiefPass;
use std::alloc::{AllocError, Global};

// Joins the markers' seats to this one, and gives their deques, their passes and their lists.
pub fn take_apart(
    alloc: Global,
    claim_table: &ClaimTable,
    seat: &mut ClaimSeat,
    markers: Vec<Marker>,
) -> Result<(Vec<Deque>, Vec<Vec<ThiefPass>>, Vec<Vec<u32>>), AllocError>
    requires wide { 0 < claim_table.now.shared.table_id.words }
    requires seat { (seat.old.table_id ≡ claim_table.now.shared.table_id) × (0 < seat.old.me.0.parts) }
    requires markers { All (IsLoose claim_table.now.shared.table_id) markers.items }
    ensures same { (seat.new.table_id ≡ seat.old.table_id) × (seat.new.me.1 ≡ seat.old.me.1) }
    ensures apart { IfOk result (λ p. Apart markers.items p.0.items p.1.items p.2.items
        seat.old.me.0 seat.new.me.0) }
{
    let mut deques = Vec::new(alloc);
    let mut rows = Vec::new(alloc);
    let mut lists = Vec::new(alloc);
    for marker in markers {
        let Marker {
            number: _,
            claim_table: _,
            seat: theirs,
            deque,
            others,
            ahead: _,
            scanned,
            refused: _,
        } = marker;
        claim_table.shared.join_seat::<JoinClaims>(seat, theirs);
        deques.push(deque)?;
        rows.push(others)?;
        lists.push(scanned)?;
    }
    Ok((deques, rows, lists))
}
