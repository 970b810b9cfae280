//! The start of a marking: the roots are dealt out to the workers.
ghost use Rattle.std.specs.Prelude.{◌≡◌, ◌≢◌, ◌<◌, ◌≤◌, ◌+◌, ◌-◌, ℕ, [], All, IfOk, length};
ghost use Rattle.std.specs.Arc.{arc_value};
ghost use Rattle.crossbeam_deque.specs.Handles.{worker_view};
ghost use Rattle.mark_core.specs.Bits.{times};
ghost use Rattle.mark_core.specs.Reach.{IsInRange};
ghost use Rattle.meta_types.specs.declared.fault.Fault.TheVariants.{InvalidArgument};
ghost use Rattle.meta_types.specs.Faults.{Refuses, unless};
ghost use Rattle.meta_types.specs.Limits.{is_worker_count};
ghost use Rattle.steal_mark.specs.Claiming.{claims, IsSeatOf};
ghost use Rattle.steal_mark.specs.Closing.{ids_of, pushed_in};
ghost use Rattle.steal_mark.specs.Starting.{AreNewRows, Begins, IsSpread, Starts, pushed_to};

use crate::finish::drain::learn;
use crate::shared::claim_table::{ClaimSeat, ClaimTable};
use crate::shared::claims::{Gift, Give};
use crate::shared::deques::Deque;
use crate::start::passes::{new_rows, spread_all};
use crate::start::roots::{Rest, deal, new_claim_table, new_deques};
use crate::turn::ahead::Ahead;
use crate::turn::marker::Marker;
use crate::turn::thief_pass::ThiefPass;
use mark_core::Graph;
use meta_types::{Fault, is_worker_count};
use std::alloc::{AllocError, Global};
use std::marker::Brand;
use std::sync::Arc;

// A seat for the owner of this deque, with the claims of what was pushed to it. Those of the
// other deques are kept.
fn give<J: Gift>(
    claim_table: &ClaimTable,
    seat: &mut ClaimSeat,
    deque: &Deque,
    deques: &[Deque],
) -> ClaimSeat
    requires dealt { J.dealt ≡ (worker_view deque.now).pushed }
    requires kept { J.kept ≡ pushed_to deques.now }
    requires claim_table { seat.old.table_id ≡ claim_table.now.shared.table_id }
    requires wide { 0 < claim_table.now.shared.table_id.words }
    requires parts { 1 < seat.old.me.0.parts }
    requires all { (n : ℕ) → pushed_in n deques.now + times n (worker_view deque.now).pushed
        ≡ times n seat.old.me.0.claimed }
    ensures same { (seat.new.table_id ≡ seat.old.table_id) × (result.table_id ≡ seat.old.table_id) }
    ensures left { seat.new.me ≡ (
      claims (seat.old.me.0.parts - 1) (pushed_to deques.now)
          seat.old.me.0.seen,
      seat.old.me.1,
    ) }
    ensures right { result.me ≡ (claims 1 (worker_view deque.now).pushed seat.old.me.0.seen, []) }
{
    claim_table.shared.split_seat::<Give<J>>(seat)
}

// The markers, from the last to the first.
fn assemble(
    alloc: Global,
    claim_table: &Arc<ClaimTable, Global>,
    seat: &mut ClaimSeat,
    mut deques: Vec<Deque>,
    mut rows: Vec<Vec<ThiefPass>>,
    graph: &Graph,
) -> Result<Vec<Marker>, AllocError>
    requires graph { (arc_value claim_table.now).shared.key ≡ graph.now }
    requires seat { IsSeatOf graph.now (arc_value claim_table.now).shared.table_id seat.old }
    requires parts { (seat.old.me.0.parts ≡ 1024) × (length deques.items < 1024) }
    requires deques { All (IsSpread graph.now (length deques.items)) deques.items }
    requires rows { AreNewRows graph.now (ids_of deques.items) rows.items
        × (length rows.items ≡ length deques.items) }
    requires all { (n : ℕ) → pushed_in n deques.items ≡ times n seat.old.me.0.claimed }
    ensures same { (seat.new.table_id ≡ seat.old.table_id) × (seat.new.me.1 ≡ seat.old.me.1) }
    ensures starts { IfOk result (λ ms. Starts graph.now (arc_value claim_table.now)
        (ids_of deques.items) seat.old.me.0 seat.new.me.0 [] [] ms.items) }
{
    let mut markers = Vec::new(alloc);
    while let Some(deque) = deques.pop() {
        let Some(others) = rows.pop() else {
            unreachable!()
        };
        let theirs = give::<Brand>(claim_table, seat, &deque, deques.as_slice());
        let marker = Marker {
            number: deques.len(),
            claim_table: Arc::try_clone(claim_table)?,
            seat: theirs,
            deque,
            others,
            ahead: Ahead::new(alloc),
            scanned: Vec::new(alloc),
            refused: false,
        };
        markers.insert(0, marker)?;
    }
    Ok(markers)
}

/// Deals out the distinct roots of the graph to this number of workers.
pub fn marking(alloc: Global, graph: &Graph, workers: usize) -> Result<(Rest, Vec<Marker>), Fault>
    requires range { IsInRange graph.now }
    ensures fault { Refuses result (unless (is_worker_count workers) InvalidArgument) }
    ensures begins { IfOk result (λ r. Begins graph.now workers r.0 r.1.items) }
{
    if !is_worker_count(workers) {
        return Err(Fault::InvalidArgument);
    }
    let (claim_table, mut seat) = new_claim_table(alloc, graph)?;
    let mut deques = new_deques(alloc, graph, workers)?;
    deal(
        &claim_table,
        &mut seat,
        deques.as_mut_slice(),
        graph.roots.as_slice(),
    )?;
    // For the prover: this tells the seat, which has every part, that no node was claimed twice.
    learn::<Brand>(&claim_table, &mut seat);
    let mut rows = new_rows(alloc, workers)?;
    let opened = spread_all(alloc, deques, rows.as_mut_slice(), graph)?;
    let markers = assemble(alloc, &claim_table, &mut seat, opened, rows, graph)?;
    let rest = Rest {
        claim_table,
        seat,
        workers,
    };
    Ok((rest, markers))
}
