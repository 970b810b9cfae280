//! Of all nodes that lead to one from a step nearer, the one whose thing goes first.
ghost use Rattle.std.specs.Prelude.{◌≡◌, ◌<◌, ◌==◌, ◌&&◌, ℕ, true, length, get_or, All, None, IfOk, IfSome};
ghost use Rattle.std.specs.List.{list_any};
ghost use Rattle.meta_types.specs.Faults.{Refuses};
ghost use Rattle.mark_core.specs.Reach.{IsInRange, node_count};
ghost use Rattle.gc_graph.specs.Stored.{records_of};
ghost use Rattle.mark_core.specs.Firsts.{is_step, leads};
ghost use Rattle.explaining.specs.ThingRows.{numbered};
ghost use Rattle.explaining.specs.Firsts.{chosen, number_before, first_leading, AreWithin};

use crate::order::goes_before;
use crate::things::thing_at;
use gc_graph::StoreRows;
use mark_core::Graph;
use meta_types::Fault;
use std::alloc::Global;

fn is_step(here: Option<u32>, there: Option<u32>) -> bool
    ensures { result ≡ is_step here there }
{
    match (here, there) {
        (Some(a), Some(b)) => u64::from(a) + 1 == u64::from(b),
        (Some(_), None) => false,
        (None, _) => false,
    }
}

// Of a new number and the one so far, the one whose thing goes first.
fn chosen(rows: &StoreRows<'_>, new: u32, best: Option<u32>) -> Option<u32>
    requires new { new < length (numbered (records_of rows.now)) }
    requires best { IfSome best (λ b. b < length (numbered (records_of rows.now))) }
    ensures { result ≡ chosen (number_before (records_of rows.now)) true new best }
{
    match best {
        None => Some(new),
        Some(one) => {
            if goes_before(thing_at(rows, new), thing_at(rows, one)) {
                Some(new)
            } else {
                Some(one)
            }
        }
    }
}

// Puts the number where the target is a step farther, unless another goes before it there.
fn put(
    rows: &StoreRows<'_>,
    from: u32,
    target: u32,
    depths: &[Option<u32>],
    before: &mut [Option<u32>],
)
    requires from { from < length depths.now }
    requires target { target < length depths.now }
    requires count { length before.old ≡ length depths.now }
    requires numbers { length depths.now ≡ length (numbered (records_of rows.now)) }
    requires within { AreWithin (length (numbered (records_of rows.now))) before.old }
    ensures count { length before.new ≡ length before.old }
    ensures each { (t : ℕ) → t < length depths.now → get_or before.new t None
        ≡ chosen (number_before (records_of rows.now)) ((target == t)
        && is_step (get_or depths.now from None) (get_or depths.now t None)) from
        (get_or before.old t None) }
{
    let place = target as usize;
    if is_step(depths[from as usize], depths[place]) {
        before[place] = chosen(rows, from, before[place]);
    }
}

fn put_all(
    rows: &StoreRows<'_>,
    from: u32,
    targets: &[u32],
    depths: &[Option<u32>],
    before: &mut [Option<u32>],
)
    requires from { from < length depths.now }
    requires range { All (λ t. t < length depths.now) targets.now }
    requires count { length before.old ≡ length depths.now }
    requires numbers { length depths.now ≡ length (numbered (records_of rows.now)) }
    requires within { AreWithin (length (numbered (records_of rows.now))) before.old }
    ensures count { length before.new ≡ length before.old }
    ensures each { (t : ℕ) → t < length depths.now → get_or before.new t None
        ≡ chosen (number_before (records_of rows.now)) (list_any (λ b. b == t) targets.now
        && is_step (get_or depths.now from None) (get_or depths.now t None)) from
        (get_or before.old t None) }
{
    for target in targets {
        put(rows, from, *target, depths, before);
    }
}

// Puts the number where it leads a step farther, unless another goes before it there.
fn put_from(
    rows: &StoreRows<'_>,
    graph: &Graph,
    from: u32,
    depths: &[Option<u32>],
    before: &mut Vec<Option<u32>>,
)
    requires range { IsInRange graph.now }
    requires nodes { length depths.now ≡ node_count graph.now }
    requires from { from < length depths.now }
    requires count { length before.old.items ≡ length depths.now }
    requires numbers { length depths.now ≡ length (numbered (records_of rows.now)) }
    requires within { AreWithin (length (numbered (records_of rows.now))) before.old.items }
    ensures count { length before.new.items ≡ length before.old.items }
    ensures each { (t : ℕ) → t < length depths.now → get_or before.new.items t None
        ≡ chosen (number_before (records_of rows.now)) (leads graph.now depths.now from t) from
        (get_or before.old.items t None) }
{
    put_all(rows, from, graph.targets(from), depths, before);
}

// For each node, of all that lead to it and are a step nearer, the one whose thing goes first. Goes
// over each edge once, and compares keys where two meet.
pub(crate) fn first_before(
    alloc: Global,
    rows: &StoreRows<'_>,
    graph: &Graph,
    depths: &[Option<u32>],
) -> Result<Vec<Option<u32>>, Fault>
    requires range { IsInRange graph.now }
    requires count { length depths.now ≡ node_count graph.now }
    requires numbers { length depths.now ≡ length (numbered (records_of rows.now)) }
    requires few { node_count graph.now < 4294967295 }
    ensures fault { Refuses result None }
    ensures count { IfOk result (λ before. length before.items ≡ length depths.now) }
    ensures within { IfOk result (λ before. AreWithin (length before.items) before.items) }
    ensures first { IfOk result (λ before. (t : ℕ) → t < length depths.now
        → get_or before.items t None
        ≡ first_leading (records_of rows.now) graph.now depths.now t (length depths.now)) }
{
    let mut before = Vec::with_capacity(alloc, depths.len())?;
    before.resize(depths.len(), None)?;
    for from in 0..depths.len() {
        put_from(rows, graph, from as u32, depths, &mut before);
    }
    Ok(before)
}
