//! Of all numbers that are asked for, the one that a shortest path leads to.
ghost use Rattle.std.specs.Prelude.{◌≡◌, ◌<◌, ◌&&◌, ℕ, length, get_or, Some, None, IfSome, is_some};
ghost use Rattle.gc_graph.specs.Stored.{records_of};
ghost use Rattle.explaining.specs.ThingRows.{thing_of, numbered, thing_at};
ghost use Rattle.explaining.specs.Firsts.{chosen, number_before};
ghost use Rattle.explaining.specs.Ends.{depth_before, nearer, is_end, nearest_below};
ghost use Rattle.explaining.specs.Questions.{asked_by};

use crate::asked::{Question, asks_for};
use crate::order::goes_before;
use crate::things::thing_at;
use gc_graph::StoreRows;

// The smaller depth goes first, what no walk reaches goes last; `rest` decides ties.
fn depth_before(a: Option<u32>, b: Option<u32>, rest: bool) -> bool
    ensures { result ≡ depth_before a b rest }
{
    match (a, b) {
        (Some(near), Some(far)) => near < far || (near == far && rest),
        (Some(_), None) => true,
        (None, Some(_)) => false,
        (None, None) => rest,
    }
}

fn nearer(rows: &StoreRows<'_>, depths: &[Option<u32>], a: u32, b: u32) -> bool
    requires a { a < length depths.now }
    requires b { b < length depths.now }
    requires numbers { length depths.now ≡ length (numbered (records_of rows.now)) }
    ensures { result ≡ nearer (records_of rows.now) depths.now a b }
{
    let rest = goes_before(thing_at(rows, a), thing_at(rows, b));
    depth_before(depths[a as usize], depths[b as usize], rest)
}

// Whether the number's thing is asked for, and some path ends in it.
fn is_end(rows: &StoreRows<'_>, question: Question<'_>, depths: &[Option<u32>], number: u32) -> bool
    requires number { number < length depths.now }
    requires numbers { length depths.now ≡ length (numbered (records_of rows.now)) }
    ensures { result ≡ is_end (records_of rows.now) (asked_by question.entry) depths.now number }
{
    asks_for(question, thing_at(rows, number)) && depths[number as usize].is_some()
}

// Of a new number that fits and the one so far, the nearer.
fn chosen(
    rows: &StoreRows<'_>,
    depths: &[Option<u32>],
    fits: bool,
    new: u32,
    best: Option<u32>,
) -> Option<u32>
    requires new { new < length depths.now }
    requires best { IfSome best (λ b. b < length depths.now) }
    requires numbers { length depths.now ≡ length (numbered (records_of rows.now)) }
    ensures chosen { result ≡ chosen (nearer (records_of rows.now) depths.now) fits new best }
    ensures range { IfSome result (λ b. b < length depths.now) }
{
    match best {
        None => { if fits { Some(new) } else { None } }
        Some(one) => {
            if fits && nearer(rows, depths, new, one) {
                Some(new)
            } else {
                Some(one)
            }
        }
    }
}

// The nearest number whose thing is asked for; of equals the one whose thing goes first.
pub(crate) fn nearest(
    rows: &StoreRows<'_>,
    question: Question<'_>,
    depths: &[Option<u32>],
) -> Option<u32>
    requires numbers { length depths.now ≡ length (numbered (records_of rows.now)) }
    requires few { length depths.now < 4294967295 }
    ensures nearest { result ≡ nearest_below (records_of rows.now) (asked_by question.entry)
        depths.now (length depths.now) }
    ensures range { IfSome result (λ b. b < length depths.now) }
{
    let mut best = None;
    for number in 0..depths.len() {
        let fits = is_end(rows, question, depths, number as u32);
        best = chosen(rows, depths, fits, number as u32, best);
    }
    best
}
