//! The passes of all workers on all deques.
ghost use Rattle.std.specs.Prelude.{◌≡◌, ◌<◌, ◌∷◌, ◌++◌, [], All, IfOk, OnOk, length};
ghost use Rattle.crossbeam_deque.specs.Handles.{worker_deque, worker_flavor, worker_view};
ghost use Rattle.steal_mark.specs.Closing.{ids_of};
ghost use Rattle.steal_mark.specs.Dealing.{SameDeque};
ghost use Rattle.steal_mark.specs.Starting.{AreNewRows, IsCut, IsDealing, IsSpread, part_of, pushes_of};

use crate::shared::deques::{Deque, EmptyPass, SplitPass};
use crate::turn::thief_pass::ThiefPass;
use mark_core::Graph;
use std::alloc::{AllocError, Global};

// A pass on this deque, with no part of it where it is its owner's.
fn pass_on(deque: &mut Deque, own: bool) -> Result<ThiefPass, AllocError>
    requires fifo { worker_flavor deque.old ≡ 0 }
    requires parts { 1 < (worker_view deque.old).parts }
    ensures same { SameDeque deque.old deque.new }
    ensures cut { IfOk result (λ o. IsCut (part_of own) deque.old deque.new o) }
{
    let stealer = deque.stealer()?;
    let pass = if own {
        deque.another::<EmptyPass>()
    } else {
        deque.another::<SplitPass>()
    };
    Ok(ThiefPass { stealer, pass })
}

// Gives each worker a pass on this deque, as the last of its row.
fn spread(
    deque: &mut Deque,
    rows: &mut [Vec<ThiefPass>],
    graph: &Graph,
    deques: &[Deque],
) -> Result<(), AllocError>
    requires deque { IsDealing graph.now deque.old }
    requires rows { AreNewRows graph.now (ids_of deques.now) rows.old }
    requires own { length deques.now < length rows.old }
    requires few { length rows.old < 1024 }
    ensures same { SameDeque deque.old deque.new }
    ensures rows { OnOk result (AreNewRows graph.now
        (ids_of deques.now ++ worker_deque deque.old ∷ []) rows.new) }
    ensures many { length rows.new ≡ length rows.old }
    ensures spread { OnOk result (IsSpread graph.now (length rows.old) deque.new) }
    ensures pushed { OnOk result ((worker_view deque.new).pushed ≡ (worker_view deque.old).pushed) }
{
    for (k, row) in rows.iter_mut().enumerate() {
        let other = pass_on(deque, k == deques.len())?;
        row.push(other)?;
    }
    Ok(())
}

// Gives each worker a pass on each deque.
pub fn spread_all(
    alloc: Global,
    deques: Vec<Deque>,
    rows: &mut [Vec<ThiefPass>],
    graph: &Graph,
) -> Result<Vec<Deque>, AllocError>
    requires deques { All (IsDealing graph.now) deques.items }
    requires rows { AreNewRows graph.now [] rows.old }
    requires many { length deques.items ≡ length rows.old }
    requires few { length rows.old < 1024 }
    ensures rows { IfOk result (λ opened. AreNewRows graph.now (ids_of opened.items) rows.new) }
    ensures many { IfOk result (λ opened. (length rows.new ≡ length rows.old)
        × (length opened.items ≡ length rows.old)) }
    ensures spread { IfOk result (λ opened. All (IsSpread graph.now (length rows.old))
        opened.items) }
    ensures pushed { IfOk result (λ opened. pushes_of opened.items ≡ pushes_of deques.items) }
{
    let mut opened = Vec::new(alloc);
    for mut deque in deques {
        spread(&mut deque, rows, graph, opened.as_slice())?;
        opened.push(deque)?;
    }
    Ok(opened)
}

// An empty row for each worker.
pub fn new_rows(alloc: Global, workers: usize) -> Result<Vec<Vec<ThiefPass>>, AllocError>
    ensures many { IfOk result (λ rows. length rows.items ≡ workers) }
    ensures empty { IfOk result (λ rows. All (λ row. row.items ≡ []) rows.items) }
{
    let mut rows = Vec::new(alloc);
    for count in 0..workers {
        // The invariant counts the rounds; the body doesn't.
        let _ = count;
        rows.push(Vec::new(alloc))?;
    }
    Ok(rows)
}
