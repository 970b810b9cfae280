//! One deque takes in its passes.
ghost use Rattle.std.specs.Prelude.{◌≡◌, ◌<◌, ◌+◌, ◌++◌, ◌∷◌, [], ℕ, All, length, Some};
ghost use Rattle.crossbeam_deque.specs.Handles.{worker_deque, worker_view};
ghost use Rattle.mark_core.specs.Bits.{times};
ghost use Rattle.steal_mark.specs.Dealing.{SameDeque};
ghost use Rattle.steal_mark.specs.Closing.{AreRows, ids_of, taken_in};

use crate::shared::deques::{Deque, SplitPass};
use crate::turn::thief_pass::ThiefPass;
use mark_core::Graph;

// Takes in the passes on this deque, which are the last of each row.
pub fn close(deque: &mut Deque, rows: &mut [Vec<ThiefPass>], graph: &Graph, deques: &[Deque])
    requires rows { AreRows graph.now (ids_of deques.now ++ worker_deque deque.old ∷ []) rows.old }
    requires own { length deques.now < length rows.old }
    requires part { 0 < (worker_view deque.old).parts }
    ensures rows { AreRows graph.now (ids_of deques.now) rows.new
        × (length rows.new ≡ length rows.old) }
    ensures same { SameDeque deque.old deque.new
        × ((worker_view deque.new).graph ≡ (worker_view deque.old).graph) }
    ensures parts { (worker_view deque.new).parts + 1 ≡ (worker_view deque.old).parts
        + length rows.old }
    ensures pushed { (n : ℕ) → times n (worker_view deque.new).pushed
        ≡ times n (worker_view deque.old).pushed }
    ensures taken { (n : ℕ) → times n (worker_view deque.new).taken + taken_in n rows.new
        ≡ times n (worker_view deque.old).taken + taken_in n rows.old }
{
    for row in rows.iter_mut() {
        let Some(other) = row.pop() else {
            unreachable!()
        };
        let ThiefPass { stealer, pass } = other;
        deque.absorb::<SplitPass>(pass);
        // For the prover: dropped by a call, not in place.
        drop(stealer);
    }
}
