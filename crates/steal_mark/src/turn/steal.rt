//! Stealing a node from the other workers' deques.
ghost use Rattle.std.specs.Prelude.{◌≡◌, All, map, IfSome, IfNone};
ghost use Rattle.mark_core.specs.Reach.{Reached};
ghost use Rattle.steal_mark.specs.Stealing.{IsOther, IsPlaced, pass_views, parts_of, TookOne};

use crate::shared::claim_table::steal;
use crate::turn::thief_pass::ThiefPass;
use mark_core::Graph;

// Takes a node of another worker's deque. It tries each once.
pub fn steal_any(others: &mut [ThiefPass], number: usize, graph: &Graph) -> Option<u32>
    requires sound { All (IsOther graph.now) others.old }
    requires placed { IsPlaced number (parts_of others.old) }
    ensures sound { All (IsOther graph.now) others.new }
    ensures parts { parts_of others.new ≡ parts_of others.old }
    ensures stealers { map (λ o. o.stealer) others.new ≡ map (λ o. o.stealer) others.old }
    ensures some { IfSome result (λ n. Reached graph.now n
        × TookOne n (pass_views others.old) (pass_views others.new)) }
    ensures none { IfNone result (pass_views others.new ≡ pass_views others.old) }
{
    for (k, other) in others.iter_mut().enumerate() {
        if k != number {
            let found = steal(&other.stealer, &mut other.pass);
            if found.is_some() {
                return found;
            }
        }
    }
    None
}
