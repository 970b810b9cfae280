//! What follows from the definitions alone.
ghost use Rattle.std.specs.Prelude.{◌≡◌, ℕ, List, [], ◌∷◌};
ghost use Rattle.mark_core.specs.declared.graph.Graph.{Graph};
ghost use Rattle.mark_core.specs.declared.event.MarkEvent.{MarkEvent};
ghost use Rattle.mark_core.specs.Claims.{claim_all};
ghost use Rattle.mark_core.specs.Machine.{Machine, Run, IsFirstBad, deal, idle};

/// Events lead to one state, or there is one first event that isn't allowed, and never both.
pub fn a_run_has_one_answer()
    ensures state { (g : Graph) (m : Machine) (events : List MarkEvent) (a b : Machine)
        → Run g m events a → Run g m events b → a ≡ b }
    ensures place { (g : Graph) (m : Machine) (events : List MarkEvent) (p q : ℕ)
        → IsFirstBad g m events p → IsFirstBad g m events q → p ≡ q }
    ensures never_both { (g : Graph) (m : Machine) (events : List MarkEvent) (a : Machine) (p : ℕ)
        → Run g m events a → IsFirstBad g m events p → ⊥ }
{}

/// A root that is listed twice is claimed once, at its first place, and roots go to the queues in
/// turn: worked starts, computed.
pub fn roots_are_dealt_in_turn()
    ensures distinct { claim_all [] (7 ∷ 4 ∷ 7 ∷ 5 ∷ 4 ∷ []) ≡ 7 ∷ 4 ∷ 5 ∷ [] }
    ensures in_turn { deal (idle ∷ idle ∷ []) 0 (7 ∷ 4 ∷ 5 ∷ [])
        ≡ record { queue = 7 ∷ 5 ∷ []; log = []; hand = None }
        ∷ record { queue = 4 ∷ []; log = []; hand = None }
        ∷ [] }
{}
