//! Laws of explanations, each as the contract of a function that does nothing.
ghost use Rattle.std.specs.Prelude.{◌≡◌, Bool, ℕ, List, ℤ, Contains, Some, true, int_le, is_some};
ghost use Rattle.meta_types.specs.Rows.{Records};
ghost use Rattle.meta_types.specs.Paths.{Thing, things, has_edge, IsPath};
ghost use Rattle.mark_core.specs.declared.graph.Graph.{Graph};
ghost use Rattle.gc_graph.specs.declared.node.Node.{Node};
ghost use Rattle.gc_graph.specs.Targets.{node_of};
ghost use Rattle.gc_graph.specs.Built.{number_of};
ghost use Rattle.mark_core.specs.Nearest.{IsWalkTo, IsNearest};
ghost use Rattle.explaining.specs.Explained.{IsSplitGraphOf, HasShortestPath, OneThingPerKey};
ghost use Rattle.meta_types.specs.Explanations.{Explains};
ghost use Rattle.meta_types.specs.Reasons.{reason_of};

/// A nearest walk to a thing's number is a path of references to the thing, and no path has fewer
/// things. If no walk leads to the number, no path ends in the thing.
pub fn walks_are_paths()
    ensures shortest { (records : Records) (at : ℤ) (book : List Node) (graph : Graph) (own held : List ℕ)
        → IsSplitGraphOf records at book graph own held
        → (thing : Thing) (node : Node) (n : ℕ) → Contains (things records) thing
        → node_of thing ≡ Some node → number_of book node ≡ Some n
        → (walk : List ℕ) → IsNearest graph own held n walk → HasShortestPath records at thing }
    ensures none { (records : Records) (at : ℤ) (book : List Node) (graph : Graph) (own held : List ℕ)
        → IsSplitGraphOf records at book graph own held
        → (thing : Thing) (node : Node) (n : ℕ) → Contains (things records) thing
        → node_of thing ≡ Some node → number_of book node ≡ Some n
        → ((walk : List ℕ) (cost : ℕ) → IsWalkTo graph own held n cost walk → ⊥)
        → (path : List Thing) → IsPath records at thing path → ⊥ }
{}

/// A thing references another exactly if there is a reason.
pub fn each_reference_has_its_reason()
    ensures { (a b : Thing) → is_some (reason_of a b) ≡ has_edge a b }
{}

/// If each kind has one row a key, there is one explanation.
pub fn explanations_are_one()
    ensures { (records : Records) → OneThingPerKey records → (at : ℤ) (asked : Thing → Bool)
        (p q : List Thing) → Explains records at asked p → Explains records at asked q → p ≡ q }
{}

/// A path at a later moment is a path now, by the same things: roots end, and none begins.
pub fn roots_only_end()
    ensures { (records : Records) (at later : ℤ) (last : Thing) (path : List Thing)
        → int_le at later ≡ true → IsPath records later last path → IsPath records at last path }
{}
