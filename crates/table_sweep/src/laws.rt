//! Laws of plans, each as the contract of a function that does nothing.
ghost use Rattle.table_sweep.specs.Laws.{ReachedMarksPlanACollection, APlanFollowsThePaths};

/// By marks that are the reached numbers, a plan is that of a collection: it removes a row exactly
/// if no path leads to it.
pub fn a_plan_follows_the_paths()
    ensures by_reached_marks { ReachedMarksPlanACollection }
    ensures by_paths { APlanFollowsThePaths }
{}
