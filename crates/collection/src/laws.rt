//! What plan, sweep and report come to together, as the contract of a function that does nothing.
ghost use Rattle.collection.specs.Whole.{ASweptPlanIsACollection, APlanIsADryRun};

/// The plan of a store, the sweeps by it and its report are a collection of that store; the report
/// of a plan is that of a dry run.
pub fn a_plan_swept_and_reported_is_a_collection()
    ensures collects { ASweptPlanIsACollection }
    ensures plans { APlanIsADryRun }
{}
