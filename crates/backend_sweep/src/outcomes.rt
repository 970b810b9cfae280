//! What became of the objects that were to go.
ghost use Rattle.std.specs.Prelude.{◌≡◌, None, IfOk};
ghost use Rattle.meta_types.specs.Faults.{Refuses};
ghost use Rattle.backend_sweep.specs.ObjectOutcomes.{AreOutcomesOf};

use meta_types::Fault;
use std::alloc::Global;
use std::marker::Model;
use table_sweep::Plan;

/// What became of an object that was to go. It is kept where the removal of what stands above it
/// failed.
#[derive(Clone, Copy, Debug, PartialEq, Eq)]
pub enum Outcome {
    Removed,
    Failed,
    Kept,
}

/// What became of each object of a plan, in the plan's order: one byte an object.
#[derive(Drop)]
pub struct Outcomes {
    pub blobs: Vec<Outcome>,
    pub ingests: Vec<Outcome>,
    pub snapshots: Vec<Outcome>,
}

impl Model for Outcomes {
    ghost use Rattle.backend_sweep.specs.ObjectOutcomes.{AllOutcomes};

    ghost Value = { AllOutcomes };

    ghost view = { λ f. record {
      blobs = f.blobs.items;
      ingests = f.ingests.items;
      snapshots = f.snapshots.items;
    } };
}

impl Outcomes {
    /// An outcome for each object of this plan, to be set.
    pub(crate) fn room(alloc: Global, plan: &Plan) -> Result<Outcomes, Fault>
        ensures fault { Refuses result None }
        ensures ok { IfOk result (AreOutcomesOf plan.now.report.backend) }
    {
        let blobs = Vec::from_elem(alloc, Outcome::Kept, plan.report.backend.blobs.len())?;
        let ingests = Vec::from_elem(alloc, Outcome::Kept, plan.report.backend.ingests.len())?;
        let snapshots = Vec::from_elem(alloc, Outcome::Kept, plan.report.backend.snapshots.len())?;
        Ok(Outcomes {
            blobs,
            ingests,
            snapshots,
        })
    }
}
