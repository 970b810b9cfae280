//! Who collects, as a caller asks for it.
ghost use Rattle.std.specs.Prelude.{◌≡◌, IfSome, IfNone, false};
ghost use Rattle.meta_types.specs.Limits.{is_worker_count};

use backend_sweep::SweepGate;
use collection::CollectionCrew;
use meta_types::Workers;
use std::alloc::Global;
use steal_mark::Gate;

/// The threads of a collection, the number of workers that is asked for, and the gates. An entry has
/// the number also where it isn't allowed.
#[derive(Drop)]
pub(crate) struct CallResources<'c, R, G: Gate, H: SweepGate> {
    pub(crate) rt: &'c R,
    pub(crate) alloc: Global,
    pub(crate) workers: usize,
    pub(crate) gate: &'c G,
    pub(crate) sweep_gate: &'c H,
}

impl<'c, R, G: Gate, H: SweepGate> CallResources<'c, R, G, H> {
    /// Those who collect, where the number of workers is allowed.
    pub(crate) fn crew(&self) -> Option<CollectionCrew<'c, R, G, H>>
        ensures some { IfSome result (λ crew. crew.workers.count ≡ self.now.workers) }
        ensures none { IfNone result (is_worker_count self.now.workers ≡ false) }
    {
        let workers = Workers::new(self.workers)?;
        Some(CollectionCrew {
            rt: self.rt,
            alloc: self.alloc,
            workers,
            gate: self.gate,
            sweep_gate: self.sweep_gate,
        })
    }
}
