//! A state of the mark machine, as callers see it.
ghost use Rattle.std.specs.Prelude.{◌≡◌, ◌↔◌, IsTrue, Contains};
ghost use Rattle.mark_core.specs.Machine.{worker_at};
ghost use Rattle.mark_core.specs.Sound.{IsIdle};

use crate::machine_state::MachineState;
use std::marker::Model;

/// A state of the mark machine. `start` and `replay` make it; nothing changes it.
#[derive(Drop)]
pub struct MarkState {
    pub(crate) machine_state: MachineState,
}

impl Model for MarkState {
    ghost use Rattle.mark_core.specs.Machine.{Machine};

    ghost Value = { Machine };

    ghost use Rattle.mark_core.specs.MachineStates.{machine_of};

    ghost view = { λ s. machine_of s.machine_state };
}

impl MarkState {
    /// Whether the number was claimed: as a root, or by the look of some worker.
    pub fn claimed(&self, node: u32) -> bool
        ensures { IsTrue result ↔ Contains self.now.claimed node }
    {
        self.machine_state.found.marks.has(node)
    }

    /// The nodes that a worker has scanned, in order. A number that is no worker's has none.
    pub fn log(&self, worker: usize) -> &[u32]
        ensures { result.now ≡ (worker_at self.now.workers worker).log }
    {
        match self.machine_state.worker_states.get(worker) {
            Some(worker_state) => worker_state.log(),
            None => &[],
        }
    }

    /// Whether all queues and hands are empty, so that no event is left to come.
    pub fn idle(&self) -> bool
        ensures { IsTrue result ↔ IsIdle self.now }
    {
        self.machine_state
            .worker_states
            .iter()
            .all(|worker_state| worker_state.is_idle())
    }
}
