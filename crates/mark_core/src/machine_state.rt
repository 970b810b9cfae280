//! The state of the mark machine: the claimed numbers, and the state of each worker.
ghost use Rattle.std.specs.Prelude.{◌≡◌, ◌<◌, [], length, replicate, MatchOption, IfOk, OnOk};
ghost use Rattle.mark_core.specs.Bits.{HasRoom};
ghost use Rattle.mark_core.specs.Reach.{IsInRange, node_count};
ghost use Rattle.mark_core.specs.Machine.{idle, deal, machine_start, worker_at, with_hand, enqueued, logged, IsTaken};
ghost use Rattle.mark_core.specs.MachineStates.{machine_of};

use crate::event::Hand;
use crate::found::Found;
use crate::graph::Graph;
use crate::worker_state::WorkerState;
use std::alloc::{AllocError, Global};

// It has no model, since its clauses speak of the bitmap's room, which the machine doesn't have.
#[derive(Drop)]
pub struct MachineState {
    pub found: Found,
    pub worker_states: Vec<WorkerState>,
}

// Idle workers.
fn new_worker_states(alloc: Global, workers: usize) -> Result<Vec<WorkerState>, AllocError>
    ensures { IfOk result (λ worker_states. worker_states.items ≡ replicate workers idle) }
{
    let mut worker_states = Vec::new(alloc);
    for _ in 0..workers {
        worker_states.push(WorkerState::new(alloc))?;
    }
    Ok(worker_states)
}

// The nodes go to the queues in turn.
fn deal_out(worker_states: &mut [WorkerState], nodes: &[u32]) -> Result<(), AllocError>
    requires { 0 < length worker_states.old }
    ensures { OnOk result (worker_states.new ≡ deal worker_states.old 0 nodes.now) }
{
    let workers = worker_states.len();
    let mut turn = 0;
    for node in nodes {
        worker_states[turn % workers].put(*node)?;
        turn += 1;
    }
    Ok(())
}

impl MachineState {
    // The distinct roots, dealt out.
    pub fn new(alloc: Global, graph: &Graph, workers: usize) -> Result<MachineState, AllocError>
        requires range { IsInRange graph.now }
        requires workers { 0 < workers }
        ensures room { IfOk result (λ b. HasRoom (node_count graph.now) b.found.marks) }
        ensures start { IfOk result (λ b. machine_of b ≡ machine_start graph.now workers) }
    {
        let mut found = Found::empty(alloc, graph.edges.len())?;
        found.add_all(&graph.roots)?;
        let mut worker_states = new_worker_states(alloc, workers)?;
        deal_out(&mut worker_states, found.order())?;
        Ok(MachineState {
            found,
            worker_states,
        })
    }

    // What a worker holds: nothing, for a number that is no worker's.
    pub fn hand(&self, worker: usize) -> Option<Hand>
        ensures { result ≡ (worker_at self.now.worker_states.items worker).hand }
    {
        self.worker_states.get(worker)?.hand()
    }

    pub fn hold(&mut self, worker: usize, hand: Option<Hand>)
        requires { worker < length self.old.worker_states.items }
        ensures found { self.new.found ≡ self.old.found }
        ensures held { self.new.worker_states.items ≡ with_hand self.old.worker_states.items worker hand }
    {
        self.worker_states[worker].hold(hand);
    }

    // Puts a node behind a queue.
    pub fn enqueue(&mut self, worker: usize, node: u32) -> Result<(), AllocError>
        requires { worker < length self.old.worker_states.items }
        ensures found { self.new.found ≡ self.old.found }
        ensures put { OnOk result
            (self.new.worker_states.items ≡ enqueued self.old.worker_states.items worker node) }
    {
        self.worker_states[worker].put(node)
    }

    // Takes the front of a queue.
    pub fn dequeue(&mut self, from: usize) -> Option<u32>
        requires { from < length self.old.worker_states.items }
        ensures found { self.new.found ≡ self.old.found }
        ensures taken { MatchOption result
            ((worker_at self.old.worker_states.items from).queue ≡ [])
            (λ node. IsTaken self.old.worker_states.items from node self.new.worker_states.items) }
    {
        self.worker_states[from].take()
    }

    // Puts a node behind a log.
    pub fn note(&mut self, worker: usize, node: u32) -> Result<(), AllocError>
        requires { worker < length self.old.worker_states.items }
        ensures found { self.new.found ≡ self.old.found }
        ensures noted { OnOk result
            (self.new.worker_states.items ≡ logged self.old.worker_states.items worker node) }
    {
        self.worker_states[worker].note(node)
    }
}
