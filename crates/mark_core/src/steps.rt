//! The events of the mark machine, done on its state. Each answers false where it isn't allowed.
ghost use Rattle.std.specs.Prelude.{◌≡◌, ◌<◌, ◌^◌, length, slice_get, IfOk, IfSome};
ghost use Rattle.mark_core.specs.declared.event.MarkEvent.TheVariants.{Look, Put, Take, Finish};
ghost use Rattle.mark_core.specs.Bits.{HasRoom};
ghost use Rattle.mark_core.specs.Reach.{IsInRange, node_count, targets};
ghost use Rattle.mark_core.specs.MachineStates.{Answers};

use crate::event::{Hand, MarkEvent};
use crate::graph::Graph;
use crate::machine_state::MachineState;
use std::alloc::AllocError;

// The edge of a node at a place, if it has one there.
fn edge_at(graph: &Graph, node: u32, place: usize) -> Option<u32>
    ensures edge { result ≡ slice_get (targets graph.now node) place }
    ensures small { IfSome result (λ _. place < 2 ^ 62) }
{
    graph.targets(node).get(place).copied()
}

impl MachineState {
    fn look(&mut self, graph: &Graph, worker: usize, target: u32) -> Result<bool, AllocError>
        requires range { IsInRange graph.now }
        requires room { HasRoom (node_count graph.now) self.old.found.marks }
        ensures room { length self.new.found.marks ≡ length self.old.found.marks }
        ensures answer { IfOk result
            (λ done. Answers graph.now (Look worker target) self.old done self.new) }
    {
        if worker >= self.worker_states.len() {
            return Ok(false);
        }
        let Some(hand) = self.hand(worker) else {
            return Ok(false);
        };
        if hand.waits.is_some() {
            return Ok(false);
        }
        let Some(next) = edge_at(graph, hand.node, hand.looked) else {
            return Ok(false);
        };
        if next != target {
            return Ok(false);
        }
        let known = self.found.add(target)?;
        let waits = if known { None } else { Some(target) };
        self.hold(
            worker,
            Some(Hand {
                node: hand.node,
                looked: hand.looked + 1,
                waits,
            }),
        );
        Ok(true)
    }

    fn put(&mut self, graph: &Graph, worker: usize) -> Result<bool, AllocError>
        ensures room { length self.new.found.marks ≡ length self.old.found.marks }
        ensures answer { IfOk result
            (λ done. Answers graph.now (Put worker) self.old done self.new) }
    {
        if worker >= self.worker_states.len() {
            return Ok(false);
        }
        let Some(hand) = self.hand(worker) else {
            return Ok(false);
        };
        let Some(target) = hand.waits else {
            return Ok(false);
        };
        self.enqueue(worker, target)?;
        self.hold(
            worker,
            Some(Hand {
                node: hand.node,
                looked: hand.looked,
                waits: None,
            }),
        );
        Ok(true)
    }

    fn take(&mut self, graph: &Graph, worker: usize, from: usize) -> bool
        ensures room { length self.new.found.marks ≡ length self.old.found.marks }
        ensures answer { Answers graph.now (Take worker from) self.old result self.new }
    {
        if worker >= self.worker_states.len() {
            return false;
        }
        if from >= self.worker_states.len() {
            return false;
        }
        if self.hand(worker).is_some() {
            return false;
        }
        let Some(node) = self.dequeue(from) else {
            return false;
        };
        self.hold(
            worker,
            Some(Hand {
                node,
                looked: 0,
                waits: None,
            }),
        );
        true
    }

    fn finish(&mut self, graph: &Graph, worker: usize) -> Result<bool, AllocError>
        ensures room { length self.new.found.marks ≡ length self.old.found.marks }
        ensures answer { IfOk result
            (λ done. Answers graph.now (Finish worker) self.old done self.new) }
    {
        if worker >= self.worker_states.len() {
            return Ok(false);
        }
        let Some(hand) = self.hand(worker) else {
            return Ok(false);
        };
        if hand.waits.is_some() {
            return Ok(false);
        }
        if hand.looked != graph.targets(hand.node).len() {
            return Ok(false);
        }
        self.note(worker, hand.node)?;
        self.hold(worker, None);
        Ok(true)
    }

    // Does an event, or answers false where it isn't allowed. No clause says what is left then.
    pub fn step(&mut self, graph: &Graph, event: MarkEvent) -> Result<bool, AllocError>
        requires range { IsInRange graph.now }
        requires room { HasRoom (node_count graph.now) self.old.found.marks }
        ensures room { length self.new.found.marks ≡ length self.old.found.marks }
        ensures answer { IfOk result (λ done. Answers graph.now event self.old done self.new) }
    {
        match event {
            MarkEvent::Look { worker, target } => self.look(graph, worker, target),
            MarkEvent::Put { worker } => self.put(graph, worker),
            MarkEvent::Take { worker, from } => Ok(self.take(graph, worker, from)),
            MarkEvent::Finish { worker } => self.finish(graph, worker),
        }
    }
}
