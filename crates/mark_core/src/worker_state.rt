//! What one worker of the machine has.
ghost use Rattle.std.specs.Prelude.{◌≡◌, ◌↔◌, ◌∷◌, [], ◌++◌, IsTrue, OnOk, OnErr, MatchOption};
ghost use Rattle.mark_core.specs.Machine.{idle};
ghost use Rattle.mark_core.specs.Sound.{IsIdleWorker};

use crate::event::Hand;
use std::alloc::{AllocError, Global};
use std::collections::VecDeque;
use std::marker::Model;

// The nodes to be scanned, those that were scanned, and what is held.
#[derive(Drop)]
pub struct WorkerState {
    queue: VecDeque<u32>,
    log: Vec<u32>,
    hand: Option<Hand>,
}

impl Model for WorkerState {
    ghost use Rattle.mark_core.specs.Machine.{Worker};

    ghost Value = { Worker };

    ghost view = { λ d. record { queue = d.queue.items; log = d.log.items; hand = d.hand } };
}

impl WorkerState {
    pub fn new(alloc: Global) -> WorkerState
        ensures { result ≡ idle }
    {
        WorkerState {
            queue: VecDeque::new(alloc),
            log: Vec::new(alloc),
            hand: None,
        }
    }

    pub fn hand(&self) -> Option<Hand>
        ensures { result ≡ self.now.hand }
    {
        self.hand
    }

    pub fn log(&self) -> &[u32]
        ensures { result.now ≡ self.now.log }
    {
        &self.log
    }

    pub fn hold(&mut self, hand: Option<Hand>)
        ensures { self.new ≡ record self.old { hand = hand } }
    {
        self.hand = hand;
    }

    // Puts a node behind the others.
    pub fn put(&mut self, node: u32) -> Result<(), AllocError>
        ensures ok { OnOk result
            (self.new ≡ record self.old { queue = self.old.queue ++ node ∷ [] }) }
        ensures err { OnErr result (self.new ≡ self.old) }
    {
        self.queue.push_back(node)?;
        Ok(())
    }

    // Takes the first node of the queue.
    pub fn take(&mut self) -> Option<u32>
        ensures same { self.new ≡ record self.old { queue = self.new.queue } }
        ensures front { MatchOption result
            ((self.old.queue ≡ []) × (self.new.queue ≡ []))
            (λ node. self.old.queue ≡ node ∷ self.new.queue) }
    {
        self.queue.pop_front()
    }

    // Notes a node as scanned.
    pub fn note(&mut self, node: u32) -> Result<(), AllocError>
        ensures ok { OnOk result (self.new ≡ record self.old { log = self.old.log ++ node ∷ [] }) }
        ensures err { OnErr result (self.new ≡ self.old) }
    {
        self.log.push(node)?;
        Ok(())
    }

    pub fn is_idle(&self) -> bool
        ensures { IsTrue result ↔ IsIdleWorker self.now }
    {
        self.queue.is_empty() && self.hand.is_none()
    }
}
