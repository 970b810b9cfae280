//! One turn of a worker: it takes a node and scans it, or finds none.
ghost use Rattle.std.specs.Prelude.{◌≡◌, ◌↔◌, true, IfOk, IsErr, IfSome, IfNone, None};
ghost use Rattle.mark_core.specs.Reach.{IsInRange, Reached};
ghost use Rattle.meta_types.specs.Faults.{Refuses};
ghost use Rattle.steal_mark.specs.Working.{IsSound, SameMarker, IsTurn, graph_of, Takes, IsSeated, FoundNone, SameButTaken};

use crate::shared::claim_table::take;
use crate::turn::marker::Marker;
use crate::turn::scan::scan;
use crate::turn::steal::steal_any;
use mark_core::Graph;
use meta_types::Fault;

/// Is asked before a turn scans what it took, so that a test can hold a worker there.
pub trait Gate: Sync {
    /// Workers are numbered from 0.
    fn before_scan(&self, worker: usize, node: u32);
}

/// Holds nobody.
pub struct OpenGate;

impl Gate for OpenGate {
    fn before_scan(&self, _worker: usize, _node: u32) {}
}

/// What a turn did.
#[derive(Clone, Copy, Debug, PartialEq, Eq)]
pub enum Turn {
    /// It took this node, looked at each of its targets, and put those that it claimed.
    Scanned(u32),
    /// It found no node, in its own deque or in another.
    Nothing,
}

impl Marker {
    // Takes a node of its own deque, or else of another.
    fn find(&mut self, graph: &Graph) -> Option<u32>
        requires seated { IsSeated self.old }
        requires graph { graph.now ≡ graph_of self.old }
        ensures same { SameButTaken self.old self.new }
        ensures some { IfSome result (λ n. Reached graph.now n × Takes n self.old self.new) }
        ensures none { IfNone result (FoundNone self.old self.new) }
    {
        let own = take(&mut self.deque);
        if own.is_some() {
            return own;
        }
        steal_any(self.others.as_mut_slice(), self.number, graph)
    }

    /// Tries its own deque once, then each other deque once, and scans what it took. It never
    /// waits.
    pub fn turn<G: Gate>(&mut self, graph: &Graph, gate: &G) -> Result<Turn, Fault>
        requires sound { IsSound self.old }
        requires graph { graph.now ≡ graph_of self.old }
        requires range { IsInRange graph.now }
        ensures sound { IsSound self.new }
        ensures same { SameMarker self.old self.new }
        ensures fault { Refuses result None }
        ensures turn { IfOk result (λ did. IsTurn did self.old self.new) }
        ensures refused { IsErr result ↔ (self.new.refused ≡ true) }
        ensures stays_refused { self.old.refused ≡ true → IsErr result × (self.new ≡ self.old) }
    {
        if self.refused {
            return Err(Fault::OutOfMemory);
        }
        if self.scanned.reserve(1).is_err() {
            self.refused = true;
            return Err(Fault::OutOfMemory);
        }
        let Some(node) = self.find(graph) else {
            return Ok(Turn::Nothing);
        };
        self.ahead.took(node, graph);
        gate.before_scan(self.number, node);
        let targets = graph.targets(node);
        if scan(
            &self.claim_table,
            &mut self.seat,
            &mut self.deque,
            &mut self.ahead,
            targets,
        )
        .is_err()
        {
            self.refused = true;
            return Err(Fault::OutOfMemory);
        }
        self.scanned.push_reserved(node);
        Ok(Turn::Scanned(node))
    }
}
