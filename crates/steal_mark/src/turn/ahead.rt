//! The rows that a worker reads next, touched before it needs them. No mark rests on this.
ghost use Rattle.std.specs.Prelude.{◌≤◌, vec_len};

use mark_core::Graph;
use std::alloc::Global;

// How many rows are touched at once. Their misses overlap, since no locked step stands between.
const AT_ONCE: usize = 16;

// The nodes that a worker has put into its own deque, in order. It takes them in that order, but
// for those that thieves took.
#[derive(Drop)]
pub struct Ahead {
    nodes: Vec<u32>,
    taken: usize,
    touched: usize,
    missed: usize,
    read: usize,
    ghost within: { taken ≤ vec_len nodes },
}

impl Ahead {
    pub fn new(alloc: Global) -> Ahead {
        Ahead {
            nodes: Vec::new(alloc),
            taken: 0,
            touched: 0,
            missed: 0,
            read: 0,
        }
    }

    // Notes a node that was put. Where memory runs out, its row isn't touched ahead.
    pub fn note(&mut self, node: u32) {
        // A refused growth costs only the look ahead.
        let _ = self.nodes.push(node);
    }

    // Goes behind the node, where it is among the next `most` nodes.
    fn pass(&mut self, node: u32, most: usize) -> bool {
        let end = self.nodes.len().min(self.taken.saturating_add(most));
        let next = &self.nodes[self.taken..end];
        match next.iter().position(|other| *other == node) {
            Some(place) => {
                self.taken += place + 1;
                true
            }
            None => false,
        }
    }

    // Goes behind a node that was taken. It looks further only once it has missed as many as are
    // left, so that a search costs no more than the takes before it.
    fn follow(&mut self, node: u32) -> bool {
        if self.pass(node, AT_ONCE) {
            return true;
        }
        self.missed = self.missed.saturating_add(1);
        if self.missed < self.nodes.len() - self.taken {
            return false;
        }
        self.missed = 0;
        self.pass(node, usize::MAX)
    }

    // Touches the next rows, where the row of the node that was taken wasn't touched yet.
    pub fn took(&mut self, node: u32, graph: &Graph) {
        if !self.follow(node) || self.taken <= self.touched {
            return;
        }
        let end = self.nodes.len().min(self.taken.saturating_add(AT_ONCE));
        let next = &self.nodes[self.taken..end];
        let mut read = self.read;
        for node in next {
            read ^= graph.targets(*node).len();
        }
        for node in next {
            if let Some(target) = graph.targets(*node).first() {
                read ^= *target as usize;
            }
        }
        self.read = read;
        self.touched = end;
    }
}
