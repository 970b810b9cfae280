//! What the workers of a marking do.

/// One atomic step of a worker. Workers and queues are numbered from 0.
#[derive(Clone, Copy, Debug, PartialEq, Eq)]
pub enum MarkEvent {
    /// The worker looks at the next edge of its node.
    Look { worker: usize, target: u32 },
    /// It puts the target that waits in its hand behind its own queue.
    Put { worker: usize },
    /// It takes the front of a queue, its own or another's, into its hand.
    Take { worker: usize, from: usize },
    /// It is done with its node.
    Finish { worker: usize },
}

/// What a worker holds: a node that is being scanned, and perhaps a target of it.
#[derive(Clone, Copy, Debug, PartialEq, Eq)]
pub struct Hand {
    /// The node that is being scanned.
    pub node: u32,
    /// How many of its edges were looked at.
    pub looked: usize,
    /// The target that was claimed and is not put yet.
    pub waits: Option<u32>,
}
