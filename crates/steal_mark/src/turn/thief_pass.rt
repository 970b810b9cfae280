//! A pass on another worker's deque.
use crate::shared::deques::{NodePass, Thief};

// The deque's stealer, and this worker's pass on it.
#[derive(Drop)]
pub struct ThiefPass {
    pub stealer: Thief,
    pub pass: NodePass,
}
