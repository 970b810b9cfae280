//! A worker's turn: its marker, its own deque, and those that it steals from.

pub(crate) mod ahead;
pub(crate) mod marker;
pub(crate) mod scan;
pub(crate) mod steal;
pub(crate) mod thief_pass;
pub(crate) mod turn;
