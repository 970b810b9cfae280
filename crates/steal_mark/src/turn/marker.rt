//! One worker of a marking: a seat, a deque, and passes on the others.
ghost use Rattle.std.specs.Prelude.{◌≡◌};

use crate::shared::claim_table::{ClaimSeat, ClaimTable};
use crate::shared::deques::Deque;
use crate::turn::ahead::Ahead;
use crate::turn::thief_pass::ThiefPass;
use std::alloc::Global;
use std::sync::Arc;

/// A worker: its seat at the claim words, its deque, and a pass on each worker's deque.
/// On its own deque that pass has no part.
#[derive(Drop)]
pub struct Marker {
    pub(crate) number: usize,
    pub(crate) claim_table: Arc<ClaimTable, Global>,
    pub(crate) seat: ClaimSeat,
    pub(crate) deque: Deque,
    pub(crate) others: Vec<ThiefPass>,
    pub(crate) ahead: Ahead,
    pub(crate) scanned: Vec<u32>,
    pub(crate) refused: bool,
}

impl Marker {
    /// Whether it was refused memory. Then it takes no more turns, and its marking is given up.
    pub fn refused(&self) -> bool
        ensures { result ≡ self.now.refused }
    {
        self.refused
    }
}
