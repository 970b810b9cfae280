//! Stores in memory never fail.
ghost use Rattle.std.specs.Prelude.{◌≡◌};

use crate::state::State;
use back_model::{MemBackend, MemBlobs, MemIngests};

impl State<MemBackend, MemBlobs, MemIngests> {
    /// A store in memory never failed. It does nothing, and serves a proof alone.
    pub fn never_failed(&self)
        ensures { self.now.failures ≡ 0 }
    {
        self.backends.never_failed()
    }
}
