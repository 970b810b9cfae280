//! What a run keeps from one call to the next.
ghost use Rattle.std.specs.Prelude.{◌≡◌, [], IfOk};

use crate::waiting::Waiting;
use std::alloc::{AllocError, Global};
use std::marker::Model;

/// This number of bytes is read at once.
const BLOCK: usize = 65_536;

/// The memory of a run.
#[derive(Drop)]
pub(crate) struct Buffers {
    pub(crate) block: Vec<u8>,
    pub(crate) waiting: Waiting,
}

/// The memory that a run takes for itself, and the piece of a line that a read ended in, which is
/// its value. It goes from one call of `run_lines` to the next.
#[derive(Drop)]
pub struct RunBuffers {
    pub(crate) buffers: Buffers,
}

impl Model for RunBuffers {
    ghost use Rattle.std.specs.Prelude.{List, ℕ};
    ghost use Rattle.line_loop.specs.Reads.{IsReady};

    ghost Value = { List ℕ };

    ghost view = { λ b. b.buffers.waiting.line.items };

    ghost invariant = { λ b. IsReady b.buffers.block.items b.buffers.waiting.line.items
        b.buffers.waiting.replies.items };
}

impl RunBuffers {
    /// Takes the memory of a run, some 256 KiB. No line was begun.
    pub fn new(alloc: Global) -> Result<RunBuffers, AllocError>
        ensures { IfOk result (λ buffers. buffers ≡ []) }
    {
        let waiting = Waiting::new(alloc)?;
        let mut block: Vec<u8> = Vec::new(alloc);
        block.resize(BLOCK, 0)?;
        Ok(RunBuffers {
            buffers: Buffers { block, waiting },
        })
    }
}
