//! Memory that is kept from line to line.
ghost use Rattle.std.specs.Prelude.{◌≡◌, None};
ghost use Rattle.meta_types.specs.Faults.{Refuses};

use crate::line_room::LineRoom;
use crate::reserve::Reserve;
use json::Scratch;
use meta_types::{Fault, LINE_LIMIT};
use reply_line::BLOCK_ROOM;
use std::alloc::Global;

/// What is kept for a collection, and for the next line.
#[derive(Drop)]
pub struct Reserves {
    pub(crate) reserve: Reserve,
    pub(crate) room: LineRoom,
}

/// What is kept for a collection and for the next line, room to read any line in, which lends a
/// request its texts, and room for a text that is written in blocks.
#[derive(Drop)]
pub struct LineMemory {
    pub(crate) reserves: Reserves,
    pub(crate) scratch: Scratch,
    pub block: Vec<u8>,
}

impl LineMemory {
    /// Memory for an empty store and the longest line, so that reading one wants no more of it but
    /// for its texts.
    pub fn open(alloc: Global) -> Result<LineMemory, Fault>
        ensures fault { Refuses result None }
    {
        let reserve = Reserve::open(alloc)?;
        let mut scratch = Scratch::new(alloc);
        scratch.reserve(LINE_LIMIT)?;
        let room = LineRoom::new(alloc);
        let block = Vec::with_capacity(alloc, BLOCK_ROOM)?;
        Ok(LineMemory {
            reserves: Reserves { reserve, room },
            scratch,
            block,
        })
    }

    /// From now on each addition is refused with 7, or none for this. So a service that has no room
    /// left to keep additions still removes and collects.
    pub fn refuse_additions(&mut self, are_refused: bool)
        ensures { self.new.reserves.reserve.refuses_additions ≡ are_refused }
    {
        self.reserves.reserve.refuse_additions(are_refused);
    }
}
