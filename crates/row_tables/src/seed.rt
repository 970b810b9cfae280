//! What the hashes of all tables start from.
ghost use Rattle.std.specs.Prelude.{IfOk};
ghost use Rattle.row_tables.specs.Folded.{started};
ghost use Rattle.row_tables.specs.Secrets.{IsSecret};

pub(crate) mod folded;

use crate::seed::folded::TableHasher;
use std::hash::BuildHasher;
use std::io;
use std::random::RandomSource;

/// What the hashes of all tables start from. No reply and no order rests on it.
#[derive(Clone, Copy)]
pub enum Seed {
    /// The same in each run: for libraries, and for tests that want the same times.
    Fixed,
    /// Two numbers that nobody knows who picks names.
    Secret(u64, u64),
}

impl Seed {
    /// A secret one, of 16 bytes from the source.
    pub fn secret<R: RandomSource>(source: &R) -> io::Result<Seed>
        ensures { IfOk result IsSecret }
    {
        let mut bytes = [0; 16];
        source.fill_bytes(&mut bytes)?;
        let numbers = u128::from_le_bytes(bytes);
        let state = (numbers & 0xFFFF_FFFF_FFFF_FFFF) as u64;
        let key = (numbers >> 64) as u64;
        Ok(Seed::Secret(state, key))
    }
}

impl BuildHasher for Seed {
    type Hasher = TableHasher;

    ghost build_hasher = { started };

    fn build_hasher(&self) -> TableHasher {
        match self {
            Seed::Fixed => TableHasher::new(0x243f_6a88_85a3_08d3, 0x9e37_79b9_7f4a_7c15),
            Seed::Secret(state, key) => TableHasher::new(*state, *key),
        }
    }
}
