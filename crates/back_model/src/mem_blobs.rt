//! A model of blobs, kept in memory.
ghost use Rattle.row_tables.specs.Arrived.{one_text, sorted};

use crate::faults::{MakeFault, RemoveFault};
use crate::traits::BlobBackend;
use meta_types::{Digest, Fault};
use row_tables::{RowTable, Seed};
use std::alloc::Global;
use std::marker::Model;

/// Blobs in memory, each found by a hash of its digest. No device fails.
#[derive(Drop)]
pub struct MemBlobs {
    digests: RowTable<Digest, Digest>,
}

impl Model for MemBlobs {
    ghost use Rattle.std.specs.Prelude.{List};
    ghost use Rattle.meta_types.specs.Text.{Text};

    ghost Value = { List Text };

    ghost view = { λ b. b.digests };
}

impl BlobBackend for MemBlobs {
    ghost contents = { λ b. sorted one_text b };

    ghost arrived = { λ b. b };

    ghost fails = { λ _. 0 };

    fn never_fails() -> bool {
        true
    }

    fn fresh(alloc: Global, seed: Seed) -> MemBlobs {
        MemBlobs {
            digests: RowTable::new(alloc, seed),
        }
    }

    fn make(&mut self, _alloc: Global, digest: &Digest) -> Result<(), MakeFault> {
        let Ok(copy) = digest.copy() else {
            if self.holds(digest) {
                return Err(MakeFault::Taken);
            }
            return Err(MakeFault::Memory);
        };
        let Err(refused) = self.digests.add_new(copy) else {
            return Ok(());
        };
        if let Fault::AlreadyExists = refused {
            return Err(MakeFault::Taken);
        }
        Err(MakeFault::Memory)
    }

    fn remove(&mut self, digest: &Digest) -> Result<(), RemoveFault> {
        // No digest stands twice before one goes.
        let _digests = self.digests.rows();
        let Some(_gone) = self.digests.take(digest) else {
            return Err(RemoveFault::Missing);
        };
        Ok(())
    }

    fn holds(&self, digest: &Digest) -> bool {
        // Lends the rows, whose order by digest is promised.
        let _digests = self.digests.rows();
        self.digests.has(digest)
    }

    fn digests(&self) -> &RowTable<Digest, Digest> {
        &self.digests
    }

    fn retain(&mut self, marks: &[bool]) -> bool {
        self.digests.retain(marks);
        true
    }

    fn failures(&self) -> u64 {
        0
    }
}
