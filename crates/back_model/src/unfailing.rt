//! Lemmas to call: where no device ever fails, as in memory, none has.
ghost use Rattle.std.specs.Prelude.{◌≡◌};
ghost use Rattle.back_model.specs.Answers.{NeverFails};
ghost use Rattle.back_model.specs.Shown.{all_failures};

use crate::backends::Backends;
use crate::mem_backend::MemBackend;
use crate::mem_blobs::MemBlobs;
use crate::mem_ingests::MemIngests;
use crate::shards::Shards;
use crate::traits::{BlobBackend, IngestBackend, SnapBackend};

impl<S: SnapBackend, B: BlobBackend, I: IngestBackend> Backends<S, B, I> {
    /// Where no device of snapshots ever fails, none has. It does nothing, and serves a proof alone.
    pub fn none_failed(&self)
        ensures { NeverFails S.fails → all_failures self.now.shards ≡ 0 }
    {
        self.shards.none_failed()
    }
}

impl Backends<MemBackend, MemBlobs, MemIngests> {
    /// Models in memory never fail. It does nothing, and serves a proof alone.
    pub fn never_failed(&self)
        ensures { all_failures self.now.shards ≡ 0 }
    {
        self.shards.never_failed()
    }
}
