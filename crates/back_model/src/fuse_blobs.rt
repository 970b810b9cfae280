//! Blobs in memory, on a device that can be armed to fail once.
ghost use Rattle.std.specs.Prelude.{◌≡◌, ◌+◌, ◌↔◌, Err, OnOk, OnErr, not, IsTrue};
ghost use Rattle.std.specs.Prelude.{true, false};
ghost use Rattle.meta_types.specs.Changes.{put_blob};
ghost use Rattle.row_tables.specs.Arrived.{one_text, sorted};
ghost use Rattle.back_model.specs.Objects.{has_blob, without_blob};
ghost use Rattle.back_model.specs.Answers.{Makes, Removes, make_fails, remove_fails};
ghost use Rattle.back_model.specs.Fuses.{armed_for, is_failed, after_call};

use crate::faults::{MakeFault, RemoveFault};
use crate::fuse::Fuse;
use crate::mem_blobs::MemBlobs;
use crate::traits::BlobBackend;
use meta_types::Digest;
use row_tables::{RowTable, Seed};
use std::alloc::Global;

/// Blobs in memory, with a device that fails once where it is armed.
#[derive(Drop)]
pub struct FuseBlobs {
    inner: MemBlobs,
    fuse: Fuse,
}

impl FuseBlobs {
    /// Passes this number of calls of `make` and `remove`, fails the next that reaches the device,
    /// and passes all later ones.
    pub fn arm(&mut self, passes: u64)
        ensures { self.new ≡ record self.old { fuse = armed_for passes self.old.fuse } }
    {
        self.fuse.arm(passes);
    }
}

impl BlobBackend for FuseBlobs {
    ghost contents = { λ b. sorted one_text b.inner };

    ghost arrived = { λ b. b.inner };

    ghost fails = { λ b. b.fuse.fails };

    fn never_fails() -> bool {
        false
    }

    fn fresh(alloc: Global, seed: Seed) -> FuseBlobs {
        FuseBlobs {
            inner: MemBlobs::fresh(alloc, seed),
            fuse: Fuse::new(),
        }
    }

    fn make(&mut self, alloc: Global, digest: &Digest) -> Result<(), MakeFault>
        ensures fault { Makes result (has_blob digest.now (sorted one_text self.old.inner)) (true) }
        ensures ok { OnOk result (sorted one_text self.new.inner
            ≡ put_blob digest.now (sorted one_text self.old.inner)) }
        ensures err { OnErr result (sorted one_text self.new.inner
            ≡ sorted one_text self.old.inner) }
        ensures fails { self.new.fuse.fails ≡ self.old.fuse.fails + make_fails result }
        ensures fuse { self.new.fuse ≡ after_call (has_blob digest.now
            (sorted one_text self.old.inner)) self.old.fuse }
    {
        let is_refused = self.inner.holds(digest);
        if self.fuse.fails_call(is_refused) {
            return Err(MakeFault::Device);
        }
        self.inner.make(alloc, digest)
    }

    fn remove(&mut self, digest: &Digest) -> Result<(), RemoveFault>
        ensures fault { Removes result (has_blob digest.now (sorted one_text self.old.inner)) (false) }
        ensures ok { OnOk result (sorted one_text self.new.inner
            ≡ without_blob digest.now (sorted one_text self.old.inner)) }
        ensures err { OnErr result (sorted one_text self.new.inner
            ≡ sorted one_text self.old.inner) }
        ensures fails { self.new.fuse.fails ≡ self.old.fuse.fails + remove_fails result }
        ensures fuse { self.new.fuse ≡ after_call (not (has_blob digest.now
            (sorted one_text self.old.inner))) self.old.fuse }
    {
        let is_refused = !self.inner.holds(digest);
        if self.fuse.fails_call(is_refused) {
            return Err(RemoveFault::Device);
        }
        self.inner.remove(digest)
    }

    fn holds(&self, digest: &Digest) -> bool {
        self.inner.holds(digest)
    }

    fn digests(&self) -> &RowTable<Digest, Digest> {
        self.inner.digests()
    }

    fn retain(&mut self, _marks: &[bool]) -> bool {
        false
    }

    fn failures(&self) -> u64 {
        self.fuse.failures()
    }
}
