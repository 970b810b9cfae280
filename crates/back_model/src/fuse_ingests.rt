//! Objects of ingests in memory, on a device that can be armed to fail once.
ghost use Rattle.std.specs.Prelude.{◌≡◌, ◌+◌, ◌↔◌, Err, OnOk, OnErr, not, IsTrue};
ghost use Rattle.std.specs.Prelude.{true, false};
ghost use Rattle.back_model.specs.Objects.{has_number, put_number, without_number};
ghost use Rattle.back_model.specs.Answers.{Makes, Removes, make_fails, remove_fails};
ghost use Rattle.back_model.specs.Fuses.{armed_for, is_failed, after_call};

use crate::faults::{MakeFault, RemoveFault};
use crate::fuse::Fuse;
use crate::mem_ingests::MemIngests;
use crate::traits::IngestBackend;
use meta_types::Fault;
use std::alloc::Global;

/// Objects of ingests in memory, with a device that fails once where it is armed.
#[derive(Drop)]
pub struct FuseIngests {
    inner: MemIngests,
    fuse: Fuse,
}

impl FuseIngests {
    /// Passes this number of calls of `make` and `remove`, fails the next that reaches the device,
    /// and passes all later ones.
    pub fn arm(&mut self, passes: u64)
        ensures { self.new ≡ record self.old { fuse = armed_for passes self.old.fuse } }
    {
        self.fuse.arm(passes);
    }
}

impl IngestBackend for FuseIngests {
    ghost contents = { λ b. b.inner };

    ghost fails = { λ b. b.fuse.fails };

    fn never_fails() -> bool {
        false
    }

    fn fresh(alloc: Global) -> FuseIngests {
        FuseIngests {
            inner: MemIngests::fresh(alloc),
            fuse: Fuse::new(),
        }
    }

    fn make(&mut self, alloc: Global, number: u64) -> Result<(), MakeFault>
        ensures fault { Makes result (has_number number self.old.inner) (true) }
        ensures ok { OnOk result (self.new.inner ≡ put_number number self.old.inner) }
        ensures err { OnErr result (self.new.inner ≡ self.old.inner) }
        ensures fails { self.new.fuse.fails ≡ self.old.fuse.fails + make_fails result }
        ensures fuse { self.new.fuse ≡ after_call (has_number number self.old.inner) self.old.fuse }
    {
        let is_refused = self.inner.holds(number);
        if self.fuse.fails_call(is_refused) {
            return Err(MakeFault::Device);
        }
        self.inner.make(alloc, number)
    }

    fn remove(&mut self, number: u64) -> Result<(), RemoveFault>
        ensures fault { Removes result (has_number number self.old.inner) (false) }
        ensures ok { OnOk result (self.new.inner ≡ without_number number self.old.inner) }
        ensures err { OnErr result (self.new.inner ≡ self.old.inner) }
        ensures fails { self.new.fuse.fails ≡ self.old.fuse.fails + remove_fails result }
        ensures fuse { self.new.fuse
            ≡ after_call (not (has_number number self.old.inner)) self.old.fuse }
    {
        let is_refused = !self.inner.holds(number);
        if self.fuse.fails_call(is_refused) {
            return Err(RemoveFault::Device);
        }
        self.inner.remove(number)
    }

    fn holds(&self, number: u64) -> bool {
        self.inner.holds(number)
    }

    fn numbers(&self, alloc: Global) -> Result<Vec<u64>, Fault> {
        self.inner.numbers(alloc)
    }

    fn failures(&self) -> u64 {
        self.fuse.failures()
    }
}
