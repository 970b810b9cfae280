//! Snapshots in memory, on a device that can be armed to fail once.
ghost use Rattle.std.specs.Prelude.{◌≡◌, ◌+◌, ◌↔◌, Err, OnOk, OnErr, not, IsTrue};
ghost use Rattle.std.specs.FinMap as finmap;
ghost use Rattle.back_model.specs.Snaps.{is_held, is_parent_held, has_child, accepts, gives_up};
ghost use Rattle.back_model.specs.Answers.{Makes, Removes, make_fails, remove_fails};
ghost use Rattle.back_model.specs.Fuses.{armed_for, is_failed, after_call};

use crate::faults::{MakeFault, RemoveFault};
use crate::fuse::Fuse;
use crate::mem_backend::MemBackend;
use crate::traits::SnapBackend;
use meta_types::Fault;
use std::alloc::Global;

/// Snapshots in memory, with a device that fails once where it is armed.
#[derive(Drop)]
pub struct FuseBackend {
    inner: MemBackend,
    fuse: Fuse,
}

impl FuseBackend {
    /// Passes this number of calls of `make` and `remove`, fails the next that reaches the device,
    /// and passes all later ones.
    pub fn arm(&mut self, passes: u64)
        ensures { self.new ≡ record self.old { fuse = armed_for passes self.old.fuse } }
    {
        self.fuse.arm(passes);
    }
}

impl SnapBackend for FuseBackend {
    ghost contents = { λ b. b.inner };

    ghost fails = { λ b. b.fuse.fails };

    fn never_fails() -> bool {
        false
    }

    fn fresh(alloc: Global) -> FuseBackend {
        FuseBackend {
            inner: MemBackend::fresh(alloc),
            fuse: Fuse::new(),
        }
    }

    fn make(&mut self, alloc: Global, number: u64, parent: Option<u64>) -> Result<(), MakeFault>
        ensures fault { Makes result (is_held self.old.inner number)
            (is_parent_held self.old.inner parent) }
        ensures ok { OnOk result (self.new.inner ≡ finmap.insert self.old.inner number parent) }
        ensures err { OnErr result (self.new.inner ≡ self.old.inner) }
        ensures fails { self.new.fuse.fails ≡ self.old.fuse.fails + make_fails result }
        ensures fuse { self.new.fuse
            ≡ after_call (not (accepts self.old.inner number parent)) self.old.fuse }
    {
        let is_refused = !self.inner.accepts(number, parent);
        if self.fuse.fails_call(is_refused) {
            return Err(MakeFault::Device);
        }
        self.inner.make(alloc, number, parent)
    }

    fn remove(&mut self, number: u64) -> Result<(), RemoveFault>
        ensures fault { Removes result (is_held self.old.inner number)
            (has_child self.old.inner number) }
        ensures ok { OnOk result (self.new.inner ≡ finmap.remove self.old.inner number) }
        ensures err { OnErr result (self.new.inner ≡ self.old.inner) }
        ensures fails { self.new.fuse.fails ≡ self.old.fuse.fails + remove_fails result }
        ensures fuse { self.new.fuse
            ≡ after_call (not (gives_up self.old.inner number)) self.old.fuse }
    {
        let is_refused = !self.inner.gives_up(number);
        if self.fuse.fails_call(is_refused) {
            return Err(RemoveFault::Device);
        }
        self.inner.remove(number)
    }

    fn holds(&self, number: u64) -> bool {
        self.inner.holds(number)
    }

    fn is_empty(&self) -> bool {
        self.inner.is_empty()
    }

    fn parent(&self, number: u64) -> Option<u64> {
        self.inner.parent(number)
    }

    fn numbers(&self, alloc: Global) -> Result<Vec<u64>, Fault> {
        self.inner.numbers(alloc)
    }

    fn list(&self, alloc: Global) -> Result<Vec<(u64, Option<u64>)>, Fault> {
        self.inner.list(alloc)
    }

    fn failures(&self) -> u64 {
        self.fuse.failures()
    }
}
