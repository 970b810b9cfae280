//! What a backend promises, whichever device it has.
ghost use Rattle.std.specs.Prelude.{◌≡◌, ◌+◌, ℕ, Bool, List, [], IfOk, OnOk, OnErr, IfSome, Some, None, IsTrue, true, false, length, map, filter};
ghost use Rattle.std.specs.FinMap as finmap;
ghost use Rattle.meta_types.specs.Text.{Text};
ghost use Rattle.meta_types.specs.Changes.{put_blob};
ghost use Rattle.meta_types.specs.Faults.{Refuses};
ghost use Rattle.row_tables.specs.Arrived.{one_text, sorted};
ghost use Rattle.back_model.specs.Answers.{Makes, Removes, make_fails, remove_fails, NeverFails};
ghost use Rattle.back_model.specs.Snaps.{Snaps, is_held, is_parent_held, parent_of, has_child, is_empty};
ghost use Rattle.back_model.specs.Objects.{has_blob, without_blob, AreOrderedBlobs, has_number, put_number, without_number, AreOrderedNumbers};

use crate::faults::{MakeFault, RemoveFault};
use meta_types::{Digest, Fault};
use row_tables::{RowTable, Seed};
use std::alloc::Global;

/// The snapshots of one snapshotter, by number.
pub trait SnapBackend: Send + Drop {
    /// The parent of each number that it holds.
    ghost contents: { Self → Snaps };

    /// How often its device has failed.
    ghost fails: { Self → ℕ };

    /// Whether no device of its kind ever fails.
    fn never_fails() -> bool
        ensures { result ≡ true → NeverFails fails };

    /// An empty one. It touches no device.
    fn fresh(alloc: Global) -> Self
        ensures empty { contents result ≡ finmap.empty }
        ensures none { fails result ≡ 0 };

    /// Makes a snapshot, over a parent that is there, or over none.
    fn make(&mut self, alloc: Global, number: u64, parent: Option<u64>) -> Result<(), MakeFault>
        ensures fault { Makes result (is_held (contents self.old) number)
            (is_parent_held (contents self.old) parent) }
        ensures ok { OnOk result (contents self.new ≡ finmap.insert
            (contents self.old) number parent) }
        ensures err { OnErr result (contents self.new ≡ contents self.old) }
        ensures fails { fails self.new ≡ fails self.old + make_fails result };

    /// Removes a snapshot that is no parent.
    fn remove(&mut self, number: u64) -> Result<(), RemoveFault>
        ensures fault { Removes result (is_held (contents self.old) number)
            (has_child (contents self.old) number) }
        ensures ok { OnOk result (contents self.new ≡ finmap.remove (contents self.old) number) }
        ensures err { OnErr result (contents self.new ≡ contents self.old) }
        ensures fails { fails self.new ≡ fails self.old + remove_fails result };

    /// Whether the snapshot is there.
    fn holds(&self, number: u64) -> bool
        ensures { result ≡ is_held (contents self.now) number };

    /// Whether it holds no snapshot.
    fn is_empty(&self) -> bool
        ensures { result ≡ is_empty (contents self.now) };

    /// The parent of a snapshot, where it is there and has one.
    fn parent(&self, number: u64) -> Option<u64>
        ensures { result ≡ parent_of (contents self.now) number };

    /// The numbers, in their order.
    fn numbers(&self, alloc: Global) -> Result<Vec<u64>, Fault>
        ensures fault { Refuses result None }
        ensures ok { IfOk result (λ numbers. numbers.items ≡ finmap.keys (contents self.now)) };

    /// The numbers, in their order, each with its parent.
    fn list(&self, alloc: Global) -> Result<Vec<(u64, Option<u64>)>, Fault>
        ensures fault { Refuses result None }
        ensures ok { IfOk result (λ list. list.items ≡ finmap.entries (contents self.now)) };

    /// How often its device has failed.
    fn failures(&self) -> u64
        ensures { result ≡ fails self.now };
}

/// The blobs, by digest.
pub trait BlobBackend: Send + Drop {
    /// The digests, in their order.
    ghost contents: { Self → List Text };

    /// The digests, in the order in which they are lent.
    ghost arrived: { Self → List Text };

    /// How often its device has failed.
    ghost fails: { Self → ℕ };

    /// Whether no device of its kind ever fails.
    fn never_fails() -> bool
        ensures { result ≡ true → NeverFails fails };

    /// An empty one, whose table hashes by the seed. It touches no device.
    fn fresh(alloc: Global, seed: Seed) -> Self
        ensures empty { contents result ≡ [] }
        ensures none { fails result ≡ 0 };

    /// Makes a blob. The answer is never that a parent is missing.
    fn make(&mut self, alloc: Global, digest: &Digest) -> Result<(), MakeFault>
        ensures fault { Makes result (has_blob digest.now (contents self.old)) true }
        ensures ok { OnOk result (contents self.new ≡ put_blob digest.now (contents self.old)) }
        ensures err { OnErr result (contents self.new ≡ contents self.old) }
        ensures fails { fails self.new ≡ fails self.old + make_fails result };

    /// Removes a blob.
    fn remove(&mut self, digest: &Digest) -> Result<(), RemoveFault>
        ensures fault { Removes result (has_blob digest.now (contents self.old)) false }
        ensures ok { OnOk result (contents self.new ≡ without_blob digest.now (contents self.old)) }
        ensures err { OnErr result (contents self.new ≡ contents self.old) }
        ensures fails { fails self.new ≡ fails self.old + remove_fails result };

    /// Whether the blob is there.
    fn holds(&self, digest: &Digest) -> bool
        ensures holds { result ≡ has_blob digest.now (contents self.now) }
        ensures order { AreOrderedBlobs (contents self.now) };

    /// Lends the digests in the order in which they are held, each found by its hash.
    fn digests(&self) -> &RowTable<Digest, Digest>
        ensures arrived { result.now ≡ arrived self.now }
        ensures order { sorted one_text result.now ≡ contents self.now };

    /// Keeps the blobs whose mark is set, in the order of `digests`, and removes all others in one
    /// pass. Where its device may fail it answers false and changes nothing: each blob takes a call
    /// of its own then.
    fn retain(&mut self, marks: &[bool]) -> bool
        requires { length marks.now ≡ length (arrived self.old) }
        ensures kept { IsTrue result → (stays : Text → Bool) → marks.now ≡ map stays
            (arrived self.old) → contents self.new ≡ filter stays (contents self.old) }
        ensures same { result ≡ false → contents self.new ≡ contents self.old }
        ensures fails { fails self.new ≡ fails self.old };

    /// How often its device has failed.
    fn failures(&self) -> u64
        ensures { result ≡ fails self.now };
}

/// The objects of ingests, by number.
pub trait IngestBackend: Send + Drop {
    /// The numbers, in their order.
    ghost contents: { Self → List ℕ };

    /// How often its device has failed.
    ghost fails: { Self → ℕ };

    /// Whether no device of its kind ever fails.
    fn never_fails() -> bool
        ensures { result ≡ true → NeverFails fails };

    /// An empty one. It touches no device.
    fn fresh(alloc: Global) -> Self
        ensures empty { contents result ≡ [] }
        ensures none { fails result ≡ 0 };

    /// Makes an ingest's object. The answer is never that a parent is missing.
    fn make(&mut self, alloc: Global, number: u64) -> Result<(), MakeFault>
        ensures fault { Makes result (has_number number (contents self.old)) true }
        ensures ok { OnOk result (contents self.new ≡ put_number number (contents self.old)) }
        ensures err { OnErr result (contents self.new ≡ contents self.old) }
        ensures fails { fails self.new ≡ fails self.old + make_fails result };

    /// Removes an ingest's object.
    fn remove(&mut self, number: u64) -> Result<(), RemoveFault>
        ensures fault { Removes result (has_number number (contents self.old)) false }
        ensures ok { OnOk result (contents self.new ≡ without_number number (contents self.old)) }
        ensures err { OnErr result (contents self.new ≡ contents self.old) }
        ensures fails { fails self.new ≡ fails self.old + remove_fails result };

    /// Whether the ingest's object is there.
    fn holds(&self, number: u64) -> bool
        ensures holds { result ≡ has_number number (contents self.now) }
        ensures order { AreOrderedNumbers (contents self.now) };

    /// The numbers, in their order.
    fn numbers(&self, alloc: Global) -> Result<Vec<u64>, Fault>
        ensures fault { Refuses result None }
        ensures ok { IfOk result (λ numbers. numbers.items ≡ contents self.now) };

    /// How often its device has failed.
    fn failures(&self) -> u64
        ensures { result ≡ fails self.now };
}
