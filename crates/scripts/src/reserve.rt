//! Memory that is kept for a collection or a question: additions leave it alone, and a line that
//! collects, asks or lists gives it up. No clause speaks of memory that is there, so a trial shows
//! that it is enough.
ghost use Rattle.std.specs.Prelude.{◌≡◌, ◌≤◌, None, true, IsErr};
ghost use Rattle.meta_types.specs.Faults.{Refuses};

pub(crate) mod reserving;
mod stored;
mod weight;

use crate::reserve::stored::{LEAST, bytes_of, count_labels, count_resources};
use crate::reserve::weight::{Weight, weight_of};
use meta_types::{Fault, Request, Workers};
use std::alloc::{AllocError, Global};
pub use stored::Stored;
pub use weight::is_listing;

/// A block of memory that is kept, and upper bounds of what tables don't count: objects without a
/// row, labels and resources.
#[derive(Drop)]
pub struct Reserve {
    block: Vec<u8>,
    // The backend number that was the next one after the last collection, and how many objects it left.
    next: u64,
    objects: usize,
    // Labels and resources as they were counted last, and those that arrived since.
    counted: Weight,
    since: Weight,
    // What the request adds that is being done.
    adds: Weight,
    // Each addition is refused.
    refuses_additions: bool,
}

// What a thread takes at most: a stack, and what the C library sets aside for its blocks.
const THREAD: usize = 142_606_336;

// The block grows by at most this number of bytes beyond what is wanted: a store that ran full and
// starts again has no more beside its rows than it had.
const AHEAD: usize = 16_384;

// What the block has where it is given up. It is never freed: a block that is freed makes room for
// smaller ones, and its place is lost.
const GIVEN_UP: usize = 4096;

impl Reserve {
    /// Keeps what the collection of an empty store takes. A run opens it before its first line.
    pub fn open(alloc: Global) -> Result<Reserve, Fault>
        ensures fault { Refuses result None }
    {
        Ok(Reserve {
            block: Vec::with_capacity(alloc, LEAST)?,
            next: 1,
            objects: 0,
            counted: Weight::none(),
            since: Weight::none(),
            adds: Weight::none(),
            refuses_additions: false,
        })
    }

    /// From now on each addition is refused, or none for this.
    pub fn refuse_additions(&mut self, are_refused: bool)
        ensures { self.new.refuses_additions ≡ are_refused }
    {
        self.refuses_additions = are_refused;
    }

    // The bytes that a collection takes of a store with the request that is being done.
    fn wanted(&self, stored: &Stored<'_>) -> usize {
        let made = stored.next.saturating_sub(self.next) as usize;
        let objects = self.objects.saturating_add(made);
        let beside = self.counted.and(&self.since).and(&self.adds);
        bytes_of(stored, objects, &beside)
    }

    // Lets the block grow to this size, and some more where that can be had; else it stays as it is.
    // It holds no byte.
    fn keep(&mut self, bytes: usize) -> bool {
        if bytes <= self.block.capacity() {
            return true;
        }
        self.block
            .reserve_exact(bytes.saturating_add((bytes / 8).min(AHEAD)))
            .is_ok()
            || self.block.reserve_exact(bytes).is_ok()
    }

    // Counts labels and resources anew.
    fn count(&mut self, stored: &Stored<'_>) {
        self.counted = Weight {
            labels: count_labels(stored.tables),
            resources: count_resources(stored.leases),
        };
        self.since = Weight::none();
    }

    /// Keeps what a collection may take once the request is done. An addition calls it before it
    /// changes the store, and is refused where the block can't grow, or where each one is.
    pub fn hold(&mut self, stored: &Stored<'_>, request: &Request) -> Result<(), Fault>
        ensures fault { Refuses result None }
        ensures refused { self.old.refuses_additions ≡ true → IsErr result }
    {
        self.adds = weight_of(request);
        if self.refuses_additions {
            return Err(Fault::OutOfMemory);
        }
        if self.keep(self.wanted(stored)) {
            return Ok(());
        }
        // What arrived since the last count may have gone again. So that a count costs no more than the
        // requests before it, it is made only where much arrived.
        if self.since.is_much_beside(&self.counted) {
            self.count(stored);
            if self.keep(self.wanted(stored)) {
                return Ok(());
            }
        }
        Err(Fault::OutOfMemory)
    }

    // Whether the memory of this number of threads can be had beside what a collection takes.
    fn has_room_for(&mut self, alloc: Global, stored: &Stored<'_>, threads: usize) -> bool {
        if !self.keep(self.wanted(stored)) {
            return false;
        }
        let room: Result<Vec<u8>, AllocError> = Vec::with_capacity(
            alloc,
            threads.saturating_mul(THREAD),
        );
        room.is_ok()
    }

    /// The number of workers that collect: all, where their threads have room beside the block, else
    /// one, the calling thread. The C library never gives back what a thread took.
    pub fn workers(&mut self, alloc: Global, stored: &Stored<'_>, workers: Workers) -> Workers
        ensures { result.count ≤ workers.count }
    {
        let count = workers.count;
        if count > 1 && !self.has_room_for(alloc, stored, count - 1) {
            return Workers::ONE;
        }
        workers
    }

    /// Gives the block up, so that a collection, a question or a listing finds room.
    pub fn release(&mut self) {
        self.block.shrink_to(GIVEN_UP);
    }

    /// Counts the labels and resources of the request that `hold` was called for, if it was done.
    pub fn settle(&mut self, done: bool) {
        if done {
            self.since = self.since.and(&self.adds);
        }
        self.adds = Weight::none();
    }

    /// Counts anew after a collection, which left this number of objects beside blobs.
    pub fn collected(&mut self, stored: &Stored<'_>, objects: u64) {
        self.next = stored.next;
        self.objects = objects as usize;
        self.count(stored);
    }
}
