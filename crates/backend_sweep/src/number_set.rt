//! A set of numbers with room for more, each found by a look-up.
ghost use Rattle.std.specs.Prelude.{◌≡◌, ◌<◌, ◌-◌, [], None, IfOk};
ghost use Rattle.meta_types.specs.Faults.{Refuses};
ghost use Rattle.backend_sweep.specs.Shards.{has};
ghost use Rattle.backend_sweep.specs.Sweep.{with_number};

use indexmap::IndexSet;
use meta_types::Fault;
use std::alloc::Global;
use std::marker::Model;

/// Numbers, each once, in the order in which they were added; and room for more.
#[derive(Drop)]
pub(crate) struct NumberSet {
    set: IndexSet<u64>,
    room: usize,
}

impl Model for NumberSet {
    ghost use Rattle.std.specs.Prelude.{◌≤◌};
    ghost use Rattle.indexmap.specs.IndexSet.{spare};
    ghost use Rattle.backend_sweep.specs.Sweep.{Roomy};

    ghost Value = { Roomy };

    ghost view = { λ s. record { numbers = s.set.keys; room = s.room } };

    ghost invariant = { λ s. s.room ≤ spare s.set };
}

impl NumberSet {
    /// No number, and room for this many.
    pub(crate) fn with_room(alloc: Global, room: usize) -> Result<NumberSet, Fault>
        ensures fault { Refuses result None }
        ensures ok { IfOk result (λ s. s ≡ record { numbers = []; room = room }) }
    {
        Ok(NumberSet {
            set: IndexSet::with_capacity(alloc, room)?,
            room,
        })
    }

    /// No number, and no room.
    pub(crate) fn none(alloc: Global) -> NumberSet
        ensures { result ≡ record { numbers = []; room = 0 } }
    {
        NumberSet {
            set: IndexSet::new(alloc),
            room: 0,
        }
    }

    /// Whether the number is among them.
    pub(crate) fn has(&self, number: u64) -> bool
        ensures { result ≡ has self.now.numbers number }
    {
        self.set.contains(&number)
    }

    /// Adds a number, in the room for it.
    pub(crate) fn add(&mut self, number: u64)
        requires { 0 < self.old.room }
        ensures { self.new ≡ record {
          numbers = with_number self.old.numbers number;
          room = self.old.room - 1;
        } }
    {
        if self.set.insert(number).is_err() {
            unreachable!();
        }
        self.room -= 1;
    }

    /// All of them.
    pub(crate) fn as_slice(&self) -> &[u64]
        ensures { result.now ≡ self.now.numbers }
    {
        self.set.as_slice()
    }
}
