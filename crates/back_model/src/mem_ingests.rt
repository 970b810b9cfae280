//! A model of ingests' objects, kept in memory.
use crate::faults::{MakeFault, RemoveFault};
use crate::traits::IngestBackend;
use meta_types::Fault;
use std::alloc::Global;
use std::collections::BTreeSet;
use std::marker::Model;

/// Objects of ingests in memory. No device fails.
#[derive(Drop)]
pub struct MemIngests {
    numbers: BTreeSet<u64>,
}

impl Model for MemIngests {
    ghost use Rattle.std.specs.Prelude.{List, ℕ};

    ghost Value = { List ℕ };

    ghost view = { λ b. b.numbers.keys };
}

impl IngestBackend for MemIngests {
    ghost contents = { λ b. b };

    ghost fails = { λ _. 0 };

    fn never_fails() -> bool {
        true
    }

    fn fresh(alloc: Global) -> MemIngests {
        MemIngests {
            numbers: BTreeSet::new(alloc),
        }
    }

    fn make(&mut self, _alloc: Global, number: u64) -> Result<(), MakeFault> {
        let Ok(is_new) = self.numbers.insert(number) else {
            return Err(MakeFault::Memory);
        };
        if !is_new {
            return Err(MakeFault::Taken);
        }
        Ok(())
    }

    fn remove(&mut self, number: u64) -> Result<(), RemoveFault> {
        // The set is in order before a key goes.
        let _len = self.numbers.len();
        if !self.numbers.remove(&number) {
            return Err(RemoveFault::Missing);
        }
        Ok(())
    }

    fn holds(&self, number: u64) -> bool {
        // The set is in order where a key is looked for.
        let _len = self.numbers.len();
        self.numbers.contains(&number)
    }

    fn numbers(&self, alloc: Global) -> Result<Vec<u64>, Fault> {
        let mut numbers = Vec::with_capacity(alloc, self.numbers.len())?;
        for number in &self.numbers {
            numbers.push(*number)?;
        }
        Ok(numbers)
    }

    fn failures(&self) -> u64 {
        0
    }
}
