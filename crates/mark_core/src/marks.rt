//! A set of node numbers, in words of 64 bits.
ghost use Rattle.std.specs.Prelude.{◌≡◌, ◌<◌, ◌/◌, ◌≢◌, ℕ, List, length, IsTrue, ◌↔◌, IfOk, replicate};
ghost use Rattle.mark_core.specs.Bits.{bit_of, HasRoom};

use std::alloc::{AllocError, Global};
use std::marker::Model;

/// Contracts see the words: the set has n where `bit_of` is 1.
#[derive(Drop)]
pub struct Marks {
    words: Vec<u64>,
}

impl Model for Marks {
    ghost Value = { List ℕ };

    ghost view = { λ m. m.words.items };
}

impl Marks {
    /// No marks, and room for the numbers below `count`.
    pub fn empty(alloc: Global, count: usize) -> Result<Marks, AllocError>
        ensures room { IfOk result (λ m. HasRoom count m) }
        ensures none { IfOk result (λ m. (n : ℕ) → bit_of m n ≡ 0) }
    {
        Ok(Marks {
            words: Vec::from_elem(alloc, 0, count / 64 + 1)?,
        })
    }

    /// Whether n is marked; a number past the room isn't.
    pub fn has(&self, n: u32) -> bool
        ensures { IsTrue result ↔ (bit_of self.now n ≡ 1) }
    {
        let word = (n / 64) as usize;
        word < self.words.len() && (self.words[word] >> (n % 64)) & 1 == 1
    }

    /// Marks n, and says whether it was new.
    pub fn insert(&mut self, n: u32) -> bool
        requires { n / 64 < length self.old }
        ensures len { length self.new ≡ length self.old }
        ensures new { IsTrue result ↔ (bit_of self.old n ≡ 0) }
        ensures here { bit_of self.new n ≡ 1 }
        ensures others { (k : ℕ) → k ≢ n → bit_of self.new k ≡ bit_of self.old k }
    {
        let word = (n / 64) as usize;
        let mask = 1u64 << (n % 64);
        let was = self.words[word];
        self.words[word] = was | mask;
        was & mask == 0
    }
}
