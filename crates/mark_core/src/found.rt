//! The claimed numbers, as bits to test and as a list to go through.
ghost use Rattle.std.specs.Prelude.{◌≡◌, ◌<◌, ◌/◌, ℕ, [], length, All, IfOk, OnOk};
ghost use Rattle.mark_core.specs.Bits.{bit_of, times, HasRoom};
ghost use Rattle.mark_core.specs.Claims.{is_in, claim, claim_all};

use crate::marks::Marks;
use std::alloc::{AllocError, Global};

// The claimed numbers, in the order of claiming. The bits say the same as the list.
#[derive(Drop)]
pub struct Found {
    pub marks: Marks,
    pub order: Vec<u32>,
    ghost same: { (n : ℕ) → bit_of marks n ≡ times n order.items },
}

impl Found {
    // Nothing is claimed, and there is room for the numbers below `count`.
    pub fn empty(alloc: Global, count: usize) -> Result<Found, AllocError>
        ensures none { IfOk result (λ f. f.order.items ≡ []) }
        ensures room { IfOk result (λ f. HasRoom count f.marks) }
    {
        Ok(Found {
            marks: Marks::empty(alloc, count)?,
            order: Vec::new(alloc),
        })
    }

    pub fn order(&self) -> &[u32]
        ensures { result.now ≡ self.now.order.items }
    {
        &self.order
    }

    // Claims n, and says whether it was claimed already.
    pub fn add(&mut self, n: u32) -> Result<bool, AllocError>
        requires { n / 64 < length self.old.marks }
        ensures room { length self.new.marks ≡ length self.old.marks }
        ensures claims { OnOk result (self.new.order.items ≡ claim self.old.order.items n) }
        ensures known { IfOk result (λ known. known ≡ is_in n self.old.order.items) }
    {
        // The room comes first, so that bits and list change together.
        self.order.reserve(1)?;
        if self.marks.insert(n) {
            self.order.push_reserved(n);
            return Ok(false);
        }
        Ok(true)
    }

    pub fn add_all(&mut self, numbers: &[u32]) -> Result<(), AllocError>
        requires { All (λ n. n / 64 < length self.old.marks) numbers.now }
        ensures room { length self.new.marks ≡ length self.old.marks }

        ensures claims { OnOk result
            (self.new.order.items ≡ claim_all self.old.order.items numbers.now) }
    {
        for n in numbers {
            self.add(*n)?;
        }
        Ok(())
    }
}
