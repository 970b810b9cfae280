//! Values that several hold as one.
ghost use Rattle.std.specs.Prelude.{◌≡◌, None, IfOk};
ghost use Rattle.meta_types.specs.Faults.{Refuses};

use crate::fault::Fault;
use std::alloc::Global;
use std::marker::Model;
use std::sync::Arc;

/// A value that several hold as one, also in several threads. It is freed with its last holder.
/// What a clause says of a holder, it says of the value.
#[derive(Drop)]
pub struct Shared<T> {
    one: Arc<T, Global>,
}

impl<T> Model for Shared<T> {
    ghost use Rattle.std.specs.Arc.{arc_value};

    ghost Value = { T };

    ghost view = { λ s. arc_value s.one };
}

impl<T: Drop> Shared<T> {
    /// The first holder of the value, which a refusal drops. It takes all the memory that is
    /// needed, however many hold the value later.
    pub fn new(alloc: Global, value: T) -> Result<Shared<T>, Fault>
        ensures fault { Refuses result None }
        ensures ok { IfOk result (λ shared. shared ≡ value) }
    {
        let one = Arc::new(alloc, value)?;
        Ok(Shared { one })
    }

    /// A further holder of the value. It takes no memory: it is refused only where there are as
    /// many holders as can be counted (2 to the power of 63).
    pub fn share(&self) -> Result<Shared<T>, Fault>
        ensures fault { Refuses result None }
        ensures ok { IfOk result (λ shared. shared ≡ self.now) }
    {
        let one = Arc::try_clone(&self.one)?;
        Ok(Shared { one })
    }

    /// The value that all its holders see.
    pub fn get(&self) -> &T
        ensures { result.now ≡ self.now }
    {
        &*self.one
    }
}
