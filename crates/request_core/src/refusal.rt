//! How a request is refused inside the crate.
ghost use Rattle.std.specs.Prelude.{◌≡◌};
ghost use Rattle.request_core.specs.Follows.{reading, plain};

use meta_types::{Fault, Reply};

/// Memory ran out while texts were read, or a fault.
#[derive(Clone, Copy)]
pub enum Refusal {
    Reading,
    By(Fault),
}

impl From<Fault> for Refusal {
    ghost use Rattle.std.specs.Prelude.{◌≡◌};
    ghost use Rattle.request_core.specs.declared.refusal.Refusal.{Refusal};
    ghost use Rattle.request_core.specs.declared.refusal.Refusal.TheVariants.{By};

    ghost from_gives = { λ f r. r ≡ By f };

    fn from(fault: Fault) -> Refusal {
        Refusal::By(fault)
    }
}

/// A refusal in reading.
pub(crate) fn reading(fault: Fault) -> Refusal
    ensures { result ≡ reading fault }
{
    match fault {
        Fault::OutOfMemory => Refusal::Reading,
        _ => Refusal::By(fault),
    }
}

/// The fault that a refusal is answered by.
pub(crate) fn plain(answer: Result<Reply, Refusal>) -> Result<Reply, Fault>
    ensures { result ≡ plain answer }
{
    match answer {
        Ok(reply) => Ok(reply),
        Err(Refusal::Reading) => Err(Fault::OutOfMemory),
        Err(Refusal::By(fault)) => Err(fault),
    }
}
