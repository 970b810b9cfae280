//! The fault "there already".
ghost use Rattle.std.specs.Prelude.{◌≡◌};
ghost use Rattle.request_core.specs.ThereFault.{says_there};

use meta_types::Fault;

/// Whether the fault says that what is made is there.
pub(crate) fn says_there(fault: Fault) -> bool
    ensures { result ≡ says_there fault }
{
    match fault {
        Fault::AlreadyExists => true,
        _ => false,
    }
}
