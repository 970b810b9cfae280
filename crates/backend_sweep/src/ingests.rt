//! The sweep of ingests.
ghost use Rattle.std.specs.Prelude.{◌≡◌, length};
ghost use Rattle.backend_sweep.specs.Shards.{is_number};
ghost use Rattle.backend_sweep.specs.Singles.{AreHeldOnce};
ghost use Rattle.backend_sweep.specs.Tasks.{SweepsList};

use crate::outcomes::Outcome;
use back_model::IngestBackend;

/// Removes the ingests' objects, and sets what became of each; one that the device fails stays.
/// It takes no memory.
pub(crate) fn sweep_ingests<I: IngestBackend>(
    backend: &mut I,
    names: &[u64],
    outcomes: &mut [Outcome],
)
    requires names { AreHeldOnce is_number names.now (I.contents backend.old) }
    requires outcomes { length outcomes.old ≡ length names.now }
    ensures swept { SweepsList is_number I.contents I.fails names.now outcomes.new backend.old
        backend.new }
    ensures outcomes { length outcomes.new ≡ length names.now }
{
    for i in 0..names.len() {
        match backend.remove(names[i]) {
            Ok(()) => outcomes[i] = Outcome::Removed,
            Err(_) => outcomes[i] = Outcome::Failed,
        }
    }
}
