//! The sweep of blobs.
ghost use Rattle.std.specs.Prelude.{◌≡◌, length, map, bytes_eq};
ghost use Rattle.table_sweep.specs.BlobMarks.{AreBlobMarks};
ghost use Rattle.backend_sweep.specs.Singles.{AreHeldOnce};
ghost use Rattle.backend_sweep.specs.Tasks.{SweepsList};
ghost use Rattle.backend_sweep.specs.declared.outcomes.Outcome.TheVariants.{Removed};

use crate::outcomes::Outcome;
use back_model::BlobBackend;
use meta_types::Digest;

// Removes the blobs one by one, and sets what became of each; one that the device fails stays.
fn remove_each<B: BlobBackend>(backend: &mut B, names: &[Digest], outcomes: &mut [Outcome])
    requires names { AreHeldOnce bytes_eq names.now (B.contents backend.old) }
    requires outcomes { length outcomes.old ≡ length names.now }
    ensures swept { SweepsList bytes_eq B.contents B.fails names.now outcomes.new backend.old
        backend.new }
    ensures outcomes { length outcomes.new ≡ length names.now }
{
    for i in 0..names.len() {
        match backend.remove(&names[i]) {
            Ok(()) => outcomes[i] = Outcome::Removed,
            Err(_) => outcomes[i] = Outcome::Failed,
        }
    }
}

// Sets that all of these went.
fn set_removed(names: &[Digest], outcomes: &mut [Outcome])
    requires { length outcomes.old ≡ length names.now }
    ensures { outcomes.new ≡ map (λ _. Removed) names.now }
{
    for i in 0..names.len() {
        outcomes[i] = Outcome::Removed;
    }
}

/// Removes the blobs, and sets what became of each; one that the device fails stays. The marks say
/// of all blobs which stay, so a backend that can't fail leaves these in one pass. It takes no
/// memory.
pub(crate) fn sweep_blobs<B: BlobBackend>(
    backend: &mut B,
    names: &[Digest],
    marks: &[bool],
    outcomes: &mut [Outcome],
)
    requires names { AreHeldOnce bytes_eq names.now (B.contents backend.old) }
    requires marks { AreBlobMarks names.now (B.arrived backend.old) marks.now }
    requires outcomes { length outcomes.old ≡ length names.now }
    ensures swept { SweepsList bytes_eq B.contents B.fails names.now outcomes.new backend.old
        backend.new }
    ensures outcomes { length outcomes.new ≡ length names.now }
{
    if backend.retain(marks) {
        set_removed(names, outcomes);
        return;
    }
    remove_each(backend, names, outcomes);
}
