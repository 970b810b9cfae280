//! When a checkpoint is due.
ghost use Rattle.std.specs.Prelude.{◌≡◌, ◌<◌, ◌^◌, ℕ, nat_lt};
ghost use Rattle.kept_store.specs.Checkpoints.{is_due};

/// A journal of up to this number of bytes is short.
const SHORT: usize = 64 << 20;

/// The length behind which a checkpoint of a journal is due that went up to `checkpoint` when its
/// last one was taken, or 0.
pub fn due_at(checkpoint: usize) -> usize
    ensures { (end : ℕ) → end < 2 ^ 64 → nat_lt result end ≡ is_due end checkpoint }
{
    let Some(times) = checkpoint.checked_mul(4) else {
        return usize::MAX;
    };
    if times < SHORT {
        return SHORT;
    }
    times
}
