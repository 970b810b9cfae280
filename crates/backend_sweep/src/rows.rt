//! What the backends hold, as a plan reads it.
ghost use Rattle.std.specs.Prelude.{◌≡◌};
ghost use Rattle.back_model.specs.Held.{lists_lent, lists_in};
ghost use Rattle.table_sweep.specs.Backed.{lists_of};

use back_model::{BackLists, LentBackends};
use table_sweep::BackRows;

/// What was lent, for a plan to read.
pub fn rows_lent<'a>(lent: &'a LentBackends<'_>) -> BackRows<'a>
    ensures lists { lists_of result ≡ lists_lent lent.now }
    ensures blobs { result.blobs.now ≡ lent.now.blobs.now }
{
    BackRows {
        blobs: lent.blobs,
        snapshots: &lent.snapshots,
        ingests: &lent.ingests,
    }
}

/// What was listed, for a plan to read.
pub fn rows_listed(lists: &BackLists) -> BackRows<'_>
    ensures lists { lists_of result ≡ lists_in lists.now }
    ensures blobs { result.blobs.now ≡ lists.now.blobs }
{
    BackRows {
        blobs: &lists.blobs,
        snapshots: &lists.snapshots,
        ingests: &lists.ingests,
    }
}
