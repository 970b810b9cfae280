//! What the backends hold, lent or listed, without a copy of a blob's digest.
ghost use Rattle.std.specs.Prelude.{◌≡◌, None, IfOk};
ghost use Rattle.meta_types.specs.Faults.{Refuses};
ghost use Rattle.back_model.specs.Held.{held, lists_lent};

use crate::backends::Backends;
use crate::traits::{BlobBackend, IngestBackend, SnapBackend};
use meta_types::{Digest, Fault, ShortName};
use row_tables::RowTable;
use std::alloc::Global;

/// All objects of the backends: digests, lent in the order in which they are held; snapshots by
/// snapshotter and number with their parents, and numbers of ingests, both listed.
#[derive(Drop)]
pub struct LentBackends<'a> {
    pub blobs: &'a RowTable<Digest, Digest>,
    pub snapshots: Vec<(ShortName, u64, Option<u64>)>,
    pub ingests: Vec<u64>,
}

impl<S: SnapBackend, B: BlobBackend, I: IngestBackend> Backends<S, B, I> {
    /// What all backends hold. A shard without snapshots isn't seen. Only the lists take memory.
    pub fn lent(&self, alloc: Global) -> Result<LentBackends<'_>, Fault>
        ensures fault { Refuses result None }
        ensures ok { IfOk result (λ lent. lists_lent lent ≡ held B.contents I.contents self.now) }
        ensures arrived { IfOk result (λ lent. lent.blobs.now ≡ B.arrived self.now.blobs) }
    {
        let snapshots = self.snaps(alloc)?;
        let ingests = self.ingests().numbers(alloc)?;
        Ok(LentBackends {
            blobs: self.blobs().digests(),
            snapshots,
            ingests,
        })
    }
}
