//! Calls of backends whose devices have a fuse.

use back_model::{
    Backends, BlobBackend, FuseBackend, FuseBlobs, FuseIngests, IngestBackend, SnapBackend,
};
use meta_types::{Digest, Fault, ShortName};
use row_tables::Seed;
use std::alloc::Global;

type Fuses = Backends<FuseBackend, FuseBlobs, FuseIngests>;

const DIGEST: &str = "sha256:aaaaaaaaaaaaaaaaaaaaaaaaaaaaaaaaaaaaaaaaaaaaaaaaaaaaaaaaaaaaaaaa";

fn has_shard(backends: &Fuses, by: &ShortName) -> bool {
    match backends.shard(by) {
        Some(shard) => shard.holds(1) && shard.failures() == 0,
        None => false,
    }
}

fn shards(backends: &mut Fuses, alloc: Global, by: &ShortName) -> Result<bool, Fault> {
    backends.set_shard(alloc, by.copy()?, FuseBackend::fresh(alloc))?;
    let made = backends.make_snap(alloc, by, 1, None);
    let shards = backends.take_shards();
    backends.put_shards(shards);
    Ok(made.is_ok() && has_shard(backends, by))
}

fn objects(backends: &mut Fuses, alloc: Global, digest: &Digest) -> Result<bool, Fault> {
    let blob = backends.blobs_mut().make(alloc, digest);
    let ingest = backends.ingests_mut().make(alloc, 1);
    let lists = backends.lists(alloc)?;
    let failures = backends.blobs().failures() == 0 && backends.ingests().failures() == 0;
    Ok(blob.is_ok() && ingest.is_ok() && failures && lists.snapshots.len() == 1)
}

/// Makes a shard, a blob and an ingest's object, and lists them.
pub(crate) fn calls(alloc: Global) -> Result<bool, Fault> {
    let by = ShortName::read(alloc, "overlayfs")?;
    let digest = Digest::read(alloc, DIGEST)?;
    let mut backends = Backends::new(
        alloc,
        FuseBlobs::fresh(alloc, Seed::Fixed),
        FuseIngests::fresh(alloc),
    );
    Ok(shards(&mut backends, alloc, &by)? && objects(&mut backends, alloc, &digest)?)
}
