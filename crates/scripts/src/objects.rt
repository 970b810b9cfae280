//! All objects of the backend, by their names.
ghost use Rattle.std.specs.Prelude.{◌≡◌, map, IfOk, None};
ghost use Rattle.meta_types.specs.Backends.{object_name};
ghost use Rattle.meta_types.specs.Faults.{Refuses};
ghost use Rattle.meta_types.specs.Questions.{names_of};
ghost use Rattle.back_model.specs.Shown.{all_snaps, listed_snap};

use back_model::{Backends, BlobBackend, IngestBackend, SnapBackend};
use gc_report::Objects;
use meta_types::{Digest, Fault, ShortName};
use request_core::State;
use row_tables::in_key_order;
use std::alloc::Global;

fn copies_of(alloc: Global, lent: &[&Digest]) -> Result<Vec<Digest>, Fault>
    ensures fault { Refuses result None }
    ensures ok { IfOk result (λ digests. digests.items ≡ map (λ digest. digest.now) lent.now) }
{
    let mut digests = Vec::with_capacity(alloc, lent.len())?;
    for digest in lent {
        digests.push(digest.copy()?)?;
    }
    Ok(digests)
}

// The digests of all blobs, in their order.
fn blob_names<B: BlobBackend>(alloc: Global, blobs: &B) -> Result<Vec<Digest>, Fault>
    ensures fault { Refuses result None }
    ensures ok { IfOk result (λ digests. digests.items ≡ B.contents blobs.now) }
{
    let lent = in_key_order(alloc, blobs.digests())?;
    // For the prover: the result is opened, not passed on.
    let digests = copies_of(alloc, &lent)?;
    Ok(digests)
}

// Snapshots without their parents.
fn pairs_of(
    alloc: Global,
    snaps: &[(ShortName, u64, Option<u64>)],
) -> Result<Vec<(ShortName, u64)>, Fault>
    ensures fault { Refuses result None }
    ensures ok { IfOk result (λ names. names.items
        ≡ map object_name (map listed_snap snaps.now)) }
{
    let mut names = Vec::with_capacity(alloc, snaps.len())?;
    for snap in snaps {
        names.push((snap.0.copy()?, snap.1))?;
    }
    Ok(names)
}

// The names of all snapshots, in their order.
fn snap_names<S: SnapBackend, B: BlobBackend, I: IngestBackend>(
    alloc: Global,
    objects: &Backends<S, B, I>,
) -> Result<Vec<(ShortName, u64)>, Fault>
    ensures fault { Refuses result None }
    ensures ok { IfOk result (λ names. names.items
        ≡ map object_name (all_snaps objects.now.shards)) }
{
    let snaps = objects.snaps(alloc)?;
    // For the prover: the result is opened, not passed on.
    let names = pairs_of(alloc, &snaps)?;
    Ok(names)
}

fn all_names<S: SnapBackend, B: BlobBackend, I: IngestBackend>(
    alloc: Global,
    objects: &Backends<S, B, I>,
) -> Result<Objects, Fault>
    ensures fault { Refuses result None }
    ensures ok { IfOk result (λ names. names ≡ record {
      blobs = B.contents objects.now.blobs;
      ingests = I.contents objects.now.ingests;
      snapshots = map object_name (all_snaps objects.now.shards);
    }) }
{
    let blobs = blob_names(alloc, objects.blobs())?;
    let snapshots = snap_names(alloc, objects)?;
    let ingests = objects.ingests().numbers(alloc)?;
    Ok(Objects {
        blobs,
        ingests,
        snapshots,
    })
}

/// All objects of the backend, by their names.
pub(crate) fn objects_in<S: SnapBackend, B: BlobBackend, I: IngestBackend>(
    alloc: Global,
    state: &State<S, B, I>,
) -> Result<Objects, Fault>
    ensures fault { Refuses result None }
    ensures ok { IfOk result (λ names. names ≡ names_of state.now.state.backends) }
{
    // For the prover: the result is opened, not passed on.
    let names = all_names(alloc, &state.backends)?;
    Ok(names)
}
