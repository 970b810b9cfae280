//! Objects of backends, compared kind by kind.
ghost use Rattle.std.specs.Prelude.{◌≡◌, ◌↔◌, IsTrue, IfOk, None, map};
ghost use Rattle.meta_types.specs.Faults.{Refuses};
ghost use Rattle.back_model.specs.Shown.{all_snaps, listed_snap};

use crate::same::lists::are_same;
use back_model::{Backends, BlobBackend, IngestBackend, SnapBackend};
use meta_types::{Fault, ShortName};
use row_tables::in_key_order;
use std::alloc::Global;

fn have_same_blobs<B: BlobBackend, C: BlobBackend>(
    alloc: Global,
    blobs: &B,
    others: &C,
) -> Result<bool, Fault>
    ensures fault { Refuses result None }
    ensures ok { IfOk result (λ same. IsTrue same ↔ (B.contents blobs.now ≡ C.contents others.now)) }
{
    let digests = in_key_order(alloc, blobs.digests())?;
    let others = in_key_order(alloc, others.digests())?;
    Ok(are_same(&digests, &others))
}

fn have_same_ingests<I: IngestBackend, J: IngestBackend>(
    alloc: Global,
    ingests: &I,
    others: &J,
) -> Result<bool, Fault>
    ensures fault { Refuses result None }
    ensures ok { IfOk result (λ same.
        IsTrue same ↔ (I.contents ingests.now ≡ J.contents others.now)) }
{
    let numbers = ingests.numbers(alloc)?;
    let others = others.numbers(alloc)?;
    Ok(numbers == others)
}

fn is_same_snap(snap: &(ShortName, u64, Option<u64>), other: &(ShortName, u64, Option<u64>)) -> bool
    ensures { IsTrue result ↔ (listed_snap snap.now ≡ listed_snap other.now) }
{
    snap.0 == other.0 && snap.1 == other.1 && snap.2 == other.2
}

// Whether both lists have the same snapshots, over the same parents.
fn are_same_snaps(
    snaps: &[(ShortName, u64, Option<u64>)],
    others: &[(ShortName, u64, Option<u64>)],
) -> bool
    ensures { IsTrue result ↔ (map listed_snap snaps.now ≡ map listed_snap others.now) }
{
    if snaps.len() != others.len() {
        return false;
    }
    for place in 0..snaps.len() {
        if !is_same_snap(&snaps[place], &others[place]) {
            return false;
        }
    }
    true
}

fn have_same_snaps<
    S: SnapBackend,
    B: BlobBackend,
    I: IngestBackend,
    T: SnapBackend,
    C: BlobBackend,
    J: IngestBackend,
>(alloc: Global, objects: &Backends<S, B, I>, others: &Backends<T, C, J>) -> Result<bool, Fault>
    ensures fault { Refuses result None }
    ensures ok { IfOk result (λ same.
        IsTrue same ↔ (all_snaps objects.now.shards ≡ all_snaps others.now.shards)) }
{
    let snaps = objects.snaps(alloc)?;
    let others = others.snaps(alloc)?;
    Ok(are_same_snaps(&snaps, &others))
}

/// Whether both have the same objects.
pub(crate) fn are_same_objects<
    S: SnapBackend,
    B: BlobBackend,
    I: IngestBackend,
    T: SnapBackend,
    C: BlobBackend,
    J: IngestBackend,
>(alloc: Global, objects: &Backends<S, B, I>, others: &Backends<T, C, J>) -> Result<bool, Fault>
    ensures fault { Refuses result None }
    ensures ok { IfOk result (λ same. IsTrue same
        ↔ ((all_snaps objects.now.shards ≡ all_snaps others.now.shards)
        × (B.contents objects.now.blobs ≡ C.contents others.now.blobs)
        × (I.contents objects.now.ingests ≡ J.contents others.now.ingests))) }
{
    if !have_same_blobs(alloc, objects.blobs(), others.blobs())? {
        return Ok(false);
    }
    if !have_same_ingests(alloc, objects.ingests(), others.ingests())? {
        return Ok(false);
    }
    // For the prover: the result is opened, not passed on.
    let same = have_same_snaps(alloc, objects, others)?;
    Ok(same)
}
