//! Whether two stores are one.
ghost use Rattle.std.specs.Prelude.{◌≡◌, ◌↔◌, IsTrue, IfOk, None};
ghost use Rattle.meta_types.specs.Faults.{Refuses};

mod compared;
mod leases;
mod lists;
mod objects;
mod tables;

use crate::same::leases::are_same_leases;
use crate::same::objects::are_same_objects;
use crate::same::tables::are_same_tables;
use back_model::{BlobBackend, IngestBackend, SnapBackend};
use meta_types::Fault;
use request_core::{Records, State};
use std::alloc::Global;

fn are_same_records(alloc: Global, records: &Records, others: &Records) -> Result<bool, Fault>
    ensures fault { Refuses result None }
    ensures ok { IfOk result (λ same. IsTrue same ↔ (records.now ≡ others.now)) }
{
    if records.next != others.next || records.profile != others.profile {
        return Ok(false);
    }
    if !are_same_tables(alloc, &records.tables, &others.tables)? {
        return Ok(false);
    }
    // For the prover: the result is opened, not passed on.
    let same = are_same_leases(alloc, &records.leases, &others.leases)?;
    Ok(same)
}

/// Whether two stores hold the same: rows of each kind, leases, the next number, the profile, and
/// objects. How often their devices failed isn't compared. It takes a time that grows as the number
/// of rows and its logarithm.
pub fn is_same<S, B, I, T, C, J>(
    alloc: Global,
    store: &State<S, B, I>,
    other: &State<T, C, J>,
) -> Result<bool, Fault>
where
    S: SnapBackend,
    B: BlobBackend,
    I: IngestBackend,
    T: SnapBackend,
    C: BlobBackend,
    J: IngestBackend,
    ensures fault { Refuses result None }
    ensures ok { IfOk result (λ same. IsTrue same ↔ (store.now.state ≡ other.now.state)) }
{
    if !are_same_records(alloc, store.records(), other.records())? {
        return Ok(false);
    }
    // For the prover: the result is opened, not passed on.
    let same = are_same_objects(alloc, &store.backends, &other.backends)?;
    Ok(same)
}
