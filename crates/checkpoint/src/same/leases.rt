//! Leases, compared with their labels, their data and with what they hold.
ghost use Rattle.std.specs.Prelude.{◌≡◌, ◌↔◌, IsTrue, IfOk, None, map, take};
ghost use Rattle.meta_types.specs.Faults.{Refuses};

use crate::same::lists::are_same;
use lease_book::{Lease, Leases};
use meta_types::Fault;
use std::alloc::Global;

// Whether both have one name, in one namespace.
fn have_same_key(lease: &Lease, other: &Lease) -> bool
    ensures { IsTrue result ↔ ((lease.now.ns ≡ other.now.ns) × (lease.now.id ≡ other.now.id)) }
{
    lease.ns() == other.ns() && lease.id() == other.id()
}

fn hold_same(alloc: Global, lease: &Lease, other: &Lease) -> Result<bool, Fault>
    ensures fault { Refuses result None }
    ensures ok { IfOk result (λ same. IsTrue same ↔ (lease.now.resources ≡ other.now.resources)) }
{
    let held = lease.resources(alloc)?;
    let others = other.resources(alloc)?;
    Ok(are_same(&held, &others))
}

fn is_same_lease(alloc: Global, lease: &Lease, other: &Lease) -> Result<bool, Fault>
    ensures fault { Refuses result None }
    ensures ok { IfOk result (λ same. IsTrue same ↔ (lease.now ≡ other.now)) }
{
    if !have_same_key(lease, other) {
        return Ok(false);
    }
    if !lease.labels().is(other.labels()) || lease.extra() != other.extra() {
        return Ok(false);
    }
    // For the prover: the result is opened, not passed on.
    let same = hold_same(alloc, lease, other)?;
    Ok(same)
}

fn are_same_rows(alloc: Global, leases: &[&Lease], others: &[&Lease]) -> Result<bool, Fault>
    ensures fault { Refuses result None }
    ensures ok { IfOk result (λ same.
        IsTrue same ↔ (map (λ row. row.now) leases.now ≡ map (λ row. row.now) others.now)) }
{
    if leases.len() != others.len() {
        return Ok(false);
    }
    for place in 0..leases.len() {
        if !is_same_lease(alloc, leases[place], others[place])? {
            return Ok(false);
        }
    }
    Ok(true)
}

/// Whether both have the same leases.
pub(crate) fn are_same_leases(
    alloc: Global,
    leases: &Leases,
    others: &Leases,
) -> Result<bool, Fault>
    ensures fault { Refuses result None }
    ensures ok { IfOk result (λ same. IsTrue same ↔ (leases.now ≡ others.now)) }
{
    let rows = leases.leases(alloc)?;
    let others = others.leases(alloc)?;
    // For the prover: the result is opened, not passed on.
    let same = are_same_rows(alloc, &rows, &others)?;
    Ok(same)
}
