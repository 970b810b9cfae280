//! What can be seen of a store, to be compared later.

use lease_book::Lease;
use meta_types::Fault;
use request_core::Records;
use std::alloc::Global;
use store_front::{Entry, History};

/// A history so far, which a cut gives only where the session's list is its part of the log; and
/// the records.
#[derive(Drop)]
pub(crate) struct Seen {
    pub(crate) history: History,
    pub(crate) records: Records,
}

// How many resources and labels one lease has.
fn held(alloc: Global, lease: &Lease) -> Result<u128, Fault> {
    let resources = lease.resources(alloc)?;
    Ok(resources.len() as u128 + lease.labels().len() as u128)
}

// How many all leases have; the sum has no use but to be compared.
fn held_by_all(alloc: Global, records: &Records) -> Result<u128, Fault> {
    let mut count = 0u128;
    let leases = records.leases.leases(alloc)?;
    for lease in &leases {
        count = count.wrapping_add(held(alloc, lease)?);
    }
    Ok(count)
}

fn hold_the_same(alloc: Global, one: &Records, two: &Records) -> bool {
    match (held_by_all(alloc, one), held_by_all(alloc, two)) {
        (Ok(held), Ok(other)) => held == other,
        _ => false,
    }
}

/// Whether these are the same, as far as counts tell it.
pub(crate) fn are_same_records(alloc: Global, one: &Records, two: &Records) -> bool {
    one.tables.counts() == two.tables.counts()
        && one.leases.len() == two.leases.len()
        && hold_the_same(alloc, one, two)
        && one.next == two.next
}

/// Whether these are the same, entry by entry.
pub(crate) fn are_same_entries(one: &[Entry], two: &[Entry]) -> bool {
    if one.len() != two.len() {
        return false;
    }
    for (entry, other) in one.iter().zip(two) {
        if entry.session != other.session
            || !entry.event.is(&other.event)
            || !entry.answer.is(&other.answer)
        {
            return false;
        }
    }
    true
}
