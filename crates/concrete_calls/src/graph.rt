//! The graph of no rows.

use gc_graph::{ListedRows, build};
use lease_book::Leases;
use meta_types::Instant;
use object_tables::Tables;
use row_tables::Seed;
use std::alloc::Global;
use std::mem::drop;
use std::thread::Threads;

// Whether the graph of these rows is made.
fn makes_graph(
    rt: &(impl Threads + Sync),
    alloc: Global,
    tables: &Tables,
    leases: &Leases,
) -> bool {
    let Ok(listed) = ListedRows::new(alloc, &tables.arrived(), leases.arrived(), 1) else {
        return false;
    };
    let made = build(rt, alloc, &listed.rows(), Instant(0), 1);
    let is_made = made.is_ok();
    // For the prover: dropped by a call, not in place.
    drop(made);
    is_made
}

/// Makes the graph of a store that holds nothing.
pub(crate) fn calls(rt: &(impl Threads + Sync), alloc: Global) -> bool {
    let tables = Tables::new(alloc, Seed::Fixed);
    let leases = Leases::new(alloc, Seed::Fixed);
    let is_made = makes_graph(rt, alloc, &tables, &leases);
    // For the prover: dropped by a call, not in place.
    drop(leases);
    drop(tables);
    is_made
}
