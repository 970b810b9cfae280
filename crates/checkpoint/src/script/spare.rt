//! Names that no row has: what has a number and no row is made under one, and taken away again.
ghost use Rattle.std.specs.Prelude.{None};
ghost use Rattle.meta_types.specs.Faults.{Refuses};

use lease_book::Leases;
use meta_types::{Fault, Listed, Name};
use object_tables::Tables;
use std::alloc::{AllocError, Global};

/// What is made under spare names: no ingest, snapshot or lease is named `spare`, this number and `-`
/// with anything behind. What no row owns is made in the namespace `home`.
#[derive(Drop)]
pub(crate) struct Spare {
    number: u64,
    home: String,
}

impl Spare {
    /// The spare name of a number.
    pub(crate) fn name(&self, alloc: Global, number: u64) -> Result<String, AllocError> {
        spare_name(alloc, self.number, number)
    }

    /// The namespace of what no row owns.
    pub(crate) fn home(&self) -> &str {
        &self.home
    }
}

fn spare_name(alloc: Global, spare: u64, number: u64) -> Result<String, AllocError> {
    format!(in alloc; "spare{spare}-{number}")
}

// The number that a name has where spare ones have theirs.
fn number_in(name: &str) -> Option<u64> {
    let rest = name.strip_prefix("spare")?;
    let (digits, _) = rest.split_once('-')?;
    digits.parse().ok()
}

fn push_number(numbers: &mut Vec<u64>, name: &Name) -> Result<(), AllocError> {
    if let Some(number) = number_in(name.text()) {
        numbers.push(number)?;
    }
    Ok(())
}

fn push_ingests(numbers: &mut Vec<u64>, alloc: Global, tables: &Tables) -> Result<(), Fault>
    ensures { Refuses result None }
{
    let rows = tables.arrived().ingests.list_arrived(alloc)?;
    for row in &rows {
        push_number(numbers, &row.name)?;
    }
    Ok(())
}

fn push_snapshots(numbers: &mut Vec<u64>, alloc: Global, tables: &Tables) -> Result<(), Fault>
    ensures { Refuses result None }
{
    let rows = tables.arrived().snapshots.list_arrived(alloc)?;
    for row in &rows {
        push_number(numbers, &row.key.name)?;
    }
    Ok(())
}

fn push_leases(numbers: &mut Vec<u64>, alloc: Global, leases: &Leases) -> Result<(), Fault>
    ensures { Refuses result None }
{
    let rows = leases.leases(alloc)?;
    for row in &rows {
        push_number(numbers, row.id())?;
    }
    Ok(())
}

// The least number that isn't among these, which stand in order.
fn least_free(numbers: &[u64]) -> u64 {
    let mut free = 0u64;
    for number in numbers {
        if *number == free {
            free = free.saturating_add(1);
        }
    }
    free
}

fn free_number(alloc: Global, tables: &Tables, leases: &Leases) -> Result<u64, Fault>
    ensures { Refuses result None }
{
    let mut numbers = Vec::new(alloc);
    push_ingests(&mut numbers, alloc, tables)?;
    push_snapshots(&mut numbers, alloc, tables)?;
    push_leases(&mut numbers, alloc, leases)?;
    numbers.sort_unstable();
    Ok(least_free(&numbers))
}

// The first namespace, or a spare one where there is none.
fn home_of(alloc: Global, spare: u64, tables: &Tables) -> Result<String, Fault>
    ensures { Refuses result None }
{
    let names = tables.list_ns(alloc)?;
    let home = match names.names().first() {
        Some(Listed::Text(name)) => String::from_str(alloc, name.as_str())?,
        _ => spare_name(alloc, spare, 0)?,
    };
    Ok(home)
}

/// The spare names of a store.
pub(crate) fn spare_of(alloc: Global, tables: &Tables, leases: &Leases) -> Result<Spare, Fault>
    ensures { Refuses result None }
{
    let number = free_number(alloc, tables, leases)?;
    let home = home_of(alloc, number, tables)?;
    Ok(Spare { number, home })
}
