//! What has a number, in the order of the numbers.
use crate::script::unowned::Unowned;
use meta_types::{IngestRow, SnapRow};
use std::alloc::{AllocError, Global};

/// What has a number: a row, or an object that no row owns. All numbers come from one counter, so
/// none stands twice.
#[derive(Clone, Copy)]
pub(crate) enum Numbered<'a> {
    Ingest(&'a IngestRow),
    Snapshot(&'a SnapRow),
    /// The object of an ingest that no row owns.
    UnownedIngest(u64),
    UnownedSnapshot(Unowned<'a>),
}

impl<'a> Numbered<'a> {
    /// Its number.
    pub(crate) fn number(&self) -> u64 {
        match self {
            Numbered::Ingest(row) => row.number,
            Numbered::Snapshot(row) => row.number,
            Numbered::UnownedIngest(number) => *number,
            Numbered::UnownedSnapshot(one) => one.number,
        }
    }
}

fn push_ingests<'a>(
    list: &mut Vec<Numbered<'a>>,
    rows: &[&'a IngestRow],
) -> Result<(), AllocError> {
    for row in rows {
        list.push(Numbered::Ingest(row))?;
    }
    Ok(())
}

fn push_snapshots<'a>(
    list: &mut Vec<Numbered<'a>>,
    rows: &[&'a SnapRow],
) -> Result<(), AllocError> {
    for row in rows {
        list.push(Numbered::Snapshot(row))?;
    }
    Ok(())
}

fn push_unowned<'a>(
    list: &mut Vec<Numbered<'a>>,
    unowned: &[Unowned<'a>],
) -> Result<(), AllocError> {
    for one in unowned {
        list.push(Numbered::UnownedSnapshot(*one))?;
    }
    Ok(())
}

// The numbers of the rows, in their order.
fn owned_numbers(alloc: Global, rows: &[&IngestRow]) -> Result<Vec<u64>, AllocError> {
    let mut numbers = Vec::with_capacity(alloc, rows.len())?;
    for row in rows {
        numbers.push(row.number)?;
    }
    numbers.sort_unstable();
    Ok(numbers)
}

fn push_unowned_ingests(
    list: &mut Vec<Numbered<'_>>,
    owned: &[u64],
    objects: &[u64],
) -> Result<(), AllocError> {
    for number in objects {
        if owned.binary_search(number).is_err() {
            list.push(Numbered::UnownedIngest(*number))?;
        }
    }
    Ok(())
}

/// All of them, in the order of their numbers. So a parent stands before its children.
pub(crate) fn in_number_order<'a>(
    alloc: Global,
    ingests: &[&'a IngestRow],
    snapshots: &[&'a SnapRow],
    begun: &[u64],
    unowned: &[Unowned<'a>],
) -> Result<Vec<Numbered<'a>>, AllocError> {
    let owned = owned_numbers(alloc, ingests)?;
    let mut list = Vec::new(alloc);
    push_ingests(&mut list, ingests)?;
    push_snapshots(&mut list, snapshots)?;
    push_unowned_ingests(&mut list, &owned, begun)?;
    push_unowned(&mut list, unowned)?;
    list.sort_unstable_by_key(|one| one.number());
    Ok(list)
}
