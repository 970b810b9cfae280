//! Objects of snapshotters that no row owns.
use meta_types::{ShortName, SnapRow};
use std::alloc::{AllocError, Global};
use std::cmp::Ordering;

/// What an object stands over.
#[derive(Clone, Copy)]
pub(crate) enum Above<'a> {
    Nothing,
    Row(&'a SnapRow),
    /// Another object that no row owns, by its number.
    Unowned(u64),
}

/// An object that no row owns, and the namespace that it is made in: that of the row over which it
/// stands, through others or at once.
#[derive(Clone, Copy)]
pub(crate) struct Unowned<'a> {
    pub(crate) snapshotter: &'a ShortName,
    pub(crate) number: u64,
    pub(crate) ns: &'a str,
    pub(crate) above: Above<'a>,
}

/// The rows, in the order of their numbers.
pub(crate) fn by_number<'a>(
    alloc: Global,
    rows: &[&'a SnapRow],
) -> Result<Vec<&'a SnapRow>, AllocError> {
    let mut list = Vec::with_capacity(alloc, rows.len())?;
    for row in rows {
        list.push(*row)?;
    }
    list.sort_unstable_by_key(|row| row.number);
    Ok(list)
}

// The row that owns a number.
fn owner<'a>(rows: &[&'a SnapRow], number: u64) -> Option<&'a SnapRow> {
    let place = rows.binary_search_by_key(&number, |row| row.number).ok()?;
    rows.get(place).copied()
}

// Where an object stands to another, by snapshotter and number.
fn compare(one: &Unowned<'_>, snapshotter: &ShortName, number: u64) -> Ordering {
    one.snapshotter
        .cmp(snapshotter)
        .then(one.number.cmp(&number))
}

// The object of a number among those before.
fn found<'a>(before: &[Unowned<'a>], snapshotter: &ShortName, number: u64) -> Option<Unowned<'a>> {
    let place = before
        .binary_search_by(|one| compare(one, snapshotter, number))
        .ok()?;
    before.get(place).copied()
}

// What an object stands over, and the namespace of that.
fn above_of<'a>(
    rows: &[&'a SnapRow],
    before: &[Unowned<'a>],
    object: &(ShortName, u64, Option<u64>),
    home: &'a str,
) -> (Above<'a>, &'a str) {
    let Some(parent) = object.2 else {
        return (Above::Nothing, home);
    };
    if let Some(row) = owner(rows, parent) {
        return (Above::Row(row), row.key.ns.text());
    }
    match found(before, &object.0, parent) {
        Some(other) => (Above::Unowned(parent), other.ns),
        None => (Above::Nothing, home),
    }
}

/// The objects that no row owns, by snapshotter and number, as all objects are listed: so a parent
/// stands before its children. The rows stand in the order of their numbers.
pub(crate) fn unowned_objects<'a>(
    alloc: Global,
    rows: &[&'a SnapRow],
    objects: &'a [(ShortName, u64, Option<u64>)],
    home: &'a str,
) -> Result<Vec<Unowned<'a>>, AllocError> {
    let mut list = Vec::new(alloc);
    for object in objects {
        if owner(rows, object.1).is_none() {
            let (above, ns) = above_of(rows, &list, object, home);
            list.push(Unowned {
                snapshotter: &object.0,
                number: object.1,
                ns,
                above,
            })?;
        }
    }
    Ok(list)
}

/// The numbers of those that others stand over, in their order.
pub(crate) fn parents(alloc: Global, list: &[Unowned<'_>]) -> Result<Vec<u64>, AllocError> {
    let mut numbers = Vec::new(alloc);
    for one in list {
        if let Above::Unowned(number) = one.above {
            numbers.push(number)?;
        }
    }
    numbers.sort_unstable();
    Ok(numbers)
}
