//! What a report names because its end can't be read.
ghost use Rattle.std.specs.Prelude.{◌≡◌, ◌++◌, ◌∷◌, ◌&&◌, [], map, filter, if◌then◌else◌, OnOk, None, IfOk};
ghost use Rattle.std.specs.List.{flat_map};
ghost use Rattle.meta_types.specs.Faults.{Refuses};
ghost use Rattle.meta_types.specs.CollectorLabels.{is_unreadable};
ghost use Rattle.meta_types.specs.Paths.{images_expire};

use crate::ends::image_is_unreadable;
use gc_labels::is_unreadable;
use lease_book::Lease;
use meta_types::{Fault, ImageRow, Name, ShortName};
use std::alloc::Global;

/// Leases, and in profile 2 images, whose expiry can't be read: they don't end. A report names them
/// by namespace and id or name, in the order of their rows.
#[derive(Drop)]
pub struct Ignored {
    pub ignored: Vec<(ShortName, Name)>,
    pub ignored_images: Vec<(ShortName, Name)>,
}

fn push_lease(row: &Lease, names: &mut Vec<(ShortName, Name)>) -> Result<(), Fault>
    ensures fault { Refuses result None }
    ensures ok { OnOk result (names.new.items ≡ names.old.items
        ++ (if is_unreadable row.now.labels then (row.now.ns, row.now.id) ∷ [] else [])) }
{
    if is_unreadable(row.labels()) {
        let ns = row.ns().copy()?;
        let id = row.id().copy()?;
        names.push((ns, id))?;
    }
    Ok(())
}

// The leases whose expiry can't be read.
pub(crate) fn ignored_leases(
    alloc: Global,
    rows: &[&Lease],
) -> Result<Vec<(ShortName, Name)>, Fault>
    ensures fault { Refuses result None }
    ensures ok { IfOk result (λ names. names.items ≡ flat_map
        (λ row. if is_unreadable row.now.labels then (row.now.ns, row.now.id) ∷ [] else [])
        rows.now) }
{
    let mut names = Vec::new(alloc);
    for row in rows {
        push_lease(row, &mut names)?;
    }
    Ok(names)
}

fn push_image(row: &ImageRow, profile: u8, names: &mut Vec<(ShortName, Name)>) -> Result<(), Fault>
    ensures fault { Refuses result None }
    ensures ok { OnOk result (names.new.items ≡ names.old.items
        ++ (if images_expire profile && is_unreadable row.now.labels
        then (row.now.ns, row.now.name) ∷ [] else [])) }
{
    if image_is_unreadable(row, profile) {
        let ns = row.ns.copy()?;
        let name = row.name.copy()?;
        names.push((ns, name))?;
    }
    Ok(())
}

// The images whose expiry can't be read, where it counts.
pub(crate) fn ignored_images(
    alloc: Global,
    rows: &[&ImageRow],
    profile: u8,
) -> Result<Vec<(ShortName, Name)>, Fault>
    ensures fault { Refuses result None }
    ensures ok { IfOk result (λ names. names.items ≡ flat_map
        (λ row. if images_expire profile && is_unreadable row.now.labels
        then (row.now.ns, row.now.name) ∷ [] else []) rows.now) }
{
    let mut names = Vec::new(alloc);
    for row in rows {
        push_image(row, profile, &mut names)?;
    }
    Ok(names)
}
