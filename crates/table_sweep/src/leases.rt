//! The names of the removed leases.
ghost use Rattle.std.specs.Prelude.{◌≡◌, ◌++◌, ◌∷◌, [], map, length, if◌then◌else◌, OnOk, None, IfOk};
ghost use Rattle.meta_types.specs.Faults.{Refuses};
ghost use Rattle.table_sweep.specs.Masks.{gone};

use crate::masks::count_removed;
use lease_book::Lease;
use meta_types::{Fault, Name, ShortName};
use std::alloc::Global;

fn push_lease(row: &Lease, stays: bool, names: &mut Vec<(ShortName, Name)>) -> Result<(), Fault>
    ensures fault { Refuses result None }
    ensures ok { OnOk result (names.new.items ≡ names.old.items
        ++ (if stays then [] else (row.now.ns, row.now.id) ∷ [])) }
{
    if !stays {
        names.push((row.ns().copy()?, row.id().copy()?))?;
    }
    Ok(())
}

pub(crate) fn lease_names(
    alloc: Global,
    rows: &[&Lease],
    mask: &[bool],
) -> Result<Vec<(ShortName, Name)>, Fault>
    requires { length mask.now ≡ length rows.now }
    ensures fault { Refuses result None }
    ensures ok { IfOk result (λ names. names.items
        ≡ map (λ row. (row.now.ns, row.now.id)) (gone mask.now rows.now)) }
{
    let mut names = Vec::with_capacity(alloc, count_removed(mask))?;
    for (i, row) in rows.iter().enumerate() {
        push_lease(row, mask[i], &mut names)?;
    }
    Ok(names)
}
