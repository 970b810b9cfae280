//! The ids of leases, for a listing.
ghost use Rattle.std.specs.Prelude.{◌≡◌, ◌∷◌, [], ◌++◌, map, None, OnOk, IfOk};
ghost use Rattle.meta_types.specs.Faults.{Refuses};

use crate::lease::Lease;
use meta_types::{Fault, Name};
use std::alloc::Global;

/// The ids of leases, as they stand.
pub(crate) fn ids_of(alloc: Global, rows: &[&Lease]) -> Result<Vec<Name>, Fault>
    ensures fault { Refuses result None }
    ensures ok { IfOk result (λ ids. ids.items ≡ map (λ row. row.id) (map (λ row. row.now) rows.now)) }
{
    let mut ids = Vec::new(alloc);
    for row in rows {
        push_id(&mut ids, row.id())?;
    }
    Ok(ids)
}

fn push_id(ids: &mut Vec<Name>, id: &Name) -> Result<(), Fault>
    ensures fault { Refuses result None }
    ensures ok { OnOk result (ids.new.items ≡ ids.old.items ++ id.now ∷ []) }
{
    let id = id.copy()?;
    ids.push(id)?;
    Ok(())
}
