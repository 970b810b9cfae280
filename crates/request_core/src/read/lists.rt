//! Lists that replies show.
ghost use Rattle.std.specs.Prelude.{◌≡◌, map, None, IfOk};
ghost use Rattle.meta_types.specs.Faults.{Refuses};

use meta_types::{Fault, Listing, Name, Resource};
use std::alloc::Global;

/// A listing of these names.
pub(crate) fn listing_of(alloc: Global, names: &[Name]) -> Result<Listing, Fault>
    ensures fault { Refuses result None }
    ensures ok { IfOk result (λ listing. listing ≡ names.now) }
{
    let mut listing = Listing::new(alloc);
    for name in names {
        listing.push_name(name)?;
    }
    Ok(listing)
}

/// Copies of the resources, which share their texts.
pub(crate) fn copies(alloc: Global, resources: &[&Resource]) -> Result<Vec<Resource>, Fault>
    ensures fault { Refuses result None }
    ensures ok { IfOk result (λ copies. copies.items ≡ map (λ resource. resource.now) resources.now) }
{
    let mut copies = Vec::new(alloc);
    for resource in resources {
        let copy = resource.copy()?;
        copies.push(copy)?;
    }
    Ok(copies)
}
