//! Images, containers and leases that hold a thing.
ghost use Rattle.std.specs.Prelude.{◌≡◌, ◌&&◌, option_map, map, is_some, None, IfOk};
ghost use Rattle.meta_types.specs.Faults.{Refuses};
ghost use Rattle.meta_types.specs.Paths.{image, container, lease};
ghost use Rattle.meta_types.specs.Reasons.{reason_of};
ghost use Rattle.meta_types.specs.Explanations.{goes_before};
ghost use Rattle.gc_graph.specs.Stored.{records_of};
ghost use Rattle.explaining.specs.ThingRows.{thing_of};
ghost use Rattle.explaining.specs.Firsts.{chosen, holder_among, holder_of};

use crate::order::goes_before;
use crate::reasons::reason;
use crate::thing_row::ThingRow;
use gc_graph::{StoreRows, image_stays, lease_stays};
use meta_types::{Fault, Instant};
use std::alloc::Global;

fn references(alloc: Global, from: ThingRow<'_>, to: ThingRow<'_>) -> Result<bool, Fault>
    ensures fault { Refuses result None }
    ensures ok { IfOk result (λ b. b ≡ is_some (reason_of (thing_of from.entry) (thing_of to.entry))) }
{
    Ok(reason(alloc, from, to)?.is_some())
}

// Of two things the one that goes first, where the new one fits.
pub(crate) fn chosen<'a>(
    fits: bool,
    new: ThingRow<'a>,
    best: Option<ThingRow<'a>>,
) -> Option<ThingRow<'a>>
    ensures { option_map thing_of result
        ≡ chosen goes_before fits (thing_of new.entry) (option_map thing_of best.entry) }
{
    match best {
        None => { if fits { Some(new) } else { None } }
        Some(one) => {
            if fits && goes_before(new, one) {
                Some(new)
            } else {
                Some(one)
            }
        }
    }
}

fn holds(
    alloc: Global,
    is_root: bool,
    thing: ThingRow<'_>,
    held: ThingRow<'_>,
) -> Result<bool, Fault>
    ensures fault { Refuses result None }
    ensures ok { IfOk result (λ b. b
        ≡ (is_root && is_some (reason_of (thing_of thing.entry) (thing_of held.entry)))) }
{
    if is_root {
        references(alloc, thing, held)
    } else {
        Ok(false)
    }
}

fn first_image<'a>(
    alloc: Global,
    rows: &StoreRows<'a>,
    at: Instant,
    held: ThingRow<'_>,
    best: Option<ThingRow<'a>>,
) -> Result<Option<ThingRow<'a>>, Fault>
    ensures fault { Refuses result None }
    ensures ok { IfOk result (λ found. option_map thing_of found
        ≡ holder_among rows.now.profile at.0 (thing_of held.entry) (option_map thing_of best.entry)
        (map (λ row. image row.now) rows.now.images.now)) }
{
    let mut first = best;
    for row in rows.images {
        let fits = holds(
            alloc,
            image_stays(row, rows.profile, at),
            ThingRow::Image(*row),
            held,
        )?;
        first = chosen(fits, ThingRow::Image(*row), first);
    }
    Ok(first)
}

fn first_container<'a>(
    alloc: Global,
    rows: &StoreRows<'a>,
    at: Instant,
    held: ThingRow<'_>,
    best: Option<ThingRow<'a>>,
) -> Result<Option<ThingRow<'a>>, Fault>
    ensures fault { Refuses result None }
    ensures ok { IfOk result (λ found. option_map thing_of found
        ≡ holder_among rows.now.profile at.0 (thing_of held.entry) (option_map thing_of best.entry)
        (map (λ row. container row.now) rows.now.containers.now)) }
{
    // The moment is named by the clauses alone.
    let _at = at;
    let mut first = best;
    for row in rows.containers {
        let fits = holds(alloc, true, ThingRow::Container(*row), held)?;
        first = chosen(fits, ThingRow::Container(*row), first);
    }
    Ok(first)
}

fn first_lease<'a>(
    alloc: Global,
    rows: &StoreRows<'a>,
    at: Instant,
    held: ThingRow<'_>,
    best: Option<ThingRow<'a>>,
) -> Result<Option<ThingRow<'a>>, Fault>
    ensures fault { Refuses result None }
    ensures ok { IfOk result (λ found. option_map thing_of found
        ≡ holder_among rows.now.profile at.0 (thing_of held.entry) (option_map thing_of best.entry)
        (map (λ row. lease row.now) rows.now.leases.now)) }
{
    let mut first = best;
    for row in rows.leases {
        let fits = holds(alloc, lease_stays(row, at), ThingRow::Lease(*row), held)?;
        first = chosen(fits, ThingRow::Lease(*row), first);
    }
    Ok(first)
}

// The first image, container or lease that holds a thing.
pub(crate) fn holder_of<'a>(
    alloc: Global,
    rows: &StoreRows<'a>,
    at: Instant,
    held: ThingRow<'_>,
) -> Result<Option<ThingRow<'a>>, Fault>
    ensures fault { Refuses result None }
    ensures ok { IfOk result (λ found. option_map thing_of found
        ≡ holder_of (records_of rows.now) at.0 (thing_of held.entry)) }
{
    let images = first_image(alloc, rows, at, held, None)?;
    let both = first_container(alloc, rows, at, held, images)?;
    // For the prover: the result is opened, not passed on.
    let all = first_lease(alloc, rows, at, held, both)?;
    Ok(all)
}
