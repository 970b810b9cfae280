//! The moments at which roots ended.
ghost use Rattle.std.specs.Prelude.{◌≡◌, ◌++◌, None, IfOk, OnOk};
ghost use Rattle.std.specs.List.{flat_map};
ghost use Rattle.std.specs.List.Sorted.{IsPermutation};
ghost use Rattle.meta_types.specs.CollectorLabels.{expiry_of};
ghost use Rattle.meta_types.specs.Faults.{Refuses};
ghost use Rattle.meta_types.specs.Paths.{image, lease, ingest};
ghost use Rattle.explaining.specs.LastPaths.{root_end, past, past_end, AreRising};

use gc_graph::StoreRows;
use gc_labels::{Expiry, expiry};
use lease_book::Lease;
use meta_types::{Fault, ImageRow, IngestRow, Instant, Labels};
use row_tables::Slices;
use std::alloc::Global;

fn end_in(labels: &Labels) -> Option<i128>
    ensures { result ≡ expiry_of labels.now }
{
    match expiry(labels) {
        Expiry::Never => None,
        Expiry::At(end) => Some(end.0),
        Expiry::Unreadable => None,
    }
}

fn image_end(row: &ImageRow, profile: u8) -> Option<i128>
    ensures { result ≡ root_end profile (image row.now) }
{
    if profile == 2 {
        end_in(&row.labels)
    } else {
        None
    }
}

fn ingest_end(row: &IngestRow, profile: u8) -> Option<i128>
    ensures { result ≡ root_end profile (ingest row.now) }
{
    // The profile is named by the clause alone.
    let _profile = profile;
    match row.expires {
        None => None,
        Some(end) => Some(end.0),
    }
}

fn push_past(end: Option<i128>, at: Instant, ends: &mut Vec<i128>) -> Result<(), Fault>
    ensures fault { Refuses result None }
    ensures ok { OnOk result (ends.new.items ≡ ends.old.items ++ past at.0 end) }
{
    match end {
        None => {}
        Some(end) => {
            if end < at.0 {
                ends.push(end)?;
            }
        }
    }
    Ok(())
}

fn push_images(
    rows: &[&ImageRow],
    profile: u8,
    at: Instant,
    ends: &mut Vec<i128>,
) -> Result<(), Fault>
    ensures fault { Refuses result None }
    ensures ok { OnOk result (ends.new.items ≡ ends.old.items
        ++ flat_map (λ row. past_end profile at.0 (image row.now)) rows.now) }
{
    for row in rows {
        push_past(image_end(row, profile), at, ends)?;
    }
    Ok(())
}

fn push_leases(rows: &[&Lease], profile: u8, at: Instant, ends: &mut Vec<i128>) -> Result<(), Fault>
    ensures fault { Refuses result None }
    ensures ok { OnOk result (ends.new.items ≡ ends.old.items
        ++ flat_map (λ row. past_end profile at.0 (lease row.now)) rows.now) }
{
    // The profile is named by the clause alone.
    let _profile = profile;
    for row in rows {
        push_past(end_in(row.labels()), at, ends)?;
    }
    Ok(())
}

// Adds the ends of those in a slice.
fn push_ingests_in(
    rows: &[IngestRow],
    profile: u8,
    at: Instant,
    ends: &mut Vec<i128>,
) -> Result<(), Fault>
    ensures fault { Refuses result None }
    ensures ok { OnOk result (ends.new.items ≡ ends.old.items
        ++ flat_map (λ row. past_end profile at.0 (ingest row)) rows.now) }
{
    for row in rows {
        push_past(ingest_end(row, profile), at, ends)?;
    }
    Ok(())
}

fn push_ingests(
    rows: &Slices<'_, IngestRow>,
    profile: u8,
    at: Instant,
    ends: &mut Vec<i128>,
) -> Result<(), Fault>
    ensures fault { Refuses result None }
    ensures ok { OnOk result (ends.new.items ≡ ends.old.items
        ++ flat_map (λ row. past_end profile at.0 (ingest row)) rows.now) }
{
    let slices = rows.as_slices();
    for slice in slices {
        push_ingests_in(slice, profile, at, ends)?;
    }
    Ok(())
}

// The ends before the moment, of images, leases and ingests, from the earliest on.
pub(crate) fn past_ends(
    alloc: Global,
    rows: &StoreRows<'_>,
    at: Instant,
) -> Result<Vec<i128>, Fault>
    ensures fault { Refuses result None }
    ensures all { IfOk result (λ ends. IsPermutation
        (flat_map (λ row. past_end rows.now.profile at.0 (image row.now)) rows.now.images.now
        ++ flat_map (λ row. past_end rows.now.profile at.0 (lease row.now)) rows.now.leases.now
        ++ flat_map (λ row. past_end rows.now.profile at.0 (ingest row)) rows.now.ingests.now)
        ends.items) }
    ensures order { IfOk result (λ ends. AreRising ends.items) }
{
    let mut ends = Vec::new(alloc);
    push_images(rows.images, rows.profile, at, &mut ends)?;
    push_leases(rows.leases, rows.profile, at, &mut ends)?;
    push_ingests(rows.ingests, rows.profile, at, &mut ends)?;
    ends.sort_unstable();
    Ok(ends)
}
