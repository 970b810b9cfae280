//! How many rows remain, and how many nodes the marks reach.
ghost use Rattle.std.specs.Prelude.{◌≡◌, ◌+◌, ◌≤◌, count_by, length, if◌then◌else◌};
ghost use Rattle.gc_graph.specs.Marked.{is_marked};
ghost use Rattle.gc_graph.specs.Stored.{records_of};
ghost use Rattle.table_sweep.specs.Masks.{mask_of_one};
ghost use Rattle.table_sweep.specs.Stays.{kept_counts};

use crate::masks::{Masks, is_marked};
use gc_graph::StoreRows;
use gc_report::Kept;
use mark_core::Marks;

fn count_kept(mask: &[bool]) -> u64
    ensures { result ≡ count_by (λ stays. stays) mask.now }
{
    mask.iter().filter(|stays| **stays).count() as u64
}

// How many rows of each kind remain; containers and namespaces all do.
pub(crate) fn kept_of(rows: &StoreRows<'_>, masks: &Masks, namespaces: u64) -> Kept
    ensures { result ≡ kept_counts (records_of rows.now) masks.now namespaces }
{
    Kept {
        containers: rows.containers.len() as u64,
        content: count_kept(&masks.content),
        images: count_kept(&masks.images),
        ingests: count_kept(&masks.ingests),
        leases: count_kept(&masks.leases),
        namespaces,
        snapshots: count_kept(&masks.snapshots),
    }
}

fn one_if_marked(marks: &Marks, number: u32) -> u32
    ensures { result ≡ (if is_marked marks.now number then 1 else 0) }
{
    if is_marked(marks, number) { 1 } else { 0 }
}

// How many of the first numbers are marked.
pub(crate) fn count_marked(marks: &Marks, count: u32) -> u32
    ensures { result ≡ count_by (λ marked. marked) (mask_of_one marks.now 0 count) }
{
    let mut scanned = 0;
    for i in 0..count {
        scanned += one_if_marked(marks, i);
    }
    scanned
}
