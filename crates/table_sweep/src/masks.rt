//! Masks of rows: by the marks on the numbers of a row, whether it stays.
ghost use Rattle.std.specs.Prelude.{◌≡◌, ◌≢◌, ◌||◌, ◌+◌, ◌≤◌, map, None, IfOk, AllPairs};
ghost use Rattle.meta_types.specs.Faults.{Refuses};
ghost use Rattle.meta_types.specs.Paths.{image_stays, lease_stays};
ghost use Rattle.gc_graph.specs.Marked.{is_marked, reached_by};
ghost use Rattle.gc_graph.specs.Stored.{records_of, IsSmall};
ghost use Rattle.gc_graph.specs.Targets.{nodes_of};
ghost use Rattle.table_sweep.specs.Masks.{mask_of_both, mask_of_one};
ghost use Rattle.table_sweep.specs.Stays.{AreMasks};

use gc_graph::{NodeBook, StoreRows, image_stays, lease_stays};
use lease_book::Lease;
use mark_core::Marks;
use meta_types::{Fault, ImageRow, Instant};
use std::alloc::Global;

/// For each row of a kind, at its place, whether it stays.
#[derive(Drop)]
pub struct Masks {
    pub(crate) images: Vec<bool>,
    pub(crate) leases: Vec<bool>,
    pub(crate) ingests: Vec<bool>,
    pub(crate) content: Vec<bool>,
    pub(crate) snapshots: Vec<bool>,
}

// How many rows stay.
pub(crate) fn count_left(mask: &[bool]) -> usize {
    mask.iter().filter(|stays| **stays).count()
}

// How many rows go.
pub(crate) fn count_removed(mask: &[bool]) -> usize {
    mask.iter().filter(|stays| !**stays).count()
}

pub(crate) fn is_marked(marks: &Marks, number: u32) -> bool
    ensures { result ≡ is_marked marks.now number }
{
    marks.has(number)
}

fn is_marked_in_one(marks: &Marks, full: u32, flat: u32) -> bool
    ensures { result ≡ (is_marked marks.now full || is_marked marks.now flat) }
{
    is_marked(marks, full) || is_marked(marks, flat)
}

// Which of `count` rows stay, where the first one's numbers are `full` and `flat`.
fn mask_of_both(
    alloc: Global,
    marks: &Marks,
    full: u32,
    flat: u32,
    count: u32,
) -> Result<Vec<bool>, Fault>
    requires full { full + count ≤ 16777216 }
    requires flat { flat + count ≤ 16777216 }
    ensures fault { Refuses result None }
    ensures ok { IfOk result (λ v. v.items ≡ mask_of_both marks.now full flat count) }
{
    let mut mask = Vec::with_capacity(alloc, count as usize)?;
    for i in 0..count {
        mask.push(is_marked_in_one(marks, full + i, flat + i))?;
    }
    Ok(mask)
}

// Which of `count` rows stay, where the first one's number is `first`.
fn mask_of_one(alloc: Global, marks: &Marks, first: u32, count: u32) -> Result<Vec<bool>, Fault>
    requires { first + count ≤ 16777216 }
    ensures fault { Refuses result None }
    ensures ok { IfOk result (λ v. v.items ≡ mask_of_one marks.now first count) }
{
    let mut mask = Vec::with_capacity(alloc, count as usize)?;
    for i in 0..count {
        mask.push(is_marked(marks, first + i))?;
    }
    Ok(mask)
}

fn image_mask(
    alloc: Global,
    rows: &[&ImageRow],
    profile: u8,
    at: Instant,
) -> Result<Vec<bool>, Fault>
    ensures fault { Refuses result None }
    ensures ok { IfOk result (λ v. v.items
        ≡ map (λ row. image_stays profile at.0 row.now) rows.now) }
{
    let mut mask = Vec::with_capacity(alloc, rows.len())?;
    for row in rows {
        mask.push(image_stays(row, profile, at))?;
    }
    Ok(mask)
}

fn lease_mask(alloc: Global, rows: &[&Lease], at: Instant) -> Result<Vec<bool>, Fault>
    ensures fault { Refuses result None }
    ensures ok { IfOk result (λ v. v.items ≡ map (λ row. lease_stays at.0 row.now) rows.now) }
{
    let mut mask = Vec::with_capacity(alloc, rows.len())?;
    for row in rows {
        mask.push(lease_stays(row, at))?;
    }
    Ok(mask)
}

/// Which rows stay: images and leases that haven't ended, and what the marks reach in one mode or
/// the other. The book is the one that `build` gives for these rows.
pub fn masks_of(
    alloc: Global,
    rows: &StoreRows<'_>,
    book: &NodeBook,
    marks: &Marks,
    at: Instant,
) -> Result<Masks, Fault>
    requires numbered { book.now ≡ nodes_of (records_of rows.now) }
    requires once { AllPairs (λ a b. a ≢ b) book.now }
    requires few { IsSmall rows.now }
    ensures fault { Refuses result None }
    ensures ok { IfOk result (λ masks. AreMasks (records_of rows.now) at.0
        (reached_by rows.now.profile book.now marks.now at.0) masks) }
{
    // The book is named by the clauses alone.
    let _book = book;
    let ingests = rows.ingests.len() as u32;
    let content = rows.content.len() as u32;
    let snapshots = rows.snapshots.len() as u32;
    let first = ingests + 2 * content;
    Ok(Masks {
        images: image_mask(alloc, rows.images, rows.profile, at)?,
        leases: lease_mask(alloc, rows.leases, at)?,
        ingests: mask_of_one(alloc, marks, 0, ingests)?,
        content: mask_of_both(alloc, marks, ingests, ingests + content, content)?,
        snapshots: mask_of_both(alloc, marks, first, first + snapshots, snapshots)?,
    })
}
