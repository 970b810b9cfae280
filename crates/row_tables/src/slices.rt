//! Rows of a table, lent as the slices in which they stand.
ghost use Rattle.std.specs.Prelude.{◌≡◌, ◌+◌, ◌<◌, ◌≤◌, length, take, None, IfOk, option_copied, slice_get, slice_index};
ghost use Rattle.std.specs.List.{flat_map};
ghost use Rattle.std.specs.List.Sorted.{IsNonDecreasing, IsPartitionPoint};
ghost use Rattle.meta_types.specs.Faults.{Refuses};
ghost use Rattle.row_tables.specs.Slices.{AreCut};

use meta_types::Fault;
use std::alloc::Global;
use std::marker::Model;

/// The rows of a table as they arrived, lent as the slices in which the table keeps them.
#[derive(Drop)]
pub struct Slices<'a, R> {
    slices: Vec<&'a [R]>,
    starts: Vec<usize>,
    count: usize,
}

impl<'a, R> Model for Slices<'a, R> {
    ghost use Rattle.std.specs.Prelude.{List};
    ghost use Rattle.std.specs.List.{flat_map};
    ghost use Rattle.row_tables.specs.Slices.{AreCut};

    ghost Value = { List R };

    ghost view = { λ s. flat_map (λ rows. rows.now) s.slices.items };

    ghost invariant = { λ s. AreCut (λ rows. rows.now) s.slices.items s.starts.items s.count };
}

impl<'a, R> Slices<'a, R> {
    /// The rows of these slices.
    pub(crate) fn new(alloc: Global, slices: Vec<&'a [R]>) -> Result<Slices<'a, R>, Fault>
        ensures fault { Refuses result None }
        ensures ok { IfOk result (λ s. s ≡ flat_map (λ rows. rows.now) slices.entry.items) }
    {
        let (starts, count) = cut(alloc, &slices)?;
        Ok(Slices {
            slices,
            starts,
            count,
        })
    }

    /// How many rows there are.
    pub fn len(&self) -> usize
        ensures { result ≡ length self.now }
    {
        self.count
    }

    /// The row at a place.
    pub fn at(&self, place: usize) -> Option<&'a R>
        ensures { option_copied result ≡ slice_get self.now place }
    {
        row_at(&self.slices, &self.starts, place)
    }

    /// The slices, in the order of their rows.
    pub fn as_slices(&self) -> &[&'a [R]]
        ensures { flat_map (λ rows. rows.now) result.now ≡ self.now }
    {
        &self.slices
    }
}

fn sum(count: usize, more: usize) -> Result<usize, Fault>
    ensures fault { Refuses result None }
    ensures ok { IfOk result (λ sum. sum ≡ count + more) }
{
    match count.checked_add(more) {
        Some(sum) => Ok(sum),
        None => Err(Fault::OutOfMemory),
    }
}

// Where each slice begins, and how many rows they have.
fn cut<R>(alloc: Global, slices: &[&[R]]) -> Result<(Vec<usize>, usize), Fault>
    ensures fault { Refuses result None }
    ensures ok { IfOk result (λ cut. AreCut (λ rows. rows.now) slices.now cut.0.items cut.1) }
{
    let mut starts = Vec::with_capacity(alloc, slices.len())?;
    let mut count = 0;
    for rows in slices {
        starts.push(count)?;
        count = sum(count, rows.len())?;
    }
    Ok((starts, count))
}

// How many slices begin at a place or before it, by halving.
fn begun(starts: &[usize], place: usize) -> usize
    requires { IsNonDecreasing starts.now }
    ensures bound { result ≤ length starts.now }
    ensures point { IsPartitionPoint (λ start. start ≤ place) (λ start. place < start) starts.now
        result }
{
    starts.partition_point(|start| *start <= place)
}

// The row at a place: it stands in the last slice that begins there or before. One slice needs no
// halving.
fn row_at<'a, R>(slices: &[&'a [R]], starts: &[usize], place: usize) -> Option<&'a R>
    requires { AreCut (λ rows. rows.now) slices.now starts.now
        (length (flat_map (λ rows. rows.now) slices.now)) }
    ensures { option_copied result ≡ slice_get (flat_map (λ rows. rows.now) slices.now) place }
{
    if slices.len() == 1 {
        return slices[0].get(place);
    }
    let count = begun(starts, place);
    if count == 0 {
        return None;
    }
    let last = count - 1;
    slices[last].get(place - starts[last])
}
