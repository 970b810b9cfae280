//! Rows of the graph, read one by one or by several threads, and how many threads are worth their
//! start.
ghost use Rattle.std.specs.Prelude.{◌≡◌, ◌⊎◌, ◌<◌, ◌≤◌, ◌*◌, ◌++◌, ℕ, List, map, max, None, IfOk, OnOk};
ghost use Rattle.std.specs.List.{flat_map};
ghost use Rattle.meta_types.specs.Faults.{Refuses};

use mark_core::TargetLists;
use meta_types::Fault;
use rayon::prelude::*;
use row_tables::Slices;
use std::alloc::Global;
use std::thread::Threads;

// With 4,000 rows or nodes a thread pays for its start.
const EACH: usize = 4_000;

/// The number of threads that share this number of rows or nodes, the calling one among them: the
/// number of workers, or less, if each thread wouldn't have enough for its start.
pub fn thread_count(things: usize, workers: usize) -> usize
    ensures some { 0 < result }
    ensures bound { result ≤ max workers 1 }
    ensures worth { (result ≡ 1) ⊎ (result * 4000 ≤ things) }
{
    (things / EACH).min(workers).max(1)
}

/// A reader of what rows reference in both modes.
pub(crate) trait RowReader<T>: Sync {
    /// The numbers of what the row references in full.
    ghost full_of: { Self → T → List ℕ };

    /// The numbers of what the row references in flat.
    ghost flat_of: { Self → T → List ℕ };

    /// Adds the targets of each row.
    fn read(
        &self,
        alloc: Global,
        rows: &[T],
        full: &mut TargetLists,
        flat: &mut TargetLists,
    ) -> Result<(), Fault>
        ensures fault { Refuses result None }
        ensures full { OnOk result (full.new ≡ full.old ++ map (full_of self.now) rows.now) }
        ensures flat { OnOk result (flat.new ≡ flat.old ++ map (flat_of self.now) rows.now) };
}

// The targets of a part of the rows, in full and in flat.
fn read_part<T, R: RowReader<T>>(
    alloc: Global,
    reader: &R,
    part: &[T],
) -> Result<(TargetLists, TargetLists), Fault>
    ensures fault { Refuses result None }
    ensures full { IfOk result (λ lists. lists.0 ≡ map (R.full_of reader.now) part.now) }
    ensures flat { IfOk result (λ lists. lists.1 ≡ map (R.flat_of reader.now) part.now) }
{
    let mut full = TargetLists::with_capacity(alloc, part.len())?;
    let mut flat = TargetLists::with_capacity(alloc, part.len())?;
    reader.read(alloc, part, &mut full, &mut flat)?;
    Ok((full, flat))
}

// The targets of all rows, in parts of `size` rows, each of which a thread reads.
fn read_parts<T: Sync, R: RowReader<T>>(
    rt: &(impl Threads + Sync),
    alloc: Global,
    reader: &R,
    rows: &[T],
    size: usize,
) -> Result<Vec<(TargetLists, TargetLists)>, Fault>
    requires { 0 < size }
    ensures fault { Refuses result None }
    ensures full { IfOk result (λ parts. flat_map (λ part. part.0) parts.items
        ≡ map (R.full_of reader.now) rows.now) }
    ensures flat { IfOk result (λ parts. flat_map (λ part. part.1) parts.items
        ≡ map (R.flat_of reader.now) rows.now) }
{
    // For the prover: what is collected gets a name, and is then returned.
    let made = rows
        .par_chunks(size)
        .map(
            |part: &[T]| -> Result<(TargetLists, TargetLists), Fault>
                ensures { Refuses result None × IfOk result (λ lists.
                    (lists.0 ≡ map (R.full_of reader.entry.now) part.now)
                    × (lists.1 ≡ map (R.flat_of reader.entry.now) part.now)) }
            { read_part(alloc, reader, part) },
        )
        .collect::<Result<Vec<(TargetLists, TargetLists)>, Fault>>(rt, alloc)?;
    made
}

// Adds the lists in full of all parts, in their order.
fn join_full(parts: &[(TargetLists, TargetLists)], edges: &mut TargetLists) -> Result<(), Fault>
    ensures fault { Refuses result None }
    ensures ok { OnOk result (edges.new ≡ edges.old ++ flat_map (λ part. part.0) parts.now) }
{
    for part in parts {
        edges.append(&part.0)?;
    }
    Ok(())
}

// The same of the lists in flat.
fn join_flat(parts: &[(TargetLists, TargetLists)], edges: &mut TargetLists) -> Result<(), Fault>
    ensures fault { Refuses result None }
    ensures ok { OnOk result (edges.new ≡ edges.old ++ flat_map (λ part. part.1) parts.now) }
{
    for part in parts {
        edges.append(&part.1)?;
    }
    Ok(())
}

/// What reads rows, and how many threads may read one slice of them.
#[derive(Drop)]
struct Reading<'r, R> {
    alloc: Global,
    reader: &'r R,
    workers: usize,
}

// Adds the targets of each row of one slice, in full and in flat. If the slice is worth several
// threads, they read it in parts, and the parts are joined in order; else the calling thread reads
// it.
fn read_slice<T: Sync, R: RowReader<T>>(
    rt: &(impl Threads + Sync),
    reading: &Reading<'_, R>,
    rows: &[T],
    full: &mut TargetLists,
    flat: &mut TargetLists,
) -> Result<(), Fault>
    ensures fault { Refuses result None }
    ensures full { OnOk result (full.new
        ≡ full.old ++ map (R.full_of reading.now.reader.now) rows.now) }
    ensures flat { OnOk result (flat.new
        ≡ flat.old ++ map (R.flat_of reading.now.reader.now) rows.now) }
{
    let alloc = reading.alloc;
    let reader = reading.reader;
    let threads = thread_count(rows.len(), reading.workers);
    if threads == 1 {
        reader.read(alloc, rows, full, flat)?;
        return Ok(());
    }
    let size = rows.len().div_ceil(threads).max(1);
    let parts = read_parts(rt, alloc, reader, rows, size)?;
    join_full(&parts, full)?;
    join_flat(&parts, flat)?;
    Ok(())
}

// Adds the targets of each row of all slices, in full and in flat.
fn read_slices<T: Sync, R: RowReader<T>>(
    rt: &(impl Threads + Sync),
    reading: &Reading<'_, R>,
    slices: &[&[T]],
    full: &mut TargetLists,
    flat: &mut TargetLists,
) -> Result<(), Fault>
    ensures fault { Refuses result None }
    ensures full { OnOk result (full.new ≡ full.old
        ++ map (R.full_of reading.now.reader.now) (flat_map (λ rows. rows.now) slices.now)) }
    ensures flat { OnOk result (flat.new ≡ flat.old
        ++ map (R.flat_of reading.now.reader.now) (flat_map (λ rows. rows.now) slices.now)) }
{
    for rows in slices {
        read_slice(rt, reading, rows, full, flat)?;
    }
    Ok(())
}

/// Adds the targets of each row in full, and then those of each in flat, slice by slice. Each slice
/// is read by as many threads as it is worth, and at most by `workers`.
pub(crate) fn read_rows<T: Sync, R: RowReader<T>>(
    rt: &(impl Threads + Sync),
    alloc: Global,
    reader: &R,
    rows: &Slices<'_, T>,
    workers: usize,
    edges: &mut TargetLists,
) -> Result<(), Fault>
    ensures fault { Refuses result None }
    ensures ok { OnOk result (edges.new ≡ edges.old ++ map (R.full_of reader.now) rows.now
        ++ map (R.flat_of reader.now) rows.now) }
{
    let mut flat = TargetLists::with_capacity(alloc, rows.len())?;
    let reading = Reading {
        alloc,
        reader,
        workers,
    };
    read_slices(rt, &reading, rows.as_slices(), edges, &mut flat)?;
    edges.append(&flat)?;
    Ok(())
}
