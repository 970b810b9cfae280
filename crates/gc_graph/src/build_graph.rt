//! The graph of a store's rows: its edges, its roots and what is ignored.
ghost use Rattle.std.specs.Prelude.{◌≡◌, ◌+◌, ◌*◌, ◌≤◌, ◌++◌, map, filter, length, None, IfOk, not};
ghost use Rattle.std.specs.List.{flat_map};
ghost use Rattle.std.specs.List.Sorted.{IsPermutation};
ghost use Rattle.meta_types.specs.Faults.{Refuses, unless};
ghost use Rattle.meta_types.specs.Limits.{is_too_large};
ghost use Rattle.meta_types.specs.CollectorLabels.{is_marked_root};
ghost use Rattle.meta_types.specs.Reports.{ignored_of, ignored_images_of};
ghost use Rattle.meta_types.specs.Paths.{image, container, lease, ingest, content, snapshot, ingest_holds_itself, is_root};
ghost use Rattle.meta_types.specs.declared.fault.Fault.TheVariants.{FailedPrecondition};
ghost use Rattle.meta_types.specs.declared.resource.Mode.TheVariants.{Full, Flat};
ghost use Rattle.gc_graph.specs.Targets.{node_things, root_things};
ghost use Rattle.gc_graph.specs.Built.{targets_in, root_targets, root_places, places, AreApart, IsBuilt};
ghost use Rattle.gc_graph.specs.Stored.{records_of, IsSmall, AreLent};

use crate::book::NodeBook;
use crate::edges::{push_content, push_ingests, push_snapshots};
use crate::ignored::{Ignored, ignored_images, ignored_leases};
use crate::roots::{
    push_containers, push_images, push_leases, push_marked_content, push_marked_snapshots,
    push_own_ingests,
};
use crate::rows::StoreRows;
use mark_core::{Graph, TargetLists};
use meta_types::{Fault, Instant, MAX_NODES};
use std::alloc::Global;
use std::thread::Threads;

fn is_too_large(rows: &StoreRows<'_>) -> bool
    ensures { result ≡ is_too_large (records_of rows.now) }
{
    let content = rows.content.len() as u128;
    let snapshots = rows.snapshots.len() as u128;
    let ingests = rows.ingests.len() as u128;
    (MAX_NODES as u128) < 2 * (content + snapshots) + ingests
}

fn edges_of(
    rt: &(impl Threads + Sync),
    alloc: Global,
    book: &NodeBook<'_>,
    rows: &StoreRows<'_>,
    workers: usize,
) -> Result<TargetLists, Fault>
    requires { IsSmall rows.now }
    ensures fault { Refuses result None }
    ensures ok { IfOk result (λ edges. edges
        ≡ map (λ row. targets_in book.now (ingest row)) rows.now.ingests.now
        ++ map (λ row. targets_in book.now (content Full row)) rows.now.content.now
        ++ map (λ row. targets_in book.now (content Flat row)) rows.now.content.now
        ++ map (λ row. targets_in book.now (snapshot Full row)) rows.now.snapshots.now
        ++ map (λ row. targets_in book.now (snapshot Flat row)) rows.now.snapshots.now) }
{
    let count = 2 * (rows.content.len() + rows.snapshots.len()) + rows.ingests.len();
    let mut edges = TargetLists::with_capacity(alloc, count)?;
    push_ingests(alloc, book, rows.ingests.as_slices(), &mut edges)?;
    push_content(rt, alloc, book, rows.content, workers, &mut edges)?;
    push_snapshots(rt, alloc, book, rows.snapshots, workers, &mut edges)?;
    Ok(edges)
}

// The numbers of what images, containers and leases reference that haven't ended, in any order.
fn held_of(
    alloc: Global,
    book: &NodeBook<'_>,
    rows: &StoreRows<'_>,
    at: Instant,
) -> Result<Vec<u32>, Fault>
    ensures fault { Refuses result None }
    ensures ok { IfOk result (λ roots. IsPermutation
        (flat_map (λ row. root_targets rows.now.profile at.0 book.now (image row.now))
        rows.now.images.now
        ++ flat_map (λ row. targets_in book.now (container row.now)) rows.now.containers.now
        ++ flat_map (λ row. root_targets rows.now.profile at.0 book.now (lease row.now))
        rows.now.leases.now) roots.items) }
{
    let mut roots = Vec::new(alloc);
    push_images(alloc, book, rows.images, rows.profile, at, &mut roots)?;
    push_containers(alloc, book, rows.containers, &mut roots)?;
    push_leases(book, rows.leases, rows.profile, at, &mut roots)?;
    Ok(roots)
}

// The numbers of what is a root of its own.
fn own_of(alloc: Global, rows: &StoreRows<'_>, at: Instant) -> Result<Vec<u32>, Fault>
    requires { IsSmall rows.now }
    ensures fault { Refuses result None }
    ensures ok { IfOk result (λ roots. roots.items
        ≡ places (λ row. ingest_holds_itself at.0 row) 0 rows.now.ingests.now
        ++ places (λ row. is_marked_root row.labels) (length rows.now.ingests.now)
        rows.now.content.now
        ++ places (λ row. is_marked_root row.labels)
        (length rows.now.ingests.now + 2 * length rows.now.content.now) rows.now.snapshots.now) }
{
    let mut roots = Vec::new(alloc);
    let content = rows.ingests.len() as u32;
    let snapshots = content + 2 * (rows.content.len() as u32);
    push_own_ingests(0, rows.ingests.as_slices(), at, &mut roots)?;
    push_marked_content(content, rows.content.as_slices(), &mut roots)?;
    push_marked_snapshots(snapshots, rows.snapshots.as_slices(), &mut roots)?;
    Ok(roots)
}

/// Where the paths of a moment begin, as numbers.
#[derive(Drop)]
pub struct Starts {
    /// What is a root of its own: ingests that hold themselves, and rows with a root label.
    pub own: Vec<u32>,
    /// What an image, a container or a lease references that hasn't ended, in any order.
    pub held: Vec<u32>,
}

/// Where the paths of a moment begin. No edge depends on the moment, so one graph serves many.
pub fn find_starts(
    alloc: Global,
    book: &NodeBook<'_>,
    rows: &StoreRows<'_>,
    at: Instant,
) -> Result<Starts, Fault>
    requires { IsSmall rows.now }
    ensures fault { Refuses result None }
    ensures own { IfOk result (λ s. s.own.items
        ≡ root_places rows.now.profile at.0 0 (node_things (records_of rows.now))) }
    ensures held { IfOk result (λ s. IsPermutation (flat_map (targets_in book.now)
        (filter (is_root rows.now.profile at.0) (root_things (records_of rows.now)))) s.held.items) }
{
    let held = held_of(alloc, book, rows, at)?;
    let own = own_of(alloc, rows, at)?;
    Ok(Starts { own, held })
}

// The numbers of all roots: first what images, containers and leases reference, then the rows that
// are roots of their own.
fn roots_of(
    alloc: Global,
    book: &NodeBook<'_>,
    rows: &StoreRows<'_>,
    at: Instant,
) -> Result<Vec<u32>, Fault>
    requires { IsSmall rows.now }
    ensures fault { Refuses result None }
    ensures ok { IfOk result (λ roots. IsPermutation (flat_map (targets_in book.now)
        (filter (is_root rows.now.profile at.0) (root_things (records_of rows.now)))
        ++ root_places rows.now.profile at.0 0 (node_things (records_of rows.now))) roots.items) }
{
    let Starts { own, held } = find_starts(alloc, book, rows, at)?;
    let mut roots = held;
    roots.extend_from_slice(own.as_slice())?;
    Ok(roots)
}

fn ignored_of(alloc: Global, rows: &StoreRows<'_>) -> Result<Ignored, Fault>
    ensures fault { Refuses result None }
    ensures leases { IfOk result (λ r. r.ignored.items ≡ ignored_of (records_of rows.now)) }
    ensures images { IfOk result (λ r. r.ignored_images.items
        ≡ ignored_images_of (records_of rows.now)) }
{
    let ignored = ignored_leases(alloc, rows.leases)?;
    let ignored_images = ignored_images(alloc, rows.images, rows.profile)?;
    Ok(Ignored {
        ignored,
        ignored_images,
    })
}

/// Numbers each ingest, and each row of content and of snapshots in both modes; and makes the graph
/// of their references. Images, containers and leases give roots. Refused where there are more than
/// 16,777,216 nodes. Labels of content and of snapshots are read by at most `workers` threads, and
/// by no more than a slice of rows is worth (`thread_count`). No clause says by which.
pub fn build<'a>(
    rt: &(impl Threads + Sync),
    alloc: Global,
    rows: &StoreRows<'a>,
    at: Instant,
    workers: usize,
) -> Result<(NodeBook<'a>, Graph, Ignored), Fault>
    requires apart { AreApart (records_of rows.now) }
    requires lent { AreLent rows.now }
    ensures fault { Refuses result
        (unless (not (is_too_large (records_of rows.now))) FailedPrecondition) }
    ensures ok { IfOk result (λ r. IsBuilt (records_of rows.now) at.0 r.0 r.1) }
    ensures leases { IfOk result (λ r. r.2.ignored.items ≡ ignored_of (records_of rows.now)) }
    ensures images { IfOk result (λ r. r.2.ignored_images.items
        ≡ ignored_images_of (records_of rows.now)) }
{
    if is_too_large(rows) {
        return Err(Fault::FailedPrecondition);
    }
    let book = NodeBook::new(*rows);
    let edges = edges_of(rt, alloc, &book, rows, workers)?;
    let roots = roots_of(alloc, &book, rows, at)?;
    let ignored = ignored_of(alloc, rows)?;
    Ok((book, Graph { edges, roots }, ignored))
}
