//! The lines that make a store again, in their order: a number, the profile, namespaces, blobs that
//! no row owns, leases, what has a number by its number, other rows, what leases hold, the next
//! number.
ghost use Rattle.std.specs.Prelude.{IfErr};
ghost use Rattle.checkpoint.specs.Writing.{Stops};

pub(crate) mod line;
mod moment;
mod numbered;
mod numbered_lines;
mod row_lines;
mod spare;
mod spare_lines;
mod unowned;
mod unowned_lines;

use crate::script::line::{Lines, put_number, put_plain, put_profile};
use crate::script::numbered::{Numbered, in_number_order};
use crate::script::numbered_lines::{go_on_at, put_numbered};
use crate::script::row_lines::{put_containers, put_content, put_holds, put_images, put_leases};
use crate::script::spare::{Spare, spare_of};
use crate::script::spare_lines::{leased_spaces, put_spare_leases, put_unowned_blobs};
use crate::script::unowned::{Unowned, by_number, parents, unowned_objects};
use crate::script::unowned_lines::remove_unowned;
use back_model::{Backends, BlobBackend, IngestBackend, SnapBackend};
use lease_book::Leases;
use meta_types::{Fault, Listed, ShortName};
use object_tables::Tables;
use request_core::{Records, State};
use std::alloc::Global;

fn put_namespace<L: Lines>(lines: &mut L, alloc: Global, op: &str, ns: &str) -> Result<(), Fault>
    ensures { IfErr result (Stops L.refuses) }
{
    put_plain(lines, alloc, op, &[("ns", ns)])
}

fn put_name<L: Lines>(lines: &mut L, alloc: Global, name: &Listed) -> Result<(), Fault>
    ensures { IfErr result (Stops L.refuses) }
{
    match name {
        Listed::Text(text) => put_namespace(lines, alloc, "ns.add", text.as_str()),
        Listed::Digest(_) => Ok(()),
    }
}

// The namespaces; a spare one where there is none.
fn put_namespaces<L: Lines>(
    lines: &mut L,
    alloc: Global,
    spare: &Spare,
    tables: &Tables,
) -> Result<(), Fault>
    ensures { IfErr result (Stops L.refuses) }
{
    if tables.count_ns() == 0 {
        return put_namespace(lines, alloc, "ns.add", spare.home());
    }
    let names = tables.list_ns(alloc)?;
    for name in names.names() {
        put_name(lines, alloc, name)?;
    }
    Ok(())
}

// The blobs that no row owns.
fn put_blobs<B: BlobBackend, L: Lines>(
    lines: &mut L,
    alloc: Global,
    spare: &Spare,
    tables: &Tables,
    blobs: &B,
) -> Result<(), Fault>
    ensures { IfErr result (Stops L.refuses) }
{
    let rows = tables.arrived().content.list_arrived(alloc)?;
    put_unowned_blobs(lines, alloc, spare, &rows, blobs.digests().rows())
}

// The leases, without what they hold.
fn put_bare_leases<L: Lines>(lines: &mut L, alloc: Global, leases: &Leases) -> Result<(), Fault>
    ensures { IfErr result (Stops L.refuses) }
{
    let rows = leases.leases(alloc)?;
    put_leases(lines, alloc, &rows)
}

// Puts what has a number, under spare leases where a lease is wanted. Answers the next number behind
// it.
fn put_list<L: Lines>(
    lines: &mut L,
    alloc: Global,
    spare: &Spare,
    list: &[Numbered<'_>],
    free: &[Unowned<'_>],
    spaces: &[&ShortName],
) -> Result<u64, Fault>
    ensures { IfErr result (Stops L.refuses) }
{
    let above = parents(alloc, free)?;
    put_spare_leases(lines, alloc, "lease.add", spare, spaces)?;
    let next = put_numbered(lines, alloc, spare, list, &above)?;
    remove_unowned(lines, alloc, spare, free)?;
    put_spare_leases(lines, alloc, "lease.remove", spare, spaces)?;
    Ok(next)
}

fn put_rows<L: Lines>(
    lines: &mut L,
    alloc: Global,
    spare: &Spare,
    tables: &Tables,
    snaps: &[(ShortName, u64, Option<u64>)],
    begun: &[u64],
) -> Result<u64, Fault>
    ensures { IfErr result (Stops L.refuses) }
{
    let ingests = tables.arrived().ingests.list_arrived(alloc)?;
    let snapshots = tables.arrived().snapshots.list_arrived(alloc)?;
    let owners = by_number(alloc, &snapshots)?;
    let free = unowned_objects(alloc, &owners, snaps, spare.home())?;
    let list = in_number_order(alloc, &ingests, &owners, begun, &free)?;
    let spaces = leased_spaces(alloc, &ingests)?;
    put_list(lines, alloc, spare, &list, &free, &spaces)
}

// All rows and objects that have numbers. Answers the next number behind them.
fn put_backed<S: SnapBackend, B: BlobBackend, I: IngestBackend, L: Lines>(
    lines: &mut L,
    alloc: Global,
    spare: &Spare,
    tables: &Tables,
    backends: &Backends<S, B, I>,
) -> Result<u64, Fault>
    ensures { IfErr result (Stops L.refuses) }
{
    let snaps = backends.snaps(alloc)?;
    let begun = backends.ingests().numbers(alloc)?;
    put_rows(lines, alloc, spare, tables, &snaps, &begun)
}

// Rows without a number.
fn put_tables<L: Lines>(lines: &mut L, alloc: Global, tables: &Tables) -> Result<(), Fault>
    ensures { IfErr result (Stops L.refuses) }
{
    let content = tables.arrived().content.list_arrived(alloc)?;
    put_content(lines, alloc, &content)?;
    let images = tables.arrived().images.list_arrived(alloc)?;
    put_images(lines, alloc, &images)?;
    let containers = tables.arrived().containers.list_arrived(alloc)?;
    put_containers(lines, alloc, &containers)
}

fn put_held<L: Lines>(lines: &mut L, alloc: Global, leases: &Leases) -> Result<(), Fault>
    ensures { IfErr result (Stops L.refuses) }
{
    let rows = leases.leases(alloc)?;
    put_holds(lines, alloc, &rows)
}

// A number, by which a checkpoint is known from its first line on; the profile, which is chosen
// before all requests; and the namespaces.
fn put_head<L: Lines>(
    lines: &mut L,
    alloc: Global,
    spare: &Spare,
    records: &Records,
) -> Result<(), Fault>
    ensures { IfErr result (Stops L.refuses) }
{
    put_number(lines, alloc, 1)?;
    if records.profile != 1 {
        put_profile(lines, alloc, records.profile)?;
    }
    put_namespaces(lines, alloc, spare, &records.tables)
}

// What no row owns is in the spare namespace until here.
fn remove_spare_namespace<L: Lines>(
    lines: &mut L,
    alloc: Global,
    spare: &Spare,
    tables: &Tables,
) -> Result<(), Fault>
    ensures { IfErr result (Stops L.refuses) }
{
    if tables.count_ns() != 0 {
        return Ok(());
    }
    put_namespace(lines, alloc, "ns.remove", spare.home())
}

/// Writes the lines that make this store from an empty one: requests, and lines `number N`, from which
/// on the next number is at least N. Whether they make it is no promise: a caller does them again, and
/// asks `is_same`. It takes a time that grows as the number of rows and its logarithm.
pub fn write_checkpoint<S: SnapBackend, B: BlobBackend, I: IngestBackend, L: Lines>(
    alloc: Global,
    store: &State<S, B, I>,
    lines: &mut L,
) -> Result<(), Fault>
    ensures { IfErr result (Stops L.refuses) }
{
    let records = store.records();
    let spare = spare_of(alloc, &records.tables, &records.leases)?;
    put_head(lines, alloc, &spare, records)?;
    put_blobs(
        lines,
        alloc,
        &spare,
        &records.tables,
        store.backends.blobs(),
    )?;
    put_bare_leases(lines, alloc, &records.leases)?;
    let next = put_backed(lines, alloc, &spare, &records.tables, &store.backends)?;
    remove_spare_namespace(lines, alloc, &spare, &records.tables)?;
    put_tables(lines, alloc, &records.tables)?;
    put_held(lines, alloc, &records.leases)?;
    go_on_at(lines, alloc, next, records.next)
}
