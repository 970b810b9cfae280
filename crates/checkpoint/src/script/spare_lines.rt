//! Lines that make what no row needs, and take it away again: their objects stay.
ghost use Rattle.std.specs.Prelude.{IfErr};
ghost use Rattle.checkpoint.specs.Writing.{Stops};

use crate::script::line::{Lines, put_plain};
use crate::script::spare::Spare;
use meta_types::{ContentRow, Digest, Fault, IngestRow, ShortName};
use std::alloc::{AllocError, Global};
use std::cmp::Ordering;

fn compare(one: &Digest, other: &Digest) -> Ordering {
    one.cmp(other)
}

// The digests of the rows, in their order.
fn owned_digests<'a>(
    alloc: Global,
    rows: &[&'a ContentRow],
) -> Result<Vec<&'a Digest>, AllocError> {
    let mut digests = Vec::with_capacity(alloc, rows.len())?;
    for row in rows {
        digests.push(&row.digest)?;
    }
    digests.sort_unstable_by(|a, b| compare(a, b));
    Ok(digests)
}

fn is_owned(owned: &[&Digest], digest: &Digest) -> bool {
    owned
        .binary_search_by(|other| compare(other, digest))
        .is_ok()
}

fn put_blob<L: Lines>(
    lines: &mut L,
    alloc: Global,
    spare: &Spare,
    digest: &Digest,
) -> Result<(), Fault>
    ensures { IfErr result (Stops L.refuses) }
{
    let text = digest.text();
    put_unowned_blob(lines, alloc, spare.home(), text.as_str())
}

fn put_unowned_blob<L: Lines>(
    lines: &mut L,
    alloc: Global,
    ns: &str,
    digest: &str,
) -> Result<(), Fault>
    ensures { IfErr result (Stops L.refuses) }
{
    let naming = [("ns", ns), ("digest", digest)];
    put_plain(lines, alloc, "content.add", &naming)?;
    put_plain(lines, alloc, "content.remove", &naming)
}

/// Puts the blobs that no row owns.
pub(crate) fn put_unowned_blobs<L: Lines>(
    lines: &mut L,
    alloc: Global,
    spare: &Spare,
    rows: &[&ContentRow],
    blobs: &[Digest],
) -> Result<(), Fault>
    ensures { IfErr result (Stops L.refuses) }
{
    let owned = owned_digests(alloc, rows)?;
    for digest in blobs {
        if !is_owned(&owned, digest) {
            put_blob(lines, alloc, spare, digest)?;
        }
    }
    Ok(())
}

fn push_space<'a>(spaces: &mut Vec<&'a ShortName>, row: &'a IngestRow) -> Result<(), AllocError> {
    if row.expires.is_some() {
        return Ok(());
    }
    match spaces.last() {
        Some(last) if **last == row.ns => Ok(()),
        _ => Ok(spaces.push(&row.ns)?),
    }
}

/// The namespaces of ingests that have no end. The rows of a namespace stand together.
pub(crate) fn leased_spaces<'a>(
    alloc: Global,
    rows: &[&'a IngestRow],
) -> Result<Vec<&'a ShortName>, AllocError> {
    let mut spaces = Vec::new(alloc);
    for row in rows {
        push_space(&mut spaces, *row)?;
    }
    Ok(spaces)
}

fn put_spare_lease<L: Lines>(
    lines: &mut L,
    alloc: Global,
    op: &str,
    spare: &Spare,
    ns: &ShortName,
) -> Result<(), Fault>
    ensures { IfErr result (Stops L.refuses) }
{
    let id = spare.name(alloc, 0)?;
    put_lease(lines, alloc, op, ns.text(), &id)
}

fn put_lease<L: Lines>(
    lines: &mut L,
    alloc: Global,
    op: &str,
    ns: &str,
    id: &str,
) -> Result<(), Fault>
    ensures { IfErr result (Stops L.refuses) }
{
    put_plain(lines, alloc, op, &[("ns", ns), ("id", id)])
}

/// Puts a request on the spare lease of each of the namespaces.
pub(crate) fn put_spare_leases<L: Lines>(
    lines: &mut L,
    alloc: Global,
    op: &str,
    spare: &Spare,
    spaces: &[&ShortName],
) -> Result<(), Fault>
    ensures { IfErr result (Stops L.refuses) }
{
    for ns in spaces {
        put_spare_lease(lines, alloc, op, spare, ns)?;
    }
    Ok(())
}
