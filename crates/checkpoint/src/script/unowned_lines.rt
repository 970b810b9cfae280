//! Lines that make objects that no row owns: their rows are taken away again.
ghost use Rattle.std.specs.Prelude.{IfErr};
ghost use Rattle.checkpoint.specs.Writing.{Stops};

use crate::script::line::{Lines, put_plain};
use crate::script::moment::ANY_MOMENT;
use crate::script::spare::Spare;
use crate::script::unowned::{Above, Unowned};
use meta_types::Fault;
use std::alloc::{AllocError, Global};

/// Puts the object of an ingest that no row owns.
pub(crate) fn put_unowned_ingest<L: Lines>(
    lines: &mut L,
    alloc: Global,
    spare: &Spare,
    number: u64,
) -> Result<(), Fault>
    ensures { IfErr result (Stops L.refuses) }
{
    let name = spare.name(alloc, number)?;
    put_aborted(lines, alloc, spare.home(), &name, ANY_MOMENT)
}

// An ingest that is begun and aborted.
fn put_aborted<L: Lines>(
    lines: &mut L,
    alloc: Global,
    ns: &str,
    name: &str,
    at: &str,
) -> Result<(), Fault>
    ensures { IfErr result (Stops L.refuses) }
{
    let begun = [("ns", ns), ("ref", name), ("at", at)];
    put_plain(lines, alloc, "ingest.begin", &begun)?;
    put_plain(lines, alloc, "ingest.abort", &[("ns", ns), ("ref", name)])
}

// The name that an object's parent has; an empty text where it has none.
fn above_text(alloc: Global, spare: &Spare, one: &Unowned<'_>) -> Result<String, AllocError> {
    match one.above {
        Above::Nothing => Ok(String::new(alloc)),
        Above::Row(row) => String::from_str(alloc, row.key.name.text()),
        Above::Unowned(number) => spare.name(alloc, number),
    }
}

fn put_prepared<L: Lines>(
    lines: &mut L,
    alloc: Global,
    one: &Unowned<'_>,
    key: &str,
    parent: &str,
) -> Result<(), Fault>
    ensures { IfErr result (Stops L.refuses) }
{
    let members = [
        ("ns", one.ns),
        ("snapshotter", one.snapshotter.text()),
        ("key", key),
        ("parent", parent),
    ];
    put_plain(lines, alloc, "snap.prepare", &members)
}

fn put_spare_commit<L: Lines>(
    lines: &mut L,
    alloc: Global,
    one: &Unowned<'_>,
    key: &str,
    name: &str,
) -> Result<(), Fault>
    ensures { IfErr result (Stops L.refuses) }
{
    let members = [
        ("ns", one.ns),
        ("snapshotter", one.snapshotter.text()),
        ("key", key),
        ("name", name),
    ];
    put_plain(lines, alloc, "snap.commit", &members)
}

/// Puts a snapshot's object that no row owns. It is committed where others stand over it.
pub(crate) fn put_unowned<L: Lines>(
    lines: &mut L,
    alloc: Global,
    spare: &Spare,
    one: &Unowned<'_>,
    is_parent: bool,
) -> Result<(), Fault>
    ensures { IfErr result (Stops L.refuses) }
{
    let name = spare.name(alloc, one.number)?;
    let parent = above_text(alloc, spare, one)?;
    if !is_parent {
        return put_prepared(lines, alloc, one, &name, &parent);
    }
    let key = spare.name(alloc, 0)?;
    put_prepared(lines, alloc, one, &key, &parent)?;
    put_spare_commit(lines, alloc, one, &key, &name)
}

/// Removes the rows that were made for objects without a row, children first: their objects stay.
pub(crate) fn remove_unowned<L: Lines>(
    lines: &mut L,
    alloc: Global,
    spare: &Spare,
    list: &[Unowned<'_>],
) -> Result<(), Fault>
    ensures { IfErr result (Stops L.refuses) }
{
    for one in list.iter().rev() {
        remove_one(lines, alloc, spare, one)?;
    }
    Ok(())
}

fn remove_one<L: Lines>(
    lines: &mut L,
    alloc: Global,
    spare: &Spare,
    one: &Unowned<'_>,
) -> Result<(), Fault>
    ensures { IfErr result (Stops L.refuses) }
{
    let name = spare.name(alloc, one.number)?;
    put_removal(lines, alloc, one, &name)
}

fn put_removal<L: Lines>(
    lines: &mut L,
    alloc: Global,
    one: &Unowned<'_>,
    name: &str,
) -> Result<(), Fault>
    ensures { IfErr result (Stops L.refuses) }
{
    let members = [
        ("ns", one.ns),
        ("snapshotter", one.snapshotter.text()),
        ("key", name),
    ];
    put_plain(lines, alloc, "snap.remove", &members)
}
