//! A question of a store that holds one image.

use explaining::explain;
use meta_types::{Data, Digest, Fault, ImageRow, Instant, Labels, Name, Object, ShortName};
use object_tables::Tables;
use request_core::Records;
use std::alloc::Global;
use std::mem::drop;
use std::thread::Threads;

const TARGET: &str = "sha256:aaaaaaaaaaaaaaaaaaaaaaaaaaaaaaaaaaaaaaaaaaaaaaaaaaaaaaaaaaaaaaaa";

fn image(alloc: Global) -> Result<ImageRow, Fault> {
    let ns = ShortName::read(alloc, "x")?;
    let name = Name::read(alloc, "i")?;
    let target = Digest::read(alloc, TARGET)?;
    Ok(ImageRow {
        ns,
        name,
        target,
        labels: Labels::new(alloc),
        extra: Data::new(),
    })
}

fn add_ns(alloc: Global, tables: &mut Tables) -> Result<(), Fault> {
    let ns = ShortName::read(alloc, "x")?;
    tables.add_ns(alloc, ns)
}

fn add_image(alloc: Global, tables: &mut Tables) -> Result<(), Fault> {
    let row = image(alloc)?;
    tables.add_image(alloc, row)
}

// Whether an image is a root, since it is all of the path that keeps it.
fn is_root(
    rt: &(impl Threads + Sync),
    alloc: Global,
    records: &Records,
    ns: &ShortName,
    image: &Object,
) -> Result<bool, Fault> {
    let found = explain(rt, alloc, records, ns, image, Instant(0))?;
    let is_root = found.kept && found.path.len() == 1;
    // For the prover: dropped by a call, not in place.
    drop(found);
    Ok(is_root)
}

fn ask(rt: &(impl Threads + Sync), alloc: Global, records: &Records) -> Result<bool, Fault> {
    let ns = ShortName::read(alloc, "x")?;
    let image = Object::read(alloc, "images", "i")?;
    let told = is_root(rt, alloc, records, &ns, &image);
    // For the prover: dropped by a call, not in place.
    drop(image);
    told
}

fn fill_and_ask(
    rt: &(impl Threads + Sync),
    alloc: Global,
    records: &mut Records,
) -> Result<bool, Fault> {
    add_ns(alloc, &mut records.tables)?;
    add_image(alloc, &mut records.tables)?;
    ask(rt, alloc, records)
}

/// Asks what keeps the image: it is a root.
pub(crate) fn calls(rt: &(impl Threads + Sync), alloc: Global) -> Result<bool, Fault> {
    let mut records = Records::empty(alloc);
    let told = fill_and_ask(rt, alloc, &mut records);
    // For the prover: dropped by a call, not in place.
    drop(records);
    told
}
