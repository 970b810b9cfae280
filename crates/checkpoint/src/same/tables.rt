//! Tables, compared kind by kind.
ghost use Rattle.std.specs.Prelude.{◌≡◌, ◌↔◌, IsTrue, IfOk, None};
ghost use Rattle.meta_types.specs.Faults.{Refuses};

use crate::same::lists::are_same;
use meta_types::Fault;
use object_tables::Tables;
use std::alloc::Global;

fn have_same_namespaces(alloc: Global, tables: &Tables, others: &Tables) -> Result<bool, Fault>
    ensures fault { Refuses result None }
    ensures ok { IfOk result (λ same. IsTrue same ↔ (tables.now.namespaces ≡ others.now.namespaces)) }
{
    let names = tables.list_ns(alloc)?;
    let others = others.list_ns(alloc)?;
    Ok(names.is(&others))
}

fn have_same_images(alloc: Global, tables: &Tables, others: &Tables) -> Result<bool, Fault>
    ensures fault { Refuses result None }
    ensures ok { IfOk result (λ same. IsTrue same ↔ (tables.now.images ≡ others.now.images)) }
{
    let rows = tables.arrived().images.list(alloc)?;
    let others = others.arrived().images.list(alloc)?;
    Ok(are_same(&rows, &others))
}

fn have_same_containers(alloc: Global, tables: &Tables, others: &Tables) -> Result<bool, Fault>
    ensures fault { Refuses result None }
    ensures ok { IfOk result (λ same. IsTrue same ↔ (tables.now.containers ≡ others.now.containers)) }
{
    let rows = tables.arrived().containers.list(alloc)?;
    let others = others.arrived().containers.list(alloc)?;
    Ok(are_same(&rows, &others))
}

fn have_same_content(alloc: Global, tables: &Tables, others: &Tables) -> Result<bool, Fault>
    ensures fault { Refuses result None }
    ensures ok { IfOk result (λ same. IsTrue same ↔ (tables.now.content ≡ others.now.content)) }
{
    let rows = tables.arrived().content.list(alloc)?;
    let others = others.arrived().content.list(alloc)?;
    Ok(are_same(&rows, &others))
}

fn have_same_ingests(alloc: Global, tables: &Tables, others: &Tables) -> Result<bool, Fault>
    ensures fault { Refuses result None }
    ensures ok { IfOk result (λ same. IsTrue same ↔ (tables.now.ingests ≡ others.now.ingests)) }
{
    let rows = tables.arrived().ingests.list(alloc)?;
    let others = others.arrived().ingests.list(alloc)?;
    Ok(are_same(&rows, &others))
}

fn have_same_snapshots(alloc: Global, tables: &Tables, others: &Tables) -> Result<bool, Fault>
    ensures fault { Refuses result None }
    ensures ok { IfOk result (λ same. IsTrue same ↔ (tables.now.snapshots ≡ others.now.snapshots)) }
{
    let rows = tables.arrived().snapshots.list(alloc)?;
    let others = others.arrived().snapshots.list(alloc)?;
    Ok(are_same(&rows, &others))
}

/// Whether both have the same namespaces and rows.
pub(crate) fn are_same_tables(
    alloc: Global,
    tables: &Tables,
    others: &Tables,
) -> Result<bool, Fault>
    ensures fault { Refuses result None }
    ensures ok { IfOk result (λ same. IsTrue same ↔ (tables.now ≡ others.now)) }
{
    if !have_same_namespaces(alloc, tables, others)? {
        return Ok(false);
    }
    if !have_same_images(alloc, tables, others)? {
        return Ok(false);
    }
    if !have_same_containers(alloc, tables, others)? {
        return Ok(false);
    }
    if !have_same_content(alloc, tables, others)? {
        return Ok(false);
    }
    if !have_same_ingests(alloc, tables, others)? {
        return Ok(false);
    }
    // For the prover: the result is opened, not passed on.
    let same = have_same_snapshots(alloc, tables, others)?;
    Ok(same)
}
