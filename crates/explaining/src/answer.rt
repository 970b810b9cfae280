//! The explanation of a row of a store.
ghost use Rattle.std.specs.Prelude.{◌≡◌, None, IfOk};
ghost use Rattle.std.specs.List.{list_any};
ghost use Rattle.meta_types.specs.Faults.{Refuses};
ghost use Rattle.meta_types.specs.Limits.{is_too_large};
ghost use Rattle.meta_types.specs.Paths.{things};
ghost use Rattle.meta_types.specs.Explanations.{is_asked, explain_fault, IsExplanation};
ghost use Rattle.meta_types.specs.declared.object.Object.TheVariants.{Held};
ghost use Rattle.explaining.specs.RowLists.{records_in, AreInOrder};

use crate::asked::Question;
use crate::explain_rows::explain_rows;
use gc_graph::ListedRows;
use meta_types::{Explanation, Fault, Instant, Object, Resource, ShortName};
use request_core::Records;
use std::alloc::Global;
use std::thread::Threads;

// Whether a resource is there.
fn has_resource(records: &Records, ns: &ShortName, resource: &Resource) -> bool
    ensures { result ≡ list_any (is_asked ns.now (Held resource.now)) (things (records_in records.now)) }
{
    match resource {
        Resource::Content(digest) => records.tables.has_content(ns, digest),
        Resource::Snapshot(snapshotter, name) => {
            records
                .tables
                .arrived()
                .snapshots
                .has(ns, snapshotter, name)
        }
        Resource::Ingest(name) => records.tables.has_ingest(ns, name),
    }
}

// Whether a row is there.
fn has_row(records: &Records, ns: &ShortName, object: &Object) -> bool
    ensures { result ≡ list_any (is_asked ns.now object.now) (things (records_in records.now)) }
{
    match object {
        Object::Image(name) => records.tables.has_image(ns, name),
        Object::Container(name) => records.tables.has_container(ns, name),
        Object::Lease(id) => records.leases.has(ns, id),
        Object::Held(resource) => has_resource(records, ns, resource),
    }
}

// The rows of records, listed as they arrived.
fn list_rows(alloc: Global, records: &Records) -> Result<ListedRows<'_>, Fault>
    ensures fault { Refuses result None }
    ensures ok { IfOk result (λ listed. AreInOrder listed (records_in records.now)) }
{
    let arrived = records.tables.arrived();
    let leases = records.leases.arrived();
    // For the prover: the result is opened, not passed on.
    let listed = ListedRows::new(alloc, &arrived, leases, records.profile)?;
    Ok(listed)
}

/// What keeps a row at a moment: of all shortest paths of references that lead to it the first; and
/// where none does, that of the last moment at which one did. The store stays as it is; the calling
/// thread does all.
pub fn explain<R: Threads + Sync>(
    rt: &R,
    alloc: Global,
    records: &Records,
    ns: &ShortName,
    object: &Object,
    at: Instant,
) -> Result<Explanation, Fault>
    ensures fault { Refuses result (explain_fault (records_in records.now) ns.now object.now) }
    ensures ok { IfOk result (λ e. IsExplanation (records_in records.now) at.0
        (is_asked ns.now object.now) e.kept e.path.items) }
{
    if !has_row(records, ns, object) {
        return Err(Fault::NotFound);
    }
    if records.is_too_large() {
        return Err(Fault::FailedPrecondition);
    }
    let listed = list_rows(alloc, records)?;
    let rows = listed.rows();
    let question = Question { ns, object };
    // For the prover: the result is opened, not passed on.
    let explanation = explain_rows(rt, alloc, &rows, question, at)?;
    Ok(explanation)
}
