//! A removal of an image or a lease and a collection, as one event.
ghost use Rattle.std.specs.Prelude.{◌≡◌, ◌+◌, ◌∷◌, [], false, IfOk, OnErr};
ghost use Rattle.meta_types.specs.Faults.{OnlyRefuses, least_of};
ghost use Rattle.meta_types.specs.Limits.{is_too_large};
ghost use Rattle.meta_types.specs.Reports.{Collects};
ghost use Rattle.meta_types.specs.Requests.{removal_outcome};
ghost use Rattle.meta_types.specs.Sound.{IsSound};
ghost use Rattle.meta_types.specs.Steps.{remove_collect_fault};
ghost use Rattle.backend_sweep.specs.Swept.{count_names};
ghost use Rattle.collection.specs.Refused.{RefusesCollect};
ghost use Rattle.collection.specs.Removing.{ReadsTexts, is_readable, named_in, is_missing};
ghost use Rattle.meta_types.specs.Changes.{all_of};
ghost use Rattle.meta_types.specs.Text.{is_short_name, is_name};
ghost use Rattle.collection.specs.Stores.{records_in};

use crate::arrived::CollectionTask;
use crate::collect_store::collect_checked;
use crate::crew::CollectionCrew;
use crate::history_mode::HistoryMode;
use crate::reports::Reports;
use back_model::{BlobBackend, IngestBackend, SnapBackend};
use backend_sweep::SweepGate;
use meta_types::{Fault, Instant, Name, RawName, Removal, ShortName};
use request_core::{Records, State};
use std::alloc::Global;
use std::sync::Wait;
use std::thread::Threads;
use steal_mark::Gate;

/// What is to be removed, its texts read.
#[derive(Drop)]
pub(crate) enum RemovedRow {
    Image(ShortName, Name),
    Lease(ShortName, Name),
}

// Reads a namespace, and the name of an image or of a lease.
fn read_names(alloc: Global, named: &RawName) -> Result<(ShortName, Name), Fault>
    ensures { ReadsTexts result (all_of (is_short_name named.now.ns ∷ is_name named.now.name ∷ []))
        (named.now.ns, named.now.name) }
{
    let ns = ShortName::read(alloc, named.ns.text())?;
    let name = Name::read(alloc, named.name.text())?;
    Ok((ns, name))
}

fn read_removal(alloc: Global, removal: &Removal) -> Result<RemovedRow, Fault>
    ensures { ReadsTexts result (is_readable removal.now) (named_in removal.now) }
{
    match removal {
        Removal::Image(image) => {
            let (ns, name) = read_names(alloc, image)?;
            Ok(RemovedRow::Image(ns, name))
        }
        Removal::Lease(lease) => {
            let (ns, id) = read_names(alloc, lease)?;
            Ok(RemovedRow::Lease(ns, id))
        }
    }
}

// Whether the row to be removed isn't there.
fn is_missing(records: &Records, named: &RemovedRow) -> bool
    ensures { result ≡ is_missing (records_in records.now) named.now }
{
    match named {
        RemovedRow::Image(ns, name) => !records.tables.has_image(ns, name),
        RemovedRow::Lease(ns, id) => !records.leases.has(ns, id),
    }
}

// The least fault of a removal with a collection, its texts being allowed; never OutOfMemory.
fn check_removal(records: &Records, named: &RemovedRow) -> Result<(), Fault>
    ensures { OnlyRefuses result (least_of false (is_missing (records_in records.now) named.now)
        false (is_too_large (records_in records.now))) }
{
    if is_missing(records, named) {
        return Err(Fault::NotFound);
    }
    if records.is_too_large() {
        return Err(Fault::FailedPrecondition);
    }
    Ok(())
}

/// Removes an image or a lease, and collects. Graph and plan are made of the other rows, and the row
/// goes when nothing can be refused any more; no record is copied.
pub fn remove_collect<
    R: Threads + Wait + Sync,
    S: SnapBackend,
    B: BlobBackend,
    I: IngestBackend,
    G: Gate,
    H: SweepGate,
    K: HistoryMode,
>(
    crew: &CollectionCrew<'_, R, G, H>,
    state: &mut State<S, B, I>,
    removal: &Removal,
    at: Instant,
) -> Result<Reports<K>, Fault>
    requires { IsSound state.old.state }
    ensures fault { RefusesCollect result (remove_collect_fault state.old.state removal.now
        crew.now.workers.count) }
    ensures ok { IfOk result (λ report. Collects
        (removal_outcome state.old.state removal.now).after at.0 report.failed report
        state.new.state) }
    ensures count { IfOk result (λ report. state.new.failures
        ≡ state.old.failures + count_names report.failed) }
    ensures err { OnErr result (state.new ≡ state.old) }
    ensures sound { IsSound state.new.state }
{
    let named = read_removal(crew.alloc, removal)?;
    check_removal(state.records(), &named)?;
    let task = CollectionTask {
        at,
        without: Some(&named),
    };
    // For the prover: the result is opened, not passed on.
    let reports = collect_checked(crew, state, &task)?;
    Ok(reports)
}
