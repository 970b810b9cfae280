//! What a collection is to do, and what its report is to say.
ghost use Rattle.std.specs.Prelude.{◌≡◌, ◌≢◌, ◌+◌, length, None, IfOk, AllPairs};
ghost use Rattle.meta_types.specs.Faults.{Refuses};
ghost use Rattle.meta_types.specs.Reports.{ignored_of, ignored_images_of};
ghost use Rattle.gc_graph.specs.Marked.{reached_by};
ghost use Rattle.gc_graph.specs.Stored.{records_of, IsSmall};
ghost use Rattle.gc_graph.specs.Targets.{nodes_of};
ghost use Rattle.table_sweep.specs.Backed.{lists_of};
ghost use Rattle.table_sweep.specs.BlobMarks.{AreBlobMarks};
ghost use Rattle.table_sweep.specs.InKeyOrder.{records_in_key_order};
ghost use Rattle.table_sweep.specs.Stays.{AreMasks};
ghost use Rattle.table_sweep.specs.Plans.{dry_report_of};

use crate::counts::{count_marked, kept_of};
use crate::masks::{Masks, masks_of};
use crate::objects::BackRows;
use crate::parallel::{Removals, Team, removals_of};
use crate::sorting::names_in_order;
use gc_graph::{Ignored, NodeBook, StoreRows};
use gc_report::{Objects, Report};
use mark_core::Marks;
use meta_types::{Fault, Instant};
use std::thread::Threads;

/// Which rows stay, by their places as they arrived; which blobs stay, by their places as they were
/// lent; and the report of a dry run.
#[derive(Drop)]
pub struct Plan {
    pub masks: Masks,
    pub blobs: Vec<bool>,
    pub report: Report,
}

// How many nodes the rows have.
fn count_nodes(rows: &StoreRows<'_>) -> u32
    requires { IsSmall rows.now }
    ensures { result ≡ length rows.now.ingests.now
        + ((length rows.now.content.now + length rows.now.content.now)
        + (length rows.now.snapshots.now + length rows.now.snapshots.now)) }
{
    let content = rows.content.len() as u32;
    let snapshots = rows.snapshots.len() as u32;
    rows.ingests.len() as u32 + 2 * (content + snapshots)
}

/// The plan of a collection at this moment, by the marks on the nodes of these rows, which may stand
/// in any order. It takes all the memory that the collection and its report need. The book and what
/// is ignored are those that `build` gives for these rows. Of 20,000 rows or more of one kind, a
/// second thread finds the names where the team has several workers.
pub fn plan_of<R: Threads + Sync>(
    team: &Team<'_, R>,
    rows: &StoreRows<'_>,
    namespaces: u64,
    back: &BackRows<'_>,
    book: &NodeBook,
    marks: &Marks,
    ignored: Ignored,
    at: Instant,
) -> Result<Plan, Fault>
    requires numbered { book.now ≡ nodes_of (records_of rows.now) }
    requires once { AllPairs (λ a b. a ≢ b) book.now }
    requires few { IsSmall rows.now }
    requires ignored { ignored.ignored.items ≡ ignored_of (records_of rows.now) }
    requires images { ignored.ignored_images.items ≡ ignored_images_of (records_of rows.now) }
    ensures fault { Refuses result None }
    ensures masks { IfOk result (λ plan. AreMasks (records_of rows.now) at.0
        (reached_by rows.now.profile book.now marks.now at.0) plan.masks) }
    ensures ok { IfOk result (λ plan. plan.report
        ≡ dry_report_of (records_in_key_order (records_of rows.now)) namespaces
        (lists_of back.now) at.0 (reached_by rows.now.profile book.now marks.now at.0)) }
    ensures blobs { IfOk result (λ plan. AreBlobMarks plan.report.backend.blobs back.now.blobs.now
        plan.blobs.items) }
{
    let masks = masks_of(team.alloc, rows, book, marks, at)?;
    let gone = removals_of(team, rows, &masks, back)?;
    let kept = kept_of(rows, &masks, namespaces);
    let scanned = count_marked(marks, count_nodes(rows)) as u64;
    let Ignored {
        ignored,
        ignored_images,
    } = ignored;
    let ignored = names_in_order(ignored)?;
    let ignored_images = names_in_order(ignored_images)?;
    let Removals {
        removed,
        backend,
        blobs,
    } = gone;
    let report = Report {
        backend,
        dry: true,
        failed: Objects::new(team.alloc),
        ignored,
        ignored_images,
        kept,
        profile: rows.profile as u64,
        removed,
        scanned,
    };
    Ok(Plan {
        masks,
        blobs,
        report,
    })
}
