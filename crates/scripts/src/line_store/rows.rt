//! How many rows the logged lines of a store looked at, and how long a start takes for them.
ghost use Rattle.std.specs.Prelude.{◌≡◌, ◌+◌, ◌<◌, ◌^◌, ℕ, nat_lt};
ghost use Rattle.scripts.specs.Work.{rows_kept, rows_removed, rows_looked_at, rows_logged, is_due_for_rows};

use crate::reply_text::{Answered, ReplyText};
use gc_report::Report;

/// This number of rows is small, be it that the journal is shorter.
const FEW: u128 = 1 << 20;

/// A start takes as long to look at a row as to execute this number of bytes of lines.
const ROW: u128 = 4;

// All rows that a collection looked at: those that it left, and those that it removed.
fn rows_reported(report: &Report) -> u128
    ensures { result ≡ rows_kept report.now.kept + rows_removed report.now.removed }
{
    let kept = &report.kept;
    let removed = &report.removed;
    (kept.containers as u128
        + kept.content as u128
        + kept.images as u128
        + kept.ingests as u128
        + kept.leases as u128
        + kept.namespaces as u128
        + kept.snapshots as u128)
        + (removed.content.len() as u128
            + removed.images.len() as u128
            + removed.ingests.len() as u128
            + removed.leases.len() as u128
            + removed.snapshots.len() as u128)
}

// How many rows a line looked at, by its reply.
fn rows_looked_at(reply: &Option<ReplyText>) -> u128
    ensures { result ≡ rows_looked_at reply.now }
{
    match reply {
        None => 0,
        Some(ReplyText::Text(_)) => 0,
        Some(ReplyText::Rows(_)) => 0,
        Some(ReplyText::Objects(_)) => 0,
        Some(ReplyText::Report(report)) => rows_reported(report),
    }
}

/// How many rows a line looked at that is logged; none where it isn't.
pub(crate) fn rows_logged(executed: &Answered) -> u128
    ensures { result ≡ rows_logged executed.now.changes executed.now.reply }
{
    if !executed.changes {
        return 0;
    }
    rows_looked_at(&executed.reply)
}

/// How many bytes of lines a start executes in the time in which it looks at this number of rows; 0
/// if they are few. If these bytes are more than those of the journal, a checkpoint is due for the
/// rows.
pub fn work_of(rows: u128) -> u128
    ensures { (end : ℕ) → end < 2 ^ 64 → nat_lt end result ≡ is_due_for_rows end rows }
{
    if rows <= FEW {
        return 0;
    }
    match rows.checked_mul(ROW) {
        Some(bytes) => bytes,
        None => u128::MAX,
    }
}
