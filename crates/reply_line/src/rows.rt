//! Rows of a reply as JSON, a function for each kind.
ghost use Rattle.std.specs.Prelude.{OnOk};
ghost use Rattle.gc_report.specs.Writing.{tokens_of, Adds};
ghost use Rattle.reply_line.specs.Replies.{row_data, row_with, snap_data};
ghost use Rattle.reply_line.specs.Shown.{shown_data};

use crate::parts::{kind_text, write_count_if, write_extra, write_if_any, write_labels};
use gc_report::write_member;
use json::Writer;
use meta_types::{
    ContainerRow, ContentRow, Data, ImageRow, IngestRow, Labels, Name, ReplyRow, ShownRow, SnapRow,
};
use std::alloc::AllocError;

fn write_image(out: &mut Writer, row: &ImageRow) -> Result<(), AllocError>
    ensures { OnOk result (Adds out.old out.new (tokens_of (row_data (ReplyRow.Image row.now)))) }
{
    out.begin_object()?;
    write_extra(out, &row.extra)?;
    write_labels(out, &row.labels)?;
    write_member(out, "name", &row.name)?;
    write_member(out, "target", &row.target)?;
    out.end_object()
}

fn write_container(out: &mut Writer, row: &ContainerRow) -> Result<(), AllocError>
    ensures { OnOk result (Adds out.old out.new
        (tokens_of (row_data (ReplyRow.Container row.now)))) }
{
    out.begin_object()?;
    write_extra(out, &row.extra)?;
    write_labels(out, &row.labels)?;
    write_member(out, "name", &row.name)?;
    write_if_any(out, "snapshot", &row.snapshot)?;
    out.end_object()
}

fn write_content(out: &mut Writer, row: &ContentRow) -> Result<(), AllocError>
    ensures { OnOk result (Adds out.old out.new (tokens_of (row_data (ReplyRow.Content row.now)))) }
{
    out.begin_object()?;
    write_extra(out, &row.extra)?;
    write_member(out, "digest", &row.digest)?;
    write_labels(out, &row.labels)?;
    out.end_object()
}

fn write_ingest(out: &mut Writer, row: &IngestRow) -> Result<(), AllocError>
    ensures { OnOk result (Adds out.old out.new (tokens_of (row_data (ReplyRow.Ingest row.now)))) }
{
    out.begin_object()?;
    write_extra(out, &row.extra)?;
    write_if_any(out, "expected", &row.expected)?;
    write_member(out, "number", &row.number)?;
    write_member(out, "own", &row.expires.is_some())?;
    write_member(out, "ref", &row.name)?;
    out.end_object()
}

fn write_snap(out: &mut Writer, row: &SnapRow, parent_number: Option<u64>) -> Result<(), AllocError>
    ensures { OnOk result (Adds out.old out.new (tokens_of (snap_data row.now parent_number))) }
{
    out.begin_object()?;
    write_extra(out, &row.extra)?;
    write_member(out, "key", &row.key.name)?;
    out.key("kind")?;
    out.string(kind_text(row.kind))?;
    write_labels(out, &row.labels)?;
    write_member(out, "number", &row.number)?;
    write_if_any(out, "parent", &row.parent)?;
    write_count_if(out, "parent_number", parent_number)?;
    out.end_object()
}

fn write_lease(out: &mut Writer, id: &Name, labels: &Labels, extra: &Data) -> Result<(), AllocError>
    ensures { OnOk result (Adds out.old out.new
        (tokens_of (row_data (ReplyRow.Lease id.now labels.now extra.now)))) }
{
    out.begin_object()?;
    write_extra(out, extra)?;
    write_member(out, "id", id)?;
    write_labels(out, labels)?;
    out.end_object()
}

// A row, with the number of a snapshot's parent where it is to be shown.
fn write_row_with(
    out: &mut Writer,
    row: &ReplyRow,
    parent_number: Option<u64>,
) -> Result<(), AllocError>
    ensures { OnOk result (Adds out.old out.new (tokens_of (row_with parent_number row.now))) }
{
    match row {
        ReplyRow::Image(row) => write_image(out, row),
        ReplyRow::Container(row) => write_container(out, row),
        ReplyRow::Content(row) => write_content(out, row),
        ReplyRow::Ingest(row) => write_ingest(out, row),
        ReplyRow::Snap(row) => write_snap(out, row, parent_number),
        ReplyRow::Lease(id, labels, extra) => write_lease(out, id, labels, extra),
    }
}

// A row that was asked for.
pub(crate) fn write_row(out: &mut Writer, row: &ReplyRow) -> Result<(), AllocError>
    ensures { OnOk result (Adds out.old out.new (tokens_of (row_data row.now))) }
{
    write_row_with(out, row, None)
}

// A row, with the number of its parent if it has one.
pub(crate) fn write_shown(out: &mut Writer, shown: &ShownRow) -> Result<(), AllocError>
    ensures { OnOk result (Adds out.old out.new (tokens_of (shown_data shown.now))) }
{
    write_row_with(out, &shown.row, shown.parent_number)
}
