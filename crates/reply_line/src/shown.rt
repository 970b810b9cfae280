//! The exact text of a reply that shows a row, or that what a line makes was there already.
ghost use Rattle.std.specs.Prelude.{◌≡◌, codes, IfOk, OnOk, None, string_bytes};
ghost use Rattle.meta_types.specs.Faults.{Refuses};
ghost use Rattle.meta_types.specs.Shown.{shows_row, was_there};
ghost use Rattle.gc_report.specs.Writing.{Adds};
ghost use Rattle.reply_line.specs.Shown.{shows_text, there_in};
ghost use Rattle.reply_line.specs.StepWriting.{tokens_if};

use crate::reply::into_text;
use crate::rows::write_shown;
use gc_report::write_member;
use json::Writer;
use meta_types::{Fault, ShownRow};
use std::alloc::{AllocError, Global};

// The member that says that it was there, where it was.
fn write_there(out: &mut Writer, there: bool) -> Result<(), AllocError>
    ensures { OnOk result (Adds out.old out.new (tokens_if (codes "there") (there_in there))) }
{
    if there {
        write_member(out, "there", &true)
    } else {
        Ok(())
    }
}

fn row_text(alloc: Global, row: &ShownRow, there: bool) -> Result<String, AllocError>
    ensures { IfOk result (λ text. string_bytes text ≡ shows_text (shows_row there row.now)) }
{
    let mut out = Writer::new(Vec::new(alloc));
    out.begin_object()?;
    write_member(&mut out, "ok", &true)?;
    out.key("row")?;
    write_shown(&mut out, row)?;
    write_there(&mut out, there)?;
    out.end_object()?;
    Ok(into_text(out))
}

/// The compact JSON of a reply with a row, and with whether it was there already; with no line feed.
pub fn shown_row_text(alloc: Global, row: &ShownRow, there: bool) -> Result<String, Fault>
    ensures fault { Refuses result None }
    ensures ok { IfOk result (λ text. string_bytes text ≡ shows_text (shows_row there row.now)) }
{
    Ok(row_text(alloc, row, there)?)
}

/// The compact JSON of a reply that says that what the line makes was there already.
pub fn there_text() -> &'static str
    ensures { result.now ≡ shows_text was_there }
{
    r#"{"ok":true,"there":true}"#
}
