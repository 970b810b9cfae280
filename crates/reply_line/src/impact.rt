//! The exact text of what would go without a row.
ghost use Rattle.std.specs.Prelude.{◌≡◌, IfOk, None, string_bytes};
ghost use Rattle.meta_types.specs.Faults.{Refuses};
ghost use Rattle.reply_line.specs.Foreseen.{impact_text};

use crate::reply::into_text;
use gc_report::{Impact, write_member};
use json::Writer;
use meta_types::Fault;
use std::alloc::{AllocError, Global};

fn printed(alloc: Global, impact: &Impact) -> Result<String, AllocError>
    ensures { IfOk result (λ text. string_bytes text ≡ impact_text impact.now) }
{
    let mut out = Writer::new(Vec::new(alloc));
    out.begin_object()?;
    write_member(&mut out, "impact", impact)?;
    write_member(&mut out, "ok", &true)?;
    out.end_object()?;
    Ok(into_text(out))
}

/// The compact JSON of what would go without a row, with no line feed.
pub fn impact_text(alloc: Global, impact: &Impact) -> Result<String, Fault>
    ensures fault { Refuses result None }
    ensures ok { IfOk result (λ text. string_bytes text ≡ impact_text impact.now) }
{
    Ok(printed(alloc, impact)?)
}
