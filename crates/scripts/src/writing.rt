//! Writes replies: a writer that fails holds a beginning of what was meant.
ghost use Rattle.std.specs.Prelude.{◌≡◌, ℕ, List, OnOk, OnErr, IfErr};
ghost use Rattle.std.specs.Io.KnownBytes.{Appends};
ghost use Rattle.reply_line.specs.Blocks.{WritesFront};
ghost use Rattle.scripts.specs.Lines.{with_line_feed};
ghost use Rattle.scripts.specs.ReplyTexts.{reply_text_bytes};
ghost use Rattle.scripts.specs.Exchanging.{IsLateFault};

use crate::reply_text::ReplyText;
use meta_types::Fault;
use reply_line::{write_bytes, write_objects, write_report, write_rows};
use std::alloc::Global;
use std::io::Write;

// Writes a text and a line feed.
fn write_line<W: Write>(writer: &mut W, text: &str) -> Result<(), Fault>
    ensures ok { OnOk result (Appends (W.contents writer.old) (W.contents writer.new)
        (with_line_feed text.now)) }
    ensures err { OnErr result ((rest : List ℕ)
        × WritesFront (W.contents writer.old) (W.contents writer.new) rest
        (with_line_feed text.now)) }
    ensures fault { IfErr result (λ fault. fault ≡ Fault.WriteFailed) }
{
    write_bytes(writer, text.as_bytes())?;
    write_bytes(writer, b"\n")
}

/// Writes what is said for a line, and a line feed. The text of a report, of rows or of objects is
/// made in the block.
pub fn write_reply_text<W: Write>(
    writer: &mut W,
    alloc: Global,
    block: &mut Vec<u8>,
    said: &ReplyText,
) -> Result<(), Fault>
    ensures ok { OnOk result (Appends (W.contents writer.old) (W.contents writer.new)
        (with_line_feed (reply_text_bytes said.now))) }
    ensures err { OnErr result ((rest : List ℕ)
        × WritesFront (W.contents writer.old) (W.contents writer.new) rest
        (with_line_feed (reply_text_bytes said.now))) }
    ensures fault { IfErr result IsLateFault }
{
    match said {
        ReplyText::Text(text) => write_line(writer, text.as_str()),
        ReplyText::Report(report) => write_report(writer, alloc, block, report.as_ref()),
        ReplyText::Rows(rows) => write_rows(writer, alloc, block, rows),
        ReplyText::Objects(lists) => write_objects(writer, alloc, block, lists.as_ref()),
    }
}
