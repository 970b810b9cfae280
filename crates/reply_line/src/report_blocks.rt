//! The reply with a report, written in blocks while it is made. So its text stands nowhere whole,
//! and a long report takes no more memory than a short one.
ghost use Rattle.std.specs.Prelude.{◌++◌, ◌∷◌, [], ℕ, List, OnOk, OnErr, IfErr};
ghost use Rattle.std.specs.Io.KnownBytes.{Appends};
ghost use Rattle.serde_json.specs.Written.{compact_text};
ghost use Rattle.gc_report.specs.Reports.{objects_data, removed_data, report_data};
ghost use Rattle.meta_types.specs.Steps.{reported};
ghost use Rattle.reply_line.specs.Blocks.{WritesFront, Puts, IsBlockFault};
ghost use Rattle.reply_line.specs.ReportTexts.{images_text, front_text, end_text};
ghost use Rattle.reply_line.specs.Replies.{answer_text};

use crate::blocks::{put_keyed, put_member, put_text};
use crate::writing::write_bytes;
use gc_report::{Objects, Removed, Report};
use meta_types::{Fault, Name, ShortName};
use std::alloc::Global;
use std::io::Write;

/// Puts lists of backend objects.
pub(crate) fn put_objects<W: Write>(
    writer: &mut W,
    alloc: Global,
    block: &mut Vec<u8>,
    objects: &Objects,
) -> Result<(), Fault>
    ensures ok { OnOk result (Puts (W.contents writer.old) block.old.items
        (W.contents writer.new) block.new.items (compact_text (objects_data objects.now))) }
    ensures err { OnErr result ((rest : List ℕ) × Puts (W.contents writer.old) block.old.items
        (W.contents writer.new) rest (compact_text (objects_data objects.now))) }
    ensures fault { IfErr result IsBlockFault }
{
    put_member(writer, alloc, block, r#"{"blobs":"#, &objects.blobs)?;
    put_member(writer, alloc, block, r#","ingests":"#, &objects.ingests)?;
    put_member(writer, alloc, block, r#","snapshots":"#, &objects.snapshots)?;
    put_text(writer, block, "}")
}

// Images behind the text before them, where they may expire.
fn put_images<W: Write>(
    writer: &mut W,
    alloc: Global,
    block: &mut Vec<u8>,
    with_images: bool,
    before: &str,
    images: &Vec<(ShortName, Name)>,
) -> Result<(), Fault>
    ensures ok { OnOk result (Puts (W.contents writer.old) block.old.items
        (W.contents writer.new) block.new.items (images_text with_images before.now images.now.items)) }
    ensures err { OnErr result ((rest : List ℕ) × Puts (W.contents writer.old) block.old.items
        (W.contents writer.new) rest (images_text with_images before.now images.now.items)) }
    ensures fault { IfErr result IsBlockFault }
{
    if with_images {
        put_member(writer, alloc, block, before, images)
    } else {
        Ok(())
    }
}

fn put_removed<W: Write>(
    writer: &mut W,
    alloc: Global,
    block: &mut Vec<u8>,
    with_images: bool,
    removed: &Removed,
) -> Result<(), Fault>
    ensures ok { OnOk result (Puts (W.contents writer.old) block.old.items
        (W.contents writer.new) block.new.items (compact_text (removed_data with_images removed.now))) }
    ensures err { OnErr result ((rest : List ℕ) × Puts (W.contents writer.old) block.old.items
        (W.contents writer.new) rest (compact_text (removed_data with_images removed.now))) }
    ensures fault { IfErr result IsBlockFault }
{
    put_member(writer, alloc, block, r#"{"content":"#, &removed.content)?;
    put_images(
        writer,
        alloc,
        block,
        with_images,
        r#","images":"#,
        &removed.images,
    )?;
    put_member(writer, alloc, block, r#","ingests":"#, &removed.ingests)?;
    put_member(writer, alloc, block, r#","leases":"#, &removed.leases)?;
    put_member(writer, alloc, block, r#","snapshots":"#, &removed.snapshots)?;
    put_text(writer, block, "}")
}

// The members of a report before the list of ignored images.
fn put_front<W: Write>(
    writer: &mut W,
    alloc: Global,
    block: &mut Vec<u8>,
    report: &Report,
) -> Result<(), Fault>
    ensures ok { OnOk result (Puts (W.contents writer.old) block.old.items
        (W.contents writer.new) block.new.items (front_text report.now)) }
    ensures err { OnErr result ((rest : List ℕ) × Puts (W.contents writer.old) block.old.items
        (W.contents writer.new) rest (front_text report.now)) }
    ensures fault { IfErr result IsBlockFault }
{
    put_text(writer, block, r#"{"backend":"#)?;
    put_objects(writer, alloc, block, &report.backend)?;
    put_keyed(writer, alloc, block, r#","dry":"#, &report.dry)?;
    put_text(writer, block, r#","failed":"#)?;
    put_objects(writer, alloc, block, &report.failed)?;
    put_member(writer, alloc, block, r#","ignored":"#, &report.ignored)
}

// The members from there on.
fn put_end<W: Write>(
    writer: &mut W,
    alloc: Global,
    block: &mut Vec<u8>,
    report: &Report,
) -> Result<(), Fault>
    ensures ok { OnOk result (Puts (W.contents writer.old) block.old.items
        (W.contents writer.new) block.new.items (end_text report.now)) }
    ensures err { OnErr result ((rest : List ℕ) × Puts (W.contents writer.old) block.old.items
        (W.contents writer.new) rest (end_text report.now)) }
    ensures fault { IfErr result IsBlockFault }
{
    let with_images = report.profile == 2;
    let images = &report.ignored_images;
    put_images(
        writer,
        alloc,
        block,
        with_images,
        r#","ignored_images":"#,
        images,
    )?;
    put_keyed(writer, alloc, block, r#","kept":"#, &report.kept)?;
    put_text(writer, block, r#","removed":"#)?;
    put_removed(writer, alloc, block, with_images, &report.removed)?;
    put_keyed(writer, alloc, block, r#","scanned":"#, &report.scanned)?;
    put_text(writer, block, "}")
}

fn put_report<W: Write>(
    writer: &mut W,
    alloc: Global,
    block: &mut Vec<u8>,
    report: &Report,
) -> Result<(), Fault>
    ensures ok { OnOk result (Puts (W.contents writer.old) block.old.items
        (W.contents writer.new) block.new.items (compact_text (report_data report.now))) }
    ensures err { OnErr result ((rest : List ℕ) × Puts (W.contents writer.old) block.old.items
        (W.contents writer.new) rest (compact_text (report_data report.now))) }
    ensures fault { IfErr result IsBlockFault }
{
    put_front(writer, alloc, block, report)?;
    put_end(writer, alloc, block, report)
}

// The reply, with its line feed.
fn put_reply<W: Write>(
    writer: &mut W,
    alloc: Global,
    block: &mut Vec<u8>,
    report: &Report,
) -> Result<(), Fault>
    ensures ok { OnOk result (Puts (W.contents writer.old) block.old.items
        (W.contents writer.new) block.new.items (answer_text (reported report.now) ++ 10 ∷ [])) }
    ensures err { OnErr result ((rest : List ℕ) × Puts (W.contents writer.old) block.old.items
        (W.contents writer.new) rest (answer_text (reported report.now) ++ 10 ∷ [])) }
    ensures fault { IfErr result IsBlockFault }
{
    put_text(writer, block, r#"{"ok":true,"report":"#)?;
    put_report(writer, alloc, block, report)?;
    put_text(writer, block, "}\n")
}

/// Writes the reply with a report, and its line feed, in blocks that are made in this buffer.
pub fn write_report<W: Write>(
    writer: &mut W,
    alloc: Global,
    block: &mut Vec<u8>,
    report: &Report,
) -> Result<(), Fault>
    ensures ok { OnOk result (Appends (W.contents writer.old) (W.contents writer.new)
        (answer_text (reported report.now) ++ 10 ∷ [])) }
    ensures err { OnErr result ((rest : List ℕ) × WritesFront (W.contents writer.old)
        (W.contents writer.new) rest (answer_text (reported report.now) ++ 10 ∷ [])) }
    ensures fault { IfErr result IsBlockFault }
{
    block.clear();
    put_reply(writer, alloc, block, report)?;
    write_bytes(writer, block)
}
