//! Replies with the rows of a listing, or with all objects of the backend, written in blocks while
//! they are made, as a report is.
ghost use Rattle.std.specs.Prelude.{◌++◌, ◌∷◌, [], ℕ, List, OnOk, OnErr, IfErr};
ghost use Rattle.std.specs.Io.KnownBytes.{Appends};
ghost use Rattle.meta_types.specs.Shown.{shows_rows};
ghost use Rattle.reply_line.specs.Blocks.{WritesFront, Puts, IsBlockFault};
ghost use Rattle.reply_line.specs.Shown.{shows_text, objects_text};

use crate::blocks::{put_list, put_text};
use crate::report_blocks::put_objects;
use crate::writing::write_bytes;
use gc_report::Objects;
use meta_types::{Fault, ShownRow};
use std::alloc::Global;
use std::io::Write;

// The reply with rows, with its line feed.
fn put_rows<W: Write>(
    writer: &mut W,
    alloc: Global,
    block: &mut Vec<u8>,
    rows: &[ShownRow],
) -> Result<(), Fault>
    ensures ok { OnOk result (Puts (W.contents writer.old) block.old.items
        (W.contents writer.new) block.new.items (shows_text (shows_rows rows.now) ++ 10 ∷ [])) }
    ensures err { OnErr result ((rest : List ℕ) × Puts (W.contents writer.old) block.old.items
        (W.contents writer.new) rest (shows_text (shows_rows rows.now) ++ 10 ∷ [])) }
    ensures fault { IfErr result IsBlockFault }
{
    put_text(writer, block, r#"{"ok":true,"rows":"#)?;
    put_list(writer, alloc, block, rows)?;
    put_text(writer, block, "}\n")
}

/// Writes the reply with the rows of a listing, and its line feed, in blocks that are made in this
/// buffer. `room_for_rows` before it asks for all the memory that it can't do without.
pub fn write_rows<W: Write>(
    writer: &mut W,
    alloc: Global,
    block: &mut Vec<u8>,
    rows: &[ShownRow],
) -> Result<(), Fault>
    ensures ok { OnOk result (Appends (W.contents writer.old) (W.contents writer.new)
        (shows_text (shows_rows rows.now) ++ 10 ∷ [])) }
    ensures err { OnErr result ((rest : List ℕ) × WritesFront (W.contents writer.old)
        (W.contents writer.new) rest (shows_text (shows_rows rows.now) ++ 10 ∷ [])) }
    ensures fault { IfErr result IsBlockFault }
{
    block.clear();
    put_rows(writer, alloc, block, rows)?;
    write_bytes(writer, block)
}

// The reply with all objects of the backend, with its line feed.
fn put_object_lists<W: Write>(
    writer: &mut W,
    alloc: Global,
    block: &mut Vec<u8>,
    objects: &Objects,
) -> Result<(), Fault>
    ensures ok { OnOk result (Puts (W.contents writer.old) block.old.items
        (W.contents writer.new) block.new.items (objects_text objects.now ++ 10 ∷ [])) }
    ensures err { OnErr result ((rest : List ℕ) × Puts (W.contents writer.old) block.old.items
        (W.contents writer.new) rest (objects_text objects.now ++ 10 ∷ [])) }
    ensures fault { IfErr result IsBlockFault }
{
    put_text(writer, block, r#"{"backend":"#)?;
    put_objects(writer, alloc, block, objects)?;
    put_text(writer, block, ",\"ok\":true}\n")
}

/// Writes the reply with all objects of the backend, and its line feed, in blocks that are made in
/// this buffer.
pub fn write_objects<W: Write>(
    writer: &mut W,
    alloc: Global,
    block: &mut Vec<u8>,
    objects: &Objects,
) -> Result<(), Fault>
    ensures ok { OnOk result (Appends (W.contents writer.old) (W.contents writer.new)
        (objects_text objects.now ++ 10 ∷ [])) }
    ensures err { OnErr result ((rest : List ℕ) × WritesFront (W.contents writer.old)
        (W.contents writer.new) rest (objects_text objects.now ++ 10 ∷ [])) }
    ensures fault { IfErr result IsBlockFault }
{
    block.clear();
    put_object_lists(writer, alloc, block, objects)?;
    write_bytes(writer, block)
}
