//! Text that is written block by block: what is put behind a block, and values, lists and members.
ghost use Rattle.std.specs.Prelude.{◌≡◌, ◌++◌, [], ℕ, List, OnOk, OnErr, IfErr};
ghost use Rattle.serde_json.specs.Written.{compact_text, comma_if};
ghost use Rattle.gc_report.specs.Reports.{list_data};
ghost use Rattle.reply_line.specs.Blocks.{Puts, IsBlockFault};

use crate::items::PutJson;
use crate::writing::write_bytes;
use gc_report::WriteJson;
use json::Writer;
use meta_types::Fault;
use std::alloc::Global;
use std::io::Write;
use std::mem::replace;

// A block of this many bytes is written before more is put behind it.
pub(crate) const FULL: usize = 32768;

/// Room for a block, in bytes: below `FULL` one more part of a report is put behind it, and the
/// longest has two short names and one of 1,024 bytes, each escaped by another. That it never grows
/// is tested alone.
pub const BLOCK_ROOM: usize = 40960;

// Writes a block that is full.
fn pour<W: Write>(writer: &mut W, block: &mut Vec<u8>) -> Result<(), Fault>
    ensures ok { OnOk result (Puts (W.contents writer.old) block.old.items
        (W.contents writer.new) block.new.items []) }
    ensures err { OnErr result ((rest : List ℕ) × Puts (W.contents writer.old) block.old.items
        (W.contents writer.new) rest []) }
    ensures fault { IfErr result IsBlockFault }
{
    if block.len() < FULL {
        return Ok(());
    }
    write_bytes(writer, block)?;
    block.clear();
    Ok(())
}

/// Puts a text.
pub(crate) fn put_text<W: Write>(
    writer: &mut W,
    block: &mut Vec<u8>,
    text: &str,
) -> Result<(), Fault>
    ensures ok { OnOk result (Puts (W.contents writer.old) block.old.items
        (W.contents writer.new) block.new.items text.now) }
    ensures err { OnErr result ((rest : List ℕ) × Puts (W.contents writer.old) block.old.items
        (W.contents writer.new) rest text.now) }
    ensures fault { IfErr result IsBlockFault }
{
    block.extend_from_slice(text.as_bytes())?;
    pour(writer, block)
}

// A value as its compact text.
fn put_value<W: Write, T: WriteJson>(
    writer: &mut W,
    alloc: Global,
    block: &mut Vec<u8>,
    value: &T,
) -> Result<(), Fault>
    ensures ok { OnOk result (Puts (W.contents writer.old) block.old.items
        (W.contents writer.new) block.new.items (compact_text (T.as_data value.now))) }
    ensures err { OnErr result ((rest : List ℕ) × Puts (W.contents writer.old) block.old.items
        (W.contents writer.new) rest (compact_text (T.as_data value.now))) }
    ensures fault { IfErr result IsBlockFault }
{
    let mut out = Writer::new(replace(block, Vec::new(alloc)));
    value.write(&mut out)?;
    *block = out.into_inner();
    pour(writer, block)
}

// What a list names, straight into the block.
fn put_named<W: Write, T: PutJson>(
    writer: &mut W,
    alloc: Global,
    block: &mut Vec<u8>,
    named: &T,
) -> Result<(), Fault>
    ensures ok { OnOk result (Puts (W.contents writer.old) block.old.items
        (W.contents writer.new) block.new.items (compact_text (T.as_data named.now))) }
    ensures err { OnErr result ((rest : List ℕ) × Puts (W.contents writer.old) block.old.items
        (W.contents writer.new) rest (compact_text (T.as_data named.now))) }
    ensures fault { IfErr result IsBlockFault }
{
    named.put(alloc, block)?;
    pour(writer, block)
}

// An item of a list, with a comma where others stand before it.
fn put_item<W: Write, T: PutJson>(
    writer: &mut W,
    alloc: Global,
    block: &mut Vec<u8>,
    later: bool,
    item: &T,
) -> Result<(), Fault>
    ensures ok { OnOk result (Puts (W.contents writer.old) block.old.items
        (W.contents writer.new) block.new.items
        (comma_if later ++ compact_text (T.as_data item.now))) }
    ensures err { OnErr result ((rest : List ℕ) × Puts (W.contents writer.old) block.old.items
        (W.contents writer.new) rest (comma_if later ++ compact_text (T.as_data item.now))) }
    ensures fault { IfErr result IsBlockFault }
{
    if later {
        block.push(b',')?;
    }
    put_named(writer, alloc, block, item)
}

/// Puts a list, each item in its turn.
pub(crate) fn put_list<W: Write, T: PutJson>(
    writer: &mut W,
    alloc: Global,
    block: &mut Vec<u8>,
    list: &[T],
) -> Result<(), Fault>
    ensures ok { OnOk result (Puts (W.contents writer.old) block.old.items
        (W.contents writer.new) block.new.items (compact_text (list_data T.as_data list.now))) }
    ensures err { OnErr result ((rest : List ℕ) × Puts (W.contents writer.old) block.old.items
        (W.contents writer.new) rest (compact_text (list_data T.as_data list.now))) }
    ensures fault { IfErr result IsBlockFault }
{
    put_text(writer, block, "[")?;
    let mut later = false;
    for item in list {
        put_item(writer, alloc, block, later, item)?;
        later = true;
    }
    put_text(writer, block, "]")
}

/// Puts a value behind the text before it.
pub(crate) fn put_keyed<W: Write, T: WriteJson>(
    writer: &mut W,
    alloc: Global,
    block: &mut Vec<u8>,
    before: &str,
    value: &T,
) -> Result<(), Fault>
    ensures ok { OnOk result (Puts (W.contents writer.old) block.old.items
        (W.contents writer.new) block.new.items
        (before.now ++ compact_text (T.as_data value.now))) }
    ensures err { OnErr result ((rest : List ℕ) × Puts (W.contents writer.old) block.old.items
        (W.contents writer.new) rest (before.now ++ compact_text (T.as_data value.now))) }
    ensures fault { IfErr result IsBlockFault }
{
    put_text(writer, block, before)?;
    put_value(writer, alloc, block, value)
}

/// Puts a list behind the text before it.
pub(crate) fn put_member<W: Write, T: PutJson>(
    writer: &mut W,
    alloc: Global,
    block: &mut Vec<u8>,
    before: &str,
    list: &Vec<T>,
) -> Result<(), Fault>
    ensures ok { OnOk result (Puts (W.contents writer.old) block.old.items
        (W.contents writer.new) block.new.items
        (before.now ++ compact_text (list_data T.as_data list.now.items))) }
    ensures err { OnErr result ((rest : List ℕ) × Puts (W.contents writer.old) block.old.items
        (W.contents writer.new) rest
        (before.now ++ compact_text (list_data T.as_data list.now.items))) }
    ensures fault { IfErr result IsBlockFault }
{
    put_text(writer, block, before)?;
    put_list(writer, alloc, block, list)
}
