//! What lists name, put into a block. Names go straight into it: no writer of JSON is opened, so
//! nothing is cleared ahead of the text.
ghost use Rattle.std.specs.Prelude.{◌≡◌, ◌++◌, ◌∷◌, [], IfOk, OnOk};
ghost use Rattle.std.specs.List.{list_all};
ghost use Rattle.json.specs.Print.{quoted};
ghost use Rattle.json.specs.Run.{is_plain};
ghost use Rattle.serde_json.specs.Data.{Data, string, array, item, no_items};
ghost use Rattle.serde_json.specs.Written.{compact_text};
ghost use Rattle.meta_types.specs.Text.{IsDigest, IsShortName};
ghost use Rattle.gc_report.specs.Reports.{count_data};
ghost use Rattle.reply_line.specs.Shown.{shown_data};

use crate::rows::write_shown;
use itoa::Buffer;
use json::Writer;
use meta_types::{Digest, Name, ShortName, ShownRow};
use std::alloc::{AllocError, Global};
use std::mem::replace;

// Room for the text of a row with few labels and little data. A longer one takes more.
const TEXT_ROOM: usize = 1024;

/// What is put as its compact text.
pub(crate) trait PutJson {
    ghost as_data: { Self → Data };

    /// Puts it behind what the block holds.
    fn put(&self, alloc: Global, block: &mut Vec<u8>) -> Result<(), AllocError>
        ensures { OnOk result (block.new.items
            ≡ block.old.items ++ compact_text (as_data self.now)) };
}

// Whether a byte stands in a string as it is.
pub(crate) fn is_plain(byte: u8) -> bool
    ensures { result ≡ is_plain byte }
{
    !(byte == b'"' || byte == b'\\' || byte < 32)
}

// Whether all of them do. None is passed over, so that a processor takes many at a time.
fn are_plain(text: &[u8]) -> bool
    ensures { result ≡ list_all is_plain text.now }
{
    let mut plain = true;
    for byte in text {
        plain = plain & is_plain(*byte);
    }
    plain
}

// Puts a text in quotes, as it is.
fn put_plain(block: &mut Vec<u8>, text: &[u8]) -> Result<(), AllocError>
    ensures { OnOk result (block.new.items ≡ block.old.items ++ 34 ∷ (text.now ++ 34 ∷ [])) }
{
    block.push(b'"')?;
    block.extend_from_slice(text)?;
    block.push(b'"')?;
    Ok(())
}

// Puts a text with its escapes.
fn put_escaped(alloc: Global, block: &mut Vec<u8>, text: &str) -> Result<(), AllocError>
    ensures { OnOk result (block.new.items ≡ block.old.items ++ quoted text.now) }
{
    let mut out = Writer::new(replace(block, Vec::new(alloc)));
    out.string(text)?;
    *block = out.into_inner();
    Ok(())
}

// Puts a text as a string.
#[tactic(auto, using(crate::proofs::Plain::escape_plain))]
fn put_string(alloc: Global, block: &mut Vec<u8>, text: &str) -> Result<(), AllocError>
    ensures { OnOk result (block.new.items ≡ block.old.items ++ quoted text.now) }
{
    if are_plain(text.as_bytes()) {
        put_plain(block, text.as_bytes())
    } else {
        put_escaped(alloc, block, text)
    }
}

// Puts a digest as a string, without a look for what is escaped.
fn put_digest(block: &mut Vec<u8>, text: &str) -> Result<(), AllocError>
    requires { IsDigest text.now }
    ensures { OnOk result (block.new.items ≡ block.old.items ++ quoted text.now) }
{
    put_plain(block, text.as_bytes())
}

// Puts a short name as a string, without a look for what is escaped.
fn put_short_name(block: &mut Vec<u8>, text: &str) -> Result<(), AllocError>
    requires { IsShortName text.now }
    ensures { OnOk result (block.new.items ≡ block.old.items ++ quoted text.now) }
{
    put_plain(block, text.as_bytes())
}

impl PutJson for u64 {
    ghost as_data = { count_data };

    fn put(&self, _alloc: Global, block: &mut Vec<u8>) -> Result<(), AllocError> {
        let mut buffer = Buffer::new();
        block.extend_from_slice(buffer.format(*self).as_bytes())
    }
}

impl PutJson for Digest {
    ghost as_data = { string };

    fn put(&self, _alloc: Global, block: &mut Vec<u8>) -> Result<(), AllocError> {
        let text = self.text();
        put_digest(block, text.as_str())
    }
}

impl PutJson for Name {
    ghost as_data = { string };

    fn put(&self, alloc: Global, block: &mut Vec<u8>) -> Result<(), AllocError> {
        put_string(alloc, block, self.text())
    }
}

impl PutJson for ShortName {
    ghost as_data = { string };

    fn put(&self, _alloc: Global, block: &mut Vec<u8>) -> Result<(), AllocError> {
        put_short_name(block, self.text())
    }
}

impl<A: PutJson, B: PutJson> PutJson for (A, B) {
    ghost as_data = { λ p. array (item (A.as_data p.0) (item (B.as_data p.1) no_items)) };

    fn put(&self, alloc: Global, block: &mut Vec<u8>) -> Result<(), AllocError> {
        block.push(b'[')?;
        self.0.put(alloc, block)?;
        block.push(b',')?;
        self.1.put(alloc, block)?;
        block.push(b']')?;
        Ok(())
    }
}

impl<A: PutJson, B: PutJson, C: PutJson> PutJson for (A, B, C) {
    ghost as_data = { λ t. array (item (A.as_data t.0) (item (B.as_data t.1) (item (C.as_data t.2) no_items))) };

    fn put(&self, alloc: Global, block: &mut Vec<u8>) -> Result<(), AllocError> {
        block.push(b'[')?;
        self.0.put(alloc, block)?;
        block.push(b',')?;
        self.1.put(alloc, block)?;
        block.push(b',')?;
        self.2.put(alloc, block)?;
        block.push(b']')?;
        Ok(())
    }
}

// A row as a text of its own.
fn shown_text(alloc: Global, row: &ShownRow) -> Result<Vec<u8>, AllocError>
    ensures { IfOk result (λ text. text.items ≡ compact_text (shown_data row.now)) }
{
    let mut out = Writer::new(Vec::with_capacity(alloc, TEXT_ROOM)?);
    write_shown(&mut out, row)?;
    Ok(out.into_inner())
}

impl PutJson for ShownRow {
    ghost as_data = { shown_data };

    // A writer clears as much room ahead as stands before it, up to 16 KiB, and gives it up byte by
    // byte. So one is opened over the block only where memory refuses the row a text of its own.
    fn put(&self, alloc: Global, block: &mut Vec<u8>) -> Result<(), AllocError> {
        if let Ok(text) = shown_text(alloc, self) {
            block.extend_from_slice(&text)?;
            return Ok(());
        }
        let mut out = Writer::new(replace(block, Vec::new(alloc)));
        write_shown(&mut out, self)?;
        *block = out.into_inner();
        Ok(())
    }
}
