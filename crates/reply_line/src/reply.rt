//! The exact text of each reply: compact JSON, with no line feed.
ghost use Rattle.std.specs.Prelude.{◌≡◌, [], true, IfOk, IsOk, None, string_bytes};
ghost use Rattle.std.specs.Cow.{cow_str_bytes};
ghost use Rattle.json.specs.Print.{print};
ghost use Rattle.meta_types.specs.Faults.{Refuses};
ghost use Rattle.meta_types.specs.Steps.{answered};
ghost use Rattle.reply_line.specs.Fixed.{is_done};
ghost use Rattle.reply_line.specs.Replies.{answer_text};

use crate::constants::done_text;
use crate::parts::write_resources;
use crate::rows::write_row;
use gc_report::{write_list, write_member};
use json::Writer;
use meta_types::{Fault, Holdings, Listing, Reply, ReplyRow};
use std::alloc::{AllocError, Global};
use std::borrow::CowStr;

// What was written, as a text. A writer writes UTF-8 alone, as its contract says, so no byte is
// looked at again.
pub(crate) fn into_text(out: Writer) -> String
    requires { out.before ≡ [] }
    ensures { string_bytes result ≡ print out.tokens }
{
    unsafe { String::from_utf8_unchecked(out.into_inner()) }
}

// Room in which a row without labels is written: a writer asks for more than a text's length, as it
// may have to escape all of it.
const ROW_ROOM: usize = 1024;

fn listing_text(alloc: Global, listing: &Listing) -> Result<String, AllocError>
    ensures { IfOk result (λ text. string_bytes text
        ≡ answer_text (answered (Reply.Names listing.now))) }
{
    let mut out = Writer::new(Vec::new(alloc));
    out.begin_object()?;
    out.key("names")?;
    write_list(&mut out, listing.names())?;
    write_member(&mut out, "ok", &true)?;
    out.end_object()?;
    Ok(into_text(out))
}

fn row_text(alloc: Global, row: &ReplyRow) -> Result<String, AllocError>
    ensures { IfOk result (λ text. string_bytes text
        ≡ answer_text (answered (Reply.Row row.now))) }
{
    let mut out = Writer::new(Vec::with_capacity(alloc, ROW_ROOM)?);
    out.begin_object()?;
    write_member(&mut out, "ok", &true)?;
    out.key("row")?;
    write_row(&mut out, row)?;
    out.end_object()?;
    Ok(into_text(out))
}

fn holdings_text(alloc: Global, holdings: &Holdings) -> Result<String, AllocError>
    ensures { IfOk result (λ text. string_bytes text
        ≡ answer_text (answered (Reply.Resources holdings.now))) }
{
    let mut out = Writer::new(Vec::new(alloc));
    out.begin_object()?;
    write_member(&mut out, "ok", &true)?;
    out.key("resources")?;
    write_resources(&mut out, alloc, holdings.resources())?;
    out.end_object()?;
    Ok(into_text(out))
}

/// The compact JSON of a reply, with no line feed. A reply that names nothing is a constant text of
/// the program, so it takes no memory.
pub fn reply_text(alloc: Global, reply: &Reply) -> Result<CowStr<'static, Global>, Fault>
    ensures fault { Refuses result None }
    ensures ok { IfOk result (λ text. cow_str_bytes text ≡ answer_text (answered reply.now)) }
    ensures fixed { is_done reply.now ≡ true → IsOk result }
{
    match reply {
        Reply::Done => Ok(CowStr::Borrowed(done_text())),
        Reply::Names(listing) => Ok(CowStr::Owned(listing_text(alloc, listing)?)),
        Reply::Row(row) => Ok(CowStr::Owned(row_text(alloc, row)?)),
        Reply::Resources(holdings) => Ok(CowStr::Owned(holdings_text(alloc, holdings)?)),
    }
}
