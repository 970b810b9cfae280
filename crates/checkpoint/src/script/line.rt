//! Lines of a checkpoint: requests, and numbers.
ghost use Rattle.std.specs.Prelude.{IfErr};
ghost use Rattle.meta_types.specs.declared.fault.Fault.{Fault};
ghost use Rattle.checkpoint.specs.Writing.{Stops};

use json::Writer;
use meta_types::{Fault, LINE_LIMIT, Labels};
use std::alloc::{AllocError, Global};

/// Takes the lines of a checkpoint.
pub trait Lines {
    /// The faults for which a line is refused.
    ghost refuses: { Fault → Type 0 };

    /// Takes the next line, which comes without its line feed.
    fn put(&mut self, line: &[u8]) -> Result<(), Fault>
        ensures { IfErr result refuses };
}

/// A row: the request that adds it, but for its labels, and the one that puts a label on it.
#[derive(Clone, Copy)]
pub(crate) struct RowLine<'a> {
    pub(crate) op: &'a str,
    pub(crate) members: &'a [(&'a str, &'a str)],
    pub(crate) label_op: &'a str,
    pub(crate) naming: &'a [(&'a str, &'a str)],
}

fn write_member(out: &mut Writer, key: &str, text: &str) -> Result<(), AllocError> {
    out.key(key)?;
    out.string(text)
}

// A member whose text is empty is left out: no name is empty.
fn write_members(out: &mut Writer, members: &[(&str, &str)]) -> Result<(), AllocError> {
    for member in members {
        if member.1 != "" {
            write_member(out, member.0, member.1)?;
        }
    }
    Ok(())
}

fn begin(alloc: Global, op: &str, members: &[(&str, &str)]) -> Result<Writer, AllocError> {
    let mut out = Writer::new(Vec::new(alloc));
    out.begin_object()?;
    write_member(&mut out, "op", op)?;
    write_members(&mut out, members)?;
    Ok(out)
}

fn end(mut out: Writer) -> Result<Vec<u8>, AllocError> {
    out.end_object()?;
    Ok(out.into_inner())
}

fn write_labels(out: &mut Writer, labels: &Labels) -> Result<(), AllocError> {
    out.key("labels")?;
    out.begin_object()?;
    for (key, value) in labels.entries() {
        write_member(out, key, value)?;
    }
    out.end_object()
}

fn plain_line(alloc: Global, op: &str, members: &[(&str, &str)]) -> Result<Vec<u8>, AllocError> {
    let out = begin(alloc, op, members)?;
    end(out)
}

fn row_line(alloc: Global, row: &RowLine<'_>, labels: &Labels) -> Result<Vec<u8>, AllocError> {
    let mut out = begin(alloc, row.op, row.members)?;
    if !labels.is_empty() {
        write_labels(&mut out, labels)?;
    }
    end(out)
}

fn label_line(
    alloc: Global,
    row: &RowLine<'_>,
    key: &str,
    value: &str,
) -> Result<Vec<u8>, AllocError> {
    let mut out = begin(alloc, row.label_op, row.naming)?;
    write_member(&mut out, "key", key)?;
    write_member(&mut out, "value", value)?;
    end(out)
}

fn profile_line(alloc: Global, profile: u8) -> Result<Vec<u8>, AllocError> {
    let mut out = begin(alloc, "profile", &[])?;
    out.key("v")?;
    out.u64(profile as u64)?;
    end(out)
}

/// Puts a request without labels.
pub(crate) fn put_plain<L: Lines>(
    lines: &mut L,
    alloc: Global,
    op: &str,
    members: &[(&str, &str)],
) -> Result<(), Fault>
    ensures { IfErr result (Stops L.refuses) }
{
    let line = plain_line(alloc, op, members)?;
    lines.put(&line)?;
    Ok(())
}

/// Puts the data of a row, where it has some, in a line of its own: beside a row's labels it could
/// make a line too long.
pub(crate) fn put_data<L: Lines>(
    lines: &mut L,
    alloc: Global,
    op: &str,
    naming: &[(&str, &str)],
    extra: &str,
) -> Result<(), Fault>
    ensures { IfErr result (Stops L.refuses) }
{
    if extra == "" {
        return Ok(());
    }
    let mut members = Vec::new(alloc);
    for member in naming {
        members.push(*member)?;
    }
    members.push(("data", extra))?;
    put_plain(lines, alloc, op, &members)
}

/// Puts the choice of a profile.
pub(crate) fn put_profile<L: Lines>(lines: &mut L, alloc: Global, profile: u8) -> Result<(), Fault>
    ensures { IfErr result (Stops L.refuses) }
{
    let line = profile_line(alloc, profile)?;
    lines.put(&line)?;
    Ok(())
}

/// Puts a line that raises the next number to this one.
pub(crate) fn put_number<L: Lines>(lines: &mut L, alloc: Global, number: u64) -> Result<(), Fault>
    ensures { IfErr result (Stops L.refuses) }
{
    let line = format!(in alloc; "number {number}")?;
    lines.put(line.as_bytes())?;
    Ok(())
}

fn put_label<L: Lines>(
    lines: &mut L,
    alloc: Global,
    row: &RowLine<'_>,
    key: &str,
    value: &str,
) -> Result<(), Fault>
    ensures { IfErr result (Stops L.refuses) }
{
    let line = label_line(alloc, row, key, value)?;
    lines.put(&line)?;
    Ok(())
}

fn put_labels<L: Lines>(
    lines: &mut L,
    alloc: Global,
    row: &RowLine<'_>,
    labels: &Labels,
) -> Result<(), Fault>
    ensures { IfErr result (Stops L.refuses) }
{
    for (key, value) in labels.entries() {
        put_label(lines, alloc, row, key, value)?;
    }
    Ok(())
}

/// Puts a row with its labels. Where they make the line longer than one may be, each has a line of
/// its own.
pub(crate) fn put_row<L: Lines>(
    lines: &mut L,
    alloc: Global,
    row: &RowLine<'_>,
    labels: &Labels,
) -> Result<(), Fault>
    ensures { IfErr result (Stops L.refuses) }
{
    let line = row_line(alloc, row, labels)?;
    if line.len() <= LINE_LIMIT {
        lines.put(&line)?;
        return Ok(());
    }
    put_plain(lines, alloc, row.op, row.members)?;
    put_labels(lines, alloc, row, labels)
}
