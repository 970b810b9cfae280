//! Parts of replies, written as JSON.
ghost use Rattle.std.specs.Prelude.{◌≡◌, ◌++◌, codes, option_map, string_bytes, IfOk, OnOk, IsTrue};
ghost use Rattle.meta_types.specs.Keys.{are_in_order};
ghost use Rattle.meta_types.specs.Labels.{label_key};
ghost use Rattle.meta_types.specs.Text.{texts_of};
ghost use Rattle.gc_report.specs.Reports.{count_data, pair_data, list_data};
ghost use Rattle.gc_report.specs.Writing.{tokens_of, member_tokens, Adds};
ghost use Rattle.reply_line.specs.Replies.{extra_data, labels_data, if_any, kind_text, resource_data};
ghost use Rattle.reply_line.specs.StepWriting.{tokens_if};

use gc_report::{WriteJson, write_member};
use json::Writer;
use meta_types::{Data, Labels, Resource, ShortName, SnapKind};
use std::alloc::{AllocError, Global};

// Keys and values in the order of the keys.
fn write_entries(out: &mut Writer, entries: &[(String, String)]) -> Result<(), AllocError>
    requires { IsTrue (are_in_order label_key (texts_of entries.now)) }
    ensures { OnOk result (Adds out.old out.new (tokens_of (labels_data (texts_of entries.now)))) }
{
    out.begin_object()?;
    for (key, value) in entries {
        out.key(key)?;
        out.string(value)?;
    }
    out.end_object()
}

// The member of an object's labels.
pub(crate) fn write_labels(out: &mut Writer, labels: &Labels) -> Result<(), AllocError>
    ensures { OnOk result (Adds out.old out.new
        (member_tokens (codes "labels") (labels_data labels.now))) }
{
    out.key("labels")?;
    write_entries(out, labels.entries())
}

// The member of an object's data, where it has some.
pub(crate) fn write_extra(out: &mut Writer, extra: &Data) -> Result<(), AllocError>
    ensures { OnOk result (Adds out.old out.new
        (tokens_if (codes "data") (extra_data extra.now))) }
{
    if extra.text() == "" {
        return Ok(());
    }
    out.key("data")?;
    out.string(extra.text())
}

// A member with a number, where there is one.
pub(crate) fn write_count_if(
    out: &mut Writer,
    key: &str,
    count: Option<u64>,
) -> Result<(), AllocError>
    ensures { OnOk result (Adds out.old out.new
        (tokens_if key.now (option_map count_data count))) }
{
    match count {
        Some(count) => write_member(out, key, &count),
        None => Ok(()),
    }
}

// A value, or null.
fn write_or_null<T: WriteJson>(out: &mut Writer, found: &Option<T>) -> Result<(), AllocError>
    ensures { OnOk result (Adds out.old out.new (tokens_of (if_any T.as_data found.now))) }
{
    match found {
        Some(value) => value.write(out),
        None => out.null(),
    }
}

// A member with a value, or with null.
pub(crate) fn write_if_any<T: WriteJson>(
    out: &mut Writer,
    key: &str,
    found: &Option<T>,
) -> Result<(), AllocError>
    ensures { OnOk result (Adds out.old out.new
        (member_tokens key.now (if_any T.as_data found.now))) }
{
    out.key(key)?;
    write_or_null(out, found)
}

// What may be done with a snapshot.
pub(crate) fn kind_text(kind: SnapKind) -> &'static str
    ensures { result.now ≡ kind_text kind }
{
    match kind {
        SnapKind::Active => "active",
        SnapKind::View => "view",
        SnapKind::Committed => "committed",
    }
}

// The type of a snapshot.
pub(crate) fn type_text(alloc: Global, snapshotter: &ShortName) -> Result<String, AllocError>
    ensures { IfOk result (λ s. string_bytes s ≡ codes "snapshots/" ++ snapshotter.now) }
{
    let mut text = String::from_str(alloc, "snapshots/")?;
    text.push_str(snapshotter.text())?;
    Ok(text)
}

fn write_pair(out: &mut Writer, kind: &str, id: &str) -> Result<(), AllocError>
    ensures { OnOk result (Adds out.old out.new (tokens_of (pair_data (kind.now, id.now)))) }
{
    out.begin_array()?;
    out.string(kind)?;
    out.string(id)?;
    out.end_array()
}

fn write_resource(out: &mut Writer, alloc: Global, resource: &Resource) -> Result<(), AllocError>
    ensures { OnOk result (Adds out.old out.new (tokens_of (resource_data resource.now))) }
{
    match resource {
        Resource::Content(digest) => {
            let text = digest.text();
            write_pair(out, "content", text.as_str())
        }
        Resource::Snapshot(snapshotter, name) => {
            let kind = type_text(alloc, snapshotter)?;
            write_pair(out, &kind, name.text())
        }
        Resource::Ingest(name) => write_pair(out, "ingests", name.text()),
    }
}

// Resources, in their order.
pub(crate) fn write_resources(
    out: &mut Writer,
    alloc: Global,
    resources: &[Resource],
) -> Result<(), AllocError>
    ensures { OnOk result (Adds out.old out.new
        (tokens_of (list_data resource_data resources.now))) }
{
    out.begin_array()?;
    for resource in resources {
        write_resource(out, alloc, resource)?;
    }
    out.end_array()
}
