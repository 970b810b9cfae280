//! The exact text of an explanation.
ghost use Rattle.std.specs.Prelude.{◌≡◌, IfOk, OnOk, None, codes, option_map, string_bytes};
ghost use Rattle.serde_json.specs.Data.{string};
ghost use Rattle.meta_types.specs.Faults.{Refuses};
ghost use Rattle.gc_report.specs.Reports.{list_data};
ghost use Rattle.gc_report.specs.Writing.{tokens_of, member_tokens, Adds};
ghost use Rattle.reply_line.specs.Explained.{by_text, label_in, mode_text, mode_in, object_name, object_type, step_data, told_of, told_text};
ghost use Rattle.reply_line.specs.StepWriting.{tokens_if};

use crate::parts::type_text;
use crate::reply::into_text;
use gc_report::write_member;
use json::Writer;
use meta_types::{By, Explanation, Fault, Mode, Object, PathStep, RawText, Resource};
use std::alloc::{AllocError, Global};

// By what a thing stands on a path, in a word.
fn by_text(by: &By) -> &'static str
    ensures { result.now ≡ by_text by.now }
{
    match by {
        By::Root => "root",
        By::Ended => "ended",
        By::Target => "target",
        By::Snapshot => "snapshot",
        By::Resource => "resource",
        By::Expected => "expected",
        By::Parent => "parent",
        By::Label(_) => "label",
    }
}

fn write_text(out: &mut Writer, key: &str, text: &str) -> Result<(), AllocError>
    ensures { OnOk result (Adds out.old out.new (member_tokens key.now (string text.now))) }
{
    out.key(key)?;
    out.string(text)
}

// The expiry label of a root, where it has one.
fn write_expire(out: &mut Writer, expire: &Option<RawText<'static>>) -> Result<(), AllocError>
    ensures { OnOk result (Adds out.old out.new
        (tokens_if (codes "expire") (option_map string expire.now))) }
{
    match expire {
        Some(end) => write_text(out, "expire", end.text()),
        None => Ok(()),
    }
}

// The key of the label that references the thing, where one does.
fn write_label(out: &mut Writer, by: &By) -> Result<(), AllocError>
    ensures { OnOk result (Adds out.old out.new (tokens_if (codes "label") (label_in by.now))) }
{
    match by {
        By::Label(key) => write_text(out, "label", key.text()),
        By::Root => Ok(()),
        By::Ended => Ok(()),
        By::Target => Ok(()),
        By::Snapshot => Ok(()),
        By::Resource => Ok(()),
        By::Expected => Ok(()),
        By::Parent => Ok(()),
    }
}

fn mode_text(mode: Mode) -> &'static str
    ensures { result.now ≡ mode_text mode }
{
    match mode {
        Mode::Full => "full",
        Mode::Flat => "flat",
    }
}

// The mode of content and of snapshots.
fn write_mode(out: &mut Writer, mode: &Option<Mode>) -> Result<(), AllocError>
    ensures { OnOk result (Adds out.old out.new (tokens_if (codes "mode") (mode_in mode.now))) }
{
    match mode {
        Some(mode) => write_text(out, "mode", mode_text(*mode)),
        None => Ok(()),
    }
}

fn write_name(out: &mut Writer, object: &Object) -> Result<(), AllocError>
    ensures { OnOk result (Adds out.old out.new
        (member_tokens (codes "name") (string (object_name object.now)))) }
{
    match object {
        Object::Image(name) => write_text(out, "name", name.text()),
        Object::Container(name) => write_text(out, "name", name.text()),
        Object::Lease(id) => write_text(out, "name", id.text()),
        Object::Held(Resource::Content(digest)) => {
            let text = digest.text();
            write_text(out, "name", text.as_str())
        }
        Object::Held(Resource::Snapshot(_, name)) => write_text(out, "name", name.text()),
        Object::Held(Resource::Ingest(name)) => write_text(out, "name", name.text()),
    }
}

fn write_type(out: &mut Writer, alloc: Global, object: &Object) -> Result<(), AllocError>
    ensures { OnOk result (Adds out.old out.new
        (member_tokens (codes "type") (string (object_type object.now)))) }
{
    match object {
        Object::Image(_) => write_text(out, "type", "images"),
        Object::Container(_) => write_text(out, "type", "containers"),
        Object::Lease(_) => write_text(out, "type", "leases"),
        Object::Held(Resource::Content(_)) => write_text(out, "type", "content"),
        Object::Held(Resource::Snapshot(snapshotter, _)) => {
            let kind = type_text(alloc, snapshotter)?;
            write_text(out, "type", &kind)
        }
        Object::Held(Resource::Ingest(_)) => write_text(out, "type", "ingests"),
    }
}

// A thing of a path.
fn write_step(out: &mut Writer, alloc: Global, step: &PathStep) -> Result<(), AllocError>
    ensures { OnOk result (Adds out.old out.new (tokens_of (step_data step.now))) }
{
    out.begin_object()?;
    write_text(out, "by", by_text(&step.by))?;
    write_expire(out, &step.expire)?;
    write_label(out, &step.by)?;
    write_mode(out, &step.mode)?;
    write_name(out, &step.object)?;
    write_type(out, alloc, &step.object)?;
    out.end_object()
}

// The things of a path, from the root on.
fn write_path(out: &mut Writer, alloc: Global, path: &[PathStep]) -> Result<(), AllocError>
    ensures { OnOk result (Adds out.old out.new (tokens_of (list_data step_data path.now))) }
{
    out.begin_array()?;
    for step in path {
        write_step(out, alloc, step)?;
    }
    out.end_array()
}

fn printed(alloc: Global, explanation: &Explanation) -> Result<String, AllocError>
    ensures { IfOk result (λ text. string_bytes text ≡ told_text (told_of explanation.now)) }
{
    let mut out = Writer::new(Vec::new(alloc));
    out.begin_object()?;
    write_member(&mut out, "kept", &explanation.kept)?;
    write_member(&mut out, "ok", &true)?;
    out.key("path")?;
    write_path(&mut out, alloc, &explanation.path)?;
    out.end_object()?;
    Ok(into_text(out))
}

/// The compact JSON of an explanation, with no line feed.
pub fn explanation_text(alloc: Global, explanation: &Explanation) -> Result<String, Fault>
    ensures fault { Refuses result None }
    ensures ok { IfOk result (λ text. string_bytes text ≡ told_text (told_of explanation.now)) }
{
    Ok(printed(alloc, explanation)?)
}
