//! Reads the request of one line.
ghost use Rattle.std.specs.Prelude.{◌≡◌, None, Some, IfOk, IfErr, IfSome, List};
ghost use Rattle.std.specs.List.{list_all};
ghost use Rattle.serde_json.specs.View.{view, members_view};
ghost use Rattle.meta_types.specs.Faults.{Refuses};
ghost use Rattle.request_line.specs.Table.{Members, command_of};
ghost use Rattle.request_line.specs.Lines.{command_by, command_from, command_in, are_listed};
ghost use Rattle.request_line.specs.Refusals.{IsUnread};
ghost use Rattle.request_line.specs.LineMembers.{object_of, fits, command_by_all};

use crate::check::{are_of, op_in};
use crate::collection_ops::{gc_plan, gc_run};
use crate::command::Command;
use crate::container_ops::{
    container_add, container_get, container_label, container_list, container_remove, container_set,
};
use crate::content_ops::{
    content_add, content_get, content_label, content_list, content_remove, content_set,
    ingest_abort, ingest_begin, ingest_commit, ingest_get, ingest_list, ingest_open,
};
use crate::image_ops::{
    image_add, image_get, image_label, image_list, image_remove, image_set, image_target,
};
use crate::lease_ops::{
    lease_add, lease_drop, lease_get, lease_hold, lease_label, lease_list, lease_remove,
    lease_resources, lease_set,
};
use crate::members::{LineValue, Member};
use crate::namespace_ops::{ns_add, ns_remove, profile};
use crate::op::Op;
use crate::plain::read_plain;
use crate::question_ops::{gc_explain, gc_impact};
use crate::snapshot_ops::{
    snap_commit, snap_get, snap_label, snap_list, snap_prepare, snap_remove, snap_set,
    snap_snapshotters, snap_view,
};
use json::Scratch;
use meta_types::{Fault, Request};
use serde_json::{Map, Value};
use std::alloc::Global;

// What an op asks for with these members.
fn ask_for<'a>(alloc: Global, op: Op, members: &[Member<'a, '_>]) -> Result<Command<'a>, Fault>
    ensures fault { Refuses result None }
    ensures ok { IfOk result (λ command. command ≡ command_of op (object_of members.now)) }
{
    match op {
        Op::NsAdd => ns_add(alloc, members),
        Op::NsRemove => ns_remove(alloc, members),
        Op::NsList => Ok(Command::Request(Request::NsList)),
        Op::ImageAdd => image_add(alloc, members),
        Op::ImageTarget => image_target(alloc, members),
        Op::ImageSet => image_set(alloc, members),
        Op::ImageRemove => image_remove(alloc, members),
        Op::ImageGet => image_get(alloc, members),
        Op::ImageList => image_list(alloc, members),
        Op::ImageLabel => image_label(alloc, members),
        Op::ContainerAdd => container_add(alloc, members),
        Op::ContainerSet => container_set(alloc, members),
        Op::ContainerRemove => container_remove(alloc, members),
        Op::ContainerGet => container_get(alloc, members),
        Op::ContainerList => container_list(alloc, members),
        Op::ContainerLabel => container_label(alloc, members),
        Op::ContentAdd => content_add(alloc, members),
        Op::ContentSet => content_set(alloc, members),
        Op::ContentRemove => content_remove(alloc, members),
        Op::ContentGet => content_get(alloc, members),
        Op::ContentLabel => content_label(alloc, members),
        Op::ContentList => content_list(alloc, members),
        Op::IngestBegin => ingest_begin(alloc, members),
        Op::IngestOpen => ingest_open(alloc, members),
        Op::IngestCommit => ingest_commit(alloc, members),
        Op::IngestAbort => ingest_abort(alloc, members),
        Op::IngestGet => ingest_get(alloc, members),
        Op::IngestList => ingest_list(alloc, members),
        Op::SnapPrepare => snap_prepare(alloc, members),
        Op::SnapView => snap_view(alloc, members),
        Op::SnapCommit => snap_commit(alloc, members),
        Op::SnapSet => snap_set(alloc, members),
        Op::SnapRemove => snap_remove(alloc, members),
        Op::SnapGet => snap_get(alloc, members),
        Op::SnapLabel => snap_label(alloc, members),
        Op::SnapList => snap_list(alloc, members),
        Op::SnapSnapshotters => snap_snapshotters(alloc, members),
        Op::LeaseAdd => lease_add(alloc, members),
        Op::LeaseSet => lease_set(alloc, members),
        Op::LeaseRemove => lease_remove(alloc, members),
        Op::LeaseGet => lease_get(alloc, members),
        Op::LeaseLabel => lease_label(alloc, members),
        Op::LeaseList => lease_list(alloc, members),
        Op::LeaseHold => lease_hold(alloc, members),
        Op::LeaseDrop => lease_drop(alloc, members),
        Op::LeaseResources => lease_resources(alloc, members),
        Op::Profile => Ok(profile(members)),
        Op::GcRun => gc_run(alloc, members),
        Op::GcPlan => gc_plan(alloc, members),
        Op::GcExplain => gc_explain(alloc, members),
        Op::GcImpact => gc_impact(alloc, members),
        Op::BackList => Ok(Command::BackList),
    }
}

// What members ask for of which each one is the op's.
fn ask<'a>(alloc: Global, members: &[Member<'a, '_>]) -> Result<Option<Command<'a>>, Fault>
    ensures fault { Refuses result None }
    ensures ok { IfOk result (λ found. found ≡ command_by_all members.now) }
{
    let Some(op) = op_in(members) else {
        return Ok(None);
    };
    if !are_of(op, members) {
        return Ok(None);
    }
    let command = ask_for(alloc, op, members)?;
    Ok(Some(command))
}

// What a plain line asks for: nothing also where it isn't plain.
fn ask_plain<'a>(
    alloc: Global,
    line: &'a [u8],
    scratch: &'a mut Scratch,
) -> Result<Option<Command<'a>>, Fault>
    ensures fault { Refuses result None }
    ensures ok { IfOk result (λ found. IfSome found (λ command. command_in line.now
        ≡ Some command)) }
{
    let Ok(text) = std::str::from_utf8(line) else {
        return Ok(None);
    };
    let Some(members) = read_plain(alloc, text, scratch)? else {
        return Ok(None);
    };
    ask(alloc, &members)
}

// The members of an object, in the order of their names.
fn members_of<'a, 'v>(
    alloc: Global,
    members: &'v Map<String, Value>,
) -> Result<Vec<Member<'a, 'v>>, Fault>
    ensures fault { Refuses result None }
    ensures object { IfOk result (λ ms. object_of ms.items ≡ members_view members.now.entries) }
    ensures listed { IfOk result (λ ms. (row : Members) → list_all (fits row) ms.items
        ≡ are_listed row (members_view members.now.entries)) }
{
    let mut listed = Vec::with_capacity(alloc, members.len())?;
    for (name, value) in members.iter() {
        listed.push((name.as_str(), LineValue::Any(value)))?;
    }
    Ok(listed)
}

// What an object asks for.
fn ask_object<'a>(alloc: Global, members: &Map<String, Value>) -> Result<Command<'a>, Fault>
    ensures fault { IfErr result (IsUnread (command_by (members_view members.now.entries))) }
    ensures ok { IfOk result (λ command. command_by (members_view members.now.entries)
        ≡ Some command) }
{
    let listed = members_of(alloc, members)?;
    let found = ask(alloc, &listed)?;
    match found {
        Some(command) => Ok(command),
        None => Err(Fault::BadLine),
    }
}

// What a value asks for.
fn ask_by<'a>(alloc: Global, value: &Value) -> Result<Command<'a>, Fault>
    ensures fault { IfErr result (IsUnread (command_from (view value.now))) }
    ensures ok { IfOk result (λ command. command_from (view value.now) ≡ Some command) }
{
    match value.as_object() {
        Some(members) => ask_object(alloc, members),
        None => Err(Fault::BadLine),
    }
}

// What any line asks for, read as a tree of values.
fn ask_any<'a>(alloc: Global, line: &[u8]) -> Result<Command<'a>, Fault>
    ensures fault { IfErr result (IsUnread (command_in line.now)) }
    ensures ok { IfOk result (λ command. command_in line.now ≡ Some command) }
{
    match Value::from_slice(alloc, line) {
        Ok(value) => ask_by(alloc, &value),
        Err(e) if e.is_memory() => Err(Fault::OutOfMemory),
        Err(_) => Err(Fault::BadLine),
    }
}

/// What a line asks for, in texts that a plain line lends: `BadLine` where it is no request. The
/// scratch is kept from line to line.
pub fn read_line<'a>(
    alloc: Global,
    line: &'a [u8],
    scratch: &'a mut Scratch,
) -> Result<Command<'a>, Fault>
    ensures fault { IfErr result (IsUnread (command_in line.now)) }
    ensures ok { IfOk result (λ command. command_in line.now ≡ Some command) }
{
    if let Some(command) = ask_plain(alloc, line, scratch)? {
        return Ok(command);
    }
    ask_any(alloc, line)
}
