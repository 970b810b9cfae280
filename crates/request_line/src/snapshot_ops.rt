//! What a line asks for: requests on snapshots.
ghost use Rattle.std.specs.Prelude.{◌≡◌, None, IfOk};
ghost use Rattle.meta_types.specs.Faults.{Refuses};
ghost use Rattle.request_line.specs.Table.{command_of, new_snapshot};
ghost use Rattle.request_line.specs.LineMembers.{object_of};

use crate::command::Command;
use crate::members::{Member, label, labels, show, snapshot, text, text_if_any, update};
use crate::op::Op;
use meta_types::{Fault, Request, SnapAdd, SnapCommit};
use std::alloc::Global;

// A new snapshot.
fn new_snapshot<'a>(alloc: Global, members: &[Member<'a, '_>]) -> Result<SnapAdd<'a>, Fault>
    ensures fault { Refuses result None }
    ensures ok { IfOk result (λ command. command ≡ new_snapshot.said (object_of members.now)) }
{
    let snapshot = snapshot(alloc, members, "key")?;
    let parent = text_if_any(alloc, members, "parent")?;
    let labels = labels(alloc, members)?;
    let extra = text_if_any(alloc, members, "data")?;
    let lease = text_if_any(alloc, members, "lease")?;
    Ok(SnapAdd {
        snapshot,
        parent,
        labels,
        lease,
        extra,
    })
}

pub(crate) fn snap_prepare<'a>(
    alloc: Global,
    members: &[Member<'a, '_>],
) -> Result<Command<'a>, Fault>
    ensures fault { Refuses result None }
    ensures ok { IfOk result (λ command. command ≡ command_of Op.SnapPrepare
        (object_of members.now)) }
{
    let request = new_snapshot(alloc, members)?;
    let there = text_if_any(alloc, members, "there")?;
    let answer = text_if_any(alloc, members, "answer")?;
    Ok(show(Request::SnapPrepare(request), answer, there))
}

pub(crate) fn snap_view<'a>(alloc: Global, members: &[Member<'a, '_>]) -> Result<Command<'a>, Fault>
    ensures fault { Refuses result None }
    ensures ok { IfOk result (λ command. command ≡ command_of Op.SnapView (object_of members.now)) }
{
    let request = new_snapshot(alloc, members)?;
    let there = text_if_any(alloc, members, "there")?;
    let answer = text_if_any(alloc, members, "answer")?;
    Ok(show(Request::SnapView(request), answer, there))
}

pub(crate) fn snap_commit<'a>(
    alloc: Global,
    members: &[Member<'a, '_>],
) -> Result<Command<'a>, Fault>
    ensures fault { Refuses result None }
    ensures ok { IfOk result (λ command. command ≡ command_of Op.SnapCommit
        (object_of members.now)) }
{
    let snapshot = snapshot(alloc, members, "key")?;
    let name = text(alloc, members, "name")?;
    let labels = labels(alloc, members)?;
    let extra = text_if_any(alloc, members, "data")?;
    let lease = text_if_any(alloc, members, "lease")?;
    let dropped_by = text_if_any(alloc, members, "drop")?;
    let there = text_if_any(alloc, members, "there")?;
    let answer = text_if_any(alloc, members, "answer")?;
    let request = SnapCommit {
        snapshot,
        name,
        labels,
        lease,
        dropped_by,
        extra,
    };
    Ok(show(Request::SnapCommit(request), answer, there))
}

pub(crate) fn snap_set<'a>(alloc: Global, members: &[Member<'a, '_>]) -> Result<Command<'a>, Fault>
    ensures fault { Refuses result None }
    ensures ok { IfOk result (λ command. command ≡ command_of Op.SnapSet (object_of members.now)) }
{
    let snapshot = snapshot(alloc, members, "key")?;
    let update = update(alloc, members)?;
    let answer = text_if_any(alloc, members, "answer")?;
    Ok(show(Request::SnapSet(snapshot, update), answer, None))
}

pub(crate) fn snap_remove<'a>(
    alloc: Global,
    members: &[Member<'a, '_>],
) -> Result<Command<'a>, Fault>
    ensures fault { Refuses result None }
    ensures ok { IfOk result (λ command. command ≡ command_of Op.SnapRemove
        (object_of members.now)) }
{
    let snapshot = snapshot(alloc, members, "key")?;
    let dropped_by = text_if_any(alloc, members, "drop")?;
    Ok(Command::Request(Request::SnapRemove(snapshot, dropped_by)))
}

pub(crate) fn snap_get<'a>(alloc: Global, members: &[Member<'a, '_>]) -> Result<Command<'a>, Fault>
    ensures fault { Refuses result None }
    ensures ok { IfOk result (λ command. command ≡ command_of Op.SnapGet (object_of members.now)) }
{
    let snapshot = snapshot(alloc, members, "key")?;
    let answer = text_if_any(alloc, members, "answer")?;
    Ok(show(Request::SnapGet(snapshot), answer, None))
}

pub(crate) fn snap_label<'a>(
    alloc: Global,
    members: &[Member<'a, '_>],
) -> Result<Command<'a>, Fault>
    ensures fault { Refuses result None }
    ensures ok { IfOk result (λ command. command ≡ command_of Op.SnapLabel
        (object_of members.now)) }
{
    let snapshot = snapshot(alloc, members, "name")?;
    let label = label(alloc, members)?;
    let answer = text_if_any(alloc, members, "answer")?;
    Ok(show(Request::SnapLabel(snapshot, label), answer, None))
}

pub(crate) fn snap_list<'a>(alloc: Global, members: &[Member<'a, '_>]) -> Result<Command<'a>, Fault>
    ensures fault { Refuses result None }
    ensures ok { IfOk result (λ command. command ≡ command_of Op.SnapList (object_of members.now)) }
{
    let ns = text(alloc, members, "ns")?;
    let snapshotter = text(alloc, members, "snapshotter")?;
    let answer = text_if_any(alloc, members, "answer")?;
    Ok(show(Request::SnapList { ns, snapshotter }, answer, None))
}

pub(crate) fn snap_snapshotters<'a>(
    alloc: Global,
    members: &[Member<'a, '_>],
) -> Result<Command<'a>, Fault>
    ensures fault { Refuses result None }
    ensures ok { IfOk result (λ command. command ≡ command_of Op.SnapSnapshotters (object_of members.now)) }
{
    let ns = text(alloc, members, "ns")?;
    Ok(Command::Request(Request::SnapSnapshotters { ns }))
}
