//! What a line asks for: requests on containers.
ghost use Rattle.std.specs.Prelude.{◌≡◌, None, IfOk};
ghost use Rattle.meta_types.specs.Faults.{Refuses};
ghost use Rattle.request_line.specs.Table.{command_of};
ghost use Rattle.request_line.specs.LineMembers.{object_of};

use crate::command::Command;
use crate::members::{Member, label, labels, named, show, text, text_if_any, update};
use crate::op::Op;
use meta_types::{ContainerAdd, ContainerSet, Fault, Request};
use std::alloc::Global;

pub(crate) fn container_add<'a>(
    alloc: Global,
    members: &[Member<'a, '_>],
) -> Result<Command<'a>, Fault>
    ensures fault { Refuses result None }
    ensures ok { IfOk result (λ command. command ≡ command_of Op.ContainerAdd
        (object_of members.now)) }
{
    let container = named(alloc, members, "name")?;
    let snapshotter = text_if_any(alloc, members, "snapshotter")?;
    let key = text_if_any(alloc, members, "key")?;
    let labels = labels(alloc, members)?;
    let extra = text_if_any(alloc, members, "data")?;
    let answer = text_if_any(alloc, members, "answer")?;
    let request = ContainerAdd {
        container,
        snapshotter,
        key,
        labels,
        extra,
    };
    Ok(show(Request::ContainerAdd(request), answer, None))
}

pub(crate) fn container_set<'a>(
    alloc: Global,
    members: &[Member<'a, '_>],
) -> Result<Command<'a>, Fault>
    ensures fault { Refuses result None }
    ensures ok { IfOk result (λ command. command ≡ command_of Op.ContainerSet (object_of members.now)) }
{
    let container = named(alloc, members, "name")?;
    let snapshotter = text_if_any(alloc, members, "snapshotter")?;
    let key = text_if_any(alloc, members, "key")?;
    let update = update(alloc, members)?;
    let answer = text_if_any(alloc, members, "answer")?;
    let request = ContainerSet {
        container,
        snapshotter,
        key,
        update,
    };
    Ok(show(Request::ContainerSet(request), answer, None))
}

pub(crate) fn container_remove<'a>(
    alloc: Global,
    members: &[Member<'a, '_>],
) -> Result<Command<'a>, Fault>
    ensures fault { Refuses result None }
    ensures ok { IfOk result (λ command. command ≡ command_of Op.ContainerRemove
        (object_of members.now)) }
{
    let container = named(alloc, members, "name")?;
    Ok(Command::Request(Request::ContainerRemove(container)))
}

pub(crate) fn container_get<'a>(
    alloc: Global,
    members: &[Member<'a, '_>],
) -> Result<Command<'a>, Fault>
    ensures fault { Refuses result None }
    ensures ok { IfOk result (λ command. command ≡ command_of Op.ContainerGet
        (object_of members.now)) }
{
    let container = named(alloc, members, "name")?;
    let answer = text_if_any(alloc, members, "answer")?;
    Ok(show(Request::ContainerGet(container), answer, None))
}

pub(crate) fn container_list<'a>(
    alloc: Global,
    members: &[Member<'a, '_>],
) -> Result<Command<'a>, Fault>
    ensures fault { Refuses result None }
    ensures ok { IfOk result (λ command. command ≡ command_of Op.ContainerList
        (object_of members.now)) }
{
    let ns = text(alloc, members, "ns")?;
    let answer = text_if_any(alloc, members, "answer")?;
    Ok(show(Request::ContainerList { ns }, answer, None))
}

pub(crate) fn container_label<'a>(
    alloc: Global,
    members: &[Member<'a, '_>],
) -> Result<Command<'a>, Fault>
    ensures fault { Refuses result None }
    ensures ok { IfOk result (λ command. command ≡ command_of Op.ContainerLabel
        (object_of members.now)) }
{
    let container = named(alloc, members, "name")?;
    let label = label(alloc, members)?;
    let answer = text_if_any(alloc, members, "answer")?;
    Ok(show(Request::ContainerLabel(container, label), answer, None))
}
