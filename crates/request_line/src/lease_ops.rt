//! What a line asks for: requests on leases.
ghost use Rattle.std.specs.Prelude.{◌≡◌, None, IfOk};
ghost use Rattle.meta_types.specs.Faults.{Refuses};
ghost use Rattle.request_line.specs.Table.{command_of, resource};
ghost use Rattle.request_line.specs.LineMembers.{object_of};

use crate::command::Command;
use crate::members::{Member, label, labels, named, show, text, text_if_any, update};
use crate::op::Op;
use meta_types::{Fault, LeaseAdd, LeaseResource, Removal, Request};
use std::alloc::Global;

// A lease, and a resource.
fn resource<'a>(alloc: Global, members: &[Member<'a, '_>]) -> Result<LeaseResource<'a>, Fault>
    ensures fault { Refuses result None }
    ensures ok { IfOk result (λ command. command ≡ resource.said (object_of members.now)) }
{
    let lease = named(alloc, members, "id")?;
    let kind = text(alloc, members, "type")?;
    let resource = text(alloc, members, "resource")?;
    Ok(LeaseResource {
        lease,
        kind,
        resource,
    })
}

pub(crate) fn lease_add<'a>(alloc: Global, members: &[Member<'a, '_>]) -> Result<Command<'a>, Fault>
    ensures fault { Refuses result None }
    ensures ok { IfOk result (λ command. command ≡ command_of Op.LeaseAdd (object_of members.now)) }
{
    let lease = named(alloc, members, "id")?;
    let labels = labels(alloc, members)?;
    let extra = text_if_any(alloc, members, "data")?;
    let answer = text_if_any(alloc, members, "answer")?;
    let request = LeaseAdd {
        lease,
        labels,
        extra,
    };
    Ok(show(Request::LeaseAdd(request), answer, None))
}

pub(crate) fn lease_set<'a>(alloc: Global, members: &[Member<'a, '_>]) -> Result<Command<'a>, Fault>
    ensures fault { Refuses result None }
    ensures ok { IfOk result (λ command. command ≡ command_of Op.LeaseSet (object_of members.now)) }
{
    let lease = named(alloc, members, "id")?;
    let update = update(alloc, members)?;
    let answer = text_if_any(alloc, members, "answer")?;
    Ok(show(Request::LeaseSet(lease, update), answer, None))
}

pub(crate) fn lease_remove<'a>(
    alloc: Global,
    members: &[Member<'a, '_>],
) -> Result<Command<'a>, Fault>
    ensures fault { Refuses result None }
    ensures ok { IfOk result (λ command. command ≡ command_of Op.LeaseRemove
        (object_of members.now)) }
{
    let lease = named(alloc, members, "id")?;
    let sync = text_if_any(alloc, members, "sync")?;
    match sync {
        Some(at) => Ok(Command::Remove {
            removal: Removal::Lease(lease),
            at,
        }),
        None => Ok(Command::Request(Request::LeaseRemove(lease))),
    }
}

pub(crate) fn lease_get<'a>(alloc: Global, members: &[Member<'a, '_>]) -> Result<Command<'a>, Fault>
    ensures fault { Refuses result None }
    ensures ok { IfOk result (λ command. command ≡ command_of Op.LeaseGet (object_of members.now)) }
{
    let lease = named(alloc, members, "id")?;
    let answer = text_if_any(alloc, members, "answer")?;
    Ok(show(Request::LeaseGet(lease), answer, None))
}

pub(crate) fn lease_label<'a>(
    alloc: Global,
    members: &[Member<'a, '_>],
) -> Result<Command<'a>, Fault>
    ensures fault { Refuses result None }
    ensures ok { IfOk result (λ command. command ≡ command_of Op.LeaseLabel
        (object_of members.now)) }
{
    let lease = named(alloc, members, "id")?;
    let label = label(alloc, members)?;
    let answer = text_if_any(alloc, members, "answer")?;
    Ok(show(Request::LeaseLabel(lease, label), answer, None))
}

pub(crate) fn lease_list<'a>(
    alloc: Global,
    members: &[Member<'a, '_>],
) -> Result<Command<'a>, Fault>
    ensures fault { Refuses result None }
    ensures ok { IfOk result (λ command. command ≡ command_of Op.LeaseList
        (object_of members.now)) }
{
    let ns = text(alloc, members, "ns")?;
    let answer = text_if_any(alloc, members, "answer")?;
    Ok(show(Request::LeaseList { ns }, answer, None))
}

pub(crate) fn lease_hold<'a>(
    alloc: Global,
    members: &[Member<'a, '_>],
) -> Result<Command<'a>, Fault>
    ensures fault { Refuses result None }
    ensures ok { IfOk result (λ command. command ≡ command_of Op.LeaseHold
        (object_of members.now)) }
{
    let request = resource(alloc, members)?;
    Ok(Command::Request(Request::LeaseHold(request)))
}

pub(crate) fn lease_drop<'a>(
    alloc: Global,
    members: &[Member<'a, '_>],
) -> Result<Command<'a>, Fault>
    ensures fault { Refuses result None }
    ensures ok { IfOk result (λ command. command ≡ command_of Op.LeaseDrop
        (object_of members.now)) }
{
    let request = resource(alloc, members)?;
    Ok(Command::Request(Request::LeaseDrop(request)))
}

pub(crate) fn lease_resources<'a>(
    alloc: Global,
    members: &[Member<'a, '_>],
) -> Result<Command<'a>, Fault>
    ensures fault { Refuses result None }
    ensures ok { IfOk result (λ command. command ≡ command_of Op.LeaseResources
        (object_of members.now)) }
{
    let lease = named(alloc, members, "id")?;
    Ok(Command::Request(Request::LeaseResources(lease)))
}
