//! What a line asks for: requests on namespaces, and on the profile.
ghost use Rattle.std.specs.Prelude.{◌≡◌, None, IfOk};
ghost use Rattle.meta_types.specs.Faults.{Refuses};
ghost use Rattle.request_line.specs.Table.{command_of};
ghost use Rattle.request_line.specs.LineMembers.{object_of};

use crate::command::Command;
use crate::members::{Member, text, whole};
use crate::op::Op;
use meta_types::{Fault, Request};
use std::alloc::Global;

pub(crate) fn ns_add<'a>(alloc: Global, members: &[Member<'a, '_>]) -> Result<Command<'a>, Fault>
    ensures fault { Refuses result None }
    ensures ok { IfOk result (λ command. command ≡ command_of Op.NsAdd (object_of members.now)) }
{
    let ns = text(alloc, members, "ns")?;
    Ok(Command::Request(Request::NsAdd { ns }))
}

pub(crate) fn ns_remove<'a>(alloc: Global, members: &[Member<'a, '_>]) -> Result<Command<'a>, Fault>
    ensures fault { Refuses result None }
    ensures ok { IfOk result (λ command. command ≡ command_of Op.NsRemove (object_of members.now)) }
{
    let ns = text(alloc, members, "ns")?;
    Ok(Command::Request(Request::NsRemove { ns }))
}

pub(crate) fn profile<'a>(members: &[Member<'a, '_>]) -> Command<'a>
    ensures { result ≡ command_of Op.Profile (object_of members.now) }
{
    Command::Request(Request::Profile {
        v: whole(members, "v"),
    })
}
