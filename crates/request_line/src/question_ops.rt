//! What a line asks for: questions, which change nothing.
ghost use Rattle.std.specs.Prelude.{◌≡◌, None, IfOk};
ghost use Rattle.meta_types.specs.Faults.{Refuses};
ghost use Rattle.request_line.specs.Table.{command_of};
ghost use Rattle.request_line.specs.LineMembers.{object_of};

use crate::command::Command;
use crate::members::{Member, text};
use crate::op::Op;
use meta_types::Fault;
use std::alloc::Global;

pub(crate) fn gc_explain<'a>(
    alloc: Global,
    members: &[Member<'a, '_>],
) -> Result<Command<'a>, Fault>
    ensures fault { Refuses result None }
    ensures ok { IfOk result (λ command. command ≡ command_of Op.GcExplain
        (object_of members.now)) }
{
    let ns = text(alloc, members, "ns")?;
    let kind = text(alloc, members, "type")?;
    let resource = text(alloc, members, "resource")?;
    let at = text(alloc, members, "at")?;
    Ok(Command::Explain {
        ns,
        kind,
        resource,
        at,
    })
}

pub(crate) fn gc_impact<'a>(alloc: Global, members: &[Member<'a, '_>]) -> Result<Command<'a>, Fault>
    ensures fault { Refuses result None }
    ensures ok { IfOk result (λ command. command ≡ command_of Op.GcImpact (object_of members.now)) }
{
    Ok(Command::Impact {
        ns: text(alloc, members, "ns")?,
        kind: text(alloc, members, "type")?,
        resource: text(alloc, members, "resource")?,
        at: text(alloc, members, "at")?,
    })
}
