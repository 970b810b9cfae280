//! What a line asks for: collections and dry runs.
ghost use Rattle.std.specs.Prelude.{◌≡◌, None, IfOk};
ghost use Rattle.meta_types.specs.Faults.{Refuses};
ghost use Rattle.request_line.specs.Table.{command_of};
ghost use Rattle.request_line.specs.LineMembers.{object_of};

use crate::command::Command;
use crate::members::{Member, text};
use crate::op::Op;
use meta_types::Fault;
use std::alloc::Global;

pub(crate) fn gc_run<'a>(alloc: Global, members: &[Member<'a, '_>]) -> Result<Command<'a>, Fault>
    ensures fault { Refuses result None }
    ensures ok { IfOk result (λ command. command ≡ command_of Op.GcRun (object_of members.now)) }
{
    let at = text(alloc, members, "at")?;
    Ok(Command::Collect { at, dry: false })
}

pub(crate) fn gc_plan<'a>(alloc: Global, members: &[Member<'a, '_>]) -> Result<Command<'a>, Fault>
    ensures fault { Refuses result None }
    ensures ok { IfOk result (λ command. command ≡ command_of Op.GcPlan (object_of members.now)) }
{
    let at = text(alloc, members, "at")?;
    Ok(Command::Collect { at, dry: true })
}
