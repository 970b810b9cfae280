//! What a line asks for: requests on images.
ghost use Rattle.std.specs.Prelude.{◌≡◌, None, IfOk};
ghost use Rattle.meta_types.specs.Faults.{Refuses};
ghost use Rattle.request_line.specs.Table.{command_of};
ghost use Rattle.request_line.specs.LineMembers.{object_of};

use crate::command::Command;
use crate::members::{Member, label, labels, named, show, text, text_if_any, update};
use crate::op::Op;
use meta_types::{Fault, ImageAdd, ImageSet, ImageTarget, Removal, Request};
use std::alloc::Global;

pub(crate) fn image_add<'a>(alloc: Global, members: &[Member<'a, '_>]) -> Result<Command<'a>, Fault>
    ensures fault { Refuses result None }
    ensures ok { IfOk result (λ command. command ≡ command_of Op.ImageAdd (object_of members.now)) }
{
    let image = named(alloc, members, "name")?;
    let target = text(alloc, members, "target")?;
    let labels = labels(alloc, members)?;
    let extra = text_if_any(alloc, members, "data")?;
    let answer = text_if_any(alloc, members, "answer")?;
    let request = ImageAdd {
        image,
        target,
        labels,
        extra,
    };
    Ok(show(Request::ImageAdd(request), answer, None))
}

pub(crate) fn image_set<'a>(alloc: Global, members: &[Member<'a, '_>]) -> Result<Command<'a>, Fault>
    ensures fault { Refuses result None }
    ensures ok { IfOk result (λ command. command ≡ command_of Op.ImageSet (object_of members.now)) }
{
    let image = named(alloc, members, "name")?;
    let target = text_if_any(alloc, members, "target")?;
    let update = update(alloc, members)?;
    let answer = text_if_any(alloc, members, "answer")?;
    let request = ImageSet {
        image,
        target,
        update,
    };
    Ok(show(Request::ImageSet(request), answer, None))
}

pub(crate) fn image_target<'a>(
    alloc: Global,
    members: &[Member<'a, '_>],
) -> Result<Command<'a>, Fault>
    ensures fault { Refuses result None }
    ensures ok { IfOk result (λ command. command ≡ command_of Op.ImageTarget
        (object_of members.now)) }
{
    let image = named(alloc, members, "name")?;
    let target = text(alloc, members, "target")?;
    let answer = text_if_any(alloc, members, "answer")?;
    let request = ImageTarget { image, target };
    Ok(show(Request::ImageTarget(request), answer, None))
}

pub(crate) fn image_remove<'a>(
    alloc: Global,
    members: &[Member<'a, '_>],
) -> Result<Command<'a>, Fault>
    ensures fault { Refuses result None }
    ensures ok { IfOk result (λ command. command ≡ command_of Op.ImageRemove
        (object_of members.now)) }
{
    let image = named(alloc, members, "name")?;
    let sync = text_if_any(alloc, members, "sync")?;
    match sync {
        Some(at) => Ok(Command::Remove {
            removal: Removal::Image(image),
            at,
        }),
        None => Ok(Command::Request(Request::ImageRemove(image))),
    }
}

pub(crate) fn image_get<'a>(alloc: Global, members: &[Member<'a, '_>]) -> Result<Command<'a>, Fault>
    ensures fault { Refuses result None }
    ensures ok { IfOk result (λ command. command ≡ command_of Op.ImageGet (object_of members.now)) }
{
    let image = named(alloc, members, "name")?;
    let answer = text_if_any(alloc, members, "answer")?;
    Ok(show(Request::ImageGet(image), answer, None))
}

pub(crate) fn image_list<'a>(
    alloc: Global,
    members: &[Member<'a, '_>],
) -> Result<Command<'a>, Fault>
    ensures fault { Refuses result None }
    ensures ok { IfOk result (λ command. command ≡ command_of Op.ImageList
        (object_of members.now)) }
{
    let ns = text(alloc, members, "ns")?;
    let answer = text_if_any(alloc, members, "answer")?;
    Ok(show(Request::ImageList { ns }, answer, None))
}

pub(crate) fn image_label<'a>(
    alloc: Global,
    members: &[Member<'a, '_>],
) -> Result<Command<'a>, Fault>
    ensures fault { Refuses result None }
    ensures ok { IfOk result (λ command. command ≡ command_of Op.ImageLabel
        (object_of members.now)) }
{
    let image = named(alloc, members, "name")?;
    let label = label(alloc, members)?;
    let answer = text_if_any(alloc, members, "answer")?;
    Ok(show(Request::ImageLabel(image, label), answer, None))
}
