//! What a line asks for: requests on content and ingests.
ghost use Rattle.std.specs.Prelude.{◌≡◌, None, IfOk};
ghost use Rattle.meta_types.specs.Faults.{Refuses};
ghost use Rattle.request_line.specs.Table.{command_of, new_ingest};
ghost use Rattle.request_line.specs.LineMembers.{object_of};

use crate::command::Command;
use crate::members::{Member, content, label, labels, named, show, text, text_if_any, update};
use crate::op::Op;
use meta_types::{ContentAdd, Fault, IngestBegin, IngestCommit, Request};
use std::alloc::Global;

pub(crate) fn content_add<'a>(
    alloc: Global,
    members: &[Member<'a, '_>],
) -> Result<Command<'a>, Fault>
    ensures fault { Refuses result None }
    ensures ok { IfOk result (λ command. command ≡ command_of Op.ContentAdd
        (object_of members.now)) }
{
    let content = content(alloc, members)?;
    let labels = labels(alloc, members)?;
    let extra = text_if_any(alloc, members, "data")?;
    let lease = text_if_any(alloc, members, "lease")?;
    let there = text_if_any(alloc, members, "there")?;
    let answer = text_if_any(alloc, members, "answer")?;
    let request = ContentAdd {
        content,
        labels,
        lease,
        extra,
    };
    Ok(show(Request::ContentAdd(request), answer, there))
}

pub(crate) fn content_set<'a>(
    alloc: Global,
    members: &[Member<'a, '_>],
) -> Result<Command<'a>, Fault>
    ensures fault { Refuses result None }
    ensures ok { IfOk result (λ command. command ≡ command_of Op.ContentSet (object_of members.now)) }
{
    let content = content(alloc, members)?;
    let update = update(alloc, members)?;
    let answer = text_if_any(alloc, members, "answer")?;
    Ok(show(Request::ContentSet(content, update), answer, None))
}

pub(crate) fn content_remove<'a>(
    alloc: Global,
    members: &[Member<'a, '_>],
) -> Result<Command<'a>, Fault>
    ensures fault { Refuses result None }
    ensures ok { IfOk result (λ command. command ≡ command_of Op.ContentRemove
        (object_of members.now)) }
{
    let content = content(alloc, members)?;
    let dropped_by = text_if_any(alloc, members, "drop")?;
    Ok(Command::Request(Request::ContentRemove(content, dropped_by)))
}

pub(crate) fn content_get<'a>(
    alloc: Global,
    members: &[Member<'a, '_>],
) -> Result<Command<'a>, Fault>
    ensures fault { Refuses result None }
    ensures ok { IfOk result (λ command. command ≡ command_of Op.ContentGet
        (object_of members.now)) }
{
    let content = content(alloc, members)?;
    let answer = text_if_any(alloc, members, "answer")?;
    Ok(show(Request::ContentGet(content), answer, None))
}

pub(crate) fn content_label<'a>(
    alloc: Global,
    members: &[Member<'a, '_>],
) -> Result<Command<'a>, Fault>
    ensures fault { Refuses result None }
    ensures ok { IfOk result (λ command. command ≡ command_of Op.ContentLabel
        (object_of members.now)) }
{
    let content = content(alloc, members)?;
    let label = label(alloc, members)?;
    let answer = text_if_any(alloc, members, "answer")?;
    Ok(show(Request::ContentLabel(content, label), answer, None))
}

pub(crate) fn content_list<'a>(
    alloc: Global,
    members: &[Member<'a, '_>],
) -> Result<Command<'a>, Fault>
    ensures fault { Refuses result None }
    ensures ok { IfOk result (λ command. command ≡ command_of Op.ContentList
        (object_of members.now)) }
{
    let ns = text(alloc, members, "ns")?;
    let answer = text_if_any(alloc, members, "answer")?;
    Ok(show(Request::ContentList { ns }, answer, None))
}

// A new ingest.
fn new_ingest<'a>(alloc: Global, members: &[Member<'a, '_>]) -> Result<IngestBegin<'a>, Fault>
    ensures fault { Refuses result None }
    ensures ok { IfOk result (λ command. command ≡ new_ingest.said (object_of members.now)) }
{
    let ingest = named(alloc, members, "ref")?;
    let at = text(alloc, members, "at")?;
    let expected = text_if_any(alloc, members, "expected")?;
    let extra = text_if_any(alloc, members, "data")?;
    let lease = text_if_any(alloc, members, "lease")?;
    Ok(IngestBegin {
        ingest,
        at,
        expected,
        lease,
        extra,
    })
}

pub(crate) fn ingest_begin<'a>(
    alloc: Global,
    members: &[Member<'a, '_>],
) -> Result<Command<'a>, Fault>
    ensures fault { Refuses result None }
    ensures ok { IfOk result (λ command. command ≡ command_of Op.IngestBegin
        (object_of members.now)) }
{
    let request = new_ingest(alloc, members)?;
    let answer = text_if_any(alloc, members, "answer")?;
    Ok(show(Request::IngestBegin(request), answer, None))
}

pub(crate) fn ingest_open<'a>(
    alloc: Global,
    members: &[Member<'a, '_>],
) -> Result<Command<'a>, Fault>
    ensures fault { Refuses result None }
    ensures ok { IfOk result (λ command. command ≡ command_of Op.IngestOpen (object_of members.now)) }
{
    let request = new_ingest(alloc, members)?;
    let answer = text_if_any(alloc, members, "answer")?;
    Ok(show(Request::IngestOpen(request), answer, None))
}

pub(crate) fn ingest_commit<'a>(
    alloc: Global,
    members: &[Member<'a, '_>],
) -> Result<Command<'a>, Fault>
    ensures fault { Refuses result None }
    ensures ok { IfOk result (λ command. command ≡ command_of Op.IngestCommit
        (object_of members.now)) }
{
    let ingest = named(alloc, members, "ref")?;
    let digest = text(alloc, members, "digest")?;
    let labels = labels(alloc, members)?;
    let extra = text_if_any(alloc, members, "data")?;
    let lease = text_if_any(alloc, members, "lease")?;
    let dropped_by = text_if_any(alloc, members, "drop")?;
    let there = text_if_any(alloc, members, "there")?;
    let answer = text_if_any(alloc, members, "answer")?;
    let request = IngestCommit {
        ingest,
        digest,
        labels,
        lease,
        dropped_by,
        extra,
    };
    Ok(show(Request::IngestCommit(request), answer, there))
}

pub(crate) fn ingest_abort<'a>(
    alloc: Global,
    members: &[Member<'a, '_>],
) -> Result<Command<'a>, Fault>
    ensures fault { Refuses result None }
    ensures ok { IfOk result (λ command. command ≡ command_of Op.IngestAbort
        (object_of members.now)) }
{
    let ingest = named(alloc, members, "ref")?;
    let dropped_by = text_if_any(alloc, members, "drop")?;
    Ok(Command::Request(Request::IngestAbort(ingest, dropped_by)))
}

pub(crate) fn ingest_get<'a>(
    alloc: Global,
    members: &[Member<'a, '_>],
) -> Result<Command<'a>, Fault>
    ensures fault { Refuses result None }
    ensures ok { IfOk result (λ command. command ≡ command_of Op.IngestGet
        (object_of members.now)) }
{
    let ingest = named(alloc, members, "ref")?;
    let answer = text_if_any(alloc, members, "answer")?;
    Ok(show(Request::IngestGet(ingest), answer, None))
}

pub(crate) fn ingest_list<'a>(
    alloc: Global,
    members: &[Member<'a, '_>],
) -> Result<Command<'a>, Fault>
    ensures fault { Refuses result None }
    ensures ok { IfOk result (λ command. command ≡ command_of Op.IngestList
        (object_of members.now)) }
{
    let ns = text(alloc, members, "ns")?;
    let answer = text_if_any(alloc, members, "answer")?;
    Ok(show(Request::IngestList { ns }, answer, None))
}
