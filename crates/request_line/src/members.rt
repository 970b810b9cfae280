//! The members of a line, and what they say.
ghost use Rattle.std.specs.Prelude.{◌≡◌, None, IfOk, option_map};
ghost use Rattle.std.specs.Str.{bytes_eq};
ghost use Rattle.serde_json.specs.View.{view};
ghost use Rattle.serde_json.specs.Find.{as_str, get_member};
ghost use Rattle.meta_types.specs.Faults.{Refuses};
ghost use Rattle.request_line.specs.Members.{text_at, text_if_any, whole_at, labels_at, labels_if_any};
ghost use Rattle.request_line.specs.Table.{content, label, shows, update};
ghost use Rattle.request_line.specs.LineMembers.{value_of, object_of, name_at, snapshot_at};

mod pairs;

use crate::command::Command;
use crate::members::pairs::{labels_in, labels_of};
use meta_types::{
    Fault, RawContent, RawLabel, RawLabels, RawName, RawSnapshot, RawText, Request, RowUpdate,
};
use serde_json::Value;
use std::alloc::Global;

/// The value of a member of a line: what the line lends, or a value of a tree, whose texts are
/// copied.
#[derive(Drop)]
pub(crate) enum LineValue<'a, 'v> {
    Text(&'a str),
    /// An object of texts, its keys in rising order.
    Labels(Vec<(&'a str, &'a str)>),
    Any(&'v Value),
}

pub(crate) type Member<'a, 'v> = (&'v str, LineValue<'a, 'v>);

/// Whether two texts are the same. Of most names the length tells, without a call.
pub(crate) fn is_same(one: &str, other: &str) -> bool
    ensures { result ≡ bytes_eq one.now other.now }
{
    if one.len() != other.len() {
        return false;
    }
    one == other
}

/// The last value of that name: it is sought from the end.
pub(crate) fn member<'m, 'a, 'v>(
    members: &'m [Member<'a, 'v>],
    name: &str,
) -> Option<&'m LineValue<'a, 'v>>
    ensures { option_map (λ v. value_of v.now) result ≡ get_member name.now
        (object_of members.now) }
{
    let mut left = members.len();
    while left > 0 {
        left -= 1;
        let one = &members[left];
        if is_same(one.0, name) {
            return Some(&one.1);
        }
    }
    None
}

// A value's text, where it is one.
fn text_of<'m>(value: &'m LineValue<'_, '_>) -> Option<&'m str>
    ensures { option_map (λ t. t.now) result ≡ as_str (value_of value.now) }
{
    match value {
        LineValue::Text(text) => {
            let text: &'m str = *text;
            Some(text)
        }
        LineValue::Labels(_) => None,
        LineValue::Any(value) => {
            let value: &'m Value = *value;
            value.as_str()
        }
    }
}

/// The text of that name.
pub(crate) fn text_in<'m>(members: &'m [Member<'_, '_>], name: &str) -> Option<&'m str>
    ensures { option_map (λ t. t.now) result ≡ text_if_any name.now (object_of members.now) }
{
    text_of(member(members, name)?)
}

/// A copy of a value's text, where it is one.
pub(crate) fn copy_of(alloc: Global, value: &Value) -> Result<Option<RawText<'static>>, Fault>
    ensures fault { Refuses result None }
    ensures ok { IfOk result (λ raw. raw ≡ as_str (view value.now)) }
{
    match value.as_str() {
        Some(text) => Ok(Some(RawText::new(String::from_str(alloc, text)?))),
        None => Ok(None),
    }
}

// A value's text, where it is one: lent by the line, or a copy.
fn raw<'a>(alloc: Global, value: &LineValue<'a, '_>) -> Result<Option<RawText<'a>>, Fault>
    ensures fault { Refuses result None }
    ensures ok { IfOk result (λ raw. raw ≡ as_str (value_of value.now)) }
{
    match value {
        LineValue::Text(text) => Ok(Some(RawText::lent(*text))),
        LineValue::Labels(_) => Ok(None),
        LineValue::Any(value) => copy_of(alloc, *value),
    }
}

/// The text of a member that may be left out.
pub(crate) fn text_if_any<'a>(
    alloc: Global,
    members: &[Member<'a, '_>],
    name: &str,
) -> Result<Option<RawText<'a>>, Fault>
    ensures fault { Refuses result None }
    ensures ok { IfOk result (λ raw. raw ≡ text_if_any name.now (object_of members.now)) }
{
    match member(members, name) {
        Some(value) => raw(alloc, value),
        None => Ok(None),
    }
}

/// A member's text.
pub(crate) fn text<'a>(
    alloc: Global,
    members: &[Member<'a, '_>],
    name: &str,
) -> Result<RawText<'a>, Fault>
    ensures fault { Refuses result None }
    ensures ok { IfOk result (λ raw. raw ≡ text_at name.now (object_of members.now)) }
{
    match text_if_any(alloc, members, name)? {
        Some(text) => Ok(text),
        None => Ok(RawText::lent("")),
    }
}

/// The whole number of a member.
pub(crate) fn whole(members: &[Member<'_, '_>], name: &str) -> u64
    ensures { result ≡ whole_at name.now (object_of members.now) }
{
    match member(members, name) {
        Some(LineValue::Any(value)) => value.as_u64().unwrap_or(0),
        Some(LineValue::Text(_)) => 0,
        Some(LineValue::Labels(_)) => 0,
        None => 0,
    }
}

/// The labels, which may be left out.
pub(crate) fn labels<'a>(alloc: Global, members: &[Member<'a, '_>]) -> Result<RawLabels<'a>, Fault>
    ensures fault { Refuses result None }
    ensures ok { IfOk result (λ pairs. pairs ≡ labels_at (object_of members.now)) }
{
    match member(members, "labels") {
        Some(value) => labels_in(alloc, value),
        None => Ok(RawLabels::new(Vec::new(alloc))),
    }
}

/// An object of texts that may be left out.
pub(crate) fn labels_if_any<'a>(
    alloc: Global,
    members: &[Member<'a, '_>],
    name: &str,
) -> Result<Option<RawLabels<'a>>, Fault>
    ensures fault { Refuses result None }
    ensures ok { IfOk result (λ pairs. pairs ≡ labels_if_any name.now (object_of members.now)) }
{
    match member(members, name) {
        Some(value) => labels_of(alloc, value),
        None => Ok(None),
    }
}

/// What names an image, a container, an ingest or a lease.
pub(crate) fn named<'a>(
    alloc: Global,
    members: &[Member<'a, '_>],
    key: &str,
) -> Result<RawName<'a>, Fault>
    ensures fault { Refuses result None }
    ensures ok { IfOk result (λ named. named ≡ name_at key.now (object_of members.now)) }
{
    let ns = text(alloc, members, "ns")?;
    let name = text(alloc, members, key)?;
    Ok(RawName { ns, name })
}

/// What names content.
pub(crate) fn content<'a>(
    alloc: Global,
    members: &[Member<'a, '_>],
) -> Result<RawContent<'a>, Fault>
    ensures fault { Refuses result None }
    ensures ok { IfOk result (λ named. named ≡ content.said (object_of members.now)) }
{
    let ns = text(alloc, members, "ns")?;
    let digest = text(alloc, members, "digest")?;
    Ok(RawContent { ns, digest })
}

/// What names a snapshot.
pub(crate) fn snapshot<'a>(
    alloc: Global,
    members: &[Member<'a, '_>],
    key: &str,
) -> Result<RawSnapshot<'a>, Fault>
    ensures fault { Refuses result None }
    ensures ok { IfOk result (λ named. named ≡ snapshot_at key.now (object_of members.now)) }
{
    let ns = text(alloc, members, "ns")?;
    let snapshotter = text(alloc, members, "snapshotter")?;
    let name = text(alloc, members, key)?;
    Ok(RawSnapshot {
        ns,
        snapshotter,
        name,
    })
}

/// One label.
pub(crate) fn label<'a>(alloc: Global, members: &[Member<'a, '_>]) -> Result<RawLabel<'a>, Fault>
    ensures fault { Refuses result None }
    ensures ok { IfOk result (λ one. one ≡ label.said (object_of members.now)) }
{
    let key = text(alloc, members, "key")?;
    let value = text(alloc, members, "value")?;
    Ok(RawLabel { key, value })
}

/// What of a row is replaced.
pub(crate) fn update<'a>(alloc: Global, members: &[Member<'a, '_>]) -> Result<RowUpdate<'a>, Fault>
    ensures fault { Refuses result None }
    ensures ok { IfOk result (λ command. command ≡ update.said (object_of members.now)) }
{
    let labels = labels_if_any(alloc, members, "labels")?;
    let put = labels_if_any(alloc, members, "put")?;
    let extra = text_if_any(alloc, members, "data")?;
    Ok(RowUpdate { labels, put, extra })
}

/// A request, with the words that stand beside it, if any.
pub(crate) fn show<'a>(
    request: Request<'a>,
    answer: Option<RawText<'a>>,
    there: Option<RawText<'a>>,
) -> Command<'a>
    ensures { result ≡ shows request.entry answer.entry there.entry }
{
    if answer.is_some() || there.is_some() {
        Command::Show {
            request,
            answer,
            there,
        }
    } else {
        Command::Request(request)
    }
}
