//! Whether the members of a line are those of its op.
ghost use Rattle.std.specs.Prelude.{◌≡◌, ◌&&◌, ◌||◌, map, is_some, string_bytes};
ghost use Rattle.std.specs.List.{list_any, list_all};
ghost use Rattle.std.specs.Str.{bytes_eq};
ghost use Rattle.serde_json.specs.View.{view, members_view};
ghost use Rattle.serde_json.specs.Find.{get_member};
ghost use Rattle.request_line.specs.Table.{members_of, row_view};
ghost use Rattle.request_line.specs.Lines.{is_text, are_texts, are_labels, is_whole, has_kind, is_among, is_listed, has_required, op_in};
ghost use Rattle.request_line.specs.LineMembers.{value_of, object_of, fits};

use crate::members::{LineValue, Member, is_same, member, text_in};
use crate::op::{Op, OpForm};
use serde_json::{Map, Value};

// Whether all values are texts.
#[tactic(auto, using(crate::proofs::Checks::are_texts_entries))]
fn are_texts(members: &Map<String, Value>) -> bool
    ensures { result ≡ are_texts (members_view members.now.entries) }
{
    all_texts(members)
}

fn all_texts(members: &Map<String, Value>) -> bool
    ensures { result ≡ list_all (λ e. is_text (view e.1)) members.now.entries }
{
    members.iter().all(|(_, value)| value.is_string())
}

// Whether a value is an object of texts.
fn are_labels(value: &LineValue<'_, '_>) -> bool
    ensures { result ≡ are_labels (value_of value.now) }
{
    match value {
        LineValue::Text(_) => false,
        LineValue::Labels(_) => true,
        LineValue::Any(value) => value.as_object().is_some_and(are_texts),
    }
}

fn is_whole(value: &LineValue<'_, '_>) -> bool
    ensures { result ≡ is_whole (value_of value.now) }
{
    match value {
        LineValue::Text(_) => false,
        LineValue::Labels(_) => false,
        LineValue::Any(value) => value.is_u64(),
    }
}

fn is_text(value: &LineValue<'_, '_>) -> bool
    ensures { result ≡ is_text (value_of value.now) }
{
    match value {
        LineValue::Text(_) => true,
        LineValue::Labels(_) => false,
        LineValue::Any(value) => value.is_string(),
    }
}

// Whether a member is of its kind.
fn has_kind(key: &str, value: &LineValue<'_, '_>) -> bool
    ensures { result ≡ has_kind key.now (value_of value.now) }
{
    if is_same(key, "labels") || is_same(key, "put") {
        are_labels(value)
    } else if is_same(key, "v") {
        is_whole(value)
    } else {
        is_text(value)
    }
}

// Whether a key is among these.
fn is_among(key: &str, keys: &[&str]) -> bool
    ensures { result ≡ is_among key.now (map (λ k. k.now) keys.now) }
{
    is_any(key, keys)
}

fn is_any(key: &str, keys: &[&str]) -> bool
    ensures { result ≡ list_any (λ k. bytes_eq k.now key.now) keys.now }
{
    keys.iter().any(|k| is_same(*k, key))
}

// Whether a member is one of the op's.
fn is_for(row: &OpForm, key: &str) -> bool
    ensures { result ≡ (is_among key.now (row_view row.now).required || is_among key.now
        (row_view row.now).optional) }
{
    is_among(key, row.required) || is_among(key, row.optional)
}

// Whether a member may stand in the line.
fn is_listed(row: &OpForm, key: &str) -> bool
    ensures { result ≡ is_listed (row_view row.now) key.now }
{
    is_same(key, "op") || is_for(row, key)
}

// Whether a member may stand in the line, and is of its kind.
fn fits(row: &OpForm, one: &Member<'_, '_>) -> bool
    ensures { result ≡ fits (row_view row.now) one.now }
{
    is_listed(row, one.0) && has_kind(one.0, &one.1)
}

fn all_fit(row: &OpForm, members: &[Member<'_, '_>]) -> bool
    ensures { result ≡ list_all (fits (row_view row.now)) members.now }
{
    members.iter().all(|one| fits(row, one))
}

// Whether each member that must stand in the line is there.
fn has_required(row: &OpForm, members: &[Member<'_, '_>]) -> bool
    ensures { result ≡ has_required (row_view row.now) (object_of members.now) }
{
    has_all(row.required, members)
}

fn has_all(keys: &[&str], members: &[Member<'_, '_>]) -> bool
    ensures { result ≡ list_all (λ k. is_some (get_member k.now
        (object_of members.now))) keys.now }
{
    keys.iter().all(|key| member(members, *key).is_some())
}

// Whether each member is one of the op's, and those that must stand are there.
pub(crate) fn are_of(op: Op, members: &[Member<'_, '_>]) -> bool
    ensures { result ≡ (list_all (fits (members_of op)) members.now
        && has_required (members_of op) (object_of members.now)) }
{
    let row = op.row();
    all_fit(&row, members) && has_required(&row, members)
}

// The op that the members name.
pub(crate) fn op_in(members: &[Member<'_, '_>]) -> Option<Op>
    ensures { result ≡ op_in (object_of members.now) }
{
    Op::named(text_in(members, "op")?)
}
