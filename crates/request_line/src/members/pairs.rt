//! Objects of texts in a line: labels, and what is put among them.
ghost use Rattle.std.specs.Prelude.{◌≡◌, [], None, IfOk, unwrap_or, option_map, map};
ghost use Rattle.std.specs.Option.{option_map_or};
ghost use Rattle.serde_json.specs.View.{view, members_view};
ghost use Rattle.serde_json.specs.Find.{as_str, as_object};
ghost use Rattle.meta_types.specs.Faults.{Refuses};
ghost use Rattle.request_line.specs.Members.{pairs_from};
ghost use Rattle.request_line.specs.LineMembers.{value_of};

use crate::members::{LineValue, copy_of};
use meta_types::{Fault, RawLabels, RawText};
use serde_json::{Map, Value};
use std::alloc::Global;

// A text of an object of texts.
fn text_or_empty(alloc: Global, value: &Value) -> Result<RawText<'static>, Fault>
    ensures fault { Refuses result None }
    ensures ok { IfOk result (λ text. text ≡ unwrap_or (as_str (view value.now)) []) }
{
    match copy_of(alloc, value)? {
        Some(text) => Ok(text),
        None => Ok(RawText::lent("")),
    }
}

// An object's keys and texts, in the order of the keys.
fn pairs_of(alloc: Global, members: &Map<String, Value>) -> Result<RawLabels<'static>, Fault>
    ensures fault { Refuses result None }
    ensures ok { IfOk result (λ pairs. pairs ≡ pairs_from (members_view members.now.entries)) }
{
    let mut entries = Vec::new(alloc);
    for (name, value) in members.iter() {
        let key = name.clone()?;
        let text = text_or_empty(alloc, value)?;
        entries.push((RawText::new(key), text))?;
    }
    Ok(RawLabels::new(entries))
}

// The keys and texts of a value: none, where it is no object.
fn pairs_in(alloc: Global, value: &Value) -> Result<RawLabels<'static>, Fault>
    ensures fault { Refuses result None }
    ensures ok { IfOk result (λ pairs. pairs ≡ option_map_or pairs_from (as_object
        (view value.now)) []) }
{
    match value.as_object() {
        Some(members) => pairs_of(alloc, members),
        None => Ok(RawLabels::new(Vec::new(alloc))),
    }
}

// The keys and texts of a value, where it is an object.
fn pairs_if_any(alloc: Global, value: &Value) -> Result<Option<RawLabels<'static>>, Fault>
    ensures fault { Refuses result None }
    ensures ok { IfOk result (λ pairs. pairs ≡ option_map pairs_from (as_object
        (view value.now))) }
{
    match value.as_object() {
        Some(members) => {
            let pairs = pairs_of(alloc, members)?;
            Ok(Some(pairs))
        }
        None => Ok(None),
    }
}

// The same keys and texts, lent.
fn lent<'a>(alloc: Global, texts: &[(&'a str, &'a str)]) -> Result<RawLabels<'a>, Fault>
    ensures fault { Refuses result None }
    ensures ok { IfOk result (λ pairs. pairs ≡ map (λ t. (t.0.now, t.1.now)) texts.now) }
{
    let mut entries = Vec::with_capacity(alloc, texts.len())?;
    for text in texts {
        entries.push((RawText::lent(text.0), RawText::lent(text.1)))?;
    }
    Ok(RawLabels::new(entries))
}

/// The labels that a value says: none, where it is no object.
pub(crate) fn labels_in<'a>(
    alloc: Global,
    value: &LineValue<'a, '_>,
) -> Result<RawLabels<'a>, Fault>
    ensures fault { Refuses result None }
    ensures ok { IfOk result (λ pairs. pairs ≡ option_map_or pairs_from (as_object
        (value_of value.now)) []) }
{
    match value {
        LineValue::Labels(texts) => {
            // For the prover: the result is opened, not passed on.
            let pairs = lent(alloc, texts)?;
            Ok(pairs)
        }
        LineValue::Any(value) => {
            // For the prover: the result is opened, not passed on.
            let pairs = pairs_in(alloc, *value)?;
            Ok(pairs)
        }
        LineValue::Text(_) => Ok(RawLabels::new(Vec::new(alloc))),
    }
}

/// The labels that a value says, where it is an object.
pub(crate) fn labels_of<'a>(
    alloc: Global,
    value: &LineValue<'a, '_>,
) -> Result<Option<RawLabels<'a>>, Fault>
    ensures fault { Refuses result None }
    ensures ok { IfOk result (λ pairs. pairs ≡ option_map pairs_from (as_object
        (value_of value.now))) }
{
    match value {
        LineValue::Labels(texts) => {
            let pairs = lent(alloc, texts)?;
            Ok(Some(pairs))
        }
        LineValue::Any(value) => {
            // For the prover: the result is opened, not passed on.
            let pairs = pairs_if_any(alloc, *value)?;
            Ok(pairs)
        }
        LineValue::Text(_) => Ok(None),
    }
}
