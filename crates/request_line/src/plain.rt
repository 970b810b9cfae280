//! Reads a plain line, which is an object of texts and labels, as it lies: no tree of values is
//! made. What isn't plain is left to the reader of any line.
ghost use Rattle.std.specs.Prelude.{◌≡◌, length, take, get_or, false, None, Some, IfOk, OnOk, IfSome, ◌<◌, ◌≤◌};
ghost use Rattle.std.specs.Borrow.{Bor};
ghost use Rattle.json.specs.Json.{members, value};
ghost use Rattle.serde_json.specs.Data.{no_members, object, string, put};
ghost use Rattle.serde_json.specs.Read.{of_json, of_members, converted, read};
ghost use Rattle.meta_types.specs.Faults.{Refuses};
ghost use Rattle.meta_types.specs.Text.{Text};
ghost use Rattle.request_line.specs.LineMembers.{texts_object, value_of, object_of, is_behind, AllBelow, IsRising};

use crate::members::{LineValue, Member};
use json::{Reader, Scratch, Token};
use meta_types::Fault;
use std::alloc::Global;

// No op has more members.
const MOST: usize = 12;

// No row has more labels. If more names come in another order than that of their bytes, the reader
// of any line takes them, since each one is put in its place by a look at those before.
const MOST_LABELS: usize = 256;

// Whether a name stands behind the one before.
fn is_behind(last: Option<&str>, name: &str) -> bool
    ensures { result ≡ is_behind last.entry name.now }
{
    match last {
        Some(last) => name > last,
        None => true,
    }
}

// The place of the first name that isn't below this one.
fn place_of(texts: &[(&str, &str)], name: &str) -> usize
    ensures within { result ≤ length texts.now }
    ensures below { AllBelow name.now (take result texts.now) }
    ensures stops { (t : Bor Text × Bor Text) → result < length texts.now
        → is_behind (Some (get_or texts.now result t).0) name.now ≡ false }
{
    let mut place = 0;
    'names: while place < texts.len() {
        if name <= texts[place].0 {
            return place;
        }
        place += 1;
    }
    place
}

// Puts a text at a name that doesn't stand behind the last one; at a name that is there, the text
// takes the place of the one before.
fn put_text<'a>(
    texts: &mut Vec<(&'a str, &'a str)>,
    name: &'a str,
    text: &'a str,
) -> Result<(), Fault>
    ensures fault { Refuses result None }
    ensures ok { OnOk result (texts_object texts.new.items
        ≡ put name.now (string text.now) (texts_object texts.old.items)) }
    ensures rising { (last : Bor Text) → is_behind (Some last) name.now ≡ false
        → IsRising (Some last) texts.old.items
        → OnOk result (IsRising (Some last) texts.new.items) }
{
    let place = place_of(texts.as_slice(), name);
    if place < texts.len() && texts[place].0 == name {
        texts[place] = (name, text);
        return Ok(());
    }
    texts.insert(place, (name, text))?;
    Ok(())
}

// The names and texts of an object, behind its brace, in the order of the names: nothing, where a
// value is no text, where too many names come in another order, or where it isn't whole.
fn read_labels<'a>(
    alloc: Global,
    reader: &mut Reader<'a>,
) -> Result<Option<Vec<(&'a str, &'a str)>>, Fault>
    ensures fault { Refuses result None }
    ensures ok { IfOk result (λ found. IfSome found (λ texts.
        converted (λ ms. of_members ms no_members)
        (members (value 125) (length reader.old) reader.old)
        ≡ Some (texts_object texts.items, reader.new))) }
{
    let mut texts = Vec::new(alloc);
    let mut last = None;
    'members: loop {
        match reader.next_key() {
            Ok(Some(name)) => {
                let Some(Token::String(text)) = reader.next() else {
                    return Ok(None);
                };
                if is_behind(last, name) {
                    texts.push((name, text))?;
                    last = Some(name);
                } else if texts.len() < MOST_LABELS {
                    put_text(&mut texts, name, text)?;
                } else {
                    return Ok(None);
                }
            }
            Ok(None) => return Ok(Some(texts)),
            Err(_) => return Ok(None),
        }
    }
}

// The value of a member: nothing, where it is neither a text nor such an object of texts.
fn read_value<'a>(
    alloc: Global,
    reader: &mut Reader<'a>,
) -> Result<Option<LineValue<'a, 'a>>, Fault>
    ensures fault { Refuses result None }
    ensures ok { IfOk result (λ found. IfSome found (λ one.
        converted of_json (value 126 reader.old) ≡ Some (value_of one, reader.new))) }
{
    match reader.next() {
        Some(Token::String(text)) => Ok(Some(LineValue::Text(text))),
        Some(Token::BeginObject) => match read_labels(alloc, reader)? {
            Some(texts) => Ok(Some(LineValue::Labels(texts))),
            None => Ok(None),
        },
        _ => Ok(None),
    }
}

// The members of an object, behind its brace: nothing, where a value isn't plain, where they are
// too many, or where it isn't whole.
fn read_members<'a>(
    alloc: Global,
    reader: &mut Reader<'a>,
) -> Result<Option<Vec<Member<'a, 'a>>>, Fault>
    ensures fault { Refuses result None }
    ensures ok { IfOk result (λ found. IfSome found (λ ms.
        converted (λ ms. of_members ms no_members)
        (members (value 126) (length reader.old) reader.old)
        ≡ Some (object_of ms.items, reader.new))) }
{
    let mut members = Vec::with_capacity(alloc, MOST)?;
    'members: loop {
        match reader.next_key() {
            Ok(Some(name)) => {
                if members.len() == MOST {
                    return Ok(None);
                }
                let Some(value) = read_value(alloc, reader)? else {
                    return Ok(None);
                };
                members.push((name, value))?;
            }
            Ok(None) => return Ok(Some(members)),
            Err(_) => return Ok(None),
        }
    }
}

/// The members of a plain line, borrowed from it: nothing, where it isn't plain.
pub(crate) fn read_plain<'a>(
    alloc: Global,
    text: &'a str,
    scratch: &'a mut Scratch,
) -> Result<Option<Vec<Member<'a, 'a>>>, Fault>
    ensures fault { Refuses result None }
    ensures ok { IfOk result (λ found. IfSome found (λ ms.
        read text.now ≡ Some (object (object_of ms.items)))) }
{
    let Ok(mut reader) = Reader::new(text, scratch) else {
        return Err(Fault::OutOfMemory);
    };
    let Some(Token::BeginObject) = reader.next() else {
        return Ok(None);
    };
    let Some(members) = read_members(alloc, &mut reader)? else {
        return Ok(None);
    };
    if reader.next().is_some() {
        return Ok(None);
    }
    Ok(Some(members))
}
