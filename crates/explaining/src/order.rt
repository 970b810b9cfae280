//! The order of things.
ghost use Rattle.std.specs.Prelude.{◌≡◌, ◌∷◌, []};
ghost use Rattle.meta_types.specs.Keys.{Key, is_before};
ghost use Rattle.meta_types.specs.Explanations.{kind_place, group_of, name_of, mode_place, goes_before};
ghost use Rattle.explaining.specs.ThingRows.{thing_of};

use crate::thing_row::{ThingRow, namespace_of};
use meta_types::{Digest, Mode};
use std::cmp::Ordering;

fn kind_place(thing: ThingRow<'_>) -> u8
    ensures { result ≡ kind_place (thing_of thing.entry) }
{
    match thing {
        ThingRow::Image(_) => 0,
        ThingRow::Container(_) => 1,
        ThingRow::Lease(_) => 2,
        ThingRow::Ingest(_) => 3,
        ThingRow::Content(_, _) => 4,
        ThingRow::Snapshot(_, _) => 5,
    }
}

fn group_of<'a>(thing: ThingRow<'a>) -> &'a str
    ensures { result.now ≡ group_of (thing_of thing.entry) }
{
    match thing {
        ThingRow::Image(_) => "",
        ThingRow::Container(_) => "",
        ThingRow::Lease(_) => "",
        ThingRow::Ingest(_) => "",
        ThingRow::Content(_, _) => "",
        ThingRow::Snapshot(_, row) => row.key.snapshotter.text(),
    }
}

fn mode_place(thing: ThingRow<'_>) -> u8
    ensures { result ≡ mode_place (thing_of thing.entry) }
{
    match thing {
        ThingRow::Image(_) => 0,
        ThingRow::Container(_) => 0,
        ThingRow::Lease(_) => 0,
        ThingRow::Ingest(_) => 0,
        ThingRow::Content(Mode::Full, _) => 0,
        ThingRow::Content(Mode::Flat, _) => 1,
        ThingRow::Snapshot(Mode::Full, _) => 0,
        ThingRow::Snapshot(Mode::Flat, _) => 1,
    }
}

// Compares keys by their first texts; `rest` is the answer for the texts behind.
fn text_before(a: &str, b: &str, rest: bool) -> bool
    ensures { (x y : Key) → rest ≡ is_before x y → result ≡ is_before (a.now ∷ x) (b.now ∷ y) }
{
    match a.cmp(b) {
        Ordering::Less => true,
        Ordering::Equal => rest,
        Ordering::Greater => false,
    }
}

// The same where the second text is the name of a thing.
fn before_name(a: &str, b: ThingRow<'_>, rest: bool) -> bool
    ensures { (x y : Key) → rest ≡ is_before x y
        → result ≡ is_before (a.now ∷ x) (name_of (thing_of b.entry) ∷ y) }
{
    match b {
        ThingRow::Image(row) => text_before(a, row.name.text(), rest),
        ThingRow::Container(row) => text_before(a, row.name.text(), rest),
        ThingRow::Lease(row) => text_before(a, row.id().text(), rest),
        ThingRow::Ingest(row) => text_before(a, row.name.text(), rest),
        ThingRow::Content(_, row) => {
            let text = row.digest.text();
            text_before(a, text.as_str(), rest)
        }
        ThingRow::Snapshot(_, row) => text_before(a, row.key.name.text(), rest),
    }
}

// The same where the first one is a digest: two are compared as they are kept.
fn digest_before(a: &Digest, b: ThingRow<'_>, rest: bool) -> bool
    ensures { (x y : Key) → rest ≡ is_before x y
        → result ≡ is_before (a.now ∷ x) (name_of (thing_of b.entry) ∷ y) }
{
    match b {
        ThingRow::Content(_, row) => match a.cmp(&row.digest) {
            Ordering::Less => true,
            Ordering::Equal => rest,
            Ordering::Greater => false,
        },
        _ => {
            let text = a.text();
            before_name(text.as_str(), b, rest)
        }
    }
}

// The same of the names of two things.
fn name_before(a: ThingRow<'_>, b: ThingRow<'_>, rest: bool) -> bool
    ensures { (x y : Key) → rest ≡ is_before x y
        → result ≡ is_before (name_of (thing_of a.entry) ∷ x) (name_of (thing_of b.entry) ∷ y) }
{
    match a {
        ThingRow::Image(row) => before_name(row.name.text(), b, rest),
        ThingRow::Container(row) => before_name(row.name.text(), b, rest),
        ThingRow::Lease(row) => before_name(row.id().text(), b, rest),
        ThingRow::Ingest(row) => before_name(row.name.text(), b, rest),
        ThingRow::Content(_, row) => digest_before(&row.digest, b, rest),
        ThingRow::Snapshot(_, row) => before_name(row.key.name.text(), b, rest),
    }
}

// The same of keys that begin with a place.
fn place_before(a: u8, b: u8, rest: bool) -> bool
    ensures { (x y : Key) → rest ≡ is_before x y
        → result ≡ is_before ((a ∷ []) ∷ x) ((b ∷ []) ∷ y) }
{
    match a.cmp(&b) {
        Ordering::Less => true,
        Ordering::Equal => rest,
        Ordering::Greater => false,
    }
}

// Whether the first thing goes before the second: by kinds, then by keys.
pub(crate) fn goes_before(a: ThingRow<'_>, b: ThingRow<'_>) -> bool
    ensures { result ≡ goes_before (thing_of a.entry) (thing_of b.entry) }
{
    let modes = place_before(mode_place(a), mode_place(b), false);
    let names = name_before(a, b, modes);
    let groups = text_before(group_of(a), group_of(b), names);
    let namespaces = text_before(namespace_of(a), namespace_of(b), groups);
    place_before(kind_place(a), kind_place(b), namespaces)
}
