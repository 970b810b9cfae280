//! The numbers of what a row references.
ghost use Rattle.std.specs.Prelude.{◌≡◌, ◌++◌, ◌∷◌, [], OnOk, None, IfOk, slice_get};
ghost use Rattle.std.specs.List.{cons_option};
ghost use Rattle.meta_types.specs.Faults.{Refuses};
ghost use Rattle.meta_types.specs.declared.resource.Mode.TheVariants.{Full};
ghost use Rattle.meta_types.specs.declared.resource.Resource.TheVariants.{Content, Snapshot};
ghost use Rattle.gc_graph.specs.Targets.{node, content_target, snapshot_target, label_targets};
ghost use Rattle.gc_graph.specs.Built.{numbers_in};

use crate::book::NodeBook;
use crate::rows::near::Near;
use gc_labels::{content_ref, snapshot_ref};
use meta_types::{Digest, Fault, Labels, Mode, Name, ShortName};
use std::alloc::Global;

// Adds a number, where there is one.
pub(crate) fn push_number(number: Option<u32>, numbers: &mut Vec<u32>) -> Result<(), Fault>
    ensures fault { Refuses result None }
    ensures ok { OnOk result (numbers.new.items ≡ numbers.old.items ++ cons_option number []) }
{
    if let Some(number) = number {
        numbers.push(number)?;
    }
    Ok(())
}

/// What a row's references are looked up in: its namespace, in a book.
#[derive(Clone, Copy)]
pub(crate) struct Lookup<'b, 'a> {
    pub(crate) alloc: Global,
    pub(crate) book: &'b NodeBook<'a>,
    pub(crate) ns: &'b ShortName,
}

// Adds the number of the content that a text names in a namespace.
fn push_content(
    lookup: &Lookup<'_, '_>,
    digest: &str,
    near: &mut Near,
    numbers: &mut Vec<u32>,
) -> Result<(), Fault>
    ensures fault { Refuses result None }
    ensures ok { OnOk result (numbers.new.items ≡ numbers.old.items
        ++ numbers_in lookup.now.book.now
        (node lookup.now.ns.now (Content digest.now) Full ∷ [])) }
{
    let book = lookup.book;
    match Digest::read(lookup.alloc, digest) {
        Ok(digest) => {
            let number = book.content_number(lookup.ns, &digest, Mode::Full, near);
            push_number(number, numbers)
        }
        Err(Fault::InvalidArgument) => {
            // The book has no node of a text that isn't allowed.
            book.learn_allowed();
            Ok(())
        }
        Err(_) => Err(Fault::OutOfMemory),
    }
}

// The same of a snapshot, whose texts are read.
fn push_read_snapshot(
    lookup: &Lookup<'_, '_>,
    snapshotter: &str,
    name: &str,
    near: &mut Near,
    numbers: &mut Vec<u32>,
) -> Result<(), Fault>
    ensures fault { Refuses result None }
    ensures ok { OnOk result (numbers.new.items ≡ numbers.old.items
        ++ numbers_in lookup.now.book.now
        (node lookup.now.ns.now (Snapshot snapshotter.now name.now) Full ∷ [])) }
{
    let book = lookup.book;
    match ShortName::read(lookup.alloc, snapshotter) {
        Ok(snapshotter) => match Name::read(lookup.alloc, name) {
            Ok(name) => {
                let ns = lookup.ns;
                let number = book.snapshot_number(ns, &snapshotter, &name, Mode::Full, near);
                push_number(number, numbers)
            }
            Err(Fault::InvalidArgument) => {
                // The book has no node of a text that isn't allowed.
                book.learn_allowed();
                Ok(())
            }
            Err(fault) => Err(fault),
        },
        Err(Fault::InvalidArgument) => {
            // The book has no node of a text that isn't allowed.
            book.learn_allowed();
            Ok(())
        }
        Err(fault) => Err(fault),
    }
}

// The same of a snapshot; texts are read where it isn't the one that is near.
fn push_snapshot(
    lookup: &Lookup<'_, '_>,
    snapshotter: &str,
    name: &str,
    near: &mut Near,
    numbers: &mut Vec<u32>,
) -> Result<(), Fault>
    ensures fault { Refuses result None }
    ensures ok { OnOk result (numbers.new.items ≡ numbers.old.items
        ++ numbers_in lookup.now.book.now
        (node lookup.now.ns.now (Snapshot snapshotter.now name.now) Full ∷ [])) }
{
    let number = lookup
        .book
        .near_snapshot_number(lookup.ns, snapshotter, name, near);
    if number.is_some() {
        return push_number(number, numbers);
    }
    push_read_snapshot(lookup, snapshotter, name, near, numbers)
}

fn push_label_content(
    lookup: &Lookup<'_, '_>,
    key: &str,
    value: &str,
    near: &mut Near,
    numbers: &mut Vec<u32>,
) -> Result<(), Fault>
    ensures fault { Refuses result None }
    ensures ok { OnOk result (numbers.new.items ≡ numbers.old.items
        ++ numbers_in lookup.now.book.now
        (content_target lookup.now.ns.now (key.now, value.now))) }
{
    if content_ref(key) {
        push_content(lookup, value, near, numbers)
    } else {
        Ok(())
    }
}

fn push_label_snapshot(
    lookup: &Lookup<'_, '_>,
    key: &str,
    value: &str,
    near: &mut Near,
    numbers: &mut Vec<u32>,
) -> Result<(), Fault>
    ensures fault { Refuses result None }
    ensures ok { OnOk result (numbers.new.items ≡ numbers.old.items
        ++ numbers_in lookup.now.book.now
        (snapshot_target lookup.now.ns.now (key.now, value.now))) }
{
    match snapshot_ref(key) {
        Some(snapshotter) => push_snapshot(lookup, snapshotter, value, near, numbers),
        None => Ok(()),
    }
}

// Where keys of references differ first: behind `containerd.io/gc.ref.`.
const KIND: usize = 21;

// The byte there.
fn kind_of(key: &str) -> Option<u8>
    ensures { result ≡ slice_get key.now 21 }
{
    key.as_bytes().get(KIND).copied()
}

// Adds the number of what a label references in a namespace. One byte tells which keys need no
// reading.
fn push_label(
    lookup: &Lookup<'_, '_>,
    key: &str,
    value: &str,
    near: &mut Near,
    numbers: &mut Vec<u32>,
) -> Result<(), Fault>
    ensures fault { Refuses result None }
    ensures ok { OnOk result (numbers.new.items ≡ numbers.old.items
        ++ numbers_in lookup.now.book.now
        (content_target lookup.now.ns.now (key.now, value.now)
        ++ snapshot_target lookup.now.ns.now (key.now, value.now))) }
{
    let Some(kind) = kind_of(key) else {
        return Ok(());
    };
    if kind == b'c' {
        push_label_content(lookup, key, value, near, numbers)?;
        return Ok(());
    }
    if kind == b's' {
        push_label_snapshot(lookup, key, value, near, numbers)?;
        return Ok(());
    }
    Ok(())
}

// Adds the numbers of what labels reference in a namespace.
pub(crate) fn push_labels(
    lookup: &Lookup<'_, '_>,
    labels: &Labels,
    near: &mut Near,
    numbers: &mut Vec<u32>,
) -> Result<(), Fault>
    ensures fault { Refuses result None }
    ensures ok { OnOk result (numbers.new.items ≡ numbers.old.items
        ++ numbers_in lookup.now.book.now (label_targets lookup.now.ns.now labels.now)) }
{
    let entries = labels.entries();
    for entry in entries {
        push_label(lookup, &entry.0, &entry.1, near, numbers)?;
    }
    Ok(())
}
