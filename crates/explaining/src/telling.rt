//! A path as the steps of an answer.
ghost use Rattle.std.specs.Prelude.{◌≡◌, ◌<◌, length, map, drop, None, Some, IfOk, codes, option_map};
ghost use Rattle.meta_types.specs.Faults.{Refuses};
ghost use Rattle.meta_types.specs.Labels.{value_of};
ghost use Rattle.meta_types.specs.CollectorLabels.{expire_key};
ghost use Rattle.meta_types.specs.EndTexts.{end_text};
ghost use Rattle.meta_types.specs.Explanations.{object_in, mode_of, expire_of, step_of, AreTold};
ghost use Rattle.explaining.specs.ThingRows.{thing_of};
ghost use Rattle.explaining.specs.Reasons.{by_of};
ghost use Rattle.explaining.specs.StepWords.{AreLinked, root_word, IsBy};

mod end_text;

use crate::reasons::{Why, reason};
use crate::telling::end_text::end_text;
use crate::thing_row::ThingRow;
use meta_types::{By, Fault, IngestRow, Labels, Mode, Object, PathStep, RawText, Resource};
use std::alloc::Global;

// The time after which a lease is collected (containerd garbage-collection.md).
const EXPIRE: &str = "containerd.io/gc.expire";

fn text_of(alloc: Global, text: &str) -> Result<RawText<'static>, Fault>
    ensures fault { Refuses result None }
    ensures ok { IfOk result (λ copy. copy ≡ text.now) }
{
    let text = String::from_str(alloc, text)?;
    Ok(RawText::new(text))
}

fn by_of(alloc: Global, why: Why<'_>) -> Result<By, Fault>
    ensures fault { Refuses result None }
    ensures ok { IfOk result (λ by. by ≡ by_of why.entry) }
{
    match why {
        Why::Target => Ok(By::Target),
        Why::Snapshot => Ok(By::Snapshot),
        Why::Resource => Ok(By::Resource),
        Why::Expected => Ok(By::Expected),
        Why::Parent => Ok(By::Parent),
        Why::Label(key) => Ok(By::Label(text_of(alloc, key)?)),
    }
}

fn object_in(thing: ThingRow<'_>) -> Result<Object, Fault>
    ensures fault { Refuses result None }
    ensures ok { IfOk result (λ object. object ≡ object_in (thing_of thing.entry)) }
{
    match thing {
        ThingRow::Image(row) => Ok(Object::Image(row.name.copy()?)),
        ThingRow::Container(row) => Ok(Object::Container(row.name.copy()?)),
        ThingRow::Lease(row) => Ok(Object::Lease(row.id().copy()?)),
        ThingRow::Ingest(row) => Ok(Object::Held(Resource::Ingest(row.name.copy()?))),
        ThingRow::Content(_, row) => Ok(Object::Held(Resource::Content(row.digest.copy()?))),
        ThingRow::Snapshot(_, row) => {
            let snapshotter = row.key.snapshotter.copy()?;
            let name = row.key.name.copy()?;
            Ok(Object::Held(Resource::Snapshot(snapshotter, name)))
        }
    }
}

fn mode_of(thing: ThingRow<'_>) -> Option<Mode>
    ensures { result ≡ mode_of (thing_of thing.entry) }
{
    match thing {
        ThingRow::Content(mode, _) => Some(mode),
        ThingRow::Snapshot(mode, _) => Some(mode),
        _ => None,
    }
}

fn expire_in(alloc: Global, labels: &Labels) -> Result<Option<RawText<'static>>, Fault>
    ensures fault { Refuses result None }
    ensures ok { IfOk result (λ text. text ≡ value_of labels.now (codes "containerd.io/gc.expire")) }
{
    match labels.get(EXPIRE) {
        None => Ok(None),
        Some(text) => Ok(Some(text_of(alloc, text)?)),
    }
}

// The own end of an ingest.
fn end_of(alloc: Global, row: &IngestRow) -> Result<Option<RawText<'static>>, Fault>
    ensures fault { Refuses result None }
    ensures ok { IfOk result (λ text. text ≡ option_map (λ end. end_text end.0) row.now.expires) }
{
    match row.expires {
        None => Ok(None),
        Some(end) => Ok(Some(end_text(alloc, end)?)),
    }
}

fn expire_of(
    alloc: Global,
    profile: u8,
    thing: ThingRow<'_>,
) -> Result<Option<RawText<'static>>, Fault>
    ensures fault { Refuses result None }
    ensures ok { IfOk result (λ text. text ≡ expire_of profile (thing_of thing.entry)) }
{
    match thing {
        ThingRow::Image(row) => {
            if profile == 2 {
                expire_in(alloc, &row.labels)
            } else {
                Ok(None)
            }
        }
        ThingRow::Lease(row) => expire_in(alloc, row.labels()),
        ThingRow::Ingest(row) => end_of(alloc, row),
        _ => Ok(None),
    }
}

fn step_of(alloc: Global, profile: u8, by: By, thing: ThingRow<'_>) -> Result<PathStep, Fault>
    ensures fault { Refuses result None }
    ensures ok { IfOk result (λ step. step ≡ step_of profile by (thing_of thing.entry)) }
{
    let object = object_in(thing)?;
    let expire = expire_of(alloc, profile, thing)?;
    Ok(PathStep {
        by,
        object,
        mode: mode_of(thing),
        expire,
    })
}

fn root_word(ended: bool) -> By
    ensures { result ≡ root_word ended }
{
    if ended { By::Ended } else { By::Root }
}

// The reason of the thing at a place of a path, whose root stands last.
fn by_at(alloc: Global, ended: bool, path: &[ThingRow<'_>], place: usize) -> Result<By, Fault>
    requires place { place < length path.now }
    requires linked { AreLinked (map thing_of path.now) }
    ensures fault { Refuses result None }
    ensures ok { IfOk result (λ by. IsBy (root_word ended) (drop place (map thing_of path.now)) by) }
{
    let behind = place + 1;
    if behind == path.len() {
        return Ok(root_word(ended));
    }
    match reason(alloc, path[behind], path[place])? {
        Some(why) => {
            // For the prover: the result is opened, not passed on.
            let by = by_of(alloc, why)?;
            Ok(by)
        }
        None => unreachable!(),
    }
}

/// The steps of a path, whose things stand from the last one back, from the root on.
pub(crate) fn steps_of(
    alloc: Global,
    profile: u8,
    ended: bool,
    path: &[ThingRow<'_>],
) -> Result<Vec<PathStep>, Fault>
    requires { AreLinked (map thing_of path.now) }
    ensures fault { Refuses result None }
    ensures ok { IfOk result (λ steps. AreTold profile (root_word ended) (map thing_of path.now)
        steps.items) }
{
    let mut steps = Vec::new(alloc);
    for done in 0..path.len() {
        let place = path.len() - 1 - done;
        let by = by_at(alloc, ended, path, place)?;
        steps.push(step_of(alloc, profile, by, path[place])?)?;
    }
    Ok(steps)
}
