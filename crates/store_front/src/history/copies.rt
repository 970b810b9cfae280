//! Copies of histories, of their entries, and of stores at rest.
ghost use Rattle.std.specs.Prelude.{◌≡◌, None, IfOk};
ghost use Rattle.meta_types.specs.Faults.{Refuses};
ghost use Rattle.store_front.specs.Entries.{event_of, answer_of};

use crate::event::entry::Entry;
use crate::event::event::{Answer, Event};
use crate::history::base::{Base, History};
use back_model::BackLists;
use meta_types::{Fault, ShortName};
use std::alloc::Global;

impl Event {
    /// The same event. What was asked is shared.
    pub fn copy(&self) -> Result<Event, Fault>
        ensures fault { Refuses result None }
        ensures ok { IfOk result (λ event. event_of event ≡ event_of self.now) }
    {
        match self {
            Event::Requested(request) => Ok(Event::Requested(request.share()?)),
            Event::Collect(at, dry, workers) => Ok(Event::Collect(*at, *dry, *workers)),
            Event::RemoveCollect(removal, at, workers) => {
                Ok(Event::RemoveCollect(removal.share()?, *at, *workers))
            }
        }
    }
}

impl Answer {
    /// The same answer. A reply is shared; a report is copied.
    pub fn copy(&self, alloc: Global) -> Result<Answer, Fault>
        ensures fault { Refuses result None }
        ensures ok { IfOk result (λ answer. answer_of answer ≡ answer_of self.now) }
    {
        match self {
            Answer::Done => Ok(Answer::Done),
            Answer::Answered(reply) => Ok(Answer::Answered(reply.share()?)),
            Answer::Reported(report) => Ok(Answer::Reported(report.copy(alloc)?)),
            Answer::Refused(fault) => Ok(Answer::Refused(*fault)),
        }
    }
}

impl Entry {
    /// The same entry.
    pub fn copy(&self, alloc: Global) -> Result<Entry, Fault>
        ensures fault { Refuses result None }
        ensures ok { IfOk result (λ entry. entry ≡ self.now) }
    {
        let event = self.event.copy()?;
        let answer = self.answer.copy(alloc)?;
        Ok(Entry {
            session: self.session,
            event,
            answer,
        })
    }
}

fn copy_log(alloc: Global, log: &[Entry]) -> Result<Vec<Entry>, Fault>
    ensures fault { Refuses result None }
    ensures ok { IfOk result (λ copies. copies.items ≡ log.now) }
{
    let mut copies = Vec::with_capacity(alloc, log.len())?;
    for entry in log {
        copies.push(entry.copy(alloc)?)?;
    }
    Ok(copies)
}

fn copy_snaps(
    alloc: Global,
    snaps: &[(ShortName, u64, Option<u64>)],
) -> Result<Vec<(ShortName, u64, Option<u64>)>, Fault>
    ensures fault { Refuses result None }
    ensures ok { IfOk result (λ copies. copies.items ≡ snaps.now) }
{
    let mut copies = Vec::with_capacity(alloc, snaps.len())?;
    for snap in snaps {
        copies.push((snap.0.copy()?, snap.1, snap.2))?;
    }
    Ok(copies)
}

fn copy_numbers(alloc: Global, numbers: &[u64]) -> Result<Vec<u64>, Fault>
    ensures fault { Refuses result None }
    ensures ok { IfOk result (λ copies. copies.items ≡ numbers.now) }
{
    let mut copies = Vec::with_capacity(alloc, numbers.len())?;
    for number in numbers {
        copies.push(*number)?;
    }
    Ok(copies)
}

impl Base {
    /// The same store at rest.
    pub fn copy(&self, alloc: Global) -> Result<Base, Fault>
        ensures fault { Refuses result None }
        ensures ok { IfOk result (λ base. base ≡ self.now) }
    {
        let records = self.records.copy(alloc)?;
        let blobs = self.lists.blobs.copy(alloc)?;
        let snapshots = copy_snaps(alloc, &self.lists.snapshots)?;
        let ingests = copy_numbers(alloc, &self.lists.ingests)?;
        Ok(Base {
            records,
            lists: BackLists {
                blobs,
                snapshots,
                ingests,
            },
        })
    }
}

// The history of this base and this log.
pub(crate) fn copy_history(alloc: Global, base: &Base, log: &[Entry]) -> Result<History, Fault>
    ensures fault { Refuses result None }
    ensures ok { IfOk result (λ history. history ≡ record { base = base.now; log = log.now }) }
{
    let base = base.copy(alloc)?;
    let log = copy_log(alloc, log)?;
    Ok(History { base, log })
}

impl History {
    /// The same history.
    pub fn copy(&self, alloc: Global) -> Result<History, Fault>
        ensures fault { Refuses result None }
        ensures ok { IfOk result (λ history. history ≡ self.now) }
    {
        copy_history(alloc, &self.base, &self.log)
    }
}
