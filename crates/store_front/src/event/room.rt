//! What a request and a collection share: room for an entry, and the entry in both lists.
ghost use Rattle.std.specs.Prelude.{◌≡◌, ◌≢◌, ◌⊎◌, ◌<◌, Ok, Err, None, OnOk, IsOk, vec_len};
ghost use Rattle.std.specs.Vec.{vec_capacity};
ghost use Rattle.meta_types.specs.Faults.{Refuses};
ghost use Rattle.meta_types.specs.declared.fault.Fault.TheVariants.{OutOfMemory};
ghost use Rattle.meta_types.specs.declared.reply.Reply.TheVariants as P;
ghost use Rattle.store_front.specs.KeptAnswers.{kept_reply, kept_report, log_after, list_after};

use crate::event::entry::{Entry, SessionEntry};
use crate::event::event::Answer;
use crate::event::kept_report::KeptReport;
use crate::event::pairs::{Answers, Events};
use collection::{Copies, Reports, WithHistory, WithoutHistory};
use gc_report::Report;
use meta_types::{Fault, Reply};
use std::alloc::Global;
use std::sync::ledger::{Book, Ledger, Share};

// Room for one entry more in the log, and in the session's list.
pub(crate) fn make_room(log: &mut Vec<Entry>, list: &mut Vec<SessionEntry>) -> Result<(), Fault>
    ensures fault { Refuses result None }
    ensures log { log.new.items ≡ log.old.items }
    ensures list { list.new.items ≡ list.old.items }
    ensures log_room { OnOk result (vec_len log.new < vec_capacity log.new) }
    ensures list_room { OnOk result (vec_len list.new < vec_capacity list.new) }
{
    log.reserve(1)?;
    list.reserve(1)?;
    Ok(())
}

// Room for the reports of an entry in the log, and of one in the session's list.
pub(crate) fn report_rooms(alloc: Global) -> Result<(KeptReport, KeptReport), Fault>
    ensures { Refuses result None }
{
    let one = KeptReport::room(alloc)?;
    let other = KeptReport::room(alloc)?;
    Ok((one, other))
}

// Puts the event with its answer, where one is kept, at the end of the log and of the session's
// list, and counts it.
fn put<L: Ledger>(
    log: &mut Vec<Entry>,
    list: &mut Vec<SessionEntry>,
    book: &mut Book<L>,
    share: &mut Share<L>,
    number: u32,
    events: Events,
    kept: Option<Answers>,
)
    requires log_room { vec_len log.old < vec_capacity log.old }
    requires list_room { vec_len list.old < vec_capacity list.old }
    requires parts { 0 < share.old.parts }
    ensures log { log.new.items ≡ log_after log.old.items number events kept }
    ensures list { list.new.items ≡ list_after list.old.items events kept }
    ensures total { book.old.total ≡ vec_len log.old → book.new.total ≡ vec_len log.new }
    ensures amount { share.old.amount ≡ vec_len list.old
        → share.new.amount ≡ vec_len list.new }
    ensures parts { share.new.parts ≡ share.old.parts }
{
    let Some(answers) = kept else {
        return;
    };
    log.push_reserved(Entry {
        session: number,
        event: events.log,
        answer: answers.log,
    });
    list.push_reserved(SessionEntry {
        event: events.list,
        answer: answers.list,
    });
    book.add(share, 1);
}

// The entry of a reply, where one is kept. If memory runs out for it there is none, and the reply
// is lost.
pub(crate) fn keep_reply<L: Ledger>(
    alloc: Global,
    log: &mut Vec<Entry>,
    list: &mut Vec<SessionEntry>,
    book: &mut Book<L>,
    share: &mut Share<L>,
    number: u32,
    events: Events,
    outcome: Result<Reply, Fault>,
) -> Result<Reply, Fault>
    requires log_room { vec_len log.old < vec_capacity log.old }
    requires list_room { vec_len list.old < vec_capacity list.old }
    requires parts { 0 < share.old.parts }
    ensures kept { (result ≡ outcome) ⊎ ((result ≡ Err OutOfMemory) × IsOk outcome
        × (outcome ≢ Ok P.Done)) }
    ensures log { log.new.items ≡ log_after log.old.items number events (kept_reply result) }
    ensures list { list.new.items ≡ list_after list.old.items events (kept_reply result) }
    ensures total { book.old.total ≡ vec_len log.old → book.new.total ≡ vec_len log.new }
    ensures amount { share.old.amount ≡ vec_len list.old
        → share.new.amount ≡ vec_len list.new }
    ensures parts { share.new.parts ≡ share.old.parts }
{
    match Answers::of_reply(alloc, &outcome) {
        Ok(kept) => {
            put(log, list, book, share, number, events, kept);
            outcome
        }
        Err(_) => Err(Fault::OutOfMemory),
    }
}

// The entry of a report, or of a refusal that is kept, in the room that is there.
pub(crate) fn keep_report<L: Ledger>(
    log: &mut Vec<Entry>,
    list: &mut Vec<SessionEntry>,
    book: &mut Book<L>,
    share: &mut Share<L>,
    number: u32,
    events: Events,
    rooms: (KeptReport, KeptReport),
    outcome: Result<Reports<WithHistory>, Fault>,
) -> Result<Report, Fault>
    requires log_room { vec_len log.old < vec_capacity log.old }
    requires list_room { vec_len list.old < vec_capacity list.old }
    requires parts { 0 < share.old.parts }
    ensures same { result ≡ outcome }
    ensures log { log.new.items ≡ log_after log.old.items number events (kept_report result) }
    ensures list { list.new.items ≡ list_after list.old.items events (kept_report result) }
    ensures total { book.old.total ≡ vec_len log.old → book.new.total ≡ vec_len log.new }
    ensures amount { share.old.amount ≡ vec_len list.old
        → share.new.amount ≡ vec_len list.new }
    ensures parts { share.new.parts ≡ share.old.parts }
{
    match outcome {
        Ok(reports) => {
            let (caller, copies) = reports.apart();
            let Copies {
                log: one,
                list: other,
            } = copies;
            let (first, second) = rooms;
            let answers = Answers {
                log: Answer::Reported(first.filled(one)),
                list: Answer::Reported(second.filled(other)),
            };
            put(log, list, book, share, number, events, Some(answers));
            Ok(caller)
        }
        Err(fault) => {
            let kept = Answers::of_fault(fault);
            put(log, list, book, share, number, events, kept);
            Err(fault)
        }
    }
}

// The report, where nothing is kept of it.
pub(crate) fn report_alone(outcome: Result<Reports<WithoutHistory>, Fault>) -> Result<Report, Fault>
    ensures { result ≡ outcome }
{
    match outcome {
        Ok(reports) => Ok(reports.alone()),
        Err(fault) => Err(fault),
    }
}
