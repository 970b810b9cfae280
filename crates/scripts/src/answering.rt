//! Answers one line of a script.
ghost use Rattle.std.specs.Prelude.{◌≡◌, ◌≤◌, ◌<◌, length, true, false, IfOk, IfErr, OnErr, IfSome, IfNone, Option, Some, None, string_bytes};
ghost use Rattle.meta_types.specs.Faults.{Refuses};
ghost use Rattle.meta_types.specs.Limits.{is_worker_count};
ghost use Rattle.meta_types.specs.Steps.{answered, refused};
ghost use Rattle.meta_types.specs.declared.fault.Fault.TheVariants.{OutOfMemory as out_of_memory_fault};
ghost use Rattle.meta_types.specs.Questions.{explains, foresees, of_event, of_shown, of_question};
ghost use Rattle.meta_types.specs.Shown.{shows_rows};
ghost use Rattle.reply_line.specs.Replies.{answer_text};
ghost use Rattle.reply_line.specs.Explained.{told_of};
ghost use Rattle.scripts.specs.Changes.{names_no_row, names_no_object, names_nothing, has_effect, may_change, is_refusal, is_report, after_line, Changes};
ghost use Rattle.scripts.specs.LineAnswers.{line_answer_of};
ghost use Rattle.scripts.specs.LineSteps.{Supplied, line_step, IsLineAnswer, IsTrueAt};
ghost use Rattle.scripts.specs.ReplyTexts.{is_read_only, IsRendered, reply_text_bytes, reply_bytes};

use crate::crew::LineCrew;
use crate::line_answer::LineAnswer;
use crate::line_memory::LineMemory;
use crate::reply_text::{Answered, ReplyText};
use crate::reserve::reserving::{settle, stored_in};
use crate::serving::execute;
use gc_report::{Impact, Objects, Removed, Report};
use meta_types::{Explanation, Fault, Reply, ShownRow, Workers};
use reply_line::{
    explanation_text, impact_text, refusal_text, reply_text, room_for_rows, there_text,
};
use request_line::read_line;
use std::alloc::Global;
use std::borrow::CowStr;
use std::mem::drop;
use std::sync::Wait;
use std::sync::ledger::Ledger;
use std::thread::Threads;
use store_front::{MemLocked, Session, WithoutHistory};

// What a line asks for, done.
fn do_once<L: Ledger, R: Threads + Wait + Sync>(
    crew: &LineCrew<'_, R>,
    locked: &mut MemLocked<L, WithoutHistory>,
    session: &mut Session<L>,
    line: &[u8],
    memory: &mut LineMemory,
) -> Result<LineAnswer, Fault>
    requires opened { session.old.number < locked.old.opened }
    requires length { length line.now ≤ 65536 }
    ensures ok { IfOk result (λ answer. IsLineAnswer locked.old.store.state line.now
        (line_answer_of answer) locked.new.store.state) }
    ensures err { IfErr result (λ fault. IsLineAnswer locked.old.store.state line.now
        (of_event (refused fault)) locked.new.store.state) }
    ensures still { IfOk result (λ answer. may_change answer ≡ false
        → locked.new.store.state ≡ locked.old.store.state) }
    ensures opened { session.new.number < locked.new.opened }
{
    let command = read_line(crew.alloc, line, &mut memory.scratch)?;
    let done = execute(crew, locked, session, &command, &mut memory.reserves);
    // For the prover: dropped by a call, not in place.
    drop(command);
    done
}

// What a line asks for, done: nothing where memory refuses to read it.
fn try_line<L: Ledger, R: Threads + Wait + Sync>(
    crew: &LineCrew<'_, R>,
    locked: &mut MemLocked<L, WithoutHistory>,
    session: &mut Session<L>,
    line: &[u8],
    memory: &mut LineMemory,
) -> Option<Result<LineAnswer, Fault>>
    requires opened { session.old.number < locked.old.opened }
    requires length { length line.now ≤ 65536 }
    ensures ok { IfSome result (λ done. IfOk done (λ answer. IsLineAnswer locked.old.store.state
        line.now (line_answer_of answer) locked.new.store.state)) }
    ensures err { IfSome result (λ done. IfErr done (λ fault. IsLineAnswer locked.old.store.state
        line.now (of_event (refused fault)) locked.new.store.state)) }
    ensures still { IfSome result (λ done. IfOk done (λ answer. may_change answer ≡ false
        → locked.new.store.state ≡ locked.old.store.state)) }
    ensures none { IfNone result (locked.new.store.state ≡ locked.old.store.state) }
    ensures opened { session.new.number < locked.new.opened }
{
    match read_line(crew.alloc, line, &mut memory.scratch) {
        Ok(command) => {
            let done = execute(crew, locked, session, &command, &mut memory.reserves);
            // For the prover: dropped by a call, not in place.
            drop(command);
            Some(done)
        }
        Err(fault) => {
            if fault == Fault::OutOfMemory {
                return None;
            }
            Some(Err(fault))
        }
    }
}

// What a line asks for, done. Where memory refuses to read it, it gets the room that is kept for a
// line.
fn do_line<L: Ledger, R: Threads + Wait + Sync>(
    crew: &LineCrew<'_, R>,
    locked: &mut MemLocked<L, WithoutHistory>,
    session: &mut Session<L>,
    line: &[u8],
    memory: &mut LineMemory,
) -> Result<LineAnswer, Fault>
    requires opened { session.old.number < locked.old.opened }
    requires length { length line.now ≤ 65536 }
    ensures ok { IfOk result (λ answer. IsLineAnswer locked.old.store.state line.now
        (line_answer_of answer) locked.new.store.state) }
    ensures err { IfErr result (λ fault. IsLineAnswer locked.old.store.state line.now
        (of_event (refused fault)) locked.new.store.state) }
    ensures still { IfOk result (λ answer. may_change answer ≡ false
        → locked.new.store.state ≡ locked.old.store.state) }
    ensures opened { session.new.number < locked.new.opened }
{
    if let Some(done) = try_line(crew, locked, session, line, memory) {
        return done;
    }
    memory.reserves.room.release(crew.alloc);
    do_once(crew, locked, session, line, memory)
}

// The answer to a line that isn't empty.
fn line_outcome<L: Ledger, R: Threads + Wait + Sync>(
    crew: &LineCrew<'_, R>,
    locked: &mut MemLocked<L, WithoutHistory>,
    session: &mut Session<L>,
    line: &[u8],
    memory: &mut LineMemory,
) -> LineAnswer
    requires opened { session.old.number < locked.old.opened }
    requires length { length line.now ≤ 65536 }
    ensures answer { IsLineAnswer locked.old.store.state line.now
        (line_answer_of result) locked.new.store.state }
    ensures still { may_change result ≡ false
        → locked.new.store.state ≡ locked.old.store.state }
    ensures opened { session.new.number < locked.new.opened }
{
    match do_line(crew, locked, session, line, memory) {
        Ok(answer) => answer,
        Err(fault) => LineAnswer::Refused(fault),
    }
}

// A text of what is read-only, or that memory refuses it.
fn text_or_refusal(made: Result<String, Fault>) -> ReplyText
    ensures ok { IfOk made (λ text. reply_text_bytes result ≡ string_bytes text) }
    ensures err { OnErr made (reply_text_bytes result ≡ answer_text (refused out_of_memory_fault)) }
    ensures text { is_report (Some result) ≡ false }
{
    match made {
        Ok(text) => ReplyText::Text(CowStr::Owned(text)),
        Err(_) => ReplyText::Text(CowStr::Borrowed(refusal_text(Fault::OutOfMemory))),
    }
}

// The text of a reply. Where it can't be made for one that names something, memory refuses the
// line.
fn render_reply(alloc: Global, reply: &Reply) -> ReplyText
    ensures said { IsRendered (of_event (answered reply.now)) (reply_text_bytes result) }
    ensures text { is_report (Some result) ≡ false }
{
    match reply_text(alloc, reply) {
        Ok(text) => ReplyText::Text(text),
        Err(_) => ReplyText::Text(CowStr::Borrowed(refusal_text(Fault::OutOfMemory))),
    }
}

fn render_explanation(alloc: Global, explanation: &Explanation) -> ReplyText
    ensures said { IsRendered (of_question (explains (told_of explanation.now)))
        (reply_text_bytes result) }
    ensures text { is_report (Some result) ≡ false }
{
    text_or_refusal(explanation_text(alloc, explanation))
}

fn render_impact(alloc: Global, impact: &Impact) -> ReplyText
    ensures said { IsRendered (of_question (foresees impact.now)) (reply_text_bytes result) }
    ensures text { is_report (Some result) ≡ false }
{
    text_or_refusal(impact_text(alloc, impact))
}

// The rows of a listing, or that memory refuses it, where the longest finds no room in the block.
fn render_rows(block: &mut Vec<u8>, rows: Vec<ShownRow>) -> ReplyText
    ensures said { IsRendered (of_shown (shows_rows rows.items)) (reply_text_bytes result) }
    ensures text { is_report (Some result) ≡ false }
{
    match room_for_rows(block, &rows) {
        Ok(()) => ReplyText::Rows(rows),
        Err(_) => ReplyText::Text(CowStr::Borrowed(refusal_text(Fault::OutOfMemory))),
    }
}

// What is written for an answer. A report needs no memory for its text.
fn render(alloc: Global, block: &mut Vec<u8>, answer: LineAnswer) -> ReplyText
    ensures said { IsRendered (line_answer_of answer) (reply_text_bytes result) }
    ensures report { is_report (Some result) ≡ true
        → is_refusal (line_answer_of answer) ≡ false }
{
    match answer {
        LineAnswer::Replied(reply) => {
            let said = render_reply(alloc, &reply);
            // For the prover: dropped by a call, not in place.
            drop(reply);
            said
        }
        LineAnswer::Shown(row, _) => ReplyText::Text(CowStr::Owned(row.into_text())),
        LineAnswer::There => ReplyText::Text(CowStr::Borrowed(there_text())),
        LineAnswer::Listed(rows) => render_rows(block, rows),
        LineAnswer::Objects(objects) => ReplyText::Objects(objects),
        LineAnswer::Reported(report) => ReplyText::Report(report),
        LineAnswer::Removed(report) => ReplyText::Report(report),
        LineAnswer::Refused(fault) => ReplyText::Text(CowStr::Borrowed(refusal_text(fault))),
        LineAnswer::Explained(explanation) => {
            let said = render_explanation(alloc, &explanation);
            // For the prover: dropped by a call, not in place.
            drop(explanation);
            said
        }
        LineAnswer::Foreseen(impact) => {
            let said = render_impact(alloc, &impact);
            // For the prover: dropped by a call, not in place.
            drop(impact);
            said
        }
    }
}

// Whether a report names no row.
fn names_no_row(removed: &Removed) -> bool
    ensures { result ≡ names_no_row removed.now }
{
    removed.content.is_empty()
        && (removed.images.is_empty()
            && (removed.ingests.is_empty()
                && (removed.leases.is_empty() && removed.snapshots.is_empty())))
}

// Whether a report names no object.
fn names_no_object(objects: &Objects) -> bool
    ensures { result ≡ names_no_object objects.now }
{
    objects.blobs.is_empty() && (objects.ingests.is_empty() && objects.snapshots.is_empty())
}

// Whether a report names nothing that went, and nothing whose removal failed.
fn names_nothing(report: &Report) -> bool
    ensures { result ≡ names_nothing report.now }
{
    names_no_row(&report.removed)
        && (names_no_object(&report.backend) && names_no_object(&report.failed))
}

// Whether a report is of a collection, and names something.
fn has_effect(report: &Report) -> bool
    ensures { result ≡ has_effect report.now }
{
    !report.dry && !names_nothing(report)
}

// Whether the line of an answer may have changed the store.
fn may_change(answer: &LineAnswer) -> bool
    ensures { result ≡ may_change answer.now }
{
    match answer {
        LineAnswer::Replied(reply) => matches!(reply, Reply::Done),
        LineAnswer::Shown(_, changes) => *changes,
        LineAnswer::There => true,
        LineAnswer::Listed(_) => false,
        LineAnswer::Reported(report) => has_effect(report.as_ref()),
        LineAnswer::Removed(_) => true,
        LineAnswer::Refused(_) => false,
        LineAnswer::Explained(_) => false,
        LineAnswer::Foreseen(_) => false,
        LineAnswer::Objects(_) => false,
    }
}

/// Answers one line, without its line feed: nothing for an empty one. What is read-only is refused
/// where memory for its text is. The answer also says whether the line may have changed the store:
/// a request that is done may, also where it was done before; a removal with a collection; and a
/// collection that names a row or an object.
pub fn execute_line<L: Ledger, R: Threads + Wait + Sync>(
    locked: &mut MemLocked<L, WithoutHistory>,
    rt: &R,
    alloc: Global,
    session: &mut Session<L>,
    line: &[u8],
    workers: usize,
    memory: &mut LineMemory,
) -> Result<Answered, Fault>
    requires opened { session.old.number < locked.old.opened }
    requires length { length line.now ≤ 65536 }
    requires workers { is_worker_count workers ≡ true }
    ensures fault { Refuses result None }
    ensures ok { IfOk result (λ answered. (refusal : Option Supplied)
        × (line_step locked.old.store.state refusal line.now
        ≡ (reply_bytes answered.reply, locked.new.store.state))
        × IsTrueAt locked.old.store.state refusal line.now) }
    ensures changes { IfOk result (λ answered.
        Changes locked.old.store.state line.now answered.changes locked.new.store.state) }
    ensures report { IfOk result (λ answered. is_report answered.reply ≡ true
        → locked.new.store.state ≡ after_line locked.old.store.state line.now) }
    ensures err { OnErr result ((refusal : Option Supplied)
        × (locked.new.store.state ≡ (line_step locked.old.store.state refusal line.now).1)) }
    ensures opened { session.new.number < locked.new.opened }
{
    if line.is_empty() {
        return Ok(Answered {
            reply: None,
            changes: false,
        });
    }
    let crew = LineCrew {
        rt,
        alloc,
        workers: Workers { count: workers },
    };
    let answer = line_outcome(&crew, locked, session, line, memory);
    settle(&mut memory.reserves.reserve, &stored_in(locked), &answer);
    let changes = may_change(&answer);
    Ok(Answered {
        reply: Some(render(alloc, &mut memory.block, answer)),
        changes,
    })
}

/// The reply to one line alone.
pub fn answer_line<L: Ledger, R: Threads + Wait + Sync>(
    locked: &mut MemLocked<L, WithoutHistory>,
    rt: &R,
    alloc: Global,
    session: &mut Session<L>,
    line: &[u8],
    workers: usize,
    memory: &mut LineMemory,
) -> Result<Option<ReplyText>, Fault>
    requires opened { session.old.number < locked.old.opened }
    requires length { length line.now ≤ 65536 }
    requires workers { is_worker_count workers ≡ true }
    ensures fault { Refuses result None }
    ensures ok { IfOk result (λ reply. (refusal : Option Supplied)
        × (line_step locked.old.store.state refusal line.now
        ≡ (reply_bytes reply, locked.new.store.state))
        × IsTrueAt locked.old.store.state refusal line.now) }
    ensures err { OnErr result ((refusal : Option Supplied)
        × (locked.new.store.state ≡ (line_step locked.old.store.state refusal line.now).1)) }
    ensures opened { session.new.number < locked.new.opened }
{
    match execute_line(locked, rt, alloc, session, line, workers, memory) {
        Ok(answered) => Ok(answered.reply),
        Err(fault) => Err(fault),
    }
}
