//! Does what a line asks for: a request, a collection, a removal with one, or a question.
ghost use Rattle.std.specs.Prelude.{◌≡◌, ◌<◌, IfOk, IfErr, Ok, Err, None, false};
ghost use Rattle.std.specs.Box.{box_value};
ghost use Rattle.meta_types.specs.Faults.{Refuses};
ghost use Rattle.meta_types.specs.Steps.{answered, reported};
ghost use Rattle.meta_types.specs.Questions.{explains, foresees, names_of, of_event, of_question};
ghost use Rattle.reply_line.specs.Explained.{told_of};
ghost use Rattle.request_line.specs.declared.command.Command.TheVariants as A;
ghost use Rattle.scripts.specs.Changes.{may_change};
ghost use Rattle.scripts.specs.LineAnswers.{line_answer_of};
ghost use Rattle.scripts.specs.Served.{IsServed, IsRefused};

use crate::crew::LineCrew;
use crate::line_answer::LineAnswer;
use crate::line_memory::Reserves;
use crate::objects::objects_in;
use crate::requesting::execute_request;
use crate::reserve::reserving::{release_reserve, stored_in};
use crate::showing::execute_shown;
use backend_sweep::OpenSweepGate;
use gc_labels::read_instant;
use gc_report::{Impact, Objects, Report};
use meta_types::{Explanation, Fault, Object, RawText, Removal, ShortName};
use request_line::Command;
use std::alloc::Global;
use std::sync::Wait;
use std::sync::ledger::Ledger;
use std::thread::Threads;
use steal_mark::OpenGate;
use store_front::{HistoryMode, MemLocked, Session, WithoutHistory};

// Room for a report; the one that stands there is empty.
fn report_room(alloc: Global) -> Result<Box<Report>, Fault>
    ensures { Refuses result None }
{
    Ok(Box::new(alloc, Report::new(alloc, true, 1))?)
}

// The report of a call, in this room.
fn boxed(room: Box<Report>, report: Result<Report, Fault>) -> Result<Box<Report>, Fault>
    ensures ok { IfOk result (λ boxed. report ≡ Ok (box_value boxed)) }
    ensures err { IfErr result (λ fault. report ≡ Err fault) }
{
    let report = report?;
    let mut room = room;
    let _empty = Box::replace(&mut room, report);
    Ok(room)
}

// Collects at a moment, where the text is one. Room for the report is made before anything goes.
fn collect<L: Ledger, K: HistoryMode, R: Threads + Wait + Sync>(
    crew: &LineCrew<'_, R>,
    locked: &mut MemLocked<L, K>,
    session: &mut Session<L>,
    at: &RawText,
    dry: bool,
) -> Result<Box<Report>, Fault>
    requires opened { session.old.number < locked.old.opened }
    ensures ok { IfOk result (λ report. IsServed locked.old.store.state (A.Collect at.now dry)
        (of_event (reported (box_value report))) locked.new.store.state) }
    ensures err { IfErr result (λ fault. IsRefused locked.old.store.state (A.Collect at.now dry)
        fault locked.new.store.state) }
    ensures opened { session.new.number < locked.new.opened }
{
    let Some(at) = read_instant(at.text()) else {
        return Err(Fault::InvalidArgument);
    };
    let room = report_room(crew.alloc)?;
    // For the prover: models in memory never fail.
    locked.never_failed();
    let report = locked.collect(
        crew.rt,
        crew.alloc,
        session,
        at,
        dry,
        crew.workers.count,
        &OpenGate,
        &OpenSweepGate,
    );
    // For the prover: models in memory never fail.
    locked.never_failed();
    boxed(room, report)
}

// Removes an image or a lease, and collects at a moment, where the text is one.
fn remove<L: Ledger, R: Threads + Wait + Sync>(
    crew: &LineCrew<'_, R>,
    locked: &mut MemLocked<L, WithoutHistory>,
    session: &mut Session<L>,
    removal: &Removal<'_>,
    at: &RawText,
) -> Result<Box<Report>, Fault>
    requires opened { session.old.number < locked.old.opened }
    ensures ok { IfOk result (λ report. IsServed locked.old.store.state
        (A.Remove removal.now at.now) (of_event (reported (box_value report))) locked.new.store.state) }
    ensures err { IfErr result (λ fault. IsRefused locked.old.store.state
        (A.Remove removal.now at.now) fault locked.new.store.state) }
    ensures opened { session.new.number < locked.new.opened }
{
    let Some(at) = read_instant(at.text()) else {
        return Err(Fault::InvalidArgument);
    };
    let room = report_room(crew.alloc)?;
    // For the prover: models in memory never fail.
    locked.never_failed();
    let report = locked.remove_collect(
        crew.rt,
        crew.alloc,
        session,
        removal,
        at,
        crew.workers.count,
        &OpenGate,
        &OpenSweepGate,
    );
    // For the prover: models in memory never fail.
    locked.never_failed();
    boxed(room, report)
}

// Tells what keeps a row at a moment, where the texts are allowed.
fn explain<L: Ledger, K: HistoryMode, R: Threads + Wait + Sync>(
    crew: &LineCrew<'_, R>,
    locked: &MemLocked<L, K>,
    ns: &RawText,
    kind: &RawText,
    resource: &RawText,
    at: &RawText,
) -> Result<Explanation, Fault>
    ensures ok { IfOk result (λ e. IsServed locked.now.store.state
        (A.Explain ns.now kind.now resource.now at.now)
        (of_question (explains (told_of e))) locked.now.store.state) }
    ensures err { IfErr result (λ fault. IsRefused locked.now.store.state
        (A.Explain ns.now kind.now resource.now at.now) fault locked.now.store.state) }
{
    let Some(at) = read_instant(at.text()) else {
        return Err(Fault::InvalidArgument);
    };
    let alloc = crew.alloc;
    let ns = ShortName::read(alloc, ns.text())?;
    let object = Object::read(alloc, kind.text(), resource.text())?;
    locked.explain(crew.rt, alloc, &ns, &object, at)
}

// Tells what would go at a moment without a row, where the texts are allowed.
fn impact<L: Ledger, K: HistoryMode, R: Threads + Wait + Sync>(
    crew: &LineCrew<'_, R>,
    locked: &MemLocked<L, K>,
    ns: &RawText,
    kind: &RawText,
    resource: &RawText,
    at: &RawText,
) -> Result<Impact, Fault>
    ensures ok { IfOk result (λ impact. IsServed locked.now.store.state
        (A.Impact ns.now kind.now resource.now at.now)
        (of_question (foresees impact)) locked.now.store.state) }
    ensures err { IfErr result (λ fault. IsRefused locked.now.store.state
        (A.Impact ns.now kind.now resource.now at.now) fault locked.now.store.state) }
{
    let Some(at) = read_instant(at.text()) else {
        return Err(Fault::InvalidArgument);
    };
    let alloc = crew.alloc;
    let ns = ShortName::read(alloc, ns.text())?;
    let row = Object::read(alloc, kind.text(), resource.text())?;
    locked.impact(crew.rt, alloc, ns, row, at)
}

// All objects of the backend.
fn list_objects<L: Ledger, K: HistoryMode>(
    locked: &MemLocked<L, K>,
    alloc: Global,
) -> Result<Box<Objects>, Fault>
    ensures fault { Refuses result None }
    ensures ok { IfOk result (λ objects. box_value objects
        ≡ names_of locked.now.store.state.backends) }
{
    let objects = objects_in(alloc, locked.state())?;
    Ok(Box::new(alloc, objects)?)
}

/// Does what a line asks for. What is kept for collections is given up where it is one, or a
/// question.
pub fn execute<L: Ledger, R: Threads + Wait + Sync>(
    crew: &LineCrew<'_, R>,
    locked: &mut MemLocked<L, WithoutHistory>,
    session: &mut Session<L>,
    command: &Command<'_>,
    kept: &mut Reserves,
) -> Result<LineAnswer, Fault>
    requires opened { session.old.number < locked.old.opened }
    ensures ok { IfOk result (λ answer. IsServed locked.old.store.state command.now
        (line_answer_of answer) locked.new.store.state) }
    ensures err { IfErr result (λ fault. IsRefused locked.old.store.state command.now fault
        locked.new.store.state) }
    ensures still { IfOk result (λ answer. may_change answer ≡ false
        → locked.new.store.state ≡ locked.old.store.state) }
    ensures opened { session.new.number < locked.new.opened }
{
    let alloc = crew.alloc;
    let workers = release_reserve(kept, alloc, &stored_in(locked), command, crew.workers);
    let crew = LineCrew {
        rt: crew.rt,
        alloc,
        workers,
    };
    match command {
        Command::Request(request) => {
            let reply = execute_request(locked, alloc, session, request, kept)?;
            Ok(LineAnswer::Replied(reply))
        }
        Command::Show {
            request,
            answer,
            there,
        } => execute_shown(locked, alloc, request, answer, there, kept),
        Command::Collect { at, dry } => {
            let report = collect(&crew, locked, session, at, *dry)?;
            Ok(LineAnswer::Reported(report))
        }
        Command::Remove { removal, at } => {
            let report = remove(&crew, locked, session, removal, at)?;
            Ok(LineAnswer::Removed(report))
        }
        Command::Explain {
            ns,
            kind,
            resource,
            at,
        } => {
            let told = explain(&crew, locked, ns, kind, resource, at)?;
            Ok(LineAnswer::Explained(told))
        }
        Command::Impact {
            ns,
            kind,
            resource,
            at,
        } => {
            let found = impact(&crew, locked, ns, kind, resource, at)?;
            Ok(LineAnswer::Foreseen(found))
        }
        Command::BackList => {
            let objects = list_objects(locked, alloc)?;
            Ok(LineAnswer::Objects(objects))
        }
    }
}
