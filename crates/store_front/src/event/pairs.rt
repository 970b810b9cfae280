//! An event, and an answer, each for the log and for the list of its session.
ghost use Rattle.std.specs.Prelude.{◌≡◌, Ok, None, IfOk, IsOk, IsErr};
ghost use Rattle.meta_types.specs.Faults.{Refuses};
ghost use Rattle.meta_types.specs.Steps.{requested, collect, remove_collect, answered};
ghost use Rattle.meta_types.specs.declared.reply.Reply.TheVariants as P;
ghost use Rattle.store_front.specs.KeptAnswers.{kept_reply, kept_fault};

use crate::event::event::{Answer, Event};
use meta_types::{Fault, Instant, Removal, Reply, Request, Shared};
use std::alloc::Global;
use std::marker::Model;

/// One event, for the log and for the session's list.
#[derive(Drop)]
pub(crate) struct Events {
    pub(crate) log: Event,
    pub(crate) list: Event,
}

impl Model for Events {
    ghost use Rattle.std.specs.Prelude.{◌≡◌};
    ghost use Rattle.meta_types.specs.Steps.{Event as Happening};
    ghost use Rattle.store_front.specs.Entries.{event_of};

    ghost Value = { Happening };

    ghost view = { λ e. event_of e.log };

    ghost invariant = { λ e. event_of e.list ≡ event_of e.log };
}

impl Events {
    // The request, beside the event that it is.
    pub(crate) fn requested(
        alloc: Global,
        request: Request<'static>,
    ) -> Result<(Shared<Request<'static>>, Events), Fault>
        ensures fault { Refuses result None }
        ensures ok { IfOk result (λ both. (both.0 ≡ request.entry) × (both.1 ≡ requested request.entry)) }
    {
        let asked = Shared::new(alloc, request)?;
        let log = Event::Requested(asked.share()?);
        let list = Event::Requested(asked.share()?);
        Ok((asked, Events { log, list }))
    }

    pub(crate) fn collect(at: Instant, dry: bool, workers: usize) -> Events
        ensures { result ≡ collect at.0 dry workers }
    {
        Events {
            log: Event::Collect(at, dry, workers),
            list: Event::Collect(at, dry, workers),
        }
    }

    // The removal, beside the event that it is with its collection.
    pub(crate) fn remove_collect(
        alloc: Global,
        removal: Removal<'static>,
        at: Instant,
        workers: usize,
    ) -> Result<(Shared<Removal<'static>>, Events), Fault>
        ensures fault { Refuses result None }
        ensures ok { IfOk result (λ both. (both.0 ≡ removal.entry)
            × (both.1 ≡ remove_collect removal.entry at.0 workers)) }
    {
        let asked = Shared::new(alloc, removal)?;
        let log = Event::RemoveCollect(asked.share()?, at, workers);
        let list = Event::RemoveCollect(asked.share()?, at, workers);
        Ok((asked, Events { log, list }))
    }
}

/// One answer, for the log and for the session's list.
#[derive(Drop)]
pub(crate) struct Answers {
    pub(crate) log: Answer,
    pub(crate) list: Answer,
}

impl Model for Answers {
    ghost use Rattle.std.specs.Prelude.{◌≡◌};
    ghost use Rattle.meta_types.specs.Steps.{Answer as AnswerValue};
    ghost use Rattle.store_front.specs.Entries.{answer_of};

    ghost Value = { AnswerValue };

    ghost view = { λ a. answer_of a.log };

    ghost invariant = { λ a. answer_of a.list ≡ answer_of a.log };
}

// A copy of the reply, for both.
fn shared_reply(alloc: Global, reply: &Reply) -> Result<Answers, Fault>
    ensures fault { Refuses result None }
    ensures ok { IfOk result (λ answers. answers ≡ answered reply.now) }
{
    let one = Shared::new(alloc, reply.copy(alloc)?)?;
    let other = one.share()?;
    Ok(Answers {
        log: Answer::Answered(one),
        list: Answer::Answered(other),
    })
}

impl Answers {
    // What is kept of a reply.
    pub(crate) fn of_reply(
        alloc: Global,
        outcome: &Result<Reply, Fault>,
    ) -> Result<Option<Answers>, Fault>
        ensures fault { Refuses result None }
        ensures ok { IfOk result (λ kept. kept ≡ kept_reply outcome.now) }
        ensures done { outcome.now ≡ Ok P.Done → IsOk result }
        ensures refused { IsErr outcome.now → IsOk result }
    {
        match outcome {
            Ok(Reply::Done) => Ok(Some(Answers {
                log: Answer::Done,
                list: Answer::Done,
            })),
            Ok(reply) => Ok(Some(shared_reply(alloc, reply)?)),
            Err(fault) => Ok(Answers::of_fault(*fault)),
        }
    }

    // What is kept of a refusal.
    pub(crate) fn of_fault(fault: Fault) -> Option<Answers>
        ensures { result ≡ kept_fault fault }
    {
        match fault {
            Fault::InvalidArgument
            | Fault::NotFound
            | Fault::AlreadyExists
            | Fault::FailedPrecondition => Some(Answers {
                log: Answer::Refused(fault),
                list: Answer::Refused(fault),
            }),
            _ => None,
        }
    }
}
