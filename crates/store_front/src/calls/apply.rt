//! Requests to a locked store that keeps its history, each with its entry.
ghost use Rattle.std.specs.Prelude.{◌≡◌, ◌+◌, ◌<◌, IfErr};
ghost use Rattle.meta_types.specs.Steps.{requested};
ghost use Rattle.meta_types.specs.Ops.{least_fault};
ghost use Rattle.meta_types.specs.Requests.{outcome};
ghost use Rattle.request_core.specs.Follows.{Fails};
ghost use Rattle.store_front.specs.KeptAnswers.{kept_reply, Takes, log_after, list_after, reply_failures};

use crate::event::pairs::Events;
use crate::event::room::{keep_reply, make_room};
use crate::locked::Locked;
use crate::session::Session;
use back_model::{BlobBackend, IngestBackend, SnapBackend};
use meta_types::{Fault, Reply, Request};
use std::alloc::Global;
use std::sync::ledger::Ledger;

impl<L: Ledger, S: SnapBackend, B: BlobBackend, I: IngestBackend> Locked<L, S, B, I> {
    /// Answers a request, which an entry keeps as it is. There is one, in the log and in the
    /// session's list, unless memory ran out or the device failed.
    pub fn apply(
        &mut self,
        alloc: Global,
        session: &mut Session<L>,
        request: Request<'static>,
    ) -> Result<Reply, Fault>
        requires { session.old.number < self.old.opened }
        ensures step { Takes self.old.store.state (requested request.entry) (kept_reply result)
            self.new.store.state }
        ensures fault { IfErr result (λ f. Fails f
            (least_fault (outcome self.old.store.state request.entry))) }
        ensures log { self.new.log ≡ log_after self.old.log session.old.number
            (requested request.entry) (kept_reply result) }
        ensures list { session.new.list ≡ list_after session.old.list (requested request.entry)
            (kept_reply result) }
        ensures number { session.new.number ≡ session.old.number }
        ensures base { self.new.base ≡ self.old.base }
        ensures opened { self.new.opened ≡ self.old.opened }
        ensures failures { self.new.store.failures
            ≡ self.old.store.failures + reply_failures result }
    {
        let Locked {
            state,
            log,
            book,
            ..
        } = self;
        let Session {
            number,
            list,
            share,
        } = session;
        if make_room(log, list).is_err() {
            // For the prover: dropped by a call, not in place.
            drop(request);
            return Err(Fault::OutOfMemory);
        }
        let Ok((asked, events)) = Events::requested(alloc, request) else {
            return Err(Fault::OutOfMemory);
        };
        let result = state.apply(alloc, asked.get());
        keep_reply(alloc, log, list, book, share, *number, events, result)
    }
}
