//! Does a request, where memory is left for the next line.
ghost use Rattle.std.specs.Prelude.{◌≡◌, ◌<◌, false, IfOk, IfErr};
ghost use Rattle.meta_types.specs.Shown.{holds_there, request_done};
ghost use Rattle.meta_types.specs.Steps.{answered};
ghost use Rattle.meta_types.specs.Questions.{of_event};
ghost use Rattle.request_line.specs.declared.command.Command.TheVariants as A;
ghost use Rattle.reply_line.specs.Fixed.{is_done};
ghost use Rattle.scripts.specs.Served.{IsServed, IsRefused, IsExecuted, IsTurnedDown};

use crate::line_memory::Reserves;
use crate::line_room::make_room;
use crate::reserve::reserving::stored_in;
use meta_types::{Fault, RawText, Reply, Request};
use request_core::Applied;
use std::alloc::Global;
use std::sync::ledger::Ledger;
use store_front::{MemLocked, Session, WithoutHistory};

/// Answers a request, where memory is left for the next line.
pub(crate) fn execute_request<L: Ledger>(
    locked: &mut MemLocked<L, WithoutHistory>,
    alloc: Global,
    session: &mut Session<L>,
    request: &Request<'_>,
    kept: &mut Reserves,
) -> Result<Reply, Fault>
    requires { session.old.number < locked.old.opened }
    ensures ok { IfOk result (λ reply. IsServed locked.old.store.state (A.Request request.now)
        (of_event (answered reply)) locked.new.store.state) }
    ensures err { IfErr result (λ fault. IsRefused locked.old.store.state (A.Request request.now)
        fault locked.new.store.state) }
    ensures opened { session.new.number < locked.new.opened }
{
    let stored = stored_in(locked);
    let Ok(()) = make_room(alloc, &mut kept.room, &mut kept.reserve, &stored, request) else {
        return Err(Fault::OutOfMemory);
    };
    // For the prover: models in memory never fail.
    locked.never_failed();
    let reply = locked.apply(alloc, session, request);
    // For the prover: models in memory never fail.
    locked.never_failed();
    reply
}

/// The same, where the lease of the request may hold an object that exists.
pub(crate) fn execute_held<L: Ledger>(
    locked: &mut MemLocked<L, WithoutHistory>,
    alloc: Global,
    request: &Request<'_>,
    there: &Option<RawText<'_>>,
    kept: &mut Reserves,
) -> Result<Applied, Fault>
    ensures ok { IfOk result (λ applied. IsExecuted locked.old.store.state
        (request_done locked.old.store.state request.now there.now) applied.reply
        locked.new.store.state) }
    ensures there { IfOk result (λ applied. applied.there
        ≡ holds_there locked.old.store.state request.now there.now) }
    ensures err { IfErr result (λ fault. IsTurnedDown locked.old.store.state
        (request_done locked.old.store.state request.now there.now) fault
        locked.new.store.state) }
    ensures still { IfOk result (λ applied. is_done applied.reply ≡ false
        → locked.new.store.state ≡ locked.old.store.state) }
    ensures opened { locked.new.opened ≡ locked.old.opened }
{
    let stored = stored_in(locked);
    let Ok(()) = make_room(alloc, &mut kept.room, &mut kept.reserve, &stored, request) else {
        return Err(Fault::OutOfMemory);
    };
    // For the prover: models in memory never fail.
    locked.never_failed();
    let applied = locked.apply_or_hold(alloc, request, there);
    // For the prover: models in memory never fail.
    locked.never_failed();
    applied
}
