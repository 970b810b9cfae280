//! Histories so far, and at the end.
ghost use Rattle.std.specs.Prelude.{◌≡◌, ◌↔◌, Err, IfOk, IfErr, OnOk, All};
ghost use Rattle.meta_types.specs.Histories.{IsLegal};
ghost use Rattle.meta_types.specs.declared.fault.Fault.TheVariants.{InvalidArgument};
ghost use Rattle.store_front.specs.Finish.{CutFails, FinishFails, AreEach};
ghost use Rattle.store_front.specs.Parts.{part, IsPart, AreOpened};

use crate::check::sessions::check_sessions;
use crate::history::base::History;
use crate::history::copies::copy_history;
use crate::locked::Locked;
use crate::session::Session;
use back_model::{BlobBackend, IngestBackend, SnapBackend};
use meta_types::Fault;
use std::alloc::Global;
use std::mem::drop;
use std::sync::ledger::Ledger;

impl<L: Ledger, S: SnapBackend, B: BlobBackend, I: IngestBackend> Locked<L, S, B, I> {
    /// The whole history so far, refused where the session's list isn't its part of the log.
    pub fn cut(&self, alloc: Global, session: &Session<L>) -> Result<History, Fault>
        ensures whole { IfOk result (λ h. h ≡ record { base = self.now.base; log = self.now.log }) }
        ensures legal { IfOk result (λ h. IsLegal h.base h.log self.now.store.state) }
        ensures own { OnOk result (IsPart self.now.log session.now) }
        ensures err { IfErr result (λ f. CutFails f (part session.now.number self.now.log)
            session.now.list) }
    {
        if let Some(place) = session.mismatch(&self.log) {
            return Err(Fault::Mismatch {
                place: place as u64,
            });
        }
        match copy_history(alloc, &self.base, &self.log) {
            Ok(history) => Ok(history),
            Err(_) => Err(Fault::OutOfMemory),
        }
    }

    /// The whole history, where the sessions are all that were opened, and the list of each is its
    /// part of the log. All are spent, also on a refusal.
    pub fn finish(self, alloc: Global, sessions: Vec<Session<L>>) -> Result<History, Fault>
        ensures whole { IfOk result (λ h. h ≡ record { base = self.base; log = self.log }) }
        ensures legal { IfOk result (λ h. IsLegal h.base h.log self.store.state
            × AreOpened self.opened h.log) }
        ensures own { OnOk result (All (IsPart self.log) sessions.items) }
        ensures all { OnOk result (AreEach self.opened sessions.items) }
        ensures each { (result ≡ Err InvalidArgument) ↔ ¬ (AreEach self.opened sessions.items) }
        ensures err { IfErr result (λ f. FinishFails f self.opened self.log sessions.items) }
    {
        let checked = check_sessions(alloc, self.opened, &sessions, &self.log);
        if let Err(fault) = checked {
            // For the prover: dropped by a call, not in place.
            drop(self);
            return Err(fault);
        }
        Ok(self.into_history())
    }

    fn into_history(self) -> History
        ensures whole { result ≡ record { base = self.base; log = self.log } }
        ensures legal { IsLegal self.base self.log self.store.state
            × AreOpened self.opened self.log }
    {
        let Locked {
            state: _,
            base,
            log,
            opened: _,
            book: _,
            rest: _,
            keeps: _,
        } = self;
        History { base, log }
    }
}
