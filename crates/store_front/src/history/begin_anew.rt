//! Begins a new history over the present state.
ghost use Rattle.std.specs.Prelude.{◌≡◌, ◌↔◌, Err, [], IfOk, IfErr, OnOk, OnErr, All, map};
ghost use Rattle.meta_types.specs.Histories.{IsLegal};
ghost use Rattle.meta_types.specs.declared.fault.Fault.TheVariants.{InvalidArgument};
ghost use Rattle.store_front.specs.Finish.{FinishFails, AreEach, fresh};
ghost use Rattle.store_front.specs.Parts.{IsPart, AreOpened};

use crate::check::sessions::check_sessions;
use crate::history::base::History;
use crate::history::clear::clear_all;
use crate::locked::{Locked, base_of};
use crate::session::Session;
use back_model::{BlobBackend, IngestBackend, SnapBackend};
use meta_types::Fault;
use std::alloc::Global;
use std::mem;
use std::sync::ledger::Ledger;

impl<L: Ledger, S: SnapBackend, B: BlobBackend, I: IngestBackend> Locked<L, S, B, I> {
    /// The whole history so far, as `finish` gives it, and a new one begun. The store stays, and is
    /// the new base; the log is empty, and each session goes on with its number and an empty list.
    /// Only the base takes copies of tables.
    pub fn begin_anew(
        &mut self,
        alloc: Global,
        sessions: &mut [Session<L>],
    ) -> Result<History, Fault>
        ensures whole { IfOk result (λ h. h ≡ record { base = self.old.base; log = self.old.log }) }
        ensures legal { IfOk result (λ h. IsLegal h.base h.log self.old.store.state
            × AreOpened self.old.opened h.log) }
        ensures own { OnOk result (All (IsPart self.old.log) sessions.old) }
        ensures all { OnOk result (AreEach self.old.opened sessions.old) }
        ensures each { (result ≡ Err InvalidArgument) ↔ ¬ (AreEach self.old.opened sessions.old) }
        ensures anew { OnOk result (self.new ≡ record self.old {
          base = self.old.store.state;
          log = [];
        }) }
        ensures sessions { OnOk result (sessions.new ≡ map fresh sessions.old) }
        ensures err { IfErr result (λ f. FinishFails f self.old.opened self.old.log sessions.old) }
        ensures left { OnErr result (self.new ≡ self.old) }
        ensures sessions_left { OnErr result (sessions.new ≡ sessions.old) }
    {
        check_sessions(alloc, self.opened, sessions, &self.log)?;
        let Ok(base) = base_of(alloc, &self.state) else {
            return Err(Fault::OutOfMemory);
        };
        clear_all(alloc, &mut self.book, sessions);
        let base = mem::replace(&mut self.base, base);
        let log = mem::replace(&mut self.log, Vec::new(alloc));
        Ok(History { base, log })
    }
}
