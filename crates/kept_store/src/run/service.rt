//! What answers lines from a store.
ghost use Rattle.std.specs.Prelude.{◌≡◌};
ghost use Rattle.meta_types.specs.Rows.{State};
ghost use Rattle.kept_store.specs.Replays.{KeepsLines};

use crate::run::clocked::{Clock, Clocked};
use line_loop::{Numbered, Service};
use scripts::LineStore;
use std::sync::ledger::Ledger;

/// A service that answers lines from a store: the store itself, or a service before one. Its logged
/// lines make the store again.
pub trait StoreService: Service {
    /// The ledger of the store's sessions.
    type Sessions: Ledger;

    /// The store's rows and objects.
    ghost store_of: { Self → State };

    /// The store.
    fn store(&self) -> &LineStore<Self::Sessions>
        ensures { result.now ≡ store_of self.now };

    /// From now on the only rows that make a checkpoint due are those that later lines look at.
    fn forget_rows(&mut self)
        ensures { store_of self.new ≡ store_of self.old };

    /// From now on lines that add are refused with 7: the next start would find too little memory.
    fn stop_additions(&mut self)
        ensures { store_of self.new ≡ store_of self.old };

    /// Each step has its line's effect on the store where it is logged, and none where it isn't.
    ghost keeps: { KeepsLines Self.steps store_of };
}

impl<L: Ledger> StoreService for LineStore<L> {
    ghost use Rattle.kept_store.specs.KeptLines.{store_keeps};

    type Sessions = L;

    ghost store_of = { λ state. state };

    fn store(&self) -> &LineStore<L> {
        self
    }

    fn forget_rows(&mut self) {
        self.count_rows_anew();
    }

    fn stop_additions(&mut self) {
        self.refuse_additions();
    }

    ghost keeps = { store_keeps };
}

impl<S: StoreService + Drop> StoreService for Numbered<S> {
    ghost use Rattle.kept_store.specs.KeptLines.{numbered_keeps};

    type Sessions = S::Sessions;

    ghost store_of = { λ numbered. S.store_of numbered.service };

    fn store(&self) -> &LineStore<S::Sessions> {
        self.service.store()
    }

    fn forget_rows(&mut self) {
        self.service.forget_rows();
    }

    fn stop_additions(&mut self) {
        self.service.stop_additions();
    }

    ghost keeps = { λ old new line reply changes goes.
        numbered_keeps S.steps S.store_of S.keeps old.service new.service old.lines new.lines line
        reply changes goes };
}

impl<S: StoreService + Drop, C: Clock + Drop> StoreService for Clocked<S, C> {
    ghost use Rattle.kept_store.specs.KeptLines.{clocked_keeps};

    type Sessions = S::Sessions;

    ghost store_of = { λ clocked. S.store_of clocked.service };

    fn store(&self) -> &LineStore<S::Sessions> {
        self.service.store()
    }

    fn forget_rows(&mut self) {
        self.service.forget_rows();
    }

    fn stop_additions(&mut self) {
        self.service.stop_additions();
    }

    ghost keeps = { λ old new line reply changes goes.
        clocked_keeps S.steps S.store_of S.keeps old.limit.most old.service new.service line reply
        changes goes.1 };
}
