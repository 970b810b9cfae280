//! Sessions: the clients of a store, each with the answers that it got.
ghost use Rattle.std.specs.Prelude.{◌≡◌};

use crate::event::entry::SessionEntry;
use std::marker::Model;
use std::sync::ledger::{Ledger, Share};

/// A client of the store that `L` names: its number, and the answers that it got, in order.
#[derive(Drop)]
pub struct Session<L: Ledger> {
    pub(crate) number: u32,
    pub(crate) list: Vec<SessionEntry>,
    pub(crate) share: Share<L>,
}

impl<L: Ledger> Model for Session<L> {
    ghost use Rattle.std.specs.Prelude.{◌≡◌, ◌<◌};
    ghost use Rattle.std.specs.Vec.{vec_len};
    ghost use Rattle.store_front.specs.SessionEntries.{Seat};

    ghost Value = { Seat };

    ghost view = { λ s. record { number = s.number; list = s.list.items } };

    ghost invariant = { λ s. record {
      amount : s.share.amount ≡ vec_len s.list;
      parts : 0 < s.share.parts;
      few : s.number < 65536;
    } };
}

impl<L: Ledger> Session<L> {
    /// Sessions are numbered from 0 on, in the order of their opening.
    pub fn number(&self) -> u32
        ensures { result ≡ self.now.number }
    {
        self.number
    }

    /// The events that it asked for and the answers that it got, in order.
    pub fn list(&self) -> &[SessionEntry]
        ensures { result.now ≡ self.now.list }
    {
        &self.list
    }
}
