//! Entries of the log, and of a session's list.

use crate::event::event::{Answer, Event};
use std::marker::Model;

/// An event, its answer, and the number of the session that asked.
#[derive(Drop)]
pub struct Entry {
    pub session: u32,
    pub event: Event,
    pub answer: Answer,
}

impl Model for Entry {
    ghost use Rattle.meta_types.specs.Histories.{Entry as Line};
    ghost use Rattle.store_front.specs.Entries.{event_of, answer_of};

    ghost Value = { Line };

    ghost view = { λ e. record {
      session = e.session;
      event = event_of e.event;
      answer = answer_of e.answer;
    } };
}

/// An event and its answer, as a session keeps them.
#[derive(Drop)]
pub struct SessionEntry {
    pub event: Event,
    pub answer: Answer,
}

impl Model for SessionEntry {
    ghost use Rattle.store_front.specs.SessionEntries.{SessionEntry as Line};
    ghost use Rattle.store_front.specs.Entries.{event_of, answer_of};

    ghost Value = { Line };

    ghost view = { λ t. record { event = event_of t.event; answer = answer_of t.answer } };
}
