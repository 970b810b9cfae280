//! Stores at rest, and histories.

use crate::event::entry::Entry;
use back_model::BackLists;
use request_core::Records;
use std::marker::Model;

/// The records of a store, and what its backends hold.
#[derive(Drop)]
pub struct Base {
    pub records: Records,
    pub lists: BackLists,
}

impl Model for Base {
    ghost use Rattle.std.specs.Prelude.{map};
    ghost use Rattle.back_model.specs.Shown.{listed_snap};
    ghost use Rattle.meta_types.specs.Rows.{State};
    ghost use Rattle.row_tables.specs.Arrived.{one_text, sorted};

    ghost Value = { State };

    ghost view = { λ b. record {
      records = record {
        tables = b.records.tables;
        leases = b.records.leases;
        next = b.records.next;
        profile = b.records.profile;
      };
      backends = record {
        blobs = sorted one_text b.lists.blobs;
        snapshots = map listed_snap b.lists.snapshots.items;
        ingests = b.lists.ingests.items;
      };
    } };
}

/// The store at the opening, and all entries since.
#[derive(Drop)]
pub struct History {
    pub base: Base,
    pub log: Vec<Entry>,
}

impl Model for History {
    ghost use Rattle.store_front.specs.SessionEntries.{Course};

    ghost Value = { Course };

    ghost view = { λ h. record { base = h.base; log = h.log.items } };
}
