//! Ingests: content that is being written.
ghost use Rattle.std.specs.Prelude.{◌≡◌, ◌∷◌, [], None, IfOk, OnOk, OnErr, option_copied, nat_lt, bytes_eq, filter, map};
ghost use Rattle.std.specs.Bool.{OnFalse};
ghost use Rattle.std.proofs.Common.{ap};
ghost use Rattle.meta_types.specs.Changes.{has_namespace};
ghost use Rattle.meta_types.specs.Keys.{row_at, has_row, add_row, remove_row, change_row};
ghost use Rattle.meta_types.specs.Rows.{ingest_key};
ghost use Rattle.meta_types.specs.Faults.{Refuses, OnlyRefuses};
ghost use Rattle.meta_types.specs.Sound.{AreNumbered};
ghost use Rattle.object_tables.specs.Edits.{ingest_until};
ghost use Rattle.object_tables.specs.Calls.{adding_fault, missing_fault};

use crate::tables::Tables;
use meta_types::{Fault, IngestRow, Instant, Name, ShortName};
use row_tables::{ByNamespace, Change, Test};
use std::alloc::Global;

/// Whether a row's backend number is below this one.
#[derive(Drop)]
pub(crate) struct Below {
    pub(crate) number: u64,
}

impl Test<IngestRow> for Below {
    ghost passes = { λ t row. nat_lt row.number t.number };

    fn test(&self, row: &IngestRow) -> bool {
        row.number < self.number
    }
}

/// Another end of an ingest.
#[derive(Drop)]
struct End {
    expires: Option<Instant>,
}

impl Change<Name, IngestRow, ()> for End {
    ghost changes = { λ c old answer new. new ≡ ingest_until c.expires old };

    ghost keeps_name = { λ c old answer new is. ap (λ row. row.name) is };

    fn change(self, row: &mut IngestRow) {
        row.expires = self.expires;
    }
}

impl Tables {
    /// The row of an ingest.
    pub fn get_ingest(&self, ns: &ShortName, name: &Name) -> Option<&IngestRow>
        ensures { option_copied result ≡ row_at ingest_key (ns.now ∷ name.now
            ∷ []) self.now.ingests }
    {
        self.ingests.get(ns, name)
    }

    /// Whether the ingest is there.
    pub fn has_ingest(&self, ns: &ShortName, name: &Name) -> bool
        ensures { result ≡ has_row ingest_key (ns.now ∷ name.now ∷ []) self.now.ingests }
    {
        self.ingests.has(ns, name)
    }

    /// The ingests of a namespace, in the order of their names.
    pub fn ingests_in(&self, alloc: Global, ns: &ShortName) -> Result<Vec<&IngestRow>, Fault>
        ensures fault { Refuses result (missing_fault (has_namespace self.now ns.now)) }
        ensures ok { IfOk result (λ list. map (λ row. row.now) list.items
            ≡ filter (λ row. bytes_eq ns.now row.ns) self.now.ingests) }
    {
        if !self.has_ns(ns) {
            return Err(Fault::NotFound);
        }
        // For the prover: the result is opened, not passed on.
        let rows = self.ingests.rows_in(alloc, ns)?;
        Ok(rows)
    }

    /// Adds an ingest's row, with the backend number that the caller chose: one that no snapshot
    /// and no other ingest has.
    pub fn add_ingest(&mut self, alloc: Global, row: IngestRow) -> Result<(), Fault>
        requires numbered { adding_fault self.old row.ns (has_row ingest_key (ingest_key row)
            self.old.ingests) ≡ None → AreNumbered self.old.snapshots (add_row ingest_key row
            self.old.ingests) }
        ensures fault { Refuses result (adding_fault self.old row.ns (has_row ingest_key
            (ingest_key row) self.old.ingests)) }
        ensures ok { OnOk result (self.new ≡ record self.old
            { ingests = add_row ingest_key row self.old.ingests }) }
        ensures err { OnErr result (self.new ≡ self.old) }
    {
        if !self.has_ns(&row.ns) {
            return Err(Fault::NotFound);
        }
        self.ingests.add_new(alloc, row)
    }

    /// Sets the moment up to which an ingest holds itself, if it does.
    pub fn set_ingest_end(
        &mut self,
        ns: &ShortName,
        name: &Name,
        expires: Option<Instant>,
    ) -> Result<(), Fault>
        ensures fault { OnlyRefuses result (missing_fault (has_row ingest_key (ns.now ∷ name.now
            ∷ []) self.old.ingests)) }
        ensures left { self.new ≡ record self.old {
          ingests = change_row ingest_key (ns.now ∷ name.now ∷ [])
              (ingest_until expires) self.old.ingests;
        } }
        ensures err { OnErr result (self.new ≡ self.old) }
    {
        if set_end(&mut self.ingests, ns, name, expires) {
            Ok(())
        } else {
            Err(Fault::NotFound)
        }
    }

    /// Removes an ingest's row.
    pub fn remove_ingest(&mut self, ns: &ShortName, name: &Name) -> Result<(), Fault>
        ensures fault { OnlyRefuses result (missing_fault (has_row ingest_key (ns.now ∷ name.now
            ∷ []) self.old.ingests)) }
        ensures left { self.new ≡ record self.old {
          ingests = remove_row ingest_key (ns.now
              ∷ name.now ∷ []) self.old.ingests;
        } }
        ensures err { OnErr result (self.new ≡ self.old) }
    {
        if self.ingests.remove(ns, name) {
            Ok(())
        } else {
            Err(Fault::NotFound)
        }
    }
}

fn set_end(
    ingests: &mut ByNamespace<Name, IngestRow>,
    ns: &ShortName,
    name: &Name,
    expires: Option<Instant>,
) -> bool
    ensures found { result ≡ has_row ingest_key (ns.now ∷ name.now ∷ []) ingests.old }
    ensures left { ingests.new ≡ change_row ingest_key (ns.now ∷ name.now ∷ [])
        (ingest_until expires) ingests.old }
    ensures same { OnFalse result (ingests.new ≡ ingests.old) }
{
    match ingests.change(ns, name, End { expires }) {
        Some(()) => true,
        None => false,
    }
}
