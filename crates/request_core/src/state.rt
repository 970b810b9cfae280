//! A store: its records, and its backends.
ghost use Rattle.std.specs.Prelude.{◌≡◌, ◌∷◌, [], None, IfOk, true};
ghost use Rattle.std.specs.Bool.{OnFalse};
ghost use Rattle.meta_types.specs.Changes.{has_namespace};
ghost use Rattle.meta_types.specs.Ops.{lacks};
ghost use Rattle.meta_types.specs.Faults.{Refuses};
ghost use Rattle.meta_types.specs.Limits.{is_too_large};
ghost use Rattle.meta_types.specs.Sound.{IsSound};
ghost use Rattle.request_core.specs.Parts.{is_lease_there};

use back_model::{Backends, BlobBackend, IngestBackend, SnapBackend};
use lease_book::Leases;
use meta_types::{Fault, MAX_NODES, Name, ShortName};
use object_tables::Tables;
use row_tables::Seed;
use std::alloc::Global;
use std::marker::Model;

/// All rows and leases, the next backend number, from 1 on, and the profile, 1 or 2.
#[derive(Drop)]
pub struct Records {
    pub tables: Tables,
    pub leases: Leases,
    pub next: u64,
    pub profile: u8,
}

impl Records {
    /// No row and no lease, in the first profile. The hashes of its tables are the same in each run.
    pub fn empty(alloc: Global) -> Records
        ensures { result ≡ record {
          tables = record {
            namespaces = [];
            images = [];
            containers = [];
            content = [];
            ingests = [];
            snapshots = [];
          };
          leases = [];
          next = 1;
          profile = 1;
        } }
    {
        Records::empty_with(alloc, Seed::Fixed)
    }

    /// No row and no lease, in the first profile. All tables hash by the seed.
    pub fn empty_with(alloc: Global, seed: Seed) -> Records
        ensures { result ≡ record {
          tables = record {
            namespaces = [];
            images = [];
            containers = [];
            content = [];
            ingests = [];
            snapshots = [];
          };
          leases = [];
          next = 1;
          profile = 1;
        } }
    {
        Records {
            tables: Tables::new(alloc, seed),
            leases: Leases::new(alloc, seed),
            next: 1,
            profile: 1,
        }
    }

    /// Whether the rows are more than a collection may mark: each content and snapshot row twice, each
    /// ingest row once.
    pub fn is_too_large(&self) -> bool
        ensures { result ≡ is_too_large (record {
          tables = self.now.tables;
          leases = self.now.leases;
          next = self.now.next;
          profile = self.now.profile;
        }) }
    {
        let counts = self.tables.counts();
        let most = MAX_NODES as u128;
        if most < counts.content || most < counts.snapshots || most < counts.ingests {
            return true;
        }
        most < 2 * (counts.content + counts.snapshots) + counts.ingests
    }

    /// A copy, which shares the texts of the rows.
    pub fn copy(&self, alloc: Global) -> Result<Records, Fault>
        ensures fault { Refuses result None }
        ensures ok { IfOk result (λ records. records ≡ self.now) }
    {
        let tables = self.tables.copy(alloc)?;
        let leases = self.leases.copy(alloc)?;
        Ok(Records {
            tables,
            leases,
            next: self.next,
            profile: self.profile,
        })
    }
}

/// A store: its records, and the objects that its rows own.
#[derive(Drop)]
pub struct State<S: SnapBackend, B: BlobBackend, I: IngestBackend> {
    pub records: Records,
    pub backends: Backends<S, B, I>,
}

impl<S: SnapBackend, B: BlobBackend, I: IngestBackend> Model for State<S, B, I> {
    ghost use Rattle.std.specs.Prelude.{◌+◌};
    ghost use Rattle.back_model.specs.Shown.{all_snaps, all_failures};
    ghost use Rattle.request_core.specs.Follows.{Store, store_of};

    ghost Value = { Store };

    ghost view = { λ s. store_of s.records.tables s.records.leases s.records.next
        s.records.profile (all_snaps s.backends.shards) (B.contents s.backends.blobs)
        (I.contents s.backends.ingests) (all_failures s.backends.shards
        + B.fails s.backends.blobs + I.fails s.backends.ingests) };
}

impl<S: SnapBackend, B: BlobBackend, I: IngestBackend> State<S, B, I> {
    /// Nothing stored, over fresh backends, in the first profile. The hashes of its tables are the
    /// same in each run, so who picks names can pick some that clash.
    pub fn empty(alloc: Global) -> State<S, B, I>
        ensures empty { result ≡ record {
          state = record {
            records = record {
              tables = record {
                namespaces = [];
                images = [];
                containers = [];
                content = [];
                ingests = [];
                snapshots = [];
              };
              leases = [];
              next = 1;
              profile = 1;
            };
            backends = record { blobs = []; snapshots = []; ingests = [] };
          };
          failures = 0;
        } }
        ensures sound { IsSound result.state }
    {
        State::empty_with(alloc, Seed::Fixed)
    }

    /// Nothing stored, over fresh backends, in the first profile. All tables hash by the seed, those
    /// made later and those of copies too.
    pub fn empty_with(alloc: Global, seed: Seed) -> State<S, B, I>
        ensures empty { result ≡ record {
          state = record {
            records = record {
              tables = record {
                namespaces = [];
                images = [];
                containers = [];
                content = [];
                ingests = [];
                snapshots = [];
              };
              leases = [];
              next = 1;
              profile = 1;
            };
            backends = record { blobs = []; snapshots = []; ingests = [] };
          };
          failures = 0;
        } }
        ensures sound { IsSound result.state }
    {
        State {
            records: Records::empty_with(alloc, seed),
            backends: Backends::new(alloc, B::fresh(alloc, seed), I::fresh(alloc)),
        }
    }

    /// The records.
    pub fn records(&self) -> &Records
        ensures tables { result.now.tables ≡ self.now.state.records.tables }
        ensures leases { result.now.leases ≡ self.now.state.records.leases }
        ensures next { result.now.next ≡ self.now.state.records.next }
        ensures profile { result.now.profile ≡ self.now.state.records.profile }
    {
        &self.records
    }

    /// Whether the namespace or the lease that is named isn't there.
    pub(crate) fn lacks(&self, ns: &ShortName, lease: &Option<Name>) -> bool
        ensures lacks { result ≡ lacks self.now.state ns.now lease.now }
        ensures ns { OnFalse result (has_namespace self.now.state.records.tables ns.now ≡ true) }
        ensures lease { OnFalse result
            (is_lease_there ns.now lease.now self.now.state.records.leases ≡ true) }
    {
        if !self.records.tables.has_ns(ns) {
            return true;
        }
        match lease {
            Some(id) => !self.records.leases.has(ns, id),
            None => false,
        }
    }
}
