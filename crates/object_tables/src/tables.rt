//! The tables: rows of five kinds, and the namespaces that they are in.
ghost use Rattle.std.specs.Prelude.{◌≡◌, ◌∷◌, [], map, not, false, None, IfOk, OnOk, OnErr, length};
ghost use Rattle.meta_types.specs.Keys.{add_row, remove_row};
ghost use Rattle.meta_types.specs.Rows.{namespace_key};
ghost use Rattle.meta_types.specs.Changes.{has_namespace, is_in_use};
ghost use Rattle.meta_types.specs.Faults.{Refuses, OnlyRefuses, least_of};
ghost use Rattle.object_tables.specs.Calls.{AreInOrder, is_above, missing_fault, names_of_kind};
ghost use Rattle.meta_types.specs.Sound.{AreTables};

use crate::children::Snapshots;
use crate::ingests::Below;
use crate::names::Names;
use crate::stored::names_in;
use meta_types::{
    ContainerRow, ContentRow, Digest, Fault, ImageRow, IngestRow, Kind, Listing, Name, ShortName,
};
use row_tables::{ByNamespace, Seed};
use std::alloc::Global;
use std::marker::Model;

/// Rows of all kinds, by namespace.
#[derive(Drop)]
pub struct Tables {
    pub(crate) namespaces: Names<ShortName>,
    pub(crate) images: ByNamespace<Name, ImageRow>,
    pub(crate) containers: ByNamespace<Name, ContainerRow>,
    pub(crate) content: ByNamespace<Digest, ContentRow>,
    pub(crate) ingests: ByNamespace<Name, IngestRow>,
    pub(crate) snapshots: Snapshots,
}

impl Model for Tables {
    ghost use Rattle.meta_types.specs.Rows.{Tables};
    ghost use Rattle.meta_types.specs.Sound.{AreTables};

    ghost Value = { Tables };

    ghost view = { λ t. record {
      namespaces = t.namespaces;
      images = t.images;
      containers = t.containers;
      content = t.content;
      ingests = t.ingests;
      snapshots = t.snapshots;
    } };

    ghost invariant = { λ t. AreTables (record {
      namespaces = t.namespaces;
      images = t.images;
      containers = t.containers;
      content = t.content;
      ingests = t.ingests;
      snapshots = t.snapshots;
    }) };
}

/// How many rows there are of each kind.
#[derive(Clone, Copy, Debug, PartialEq, Eq)]
pub struct Counts {
    pub namespaces: u128,
    pub images: u128,
    pub containers: u128,
    pub content: u128,
    pub ingests: u128,
    pub snapshots: u128,
}

impl Tables {
    /// No namespace, and no row.
    pub fn new(alloc: Global, seed: Seed) -> Tables
        ensures { result ≡ record {
          namespaces = [];
          images = [];
          containers = [];
          content = [];
          ingests = [];
          snapshots = [];
        } }
    {
        Tables {
            namespaces: Names::new(alloc),
            images: ByNamespace::new(alloc, seed),
            containers: ByNamespace::new(alloc, seed),
            content: ByNamespace::new(alloc, seed),
            ingests: ByNamespace::new(alloc, seed),
            snapshots: Snapshots::new(alloc, seed),
        }
    }

    /// A copy, which shares the texts of the rows.
    pub fn copy(&self, alloc: Global) -> Result<Tables, Fault>
        ensures fault { Refuses result None }
        ensures ok { IfOk result (λ tables. tables ≡ self.now) }
    {
        let namespaces = self.namespaces.copy(alloc)?;
        let images = self.images.copy(alloc)?;
        let containers = self.containers.copy(alloc)?;
        let content = self.content.copy(alloc)?;
        let ingests = self.ingests.copy(alloc)?;
        let snapshots = self.snapshots.copy(alloc)?;
        Ok(Tables {
            namespaces,
            images,
            containers,
            content,
            ingests,
            snapshots,
        })
    }

    /// How many rows there are of each kind.
    pub fn counts(&self) -> Counts
        ensures namespaces { result.namespaces ≡ length self.now.namespaces }
        ensures images { result.images ≡ length self.now.images }
        ensures containers { result.containers ≡ length self.now.containers }
        ensures content { result.content ≡ length self.now.content }
        ensures ingests { result.ingests ≡ length self.now.ingests }
        ensures snapshots { result.snapshots ≡ length self.now.snapshots }
    {
        Counts {
            namespaces: self.namespaces.len() as u128,
            images: self.images.len(),
            containers: self.containers.len(),
            content: self.content.len(),
            ingests: self.ingests.len(),
            snapshots: self.snapshots.table().len(),
        }
    }

    /// How many namespaces there are.
    pub fn count_ns(&self) -> u64
        ensures { result ≡ length self.now.namespaces }
    {
        self.namespaces.len() as u64
    }

    /// Whether the namespace is there. Each caller learns here what the tables keep of themselves.
    pub fn has_ns(&self, ns: &ShortName) -> bool
        ensures there { result ≡ has_namespace self.now ns.now }
        ensures order { AreInOrder self.now }
        ensures sound { AreTables self.now }
    {
        self.namespaces.has(ns)
    }

    /// Whether a backend number is above those of all snapshots and ingests, so that a row may be
    /// added under it. It passes over both kinds: a store keeps a counter instead.
    pub fn is_above(&self, number: u64) -> bool
        ensures above { result ≡ is_above self.now number }
        ensures sound { AreTables self.now }
    {
        self.snapshots.table().all(&Below { number }) && self.ingests.all(&Below { number })
    }

    /// The namespaces, by their bytes.
    pub fn list_ns(&self, alloc: Global) -> Result<Listing, Fault>
        ensures fault { Refuses result None }
        ensures ok { IfOk result (λ names. names ≡ self.now.namespaces) }
    {
        let names = self.namespaces.list(alloc)?;
        listed(alloc, &names)
    }

    /// Adds a namespace, which has no row yet.
    pub fn add_ns(&mut self, _alloc: Global, ns: ShortName) -> Result<(), Fault>
        ensures fault { Refuses result (least_of false false (has_namespace self.old ns) false) }
        ensures ok { OnOk result (self.new ≡ record self.old
            { namespaces = add_row namespace_key ns self.old.namespaces }) }
        ensures err { OnErr result (self.new ≡ self.old) }
    {
        self.namespaces.add(self.images.seed(), ns)
    }

    /// Removes a namespace that has no row. Whether a lease is in it, the caller asks.
    pub fn remove_ns(&mut self, ns: &ShortName) -> Result<(), Fault>
        ensures fault { OnlyRefuses result (least_of false (not
            (has_namespace self.old ns.now)) false (is_in_use self.old ns.now)) }
        ensures ok { OnOk result (self.new ≡ record self.old
            { namespaces = remove_row namespace_key (ns.now ∷ []) self.old.namespaces }) }
        ensures err { OnErr result (self.new ≡ self.old) }
    {
        if !self.has_ns(ns) {
            return Err(Fault::NotFound);
        }
        if self.is_in_use(ns) {
            return Err(Fault::FailedPrecondition);
        }
        self.namespaces.remove(ns);
        Ok(())
    }

    fn is_in_use(&self, ns: &ShortName) -> bool
        ensures { result ≡ is_in_use self.now ns.now }
    {
        if self.images.any_in(ns) {
            return true;
        }
        if self.containers.any_in(ns) {
            return true;
        }
        if self.content.any_in(ns) {
            return true;
        }
        if self.ingests.any_in(ns) {
            return true;
        }
        self.snapshots.table().any_in(ns)
    }

    /// The names of a kind's rows in a namespace, by their bytes.
    pub fn list(&self, alloc: Global, kind: Kind, ns: &ShortName) -> Result<Listing, Fault>
        ensures fault { Refuses result (missing_fault (has_namespace self.now ns.now)) }
        ensures ok { IfOk result (λ names. names ≡ names_of_kind kind self.now ns.now) }
    {
        if !self.has_ns(ns) {
            return Err(Fault::NotFound);
        }
        match kind {
            Kind::Image => names_in(&self.images, alloc, ns),
            Kind::Container => names_in(&self.containers, alloc, ns),
            Kind::Content => names_in(&self.content, alloc, ns),
            Kind::Ingest => names_in(&self.ingests, alloc, ns),
        }
    }
}

// The names, in their order.
fn listed(alloc: Global, names: &[&ShortName]) -> Result<Listing, Fault>
    ensures fault { Refuses result None }
    ensures ok { IfOk result (λ list. list ≡ map (λ name. name.now) names.now) }
{
    let mut list = Listing::new(alloc);
    for name in names {
        list.push_short_name(name)?;
    }
    Ok(list)
}
