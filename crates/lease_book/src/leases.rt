//! The leases of all namespaces, and what requests do to them.
ghost use Rattle.std.specs.Prelude.{◌≡◌, length, ◌∷◌, [], map, filter, bytes_eq, None, Some, option_map, option_copied, OnOk, OnErr, IfOk, IsTrue};
ghost use Rattle.meta_types.specs.Keys.{are_in_order, row_at, has_row, add_row, remove_row, change_row};
ghost use Rattle.meta_types.specs.Labels.{put_label};
ghost use Rattle.meta_types.specs.Rows.{lease_key};
ghost use Rattle.meta_types.specs.Changes.{lease_holds, hold_in_lease, release_in_lease, has_lease_in};
ghost use Rattle.meta_types.specs.Faults.{Refuses, OnlyRefuses};
ghost use Rattle.row_tables.specs.Arrived.{sorted};
ghost use Rattle.lease_book.specs.Edits.{lease_with};
ghost use Rattle.lease_book.specs.Calls.{creating_fault, missing_fault, labelling_fault, ids_in};

use crate::edits::{Hold, OneLabel, Parts, Release};
use crate::ids::ids_of;
use crate::lease::Lease;
use meta_types::{Data, Fault, Labels, Name, Resource, ShortName};
use row_tables::{ArrivedByNamespace, ByNamespace, Seed};
use std::alloc::Global;
use std::marker::Model;

/// The leases of all namespaces, in the order of namespaces and ids (containerd leases service).
/// Each is found by a hash of its id.
#[derive(Drop)]
pub struct Leases {
    rows: ByNamespace<Name, Lease>,
}

impl Model for Leases {
    ghost use Rattle.std.specs.Prelude.{List};
    ghost use Rattle.meta_types.specs.Rows.{LeaseRow};

    ghost Value = { List LeaseRow };

    ghost view = { λ l. l.rows };
}

impl Leases {
    /// No lease.
    pub fn new(alloc: Global, seed: Seed) -> Leases
        ensures { result ≡ [] }
    {
        Leases {
            rows: ByNamespace::new(alloc, seed),
        }
    }

    /// How many leases there are.
    pub fn len(&self) -> u128
        ensures { result ≡ length self.now }
    {
        self.rows.len()
    }

    /// All leases, in the order of namespaces and ids.
    pub fn leases(&self, alloc: Global) -> Result<Vec<&Lease>, Fault>
        ensures fault { Refuses result None }
        ensures ok { IfOk result (λ list. map (λ row. row.now) list.items ≡ self.now) }
        ensures order { IsTrue (are_in_order lease_key self.now) }
    {
        self.rows.rows(alloc)
    }

    /// Whether the lease is there, expired or not.
    pub fn has(&self, ns: &ShortName, id: &Name) -> bool
        ensures { result ≡ has_row lease_key (ns.now ∷ id.now ∷ []) self.now }
    {
        self.rows.has(ns, id)
    }

    /// Whether the lease holds the resource, which needn't be there.
    pub fn holds(&self, ns: &ShortName, id: &Name, resource: &Resource) -> bool
        ensures { result ≡ lease_holds (ns.now ∷ id.now ∷ []) resource.now self.now }
    {
        match self.rows.get(ns, id) {
            Some(lease) => lease.holds(resource),
            None => false,
        }
    }

    /// What a lease holds, in the order of types and ids.
    pub fn resources(
        &self,
        alloc: Global,
        ns: &ShortName,
        id: &Name,
    ) -> Result<Vec<&Resource>, Fault>
        ensures fault { Refuses result
            (missing_fault (has_row lease_key (ns.now ∷ id.now ∷ []) self.now)) }
        ensures ok { IfOk result (λ list. Some (map (λ resource. resource.now) list.items)
            ≡ option_map (λ row. row.resources) (row_at lease_key (ns.now ∷ id.now ∷ []) self.now)) }
    {
        match self.rows.get(ns, id) {
            Some(lease) => Ok(lease.resources(alloc)?),
            None => Err(Fault::NotFound),
        }
    }

    /// A lease.
    pub fn get(&self, ns: &ShortName, id: &Name) -> Option<&Lease>
        ensures { option_copied result ≡ row_at lease_key (ns.now ∷ id.now ∷ []) self.now }
    {
        self.rows.get(ns, id)
    }

    /// The leases of a namespace, in the order of their ids.
    pub fn leases_in(&self, alloc: Global, ns: &ShortName) -> Result<Vec<&Lease>, Fault>
        ensures fault { Refuses result None }
        ensures ok { IfOk result (λ list. map (λ row. row.now) list.items
            ≡ filter (λ row. bytes_eq ns.now row.ns) self.now) }
    {
        // For the prover: the result is opened, not passed on.
        let rows = self.rows.rows_in(alloc, ns)?;
        Ok(rows)
    }

    /// Adds a lease that holds nothing yet.
    pub fn create(
        &mut self,
        alloc: Global,
        ns: &ShortName,
        id: &Name,
        labels: Labels,
        extra: Data,
    ) -> Result<(), Fault>
        ensures fault { Refuses result
            (creating_fault (has_row lease_key (ns.now ∷ id.now ∷ []) self.old)) }
        ensures ok { OnOk result (self.new ≡ add_row lease_key
            (record { ns = ns.now; id = id.now; labels = labels; extra = extra; resources = [] })
            self.old) }
        ensures err { OnErr result (self.new ≡ self.old) }
    {
        if self.has(ns, id) {
            return Err(Fault::AlreadyExists);
        }
        let seed = self.rows.seed();
        let ns = ns.copy()?;
        let id = id.copy()?;
        self.rows
            .add(alloc, Lease::new(alloc, seed, ns, id, labels, extra))
    }

    /// Takes a lease away, with what it holds.
    pub fn remove(&mut self, ns: &ShortName, id: &Name) -> Result<(), Fault>
        ensures fault { OnlyRefuses result
            (missing_fault (has_row lease_key (ns.now ∷ id.now ∷ []) self.old)) }
        ensures left { self.new ≡ remove_row lease_key (ns.now ∷ id.now ∷ []) self.old }
        ensures err { OnErr result (self.new ≡ self.old) }
    {
        if self.rows.remove(ns, id) {
            Ok(())
        } else {
            Err(Fault::NotFound)
        }
    }

    /// Sets the labels and the data of a lease.
    pub fn set(
        &mut self,
        ns: &ShortName,
        id: &Name,
        labels: Labels,
        extra: Data,
    ) -> Result<(), Fault>
        ensures fault { OnlyRefuses result
            (missing_fault (has_row lease_key (ns.now ∷ id.now ∷ []) self.old)) }
        ensures left { self.new ≡ change_row lease_key (ns.now ∷ id.now ∷ [])
            (lease_with labels extra) self.old }
        ensures err { OnErr result (self.new ≡ self.old) }
    {
        match self.rows.change(ns, id, Parts { labels, extra }) {
            Some(()) => Ok(()),
            None => Err(Fault::NotFound),
        }
    }

    /// Puts one label on a lease.
    pub fn relabel(
        &mut self,
        alloc: Global,
        ns: &ShortName,
        id: &Name,
        key: &str,
        value: &str,
    ) -> Result<(), Fault>
        ensures fault { Refuses result
            (labelling_fault key.now value.now (row_at lease_key (ns.now ∷ id.now ∷ []) self.old)) }
        ensures ok { OnOk result (self.new ≡ change_row lease_key (ns.now ∷ id.now ∷ [])
            (λ row. record row { labels = put_label key.now value.now row.labels }) self.old) }
        ensures err { OnErr result (self.new ≡ self.old) }
    {
        match self.rows.change(ns, id, OneLabel { alloc, key, value }) {
            Some(Ok(())) => Ok(()),
            Some(Err(fault)) => Err(fault),
            None if Labels::new(alloc).takes(key, value) => Err(Fault::NotFound),
            None => Err(Fault::InvalidArgument),
        }
    }

    /// Gives a lease a resource, which needn't be there; one that it holds already changes nothing.
    pub fn add_resource(
        &mut self,
        _alloc: Global,
        ns: &ShortName,
        id: &Name,
        resource: Resource,
    ) -> Result<(), Fault>
        ensures fault { Refuses result
            (missing_fault (has_row lease_key (ns.now ∷ id.now ∷ []) self.old)) }
        ensures ok { OnOk result (self.new ≡ hold_in_lease (ns.now ∷ id.now ∷ []) resource self.old) }
        ensures err { OnErr result (self.new ≡ self.old) }
    {
        match self.rows.change(ns, id, Hold { resource }) {
            Some(Ok(())) => Ok(()),
            Some(Err(_)) => Err(Fault::OutOfMemory),
            None => Err(Fault::NotFound),
        }
    }

    /// Takes a resource from a lease.
    pub fn drop_resource(
        &mut self,
        ns: &ShortName,
        id: &Name,
        resource: &Resource,
    ) -> Result<(), Fault>
        ensures fault { OnlyRefuses result
            (missing_fault (lease_holds (ns.now ∷ id.now ∷ []) resource.now self.old)) }
        ensures left { self.new ≡ release_in_lease (ns.now ∷ id.now ∷ []) resource.now self.old }
        ensures err { OnErr result (self.new ≡ self.old) }
    {
        match self.rows.change(ns, id, Release { resource }) {
            Some(true) => Ok(()),
            Some(false) => Err(Fault::NotFound),
            None => Err(Fault::NotFound),
        }
    }

    /// Whether some lease is in the namespace.
    pub fn any_in(&self, ns: &ShortName) -> bool
        ensures { result ≡ has_lease_in self.now ns.now }
    {
        self.rows.any_in(ns)
    }

    /// The ids of a namespace's leases, in the order of their bytes.
    pub fn list(&self, alloc: Global, ns: &ShortName) -> Result<Vec<Name>, Fault>
        ensures fault { Refuses result None }
        ensures ok { IfOk result (λ ids. ids.items ≡ ids_in ns.now self.now) }
    {
        let rows = self.leases_in(alloc, ns)?;
        ids_of(alloc, &rows)
    }

    /// A copy, which shares the texts of the leases.
    pub fn copy(&self, alloc: Global) -> Result<Leases, Fault>
        ensures fault { Refuses result None }
        ensures ok { IfOk result (λ leases. leases ≡ self.now) }
    {
        let rows = self.rows.copy(alloc)?;
        Ok(Leases { rows })
    }

    /// Lends the leases as they arrived.
    pub fn arrived(&self) -> &ArrivedByNamespace<Name, Lease>
        ensures { sorted lease_key result.now ≡ self.now }
    {
        self.rows.arrived()
    }

    /// Hands over the leases as they arrived; none is copied or sorted.
    pub fn into_arrived(self) -> ArrivedByNamespace<Name, Lease>
        ensures { sorted lease_key result ≡ self }
    {
        self.rows.into_arrived()
    }

    /// Takes over the leases as they arrived; none is copied or sorted.
    pub fn from_arrived(arrived: ArrivedByNamespace<Name, Lease>) -> Leases
        ensures { result ≡ sorted lease_key arrived }
    {
        Leases {
            rows: ByNamespace::from_arrived(arrived),
        }
    }
}
