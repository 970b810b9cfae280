//! One lease, with its labels, its data and the resources that it holds.
ghost use Rattle.std.specs.Prelude.{◌≡◌, [], map, None, IfOk, OnOk, OnErr, IsTrue};
ghost use Rattle.meta_types.specs.Keys.{are_in_order, has_row, remove_row};
ghost use Rattle.meta_types.specs.Resources.{resource_key, held};
ghost use Rattle.meta_types.specs.Labels.{put_label, takes_label};
ghost use Rattle.meta_types.specs.Faults.{Refuses, unless};
ghost use Rattle.meta_types.specs.declared.fault.Fault.TheVariants.{InvalidArgument};
ghost use Rattle.row_tables.specs.Arrived.{sorted};

use meta_types::{Data, Fault, Labels, Name, Resource, ShortName};
use row_tables::{GroupedRow, NamedRow, RowTable, Seed, in_key_order};
use std::alloc::Global;
use std::marker::Model;

/// A lease, with what it holds (containerd leases service).
#[derive(Drop)]
pub struct Lease {
    ns: ShortName,
    id: Name,
    labels: Labels,
    extra: Data,
    resources: RowTable<Resource, Resource>,
}

impl Model for Lease {
    ghost use Rattle.meta_types.specs.Resources.{resource_key};
    ghost use Rattle.meta_types.specs.Rows.{LeaseRow};
    ghost use Rattle.row_tables.specs.Arrived.{sorted};

    ghost Value = { LeaseRow };

    ghost view = { λ l. record {
      ns = l.ns;
      id = l.id;
      labels = l.labels;
      extra = l.extra;
      resources = sorted resource_key l.resources;
    } };
}

impl Lease {
    /// A lease that holds nothing yet.
    pub(crate) fn new(
        alloc: Global,
        seed: Seed,
        ns: ShortName,
        id: Name,
        labels: Labels,
        extra: Data,
    ) -> Lease
        ensures { result ≡ record { ns = ns; id = id; labels = labels; extra = extra; resources = [] } }
    {
        Lease {
            ns,
            id,
            labels,
            extra,
            resources: RowTable::new(alloc, seed),
        }
    }

    /// The namespace that it is in.
    pub fn ns(&self) -> &ShortName
        ensures { result.now ≡ self.now.ns }
    {
        &self.ns
    }

    /// Its name in the namespace.
    pub fn id(&self) -> &Name
        ensures { result.now ≡ self.now.id }
    {
        &self.id
    }

    /// Its labels, which say when it ends and whether it is flat.
    pub fn labels(&self) -> &Labels
        ensures { result.now ≡ self.now.labels }
    {
        &self.labels
    }

    /// Its data.
    pub fn extra(&self) -> &Data
        ensures { result.now ≡ self.now.extra }
    {
        &self.extra
    }

    /// What it holds, in the order of types and ids.
    pub fn resources(&self, alloc: Global) -> Result<Vec<&Resource>, Fault>
        ensures fault { Refuses result None }
        ensures ok { IfOk result (λ list. map (λ resource. resource.now) list.items
            ≡ self.now.resources) }
        ensures order { IsTrue (are_in_order resource_key self.now.resources) }
    {
        in_key_order(alloc, &self.resources)
    }

    /// What it holds, lent as it arrived, for callers who need no order; nothing is copied.
    pub fn arrived_resources(&self) -> &[Resource]
        ensures { sorted resource_key result.now ≡ self.now.resources }
    {
        self.resources.rows()
    }

    pub(crate) fn holds(&self, resource: &Resource) -> bool
        ensures { result ≡ has_row resource_key (resource_key resource.now) self.now.resources }
    {
        self.resources.has(resource)
    }

    pub(crate) fn hold(&mut self, resource: Resource) -> Result<(), Fault>
        ensures fault { Refuses result None }
        ensures ok { OnOk result (self.new
            ≡ record self.old { resources = held resource self.old.resources }) }
        ensures err { OnErr result (self.new ≡ self.old) }
    {
        if !self.resources.has(&resource) {
            self.resources.add(resource)?;
        }
        Ok(())
    }

    pub(crate) fn release(&mut self, resource: &Resource) -> bool
        ensures found { result
            ≡ has_row resource_key (resource_key resource.now) self.old.resources }
        ensures left { self.new ≡ record self.old {
          resources = remove_row resource_key
              (resource_key resource.now) self.old.resources;
        } }
    {
        self.resources.take(resource).is_some()
    }

    pub(crate) fn set_parts(&mut self, labels: Labels, extra: Data)
        ensures { self.new ≡ record self.old { labels = labels; extra = extra } }
    {
        self.labels = labels;
        self.extra = extra;
    }

    pub(crate) fn relabel(&mut self, alloc: Global, key: &str, value: &str) -> Result<(), Fault>
        ensures fault { Refuses result
            (unless (takes_label key.now value.now self.old.labels) InvalidArgument) }
        ensures ok { OnOk result (self.new
            ≡ record self.old { labels = put_label key.now value.now self.old.labels }) }
        ensures err { OnErr result (self.new ≡ self.old) }
    {
        self.labels.put(alloc, key, value)
    }

    pub(crate) fn copy(&self, alloc: Global) -> Result<Lease, Fault>
        ensures fault { Refuses result None }
        ensures ok { IfOk result (λ lease. lease ≡ self.now) }
    {
        let ns = self.ns.copy()?;
        let id = self.id.copy()?;
        let labels = self.labels.copy(alloc)?;
        let extra = self.extra.copy()?;
        let resources = self.resources.copy(alloc)?;
        Ok(Lease {
            ns,
            id,
            labels,
            extra,
            resources,
        })
    }
}

impl NamedRow<Name> for Lease {
    ghost name_of = { λ row. row.id };

    fn name(&self) -> &Name {
        &self.id
    }

    fn copy_row(&self, alloc: Global) -> Result<Lease, Fault> {
        self.copy(alloc)
    }
}

impl GroupedRow<Name> for Lease {
    ghost group_of = { λ row. row.ns };

    fn group(&self) -> &ShortName {
        &self.ns
    }

    fn share_group(&mut self, group: ShortName) {
        self.ns = group;
    }
}
