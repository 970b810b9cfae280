//! Containers, with the snapshots that they run on.
ghost use Rattle.std.specs.Prelude.{◌≡◌, ◌∷◌, [], IfOk, OnOk, OnErr, option_copied, bytes_eq, filter, map};
ghost use Rattle.meta_types.specs.Changes.{has_namespace};
ghost use Rattle.meta_types.specs.Keys.{row_at, has_row, add_row, remove_row, change_row};
ghost use Rattle.meta_types.specs.Labels.{put_label};
ghost use Rattle.meta_types.specs.Rows.{container_key};
ghost use Rattle.meta_types.specs.Faults.{Refuses, OnlyRefuses};
ghost use Rattle.object_tables.specs.Edits.{container_with};
ghost use Rattle.object_tables.specs.Calls.{adding_fault, missing_fault, labelling_fault};

use crate::parts::set_parts;
use crate::stored::relabel;
use crate::tables::Tables;
use meta_types::{ContainerRow, Data, Fault, Labels, Name, ShortName};
use std::alloc::Global;

impl Tables {
    /// The row of a container.
    pub fn get_container(&self, ns: &ShortName, name: &Name) -> Option<&ContainerRow>
        ensures { option_copied result ≡ row_at container_key (ns.now ∷ name.now
            ∷ []) self.now.containers }
    {
        self.containers.get(ns, name)
    }

    /// Whether the container is there.
    pub fn has_container(&self, ns: &ShortName, name: &Name) -> bool
        ensures { result ≡ has_row container_key (ns.now ∷ name.now ∷ []) self.now.containers }
    {
        self.containers.has(ns, name)
    }

    /// The containers of a namespace, in the order of their names.
    pub fn containers_in(&self, alloc: Global, ns: &ShortName) -> Result<Vec<&ContainerRow>, Fault>
        ensures fault { Refuses result (missing_fault (has_namespace self.now ns.now)) }
        ensures ok { IfOk result (λ list. map (λ row. row.now) list.items
            ≡ filter (λ row. bytes_eq ns.now row.ns) self.now.containers) }
    {
        if !self.has_ns(ns) {
            return Err(Fault::NotFound);
        }
        // For the prover: the result is opened, not passed on.
        let rows = self.containers.rows_in(alloc, ns)?;
        Ok(rows)
    }

    /// Adds a container's row.
    pub fn add_container(&mut self, alloc: Global, row: ContainerRow) -> Result<(), Fault>
        ensures fault { Refuses result (adding_fault self.old row.ns (has_row container_key
            (container_key row) self.old.containers)) }
        ensures ok { OnOk result (self.new ≡ record self.old
            { containers = add_row container_key row self.old.containers }) }
        ensures err { OnErr result (self.new ≡ self.old) }
    {
        if !self.has_ns(&row.ns) {
            return Err(Fault::NotFound);
        }
        self.containers.add_new(alloc, row)
    }

    /// Removes a container's row.
    pub fn remove_container(&mut self, ns: &ShortName, name: &Name) -> Result<(), Fault>
        ensures fault { OnlyRefuses result (missing_fault (has_row container_key (ns.now
            ∷ name.now ∷ []) self.old.containers)) }
        ensures left { self.new ≡ record self.old {
          containers = remove_row container_key (ns.now
              ∷ name.now ∷ []) self.old.containers;
        } }
        ensures err { OnErr result (self.new ≡ self.old) }
    {
        if self.containers.remove(ns, name) {
            Ok(())
        } else {
            Err(Fault::NotFound)
        }
    }

    /// Sets all that a container has but its name.
    pub fn set_container(
        &mut self,
        ns: &ShortName,
        name: &Name,
        snapshot: Option<(ShortName, Name)>,
        labels: Labels,
        extra: Data,
    ) -> Result<(), Fault>
        ensures fault { OnlyRefuses result (missing_fault (has_row container_key (ns.now
            ∷ name.now ∷ []) self.old.containers)) }
        ensures left { self.new ≡ record self.old {
          containers = change_row container_key (ns.now ∷ name.now ∷ [])
              (container_with snapshot labels extra) self.old.containers;
        } }
        ensures err { OnErr result (self.new ≡ self.old) }
    {
        if set_parts(&mut self.containers, ns, name, snapshot, labels, extra) {
            Ok(())
        } else {
            Err(Fault::NotFound)
        }
    }

    /// Puts one label on a container.
    pub fn relabel_container(
        &mut self,
        alloc: Global,
        ns: &ShortName,
        name: &Name,
        key: &str,
        value: &str,
    ) -> Result<(), Fault>
        ensures fault { Refuses result (labelling_fault (λ row. row.labels) key.now value.now
            (row_at container_key (ns.now ∷ name.now ∷ []) self.old.containers)) }
        ensures ok { OnOk result (self.new ≡ record self.old {
          containers = change_row container_key (ns.now ∷ name.now ∷ []) (λ row. record row
              { labels = put_label key.now value.now row.labels }) self.old.containers;
        }) }
        ensures err { OnErr result (self.new ≡ self.old) }
    {
        relabel(&mut self.containers, alloc, ns, name, key, value)
    }
}
