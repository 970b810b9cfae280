//! The children of each snapshot, by their names.
ghost use Rattle.std.specs.Prelude.{◌≡◌, ◌∷◌, [], ◌==◌, map, not, false, None, IfOk, OnOk, OnErr, IsTrue, length, option_copied, refl};
ghost use Rattle.std.proofs.Common.{ap};
ghost use Rattle.meta_types.specs.Keys.{row_at, has_row, are_in_order};
ghost use Rattle.meta_types.specs.Faults.{Refuses};
ghost use Rattle.row_tables.specs.Arrived.{one_text};
ghost use Rattle.object_tables.specs.Children.{Enters, enters_keep, Leaves, entered, left, family_key, family_names, families_left, first_family};

use crate::names::Names;
use meta_types::{Fault, Name, ShortName, SnapKey};
use row_tables::{BySnapshotter, Change, GroupedRow, NamedRow, Seed, SnapshotterRow};
use std::alloc::Global;
use std::marker::Model;

/// A snapshot that has children, and their names.
#[derive(Drop)]
pub(crate) struct Family {
    pub(crate) ns: ShortName,
    pub(crate) snapshotter: ShortName,
    pub(crate) parent: Name,
    pub(crate) children: Names<Name>,
}

impl NamedRow<Name> for Family {
    ghost name_of = { λ family. family.parent };

    fn name(&self) -> &Name {
        &self.parent
    }

    fn copy_row(&self, alloc: Global) -> Result<Family, Fault> {
        let ns = self.ns.copy()?;
        let snapshotter = self.snapshotter.copy()?;
        let parent = self.parent.copy()?;
        let children = self.children.copy(alloc)?;
        Ok(Family {
            ns,
            snapshotter,
            parent,
            children,
        })
    }
}

impl GroupedRow<Name> for Family {
    ghost group_of = { λ family. family.snapshotter };

    fn group(&self) -> &ShortName {
        &self.snapshotter
    }

    fn share_group(&mut self, group: ShortName) {
        self.snapshotter = group;
    }
}

impl SnapshotterRow<Name> for Family {
    ghost ns_of = { λ family. family.ns };

    fn ns(&self) -> &ShortName {
        &self.ns
    }

    fn share_ns(&mut self, ns: ShortName) {
        self.ns = ns;
    }
}

/// Adds a child to a family.
#[derive(Drop)]
struct OneMore {
    seed: Seed,
    name: Name,
}

impl Change<Name, Family, Result<(), Fault>> for OneMore {
    ghost changes = { λ c. Enters c.name };

    ghost keeps_name = { λ c. enters_keep c.name (λ family. family.parent) (λ family. refl) };

    fn change(self, family: &mut Family) -> Result<(), Fault> {
        family.children.add(self.seed, self.name)
    }
}

/// Removes a child from a family; says whether none is left.
#[derive(Drop)]
struct OneLess<'a> {
    name: &'a Name,
}

impl<'a> Change<Name, Family, bool> for OneLess<'a> {
    ghost changes = { λ c. Leaves c.name.now };

    ghost keeps_name = { λ c old answer new leaves. ap (λ family. family.parent) leaves.left };

    fn change(self, family: &mut Family) -> bool {
        family.children.remove(self.name);
        family.children.is_empty()
    }
}

/// The names of children, by their parents. A name is found by hashes, and so is its parent.
#[derive(Drop)]
pub(crate) struct Families {
    rows: BySnapshotter<Name, Family>,
}

impl Model for Families {
    ghost use Rattle.std.specs.Prelude.{List};
    ghost use Rattle.object_tables.specs.declared.families.Family.{Family};

    ghost Value = { List Family };

    ghost view = { λ t. t.rows };
}

impl Families {
    pub(crate) fn new(alloc: Global, seed: Seed) -> Families
        ensures { result ≡ [] }
    {
        Families {
            rows: BySnapshotter::new(alloc, seed),
        }
    }

    pub(crate) fn copy(&self, alloc: Global) -> Result<Families, Fault>
        ensures fault { Refuses result None }
        ensures ok { IfOk result (λ families. families ≡ self.now) }
    {
        let rows = self.rows.copy(alloc)?;
        Ok(Families { rows })
    }

    /// How many families there are. Each caller learns here that they stand in their order.
    pub(crate) fn len(&self) -> u128
        ensures len { result ≡ length self.now }
        ensures order { IsTrue (are_in_order family_key self.now) }
    {
        self.rows.len()
    }

    /// The family of a parent.
    fn family(&self, parent: &SnapKey) -> Option<&Family>
        ensures { option_copied result ≡ row_at family_key (parent.now.ns
            ∷ parent.now.snapshotter ∷ parent.now.name ∷ []) self.now }
    {
        self.rows.get(&parent.ns, &parent.snapshotter, &parent.name)
    }

    /// Whether a parent has a child.
    pub(crate) fn has_any(&self, parent: &SnapKey) -> bool
        ensures { result ≡ not (length (family_names self.now parent.now.ns
            parent.now.snapshotter parent.now.name) == 0) }
    {
        match self.family(parent) {
            Some(family) => !family.children.is_empty(),
            None => false,
        }
    }

    /// The names of a parent's children, in their order.
    pub(crate) fn names(&self, alloc: Global, parent: &SnapKey) -> Result<Vec<&Name>, Fault>
        ensures fault { Refuses result None }
        ensures ok { IfOk result (λ names. map (λ name. name.now) names.items ≡ family_names
            self.now parent.now.ns parent.now.snapshotter parent.now.name) }
    {
        match self.family(parent) {
            Some(family) => family.children.list(alloc),
            None => Ok(Vec::new(alloc)),
        }
    }

    /// Adds a snapshot under its parent.
    pub(crate) fn enter(&mut self, alloc: Global, key: &SnapKey, parent: &Name) -> Result<(), Fault>
        requires { has_row one_text (key.now.name ∷ []) (family_names self.old key.now.ns
            key.now.snapshotter parent.now) ≡ false }
        ensures fault { Refuses result None }
        ensures ok { OnOk result (family_names self.new
            ≡ entered key.now parent.now (family_names self.old)) }
        ensures err { OnErr result (self.new ≡ self.old) }
    {
        let seed = self.rows.seed();
        let name = key.name.copy()?;
        match self
            .rows
            .change(&key.ns, &key.snapshotter, parent, OneMore { seed, name })
        {
            Some(Ok(())) => Ok(()),
            Some(Err(fault)) => Err(fault),
            None => {
                let family = first_child(alloc, seed, key, parent)?;
                self.rows.add(alloc, family)
            }
        }
    }

    /// Removes a snapshot from under its parent, and the family with its last child.
    pub(crate) fn leave(&mut self, key: &SnapKey, parent: &Name)
        ensures rows { self.new ≡ families_left key.now parent.now self.old }
        ensures names { family_names self.new ≡ left key.now parent.now (family_names self.old) }
    {
        // Its clause says that the keys stand in their order.
        let _ = self.rows.len();
        let name = &key.name;
        match self
            .rows
            .change(&key.ns, &key.snapshotter, parent, OneLess { name })
        {
            Some(true) => {
                self.rows.remove(&key.ns, &key.snapshotter, parent);
            }
            Some(false) => {}
            None => {}
        }
    }
}

// A family of one child.
fn first_child(alloc: Global, seed: Seed, key: &SnapKey, parent: &Name) -> Result<Family, Fault>
    ensures fault { Refuses result None }
    ensures ok { IfOk result (λ family. family ≡ first_family key.now parent.now) }
{
    let ns = key.ns.copy()?;
    let snapshotter = key.snapshotter.copy()?;
    let parent = parent.copy()?;
    let name = key.name.copy()?;
    let mut children = Names::new(alloc);
    children.add(seed, name)?;
    Ok(Family {
        ns,
        snapshotter,
        parent,
        children,
    })
}
