//! A model of snapshots, kept in memory and found by number.
ghost use Rattle.std.specs.Prelude.{◌≡◌, ◌+◌, ℕ, false, nat_lt, option_map, IfSome, IsSome};
ghost use Rattle.std.specs.FinMap as finmap;
ghost use Rattle.std.specs.BTreeMap.{get, IsOrdered};
ghost use Rattle.std.specs.Option.{option_map_or};
ghost use Rattle.std.specs.Ordering.{nat_cmp};
ghost use Rattle.back_model.specs.Snaps.{has_child, is_parent_held, accepts, gives_up};
ghost use Rattle.back_model.specs.Nodes.{snaps_of, one_if, children_of, counted, AreCounted};

use crate::faults::{MakeFault, RemoveFault};
use crate::traits::SnapBackend;
use meta_types::Fault;
use std::alloc::Global;
use std::collections::BTreeMap;
use std::marker::Model;

// A snapshot's parent, and how many snapshots have it as theirs.
#[derive(Clone, Copy)]
struct Node {
    parent: Option<u64>,
    children: u64,
}

/// Snapshots in memory. No device fails.
#[derive(Drop)]
pub struct MemBackend {
    nodes: BTreeMap<u64, Node>,
}

impl Model for MemBackend {
    ghost use Rattle.std.specs.Prelude.{ℕ, Option};
    ghost use Rattle.std.specs.Ordering.{nat_cmp};
    ghost use Rattle.std.specs.FinMap as finmap;
    ghost use Rattle.std.specs.Coded.{coded_ℕ, coded_option};
    ghost use Rattle.back_model.specs.Nodes.{snaps_of, AreCounted};

    ghost Value = { finmap.FinMap nat_cmp (Option ℕ) };

    ghost coded = { finmap.code coded_ℕ (coded_option coded_ℕ) };

    ghost view = { λ b. snaps_of b.nodes };

    ghost invariant = { λ b. AreCounted b.nodes };
}

impl MemBackend {
    // The snapshot, where it is there.
    fn node(&self, number: u64) -> Option<Node>
        ensures parent { option_map (λ node. node.parent) result ≡ finmap.get self.now number }
        ensures child { option_map_or (λ node. nat_lt 0 node.children) result false
            ≡ has_child self.now number }
    {
        self.nodes.get(&number).copied()
    }

    // Whether the parent that is named is there, if one is named.
    fn holds_parent(&self, parent: Option<u64>) -> bool
        ensures { result ≡ is_parent_held self.now parent }
    {
        match parent {
            Some(above) => self.holds(above),
            None => true,
        }
    }

    // Whether the contents allow the snapshot to be made.
    pub(crate) fn accepts(&self, number: u64, parent: Option<u64>) -> bool
        ensures { result ≡ accepts self.now number parent }
    {
        !self.holds(number) && self.holds_parent(parent)
    }

    // Whether the contents allow the snapshot to be removed.
    pub(crate) fn gives_up(&self, number: u64) -> bool
        ensures { result ≡ gives_up self.now number }
    {
        self.holds(number) && !self.is_parent(number)
    }

    fn is_parent(&self, number: u64) -> bool
        ensures { result ≡ has_child self.now number }
    {
        match self.node(number) {
            Some(node) => node.children > 0,
            None => false,
        }
    }
}

// Counts one child more of the parent of a snapshot that was put in.
fn add_child(nodes: &mut BTreeMap<u64, Node>, parent: Option<u64>)
    requires order { IsOrdered nat_cmp nodes.old }
    requires held { IfSome parent (λ above. IsSome (get nat_cmp nodes.old above)) }
    requires counted { (n : ℕ) → counted n nodes.old + one_if n parent ≡ children_of n nodes.old }
    ensures same { snaps_of nodes.new ≡ snaps_of nodes.old }
    ensures counted { AreCounted nodes.new }
{
    let Some(above) = parent else {
        return;
    };
    let Some(node) = nodes.get(&above).copied() else {
        unreachable!()
    };
    // There are no more children than snapshots, whose number fits.
    let _ = nodes.len();
    let children = node.children + 1;
    // The key is there, so this takes no memory.
    let _ = nodes.insert(above, Node { children, ..node });
}

// Counts one child less of the parent of a snapshot that was taken out.
fn drop_child(nodes: &mut BTreeMap<u64, Node>, parent: Option<u64>)
    requires order { IsOrdered nat_cmp nodes.old }
    requires counted { (n : ℕ) → counted n nodes.old ≡ children_of n nodes.old + one_if n parent }
    ensures same { snaps_of nodes.new ≡ snaps_of nodes.old }
    ensures counted { AreCounted nodes.new }
{
    let Some(above) = parent else {
        return;
    };
    let Some(node) = nodes.get_mut(&above) else {
        unreachable!()
    };
    node.children -= 1;
}

impl SnapBackend for MemBackend {
    ghost contents = { λ b. b };

    ghost fails = { λ _. 0 };

    fn never_fails() -> bool {
        true
    }

    fn fresh(alloc: Global) -> MemBackend {
        MemBackend {
            nodes: BTreeMap::new(alloc),
        }
    }

    fn make(&mut self, _alloc: Global, number: u64, parent: Option<u64>) -> Result<(), MakeFault> {
        if self.holds(number) {
            return Err(MakeFault::Taken);
        }
        if !self.holds_parent(parent) {
            return Err(MakeFault::Missing);
        }
        let node = Node {
            parent,
            children: 0,
        };
        if self.nodes.insert(number, node).is_err() {
            return Err(MakeFault::Memory);
        }
        add_child(&mut self.nodes, parent);
        Ok(())
    }

    fn remove(&mut self, number: u64) -> Result<(), RemoveFault> {
        let Some(node) = self.node(number) else {
            return Err(RemoveFault::Missing);
        };
        if node.children > 0 {
            return Err(RemoveFault::HasChildren);
        }
        if let Some(gone) = self.nodes.remove(&number) {
            drop_child(&mut self.nodes, gone.parent);
        }
        Ok(())
    }

    fn holds(&self, number: u64) -> bool {
        self.node(number).is_some()
    }

    fn is_empty(&self) -> bool {
        self.nodes.len() == 0
    }

    fn parent(&self, number: u64) -> Option<u64> {
        match self.node(number) {
            Some(node) => node.parent,
            None => None,
        }
    }

    fn numbers(&self, alloc: Global) -> Result<Vec<u64>, Fault> {
        let mut numbers = Vec::with_capacity(alloc, self.nodes.len())?;
        for number in self.nodes.keys() {
            numbers.push(*number)?;
        }
        Ok(numbers)
    }

    fn list(&self, alloc: Global) -> Result<Vec<(u64, Option<u64>)>, Fault> {
        let mut list = Vec::with_capacity(alloc, self.nodes.len())?;
        for entry in self.nodes.iter() {
            list.push((*entry.0, entry.1.parent))?;
        }
        Ok(list)
    }

    fn failures(&self) -> u64 {
        0
    }
}
