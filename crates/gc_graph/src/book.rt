//! The numbers of nodes, from a node to its number and back.
ghost use Rattle.std.specs.Prelude.{◌≡◌, None, Some, IfOk, IfSome, slice_get, option_map};
ghost use Rattle.meta_types.specs.Faults.{Refuses};
ghost use Rattle.meta_types.specs.declared.resource.Mode.TheVariants.{Full, Flat};
ghost use Rattle.meta_types.specs.declared.resource.Resource.TheVariants.{Content, Snapshot, Ingest};
ghost use Rattle.gc_graph.specs.Nodes.{AreAllowed};
ghost use Rattle.gc_graph.specs.Targets.{node, nodes_of, resource_mode};
ghost use Rattle.gc_graph.specs.Built.{number_of};
ghost use Rattle.gc_graph.specs.Stored.{records_of, IsSmall, AreLent};

use crate::node::Node;
use crate::numbers::{
    content_number, flat_ingest_number, ingest_number, near_snapshot_number, node_at,
    snapshot_number, snapshot_numbers,
};
use crate::rows::StoreRows;
use crate::rows::near::Near;
use crate::texts::tell_rows;
use meta_types::{Digest, Fault, Mode, Name, Resource, ShortName, SnapRow};
use std::marker::Model;

/// The numbers of a store's nodes: contracts see the list of the nodes in the order of their
/// numbers. It holds no node, since a number follows from the place of its row.
#[derive(Drop)]
pub struct NodeBook<'a> {
    rows: StoreRows<'a>,
}

impl<'a> Model for NodeBook<'a> {
    ghost use Rattle.std.specs.Prelude.{List};
    ghost use Rattle.gc_graph.specs.declared.node.Node.{Node};
    ghost use Rattle.gc_graph.specs.Targets.{nodes_of};
    ghost use Rattle.gc_graph.specs.Stored.{records_of, HaveNumbers};

    ghost Value = { List Node };

    ghost view = { λ b. nodes_of (records_of b.rows) };

    ghost invariant = { λ b. HaveNumbers b.rows };
}

impl<'a> NodeBook<'a> {
    // The numbers of the nodes of these rows.
    pub(crate) fn new(rows: StoreRows<'a>) -> NodeBook<'a>
        requires small { IsSmall rows }
        requires lent { AreLent rows }
        ensures { result ≡ nodes_of (records_of rows.entry) }
    {
        // For the prover: this tells that all texts are allowed, as the invariant says.
        tell_rows(&rows);
        NodeBook { rows }
    }

    // For proofs alone: the texts of its nodes are allowed.
    pub(crate) fn learn_allowed(&self)
        ensures { AreAllowed self.now }
    {
        // The invariant of the rows says so.
        let _rows = &self.rows;
    }

    /// The number of a node.
    pub fn number(&self, node: &Node) -> Option<u32>
        ensures number { result ≡ number_of self.now node.now }
    {
        let near = &mut Near::first();
        match &node.resource {
            Resource::Content(digest) => self.content_number(&node.ns, digest, node.mode, near),
            Resource::Snapshot(snapshotter, name) => {
                self.snapshot_number(&node.ns, snapshotter, name, node.mode, near)
            }
            Resource::Ingest(name) => match node.mode {
                Mode::Full => self.ingest_number(&node.ns, name),
                Mode::Flat => self.flat_ingest_number(&node.ns, name),
            },
        }
    }

    // The number of an ingest.
    pub(crate) fn ingest_number(&self, ns: &ShortName, name: &Name) -> Option<u32>
        ensures { result ≡ number_of self.now (node ns.now (Ingest name.now) Full) }
    {
        ingest_number(&self.rows, ns, name)
    }

    // An ingest has no number in flat.
    fn flat_ingest_number(&self, ns: &ShortName, name: &Name) -> Option<u32>
        ensures { result ≡ number_of self.now (node ns.now (Ingest name.now) Flat) }
    {
        flat_ingest_number(&self.rows, ns, name)
    }

    // The number of content in a mode.
    pub(crate) fn content_number(
        &self,
        ns: &ShortName,
        digest: &Digest,
        mode: Mode,
        near: &mut Near,
    ) -> Option<u32>
        ensures { result ≡ number_of self.now (node ns.now (Content digest.now) mode) }
    {
        content_number(&self.rows, ns, digest, mode, &mut near.content)
    }

    // The number of a snapshot in a mode.
    pub(crate) fn snapshot_number(
        &self,
        ns: &ShortName,
        snapshotter: &ShortName,
        name: &Name,
        mode: Mode,
        near: &mut Near,
    ) -> Option<u32>
        ensures { result ≡ number_of self.now (node ns.now (Snapshot snapshotter.now name.now) mode) }
    {
        snapshot_number(&self.rows, ns, snapshotter, name, mode, &mut near.snapshot)
    }

    // The number of the snapshot that is near, where it is the one of these texts.
    pub(crate) fn near_snapshot_number(
        &self,
        ns: &ShortName,
        snapshotter: &str,
        name: &str,
        near: &mut Near,
    ) -> Option<u32>
        ensures { IfSome result (λ number. Some number
            ≡ number_of self.now (node ns.now (Snapshot snapshotter.now name.now) Full)) }
    {
        near_snapshot_number(&self.rows, ns, snapshotter, name, &mut near.snapshot)
    }

    // The numbers of a parent, in full and in flat. The place before its child's is tried first.
    pub(crate) fn parent_numbers(
        &self,
        ns: &ShortName,
        snapshotter: &ShortName,
        name: &Name,
        child: usize,
    ) -> Option<(u32, u32)>
        ensures full { option_map (λ numbers. numbers.0) result
            ≡ number_of self.now (node ns.now (Snapshot snapshotter.now name.now) Full) }
        ensures flat { option_map (λ numbers. numbers.1) result
            ≡ number_of self.now (node ns.now (Snapshot snapshotter.now name.now) Flat) }
    {
        snapshot_numbers(
            &self.rows,
            ns,
            snapshotter,
            name,
            &mut child.saturating_sub(1),
        )
    }

    // Where to look first for what these snapshots reference.
    pub(crate) fn near_first(&self, rows: &[SnapRow]) -> Near {
        let mut near = Near::first();
        if let Some(row) = rows.first() {
            let key = &row.key;
            let places = self.rows.places.snapshots;
            near.row = places
                .place(&key.ns, &key.snapshotter, &key.name)
                .unwrap_or(0);
        }
        near
    }

    // The number of a resource in a mode; an ingest has one mode.
    pub(crate) fn resource_number(
        &self,
        ns: &ShortName,
        resource: &Resource,
        mode: Mode,
        near: &mut Near,
    ) -> Option<u32>
        ensures { result ≡ number_of self.now
            (node ns.now resource.now (resource_mode mode resource.now)) }
    {
        match resource {
            Resource::Content(digest) => self.content_number(ns, digest, mode, near),
            Resource::Snapshot(snapshotter, name) => {
                self.snapshot_number(ns, snapshotter, name, mode, near)
            }
            Resource::Ingest(name) => self.ingest_number(ns, name),
        }
    }

    /// The node of a number, made from its row: it shares the row's texts.
    pub fn resource(&self, number: u32) -> Result<Option<Node>, Fault>
        ensures fault { Refuses result None }
        ensures ok { IfOk result (λ node. node ≡ slice_get self.now number) }
    {
        node_at(&self.rows, number as usize)
    }
}
