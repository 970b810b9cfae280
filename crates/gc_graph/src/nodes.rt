//! Nodes, made from rows: they share the texts of these.
ghost use Rattle.std.specs.Prelude.{◌≡◌, None, IfOk};
ghost use Rattle.meta_types.specs.Faults.{Refuses};
ghost use Rattle.gc_graph.specs.Targets.{content_node, snapshot_node, ingest_node};

use crate::node::Node;
use meta_types::{ContentRow, Fault, IngestRow, Mode, Resource, SnapRow};

pub(crate) fn ingest_node(row: &IngestRow) -> Result<Node, Fault>
    ensures fault { Refuses result None }
    ensures ok { IfOk result (λ n. n ≡ ingest_node row.now) }
{
    let ns = row.ns.copy()?;
    let resource = Resource::Ingest(row.name.copy()?);
    Ok(Node {
        ns,
        resource,
        mode: Mode::Full,
    })
}

pub(crate) fn content_node(row: &ContentRow, mode: Mode) -> Result<Node, Fault>
    ensures fault { Refuses result None }
    ensures ok { IfOk result (λ n. n ≡ content_node mode row.now) }
{
    let ns = row.ns.copy()?;
    let resource = Resource::Content(row.digest.copy()?);
    Ok(Node { ns, resource, mode })
}

pub(crate) fn snapshot_node(row: &SnapRow, mode: Mode) -> Result<Node, Fault>
    ensures fault { Refuses result None }
    ensures ok { IfOk result (λ n. n ≡ snapshot_node mode row.now) }
{
    let ns = row.key.ns.copy()?;
    let snapshotter = row.key.snapshotter.copy()?;
    let resource = Resource::Snapshot(snapshotter, row.key.name.copy()?);
    Ok(Node { ns, resource, mode })
}
