//! The table of ops: which members a line of each op has.
ghost use Rattle.std.specs.Prelude.{◌≡◌};
ghost use Rattle.request_line.specs.Table.{members_of, op_named, row_view};

mod by_name;

use crate::op::by_name::guessed;

/// What a line does.
#[derive(Clone, Copy, Debug, PartialEq, Eq)]
pub enum Op {
    NsAdd,
    NsRemove,
    NsList,
    ImageAdd,
    ImageTarget,
    ImageSet,
    ImageRemove,
    ImageGet,
    ImageList,
    ImageLabel,
    ContainerAdd,
    ContainerSet,
    ContainerRemove,
    ContainerGet,
    ContainerList,
    ContainerLabel,
    ContentAdd,
    ContentSet,
    ContentRemove,
    ContentGet,
    ContentLabel,
    ContentList,
    IngestBegin,
    IngestOpen,
    IngestCommit,
    IngestAbort,
    IngestGet,
    IngestList,
    SnapPrepare,
    SnapView,
    SnapCommit,
    SnapSet,
    SnapRemove,
    SnapGet,
    SnapLabel,
    SnapList,
    SnapSnapshotters,
    LeaseAdd,
    LeaseSet,
    LeaseRemove,
    LeaseGet,
    LeaseLabel,
    LeaseList,
    LeaseHold,
    LeaseDrop,
    LeaseResources,
    Profile,
    GcRun,
    GcPlan,
    GcExplain,
    GcImpact,
    BackList,
}

/// A row of the table: the name of an op, the members that stand beside it, and those that may.
#[derive(Clone, Copy)]
pub struct OpForm {
    pub op: &'static str,
    pub required: &'static [&'static str],
    pub optional: &'static [&'static str],
}

fn make_row(
    op: &'static str,
    required: &'static [&'static str],
    optional: &'static [&'static str],
) -> OpForm
    ensures { (result.op ≡ op.entry) × (result.required ≡ required.entry) × (result.optional
        ≡ optional.entry) }
{
    OpForm {
        op,
        required,
        optional,
    }
}

impl Op {
    ghost use Rattle.std.specs.List.{find};
    ghost use Rattle.std.specs.Str.{bytes_eq};

    /// All ops, in the order of the table.
    pub const ALL: [Op; 52] = [
        Op::NsAdd,
        Op::NsRemove,
        Op::NsList,
        Op::ImageAdd,
        Op::ImageTarget,
        Op::ImageSet,
        Op::ImageRemove,
        Op::ImageGet,
        Op::ImageList,
        Op::ImageLabel,
        Op::ContainerAdd,
        Op::ContainerSet,
        Op::ContainerRemove,
        Op::ContainerGet,
        Op::ContainerList,
        Op::ContainerLabel,
        Op::ContentAdd,
        Op::ContentSet,
        Op::ContentRemove,
        Op::ContentGet,
        Op::ContentLabel,
        Op::ContentList,
        Op::IngestBegin,
        Op::IngestOpen,
        Op::IngestCommit,
        Op::IngestAbort,
        Op::IngestGet,
        Op::IngestList,
        Op::SnapPrepare,
        Op::SnapView,
        Op::SnapCommit,
        Op::SnapSet,
        Op::SnapRemove,
        Op::SnapGet,
        Op::SnapLabel,
        Op::SnapList,
        Op::SnapSnapshotters,
        Op::LeaseAdd,
        Op::LeaseSet,
        Op::LeaseRemove,
        Op::LeaseGet,
        Op::LeaseLabel,
        Op::LeaseList,
        Op::LeaseHold,
        Op::LeaseDrop,
        Op::LeaseResources,
        Op::Profile,
        Op::GcRun,
        Op::GcPlan,
        Op::GcExplain,
        Op::GcImpact,
        Op::BackList,
    ];

    /// The op's row.
    pub fn row(self) -> OpForm
        ensures { row_view result ≡ members_of self }
    {
        match self {
            Op::NsAdd => make_row("ns.add", &["ns"], &[]),
            Op::NsRemove => make_row("ns.remove", &["ns"], &[]),
            Op::NsList => make_row("ns.list", &[], &[]),
            Op::ImageAdd => make_row(
                "image.add",
                &["ns", "name", "target"],
                &["labels", "data", "answer"],
            ),
            Op::ImageTarget => make_row("image.target", &["ns", "name", "target"], &["answer"]),
            Op::ImageSet => make_row(
                "image.set",
                &["ns", "name"],
                &["target", "labels", "put", "data", "answer"],
            ),
            Op::ImageRemove => make_row("image.remove", &["ns", "name"], &["sync"]),
            Op::ImageGet => make_row("image.get", &["ns", "name"], &["answer"]),
            Op::ImageList => make_row("image.list", &["ns"], &["answer"]),
            Op::ImageLabel => make_row("image.label", &["ns", "name", "key", "value"], &["answer"]),
            Op::ContainerAdd => make_row(
                "container.add",
                &["ns", "name"],
                &["snapshotter", "key", "labels", "data", "answer"],
            ),
            Op::ContainerSet => make_row(
                "container.set",
                &["ns", "name"],
                &["snapshotter", "key", "labels", "put", "data", "answer"],
            ),
            Op::ContainerRemove => make_row("container.remove", &["ns", "name"], &[]),
            Op::ContainerGet => make_row("container.get", &["ns", "name"], &["answer"]),
            Op::ContainerList => make_row("container.list", &["ns"], &["answer"]),
            Op::ContainerLabel => make_row(
                "container.label",
                &["ns", "name", "key", "value"],
                &["answer"],
            ),
            Op::ContentAdd => make_row(
                "content.add",
                &["ns", "digest"],
                &["labels", "data", "lease", "there", "answer"],
            ),
            Op::ContentSet => make_row(
                "content.set",
                &["ns", "digest"],
                &["labels", "put", "data", "answer"],
            ),
            Op::ContentRemove => make_row("content.remove", &["ns", "digest"], &["drop"]),
            Op::ContentGet => make_row("content.get", &["ns", "digest"], &["answer"]),
            Op::ContentLabel => make_row(
                "content.label",
                &["ns", "digest", "key", "value"],
                &["answer"],
            ),
            Op::ContentList => make_row("content.list", &["ns"], &["answer"]),
            Op::IngestBegin => make_row(
                "ingest.begin",
                &["ns", "ref", "at"],
                &["expected", "data", "lease", "answer"],
            ),
            Op::IngestOpen => make_row(
                "ingest.open",
                &["ns", "ref", "at"],
                &["expected", "data", "lease", "answer"],
            ),
            Op::IngestCommit => make_row(
                "ingest.commit",
                &["ns", "ref", "digest"],
                &["labels", "data", "lease", "drop", "there", "answer"],
            ),
            Op::IngestAbort => make_row("ingest.abort", &["ns", "ref"], &["drop"]),
            Op::IngestGet => make_row("ingest.get", &["ns", "ref"], &["answer"]),
            Op::IngestList => make_row("ingest.list", &["ns"], &["answer"]),
            Op::SnapPrepare => make_row(
                "snap.prepare",
                &["ns", "snapshotter", "key"],
                &["parent", "labels", "data", "lease", "there", "answer"],
            ),
            Op::SnapView => make_row(
                "snap.view",
                &["ns", "snapshotter", "key"],
                &["parent", "labels", "data", "lease", "there", "answer"],
            ),
            Op::SnapCommit => make_row(
                "snap.commit",
                &["ns", "snapshotter", "key", "name"],
                &["labels", "data", "lease", "drop", "there", "answer"],
            ),
            Op::SnapSet => make_row(
                "snap.set",
                &["ns", "snapshotter", "key"],
                &["labels", "put", "data", "answer"],
            ),
            Op::SnapRemove => make_row("snap.remove", &["ns", "snapshotter", "key"], &["drop"]),
            Op::SnapGet => make_row("snap.get", &["ns", "snapshotter", "key"], &["answer"]),
            Op::SnapLabel => make_row(
                "snap.label",
                &["ns", "snapshotter", "name", "key", "value"],
                &["answer"],
            ),
            Op::SnapList => make_row("snap.list", &["ns", "snapshotter"], &["answer"]),
            Op::SnapSnapshotters => make_row("snap.snapshotters", &["ns"], &[]),
            Op::LeaseAdd => make_row("lease.add", &["ns", "id"], &["labels", "data", "answer"]),
            Op::LeaseSet => make_row(
                "lease.set",
                &["ns", "id"],
                &["labels", "put", "data", "answer"],
            ),
            Op::LeaseRemove => make_row("lease.remove", &["ns", "id"], &["sync"]),
            Op::LeaseGet => make_row("lease.get", &["ns", "id"], &["answer"]),
            Op::LeaseLabel => make_row("lease.label", &["ns", "id", "key", "value"], &["answer"]),
            Op::LeaseList => make_row("lease.list", &["ns"], &["answer"]),
            Op::LeaseHold => make_row("lease.hold", &["ns", "id", "type", "resource"], &[]),
            Op::LeaseDrop => make_row("lease.drop", &["ns", "id", "type", "resource"], &[]),
            Op::LeaseResources => make_row("lease.resources", &["ns", "id"], &[]),
            Op::Profile => make_row("profile", &["v"], &[]),
            Op::GcRun => make_row("gc.run", &["at"], &[]),
            Op::GcPlan => make_row("gc.plan", &["at"], &[]),
            Op::GcExplain => make_row("gc.explain", &["ns", "type", "resource", "at"], &[]),
            Op::GcImpact => make_row("gc.impact", &["ns", "type", "resource", "at"], &[]),
            Op::BackList => make_row("back.list", &[], &[]),
        }
    }

    /// The op of that name.
    pub fn named(name: &str) -> Option<Op>
        ensures { result ≡ op_named name.now }
    {
        match guessed(name) {
            Some(op) => Some(op),
            None => Op::named_in(&Op::ALL, name),
        }
    }

    // The op of that name, among these.
    fn named_in(ops: &[Op], name: &str) -> Option<Op>
        ensures { result ≡ find (λ op. bytes_eq (members_of op).op name.now) ops.now }
    {
        ops.iter().copied().find(|op| op.row().op == name)
    }
}
