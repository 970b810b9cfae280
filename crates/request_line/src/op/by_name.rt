//! The op that a name may be, by one look at it.
ghost use Rattle.std.specs.Prelude.{◌≡◌, Some, IfSome};
ghost use Rattle.request_line.specs.Table.{op_named};

use crate::op::Op;

// The op that a name may be, by its length, its fourth byte and its last: in all three only `get`
// and `set` of one kind agree.
fn guess(name: &str) -> Option<Op> {
    let bytes = name.as_bytes();
    if bytes.len() < 4 {
        return None;
    }
    match (bytes.len(), bytes[3], bytes[bytes.len() - 1]) {
        (6, b'a', b'd') => Some(Op::NsAdd),
        (6, b'r', b'n') => Some(Op::GcRun),
        (7, b'l', b't') => Some(Op::NsList),
        (7, b'f', b'e') => Some(Op::Profile),
        (7, b'p', b'n') => Some(Op::GcPlan),
        (8, b'p', b't') if bytes[5] == b's' => Some(Op::SnapSet),
        (8, b'p', b't') => Some(Op::SnapGet),
        (9, b'r', b'e') => Some(Op::NsRemove),
        (9, b'g', b'd') => Some(Op::ImageAdd),
        (9, b'g', b't') if bytes[6] == b's' => Some(Op::ImageSet),
        (9, b'g', b't') => Some(Op::ImageGet),
        (9, b'p', b'w') => Some(Op::SnapView),
        (9, b'p', b't') => Some(Op::SnapList),
        (9, b's', b'd') => Some(Op::LeaseAdd),
        (9, b's', b't') if bytes[6] == b's' => Some(Op::LeaseSet),
        (9, b's', b't') => Some(Op::LeaseGet),
        (9, b'i', b't') => Some(Op::GcImpact),
        (9, b'k', b't') => Some(Op::BackList),
        (10, b'g', b't') => Some(Op::ImageList),
        (10, b'e', b't') => Some(Op::IngestGet),
        (10, b'p', b'l') => Some(Op::SnapLabel),
        (10, b's', b't') => Some(Op::LeaseList),
        (10, b's', b'd') => Some(Op::LeaseHold),
        (10, b's', b'p') => Some(Op::LeaseDrop),
        (10, b'e', b'n') => Some(Op::GcExplain),
        (11, b'g', b'l') => Some(Op::ImageLabel),
        (11, b't', b'd') => Some(Op::ContentAdd),
        (11, b't', b't') if bytes[8] == b's' => Some(Op::ContentSet),
        (11, b't', b't') => Some(Op::ContentGet),
        (11, b'e', b'n') => Some(Op::IngestOpen),
        (11, b'e', b't') => Some(Op::IngestList),
        (11, b'p', b't') => Some(Op::SnapCommit),
        (11, b'p', b'e') => Some(Op::SnapRemove),
        (11, b's', b'l') => Some(Op::LeaseLabel),
        (12, b'g', b't') => Some(Op::ImageTarget),
        (12, b'g', b'e') => Some(Op::ImageRemove),
        (12, b't', b't') => Some(Op::ContentList),
        (12, b'e', b'n') => Some(Op::IngestBegin),
        (12, b'e', b't') => Some(Op::IngestAbort),
        (12, b'p', b'e') => Some(Op::SnapPrepare),
        (12, b's', b'e') => Some(Op::LeaseRemove),
        (13, b't', b'd') => Some(Op::ContainerAdd),
        (13, b't', b't') if bytes[10] == b's' => Some(Op::ContainerSet),
        (13, b't', b't') => Some(Op::ContainerGet),
        (13, b't', b'l') => Some(Op::ContentLabel),
        (13, b'e', b't') => Some(Op::IngestCommit),
        (14, b't', b't') => Some(Op::ContainerList),
        (14, b't', b'e') => Some(Op::ContentRemove),
        (15, b't', b'l') => Some(Op::ContainerLabel),
        (15, b's', b's') => Some(Op::LeaseResources),
        (16, b't', b'e') => Some(Op::ContainerRemove),
        (17, b'p', b's') => Some(Op::SnapSnapshotters),
        _ => None,
    }
}

/// The op of that name, where one look at it tells.
pub(crate) fn guessed(name: &str) -> Option<Op>
    ensures { IfSome result (λ op. op_named name.now ≡ Some op) }
{
    let op = guess(name)?;
    if op.row().op == name { Some(op) } else { None }
}
