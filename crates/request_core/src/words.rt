//! The words of a line that asks for rows, or for its lease to hold an object that exists.
ghost use Rattle.std.specs.Prelude.{◌≡◌, is_some};
ghost use Rattle.meta_types.specs.Shown.{object_to_hold, row_named, rows_listed, takes_answer, takes_there, takes_words};

use meta_types::{RawText, Request};

/// Whether the words are some that the request takes.
pub fn takes_words(request: &Request, answer: &Option<RawText>, there: &Option<RawText>) -> bool
    ensures { result ≡ takes_words request.now answer.now there.now }
{
    if let Some(word) = answer {
        if !takes_answer(request, word) {
            return false;
        }
    }
    match there {
        Some(word) => takes_there(request, word),
        None => true,
    }
}

fn takes_answer(request: &Request, word: &RawText) -> bool
    ensures { result ≡ takes_answer request.now word.now }
{
    match word.text() {
        "row" => names_row(request),
        "rows" => is_listing(request),
        _ => false,
    }
}

fn takes_there(request: &Request, word: &RawText) -> bool
    ensures { result ≡ takes_there request.now word.now }
{
    word.text() == "hold" && may_hold(request)
}

// Whether the request makes, changes or gets one row.
fn names_row(request: &Request) -> bool
    ensures { result ≡ is_some (row_named request.now) }
{
    match request {
        Request::ImageAdd(_) => true,
        Request::ImageTarget(_) => true,
        Request::ImageSet(_) => true,
        Request::ImageGet(_) => true,
        Request::ImageLabel(_, _) => true,
        Request::ContainerAdd(_) => true,
        Request::ContainerSet(_) => true,
        Request::ContainerGet(_) => true,
        Request::ContainerLabel(_, _) => true,
        Request::ContentAdd(_) => true,
        Request::ContentSet(_, _) => true,
        Request::ContentGet(_) => true,
        Request::ContentLabel(_, _) => true,
        Request::IngestBegin(_) => true,
        Request::IngestOpen(_) => true,
        Request::IngestCommit(_) => true,
        Request::IngestGet(_) => true,
        Request::SnapPrepare(_) => true,
        Request::SnapView(_) => true,
        Request::SnapCommit(_) => true,
        Request::SnapSet(_, _) => true,
        Request::SnapGet(_) => true,
        Request::SnapLabel(_, _) => true,
        Request::LeaseAdd(_) => true,
        Request::LeaseSet(_, _) => true,
        Request::LeaseGet(_) => true,
        Request::LeaseLabel(_, _) => true,
        Request::NsAdd { .. } => false,
        Request::NsRemove { .. } => false,
        Request::NsList => false,
        Request::ImageRemove(_) => false,
        Request::ImageList { .. } => false,
        Request::ContainerRemove(_) => false,
        Request::ContainerList { .. } => false,
        Request::ContentRemove(_, _) => false,
        Request::ContentList { .. } => false,
        Request::IngestAbort(_, _) => false,
        Request::IngestList { .. } => false,
        Request::SnapRemove(_, _) => false,
        Request::SnapList { .. } => false,
        Request::SnapSnapshotters { .. } => false,
        Request::LeaseRemove(_) => false,
        Request::LeaseList { .. } => false,
        Request::LeaseHold(_) => false,
        Request::LeaseDrop(_) => false,
        Request::LeaseResources(_) => false,
        Request::Profile { .. } => false,
    }
}

// Whether the request lists rows.
fn is_listing(request: &Request) -> bool
    ensures { result ≡ is_some (rows_listed request.now) }
{
    match request {
        Request::ImageList { .. } => true,
        Request::ContainerList { .. } => true,
        Request::ContentList { .. } => true,
        Request::IngestList { .. } => true,
        Request::SnapList { .. } => true,
        Request::LeaseList { .. } => true,
        _ => false,
    }
}

// Whether the request makes content or a snapshot under a lease.
fn may_hold(request: &Request) -> bool
    ensures { result ≡ is_some (object_to_hold request.now) }
{
    match request {
        Request::ContentAdd(asked) => asked.lease.is_some(),
        Request::IngestCommit(asked) => asked.lease.is_some(),
        Request::SnapPrepare(asked) => asked.lease.is_some(),
        Request::SnapView(asked) => asked.lease.is_some(),
        Request::SnapCommit(asked) => asked.lease.is_some(),
        _ => false,
    }
}
