//! The moment that a line names.
ghost use Rattle.std.specs.Prelude.{◌≡◌, None, IfOk, option_map};
ghost use Rattle.meta_types.specs.Faults.{Refuses};
ghost use Rattle.kept_store.specs.Clocked.{opening_moment, asked_moment, moment_in};

use gc_labels::read_instant;
use json::Scratch;
use meta_types::{Fault, Instant, LINE_LIMIT, Request};
use request_line::{Command, read_line};
use std::alloc::Global;
use std::mem::drop;

// When a request begins an ingest, or goes on with one.
fn opening_moment(request: &Request) -> Option<Instant>
    ensures { option_map (λ instant. instant.0) result ≡ opening_moment request.now }
{
    match request {
        Request::IngestBegin(asked) => read_instant(asked.at.text()),
        Request::IngestOpen(asked) => read_instant(asked.at.text()),
        Request::NsAdd { .. }
        | Request::NsRemove { .. }
        | Request::NsList
        | Request::ImageAdd(..)
        | Request::ImageTarget(..)
        | Request::ImageSet(..)
        | Request::ImageRemove(..)
        | Request::ImageGet(..)
        | Request::ImageList { .. }
        | Request::ImageLabel(..)
        | Request::ContainerAdd(..)
        | Request::ContainerSet(..)
        | Request::ContainerRemove(..)
        | Request::ContainerGet(..)
        | Request::ContainerList { .. }
        | Request::ContainerLabel(..)
        | Request::ContentAdd(..)
        | Request::ContentSet(..)
        | Request::ContentRemove(..)
        | Request::ContentGet(..)
        | Request::ContentLabel(..)
        | Request::ContentList { .. }
        | Request::IngestCommit(..)
        | Request::IngestAbort(..)
        | Request::IngestGet(..)
        | Request::IngestList { .. }
        | Request::SnapPrepare(..)
        | Request::SnapView(..)
        | Request::SnapCommit(..)
        | Request::SnapSet(..)
        | Request::SnapRemove(..)
        | Request::SnapGet(..)
        | Request::SnapLabel(..)
        | Request::SnapList { .. }
        | Request::SnapSnapshotters { .. }
        | Request::LeaseAdd(..)
        | Request::LeaseSet(..)
        | Request::LeaseRemove(..)
        | Request::LeaseGet(..)
        | Request::LeaseLabel(..)
        | Request::LeaseList { .. }
        | Request::LeaseHold(..)
        | Request::LeaseDrop(..)
        | Request::LeaseResources(..)
        | Request::Profile { .. } => None,
    }
}

// The moment of what a line asks for, if it has one that can be read.
fn asked_moment(command: &Command) -> Option<Instant>
    ensures { option_map (λ instant. instant.0) result ≡ asked_moment command.now }
{
    match command {
        Command::Request(request) => opening_moment(request),
        Command::Show { request, .. } => opening_moment(request),
        Command::Collect { at, .. } => read_instant(at.text()),
        Command::Remove { at, .. } => read_instant(at.text()),
        Command::Explain { at, .. } => read_instant(at.text()),
        Command::Impact { at, .. } => read_instant(at.text()),
        Command::BackList => None,
    }
}

/// The moment of a line, if it has one that can be read. An empty line has none, and a line that is
/// too long has none.
pub(crate) fn read_moment(
    alloc: Global,
    line: &[u8],
    scratch: &mut Scratch,
) -> Result<Option<Instant>, Fault>
    ensures fault { Refuses result None }
    ensures ok { IfOk result (λ found.
        option_map (λ instant. instant.0) found ≡ moment_in line.now) }
{
    if line.is_empty() {
        return Ok(None);
    }
    if line.len() > LINE_LIMIT {
        return Ok(None);
    }
    match read_line(alloc, line, scratch) {
        Ok(command) => {
            let moment = asked_moment(&command);
            // For the prover: dropped by a call, not in place.
            drop(command);
            Ok(moment)
        }
        Err(Fault::BadLine) => Ok(None),
        Err(_) => Err(Fault::OutOfMemory),
    }
}
