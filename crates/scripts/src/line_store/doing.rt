//! Which lines a store does in the mode of a run: where the log's room is short, those that add are
//! refused, and where there is none, all that may change the store.
ghost use Rattle.std.specs.Prelude.{◌≡◌, true};
ghost use Rattle.scripts.specs.Doing.{only_asks, never_changes, command_adds, lets, lets_line, logs};

use crate::adds_nothing;
use json::Scratch;
use line_loop::Mode;
use meta_types::{Fault, Request};
use request_line::{Command, read_line};
use std::alloc::Global;
use std::mem::drop;

// Whether a request is one for a row or a list.
fn only_asks(request: &Request) -> bool
    ensures { result ≡ only_asks request.now }
{
    match request {
        Request::NsList
        | Request::ImageGet(..)
        | Request::ImageList { .. }
        | Request::ContainerGet(..)
        | Request::ContainerList { .. }
        | Request::ContentGet(..)
        | Request::ContentList { .. }
        | Request::IngestGet(..)
        | Request::IngestList { .. }
        | Request::SnapGet(..)
        | Request::SnapList { .. }
        | Request::SnapSnapshotters { .. }
        | Request::LeaseGet(..)
        | Request::LeaseList { .. }
        | Request::LeaseResources(..) => true,
        Request::NsAdd { .. }
        | Request::NsRemove { .. }
        | Request::ImageAdd(..)
        | Request::ImageTarget(..)
        | Request::ImageSet(..)
        | Request::ImageRemove(..)
        | Request::ImageLabel(..)
        | Request::ContainerAdd(..)
        | Request::ContainerSet(..)
        | Request::ContainerRemove(..)
        | Request::ContainerLabel(..)
        | Request::ContentAdd(..)
        | Request::ContentSet(..)
        | Request::ContentRemove(..)
        | Request::ContentLabel(..)
        | Request::IngestBegin(..)
        | Request::IngestOpen(..)
        | Request::IngestCommit(..)
        | Request::IngestAbort(..)
        | Request::SnapPrepare(..)
        | Request::SnapView(..)
        | Request::SnapCommit(..)
        | Request::SnapSet(..)
        | Request::SnapRemove(..)
        | Request::SnapLabel(..)
        | Request::LeaseAdd(..)
        | Request::LeaseSet(..)
        | Request::LeaseRemove(..)
        | Request::LeaseLabel(..)
        | Request::LeaseHold(..)
        | Request::LeaseDrop(..)
        | Request::Profile { .. } => false,
    }
}

// Whether what a line asks for never changes the store.
fn never_changes(command: &Command) -> bool
    ensures { result ≡ never_changes command.now }
{
    match command {
        Command::Request(request) => only_asks(request),
        Command::Show { request, .. } => only_asks(request),
        Command::Collect { dry, .. } => *dry,
        Command::Remove { .. } => false,
        Command::Explain { .. } => true,
        Command::Impact { .. } => true,
        Command::BackList => true,
    }
}

// Whether what a line asks for adds to the store.
fn command_adds(command: &Command) -> bool
    ensures { result ≡ command_adds command.now }
{
    match command {
        Command::Request(request) => !adds_nothing(request),
        Command::Show { request, .. } => !adds_nothing(request),
        Command::Collect { .. } => false,
        Command::Remove { .. } => false,
        Command::Explain { .. } => false,
        Command::Impact { .. } => false,
        Command::BackList => false,
    }
}

// Whether a mode lets it be done.
fn lets(mode: Mode, command: &Command) -> bool
    ensures { result ≡ lets mode command.now }
{
    match mode {
        Mode::AllLines => true,
        Mode::NoAdditions => !command_adds(command),
        Mode::ReadOnly => never_changes(command),
    }
}

// The same of a line, which is read for it. Where memory refuses to read it, it isn't done.
fn lets_read_line(alloc: Global, mode: Mode, line: &[u8]) -> bool
    ensures { result ≡ true → lets_line mode line.now ≡ true }
{
    let mut scratch = Scratch::new(alloc);
    match read_line(alloc, line, &mut scratch) {
        Ok(command) => {
            let is_let = lets(mode, &command);
            // For the prover: dropped by a call, not in place.
            drop(command);
            is_let
        }
        Err(Fault::BadLine) => true,
        Err(_) => false,
    }
}

/// Whether a mode lets a line be done. One that asks for nothing is answered so in any mode.
pub(crate) fn lets_line(alloc: Global, mode: Mode, line: &[u8]) -> bool
    ensures { result ≡ true → lets_line mode line.now ≡ true }
{
    match mode {
        Mode::AllLines => true,
        Mode::NoAdditions => lets_read_line(alloc, mode, line),
        Mode::ReadOnly => lets_read_line(alloc, mode, line),
    }
}

/// Whether a line is logged that may have changed the store.
pub(crate) fn logs(mode: Mode, changes: bool) -> bool
    ensures { result ≡ logs mode changes }
{
    match mode {
        Mode::AllLines => changes,
        Mode::NoAdditions => changes,
        Mode::ReadOnly => false,
    }
}
