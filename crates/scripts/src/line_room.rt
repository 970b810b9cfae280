//! Memory that additions leave to the lines after them.
ghost use Rattle.std.specs.Prelude.{◌≡◌, None};
ghost use Rattle.meta_types.specs.Faults.{Refuses};
ghost use Rattle.scripts.specs.Additions.{takes_away, adds_nothing};

use crate::reserve::{Reserve, Stored};
use meta_types::{Fault, RawLabel, Request};
use std::alloc::Global;

// More than a line takes while it is read and done, but for the rows that it adds.
const LINE_ROOM: usize = 4096;

// A label without a value is taken away.
fn takes_away(label: &RawLabel) -> bool
    ensures { result ≡ takes_away label.now }
{
    label.value.text().is_empty()
}

/// Whether the store is no larger after a request.
pub fn adds_nothing(request: &Request) -> bool
    ensures { result ≡ adds_nothing request.now }
{
    match request {
        Request::NsRemove { .. }
        | Request::NsList
        | Request::ImageRemove(..)
        | Request::ImageGet(..)
        | Request::ImageList { .. }
        | Request::ContainerRemove(..)
        | Request::ContainerGet(..)
        | Request::ContainerList { .. }
        | Request::ContentRemove(..)
        | Request::ContentGet(..)
        | Request::ContentList { .. }
        | Request::IngestAbort(..)
        | Request::IngestGet(..)
        | Request::IngestList { .. }
        | Request::SnapRemove(..)
        | Request::SnapGet(..)
        | Request::SnapList { .. }
        | Request::SnapSnapshotters { .. }
        | Request::LeaseRemove(..)
        | Request::LeaseGet(..)
        | Request::LeaseList { .. }
        | Request::LeaseDrop(..)
        | Request::LeaseResources(..)
        | Request::Profile { .. } => true,
        Request::ImageLabel(_, label) => takes_away(label),
        Request::ContainerLabel(_, label) => takes_away(label),
        Request::ContentLabel(_, label) => takes_away(label),
        Request::SnapLabel(_, label) => takes_away(label),
        Request::LeaseLabel(_, label) => takes_away(label),
        Request::NsAdd { .. }
        | Request::ImageAdd(..)
        | Request::ImageTarget(..)
        | Request::ImageSet(..)
        | Request::ContainerAdd(..)
        | Request::ContainerSet(..)
        | Request::ContentAdd(..)
        | Request::ContentSet(..)
        | Request::IngestBegin(..)
        | Request::IngestOpen(..)
        | Request::IngestCommit(..)
        | Request::SnapPrepare(..)
        | Request::SnapView(..)
        | Request::SnapCommit(..)
        | Request::SnapSet(..)
        | Request::LeaseAdd(..)
        | Request::LeaseSet(..)
        | Request::LeaseHold(..) => false,
    }
}

/// Room for a line, kept from one addition to the next.
#[derive(Drop)]
pub(crate) struct LineRoom {
    block: Vec<u8>,
}

impl LineRoom {
    /// None yet.
    pub fn new(alloc: Global) -> LineRoom {
        LineRoom {
            block: Vec::new(alloc),
        }
    }

    /// Takes it, where it isn't there.
    fn hold(&mut self, alloc: Global) -> Result<(), Fault>
        ensures fault { Refuses result None }
    {
        if self.block.capacity() == 0 {
            self.block = Vec::with_capacity(alloc, LINE_ROOM)?;
        }
        Ok(())
    }

    /// Gives it up, to be taken again by the next addition.
    pub fn release(&mut self, alloc: Global) {
        self.block = Vec::new(alloc);
    }
}

/// Room for a line beside a request that may add to the store, and beside what is kept for a
/// collection. So no addition takes the last memory, without which no removal could be read, nor
/// what a collection takes. Any other request gets the room.
pub(crate) fn make_room(
    alloc: Global,
    room: &mut LineRoom,
    reserve: &mut Reserve,
    stored: &Stored<'_>,
    request: &Request,
) -> Result<(), Fault>
    ensures fault { Refuses result None }
{
    if adds_nothing(request) {
        room.release(alloc);
        return Ok(());
    }
    reserve.hold(stored, request)?;
    room.hold(alloc)
}
