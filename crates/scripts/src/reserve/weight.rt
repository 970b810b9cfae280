//! What requests add beside rows and objects: labels and resources.

use meta_types::{RawLabels, Request, RowUpdate};

/// Labels and resources.
#[derive(Drop)]
pub(crate) struct Weight {
    pub(crate) labels: usize,
    pub(crate) resources: usize,
}

impl Weight {
    pub(crate) fn none() -> Weight {
        Weight {
            labels: 0,
            resources: 0,
        }
    }

    // So many labels, and a resource where a lease is named.
    fn of(labels: usize, lease: bool) -> Weight {
        Weight {
            labels,
            resources: if lease { 1 } else { 0 },
        }
    }

    pub(crate) fn and(&self, other: &Weight) -> Weight {
        Weight {
            labels: self.labels.saturating_add(other.labels),
            resources: self.resources.saturating_add(other.resources),
        }
    }

    /// Whether it is more than an eighth of the other, and not little.
    pub(crate) fn is_much_beside(&self, other: &Weight) -> bool {
        let all = self.labels.saturating_add(self.resources);
        let rest = other.labels.saturating_add(other.resources);
        all > 1024 && all > rest / 8
    }
}

fn count(labels: &RawLabels) -> usize {
    labels.entries().len()
}

fn count_if(labels: &Option<RawLabels>) -> usize {
    match labels {
        Some(labels) => count(labels),
        None => 0,
    }
}

fn of_update(update: &RowUpdate) -> Weight {
    let labels = count_if(&update.labels).saturating_add(count_if(&update.put));
    Weight::of(labels, false)
}

/// What a request adds at most.
pub(crate) fn weight_of(request: &Request) -> Weight {
    match request {
        Request::ImageAdd(asked) => Weight::of(count(&asked.labels), false),
        Request::ImageSet(asked) => of_update(&asked.update),
        Request::ContainerSet(asked) => of_update(&asked.update),
        Request::ContentSet(_, update) => of_update(update),
        Request::SnapSet(_, update) => of_update(update),
        Request::LeaseSet(_, update) => of_update(update),
        Request::ContainerAdd(asked) => Weight::of(count(&asked.labels), false),
        Request::LeaseAdd(asked) => Weight::of(count(&asked.labels), false),
        Request::ContentAdd(asked) => Weight::of(count(&asked.labels), asked.lease.is_some()),
        Request::IngestBegin(asked) | Request::IngestOpen(asked) => {
            Weight::of(0, asked.lease.is_some())
        }
        Request::IngestCommit(asked) => Weight::of(count(&asked.labels), asked.lease.is_some()),
        Request::SnapPrepare(asked) | Request::SnapView(asked) => {
            Weight::of(count(&asked.labels), asked.lease.is_some())
        }
        Request::SnapCommit(asked) => Weight::of(count(&asked.labels), asked.lease.is_some()),
        Request::ImageLabel(_, _)
        | Request::ContainerLabel(_, _)
        | Request::ContentLabel(_, _)
        | Request::SnapLabel(_, _)
        | Request::LeaseLabel(_, _) => Weight::of(1, false),
        Request::LeaseHold(_) => Weight::of(0, true),
        _ => Weight::none(),
    }
}

/// Whether the reply to a request has a list, whose text may want more memory than a line keeps.
pub fn is_listing(request: &Request) -> bool {
    match request {
        Request::NsList
        | Request::ImageList { .. }
        | Request::ContainerList { .. }
        | Request::ContentList { .. }
        | Request::IngestList { .. }
        | Request::SnapList { .. }
        | Request::SnapSnapshotters { .. }
        | Request::LeaseList { .. }
        | Request::LeaseResources(_) => true,
        _ => false,
    }
}
