//! Changes of one lease in its place: a label, or a resource more or less; its labels and its data.
ghost use Rattle.std.specs.Prelude.{◌≡◌, None, refl};
ghost use Rattle.std.proofs.Common.{ap};
ghost use Rattle.lease_book.specs.Edits.{Edits, edits_keep, Releases, with_label, refuses_label, with_resource, lease_with};

use crate::lease::Lease;
use meta_types::{Data, Fault, Labels, Name, Resource};
use row_tables::Change;
use std::alloc::Global;

/// One label more, or another value of one.
#[derive(Drop)]
pub(crate) struct OneLabel<'a> {
    pub(crate) alloc: Global,
    pub(crate) key: &'a str,
    pub(crate) value: &'a str,
}

impl<'a> Change<Name, Lease, Result<(), Fault>> for OneLabel<'a> {
    ghost changes = { λ c. Edits (refuses_label c.key.now c.value.now)
        (with_label c.key.now c.value.now) };

    ghost keeps_name = { λ c. edits_keep (refuses_label c.key.now c.value.now)
        (with_label c.key.now c.value.now) (λ row. row.id) (λ row. refl) };

    fn change(self, row: &mut Lease) -> Result<(), Fault> {
        row.relabel(self.alloc, self.key, self.value)
    }
}

/// Other labels and other data.
#[derive(Drop)]
pub(crate) struct Parts {
    pub(crate) labels: Labels,
    pub(crate) extra: Data,
}

impl Change<Name, Lease, ()> for Parts {
    ghost changes = { λ c old answer new. new ≡ lease_with c.labels c.extra old };

    ghost keeps_name = { λ c old answer new is. ap (λ row. row.id) is };

    fn change(self, row: &mut Lease) {
        row.set_parts(self.labels, self.extra)
    }
}

/// One resource more.
#[derive(Drop)]
pub(crate) struct Hold {
    pub(crate) resource: Resource,
}

impl Change<Name, Lease, Result<(), Fault>> for Hold {
    ghost changes = { λ c. Edits (λ row. None) (with_resource c.resource) };

    ghost keeps_name = { λ c. edits_keep (λ row. None) (with_resource c.resource) (λ row. row.id)
        (λ row. refl) };

    fn change(self, row: &mut Lease) -> Result<(), Fault> {
        row.hold(self.resource)
    }
}

/// One resource less; says whether the lease held it.
#[derive(Drop)]
pub(crate) struct Release<'a> {
    pub(crate) resource: &'a Resource,
}

impl<'a> Change<Name, Lease, bool> for Release<'a> {
    ghost changes = { λ c. Releases c.resource.now };

    ghost keeps_name = { λ c old answer new is. ap (λ row. row.id) is.left };

    fn change(self, row: &mut Lease) -> bool {
        row.release(self.resource)
    }
}
