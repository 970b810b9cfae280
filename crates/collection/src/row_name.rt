//! Rows by their names, and the records without one.
ghost use Rattle.std.specs.Prelude.{◌≡◌, false, ◌||◌};
ghost use Rattle.meta_types.specs.Faults.{OnlyRefuses, least_of};
ghost use Rattle.meta_types.specs.Limits.{is_too_large};
ghost use Rattle.collection.specs.Stores.{records_in};
ghost use Rattle.collection.specs.Impacts.{row_name, lacks_row, is_parent, less_row, has_number, listed_less};

use gc_graph::ListedRows;
use meta_types::{Digest, Fault, Name, Object, Resource, ShortName, SnapKey};
use request_core::Records;

/// A row by its kind, its namespace and its name there.
#[derive(Drop)]
pub(crate) enum RowName {
    Image(ShortName, Name),
    Container(ShortName, Name),
    Lease(ShortName, Name),
    Content(ShortName, Digest),
    Ingest(ShortName, Name),
    Snapshot(SnapKey),
}

impl RowName {
    pub(crate) fn of(ns: ShortName, object: Object) -> RowName
        ensures { result ≡ row_name ns object }
    {
        match object {
            Object::Image(name) => RowName::Image(ns, name),
            Object::Container(name) => RowName::Container(ns, name),
            Object::Lease(id) => RowName::Lease(ns, id),
            Object::Held(Resource::Content(digest)) => RowName::Content(ns, digest),
            Object::Held(Resource::Snapshot(snapshotter, name)) => RowName::Snapshot(SnapKey {
                ns,
                snapshotter,
                name,
            }),
            Object::Held(Resource::Ingest(name)) => RowName::Ingest(ns, name),
        }
    }

    // Whether the row isn't there.
    fn is_missing(&self, records: &Records) -> bool
        ensures { result ≡ lacks_row (records_in records.now) self.now }
    {
        match self {
            RowName::Image(ns, name) => !records.tables.has_image(ns, name),
            RowName::Container(ns, name) => !records.tables.has_container(ns, name),
            RowName::Lease(ns, id) => !records.leases.has(ns, id),
            RowName::Content(ns, digest) => !records.tables.has_content(ns, digest),
            RowName::Ingest(ns, name) => !records.tables.has_ingest(ns, name),
            RowName::Snapshot(key) => !records.tables.has_snap(key),
        }
    }

    // Whether it is a snapshot that has children.
    fn is_parent(&self, records: &Records) -> bool
        ensures { result ≡ is_parent (records_in records.now) self.now }
    {
        match self {
            RowName::Image(_, _) => false,
            RowName::Container(_, _) => false,
            RowName::Lease(_, _) => false,
            RowName::Content(_, _) => false,
            RowName::Ingest(_, _) => false,
            RowName::Snapshot(key) => records.tables.is_parent(key),
        }
    }

    // The least fault of its removal, and of marking these records.
    pub(crate) fn check(&self, records: &Records) -> Result<(), Fault>
        ensures { OnlyRefuses result (least_of false (lacks_row (records_in records.now) self.now)
            false (is_parent (records_in records.now) self.now
            || is_too_large (records_in records.now))) }
    {
        if self.is_missing(records) {
            return Err(Fault::NotFound);
        }
        if self.is_parent(records) {
            return Err(Fault::FailedPrecondition);
        }
        if records.is_too_large() {
            return Err(Fault::FailedPrecondition);
        }
        Ok(())
    }

    // Takes the row away, where it is no parent.
    pub(crate) fn remove(&self, records: &mut Records)
        requires { is_parent (records_in records.old) self.now ≡ false }
        ensures { records_in records.new ≡ less_row (records_in records.old) self.now }
    {
        match self {
            RowName::Image(ns, name) => {
                let _ = records.tables.remove_image(ns, name);
            }
            RowName::Container(ns, name) => {
                let _ = records.tables.remove_container(ns, name);
            }
            RowName::Lease(ns, id) => {
                let _ = records.leases.remove(ns, id);
            }
            RowName::Content(ns, digest) => {
                let _ = records.tables.remove_content(ns, digest);
            }
            RowName::Ingest(ns, name) => {
                let _ = records.tables.remove_ingest(ns, name);
            }
            RowName::Snapshot(key) => {
                let _ = records.tables.remove_snap(key);
            }
        }
    }

    // Whether the rows of its kind have numbers in the graph.
    pub(crate) fn has_number(&self) -> bool
        ensures { result ≡ has_number self.now }
    {
        match self {
            RowName::Image(_, _) => false,
            RowName::Container(_, _) => false,
            RowName::Lease(_, _) => false,
            RowName::Content(_, _) => true,
            RowName::Ingest(_, _) => true,
            RowName::Snapshot(_) => true,
        }
    }

    // Takes the row out of the list, where it has no number.
    pub(crate) fn leave(&self, listed: &mut ListedRows<'_>)
        ensures { listed.new ≡ listed_less self.now listed.old }
    {
        match self {
            RowName::Image(ns, name) => listed.leave_image(ns, name),
            RowName::Container(ns, name) => listed.leave_container(ns, name),
            RowName::Lease(ns, id) => listed.leave_lease(ns, id),
            RowName::Content(_, _) => {}
            RowName::Ingest(_, _) => {}
            RowName::Snapshot(_) => {}
        }
    }
}
