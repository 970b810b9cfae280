//! Requests, one file a kind.

pub(crate) mod containers;
pub(crate) mod content;
pub(crate) mod images;
pub(crate) mod ingests;
pub(crate) mod leases;
pub(crate) mod listings;
pub(crate) mod namespaces;
pub(crate) mod snapshots;
