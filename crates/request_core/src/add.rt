//! Additions that grow rows, leases and backends together.

pub(crate) mod commit;
pub(crate) mod content;
pub(crate) mod ingest;
pub(crate) mod snapshot;
