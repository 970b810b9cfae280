//! Events of a history, and the entries that keep them.

pub(crate) mod entry;
pub(crate) mod event;
pub(crate) mod kept_report;
pub(crate) mod pairs;
pub(crate) mod room;
