//! The calls that serve a store.

pub(crate) mod apply;
pub(crate) mod call_resources;
pub(crate) mod collect;
pub(crate) mod explain;
pub(crate) mod impact;
pub(crate) mod in_memory;
pub(crate) mod plan_copy;
pub(crate) mod records;
pub(crate) mod show;
pub(crate) mod whole;
pub(crate) mod without_history;
