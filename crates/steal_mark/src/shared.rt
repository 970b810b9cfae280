//! What the workers of a marking share.

pub(crate) mod claim_table;
pub(crate) mod claims;
pub(crate) mod deques;
pub(crate) mod hints;
