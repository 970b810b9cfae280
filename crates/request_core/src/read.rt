//! What the texts of a request say.

pub(crate) mod labels;
pub(crate) mod lists;
pub(crate) mod names;
pub(crate) mod rows;
pub(crate) mod updates;
