//! What most rows have beside their names.
use meta_types::{Data, Labels};

/// The labels and the data of a new row.
#[derive(Drop)]
pub struct RowParts {
    pub labels: Labels,
    pub extra: Data,
}
