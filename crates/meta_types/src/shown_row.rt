//! Rows as a client is shown them that asks for the row of its request.
use crate::reply::ReplyRow;

/// A row; of a snapshot with the number of its parent in the backend, if it has a parent.
#[derive(PartialEq, Clone, Drop)]
pub struct ShownRow {
    pub row: ReplyRow,
    pub parent_number: Option<u64>,
}
