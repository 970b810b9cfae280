//! What is written for a line.

use gc_report::{Objects, Report};
use meta_types::ShownRow;
use std::alloc::Global;
use std::borrow::CowStr;

/// What is written for a line: a text; or a report, the rows of a listing, or all objects of the
/// backend, whose text is made while it is written.
#[derive(Drop)]
pub enum ReplyText {
    Text(CowStr<'static, Global>),
    Report(Box<Report>),
    Rows(Vec<ShownRow>),
    Objects(Box<Objects>),
}

/// The reply to a line, if it has one, and whether the line may have changed the store.
#[derive(Drop)]
pub struct Answered {
    pub reply: Option<ReplyText>,
    pub changes: bool,
}
