//! What happens to a store, and what it answers.

use crate::event::kept_report::KeptReport;
use meta_types::{Fault, Instant, Removal, Reply, Request, Shared};

/// What happens to a store: a request, a collection (its moment, whether it is a dry run, its
/// workers), or a removal with a collection.
#[derive(Drop)]
pub enum Event {
    Requested(Shared<Request<'static>>),
    Collect(Instant, bool, usize),
    RemoveCollect(Shared<Removal<'static>>, Instant, usize),
}

/// What a store answers. `Done` stands apart, since it takes no memory.
#[derive(Drop)]
pub enum Answer {
    Done,
    Answered(Shared<Reply>),
    Reported(KeptReport),
    Refused(Fault),
}
