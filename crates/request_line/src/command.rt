//! What a line asks for.
use meta_types::{RawText, Removal, Request};

/// What a line asks for, in texts that are not yet read.
#[derive(Drop)]
pub enum Command<'a> {
    Request(Request<'a>),
    /// A request, with words that ask for rows in its reply, or for its lease to hold an object that
    /// it finds there.
    Show {
        request: Request<'a>,
        answer: Option<RawText<'a>>,
        there: Option<RawText<'a>>,
    },
    /// A collection at a moment, or a dry run of one.
    Collect {
        at: RawText<'a>,
        dry: bool,
    },
    /// A removal with a collection at a moment, as one event.
    Remove {
        removal: Removal<'a>,
        at: RawText<'a>,
    },
    /// Why a row is kept at a moment: a question, and no event.
    Explain {
        ns: RawText<'a>,
        kind: RawText<'a>,
        resource: RawText<'a>,
        at: RawText<'a>,
    },
    /// All objects of the backend: a question too.
    BackList,
    /// What would go at a moment without a row: a question too.
    Impact {
        ns: RawText<'a>,
        kind: RawText<'a>,
        resource: RawText<'a>,
        at: RawText<'a>,
    },
}
