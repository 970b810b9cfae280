//! The answers to lines.
ghost use Rattle.std.specs.Prelude.{◌≡◌, string_bytes, IfOk, None};
ghost use Rattle.meta_types.specs.Faults.{Refuses};
ghost use Rattle.meta_types.specs.Shown.{shows_row};
ghost use Rattle.reply_line.specs.Shown.{shows_text};

use gc_report::{Impact, Objects, Report};
use meta_types::{Explanation, Fault, Reply, ShownRow};
use reply_line::shown_row_text;
use std::alloc::Global;
use std::marker::Model;

/// A row that a line shows, whether it was there already, and the text of that, made before the
/// line's change.
#[derive(Drop)]
pub struct RowReply {
    row: ShownRow,
    there: bool,
    text: String,
}

impl Model for RowReply {
    ghost use Rattle.std.specs.Prelude.{◌≡◌, string_bytes};
    ghost use Rattle.meta_types.specs.Shown.{Shown, shows_row};
    ghost use Rattle.reply_line.specs.Shown.{shows_text};

    ghost Value = { Shown };

    ghost view = { λ r. shows_row r.there r.row };

    ghost invariant = { λ r. string_bytes r.text ≡ shows_text (shows_row r.there r.row) };
}

impl RowReply {
    /// The reply with a row, its text made.
    pub fn new(alloc: Global, row: ShownRow, there: bool) -> Result<RowReply, Fault>
        ensures fault { Refuses result None }
        ensures ok { IfOk result (λ reply. reply ≡ shows_row there row) }
    {
        let text = shown_row_text(alloc, &row, there)?;
        Ok(RowReply { row, there, text })
    }

    /// The text.
    pub fn into_text(self) -> String
        ensures { string_bytes result ≡ shows_text self }
    {
        let RowReply { text, .. } = self;
        text
    }
}

/// The replies with one row: that it was made and, where that may be, that it was there.
#[derive(Drop)]
pub struct RowReplies {
    pub made: RowReply,
    pub found: Option<RowReply>,
}

/// The answer to a line: that of a request, a row that it shows and whether it may have changed the
/// store, that what it makes was there already, the rows of a listing, the report of a collection,
/// or of a removal with one, a refusal, what explains a row, what would go without it, or all
/// objects of the backend. A report lies apart, so that no answer is moved as one.
#[derive(Drop)]
pub enum LineAnswer {
    Replied(Reply),
    Shown(RowReply, bool),
    There,
    Listed(Vec<ShownRow>),
    Reported(Box<Report>),
    Removed(Box<Report>),
    Refused(Fault),
    Explained(Explanation),
    Foreseen(Impact),
    Objects(Box<Objects>),
}
