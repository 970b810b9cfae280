//! The replies of a store.
ghost use Rattle.std.specs.Prelude.{◌≡◌, false};
ghost use Rattle.meta_types.specs.Steps.{refused};
ghost use Rattle.meta_types.specs.Rows.{State};
ghost use Rattle.reply_line.specs.Replies.{answer_text};
ghost use Rattle.scripts.specs.ReplyTexts.{reply_text_bytes, reply_bytes};
ghost use Rattle.line_loop.specs.Runs.{EndsAnswering};
ghost use Rattle.scripts.specs.StoreSteps.{LineSteps};

use crate::reply_text::ReplyText;
use line_loop::RunError;
use meta_types::Fault;
use reply_line::refusal_text;
use std::borrow::CowStr;

/// What is replied to a line that is refused.
pub(crate) fn refusal(fault: Fault) -> ReplyText
    ensures { reply_text_bytes result ≡ answer_text (refused fault) }
{
    ReplyText::Text(CowStr::Borrowed(refusal_text(fault)))
}

/// The reply to a line that isn't done, for memory or for room: none to an empty one.
pub(crate) fn refuse_line(line: &[u8]) -> Option<ReplyText>
    ensures { (state : State) → LineSteps state line.now (reply_bytes result) false state }
{
    if line.is_empty() {
        return None;
    }
    Some(refusal(Fault::OutOfMemory))
}

/// How a run ends that can't write a reply.
pub(crate) fn write_error(fault: Fault) -> RunError
    ensures { EndsAnswering false result }
{
    match fault {
        Fault::WriteFailed => RunError::WriteFailed,
        _ => RunError::OutOfMemory,
    }
}
