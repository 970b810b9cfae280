//! Replies that are one text each.
ghost use Rattle.std.specs.Prelude.{◌≡◌};
ghost use Rattle.meta_types.specs.Steps.{answered, refused};
ghost use Rattle.meta_types.specs.declared.reply.Reply.TheVariants.{Done};
ghost use Rattle.reply_line.specs.Replies.{answer_text};

use meta_types::Fault;

// A request that asks for nothing was done.
pub(crate) fn done_text() -> &'static str
    ensures { result.now ≡ answer_text (answered Done) }
{
    r#"{"ok":true}"#
}

/// The answer that a fault refuses with: its number and its name.
pub fn refusal_text(fault: Fault) -> &'static str
    ensures { result.now ≡ answer_text (refused fault) }
{
    match fault {
        Fault::InvalidArgument => r#"{"fault":1,"name":"InvalidArgument"}"#,
        Fault::NotFound => r#"{"fault":2,"name":"NotFound"}"#,
        Fault::AlreadyExists => r#"{"fault":3,"name":"AlreadyExists"}"#,
        Fault::FailedPrecondition => r#"{"fault":4,"name":"FailedPrecondition"}"#,
        Fault::BadLine => r#"{"fault":5,"name":"BadLine"}"#,
        Fault::TooLong => r#"{"fault":6,"name":"TooLong"}"#,
        Fault::OutOfMemory => r#"{"fault":7,"name":"OutOfMemory"}"#,
        Fault::NoWorker => r#"{"fault":8,"name":"NoWorker"}"#,
        Fault::BackendFailed => r#"{"fault":9,"name":"BackendFailed"}"#,
        Fault::ReadFailed => r#"{"fault":10,"name":"ReadFailed"}"#,
        Fault::WriteFailed => r#"{"fault":11,"name":"WriteFailed"}"#,
        Fault::Mismatch { place: _ } => r#"{"fault":12,"name":"Mismatch"}"#,
    }
}
