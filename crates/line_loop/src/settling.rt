//! Keeps lines, and then writes their replies.
ghost use Rattle.std.specs.Prelude.{◌≡◌, ◌++◌, [], List, ℕ, OnOk, IfErr};
ghost use Rattle.std.specs.Io.KnownBytes.{Appends};
ghost use Rattle.line_loop.specs.Runs.{EndsAnswering};
ghost use Rattle.line_loop.specs.Settling.{Settles};

use crate::writing::{flush, write_bytes};
use crate::{LineLog, RunError, Service};
use std::io::Write;

/// Commits the lines that wait, and then writes the replies that wait.
pub fn settle<L: LineLog, W: Write>(
    log: &mut L,
    out: &mut Vec<u8>,
    writer: &mut W,
) -> Result<(), RunError>
    ensures ok { OnOk result ((kept waiting : List (List ℕ)) → L.holds log.old kept waiting
        → L.holds log.new (kept ++ waiting) []) }
    ensures written { OnOk result
        (Appends (W.contents writer.old) (W.contents writer.new) out.old.items) }
    ensures empty { OnOk result (out.new.items ≡ []) }
    ensures settled { OnOk result (L.settled log.new) }
    ensures crash { (kept waiting : List (List ℕ)) → L.holds log.old kept waiting
        → Settles kept waiting out.old.items (L.may_find log.new) (W.contents writer.old)
        (W.contents writer.new) }
    ensures error { IfErr result (EndsAnswering L.keeps) }
{
    log.commit()?;
    write_bytes(writer, out)?;
    flush(writer)?;
    out.clear();
    Ok(())
}

/// The same, and then writes the reply to the last of them.
pub fn settle_and_write<S: Service, L: LineLog, W: Write>(
    service: &mut S,
    log: &mut L,
    out: &mut Vec<u8>,
    writer: &mut W,
    reply: &S::ReplyText,
) -> Result<(), RunError>
    ensures same { service.new ≡ service.old }
    ensures ok { OnOk result ((kept waiting : List (List ℕ)) → L.holds log.old kept waiting
        → L.holds log.new (kept ++ waiting) []) }
    ensures written { OnOk result (Appends (W.contents writer.old) (W.contents writer.new)
        (out.old.items ++ S.bytes reply.now)) }
    ensures empty { OnOk result (out.new.items ≡ []) }
    ensures crash { (kept waiting : List (List ℕ)) → L.holds log.old kept waiting
        → Settles kept waiting (out.old.items ++ S.bytes reply.now) (L.may_find log.new)
        (W.contents writer.old) (W.contents writer.new) }
    ensures error { IfErr result (EndsAnswering L.keeps) }
{
    settle(log, out, writer)?;
    service.write(writer, reply)?;
    flush(writer)?;
    Ok(())
}
