//! Gives replies out: a short text waits with the others, any other reply is written once what waits
//! is settled.
ghost use Rattle.std.specs.Prelude.{◌≡◌, ◌++◌, ◌∷◌, [], List, ℕ, OnOk, IfErr, IfSome, false};
ghost use Rattle.line_loop.specs.Runs.{reply_bytes, EndsAnswering, Start};
ghost use Rattle.line_loop.specs.Progress.{Serves, Breaks};

use crate::settling::{settle, settle_and_write};
use crate::{LineLog, RunError, Service};
use std::io::Write;

/// Replies of this number of bytes don't wait for the end of their block.
const FULL: usize = 65_536;

// Returns the text of a reply, if it is short enough to wait.
fn short_text<S: Service>(reply: &S::ReplyText) -> Option<&[u8]>
    ensures { IfSome result
        (λ text. S.bytes reply.now ≡ S.front reply.now ++ (text.now ++ 10 ∷ [])) }
{
    let text = S::text(reply)?;
    if text.len() < FULL { Some(text) } else { None }
}

// Puts the front of a reply, and its text, behind the replies that wait.
fn put_text<S: Service>(
    out: &mut Vec<u8>,
    reply: &S::ReplyText,
    text: &[u8],
) -> Result<(), RunError>
    ensures ok { OnOk result
        (out.new.items ≡ out.old.items ++ (S.front reply.now ++ (text.now ++ 10 ∷ []))) }
    ensures error { IfErr result (EndsAnswering false) }
{
    S::put_front(reply, out)?;
    out.extend_from_slice(text)?;
    out.push(b'\n')?;
    Ok(())
}

// Puts a short reply behind those that wait, or writes another one behind them.
fn put_or_write<S: Service, L: LineLog, W: Write>(
    service: &mut S,
    log: &mut L,
    out: &mut Vec<u8>,
    writer: &mut W,
    reply: &S::ReplyText,
) -> Result<(), RunError>
    ensures ok { OnOk result ((start : Start S) (lines : List (List ℕ))
        → Serves S.steps start (L.holds log.old) service.old
        (out.old.items ++ S.bytes reply.now) (W.contents writer.old) lines
        → Serves S.steps start (L.holds log.new) service.new out.new.items
        (W.contents writer.new) lines) }
    ensures kept { (start : Start S) (lines : List (List ℕ))
        → Serves S.steps start (L.holds log.old) service.old
        (out.old.items ++ S.bytes reply.now) (W.contents writer.old) lines
        → Breaks S.steps start (L.may_find log.new) (W.contents writer.new) lines }
    ensures error { IfErr result (EndsAnswering L.keeps) }
{
    let Some(text) = short_text::<S>(reply) else {
        settle_and_write(service, log, out, writer, reply)?;
        return Ok(());
    };
    put_text::<S>(out, reply, text)?;
    Ok(())
}

/// Gives a reply out, if there is one. Many replies don't wait for the end of the block.
pub fn give_reply<S: Service, L: LineLog, W: Write>(
    service: &mut S,
    log: &mut L,
    out: &mut Vec<u8>,
    writer: &mut W,
    reply: &Option<S::ReplyText>,
) -> Result<(), RunError>
    ensures ok { OnOk result ((start : Start S) (lines : List (List ℕ))
        → Serves S.steps start (L.holds log.old) service.old
        (out.old.items ++ reply_bytes S.bytes reply.now) (W.contents writer.old) lines
        → Serves S.steps start (L.holds log.new) service.new out.new.items
        (W.contents writer.new) lines) }
    ensures kept { (start : Start S) (lines : List (List ℕ))
        → Serves S.steps start (L.holds log.old) service.old
        (out.old.items ++ reply_bytes S.bytes reply.now) (W.contents writer.old) lines
        → Breaks S.steps start (L.may_find log.new) (W.contents writer.new) lines }
    ensures error { IfErr result (EndsAnswering L.keeps) }
{
    let Some(reply) = reply else {
        return Ok(());
    };
    put_or_write(service, log, out, writer, reply)?;
    if out.len() < FULL {
        return Ok(());
    }
    settle(log, out, writer)?;
    Ok(())
}
