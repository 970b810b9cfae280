//! Answers a line, and appends it to the log.
ghost use Rattle.std.specs.Prelude.{◌≡◌, ◌++◌, ◌∷◌, ◌≤◌, [], List, ℕ, Bool, true, length, IfOk, IfErr, OnOk};
ghost use Rattle.line_loop.specs.Reads.{longer_line};
ghost use Rattle.line_loop.specs.Runs.{reply_bytes, if_changed, EndsAnswering, FindsOnly};
ghost use Rattle.line_loop.specs.Modes.{Allows, IsShort};

use crate::waiting::{Waiting, add_piece, cut_long};
use crate::{LineLog, Mode, RunError, Service};
use std::sync::Wait;
use std::thread::Threads;

/// A longer line isn't done where the log has no room for additions.
const SHORT_LINE: usize = 8_192;

// Whether a line is short enough for what room the log has.
fn is_short(mode: Mode, line: &[u8]) -> bool
    ensures { result ≡ true → IsShort mode line.now }
{
    match mode {
        Mode::AllLines => true,
        Mode::NoAdditions => line.len() <= SHORT_LINE,
        Mode::ReadOnly => true,
    }
}

/// Answers a line, and appends it where it may have changed the service. Where there is no room to
/// keep it, it is refused and not done.
pub fn take_line<T: Threads + Wait + Sync, S: Service, L: LineLog>(
    rt: &T,
    service: &mut S,
    log: &mut L,
    mode: Mode,
    line: &[u8],
) -> Result<Option<S::ReplyText>, RunError>
    ensures ok { IfOk result (λ reply. (changes : Bool)
        × S.steps service.old line.now (reply_bytes S.bytes reply) changes service.new
        × ((kept waiting : List (List ℕ)) → L.holds log.old kept waiting
        → L.holds log.new kept (waiting ++ if_changed changes line.now))
        × Allows S.adds mode line.now changes) }
    ensures crash { (kept waiting : List (List ℕ)) → L.holds log.old kept waiting
        → FindsOnly kept (L.may_find log.new) }
    ensures error { IfErr result (EndsAnswering L.keeps) }
{
    if !is_short(mode, line) {
        return Ok(service.refuse(line));
    }
    if !log.reserve(line) {
        return Ok(service.refuse(line));
    }
    let answered = service.answer(rt, line, mode)?;
    if answered.changes {
        log.append(line)?;
    }
    Ok(answered.reply)
}

/// Answers the line that a piece ends. One that is whole is answered where it lies.
pub fn end_line<T: Threads + Wait + Sync, S: Service, L: LineLog>(
    rt: &T,
    service: &mut S,
    log: &mut L,
    waiting: &mut Waiting,
    piece: &[u8],
) -> Result<Option<S::ReplyText>, RunError>
    ensures ok { IfOk result (λ reply. (changes : Bool)
        × S.steps service.old (longer_line waiting.old.line.items piece.now)
        (reply_bytes S.bytes reply) changes service.new
        × ((kept waits : List (List ℕ)) → L.holds log.old kept waits
        → L.holds log.new kept
        (waits ++ if_changed changes (longer_line waiting.old.line.items piece.now)))
        × Allows S.adds waiting.old.mode (longer_line waiting.old.line.items piece.now) changes) }
    ensures empty { OnOk result (waiting.new.line.items ≡ []) }
    ensures waits { waiting.new.replies.items ≡ waiting.old.replies.items }
    ensures crash { (kept waits : List (List ℕ)) → L.holds log.old kept waits
        → FindsOnly kept (L.may_find log.new) }
    ensures error { IfErr result (EndsAnswering L.keeps) }
{
    if waiting.line.is_empty() {
        // For the prover: the result is opened, not passed on.
        let reply = take_line(rt, service, log, waiting.mode, cut_long(piece))?;
        return Ok(reply);
    }
    add_piece(&mut waiting.line, piece)?;
    let reply = take_line(rt, service, log, waiting.mode, &waiting.line)?;
    waiting.line.clear();
    Ok(reply)
}
