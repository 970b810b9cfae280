//! The lines of a block.
ghost use Rattle.std.specs.Prelude.{◌≡◌, ◌++◌, ◌∷◌, [], List, ℕ, OnOk, IfErr, Option, false, true};
ghost use Rattle.std.specs.List.{list_any};
ghost use Rattle.std.specs.Io.KnownBytes.{Consumes};
ghost use Rattle.journal.specs.Text.{is_line_feed};
ghost use Rattle.line_loop.specs.Reads.{heard, IsPiece};
ghost use Rattle.line_loop.specs.Runs.{EndsAnswering, Start, Kept, Answers};
ghost use Rattle.line_loop.specs.Progress.{Serves, Runs};

use crate::line::{end_line, take_line};
use crate::lines::cut_line;
use crate::replying::give_reply;
use crate::settling::settle;
use crate::waiting::{Waiting, add_piece};
use crate::{LineLog, RunError, Service};
use std::io::Write;
use std::sync::Wait;
use std::thread::Threads;

// Answers the line that a piece ends.
fn answer_piece<T: Threads + Wait + Sync, S: Service, L: LineLog, W: Write>(
    rt: &T,
    service: &mut S,
    log: &mut L,
    waiting: &mut Waiting,
    writer: &mut W,
    piece: &[u8],
) -> Result<(), RunError>
    ensures ok { OnOk result ((start : Start S) (left : Option (List ℕ)) (later : List ℕ)
        → list_any is_line_feed piece.now ≡ false
        → Runs S.steps start (L.holds log.old) service.old waiting.old.replies.items
        (W.contents writer.old) left waiting.old.line.items (piece.now ++ 10 ∷ later)
        → Runs S.steps start (L.holds log.new) service.new waiting.new.replies.items
        (W.contents writer.new) left waiting.new.line.items later) }
    ensures empty { OnOk result (waiting.new.line.items ≡ []) }
    ensures kept { (start : Start S) (left : Option (List ℕ)) (later : List ℕ)
        → list_any is_line_feed piece.now ≡ false
        → Runs S.steps start (L.holds log.old) service.old waiting.old.replies.items
        (W.contents writer.old) left waiting.old.line.items (piece.now ++ 10 ∷ later)
        → Kept S.steps start (W.contents writer.new) left (L.may_find log.new) }
    ensures error { IfErr result (EndsAnswering L.keeps) }
{
    let reply = end_line(rt, service, log, waiting, piece)?;
    give_reply(service, log, &mut waiting.replies, writer, &reply)?;
    Ok(())
}

// Answers each line that the next bytes end.
fn answer_lines<T: Threads + Wait + Sync, S: Service, L: LineLog, W: Write>(
    rt: &T,
    service: &mut S,
    log: &mut L,
    waiting: &mut Waiting,
    writer: &mut W,
    bytes: &[u8],
) -> Result<(), RunError>
    ensures ok { OnOk result ((start : Start S) (left : Option (List ℕ))
        → Runs S.steps start (L.holds log.old) service.old waiting.old.replies.items
        (W.contents writer.old) left waiting.old.line.items bytes.now
        → Runs S.steps start (L.holds log.new) service.new waiting.new.replies.items
        (W.contents writer.new) left waiting.new.line.items []) }
    ensures kept { (start : Start S) (left : Option (List ℕ))
        → Runs S.steps start (L.holds log.old) service.old waiting.old.replies.items
        (W.contents writer.old) left waiting.old.line.items bytes.now
        → Kept S.steps start (W.contents writer.new) left (L.may_find log.new) }
    ensures begun { OnOk result
        (IsPiece waiting.old.line.items → IsPiece waiting.new.line.items) }
    ensures error { IfErr result (EndsAnswering L.keeps) }
{
    let mut rest = bytes;
    while let Some((piece, later)) = cut_line(rest) {
        answer_piece(rt, service, log, waiting, writer, piece)?;
        rest = later;
    }
    add_piece(&mut waiting.line, rest)?;
    Ok(())
}

/// Takes in the next bytes: answers each line that they end, commits those that were accepted, and
/// writes the replies.
pub fn feed<T: Threads + Wait + Sync, S: Service, L: LineLog, W: Write>(
    rt: &T,
    service: &mut S,
    log: &mut L,
    waiting: &mut Waiting,
    writer: &mut W,
    bytes: &[u8],
) -> Result<(), RunError>
    ensures ok { OnOk result ((start : Start S) (left : Option (List ℕ))
        → Runs S.steps start (L.holds log.old) service.old waiting.old.replies.items
        (W.contents writer.old) left waiting.old.line.items bytes.now
        → Answers S.steps start false service.new (W.contents writer.new)
        waiting.new.line.items left (L.holds log.new)
        × Runs S.steps start (L.holds log.new) service.new waiting.new.replies.items
        (W.contents writer.new) left waiting.new.line.items []) }
    ensures kept { (start : Start S) (left : Option (List ℕ))
        → Runs S.steps start (L.holds log.old) service.old waiting.old.replies.items
        (W.contents writer.old) left waiting.old.line.items bytes.now
        → Kept S.steps start (W.contents writer.new) left (L.may_find log.new) }
    ensures empty { OnOk result (waiting.new.replies.items ≡ []) }
    ensures settled { OnOk result (L.settled log.new) }
    ensures begun { OnOk result
        (IsPiece waiting.old.line.items → IsPiece waiting.new.line.items) }
    ensures error { IfErr result (EndsAnswering L.keeps) }
{
    waiting.make_room(log)?;
    answer_lines(rt, service, log, waiting, writer, bytes)?;
    settle(log, &mut waiting.replies, writer)?;
    Ok(())
}

// Answers a last line that no line feed ends.
fn end_last_line<T: Threads + Wait + Sync, S: Service, L: LineLog, W: Write>(
    rt: &T,
    service: &mut S,
    log: &mut L,
    waiting: &mut Waiting,
    writer: &mut W,
) -> Result<(), RunError>
    ensures ok { OnOk result ((start : Start S) (left : Option (List ℕ))
        → Runs S.steps start (L.holds log.old) service.old waiting.old.replies.items
        (W.contents writer.old) left waiting.old.line.items []
        → (read : List ℕ) × Consumes start.unread left read
        × Serves S.steps start (L.holds log.new) service.new waiting.new.replies.items
        (W.contents writer.new) (heard (start.begun ++ read))) }
    ensures kept { (start : Start S) (left : Option (List ℕ))
        → Runs S.steps start (L.holds log.old) service.old waiting.old.replies.items
        (W.contents writer.old) left waiting.old.line.items []
        → Kept S.steps start (W.contents writer.new) left (L.may_find log.new) }
    ensures empty { OnOk result (waiting.new.line.items ≡ []) }
    ensures error { IfErr result (EndsAnswering L.keeps) }
{
    if waiting.line.is_empty() {
        return Ok(());
    }
    waiting.make_room(log)?;
    let reply = take_line(rt, service, log, waiting.mode, &waiting.line)?;
    waiting.line.clear();
    give_reply(service, log, &mut waiting.replies, writer, &reply)?;
    Ok(())
}

/// Ends a run: a last line that no line feed ends is answered, too.
pub fn finish<T: Threads + Wait + Sync, S: Service, L: LineLog, W: Write>(
    rt: &T,
    service: &mut S,
    log: &mut L,
    waiting: &mut Waiting,
    writer: &mut W,
) -> Result<(), RunError>
    ensures ok { OnOk result ((start : Start S) (left : Option (List ℕ))
        → Runs S.steps start (L.holds log.old) service.old waiting.old.replies.items
        (W.contents writer.old) left waiting.old.line.items []
        → Answers S.steps start true service.new (W.contents writer.new)
        waiting.new.line.items left (L.holds log.new)) }
    ensures kept { (start : Start S) (left : Option (List ℕ))
        → Runs S.steps start (L.holds log.old) service.old waiting.old.replies.items
        (W.contents writer.old) left waiting.old.line.items []
        → Kept S.steps start (W.contents writer.new) left (L.may_find log.new) }
    ensures empty { OnOk result ((waiting.new.replies.items ≡ []) × (waiting.new.line.items ≡ [])) }
    ensures settled { OnOk result (L.settled log.new) }
    ensures error { IfErr result (EndsAnswering L.keeps) }
{
    end_last_line(rt, service, log, waiting, writer)?;
    settle(log, &mut waiting.replies, writer)?;
    Ok(())
}
