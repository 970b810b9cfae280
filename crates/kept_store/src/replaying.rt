//! Does the lines of a journal again.
ghost use Rattle.std.specs.Prelude.{◌≡◌, ◌≤◌, ◌<◌, ◌+◌, ◌-◌, ◌++◌, ◌∷◌, ℕ, [], List, length, take, drop, IsTrue, IfOk, OnOk};
ghost use Rattle.journal.specs.Reading.{whole_lines};
ghost use Rattle.scripts.specs.Changes.{is_report};
ghost use Rattle.kept_store.specs.Replays.{after_kept_line, store_after, requests_among, requests_in};

use crate::StartError;
use crate::error::start_error;
use crate::numbers::number_in;
use journal::{Log, cut_line, is_commit, read_lines};
use meta_types::{Fault, LINE_LIMIT};
use reply_line::refusal_text;
use scripts::{LineStore, ReplyText};
use std::alloc::Global;
use std::sync::Wait;
use std::sync::ledger::Ledger;
use std::thread::Threads;

// Whether a reply refuses its line for memory.
fn is_for_memory(reply: &Option<ReplyText>) -> bool {
    match reply {
        Some(ReplyText::Text(text)) => text.as_str() == refusal_text(Fault::OutOfMemory),
        _ => false,
    }
}

// Whether a reply is a report. A collection that names nothing was logged by metad up to format 1, and
// leaves the store as it did then.
fn is_report(reply: &Option<ReplyText>) -> bool
    ensures { result ≡ is_report reply.now }
{
    match reply {
        None => false,
        Some(ReplyText::Text(_)) => false,
        Some(ReplyText::Rows(_)) => false,
        Some(ReplyText::Objects(_)) => false,
        Some(ReplyText::Report(_)) => true,
    }
}

// Does a line again: raises the next number, or does a request. That was logged once, so it is
// refused for memory alone, or by another metad.
fn redo<L: Ledger, T: Threads + Wait + Sync>(
    store: &mut LineStore<L>,
    rt: &T,
    line: &[u8],
) -> Result<(), StartError>
    ensures ok { OnOk result (store.new ≡ after_kept_line store.old line.now) }
{
    if let Some(number) = number_in(line) {
        store.raise_next(number);
        return Ok(());
    }
    if line.len() > LINE_LIMIT {
        return Err(StartError::Refused);
    }
    let Ok(answered) = store.reply(rt, line) else {
        return Err(StartError::OutOfMemory);
    };
    if answered.changes {
        return Ok(());
    }
    if is_report(&answered.reply) {
        return Ok(());
    }
    if is_for_memory(&answered.reply) {
        return Err(StartError::OutOfMemory);
    }
    Err(StartError::Refused)
}

/// Does a line of a journal again, where it is no commit line.
pub(crate) fn replay_line<L: Ledger, T: Threads + Wait + Sync>(
    store: &mut LineStore<L>,
    rt: &T,
    line: &[u8],
    lines: &mut u64,
) -> Result<(), StartError>
    ensures ok { OnOk result
        (store.new ≡ store_after store.old (requests_among (line.now ∷ []))) }
    ensures counts { OnOk result
        (lines.new ≡ lines.old + length (requests_among (line.now ∷ []))) }
{
    if is_commit(line) {
        return Ok(());
    }
    let Some(count) = lines.checked_add(1) else {
        return Err(StartError::DiskFailed);
    };
    redo(store, rt, line)?;
    *lines = count;
    Ok(())
}

// Does the whole lines of a text again, in order.
fn replay_lines<L: Ledger, T: Threads + Wait + Sync>(
    store: &mut LineStore<L>,
    rt: &T,
    text: &[u8],
    lines: &mut u64,
) -> Result<(), StartError>
    ensures ok { OnOk result (store.new ≡ store_after store.old (requests_in text.now)) }
    ensures counts { OnOk result (lines.new ≡ lines.old + length (requests_in text.now)) }
{
    let mut rest = text;
    while let Some((line, later)) = cut_line(rest) {
        rest = later;
        replay_line(store, rt, line, lines)?;
    }
    Ok(())
}

// The next lines of a file, and where they end.
fn next_lines<D: Log>(
    log: &mut D,
    at: usize,
    end: usize,
    text: &mut Vec<u8>,
) -> Result<usize, StartError>
    ensures lines { IfOk result (λ next. IsTrue (D.is_clean log.new) → at ≤ end
        → whole_lines (take (end - at) (drop at (D.text log.old)))
        ≡ whole_lines text.new.items ++ whole_lines
        (take (end - next) (drop next (D.text log.old)))) }
    ensures clean { IsTrue (D.is_clean log.new) → IsTrue (D.is_clean log.old) }
    ensures rests { D.rests log.old → D.rests log.new }
    ensures same { D.text log.new ≡ D.text log.old }
    ensures crash { (c : List ℕ) → D.may_leave log.new c → D.may_leave log.old c }
{
    match read_lines(log, at, end, text) {
        Ok(next) => Ok(next),
        Err(error) => Err(start_error(error)),
    }
}

// Where lines are read to, and how many were done.
#[derive(Drop)]
struct Blocks {
    text: Vec<u8>,
    lines: u64,
}

// Does a block of lines again, from one place up to at most another, and answers where it ends.
fn replay_block<L: Ledger, D: Log, T: Threads + Wait + Sync>(
    store: &mut LineStore<L>,
    rt: &T,
    log: &mut D,
    at: usize,
    end: usize,
    blocks: &mut Blocks,
) -> Result<usize, StartError>
    ensures further { IfOk result (λ next. at < next) }
    ensures ok { IfOk result (λ next. IsTrue (D.is_clean log.new) → at ≤ end
        → store_after store.old (requests_in (take (end - at) (drop at (D.text log.old))))
        ≡ store_after store.new (requests_in (take (end - next) (drop next (D.text log.old))))) }
    ensures counts { IfOk result (λ next. IsTrue (D.is_clean log.new) → at ≤ end
        → blocks.old.lines + length (requests_in (take (end - at) (drop at (D.text log.old))))
        ≡ blocks.new.lines + length (requests_in (take (end - next) (drop next (D.text log.old))))) }
    ensures clean { IsTrue (D.is_clean log.new) → IsTrue (D.is_clean log.old) }
    ensures rests { D.rests log.old → D.rests log.new }
    ensures same { D.text log.new ≡ D.text log.old }
    ensures crash { (c : List ℕ) → D.may_leave log.new c → D.may_leave log.old c }
{
    let next = next_lines(log, at, end, &mut blocks.text)?;
    if next <= at {
        return Err(StartError::DiskFailed);
    }
    replay_lines(store, rt, &blocks.text, &mut blocks.lines)?;
    Ok(next)
}

/// Does the lines of a file again that stand before a place, and answers how many they are. The file
/// is left as it is.
pub(crate) fn replay<L: Ledger, D: Log, T: Threads + Wait + Sync>(
    store: &mut LineStore<L>,
    rt: &T,
    alloc: Global,
    log: &mut D,
    end: usize,
) -> Result<u64, StartError>
    ensures ok { OnOk result (IsTrue (D.is_clean log.new)
        → store.new ≡ store_after store.old (requests_in (take end (D.text log.old)))) }
    ensures counts { IfOk result (λ lines. IsTrue (D.is_clean log.new)
        → lines ≡ length (requests_in (take end (D.text log.old)))) }
    ensures clean { IsTrue (D.is_clean log.new) → IsTrue (D.is_clean log.old) }
    ensures rests { D.rests log.old → D.rests log.new }
    ensures same { D.text log.new ≡ D.text log.old }
    ensures crash { (c : List ℕ) → D.may_leave log.new c → D.may_leave log.old c }
{
    let mut blocks = Blocks {
        text: Vec::new(alloc),
        lines: 0,
    };
    let mut at = 0usize;
    'replaying: while at < end {
        let next = replay_block(store, rt, log, at, end, &mut blocks)?;
        at = next;
    }
    Ok(blocks.lines)
}
