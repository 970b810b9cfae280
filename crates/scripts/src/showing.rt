//! Does a request whose line shows rows, or whose lease is to hold an object that exists.
ghost use Rattle.std.specs.Prelude.{◌≡◌, ◌<◌, Bool, Option, None, Some, true, false, is_some, option_map, bytes_eq, codes, if◌then◌else◌, IfOk, IfErr, OnOk};
ghost use Rattle.std.specs.Option.{option_map_or};
ghost use Rattle.meta_types.specs.Faults.{Refuses};
ghost use Rattle.meta_types.specs.Questions.{of_event, of_shown};
ghost use Rattle.meta_types.specs.Shown.{shows_row, shows_rows, was_there, takes_words};
ghost use Rattle.meta_types.specs.Steps.{answered};
ghost use Rattle.meta_types.specs.Text.{Text};
ghost use Rattle.meta_types.specs.declared.shown_row.ShownRow.{ShownRow as Shows};
ghost use Rattle.reply_line.specs.Fixed.{is_done};
ghost use Rattle.request_line.specs.declared.command.Command.TheVariants as A;
ghost use Rattle.scripts.specs.Changes.{may_change};
ghost use Rattle.scripts.specs.LineAnswers.{line_answer_of};
ghost use Rattle.scripts.specs.Served.{IsServed, IsRefused};
ghost use Rattle.scripts.specs.Showing.{asks_rows, AreReplies, Foresees};

use crate::line_answer::{LineAnswer, RowReplies, RowReply};
use crate::line_memory::Reserves;
use crate::requesting::execute_held;
use crate::rows_shown::rows_shown;
use meta_types::{Fault, RawText, Reply, Request, ShownRow};
use request_core::{Applied, takes_words};
use std::alloc::Global;
use std::mem::drop;
use std::sync::ledger::Ledger;
use store_front::{MemLocked, WithoutHistory};

// The reply with a row that is there already, where it may be.
fn found_reply(alloc: Global, row: &ShownRow, may: bool) -> Result<Option<RowReply>, Fault>
    ensures fault { Refuses result None }
    ensures ok { IfOk result (λ found. may ≡ true → found ≡ Some (shows_row true row.now)) }
{
    if !may {
        return Ok(None);
    }
    let other = row.clone()?;
    let found = RowReply::new(alloc, other, true)?;
    Ok(Some(found))
}

// The replies with a row, if there is one.
fn replies_of(alloc: Global, row: Option<ShownRow>, may: bool) -> Result<Option<RowReplies>, Fault>
    ensures fault { Refuses result None }
    ensures ok { IfOk result (λ replies. AreReplies row may replies) }
{
    let Some(row) = row else {
        return Ok(None);
    };
    let found = found_reply(alloc, &row, may)?;
    let made = RowReply::new(alloc, row, false)?;
    Ok(Some(RowReplies { made, found }))
}

// The replies with the row that a request is to show, with their texts, made before it is done.
fn foresee<L: Ledger>(
    locked: &MemLocked<L, WithoutHistory>,
    alloc: Global,
    request: &Request<'_>,
    there: &Option<RawText<'_>>,
) -> Result<Option<RowReplies>, Fault>
    ensures fault { Refuses result None }
    ensures ok { IfOk result (λ replies.
        Foresees locked.now.store.state request.now there.now replies) }
{
    let row = locked.show_or_there(alloc, request, there)?;
    // For the prover: the result is opened, not passed on.
    let replies = replies_of(alloc, row, there.is_some())?;
    Ok(replies)
}

// The one of both that tells whether it was there.
fn choose(replies: RowReplies, there: bool) -> RowReply
    ensures { (row : Shows) (may : Bool) → AreReplies (Some row) may (Some replies)
        → (there ≡ true → may ≡ true) → result ≡ shows_row there row }
{
    let RowReplies { made, found } = replies;
    if !there {
        return made;
    }
    match found {
        Some(found) => {
            // For the prover: dropped by a call, not in place.
            drop(made);
            found
        }
        None => made,
    }
}

// The answer with a row; without one it is the reply alone.
fn row_answer(replies: Option<RowReplies>, applied: Applied) -> LineAnswer
    ensures said { (row : Option Shows) (may : Bool) → AreReplies row may replies
        → (applied.there ≡ true → may ≡ true) → line_answer_of result
        ≡ option_map_or of_shown (option_map (shows_row applied.there) row)
        (of_event (answered applied.reply)) }
    ensures changes { may_change result ≡ is_done applied.reply }
{
    let Applied { reply, there } = applied;
    let Some(replies) = replies else {
        return LineAnswer::Replied(reply);
    };
    let changes = matches!(reply, Reply::Done);
    // For the prover: dropped by a call, not in place.
    drop(reply);
    LineAnswer::Shown(choose(replies, there), changes)
}

// Does a request, and answers with its row.
fn execute_row<L: Ledger>(
    locked: &mut MemLocked<L, WithoutHistory>,
    alloc: Global,
    request: &Request<'_>,
    there: &Option<RawText<'_>>,
    kept: &mut Reserves,
) -> Result<LineAnswer, Fault>
    ensures ok { (answer : Option Text) → takes_words request.now answer there.now ≡ true
        → is_some answer ≡ true → asks_rows answer ≡ false → IfOk result (λ told.
        IsServed locked.old.store.state (A.Show request.now answer there.now)
        (line_answer_of told) locked.new.store.state) }
    ensures err { (answer : Option Text) → takes_words request.now answer there.now ≡ true
        → IfErr result (λ fault. IsRefused locked.old.store.state
        (A.Show request.now answer there.now) fault locked.new.store.state) }
    ensures still { IfOk result (λ told. may_change told ≡ false
        → locked.new.store.state ≡ locked.old.store.state) }
    ensures opened { locked.new.opened ≡ locked.old.opened }
{
    let replies = foresee(locked, alloc, request, there)?;
    let applied = execute_held(locked, alloc, request, there, kept)?;
    Ok(row_answer(replies, applied))
}

// The answer without a row.
fn there_answer(applied: Applied) -> LineAnswer
    ensures said { line_answer_of result
        ≡ option_map_or of_shown (if applied.there then Some was_there else None)
        (of_event (answered applied.reply)) }
    ensures changes { may_change result ≡ false → is_done applied.reply ≡ false }
{
    let Applied { reply, there } = applied;
    if there {
        // For the prover: dropped by a call, not in place.
        drop(reply);
        return LineAnswer::There;
    }
    LineAnswer::Replied(reply)
}

// Does a request whose lease is to hold an object that exists.
fn execute_there<L: Ledger>(
    locked: &mut MemLocked<L, WithoutHistory>,
    alloc: Global,
    request: &Request<'_>,
    there: &Option<RawText<'_>>,
    kept: &mut Reserves,
) -> Result<LineAnswer, Fault>
    ensures ok { (answer : Option Text) → takes_words request.now answer there.now ≡ true
        → is_some answer ≡ false → IfOk result (λ told.
        IsServed locked.old.store.state (A.Show request.now answer there.now)
        (line_answer_of told) locked.new.store.state) }
    ensures err { (answer : Option Text) → takes_words request.now answer there.now ≡ true
        → IfErr result (λ fault. IsRefused locked.old.store.state
        (A.Show request.now answer there.now) fault locked.new.store.state) }
    ensures still { IfOk result (λ told. may_change told ≡ false
        → locked.new.store.state ≡ locked.old.store.state) }
    ensures opened { locked.new.opened ≡ locked.old.opened }
{
    let applied = execute_held(locked, alloc, request, there, kept)?;
    Ok(there_answer(applied))
}

// The rows of a listing.
fn execute_rows<L: Ledger>(
    locked: &MemLocked<L, WithoutHistory>,
    alloc: Global,
    request: &Request<'_>,
) -> Result<LineAnswer, Fault>
    ensures ok { (answer there : Option Text) → takes_words request.now answer there ≡ true
        → asks_rows answer ≡ true → IfOk result (λ told.
        IsServed locked.now.store.state (A.Show request.now answer there)
        (line_answer_of told) locked.now.store.state) }
    ensures err { (answer there : Option Text) → takes_words request.now answer there ≡ true
        → asks_rows answer ≡ true → IfErr result (λ fault.
        IsRefused locked.now.store.state (A.Show request.now answer there) fault
        locked.now.store.state) }
{
    let found = locked.state().rows(alloc, request)?;
    let Some(lent) = found else {
        return Err(Fault::InvalidArgument);
    };
    let rows = rows_shown(alloc, locked.state(), &lent)?;
    // For the prover: dropped by a call, not in place.
    drop(lent);
    Ok(LineAnswer::Listed(rows))
}

// Whether the rows of a listing are asked for.
fn asks_rows(answer: &Option<RawText<'_>>) -> bool
    ensures { result ≡ asks_rows answer.now }
{
    match answer {
        Some(word) => word.text() == "rows",
        None => false,
    }
}

// Does a request that takes its words.
fn execute_with_words<L: Ledger>(
    locked: &mut MemLocked<L, WithoutHistory>,
    alloc: Global,
    request: &Request<'_>,
    answer: &Option<RawText<'_>>,
    there: &Option<RawText<'_>>,
    kept: &mut Reserves,
) -> Result<LineAnswer, Fault>
    requires { takes_words request.now answer.now there.now ≡ true }
    ensures ok { IfOk result (λ told. IsServed locked.old.store.state
        (A.Show request.now answer.now there.now) (line_answer_of told) locked.new.store.state) }
    ensures err { IfErr result (λ fault. IsRefused locked.old.store.state
        (A.Show request.now answer.now there.now) fault locked.new.store.state) }
    ensures still { IfOk result (λ told. may_change told ≡ false
        → locked.new.store.state ≡ locked.old.store.state) }
    ensures opened { locked.new.opened ≡ locked.old.opened }
{
    if asks_rows(answer) {
        return execute_rows(locked, alloc, request);
    }
    if answer.is_some() {
        return execute_row(locked, alloc, request, there, kept);
    }
    execute_there(locked, alloc, request, there, kept)
}

/// Does a request with the words of its line, where it takes them.
pub(crate) fn execute_shown<L: Ledger>(
    locked: &mut MemLocked<L, WithoutHistory>,
    alloc: Global,
    request: &Request<'_>,
    answer: &Option<RawText<'_>>,
    there: &Option<RawText<'_>>,
    kept: &mut Reserves,
) -> Result<LineAnswer, Fault>
    ensures ok { IfOk result (λ told. IsServed locked.old.store.state
        (A.Show request.now answer.now there.now) (line_answer_of told) locked.new.store.state) }
    ensures err { IfErr result (λ fault. IsRefused locked.old.store.state
        (A.Show request.now answer.now there.now) fault locked.new.store.state) }
    ensures still { IfOk result (λ told. may_change told ≡ false
        → locked.new.store.state ≡ locked.old.store.state) }
    ensures opened { locked.new.opened ≡ locked.old.opened }
{
    if !takes_words(request, answer, there) {
        return Err(Fault::InvalidArgument);
    }
    execute_with_words(locked, alloc, request, answer, there, kept)
}
