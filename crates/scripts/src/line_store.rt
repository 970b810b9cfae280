//! A store that answers lines, to be run over a log or none.
ghost use Rattle.std.specs.Prelude.{◌≡◌, ◌≤◌, ◌++◌, ℕ, List, length, true, IfOk, OnOk, Option, None};
ghost use Rattle.meta_types.specs.Faults.{Refuses};
ghost use Rattle.meta_types.specs.Rows.{empty_store};
ghost use Rattle.store_front.specs.NextNumber.{raised};
ghost use Rattle.line_loop.specs.Modes.{MayChange};
ghost use Rattle.scripts.specs.Changes.{is_report, after_line, Changes};
ghost use Rattle.scripts.specs.Doing.{adds};
ghost use Rattle.scripts.specs.ReplyTexts.{reply_bytes};
ghost use Rattle.scripts.specs.StoreSteps.{Answers, LineSteps};

mod doing;
mod replies;
pub mod rows;

use crate::answering::execute_line;
use crate::line_memory::LineMemory;
use crate::line_store::doing::{lets_line, logs};
use crate::line_store::replies::{refusal, refuse_line, write_error};
use crate::line_store::rows::{rows_logged, work_of};
use crate::reply_text::{Answered as Executed, ReplyText};
use crate::writing::write_reply_text;
use back_model::{MemBackend, MemBlobs, MemIngests};
use line_loop::{Answered, Mode, RunError, Service};
use meta_types::{Fault, LINE_LIMIT, Workers};
use request_core::State;
use row_tables::Seed;
use std::alloc::{AllocError, Global};
use std::io::Write;
use std::marker::Model;
use std::sync::Wait;
use std::sync::ledger::{Blank, Ledger};
use std::thread::Threads;
use store_front::{Locked, MemLocked, Session, WithoutHistory};

/// What a new store is made of: the ledger of its sessions, and what its tables hash by.
#[derive(Drop)]
pub struct Fresh {
    pub blank: Blank,
    pub seed: Seed,
}

/// A store in memory with its one session, how many workers collect, and how many rows its logged
/// lines looked at since the last checkpoint. It keeps no history, since nobody can ask for one. Its
/// tables hash by the seed.
#[derive(Drop)]
pub struct LineStore<L: Ledger> {
    alloc: Global,
    locked: MemLocked<L, WithoutHistory>,
    session: Session<L>,
    workers: Workers,
    memory: LineMemory,
    rows: u128,
    pub seed: Seed,
}

impl<L: Ledger> Model for LineStore<L> {
    ghost use Rattle.std.specs.Prelude.{◌<◌};
    ghost use Rattle.meta_types.specs.Rows.{State};

    ghost Value = { State };

    ghost view = { λ d. d.locked.store.state };

    ghost invariant = { λ d. d.session.number < d.locked.opened };
}

impl<L: Ledger> LineStore<L> {
    /// An empty store, which collects with this number of workers. The blank has 65,536 parts.
    pub fn open(alloc: Global, fresh: Fresh, workers: Workers) -> Result<LineStore<L>, Fault>
        requires name { fresh.blank.name ≡ L.name }
        requires parts { (fresh.blank.parts ≡ L.parts) × (fresh.blank.parts ≡ 65536) }
        ensures fault { Refuses result None }
        ensures ok { IfOk result (λ store. store ≡ empty_store) }
    {
        let memory = LineMemory::open(alloc)?;
        let Fresh { blank, seed } = fresh;
        let mut locked = Locked::open_without_history(alloc, blank, State::empty_with(alloc, seed));
        let Ok(session) = locked.session(alloc) else {
            unreachable!()
        };
        Ok(LineStore {
            alloc,
            locked,
            session,
            workers,
            memory,
            rows: 0,
            seed,
        })
    }

    /// From now on collections have this number of workers.
    pub fn set_workers(&mut self, workers: Workers)
        ensures { self.new ≡ self.old }
    {
        self.workers = workers;
    }

    /// From now on the only rows that make a checkpoint due are those that lines look at from here on:
    /// one was taken, or tried.
    pub fn count_rows_anew(&mut self)
        ensures { self.new ≡ self.old }
    {
        self.rows = 0;
    }

    // Counts the rows that a line looked at, if it is logged.
    fn count_rows(&mut self, executed: &Executed)
        ensures { self.new ≡ self.old }
    {
        self.rows = self.rows.saturating_add(rows_logged(executed));
    }

    /// From now on lines that add are refused with 7: the next start would find too little memory.
    pub fn refuse_additions(&mut self)
        ensures { self.new ≡ self.old }
    {
        self.memory.refuse_additions(true);
    }

    /// From now on the next backend number is at least this one.
    pub fn raise_next(&mut self, number: u64)
        ensures { self.new ≡ raised number self.old }
    {
        self.locked.raise_next(number);
    }

    /// The store's rows and objects.
    pub fn state(&self) -> &State<MemBackend, MemBlobs, MemIngests>
        ensures { result.now.state ≡ self.now }
    {
        self.locked.state()
    }

    // The answer to a line that isn't too long, as `execute_line` gives it.
    fn execute<T: Threads + Wait + Sync>(&mut self, rt: &T, line: &[u8]) -> Result<Executed, Fault>
        requires { length line.now ≤ 65536 }
        ensures fault { Refuses result None }
        ensures ok { IfOk result (λ answered.
            Answers self.old line.now (reply_bytes answered.reply) self.new) }
        ensures changes { IfOk result (λ answered.
            Changes self.old line.now answered.changes self.new) }
        ensures report { IfOk result (λ answered. is_report answered.reply ≡ true
            → self.new ≡ after_line self.old line.now) }
    {
        execute_line(
            &mut self.locked,
            rt,
            self.alloc,
            &mut self.session,
            line,
            self.workers.count,
            &mut self.memory,
        )
    }

    /// The answer to a line that isn't too long. The line is logged where it may have changed the
    /// store.
    pub fn reply<T: Threads + Wait + Sync>(
        &mut self,
        rt: &T,
        line: &[u8],
    ) -> Result<Executed, Fault>
        requires { length line.now ≤ 65536 }
        ensures fault { Refuses result None }
        ensures ok { IfOk result (λ answered.
            LineSteps self.old line.now (reply_bytes answered.reply) answered.changes self.new) }
        ensures report { IfOk result (λ answered. is_report answered.reply ≡ true
            → self.new ≡ after_line self.old line.now) }
    {
        let executed = self.execute(rt, line)?;
        self.count_rows(&executed);
        Ok(executed)
    }

    // Answers a line. It is refused where it is too long, or where the mode doesn't let it be done.
    fn take<T: Threads + Wait + Sync>(
        &mut self,
        rt: &T,
        line: &[u8],
        mode: Mode,
    ) -> Result<Answered<ReplyText>, Fault>
        ensures fault { Refuses result None }
        ensures ok { IfOk result (λ answered.
            LineSteps self.old line.now (reply_bytes answered.reply) answered.changes self.new) }
        ensures allowed { IfOk result (λ answered.
            MayChange adds mode line.now answered.changes) }
    {
        if line.len() > LINE_LIMIT {
            return Ok(Answered {
                reply: Some(refusal(Fault::TooLong)),
                changes: false,
            });
        }
        if !lets_line(self.alloc, mode, line) {
            return Ok(Answered {
                reply: refuse_line(line),
                changes: false,
            });
        }
        let executed = self.reply(rt, line)?;
        let Executed { reply, changes } = executed;
        Ok(Answered {
            reply,
            changes: logs(mode, changes),
        })
    }
}

impl<L: Ledger> Service for LineStore<L> {
    ghost use Rattle.std.specs.Prelude.{[]};
    ghost use Rattle.scripts.specs.Doing.{adds};
    ghost use Rattle.scripts.specs.StoreSteps.{LineSteps, said_bytes};

    type ReplyText = ReplyText;

    ghost bytes = { said_bytes };

    ghost front = { λ _. [] };

    ghost steps = { LineSteps };

    ghost adds = { adds };

    fn answer<T: Threads + Wait + Sync>(
        &mut self,
        rt: &T,
        line: &[u8],
        mode: Mode,
    ) -> Result<Answered<Self::ReplyText>, AllocError> {
        match self.take(rt, line, mode) {
            Ok(answered) => Ok(answered),
            Err(_) => Err(AllocError),
        }
    }

    fn work(&self) -> u128 {
        work_of(self.rows)
    }

    fn refuse(&mut self, line: &[u8]) -> Option<Self::ReplyText> {
        refuse_line(line)
    }

    fn put_front(_reply: &Self::ReplyText, _out: &mut Vec<u8>) -> Result<(), AllocError> {
        Ok(())
    }

    fn text(reply: &Self::ReplyText) -> Option<&[u8]> {
        match reply {
            ReplyText::Text(text) => Some(text.as_str().as_bytes()),
            ReplyText::Report(_) => None,
            ReplyText::Rows(_) => None,
            ReplyText::Objects(_) => None,
        }
    }

    fn write<W: Write>(&mut self, writer: &mut W, reply: &Self::ReplyText) -> Result<(), RunError> {
        match write_reply_text(writer, self.alloc, &mut self.memory.block, reply) {
            Ok(()) => Ok(()),
            Err(fault) => Err(write_error(fault)),
        }
    }
}
