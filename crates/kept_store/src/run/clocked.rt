//! A service that refuses the lines whose moment is far from what a clock tells.
ghost use Rattle.std.specs.Prelude.{◌≡◌, ℕ, ℤ, List, Option, false, IfOk, IfNone, IfSome, OnOk, OnErr, IfErr};
ghost use Rattle.std.specs.Io.KnownBytes.{Appends};
ghost use Rattle.line_loop.specs.Runs.{WritesFront, EndsAnswering, reply_bytes};
ghost use Rattle.kept_store.specs.Clocked.{is_near, IsLet, IsKeptOut, refusal_bytes, refusal_of, clocked_bytes};

use crate::run::moments::read_moment;
use json::Scratch;
use line_loop::{Answered, Mode, RunError, Service, write_bytes};
use meta_types::{Fault, Instant, LINE_LIMIT};
use reply_line::refusal_text;
use std::alloc::{AllocError, Global};
use std::io::Write;
use std::sync::Wait;
use std::thread::Threads;

/// What tells the time.
pub trait Clock {
    /// The nanoseconds since 1970-01-01T00:00:00Z, if the clock can be read.
    fn now(&self) -> Option<i128>;
}

/// How far the moments of lines may be from what a clock tells, in nanoseconds, and room to read a
/// line in.
#[derive(Drop)]
pub struct ClockLimit<C: Clock + Drop> {
    pub clock: C,
    pub most: u64,
    alloc: Global,
    scratch: Scratch,
}

// Whether a moment is at most so far from what a clock tells.
fn is_near(most: u64, now: Option<i128>, moment: Instant) -> bool
    ensures { is_near most now moment.0 ≡ result }
{
    match now {
        Some(now) => moment.0.abs_diff(now) <= u128::from(most),
        None => false,
    }
}

impl<C: Clock + Drop> ClockLimit<C> {
    /// Takes the room, so that reading a line wants no more memory but for its texts.
    pub fn open(alloc: Global, clock: C, most: u64) -> Result<ClockLimit<C>, AllocError>
        ensures { IfOk result (λ limit. limit.most ≡ most) }
    {
        let mut scratch = Scratch::new(alloc);
        scratch.reserve(LINE_LIMIT)?;
        Ok(ClockLimit {
            clock,
            most,
            alloc,
            scratch,
        })
    }

    // Whether a moment is near what the clock tells.
    fn is_near(&self, moment: Instant) -> bool
        ensures { (now : Option ℤ) × (is_near self.now.most now moment.0 ≡ result) }
    {
        let told = self.clock.now();
        is_near(self.most, told, moment)
    }

    // Why a line is refused, if it is.
    fn refuses(&mut self, line: &[u8]) -> Option<Fault>
        ensures most { self.new.most ≡ self.old.most }
        ensures none { IfNone result (IsLet self.old.most line.now) }
        ensures some { IfSome result (λ fault. IsKeptOut self.old.most line.now fault) }
    {
        let found = match read_moment(self.alloc, line, &mut self.scratch) {
            Ok(found) => found,
            Err(fault) => return Some(fault),
        };
        let Some(moment) = found else {
            return None;
        };
        if self.is_near(moment) {
            return None;
        }
        Some(Fault::InvalidArgument)
    }
}

/// A service that answers a line only if its moment is near: that of a collection, a dry run, a
/// question, an ingest that is begun or opened again, or a removal that collects. Else the line is
/// refused with 1, and never comes to the service. So no client ends what others keep by a moment
/// that hasn't come. Lines without a moment go to the service, and those that can't be read.
#[derive(Drop)]
pub struct Clocked<S: Service + Drop, C: Clock + Drop> {
    pub service: S,
    pub limit: ClockLimit<C>,
}

/// A reply of the service, or a refusal of a line that the service never gets.
#[derive(Drop)]
pub enum ClockedReply<P: Drop> {
    Refused(Fault),
    Reply(P),
}

// The reply of the service, if it has one.
fn pass_on<P: Drop>(reply: Option<P>) -> Option<ClockedReply<P>>
    ensures { (bytes : P → List ℕ)
        → reply_bytes (clocked_bytes bytes) result ≡ reply_bytes bytes reply }
{
    match reply {
        Some(reply) => Some(ClockedReply::Reply(reply)),
        None => None,
    }
}

// The refusal of a line: none of an empty one.
fn refuse_with<P: Drop>(fault: Fault, line: &[u8]) -> Option<ClockedReply<P>>
    ensures { (bytes : P → List ℕ)
        → reply_bytes (clocked_bytes bytes) result ≡ refusal_of fault line.now }
{
    if line.is_empty() {
        return None;
    }
    Some(ClockedReply::Refused(fault))
}

// Writes a refusal, with its line feed.
fn write_refusal<W: Write>(writer: &mut W, fault: Fault) -> Result<(), RunError>
    ensures ok { OnOk result
        (Appends (W.contents writer.old) (W.contents writer.new) (refusal_bytes fault)) }
    ensures err { OnErr result ((rest : List ℕ)
        × WritesFront (W.contents writer.old) (W.contents writer.new) rest (refusal_bytes fault)) }
    ensures error { IfErr result (EndsAnswering false) }
{
    write_bytes(writer, refusal_text(fault).as_bytes())?;
    write_bytes(writer, b"\n")?;
    Ok(())
}

impl<S: Service + Drop, C: Clock + Drop> Service for Clocked<S, C> {
    ghost use Rattle.std.specs.Prelude.{◌≡◌};
    ghost use Rattle.kept_store.specs.Clocked.{clocked_bytes, clocked_front, ClockedSteps};

    type ReplyText = ClockedReply<S::ReplyText>;

    ghost bytes = { clocked_bytes S.bytes };

    ghost front = { clocked_front S.front };

    ghost steps = { λ old line reply changes new. (new.limit.most ≡ old.limit.most)
        × ClockedSteps S.steps old.limit.most old.service line reply changes new.service };

    ghost adds = { S.adds };

    fn answer<T: Threads + Wait + Sync>(
        &mut self,
        rt: &T,
        line: &[u8],
        mode: Mode,
    ) -> Result<Answered<Self::ReplyText>, AllocError> {
        if let Some(fault) = self.limit.refuses(line) {
            return Ok(Answered {
                reply: refuse_with(fault, line),
                changes: false,
            });
        }
        let answered = self.service.answer(rt, line, mode)?;
        let Answered { reply, changes } = answered;
        Ok(Answered {
            reply: pass_on(reply),
            changes,
        })
    }

    fn work(&self) -> u128 {
        self.service.work()
    }

    fn refuse(&mut self, line: &[u8]) -> Option<Self::ReplyText> {
        refuse_with(Fault::OutOfMemory, line)
    }

    fn put_front(reply: &Self::ReplyText, out: &mut Vec<u8>) -> Result<(), AllocError> {
        match reply {
            ClockedReply::Refused(_) => Ok(()),
            ClockedReply::Reply(reply) => {
                S::put_front(reply, out)?;
                Ok(())
            }
        }
    }

    fn text(reply: &Self::ReplyText) -> Option<&[u8]> {
        match reply {
            ClockedReply::Refused(fault) => Some(refusal_text(*fault).as_bytes()),
            ClockedReply::Reply(reply) => {
                // For the prover: the text is opened, not passed on.
                let text = S::text(reply)?;
                Some(text)
            }
        }
    }

    fn write<W: Write>(&mut self, writer: &mut W, reply: &Self::ReplyText) -> Result<(), RunError> {
        match reply {
            ClockedReply::Refused(fault) => {
                write_refusal(writer, *fault)?;
                Ok(())
            }
            ClockedReply::Reply(reply) => {
                self.service.write(writer, reply)?;
                Ok(())
            }
        }
    }
}
