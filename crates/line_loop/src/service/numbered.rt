//! A service whose replies begin with the number of their line.
ghost use Rattle.std.specs.Prelude.{◌≡◌, ◌++◌, ◌+◌, ◌%◌, ◌^◌, OnOk, OnErr, IfErr, IfSome, IfNone, Some, None, ℕ, List, false};
ghost use Rattle.std.specs.Io.KnownBytes.{Appends};
ghost use Rattle.line_loop.specs.Numbered.{number_text};
ghost use Rattle.line_loop.specs.Runs.{EndsAnswering, WritesFront};

use crate::{Answered, Mode, RunError, Service, write_bytes};
use itoa::Buffer;
use std::alloc::AllocError;
use std::io::Write;
use std::sync::Wait;
use std::thread::Threads;

/// A reply, and the number of its line.
#[derive(Drop)]
pub struct NumberedReply<P: Drop> {
    pub number: u64,
    pub reply: P,
}

/// A service each of whose replies begins with the number of its line and a space, so that a client
/// that sends many lines at once sees which one is answered. The first line is 1; lines without a
/// reply are counted too. Behind 18,446,744,073,709,551,615 the numbers begin again at 0.
#[derive(Drop)]
pub struct Numbered<S: Service + Drop> {
    pub service: S,
    pub lines: u64,
}

impl<S: Service + Drop> Numbered<S> {
    /// Begins to count lines.
    pub fn new(service: S) -> Numbered<S>
        ensures service { result.service ≡ service }
        ensures lines { result.lines ≡ 0 }
    {
        Numbered { service, lines: 0 }
    }

    // Counts a line.
    fn count(&mut self) -> u64
        ensures service { self.new.service ≡ self.old.service }
        ensures next { self.new.lines ≡ (self.old.lines + 1) % 2 ^ 64 }
        ensures told { result ≡ self.new.lines }
    {
        self.lines = self.lines.wrapping_add(1);
        self.lines
    }
}

// Puts the number of a line, and a space, behind other bytes.
fn put_number(out: &mut Vec<u8>, number: u64) -> Result<(), AllocError>
    ensures { OnOk result (out.new.items ≡ out.old.items ++ number_text number) }
{
    let mut buffer = Buffer::new();
    out.extend_from_slice(buffer.format(number).as_bytes())?;
    out.push(b' ')?;
    Ok(())
}

// Writes the number of a line, and a space.
fn write_number<W: Write>(writer: &mut W, number: u64) -> Result<(), RunError>
    ensures ok { OnOk result
        (Appends (W.contents writer.old) (W.contents writer.new) (number_text number)) }
    ensures err { OnErr result ((rest : List ℕ)
        × WritesFront (W.contents writer.old) (W.contents writer.new) rest (number_text number)) }
    ensures error { IfErr result (EndsAnswering false) }
{
    let mut buffer = Buffer::new();
    write_bytes(writer, buffer.format(number).as_bytes())?;
    write_bytes(writer, b" ")?;
    Ok(())
}

// Puts a number before a reply, if there is a reply.
fn number_reply<P: Drop>(number: u64, reply: Option<P>) -> Option<NumberedReply<P>>
    ensures some { IfSome result (λ numbered. (numbered.number ≡ number)
        × (reply ≡ Some numbered.reply)) }
    ensures none { IfNone result (reply ≡ None) }
{
    match reply {
        Some(reply) => Some(NumberedReply { number, reply }),
        None => None,
    }
}

impl<S: Service + Drop> Service for Numbered<S> {
    ghost use Rattle.line_loop.specs.Numbered.{number_text, NumberedSteps};

    type ReplyText = NumberedReply<S::ReplyText>;

    ghost bytes = { λ r. number_text r.number ++ S.bytes r.reply };

    ghost front = { λ r. number_text r.number ++ S.front r.reply };

    ghost steps = { λ old line reply changes new. NumberedSteps S.steps old.service old.lines line
        reply changes new.service new.lines };

    ghost adds = { S.adds };

    fn answer<T: Threads + Wait + Sync>(
        &mut self,
        rt: &T,
        line: &[u8],
        mode: Mode,
    ) -> Result<Answered<Self::ReplyText>, AllocError> {
        let number = self.count();
        let answered = self.service.answer(rt, line, mode)?;
        let Answered { reply, changes } = answered;
        Ok(Answered {
            reply: number_reply(number, reply),
            changes,
        })
    }

    fn work(&self) -> u128 {
        self.service.work()
    }

    fn refuse(&mut self, line: &[u8]) -> Option<Self::ReplyText> {
        let number = self.count();
        let reply = self.service.refuse(line);
        number_reply(number, reply)
    }

    fn put_front(reply: &Self::ReplyText, out: &mut Vec<u8>) -> Result<(), AllocError> {
        put_number(out, reply.number)?;
        S::put_front(&reply.reply, out)?;
        Ok(())
    }

    fn text(reply: &Self::ReplyText) -> Option<&[u8]> {
        // For the prover: the text is opened, not passed on.
        let text = S::text(&reply.reply)?;
        Some(text)
    }

    fn write<W: Write>(&mut self, writer: &mut W, reply: &Self::ReplyText) -> Result<(), RunError> {
        write_number(writer, reply.number)?;
        self.service.write(writer, &reply.reply)?;
        Ok(())
    }
}
