//! A run: block by block, each kept before its replies are written.
ghost use Rattle.std.specs.Prelude.{◌≡◌, ◌<◌, ◌≤◌, [], List, ℕ, length, IsTrue, IfErr, IfOk, IfSome};
ghost use Rattle.std.specs.Io.KnownBytes.{IsAtEnd, Consumes, ReadConsumes};
ghost use Rattle.line_loop.specs.Reads.{AreReady, GetsOn};
ghost use Rattle.line_loop.specs.Runs.{EndsRun, stopped_at_end, from, Kept, Answers};

use crate::block::{feed, finish};
use crate::buffers::{Buffers, RunBuffers};
use crate::{LineLog, RunError, Service, Stop};
use std::io::{Read, Write};
use std::sync::Wait;
use std::thread::Threads;

/// A run takes in fewer blocks than this.
const BLOCK_LIMIT: u64 = 1 << 62;

// Reads the next bytes.
fn read_block<R: Read>(reader: &mut R, block: &mut Vec<u8>) -> Result<usize, RunError>
    ensures bound { IfOk result (λ count. count ≤ length block.new.items) }
    ensures room { length block.new.items ≡ length block.old.items }
    ensures bytes { ReadConsumes (R.remaining reader.old) (R.remaining reader.new)
        result block.new.items }
    ensures error { IfErr result (λ error. error ≡ RunError.ReadFailed) }
{
    match reader.read(block) {
        Ok(count) => Ok(count),
        Err(_) => Err(RunError::ReadFailed),
    }
}

// Answers what is read, until the reader ends or the log is due.
fn serve<T: Threads + Wait + Sync, S: Service, L: LineLog, R: Read, W: Write>(
    rt: &T,
    service: &mut S,
    log: &mut L,
    buffers: &mut Buffers,
    reader: &mut R,
    writer: &mut W,
) -> Result<Stop, RunError>
    requires ready { AreReady buffers.old }
    ensures end { IfOk result (λ stop. stop ≡ Stop.End → IsAtEnd (R.remaining reader.new)
        × (buffers.new.waiting.line.items ≡ [])) }
    ensures answers { IfSome (stopped_at_end result) (λ at_end. (kept : List (List ℕ))
        → L.holds log.old kept []
        → Answers S.steps (from service.old kept (W.contents writer.old)
        buffers.old.waiting.line.items (R.remaining reader.old)) at_end service.new
        (W.contents writer.new) buffers.new.waiting.line.items (R.remaining reader.new)
        (L.holds log.new)) }
    ensures kept { (kept : List (List ℕ)) → L.holds log.old kept []
        → Kept S.steps (from service.old kept (W.contents writer.old)
        buffers.old.waiting.line.items (R.remaining reader.old)) (W.contents writer.new)
        (R.remaining reader.new) (L.may_find log.new) }
    ensures gets_on { IfOk result (λ stop. stop ≡ Stop.CheckpointDue → IsTrue L.keeps
        × GetsOn (R.remaining reader.old) (R.remaining reader.new)) }
    ensures settled { IfSome (stopped_at_end result) (λ _. L.settled log.old → L.settled log.new) }
    ensures error { IfErr result (EndsRun L.keeps) }
    ensures lost { IfErr result (λ error. (error ≡ RunError.ReadFailed → ⊥)
        → buffers.new.waiting.line.items ≡ []) }
    ensures ready { AreReady buffers.new }
{
    // For the prover: a run takes in fewer blocks.
    'serving: for _ in 1..BLOCK_LIMIT {
        let count = read_block(reader, &mut buffers.block)?;
        if count == 0 {
            match finish(rt, service, log, &mut buffers.waiting, writer) {
                Ok(()) => return Ok(Stop::End),
                Err(error) => {
                    buffers.waiting.forget();
                    return Err(error);
                }
            }
        }
        let block = &buffers.block[..count];
        match feed(rt, service, log, &mut buffers.waiting, writer, block) {
            Ok(()) => {}
            Err(error) => {
                buffers.waiting.forget();
                return Err(error);
            }
        }
        if log.is_due(service.work()) {
            return Ok(Stop::CheckpointDue);
        }
    }
    Err(RunError::ReadFailed)
}

/// Answers the lines of a reader over a log, block by block, each kept before its replies are
/// written. A call that stopped, or whose reader failed, is gone on with by the next.
///
/// The headline. Whatever is read and whatever fails: the first lines of what was begun and read
/// were answered, in order, and what was written are the first bytes of their replies; and whatever
/// a crash leaves, a start finds the lines accepted among these, those of each written reply at
/// least.
pub fn run_lines<T: Threads + Wait + Sync, S: Service, L: LineLog, R: Read, W: Write>(
    rt: &T,
    service: &mut S,
    log: &mut L,
    buffers: &mut RunBuffers,
    reader: &mut R,
    writer: &mut W,
) -> Result<Stop, RunError>
    ensures end { IfOk result (λ stop. stop ≡ Stop.End → IsAtEnd (R.remaining reader.new)
        × (buffers.new ≡ [])) }
    ensures answers { IfSome (stopped_at_end result) (λ at_end. (kept : List (List ℕ))
        → L.holds log.old kept []
        → Answers S.steps (from service.old kept (W.contents writer.old) buffers.old
        (R.remaining reader.old)) at_end service.new (W.contents writer.new) buffers.new
        (R.remaining reader.new) (L.holds log.new)) }
    ensures kept { (kept : List (List ℕ)) → L.holds log.old kept []
        → Kept S.steps (from service.old kept (W.contents writer.old) buffers.old
        (R.remaining reader.old)) (W.contents writer.new) (R.remaining reader.new)
        (L.may_find log.new) }
    ensures gets_on { IfOk result (λ stop. stop ≡ Stop.CheckpointDue → IsTrue L.keeps
        × (read : List ℕ) × Consumes (R.remaining reader.old) (R.remaining reader.new) read
        × (0 < length read)) }
    ensures settled { IfSome (stopped_at_end result)
        (λ at_end. L.settled log.old → L.settled log.new) }
    ensures error { IfErr result (EndsRun L.keeps) }

    // After another failure what was read of a block may be lost, and the line with it.
    ensures lost { IfErr result (λ error. (error ≡ RunError.ReadFailed → ⊥) → buffers.new ≡ []) }
{
    serve(rt, service, log, &mut buffers.buffers, reader, writer)
}
