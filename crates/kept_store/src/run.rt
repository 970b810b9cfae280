//! A run of a store over a log.
ghost use Rattle.std.specs.Prelude.{◌≡◌, ◌<◌, [], List, ℕ, length, IsTrue, IfErr, IfOk, IfSome, IsErrOf, OnOk};
ghost use Rattle.std.specs.Io.KnownBytes.{Consumes, IsAtEnd};
ghost use Rattle.line_loop.specs.Runs.{EndsRun, stopped_at_end, from, Answers};
ghost use Rattle.kept_store.specs.Restarts.{KeepsStore};

pub mod clocked;
mod moments;
pub mod service;

use crate::StoreService;
use line_loop::{LineLog, RunBuffers, RunError, Stop, run_lines};
use std::io::{Read, Write};
use std::sync::Wait;
use std::thread::Threads;

/// The headline: whatever is read and whatever fails, at each moment a crash leaves a log in which a
/// start finds the lines that were there, and those logged among the first lines of what was read,
/// in order; and whatever was written are replies to these. Each line is a step of the service: of a
/// store itself the one of `line_step`. A line that isn't logged changes nothing. Where the log has no
/// room, questions are still answered.
pub fn run_store<S: StoreService, T: Threads + Wait + Sync, G: LineLog, R: Read, W: Write>(
    rt: &T,
    service: &mut S,
    log: &mut G,
    buffers: &mut RunBuffers,
    reader: &mut R,
    writer: &mut W,
) -> Result<Stop, RunError>
    ensures end { IfOk result (λ stop. stop ≡ Stop.End → IsAtEnd (R.remaining reader.new)
        × (buffers.new ≡ [])) }
    ensures answers { IfSome (stopped_at_end result) (λ at_end. (kept : List (List ℕ))
        → G.holds log.old kept []
        → Answers S.steps (from service.old kept (W.contents writer.old) buffers.old
        (R.remaining reader.old)) at_end service.new (W.contents writer.new) buffers.new
        (R.remaining reader.new) (G.holds log.new)) }
    ensures kept { (kept : List (List ℕ)) → G.holds log.old kept []
        → KeepsStore S.steps S.store_of (from service.old kept (W.contents writer.old) buffers.old
        (R.remaining reader.old)) (W.contents writer.new) (R.remaining reader.new)
        (G.may_find log.new) }
    ensures gets_on { IfOk result (λ stop. stop ≡ Stop.CheckpointDue → IsTrue G.keeps
        × (read : List ℕ) × Consumes (R.remaining reader.old) (R.remaining reader.new) read
        × (0 < length read)) }
    ensures settled { OnOk result (G.settled log.old → G.settled log.new) }
    ensures unread { IsErrOf result RunError.ReadFailed → G.settled log.old → G.settled log.new }
    ensures error { IfErr result (EndsRun G.keeps) }

    // After another failure what was read of a block may be lost, and the line with it.
    ensures lost { IfErr result (λ error. (error ≡ RunError.ReadFailed → ⊥) → buffers.new ≡ []) }
{
    run_lines(rt, service, log, buffers, reader, writer)
}
