//! Runs a script, from its reader to its writer.
ghost use Rattle.std.specs.Prelude.{◌≡◌, ◌↔◌, OnOk, OnErr, IfErr, IsErrOf, false};
ghost use Rattle.std.specs.Io.KnownBytes.{IsAtEnd};
ghost use Rattle.meta_types.specs.Limits.{is_worker_count};
ghost use Rattle.line_loop.specs.Runs.{EndsRun};
ghost use Rattle.scripts.specs.Endings.{IsFaultOf};
ghost use Rattle.scripts.specs.Exchanging.{IsStartedFault, IsRunFault, Exchanges};
ghost use Rattle.scripts.specs.Output.{IsOutput, IsWholeOutput, IsBeginning};
ghost use Rattle.scripts.specs.WholeScripts.{AnswersScript, AnswersWholeLines, BeginsAnswers};

use crate::line_store::{Fresh, LineStore};
use line_loop::{NoLog, RunBuffers, RunError, Stop, run_lines};
use meta_types::{Fault, Workers};
use row_tables::Seed;
use std::alloc::Global;
use std::io::{Read, Write};
use std::marker::Brand;
use std::mem::ManuallyDrop;
use std::sync::Wait;
use std::sync::ledger::{Blank, Ledger};
use std::thread::Threads;

// The fault that tells what ended the loop.
fn run_fault(error: RunError) -> Fault
    requires { EndsRun false error }
    ensures { IsFaultOf error result }
{
    match error {
        RunError::OutOfMemory => Fault::OutOfMemory,
        RunError::ReadFailed => Fault::ReadFailed,
        RunError::WriteFailed => Fault::WriteFailed,
        RunError::LogFailed => unreachable!(),
    }
}

// Leaves the store as it is: its memory goes with the process, without a pass over its objects.
fn leave<L: Ledger>(store: LineStore<L>) {
    let _store = ManuallyDrop::new(store);
}

// Runs a script over the store that `L` names. The blank has 65,536 parts. No line is logged, so the
// loop stops at the end alone.
fn run_named<L: Ledger, T: Threads + Wait + Sync, R: Read, W: Write>(
    rt: &T,
    alloc: Global,
    fresh: Fresh,
    reader: &mut R,
    writer: &mut W,
    workers: Workers,
) -> Result<(), Fault>
    requires name { fresh.blank.name ≡ L.name }
    requires parts { (fresh.blank.parts ≡ L.parts) × (fresh.blank.parts ≡ 65536) }
    ensures end { OnOk result (IsAtEnd (R.remaining reader.new)) }
    ensures ok { OnOk result (Exchanges IsOutput (R.remaining reader.old)
        (R.remaining reader.new) (W.contents writer.old) (W.contents writer.new)) }
    ensures read_failed { IfErr result (λ fault. fault ≡ Fault.ReadFailed →
        Exchanges IsWholeOutput (R.remaining reader.old)
        (R.remaining reader.new) (W.contents writer.old) (W.contents writer.new)) }
    ensures err { OnErr result (Exchanges IsBeginning (R.remaining reader.old)
        (R.remaining reader.new) (W.contents writer.old) (W.contents writer.new)) }
    ensures faults { IfErr result IsStartedFault }
{
    let mut buffers = RunBuffers::new(alloc)?;
    let mut store = LineStore::<L>::open(alloc, fresh, workers)?;
    let mut log = NoLog;
    let ran = run_lines(rt, &mut store, &mut log, &mut buffers, reader, writer);
    leave(store);
    match ran {
        Ok(Stop::End) => Ok(()),
        Ok(Stop::CheckpointDue) => unreachable!(),
        Err(error) => Err(run_fault(error)),
    }
}

/// The headline: whatever the script, with 1 to 16 workers that steal and whatever their schedule,
/// what is written answers what was read, line by line. A collection removes exactly what no path of
/// references reaches. A line may also be refused with 7, for memory, or a collection with 8, for a
/// thread; then it changes nothing. The store's memory isn't freed: it goes with the process.
/// Its tables hash alike in each run, so who picks names can pick some that clash.
pub fn run_script<T: Threads + Wait + Sync, R: Read, W: Write>(
    rt: &T,
    alloc: Global,
    reader: &mut R,
    writer: &mut W,
    workers: usize,
) -> Result<(), Fault>
    ensures end { OnOk result (IsAtEnd (R.remaining reader.new)) }
    ensures ok { OnOk result (Exchanges AnswersScript (R.remaining reader.old)
        (R.remaining reader.new) (W.contents writer.old) (W.contents writer.new)) }

    // A line that isn't whole when the reader fails isn't answered.
    ensures read_failed { IsErrOf result Fault.ReadFailed → Exchanges AnswersWholeLines
        (R.remaining reader.old) (R.remaining reader.new)
        (W.contents writer.old) (W.contents writer.new) }
    ensures err { OnErr result (Exchanges BeginsAnswers (R.remaining reader.old)
        (R.remaining reader.new) (W.contents writer.old) (W.contents writer.new)) }
    ensures workers { IsErrOf result Fault.InvalidArgument ↔ is_worker_count workers ≡ false }
    ensures unread { IsErrOf result Fault.InvalidArgument →
        (reader.new ≡ reader.old) × (writer.new ≡ writer.old) }
    ensures faults { IfErr result IsRunFault }
{
    run_script_with(rt, alloc, Seed::Fixed, reader, writer, workers)
}

/// The same, over a store whose tables hash by the seed. No reply rests on it.
pub fn run_script_with<T: Threads + Wait + Sync, R: Read, W: Write>(
    rt: &T,
    alloc: Global,
    seed: Seed,
    reader: &mut R,
    writer: &mut W,
    workers: usize,
) -> Result<(), Fault>
    ensures end { OnOk result (IsAtEnd (R.remaining reader.new)) }
    ensures ok { OnOk result (Exchanges AnswersScript (R.remaining reader.old)
        (R.remaining reader.new) (W.contents writer.old) (W.contents writer.new)) }

    // A line that isn't whole when the reader fails isn't answered.
    ensures read_failed { IsErrOf result Fault.ReadFailed → Exchanges AnswersWholeLines
        (R.remaining reader.old) (R.remaining reader.new)
        (W.contents writer.old) (W.contents writer.new) }
    ensures err { OnErr result (Exchanges BeginsAnswers (R.remaining reader.old)
        (R.remaining reader.new) (W.contents writer.old) (W.contents writer.new)) }
    ensures workers { IsErrOf result Fault.InvalidArgument ↔ is_worker_count workers ≡ false }
    ensures unread { IsErrOf result Fault.InvalidArgument →
        (reader.new ≡ reader.old) × (writer.new ≡ writer.old) }
    ensures faults { IfErr result IsRunFault }
{
    let Some(workers) = Workers::new(workers) else {
        return Err(Fault::InvalidArgument);
    };
    let fresh = Fresh {
        blank: Blank::new(65536),
        seed,
    };
    run_named::<Brand, T, R, W>(rt, alloc, fresh, reader, writer, workers)
}
