//! A run: a script from standard input to standard output.

ghost use Rattle.std.specs.Prelude.{◌≡◌, ◌≢◌, [], Some, Err, IfOk, IfErr, OnOk, OnErr, IsErrOf};
ghost use Rattle.std.specs.IoError.{error_kind};
ghost use Rattle.std.specs.Io.KnownBytes.{Keeps};
ghost use Rattle.scripts.specs.WholeScripts.{AnswersScript, AnswersWholeLines, BeginsAnswers};
ghost use Rattle.scripts.specs.Exchanging.{IsStartedFault, Exchanges};
ghost use Rattle.metad.specs.Blocks.{inner_of, kept_back, contents_of};
ghost use Rattle.metad.specs.Runs.{ExchangesFrom};

pub mod args;
mod blocks;
mod stack;

use crate::script_run::args::{ArgFault, parse_args};
use crate::script_run::blocks::Blocks;
use crate::script_run::stack::take_stack;
use meta_types::{Fault, Workers};
use row_tables::Seed;
use scripts::run_script_with;
use std::alloc::Global;
use std::io::ErrorKind;
use std::process::ExitCode;
use std::sync::Wait;
use std::thread::Threads;
use std::{env, io};

// Why the program's words can't be had: one of them isn't UTF-8, so they ask for no run, or memory
// runs out.
fn word_fault(error: &io::Error) -> ArgFault
    ensures usage { error_kind error.now ≡ ErrorKind.InvalidData → result ≡ ArgFault.Usage }
    ensures memory { error_kind error.now ≢ ErrorKind.InvalidData
        → result ≡ ArgFault.OutOfMemory }
{
    if error.kind() == ErrorKind::InvalidData {
        ArgFault::Usage
    } else {
        ArgFault::OutOfMemory
    }
}

// The number of workers that the program's words ask for.
fn workers(rt: &HostRuntime, alloc: Global) -> Result<Workers, ArgFault> {
    let args = match env::args(rt) {
        Ok(args) => args,
        Err(error) => return Err(word_fault(&error)),
    };
    let texts: Vec<String> = args.collect(alloc)?;
    let mut words: Vec<&str> = Vec::new(alloc);
    for text in &texts {
        words.push(text.as_str())?;
    }
    let count = parse_args(alloc, &words)?;
    Ok(Workers { count })
}

// Hands on all that the writer kept back.
fn flush<W: io::Write + Drop>(writer: &mut Blocks<W>) -> Result<(), Fault>
    ensures kept { Keeps (contents_of W.contents writer.old) (contents_of W.contents writer.new) }
    ensures ok { OnOk result (kept_back writer.new ≡ []) }
    ensures fault { IfErr result (λ fault. fault ≡ Fault.WriteFailed) }
{
    match io::Write::flush(writer) {
        Ok(()) => Ok(()),
        Err(_) => Err(Fault::WriteFailed),
    }
}

// Runs a script. At its end all that was written is handed on, but where a write failed.
fn run<T: Threads + Wait + Sync, R: io::Read + Drop, W: io::Write + Drop>(
    rt: &T,
    alloc: Global,
    seed: Seed,
    reader: R,
    writer: &mut Blocks<W>,
    workers: Workers,
) -> Result<(), Fault>
    requires empty { kept_back writer.old ≡ [] }

    // All that the reader had was read.
    ensures ok { OnOk result (Exchanges AnswersScript (R.remaining reader) (Some [])
        (contents_of W.contents writer.old) (contents_of W.contents writer.new)) }

    // A line that isn't whole when the reader fails isn't answered.
    ensures read_failed { IsErrOf result Fault.ReadFailed → ExchangesFrom AnswersWholeLines
        (R.remaining reader) (contents_of W.contents writer.old)
        (contents_of W.contents writer.new) }
    ensures err { OnErr result (ExchangesFrom BeginsAnswers (R.remaining reader)
        (contents_of W.contents writer.old) (contents_of W.contents writer.new)) }
    ensures handed_on { result ≢ Err Fault.WriteFailed → kept_back writer.new ≡ [] }
    ensures faults { IfErr result IsStartedFault }
{
    let Ok(mut reader) = io::BufReader::new(alloc, reader) else {
        return Err(Fault::OutOfMemory);
    };
    match run_script_with(rt, alloc, seed, &mut reader, writer, workers.count) {
        Err(Fault::WriteFailed) => Err(Fault::WriteFailed),
        ran => {
            flush(writer)?;
            ran
        }
    }
}

// Tells the fault that ended the run.
fn ended(rt: &HostRuntime, fault: Fault) -> ExitCode {
    let number = fault.number();
    let name = fault.name();
    let _told = eprintln!(rt; "metad: fault {number} {name}");
    ExitCode::from(1)
}

/// Runs the script of the program, if its words ask for a run; else tells what they are.
#[inline(never)]
pub fn answer_script<T: Threads + Wait + Sync>(rt: &HostRuntime, threads: &T) -> ExitCode {
    let alloc = rt.alloc();
    let workers = match workers(rt, alloc) {
        Ok(workers) => workers,
        Err(fault) => {
            let _told = eprintln!(rt; "{fault}");
            return match fault {
                ArgFault::Usage => ExitCode::from(2),
                ArgFault::OutOfMemory => ExitCode::from(1),
            };
        }
    };
    if take_stack(rt).is_err() {
        return ended(rt, Fault::ReadFailed);
    }
    let Ok(mut writer) = Blocks::new(alloc, io::writer(rt)) else {
        return ended(rt, Fault::OutOfMemory);
    };
    let Ok(seed) = Seed::secret(rt) else {
        return ended(rt, Fault::ReadFailed);
    };
    match run(threads, alloc, seed, rt.reader(), &mut writer, workers) {
        Ok(()) => ExitCode::SUCCESS,
        Err(fault) => ended(rt, fault),
    }
}
