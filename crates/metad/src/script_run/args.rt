//! The program's words, read as a number of workers.
ghost use Rattle.std.specs.Prelude.{◌≡◌, ◌↔◌, ℕ, true, map, IfOk, IfSome, IfNone, IsErrOf};
ghost use Rattle.clap.specs.Words.{rows_of, found_of, kind_of, subcommand_rows_of};
ghost use Rattle.clap.specs.declared.error.kind.ErrorKind.TheVariants as kinds;
ghost use Rattle.meta_types.specs.Limits.{is_worker_count};
ghost use Rattle.metad.specs.Args.{are_read, subcommand, IsNumber, HasWorkers, AsksFor};
ghost use Rattle.metad.specs.declared.script_run.args.ArgFault.TheVariants.{OutOfMemory};

use clap::error::ErrorKind;
use clap::{Arg, ArgMatches, Command};
use meta_types::MAX_WORKERS;
use std::alloc::{AllocError, AllocFailed, Global};
use std::convert::AsStr;
use thiserror::Error;

/// Why a command line was refused. Each shows as the line that the program writes.
#[derive(Debug, Clone, Copy, PartialEq, Eq, Error)]
pub enum ArgFault {
    /// The words ask for no run; asking for help is no run either.
    #[error("usage: metad run [--workers 1..16]")]
    Usage,
    /// Memory ran out.
    #[error("metad: fault 7 OutOfMemory")]
    OutOfMemory,
}

impl From<AllocError> for ArgFault {
    ghost from_gives = { λ _ e. e ≡ OutOfMemory };

    fn from(_e: AllocError) -> ArgFault {
        ArgFault::OutOfMemory
    }
}

impl<T: Drop> From<AllocFailed<T>> for ArgFault {
    ghost from_gives = { λ _ e. e ≡ OutOfMemory };

    fn from(_e: AllocFailed<T>) -> ArgFault {
        ArgFault::OutOfMemory
    }
}

impl From<clap::Error> for ArgFault {
    ghost from_gives = { λ e f. (f ≡ OutOfMemory) ↔ (kind_of e ≡ kinds.OutOfMemory) };

    fn from(e: clap::Error) -> ArgFault {
        if e.kind() == ErrorKind::OutOfMemory {
            ArgFault::OutOfMemory
        } else {
            ArgFault::Usage
        }
    }
}

// The number of workers that a text is.
fn number(text: &str) -> Option<usize>
    ensures some { IfSome result (λ n. (is_worker_count n ≡ true) × IsNumber text.now n) }
    ensures none { IfNone result ((n : ℕ) → is_worker_count n ≡ true → IsNumber text.now n → ⊥) }
{
    let Ok(workers) = text.parse::<usize>() else {
        return None;
    };
    if workers < 1 || MAX_WORKERS < workers {
        return None;
    }
    Some(workers)
}

// The number of workers that a run was given.
fn workers_of(matches: &ArgMatches<'_>) -> Option<usize>
    ensures some { IfSome result (HasWorkers (rows_of (found_of matches.now))) }
    ensures none { IfNone result ((n : ℕ) → HasWorkers (rows_of (found_of matches.now)) n → ⊥) }
{
    match matches.get_str("workers") {
        Some(text) => number(text),
        None => Some(1),
    }
}

// The matches of the words.
fn matches<'a>(alloc: Global, words: &'a [&'a str]) -> Result<ArgMatches<'a>, ArgFault>
    ensures ok { IfOk result (λ m.
        subcommand_rows_of m ≡ subcommand (map (λ w. w.now) words.entry.now)) }
    ensures usage { IsErrOf result ArgFault.Usage →
        are_read (map (λ w. w.now) words.entry.now) ≡ true → ⊥ }
{
    let workers = Arg::new(alloc, "workers").long("workers");
    let run = Command::new(alloc, "run").arg(workers)?;
    let metad = Command::new(alloc, "metad").subcommand(run)?;
    Ok(metad.try_get_matches_from(words)?)
}

/// The number of workers that the words ask for, the program's name first among them.
pub fn parse_args(alloc: Global, words: &[&str]) -> Result<usize, ArgFault>
    ensures ok { IfOk result (AsksFor (map (λ w. w.now) words.now)) }
    ensures usage { IsErrOf result ArgFault.Usage → are_read (map (λ w. w.now) words.now) ≡ true
        → (n : ℕ) → AsksFor (map (λ w. w.now) words.now) n → ⊥ }
{
    let matches = matches(alloc, words)?;
    let Some(run) = matches.subcommand_matches("run") else {
        return Err(ArgFault::Usage);
    };
    workers_of(run).ok_or(ArgFault::Usage)
}
