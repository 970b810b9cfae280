//! What a store is kept by: the words of a service, and those that make, read and copy a store.

mod stack;
mod words;

use crate::commands::stack::take_stack;
pub use crate::commands::words::Serving;
use crate::commands::words::{Command, Words, read_words};
use crate::names::{Names, first_name, second_name};
use crate::reading::backing::{backup, check_backup};
use crate::reading::{check, script};
use crate::script_run::args::ArgFault;
use crate::serving::serve;
use crate::starting::loading::load;
use crate::starting::making::make;
use crate::telling::tell;
use meta_types::Fault;
use sqlite_std_file::Unknown;
use std::env::{self, Env};
use std::io::ErrorKind;
use std::process::ExitCode;
use std::str::from_utf8;
use std::sync::Wait;
use std::thread::Threads;

// The words of a service.
const SERVING: &str = "metad serve --dir DIR [--new] [--workers 1..16] [--checkpoint] \
    [--accept-loss] [--numbered] [--clock SECONDS]";

// The words that make a store.
const MAKING: &str = "new --dir DIR | load --dir DIR [--part]";

// The words that only read, without a lock.
const READING: &str = "check --dir DIR | check FILE | script --dir DIR | backup --dir DIR FILE";

/// Whether the word after the program's name is one that a store is kept by.
pub fn has_command<R: Env>(rt: &R) -> bool {
    let mut room = [0u8; 16];
    let Ok(length) = rt.arg(1, &mut room) else {
        return false;
    };
    match from_utf8(&room[..length]) {
        Ok("serve" | "new" | "load" | "check" | "script" | "backup") => true,
        _ => false,
    }
}

// How a program ends whose words ask for nothing.
fn usage(rt: &HostRuntime) -> ExitCode {
    let _told = eprintln!(rt; "usage: {SERVING} | {MAKING} | {READING}");
    ExitCode::from(2)
}

// What the words ask for, done.
fn answer<T: Threads + Wait + Sync>(rt: &HostRuntime, threads: &T, words: Words<'_>) -> ExitCode {
    let Ok(first) = first_name(rt.alloc(), words.dir) else {
        return tell(rt, Fault::OutOfMemory);
    };
    let Ok(second) = second_name(rt.alloc(), first.as_str()) else {
        return tell(rt, Fault::OutOfMemory);
    };
    let names = Names {
        folder: words.dir,
        first: first.as_str(),
        second: second.as_str(),
    };
    match words.asked {
        Command::Serve(serving) => serve(rt, threads, names, Unknown, serving),
        Command::Check => check(rt, names),
        Command::Script => script(rt, names),
        Command::New => make(rt, names, Unknown),
        Command::Load { takes_part } => load(rt, threads, names, Unknown, takes_part),
        Command::CheckBackup => check_backup(rt, words.file),
        Command::Backup => backup(rt, names, words.file),
    }
}

/// Does what the program's words ask for, if they do; else tells what they are.
#[inline(never)]
pub fn keep_store<T: Threads + Wait + Sync>(rt: &HostRuntime, threads: &T) -> ExitCode {
    if take_stack(rt).is_err() {
        return tell(rt, Fault::ReadFailed);
    }
    let alloc = rt.alloc();
    let args = match env::args(rt) {
        Ok(args) => args,
        Err(error) if error.kind() == ErrorKind::InvalidData => return usage(rt),
        Err(_) => return tell(rt, Fault::OutOfMemory),
    };
    let Ok(texts) = args.collect::<Vec<String>>(alloc) else {
        return tell(rt, Fault::OutOfMemory);
    };
    let mut words: Vec<&str> = Vec::new(alloc);
    for text in &texts {
        if words.push(text.as_str()).is_err() {
            return tell(rt, Fault::OutOfMemory);
        }
    }
    match read_words(alloc, &words) {
        Ok(words) => answer(rt, threads, words),
        Err(ArgFault::Usage) => usage(rt),
        Err(ArgFault::OutOfMemory) => tell(rt, Fault::OutOfMemory),
    }
}
