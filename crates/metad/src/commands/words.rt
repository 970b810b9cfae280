//! What the words of a store ask for.

use crate::script_run::args::ArgFault;
use clap::{Arg, ArgAction, ArgMatches};
use meta_types::Workers;
use std::alloc::{AllocError, Global};

/// A service, as it is wanted.
#[derive(Clone, Copy)]
pub struct Serving {
    /// How many workers collect.
    pub workers: Workers,
    /// It begins with a checkpoint.
    pub has_checkpoint: bool,
    /// It makes the store, where its folder has none.
    pub is_new: bool,
    /// It serves a journal that has less than it had.
    pub takes_less: bool,
    /// Each reply begins with its line's number.
    pub is_numbered: bool,
    /// How many nanoseconds a line's moment may be from the clock, where it may not be any.
    pub clock: Option<u64>,
}

/// What the words ask for, in a folder.
#[derive(Clone, Copy)]
pub enum Command {
    /// A run.
    Serve(Serving),
    /// What the journal holds.
    Check,
    /// What a backup holds.
    CheckBackup,
    /// The lines of the journal.
    Script,
    /// A store without a line.
    New,
    /// A store of the lines of the input, be they a part of a checkpoint.
    Load { takes_part: bool },
    /// All lines in one file.
    Backup,
}

/// What the words ask for, and the folder and the file that they name: an empty text names none.
#[derive(Clone, Copy)]
pub struct Words<'a> {
    pub dir: &'a str,
    pub file: &'a str,
    pub asked: Command,
}

// The most seconds that a line's moment may be from the clock.
const MOST_SECONDS: u64 = 1_000_000_000;

// The nanoseconds of the whole seconds that a text is.
fn nanoseconds(text: &str) -> Option<u64> {
    let Ok(seconds) = text.parse::<u64>() else {
        return None;
    };
    if seconds > MOST_SECONDS {
        return None;
    }
    Some(seconds * 1_000_000_000)
}

// The number of workers that a text is.
fn number(text: &str) -> Option<Workers> {
    let Ok(count) = text.parse::<usize>() else {
        return None;
    };
    Workers::new(count)
}

// An option with a value. A folder's name may begin with a hyphen.
fn option<'a>(alloc: Global, name: &'a str) -> Arg<'a> {
    Arg::new(alloc, name).long(name).allow_hyphen_values(true)
}

// An option without a value.
fn switch<'a>(alloc: Global, name: &'a str) -> Arg<'a> {
    Arg::new(alloc, name).long(name).action(ArgAction::SetTrue)
}

// The name of a file, which may begin with a hyphen.
fn file<'a>(alloc: Global) -> Arg<'a> {
    Arg::new(alloc, "file").allow_hyphen_values(true)
}

// The word of a service, with its options.
fn with_options<'a>(
    alloc: Global,
    word: clap::Command<'a>,
) -> Result<clap::Command<'a>, AllocError> {
    let mut word = word;
    for name in ["workers", "clock"] {
        word = word.arg(option(alloc, name))?;
    }
    for name in ["new", "checkpoint", "accept-loss", "numbered"] {
        word = word.arg(switch(alloc, name))?;
    }
    Ok(word)
}

// A word, the folder that it is given, and what else it takes. No word asks for help.
fn word_of<'a>(alloc: Global, name: &'a str) -> Result<clap::Command<'a>, AllocError> {
    let word = clap::Command::new(alloc, name).disable_help_flag(true);
    let word = word.arg(option(alloc, "dir"))?;
    match name {
        "serve" => with_options(alloc, word),
        "load" => word.arg(switch(alloc, "part")),
        "check" | "backup" => word.arg(file(alloc)),
        _ => Ok(word),
    }
}

// What a service is asked for.
fn serving_of(given: &ArgMatches<'_>) -> Option<Command> {
    let workers = match given.get_str("workers") {
        Some(text) => number(text)?,
        None => Workers::ONE,
    };
    let clock = match given.get_str("clock") {
        Some(text) => Some(nanoseconds(text)?),
        None => None,
    };
    Some(Command::Serve(Serving {
        workers,
        has_checkpoint: given.get_flag("checkpoint"),
        is_new: given.get_flag("new"),
        takes_less: given.get_flag("accept-loss"),
        is_numbered: given.get_flag("numbered"),
        clock,
    }))
}

// What a word asks for, by the options, the folder and the file that it is given.
fn command_of(word: &str, given: &ArgMatches<'_>) -> Option<Command> {
    let has_dir = given.contains_id("dir");
    match (word, has_dir, given.contains_id("file")) {
        ("serve", true, false) => serving_of(given),
        ("check", true, false) => Some(Command::Check),
        ("check", false, true) => Some(Command::CheckBackup),
        ("script", true, false) => Some(Command::Script),
        ("new", true, false) => Some(Command::New),
        ("load", true, false) => Some(Command::Load {
            takes_part: given.get_flag("part"),
        }),
        ("backup", true, true) => Some(Command::Backup),
        _ => None,
    }
}

// The words as the matches have them. A folder and a file have a name, and no file is an option.
fn words_of<'a>(matches: &ArgMatches<'a>) -> Option<Words<'a>> {
    let (word, given) = matches.subcommand()?;
    let asked = command_of(word, given)?;
    let dir = given.get_str("dir");
    let file = given.get_str("file");
    if dir == Some("") || file == Some("") {
        return None;
    }
    if file.is_some_and(|name| name.starts_with("--")) {
        return None;
    }
    Some(Words {
        dir: dir.unwrap_or(""),
        file: file.unwrap_or(""),
        asked,
    })
}

/// What the words ask for, the program's name first among them. `clap` learns the word that is given,
/// and no other: each would be text of the program, and memory of a start.
pub fn read_words<'a>(alloc: Global, words: &'a [&'a str]) -> Result<Words<'a>, ArgFault> {
    let Some(name) = words.get(1) else {
        return Err(ArgFault::Usage);
    };
    let metad = clap::Command::new(alloc, "metad").subcommand(word_of(alloc, name)?)?;
    let matches = metad.try_get_matches_from(words)?;
    words_of(&matches).ok_or(ArgFault::Usage)
}
