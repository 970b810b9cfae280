//! The program: answers scripts, and keeps a store whose journal is in a folder.
#![tactic(auto)]

mod commands;
mod ending;
mod files;
mod finding;
mod heads;
mod names;
mod reading;
mod renewing;
mod running;
mod script_run;
mod serving;
mod starting;
mod telling;
mod telling_file;

use crate::commands::{has_command, keep_store};
use crate::script_run::answer_script;
use std::process::ExitCode;

fn main(rt: HostRuntime) -> ExitCode {
    if has_command(&rt) {
        keep_store(&rt, &rt)
    } else {
        answer_script(&rt, &rt)
    }
}
