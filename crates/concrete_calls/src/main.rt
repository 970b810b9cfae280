//! Calls each generic function of the libraries at concrete types: it is proved from its bounds
//! alone, and a contract has to be met at a type. It ends with status 0 where each call answered as
//! it does with ample memory, and else says which part of it didn't. With the word `collections` it
//! tries a collection of each kind, and says how many were answered, refused, and wrong.
#![tactic(auto)]

mod backends;
mod collections;
mod filling;
mod graph;
mod markings;
mod questions;
mod requests;
mod seen;
mod sessions;

use collections::Outcomes;
use meta_types::Fault;
use std::alloc::Global;
use std::env;
use std::process::ExitCode;
use std::sync::Wait;
use std::thread::Threads;

// The first part in which a call didn't answer as it does with ample memory.
fn first_failed<R: Threads + Wait + Sync>(
    rt: &R,
    alloc: Global,
) -> Result<Option<&'static str>, Fault> {
    if !backends::calls(alloc)? {
        return Ok(Some("backends"));
    }
    if !requests::calls(alloc) {
        return Ok(Some("requests"));
    }
    if !graph::calls(rt, alloc) {
        return Ok(Some("graph"));
    }
    if !markings::calls(rt, alloc)? {
        return Ok(Some("markings"));
    }
    if !questions::calls(rt, alloc)? {
        return Ok(Some("questions"));
    }
    if !sessions::calls(rt, alloc)? {
        return Ok(Some("sessions"));
    }
    Ok(None)
}

// Whether the program's one word asks for collections.
fn asks_for_collections(rt: &HostRuntime, alloc: Global) -> Result<bool, Fault> {
    let Ok(args) = env::args(rt) else {
        return Err(Fault::OutOfMemory);
    };
    let words: Vec<String> = args.collect(alloc)?;
    Ok(words.len() == 2 && words[1].as_str() == "collections")
}

// Tells how the collections went.
fn tell_collections(rt: &HostRuntime, outcomes: Outcomes) -> ExitCode {
    let answered = outcomes.answered;
    let refused = outcomes.refused;
    let changed = outcomes.changed;
    let _told = println!(rt; "answered {answered} refused {refused} changed {changed}");
    ExitCode::SUCCESS
}

fn main(rt: HostRuntime) -> ExitCode {
    match asks_for_collections(&rt, rt.alloc()) {
        Ok(true) => return tell_collections(&rt, collections::calls(&rt, rt.alloc())),
        Ok(false) => {}
        Err(_) => {
            let _told = eprintln!(rt; "concrete_calls: the words can't be read");
            return ExitCode::from(1);
        }
    }
    let failed = match first_failed(&rt, rt.alloc()) {
        Ok(None) => return ExitCode::SUCCESS,
        Ok(Some(part)) => part,
        Err(fault) => fault.name(),
    };
    let _told = eprintln!(rt; "concrete_calls: {failed}");
    ExitCode::from(1)
}
