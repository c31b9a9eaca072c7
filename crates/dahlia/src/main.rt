//! The program: the words it is called with, the system's files, the standard output and the engine
//! of nets, put round the top call of `dh_app`, whose contract says what the program does. The files, the
//! output and the exit code are those of `dh_system`. docs/ARCHITECTURE.md has the map.
#![tactic(auto)]

use dh_app::{NetEngine, run};
use dh_base::{NoMemory, Status};
use dh_system::{RealFiles, StdSink, exit_code};
use std::alloc::Global;
use std::io::ErrorKind;
use std::process::ExitCode;
use std::rt::{Env, Files};
use std::{env, io};

fn main(rt: HostRuntime) -> ExitCode {
    exit_code(answer(&rt))
}

/// Does the job that the words name, and says how it ended.
fn answer<R: Env + Files + Print + AllocGlobal>(rt: &R) -> Status {
    let Ok(words) = words_after_name(rt) else {
        return Status::NoMemory;
    };
    keep_what_lists_give_back(rt.alloc());
    let mut files = RealFiles::new(rt);
    let mut out = StdSink::new(io::writer(rt));
    let mut engine = NetEngine::new(rt.alloc());
    run(
        rt.alloc(),
        words.as_slice(),
        &mut files,
        &mut out,
        &mut engine,
    )
}

/// A little less than the greatest threshold of malloc, in bytes: the list and its header lie below it.
const LONGEST_KEPT: usize = 32 * 1024 * 1024 - 64 * 1024;

/// Has malloc keep what lists give back, so that later lists are made of pages that were touched before.
/// Malloc of the GNU C library asks the system for each list above a threshold and gives its pages back
/// behind it. A list that was given back raises the threshold to its length, so one is, untouched. That
/// there is no room for it changes nothing.
fn keep_what_lists_give_back(alloc: Global) {
    let _longest: Result<Vec<u8>, _> = Vec::with_capacity(alloc, LONGEST_KEPT);
}

/// The words that follow the program's name, or none where one of them is not UTF-8: such words
/// name no job, and neither do none.
fn words_after_name<R: Env + AllocGlobal>(rt: &R) -> Result<Vec<String>, NoMemory> {
    let mut words = match env::args(rt) {
        Ok(words) => words,
        Err(error) if error.kind() == ErrorKind::OutOfMemory => return Err(NoMemory),
        Err(_) => return Ok(Vec::new(rt.alloc())),
    };
    words.next();
    Ok(words.collect(rt.alloc())?)
}
