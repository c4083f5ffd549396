//! The program `stn`: its words, the files of the operating system and standard output, and an exit
//! status. All of its work is `stn_top::run`.
//!
//! It is proved to be safe and to end on every input. No clause says that it hands on its words and the
//! status that `run` answers: a run of it shows that.
#![tactic(auto)]

use std::alloc::{AllocError, AllocFailed};
use std::env;
use std::io::{self, ErrorKind};
use std::process::ExitCode;
use std::rt::{Env, Files};
use stn_edge::{FileShelf, StdSink};
use stn_top::run;

/// The status where memory for the words is not found.
const NO_MEMORY: u8 = 9;

fn main(rt: HostRuntime) -> ExitCode {
    ExitCode::from(status(&rt))
}

// The exit status of the run on the program's words. Where a word is not UTF-8 there are none.
fn status<R: AllocGlobal + Env + Files + Print>(rt: &R) -> u8 {
    match env::args(rt) {
        Ok(args) => match run_on(rt, args) {
            Ok(status) => status,
            Err(_) => NO_MEMORY,
        },
        Err(error) if error.kind() == ErrorKind::OutOfMemory => NO_MEMORY,
        Err(_) => run_words(rt, &[]),
    }
}

// Runs on the words after the program's name.
fn run_on<R: AllocGlobal + Files + Print>(rt: &R, args: env::Args) -> Result<u8, AllocError> {
    let all: Vec<String> = args.collect(rt.alloc())?;
    let mut words = Vec::new(rt.alloc());
    for word in all.iter().skip(1) {
        words.push(word.as_str())?;
    }
    Ok(run_words(rt, words.as_slice()))
}

fn run_words<R: AllocGlobal + Files + Print>(rt: &R, words: &[&str]) -> u8 {
    let mut files = FileShelf::new(rt);
    let mut out = StdSink::new(rt);
    run(rt.alloc(), words, &mut files, &mut out)
}
