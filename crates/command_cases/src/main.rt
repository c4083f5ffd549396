//! The tests of the commands as data: reads the files of cases that an index lists, carries out each case over a store and a sink in
//! memory, and prints its name where all came as the case says, and else what came. Words after the program's name are those of the
//! cases to try.
//!
//! It is proved to be safe and to end, whatever the files hold. docs/cases.md describes them. The status is 0 where every case came
//! as it says, 1 where one did not, and 2 where a file can't be read or carried out: then the file and the line are named.
#![tactic(auto)]

mod carrying;

use crate::carrying::Commands;
use case_trials::{Trials, try_index};
use std::process::ExitCode;
use std::rt::{Env, Files};
use std::{env, io};

fn main(rt: HostRuntime) -> ExitCode {
    match try_all(&rt) {
        Ok(0) => ExitCode::from(0),
        Ok(_) => ExitCode::from(1),
        Err(_) => ExitCode::from(2),
    }
}

// Tries the cases, prints how many they are, and answers how many came otherwise than they say.
fn try_all<R: AllocGlobal + Env + Files + Print>(rt: &R) -> io::Result<u64> {
    let mut trials = Trials::new(rt.alloc());
    take_names(rt, &mut trials)?;
    try_index(rt, &Commands, &mut trials)?;
    let tried = trials.tried;
    let otherwise = trials.otherwise;
    if otherwise == 0 {
        println!(rt; "{tried} cases")?;
    } else {
        println!(rt; "{tried} cases, {otherwise} came otherwise")?;
    }
    Ok(otherwise)
}

// Takes the words after the program's name.
fn take_names<R: AllocGlobal + Env>(rt: &R, trials: &mut Trials) -> io::Result<()> {
    let mut words = env::args(rt)?;
    let _ = words.next();
    for word in words {
        trials.names.push(word)?;
    }
    Ok(())
}
