//! Trying the cases of a file: the runs of each in turn, and what came otherwise.
use crate::carrier::Carrier;
use crate::index::give_up;
use case_book::{Book, Case, CaseFile, File, Step, Stop, Trial, Ways, read_cases};
use std::alloc::Global;
use std::io;

/// What is tried, and what came of it so far.
#[derive(Drop)]
pub struct Trials {
    /// The names of the cases that are tried; none where all are.
    pub names: Vec<String>,
    pub book: Book,
    pub tried: u64,
    /// How many came otherwise than they say.
    pub otherwise: u64,
}

impl Trials {
    /// Nothing so far.
    pub fn new(alloc: Global) -> Trials {
        Trials {
            names: Vec::new(alloc),
            book: Book::new(alloc),
            tried: 0,
            otherwise: 0,
        }
    }

    // Whether the case is tried.
    fn want(&self, case: &Case) -> bool {
        if self.names.is_empty() {
            return true;
        }
        for name in self.names.iter() {
            if name.as_str() == case.head.rest {
                return true;
            }
        }
        false
    }
}

/// Tries the cases of a file, and prints a line for each that came as it says, and else what came.
pub fn try_file<R: AllocGlobal + Print, C: Carrier>(
    rt: &R,
    carrier: &C,
    trials: &mut Trials,
    name: &str,
    text: &str,
) -> io::Result<()> {
    match read_cases(rt.alloc(), text) {
        Ok(file) => try_read(rt, carrier, trials, name, &file),
        Err(stop) => give_up(rt, name, stop),
    }
}

// Tries the cases of a file that was read.
fn try_read<R: AllocGlobal + Print, C: Carrier>(
    rt: &R,
    carrier: &C,
    trials: &mut Trials,
    name: &str,
    file: &CaseFile,
) -> io::Result<()> {
    if let Err(stop) = trials.book.take(file) {
        return give_up(rt, name, stop);
    }
    for case in file.cases.iter() {
        if trials.want(case) {
            try_case(rt, carrier, trials, name, case)?;
        }
    }
    Ok(())
}

// Tries a case.
fn try_case<R: AllocGlobal + Print, C: Carrier>(
    rt: &R,
    carrier: &C,
    trials: &mut Trials,
    file: &str,
    case: &Case,
) -> io::Result<()> {
    match otherwise(rt.alloc(), carrier, case, trials.book.texts.as_slice()) {
        Ok(lines) => {
            count_case(trials, lines.is_empty());
            tell(rt, file, case.head.rest, lines.as_str())
        }
        Err(stop) => give_up(rt, file, stop),
    }
}

fn count_case(trials: &mut Trials, is_well: bool) {
    trials.tried = trials.tried.saturating_add(1);
    if !is_well {
        trials.otherwise = trials.otherwise.saturating_add(1);
    }
}

// Prints that the case came as it says, or what came otherwise.
fn tell<R: Print>(rt: &R, file: &str, name: &str, lines: &str) -> io::Result<()> {
    if lines.is_empty() {
        println!(rt; "{name} ok")
    } else {
        println!(rt; "{name} of {file} came otherwise:\n{lines}")
    }
}

// A line for each thing that came otherwise than the case says.
fn otherwise<C: Carrier>(
    alloc: Global,
    carrier: &C,
    case: &Case,
    texts: &[File],
) -> Result<String, Stop> {
    let ways = Ways::of(case)?;
    let mut trial = Trial::new(alloc, texts);
    trial.begin(case)?;
    for step in case.steps.iter() {
        try_step(alloc, carrier, ways, step, &mut trial)?;
    }
    Ok(trial.into_otherwise())
}

fn try_step<C: Carrier>(
    alloc: Global,
    carrier: &C,
    ways: Ways,
    step: &Step,
    trial: &mut Trial,
) -> Result<(), Stop> {
    let mut came = carrier.carry_out(alloc, ways, step, trial.files.as_slice())?;
    trial.end(step, &mut came)
}
