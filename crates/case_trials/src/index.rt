//! Reading the index, and the files that it lists.
use crate::carrier::Carrier;
use crate::trying::{Trials, try_file};
use case_book::Stop;
use std::fs;
use std::io::{self, ErrorKind};
use std::rt::Files;

/// The file that lists the others.
const INDEX: &str = "index";

/// Reads what each line of the index names, and tries its cases. Where a file can't be read, or says what no case can say, prints its
/// name, the line and why, and answers with an error.
pub fn try_index<R: AllocGlobal + Files + Print, C: Carrier>(
    rt: &R,
    carrier: &C,
    trials: &mut Trials,
) -> io::Result<()> {
    let index = read_text(rt, INDEX)?;
    let mut number: u64 = 0;
    for line in index.as_str().split('\n') {
        number = number.saturating_add(1);
        if !line.is_empty() && !line.starts_with('#') {
            try_line(rt, carrier, trials, number, line)?;
        }
    }
    Ok(())
}

// Reads what a line of the index names.
fn try_line<R: AllocGlobal + Files + Print, C: Carrier>(
    rt: &R,
    carrier: &C,
    trials: &mut Trials,
    number: u64,
    line: &str,
) -> io::Result<()> {
    match line.split_once(' ') {
        Some(("text", name)) => declare(rt, trials, name),
        Some(("cases", name)) => try_cases(rt, carrier, trials, name),
        _ => give_up(rt, INDEX, Stop::Line(number, "neither a text nor cases")),
    }
}

// Declares a file as a text.
fn declare<R: AllocGlobal + Files + Print>(
    rt: &R,
    trials: &mut Trials,
    name: &str,
) -> io::Result<()> {
    let text = read_text(rt, name)?;
    trials.book.declare(name, text.as_str())?;
    Ok(())
}

// Tries the cases of a file.
fn try_cases<R: AllocGlobal + Files + Print, C: Carrier>(
    rt: &R,
    carrier: &C,
    trials: &mut Trials,
    name: &str,
) -> io::Result<()> {
    let text = read_text(rt, name)?;
    try_file(rt, carrier, trials, name, text.as_str())
}

// The text of the file. Where it can't be read, a line says so.
fn read_text<R: AllocGlobal + Files + Print>(rt: &R, name: &str) -> io::Result<String> {
    match fs::read_to_string(rt, name) {
        Ok(text) => Ok(text),
        Err(error) => {
            println!(rt; "{name} can't be read")?;
            Err(error)
        }
    }
}

/// Says why the file can't be read or carried out, and answers with an error.
pub fn give_up<R: Print>(rt: &R, name: &str, stop: Stop) -> io::Result<()> {
    match stop {
        Stop::Line(line, what) => println!(rt; "{name} line {line}: {what}")?,
        Stop::Memory => println!(rt; "{name}: no memory")?,
    }
    Err(io::Error::from(ErrorKind::InvalidData))
}
