//! Judges the cases of the files that the file `index` lists.
use crate::book::{Case, cases_of};
use crate::sheet::{Sheet, Stop};
use crate::tried::Tried;
use std::alloc::Global;
use std::process::ExitCode;
use std::rt::Files;
use std::{fs, io};

/// What the steps of a program's cases print, by the kind of a case.
pub trait Kinds {
    /// Prints on the sheet what the steps of a case give, by its kind, or refuses a step. It begins each step on the sheet.
    fn answer<'a>(&self, alloc: Global, case: &'a Case<'a>, sheet: &mut Sheet<'a>) -> Tried;
}

/// How many cases are as they must be, and how many are not.
#[derive(Clone, Copy)]
struct Count {
    right: u32,
    wrong: u32,
}

/// Judges the cases of the files that the file `index` lists, and prints a line for each, and last the count.
///
/// The status is 0 where every case is as it must be, 1 where one is not, and 2 where a file can't be read or is not of the form:
/// then the file and the line are named.
pub fn judge<R: AllocGlobal + Files + Print, K: Kinds>(rt: &R, kinds: &K) -> ExitCode {
    match judge_files(rt, kinds) {
        Ok(count) if count.wrong == 0 => ExitCode::from(0),
        Ok(_) => ExitCode::from(1),
        Err(_) => ExitCode::from(2),
    }
}

fn judge_files<R: AllocGlobal + Files + Print, K: Kinds>(rt: &R, kinds: &K) -> io::Result<Count> {
    let mut count = Count { right: 0, wrong: 0 };
    let index = read_file(rt, "index")?;
    for name in index.lines() {
        if !name.is_empty() && !name.starts_with('#') {
            judge_file(rt, kinds, name, &mut count)?;
        }
    }
    put_count(rt, count)?;
    Ok(count)
}

// The text of a file, or that it can't be read.
fn read_file<R: AllocGlobal + Files + Print>(rt: &R, name: &str) -> io::Result<String> {
    let read = fs::read_to_string(rt, name);
    if read.is_err() {
        println!(rt; "{name}: can't be read")?;
    }
    read
}

fn put_count<R: Print>(rt: &R, count: Count) -> io::Result<()> {
    let right = count.right;
    let wrong = count.wrong;
    println!(rt; "{right} right, {wrong} wrong")
}

fn judge_file<R: AllocGlobal + Files + Print, K: Kinds>(
    rt: &R,
    kinds: &K,
    name: &str,
    count: &mut Count,
) -> io::Result<()> {
    let text = read_file(rt, name)?;
    match cases_of(rt.alloc(), text.as_str()) {
        Ok(cases) => judge_cases(rt, kinds, name, cases.as_slice(), count),
        Err(stop) => give_up(rt, name, stop),
    }
}

fn judge_cases<R: AllocGlobal + Print, K: Kinds>(
    rt: &R,
    kinds: &K,
    name: &str,
    cases: &[Case],
    count: &mut Count,
) -> io::Result<()> {
    for case in cases {
        judge_case(rt, kinds, name, case, count)?;
    }
    Ok(())
}

fn judge_case<R: AllocGlobal + Print, K: Kinds>(
    rt: &R,
    kinds: &K,
    file: &str,
    case: &Case,
    count: &mut Count,
) -> io::Result<()> {
    let sheet = answered(rt.alloc(), kinds, case);
    match sheet.stop() {
        Some(stop) => give_up(rt, file, stop),
        None => compare(rt, file, case, sheet.printed(), count),
    }
}

// The sheet of a case, with what its steps print. One that must print nothing is refused.
fn answered<'a, K: Kinds>(alloc: Global, kinds: &K, case: &'a Case<'a>) -> Sheet<'a> {
    let mut sheet = Sheet::new(alloc, case.line);
    if case.wanted.is_empty() {
        sheet.refuse();
    } else {
        answer(alloc, kinds, case, &mut sheet);
    }
    sheet
}

fn answer<'a, K: Kinds>(alloc: Global, kinds: &K, case: &'a Case<'a>, sheet: &mut Sheet<'a>) {
    match kinds.answer(alloc, case, sheet) {
        Ok(()) => sheet.end(),
        Err(_) => sheet.lacks_memory(),
    }
}

// Compares what a case printed with what it must, counts it, and tells it.
fn compare<R: Print>(
    rt: &R,
    file: &str,
    case: &Case,
    came: &str,
    count: &mut Count,
) -> io::Result<()> {
    let name = case.name;
    if came == case.wanted.as_str() {
        count.right = count.right.saturating_add(1);
        println!(rt; "{name} ok")
    } else {
        count.wrong = count.wrong.saturating_add(1);
        tell(rt, file, case, came)
    }
}

// Tells what must come of a case, and what came.
fn tell<R: Print>(rt: &R, file: &str, case: &Case, came: &str) -> io::Result<()> {
    let name = case.name;
    let line = case.line;
    let wanted = case.wanted.as_str();
    println!(rt; "WRONG {name} ({file}, line {line}): wanted\n{wanted}and came\n{came}")
}

// Names the file and the line that can't be read.
fn give_up<R: Print>(rt: &R, file: &str, stop: Stop) -> io::Result<()> {
    match stop {
        Stop::Line(line) => println!(rt; "{file}, line {line}: not of the form")?,
        Stop::Memory => println!(rt; "{file}: no memory")?,
    }
    Err(io::Error::from(io::ErrorKind::InvalidData))
}
