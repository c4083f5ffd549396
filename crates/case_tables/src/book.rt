//! The cases of a file: the name and the kind of each, its steps, and what they must print.
use crate::sheet::Stop;
use crate::step::Step;
use std::alloc::{AllocError, Global};

/// A case of a file of cases, from its line `== KIND NAME` on.
#[derive(Drop)]
pub struct Case<'a> {
    /// The number of its first line, from 1 on.
    pub line: u32,
    /// Its kind, by which a program knows what its steps are.
    pub kind: &'a str,
    /// Its name, which is printed.
    pub name: &'a str,
    /// Its steps, in order.
    pub steps: Vec<Step<'a>>,
    /// What they must print.
    pub wanted: String,
}

/// The cases of a text, in its order, or the first line that is not of the form.
pub fn cases_of<'a>(alloc: Global, text: &'a str) -> Result<Vec<Case<'a>>, Stop> {
    let mut cases = Vec::new(alloc);
    let mut number = 0u32;
    for line in text.lines() {
        number = number.saturating_add(1);
        match take_line(alloc, &mut cases, number, line) {
            Ok(true) => {}
            Ok(false) => return Err(Stop::Line(number)),
            Err(_) => return Err(Stop::Memory),
        }
    }
    Ok(cases)
}

// Takes a line; whether it is of the form.
fn take_line<'a>(
    alloc: Global,
    cases: &mut Vec<Case<'a>>,
    number: u32,
    line: &'a str,
) -> Result<bool, AllocError> {
    if line.is_empty() || line.starts_with('#') {
        return Ok(true);
    }
    match line.strip_prefix("== ") {
        Some(head) => begin(alloc, cases, number, head),
        None => match cases.last_mut() {
            Some(case) => case.take(alloc, number, line),
            None => Ok(false),
        },
    }
}

// Begins the case of a head line without its `== `.
fn begin<'a>(
    alloc: Global,
    cases: &mut Vec<Case<'a>>,
    line: u32,
    head: &'a str,
) -> Result<bool, AllocError> {
    match head.split_once(' ') {
        Some((kind, name)) => {
            cases.push(begun(alloc, line, kind, name))?;
            Ok(true)
        }
        None => Ok(false),
    }
}

fn begun<'a>(alloc: Global, line: u32, kind: &'a str, name: &'a str) -> Case<'a> {
    Case {
        line,
        kind,
        name,
        steps: Vec::new(alloc),
        wanted: String::new(alloc),
    }
}

impl<'a> Case<'a> {
    // Takes a line behind its head; whether it is of the form.
    fn take(&mut self, alloc: Global, number: u32, line: &'a str) -> Result<bool, AllocError> {
        match line.split_at_checked(1) {
            Some(("=", answer)) => self.take_answer(answer),
            Some(("|", text)) => self.take_text(text, 1),
            Some(("*", text)) => self.take_repeated(text),
            _ => {
                self.steps.push(Step::new(alloc, number, line))?;
                Ok(true)
            }
        }
    }

    // Takes a line that must be printed, below a step: what follows `= `, or nothing.
    fn take_answer(&mut self, answer: &str) -> Result<bool, AllocError> {
        if self.steps.is_empty() {
            return Ok(false);
        }
        match answer.strip_prefix(' ') {
            Some(text) => self.wanted.push_str(text)?,
            None if answer.is_empty() => {}
            None => return Ok(false),
        }
        self.wanted.push_str("\n")?;
        Ok(true)
    }

    // Takes text that stands so many times below the last step.
    fn take_text(&mut self, text: &str, times: u32) -> Result<bool, AllocError> {
        match self.steps.last_mut() {
            None => Ok(false),
            Some(step) => {
                step.take_text(text, times)?;
                Ok(true)
            }
        }
    }

    // Takes `COUNT|TEXT`, the text so many times.
    fn take_repeated(&mut self, line: &str) -> Result<bool, AllocError> {
        match line.split_once('|') {
            None => Ok(false),
            Some((count, text)) => match count.parse::<u32>() {
                Ok(times) => self.take_text(text, times),
                Err(_) => Ok(false),
            },
        }
    }
}
