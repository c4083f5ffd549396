//! A case: what lies there, and its runs.
use crate::entry::Entry;
use crate::stop::{Stop, refuse};
use std::alloc::Global;

/// A run of a command or a call of what stands below, and what is said of it.
#[derive(Drop)]
pub struct Step<'a> {
    /// `run` or `call`, and the words.
    pub head: Entry<'a>,
    /// What is to fail in it, what must come, and what lies there then.
    pub says: Vec<Entry<'a>>,
}

/// A case of a file of cases.
#[derive(Drop)]
pub struct Case<'a> {
    /// Its line and name.
    pub head: Entry<'a>,
    /// What lies there before its first run, and how the store reads.
    pub begin: Vec<Entry<'a>>,
    pub steps: Vec<Step<'a>>,
}

impl<'a> Step<'a> {
    /// A run of which nothing is said so far.
    pub fn new(alloc: Global, head: Entry<'a>) -> Step<'a> {
        Step {
            head,
            says: Vec::new(alloc),
        }
    }

    /// Whether it is a call of what the commands stand on.
    pub fn is_call(&self) -> bool {
        self.head.word == "call"
    }

    /// Whether the word of an entry among what is said of it begins so.
    pub fn has(&self, word: &str) -> bool {
        for entry in self.says.iter() {
            if entry.word.starts_with(word) {
                return true;
            }
        }
        false
    }

    /// Refuses a run of which no status or no text is said.
    pub fn is_whole(&self) -> Result<(), Stop> {
        if self.has("put") && self.has("status") {
            Ok(())
        } else {
            refuse(self.head.line, "a run without status or without put")
        }
    }
}

impl<'a> Case<'a> {
    /// A case without files and runs.
    pub fn new(alloc: Global, head: Entry<'a>) -> Case<'a> {
        Case {
            head,
            begin: Vec::new(alloc),
            steps: Vec::new(alloc),
        }
    }

    /// Puts an entry to the last run, or to the beginning.
    pub fn put(&mut self, entry: Entry<'a>) -> Result<(), Stop> {
        match self.steps.last_mut() {
            Some(step) => step.says.push(entry)?,
            None => self.begin.push(entry)?,
        }
        Ok(())
    }
}
