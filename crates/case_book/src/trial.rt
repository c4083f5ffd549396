//! A case that is being tried.
use crate::came::Came;
use crate::case::{Case, Step};
use crate::entry::Entry;
use crate::files::{File, copy_file, put_file};
use crate::said::Run;
use crate::stop::{Stop, refuse};
use crate::texts::text_of;
use std::alloc::Global;
use std::mem::swap;

/// A case that is being tried.
#[derive(Drop)]
pub struct Trial<'t> {
    alloc: Global,
    texts: &'t [File],
    /// What lies there by now.
    pub files: Vec<File>,
    /// A line for each thing that came otherwise so far.
    otherwise: String,
}

impl<'t> Trial<'t> {
    /// A trial over these texts, in which nothing lies there yet.
    pub fn new(alloc: Global, texts: &'t [File]) -> Trial<'t> {
        Trial {
            alloc,
            texts,
            files: Vec::new(alloc),
            otherwise: String::new(alloc),
        }
    }

    /// A line for each thing that came otherwise.
    pub fn into_otherwise(self) -> String {
        self.otherwise
    }

    /// Lays the files of the case there. A case without a run is refused.
    pub fn begin(&mut self, case: &Case) -> Result<(), Stop> {
        if case.steps.is_empty() {
            return refuse(case.head.line, "a case without a run");
        }
        self.lay_all(case.begin.as_slice())
    }

    /// Compares what came of the step with what it says, and lays there what lies there before the next.
    pub fn end(&mut self, step: &Step, came: &mut Came) -> Result<(), Stop> {
        let run = Run {
            alloc: self.alloc,
            texts: self.texts,
            before: self.files.as_slice(),
            came,
        };
        run.compare(step, &mut self.otherwise)?;
        swap(&mut self.files, &mut came.files);
        self.keep(step, came.text.as_slice())?;
        self.lay_all(step.says.as_slice())
    }

    // Keeps what was put as a file, where the step says so.
    fn keep(&mut self, step: &Step, text: &[u8]) -> Result<(), Stop> {
        for entry in step.says.iter() {
            if entry.word == "keep" {
                copy_file(self.alloc, &mut self.files, entry.name()?, text)?;
            }
        }
        Ok(())
    }

    // Lays there the files among these entries.
    fn lay_all(&mut self, entries: &[Entry]) -> Result<(), Stop> {
        for entry in entries {
            if entry.word == "file" {
                self.lay(entry)?;
            }
        }
        Ok(())
    }

    fn lay(&mut self, entry: &Entry) -> Result<(), Stop> {
        let name = entry.name()?;
        let bytes = text_of(self.alloc, entry, self.texts)?;
        put_file(self.alloc, &mut self.files, name, bytes)?;
        Ok(())
    }
}
