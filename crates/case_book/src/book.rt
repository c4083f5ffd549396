//! What was read so far: texts that cases may name, and the names of cases.
use crate::entry::Entry;
use crate::files::{File, copy_file, file_of, put_file};
use crate::reading::CaseFile;
use crate::stop::{Stop, refuse};
use crate::texts::text_of;
use std::alloc::{AllocError, Global};

/// What was read so far.
#[derive(Drop)]
pub struct Book {
    alloc: Global,
    /// The texts that cases may name.
    pub texts: Vec<File>,
    names: Vec<String>,
}

impl Book {
    /// Nothing so far.
    pub fn new(alloc: Global) -> Book {
        Book {
            alloc,
            texts: Vec::new(alloc),
            names: Vec::new(alloc),
        }
    }

    /// Declares the text of a file.
    pub fn declare(&mut self, name: &str, text: &str) -> Result<(), AllocError> {
        copy_file(self.alloc, &mut self.texts, name, text.as_bytes())
    }

    /// Takes the texts and the names of a file of cases. An earlier text or case of the same name is a fault.
    pub fn take(&mut self, file: &CaseFile) -> Result<(), Stop> {
        for entry in file.texts.iter() {
            self.take_text(entry)?;
        }
        for case in file.cases.iter() {
            self.take_name(&case.head)?;
        }
        Ok(())
    }

    fn take_text(&mut self, entry: &Entry) -> Result<(), Stop> {
        let name = entry.name()?;
        if file_of(self.texts.as_slice(), name).is_some() {
            return refuse(entry.line, "an earlier text has this name");
        }
        let text = text_of(self.alloc, entry, self.texts.as_slice())?;
        put_file(self.alloc, &mut self.texts, name, text)?;
        Ok(())
    }

    fn take_name(&mut self, head: &Entry) -> Result<(), Stop> {
        let name = head.name()?;
        for known in self.names.iter() {
            if known.as_str() == name {
                return refuse(head.line, "an earlier case has this name");
            }
        }
        self.names.push(String::from_str(self.alloc, name)?)?;
        Ok(())
    }
}
