//! What came of a run, against what its case says.
use crate::came::Came;
use crate::case::Step;
use crate::entry::Entry;
use crate::files::{File, file_of};
use crate::showing::show_text;
use crate::stop::{Stop, refuse};
use crate::texts::{place_in, text_of};
use std::alloc::{AllocError, Global};

/// A run that is compared with what its case says.
#[derive(Clone, Copy)]
pub struct Run<'r> {
    pub alloc: Global,
    /// Texts by name.
    pub texts: &'r [File],
    /// The files before it.
    pub before: &'r [File],
    pub came: &'r Came,
}

impl<'r> Run<'r> {
    /// Writes a line for each thing that came otherwise than the step says.
    pub fn compare(&self, step: &Step, otherwise: &mut String) -> Result<(), Stop> {
        step.is_whole()?;
        for entry in step.says.iter() {
            if !self.holds(entry)? {
                self.tell(entry, otherwise)?;
            }
        }
        self.compare_calls(step, otherwise)?;
        self.compare_files(step, otherwise)?;
        Ok(())
    }

    // Whether what the entry says holds.
    fn holds(&self, entry: &Entry) -> Result<bool, Stop> {
        match entry.word {
            "put" | "put-begins" | "put-ends" | "put-holds" => {
                if !entry.rest.is_empty() {
                    return refuse(entry.line, "the text begins on the next line");
                }
                self.holds_text(entry)
            }
            "left" | "left-begun" => self.holds_text(entry),
            "file" => Ok(true),
            _ => {
                entry.has_no_text()?;
                self.holds_plainly(entry)
            }
        }
    }

    // Whether the text below the entry is as it says.
    fn holds_text(&self, entry: &Entry) -> Result<bool, Stop> {
        let wanted = text_of(self.alloc, entry, self.texts)?;
        Ok(self.is_text(entry, wanted.as_slice()))
    }

    fn is_text(&self, entry: &Entry, wanted: &[u8]) -> bool {
        let text = self.came.text.as_slice();
        match entry.word {
            "put" => text == wanted,
            "put-begins" => text.starts_with(wanted),
            "put-ends" => text.ends_with(wanted),
            "put-holds" => place_in(text, wanted).is_some(),
            _ => self.is_left(entry, wanted),
        }
    }

    // Whether the text, or a first part of it, lies there afterwards.
    fn is_left(&self, entry: &Entry, wanted: &[u8]) -> bool {
        match file_of(self.came.files.as_slice(), entry.rest) {
            Some(bytes) if entry.word == "left" => bytes == wanted,
            Some(bytes) => wanted.starts_with(bytes),
            None => false,
        }
    }

    // Whether what an entry without a text says holds.
    fn holds_plainly(&self, entry: &Entry) -> Result<bool, Stop> {
        let came = self.came;
        match entry.word {
            "status" => Ok(is_among(came.status as u64, entry.rest)),
            "put-lines" => Ok(is_number(line_feeds(came.text.as_slice()), entry.rest)),
            "put-like" => Ok(file_of(self.before, entry.rest) == Some(came.text.as_slice())),
            "read" => Ok(came.read.as_str() == entry.rest),
            "faults" => Ok(came.faults.as_str() == entry.rest),
            "left-some" => Ok(file_of(came.files.as_slice(), entry.rest).is_some()),
            "left-nothing" => Ok(file_of(came.files.as_slice(), entry.rest).is_none()),
            "keep" | "store-fails" | "sink-fails" => Ok(true),
            _ => refuse(entry.line, "no word that stands behind a run"),
        }
    }

    // Writes what came otherwise than the entry says.
    fn tell(&self, entry: &Entry, otherwise: &mut String) -> Result<(), AllocError> {
        let (line, word, rest) = (entry.line, entry.word, entry.rest);
        writeln!(otherwise, "line {line}: not {word} {rest}, but")?;
        match word {
            "status" => {
                let status = self.came.status;
                writeln!(otherwise, "    {status}")
            }
            "read" => tell_words(self.came.read.as_str(), otherwise),
            "faults" => tell_words(self.came.faults.as_str(), otherwise),
            "left" | "left-begun" | "left-some" | "left-nothing" => self.tell_file(rest, otherwise),
            _ => show_text(self.alloc, self.came.text.as_slice(), otherwise),
        }
    }

    // Writes what lies under the name afterwards.
    fn tell_file(&self, name: &str, otherwise: &mut String) -> Result<(), AllocError> {
        match file_of(self.came.files.as_slice(), name) {
            Some(bytes) => show_text(self.alloc, bytes, otherwise),
            None => tell_words("no file", otherwise),
        }
    }

    // The faults of which nothing is said, and whether the text was put at once.
    fn compare_calls(&self, step: &Step, otherwise: &mut String) -> Result<(), AllocError> {
        let line = step.head.line;
        if !step.has("faults") && self.came.faults.as_str() != "0 0 0" {
            writeln!(otherwise, "line {line}: there were faults")?;
            tell_words(self.came.faults.as_str(), otherwise)?;
        }
        if self.came.puts > 1 {
            writeln!(otherwise, "line {line}: the text was not put at once")?;
        }
        Ok(())
    }

    // The files that the step does not name are as before, and no other is there.
    fn compare_files(&self, step: &Step, otherwise: &mut String) -> Result<(), AllocError> {
        for file in self.before {
            self.compare_file(step, file.name.as_str(), otherwise)?;
        }
        for file in self.came.files.iter() {
            if file_of(self.before, file.name.as_str()).is_none() {
                self.compare_file(step, file.name.as_str(), otherwise)?;
            }
        }
        Ok(())
    }

    // The file of this name is as before, or the step names it.
    fn compare_file(
        &self,
        step: &Step,
        name: &str,
        otherwise: &mut String,
    ) -> Result<(), AllocError> {
        let after = file_of(self.came.files.as_slice(), name);
        if file_of(self.before, name) == after || is_named(step, name) {
            return Ok(());
        }
        let line = step.head.line;
        writeln!(otherwise, "line {line}: {name} is not as before, but")?;
        self.tell_file(name, otherwise)
    }
}

// Whether the step says what becomes of the file of this name.
fn is_named(step: &Step, name: &str) -> bool {
    for entry in step.says.iter() {
        if entry.rest == name && entry.word.starts_with("left") {
            return true;
        }
    }
    false
}

// Whether the word is this number.
fn is_number(number: u64, word: &str) -> bool {
    match word.parse::<u64>() {
        Ok(read) => read == number,
        Err(_) => false,
    }
}

// Whether one of the words is this number.
fn is_among(number: u64, words: &str) -> bool {
    for word in words.split(' ') {
        if is_number(number, word) {
            return true;
        }
    }
    false
}

fn line_feeds(text: &[u8]) -> u64 {
    let mut count: u64 = 0;
    for byte in text {
        if *byte == b'\n' {
            count = count.saturating_add(1);
        }
    }
    count
}

fn tell_words(words: &str, otherwise: &mut String) -> Result<(), AllocError> {
    writeln!(otherwise, "    {words}")
}
