//! Reading a file of cases: lines become entries, and entries become cases.
use crate::case::{Case, Step};
use crate::entry::Entry;
use crate::stop::{Stop, refuse};
use std::alloc::Global;

/// What a file of cases holds.
#[derive(Drop)]
pub struct CaseFile<'a> {
    alloc: Global,
    /// The texts that it declares.
    pub texts: Vec<Entry<'a>>,
    pub cases: Vec<Case<'a>>,
}

/// Reads the text of a file of cases.
pub fn read_cases<'a>(alloc: Global, text: &'a str) -> Result<CaseFile<'a>, Stop> {
    let mut entries = Vec::new(alloc);
    read_entries(alloc, text, &mut entries)?;
    let mut read = CaseFile {
        alloc,
        texts: Vec::new(alloc),
        cases: Vec::new(alloc),
    };
    read.take_all(entries)?;
    Ok(read)
}

// Puts the entries of the text to the list.
fn read_entries<'a>(
    alloc: Global,
    text: &'a str,
    entries: &mut Vec<Entry<'a>>,
) -> Result<(), Stop> {
    let mut number: u64 = 0;
    for line in text.split('\n') {
        number = number.saturating_add(1);
        if !line.is_empty() && !line.starts_with('#') {
            read_line(alloc, number, line, entries)?;
        }
    }
    Ok(())
}

// Takes a line that is neither empty nor a comment.
fn read_line<'a>(
    alloc: Global,
    number: u64,
    line: &'a str,
    entries: &mut Vec<Entry<'a>>,
) -> Result<(), Stop> {
    if !is_piece(line) {
        entries.push(Entry::new(alloc, number, line))?;
        return Ok(());
    }
    match entries.last_mut() {
        Some(entry) => {
            entry.pieces.push(line)?;
            Ok(())
        }
        None => refuse(number, "no word has this text"),
    }
}

// Whether the line is a piece of a text.
fn is_piece(line: &str) -> bool {
    matches!(
        line.as_bytes(),
        [b'|' | b'\\' | b'@' | b'*' | b'-' | b'+', ..]
    )
}

impl<'a> CaseFile<'a> {
    fn take_all(&mut self, entries: Vec<Entry<'a>>) -> Result<(), Stop> {
        for entry in entries {
            self.take(entry)?;
        }
        Ok(())
    }

    // Takes the next entry of the file.
    fn take(&mut self, entry: Entry<'a>) -> Result<(), Stop> {
        match entry.word {
            "text" => {
                self.texts.push(entry)?;
                Ok(())
            }
            "case" => self.begin(entry),
            "like" => self.copy_begin(&entry),
            "run" | "call" => self.begin_step(entry),
            _ => match self.cases.last_mut() {
                Some(case) => case.put(entry),
                None => refuse(entry.line, "no case has begun"),
            },
        }
    }

    // A new case.
    fn begin(&mut self, entry: Entry<'a>) -> Result<(), Stop> {
        entry.has_no_text()?;
        entry.name()?;
        self.cases.push(Case::new(self.alloc, entry))?;
        Ok(())
    }

    // A new run of the last case.
    fn begin_step(&mut self, entry: Entry<'a>) -> Result<(), Stop> {
        entry.has_no_text()?;
        let step = Step::new(self.alloc, entry);
        match self.cases.last_mut() {
            Some(case) => {
                case.steps.push(step)?;
                Ok(())
            }
            None => refuse(step.head.line, "no case has begun"),
        }
    }

    // The files of an earlier case of this file lie there too.
    fn copy_begin(&mut self, entry: &Entry<'a>) -> Result<(), Stop> {
        entry.has_no_text()?;
        let mut begin = Vec::new(self.alloc);
        match self.case_of(entry.rest) {
            Some(case) => copy_entries(self.alloc, case.begin.as_slice(), &mut begin)?,
            None => return refuse(entry.line, "no earlier case of this file has this name"),
        }
        self.put_all(begin)
    }

    fn put_all(&mut self, entries: Vec<Entry<'a>>) -> Result<(), Stop> {
        for entry in entries {
            if let Some(case) = self.cases.last_mut() {
                case.put(entry)?;
            }
        }
        Ok(())
    }

    // The case of this name.
    fn case_of(&self, name: &str) -> Option<&Case<'a>> {
        for case in self.cases.iter() {
            if case.head.rest == name {
                return Some(case);
            }
        }
        None
    }
}

// Puts copies of those entries to the list that say a file.
fn copy_entries<'a>(
    alloc: Global,
    from: &[Entry<'a>],
    entries: &mut Vec<Entry<'a>>,
) -> Result<(), Stop> {
    for entry in from {
        if entry.word == "file" {
            copy_entry(alloc, entry, entries)?;
        }
    }
    Ok(())
}

fn copy_entry<'a>(
    alloc: Global,
    entry: &Entry<'a>,
    entries: &mut Vec<Entry<'a>>,
) -> Result<(), Stop> {
    let pieces = Vec::from_slice(alloc, entry.pieces.as_slice())?;
    entries.push(Entry {
        line: entry.line,
        word: entry.word,
        rest: entry.rest,
        pieces,
    })?;
    Ok(())
}
