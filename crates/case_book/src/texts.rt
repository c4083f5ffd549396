//! Texts that are put together piece by piece.
use crate::entry::Entry;
use crate::files::{File, file_of};
use crate::stop::{Stop, refuse};
use std::alloc::{AllocError, Global};

/// A text so far, and the edit of it that is being read.
#[derive(Drop)]
struct Made<'t> {
    alloc: Global,
    line: u64,
    texts: &'t [File],
    bytes: Vec<u8>,
    /// What is looked for, and what comes in its place, each with a line feed too many at its end.
    old: Vec<u8>,
    new: Vec<u8>,
}

/// The text below the entry; one without pieces is empty.
pub fn text_of(alloc: Global, entry: &Entry, texts: &[File]) -> Result<Vec<u8>, Stop> {
    let mut made = Made {
        alloc,
        line: entry.line,
        texts,
        bytes: Vec::new(alloc),
        old: Vec::new(alloc),
        new: Vec::new(alloc),
    };
    made.take_all(entry.pieces.as_slice())?;
    Ok(made.into_bytes())
}

impl<'t> Made<'t> {
    fn into_bytes(self) -> Vec<u8> {
        self.bytes
    }

    fn take_all(&mut self, pieces: &[&str]) -> Result<(), Stop> {
        for piece in pieces {
            self.take(piece)?;
        }
        self.settle()
    }

    // Takes the piece of a line, whose first letter says what it is.
    fn take(&mut self, piece: &str) -> Result<(), Stop> {
        match piece.split_at_checked(1) {
            Some(("-", rest)) => self.take_old(rest),
            Some(("+", rest)) => self.take_new(rest),
            Some((mark, rest)) => {
                self.settle()?;
                self.take_plain(mark, rest)
            }
            None => Ok(()),
        }
    }

    // Takes a piece that adds to the text.
    fn take_plain(&mut self, mark: &str, rest: &str) -> Result<(), Stop> {
        match mark {
            "|" => Ok(put_line(&mut self.bytes, rest)?),
            "\\" => Ok(self.bytes.extend_from_slice(rest.as_bytes())?),
            "@" => self.put_text(1, rest),
            _ => self.take_repeated(rest),
        }
    }

    // A number and the name of a text, which comes so many times.
    fn take_repeated(&mut self, rest: &str) -> Result<(), Stop> {
        match rest.split_once(' ') {
            Some((times, name)) => match times.parse::<u32>() {
                Ok(times) => self.put_text(times, name),
                Err(_) => refuse(self.line, "no number of times"),
            },
            None => refuse(self.line, "no number and name"),
        }
    }

    // A text, so many times.
    fn put_text(&mut self, times: u32, name: &str) -> Result<(), Stop> {
        match file_of(self.texts, name) {
            Some(text) => Ok(put_times(&mut self.bytes, times, text)?),
            None => refuse(self.line, "no text has this name"),
        }
    }

    // A line of what is looked for. After lines of what comes in its place, it begins another edit.
    fn take_old(&mut self, line: &str) -> Result<(), Stop> {
        if !self.new.is_empty() {
            self.settle()?;
        }
        Ok(put_line(&mut self.old, line)?)
    }

    // A line of what comes in the place of what is looked for.
    fn take_new(&mut self, line: &str) -> Result<(), Stop> {
        if self.old.is_empty() {
            return refuse(self.line, "nothing is replaced");
        }
        Ok(put_line(&mut self.new, line)?)
    }

    // Makes the edit that was read, if there is one.
    fn settle(&mut self) -> Result<(), Stop> {
        if self.old.is_empty() {
            return Ok(());
        }
        match place_in(self.bytes.as_slice(), unended(self.old.as_slice())) {
            Some(place) => self.replace(place),
            None => refuse(self.line, "what is replaced is not there"),
        }
    }

    // Replaces what is looked for, which stands at this place.
    fn replace(&mut self, place: usize) -> Result<(), Stop> {
        let mut bytes = Vec::new(self.alloc);
        let old = unended(self.old.as_slice()).len();
        let new = unended(self.new.as_slice());
        put_replaced(&mut bytes, self.bytes.as_slice(), place, old, new)?;
        self.bytes = bytes;
        self.old.clear();
        self.new.clear();
        Ok(())
    }
}

fn put_line(bytes: &mut Vec<u8>, line: &str) -> Result<(), AllocError> {
    bytes.extend_from_slice(line.as_bytes())?;
    bytes.push(b'\n')?;
    Ok(())
}

fn put_times(bytes: &mut Vec<u8>, times: u32, text: &[u8]) -> Result<(), AllocError> {
    for _ in 0..times {
        bytes.extend_from_slice(text)?;
    }
    Ok(())
}

// The bytes without the line feed at their end.
fn unended(bytes: &[u8]) -> &[u8] {
    match bytes.split_last() {
        Some((_, rest)) => rest,
        None => bytes,
    }
}

/// The first place of the part in the bytes, or None where there is none.
pub fn place_in(bytes: &[u8], part: &[u8]) -> Option<usize> {
    for place in 0..bytes.len() {
        if bytes[place..].starts_with(part) {
            return Some(place);
        }
    }
    None
}

// Puts the text with so many bytes at the place replaced; a place behind the end stands for it.
fn put_replaced(
    bytes: &mut Vec<u8>,
    text: &[u8],
    place: usize,
    old: usize,
    new: &[u8],
) -> Result<(), AllocError> {
    let (before, rest) = text.split_at(place.min(text.len()));
    let (_, after) = rest.split_at(old.min(rest.len()));
    bytes.extend_from_slice(before)?;
    bytes.extend_from_slice(new)?;
    bytes.extend_from_slice(after)
}
