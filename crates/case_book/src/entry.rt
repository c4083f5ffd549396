//! An entry of a file of cases: a word, what follows it on its line, and the pieces of a text on the lines below.
use crate::stop::{Stop, refuse};
use std::alloc::Global;

/// An entry of a file of cases.
#[derive(Drop)]
pub struct Entry<'a> {
    /// The number of its line, from 1 on.
    pub line: u64,
    pub word: &'a str,
    /// What follows the word and a blank.
    pub rest: &'a str,
    /// The lines of its text, each with its mark.
    pub pieces: Vec<&'a str>,
}

impl<'a> Entry<'a> {
    /// The entry that begins on this line.
    pub fn new(alloc: Global, line: u64, text: &'a str) -> Entry<'a> {
        let (word, rest) = text.split_once(' ').unwrap_or((text, ""));
        Entry {
            line,
            word,
            rest,
            pieces: Vec::new(alloc),
        }
    }

    /// Refuses a text below a word that has none.
    pub fn has_no_text(&self) -> Result<(), Stop> {
        if self.pieces.is_empty() {
            Ok(())
        } else {
            refuse(self.line, "this word has no text")
        }
    }

    /// The one name that follows the word.
    pub fn name(&self) -> Result<&'a str, Stop> {
        if self.rest.is_empty() || self.rest.contains(' ') {
            return refuse(self.line, "no single name");
        }
        Ok(self.rest)
    }

    /// The number that a word of this entry is.
    pub fn number(&self, word: &str) -> Result<u64, Stop> {
        match word.parse::<u64>() {
            Ok(number) => Ok(number),
            Err(_) => refuse(self.line, "no number"),
        }
    }

    /// The two numbers that follow the word.
    pub fn two_numbers(&self) -> Result<(u64, u64), Stop> {
        match self.rest.split_once(' ') {
            Some((first, second)) => Ok((self.number(first)?, self.number(second)?)),
            None => refuse(self.line, "no two numbers"),
        }
    }

    /// Puts the words that follow the word, with single blanks between, to the list; `""` is the empty word.
    pub fn put_words(&self, words: &mut Vec<&'a str>) -> Result<(), Stop> {
        if self.rest.is_empty() {
            return Ok(());
        }
        for word in self.rest.split(' ') {
            words.push(if word == "\"\"" { "" } else { word })?;
        }
        Ok(())
    }
}
