//! The sheet of a case: the words of its present step that are not read yet, and what was printed so far.
use crate::step::Step;
use crate::tried::Tried;
use std::alloc::Global;
use std::fmt::Display;
use std::str::FromStr;

/// Why a case, or a file of cases, was not judged.
#[derive(Clone, Copy, Debug, PartialEq, Eq)]
pub enum Stop {
    /// The line of this number is not of the form, or asks for what is not there.
    Line(u32),
    /// No memory was found.
    Memory,
}

/// Gives the words of a step one by one, and takes what is printed.
///
/// A word that is not of the form, and memory that is not found, are noted here, so that no call answers an error: the first of
/// them is kept, and the case is then not judged. What a call gives in the place of such a word is 0 or empty.
#[derive(Drop)]
pub struct Sheet<'a> {
    line: u32,
    words: Option<&'a str>,
    text: &'a str,
    printed: String,
    stop: Option<Stop>,
}

impl<'a> Sheet<'a> {
    /// A sheet on which nothing is printed, of a case that begins in this line.
    pub fn new(alloc: Global, line: u32) -> Sheet<'a> {
        Sheet {
            line,
            words: None,
            text: "",
            printed: String::new(alloc),
            stop: None,
        }
    }

    /// Begins a step, behind its first word. The words of the step before must all be read.
    pub fn begin(&mut self, step: &'a Step<'a>) {
        self.end();
        self.line = step.line;
        self.words = step.words;
        self.text = step.text.as_str();
    }

    /// Notes that the present step is not of the form where it has words that were not read.
    pub fn end(&mut self) {
        if self.words.is_some() {
            self.refuse();
        }
    }

    /// Notes that the present step is not of the form.
    pub fn refuse(&mut self) {
        if self.stop.is_none() {
            self.stop = Some(Stop::Line(self.line));
        }
    }

    /// What comes of a step that is not of the form, which is noted.
    pub fn refused(&mut self) -> Tried {
        self.refuse();
        Ok(())
    }

    /// Notes that no memory was found.
    pub fn lacks_memory(&mut self) {
        if self.stop.is_none() {
            self.stop = Some(Stop::Memory);
        }
    }

    /// What was noted first.
    pub fn stop(&self) -> Option<Stop> {
        self.stop
    }

    /// What was printed.
    pub fn printed(&self) -> &str {
        self.printed.as_str()
    }

    /// The text below the step.
    pub fn text(&self) -> &'a str {
        self.text
    }

    /// The text below the step, as bytes.
    pub fn bytes(&self) -> &'a [u8] {
        self.text.as_bytes()
    }

    /// The next word; an empty one, which is refused, where there is none.
    pub fn word(&mut self) -> &'a str {
        match self.words {
            None => {
                self.refuse();
                ""
            }
            Some(words) => self.word_of(words),
        }
    }

    fn word_of(&mut self, words: &'a str) -> &'a str {
        match words.split_once(' ') {
            Some((word, rest)) => {
                self.words = Some(rest);
                word
            }
            None => {
                self.words = None;
                words
            }
        }
    }

    /// How many words are not read yet.
    pub fn words_left(&self) -> usize {
        match self.words {
            None => 0,
            Some(words) => count_words(words),
        }
    }

    /// Reads the word `|`.
    pub fn bar(&mut self) {
        if self.word() != "|" {
            self.refuse();
        }
    }

    /// The number that the next word is.
    pub fn number<N: FromStr + Default>(&mut self) -> N
    where
        N::Err: Drop,
    {
        let word = self.word();
        self.read(word)
    }

    /// The number that a word is.
    pub fn read<N: FromStr + Default>(&mut self, word: &str) -> N
    where
        N::Err: Drop,
    {
        match word.parse::<N>() {
            Ok(number) => number,
            Err(_) => {
                self.refuse();
                N::default()
            }
        }
    }

    /// Prints a text.
    pub fn put(&mut self, text: &str) {
        if self.printed.push_str(text).is_err() {
            self.lacks_memory();
        }
    }

    /// Prints a value.
    pub fn show<T: Display + Drop>(&mut self, value: T) {
        if write!(self.printed, "{value}").is_err() {
            self.lacks_memory();
        }
    }

    /// Prints a text and ends the line.
    pub fn line(&mut self, text: &str) {
        self.put(text);
        self.put("\n");
    }

    /// Prints a value and ends the line; `none` where there is no value.
    pub fn show_line<T: Display + Drop>(&mut self, value: Option<T>) {
        match value {
            Some(value) => self.show(value),
            None => self.put("none"),
        }
        self.put("\n");
    }

    /// Prints a line of these bytes, which must be a text.
    pub fn put_bytes(&mut self, bytes: &[u8]) {
        match str::from_utf8(bytes) {
            Ok(text) => self.line(text),
            Err(_) => self.refuse(),
        }
    }

    /// Prints the lines of a text; where it does not end with a line feed, `\` stands at its end.
    pub fn put_lines(&mut self, bytes: &[u8]) {
        match str::from_utf8(bytes) {
            Ok(text) if text.ends_with('\n') => self.put(text),
            Ok(text) => {
                self.put(text);
                self.put("\\\n");
            }
            Err(_) => self.refuse(),
        }
    }

    /// The same, or how many bytes they are where they are more than 200.
    pub fn put_file(&mut self, bytes: &[u8]) {
        let count = bytes.len();
        if count > 200 {
            self.show(count);
            self.line(" bytes");
        } else {
            self.put_lines(bytes);
        }
    }
}

// How many words a line has.
fn count_words(words: &str) -> usize {
    let mut count = 0usize;
    for _ in words.split(' ') {
        count = count.saturating_add(1);
    }
    count
}
