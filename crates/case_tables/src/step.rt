//! A step of a case: a line of words, and the text that stands below it.
use crate::tried::Tried;
use std::alloc::Global;

/// A line of words with single blanks between, and the text of the lines below it that begin with `|` or `*`.
#[derive(Drop)]
pub struct Step<'a> {
    /// The number of its line, from 1 on.
    pub line: u32,
    /// Its first word.
    pub verb: &'a str,
    /// The words behind the first one, where there are some.
    pub words: Option<&'a str>,
    /// The text below it.
    pub text: String,
}

impl<'a> Step<'a> {
    /// The step of a line, without text.
    pub fn new(alloc: Global, line: u32, words: &'a str) -> Step<'a> {
        let text = String::new(alloc);
        match words.split_once(' ') {
            Some((verb, words)) => Step {
                line,
                verb,
                words: Some(words),
                text,
            },
            None => Step {
                line,
                verb: words,
                words: None,
                text,
            },
        }
    }

    // Appends a line of text so many times: its line feed is left out where the line ends in `\`.
    pub(crate) fn take_text(&mut self, line: &str, times: u32) -> Tried {
        for _ in 0..times {
            match line.strip_suffix('\\') {
                Some(text) => self.text.push_str(text)?,
                None => self.take_line(line)?,
            }
        }
        Ok(())
    }

    fn take_line(&mut self, line: &str) -> Tried {
        self.text.push_str(line)?;
        self.text.push_str("\n")
    }
}
