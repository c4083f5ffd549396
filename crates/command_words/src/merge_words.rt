//! The words of the command that merges logs.
ghost use Rattle.std.specs.Prelude.{◌≡◌, ◌↔◌, ℕ, true, List, MatchOption};
ghost use Rattle.command_words.specs.Words.{IsLogCount, IsNoPartLog, Says, Merging, texts, meaning};

use crate::command::{Command, differ, log_number};
use crate::log_count::{LogCount, MOST_LOGS};
use text_words::read_number;

/// The command that merges logs.
pub fn merge_of<'a>(words: &[&'a str]) -> Option<Command<'a>>
    ensures { MatchOption result ((plant stem out : List ℕ) (count : ℕ)
        → ¬ Says (texts words.now) (Merging plant stem count out))
        (λ command. Says (texts words.now) (meaning command)) }
{
    match words {
        [first, plant, stem, many, out]
            if *first == "merge"
                && !plant.is_empty()
                && !stem.is_empty()
                && !out.is_empty()
                && differ(out, plant)
                && is_no_log_of(out, stem) => {
            match count_of(many) {
                Some(count) => Some(Command::Merge {
                    plant,
                    stem,
                    count,
                    out,
                }),
                None => None,
            }
        }
        _ => None,
    }
}

// The file is none of the logs of a stem that may be merged.
fn is_no_log_of(file: &str, stem: &str) -> bool
    ensures { (result ≡ true) ↔ IsNoPartLog file.now stem.now 8 }
{
    match log_number(file, stem, MOST_LOGS) {
        Some(_) => false,
        None => true,
    }
}

// How many logs a word says.
fn count_of(word: &str) -> Option<LogCount>
    ensures { MatchOption result ((n : ℕ) → ¬ IsLogCount word.now n)
        (λ count. IsLogCount word.now count.number) }
{
    match read_number(word.as_bytes(), MOST_LOGS + 1) {
        Some(number) if 0 < number => Some(LogCount {
            number: number as u32,
        }),
        _ => None,
    }
}
