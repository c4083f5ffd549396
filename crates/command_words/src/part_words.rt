//! The words of the commands on the parts of a plant.
ghost use Rattle.std.specs.Prelude.{◌≡◌, ◌↔◌, ℕ, true, List, MatchOption};
ghost use Rattle.command_words.specs.Words.{
  Says,
  NoParts,
  IsBudget,
  IsLevels,
  IsPartNumber,
  IsNoPartLog,
  Parting,
  PartSolving,
  Joining,
  texts,
  meaning,
};

use crate::budget::Budget;
use crate::command::{Command, budget_of, differ, log_number};
use crate::levels::{Levels, Part, part_count};
use text_words::read_number;

/// The command on the parts of a plant that the words say.
pub fn part_form<'a>(words: &[&'a str]) -> Option<Command<'a>>
    ensures { MatchOption result (NoParts (texts words.now))
        (λ command. Says (texts words.now) (meaning command)) }
{
    if let Some(command) = parts_of(words) {
        return Some(command);
    }
    if let Some(command) = solve_part_of(words) {
        return Some(command);
    }
    join_of(words)
}

fn parts_of<'a>(words: &[&'a str]) -> Option<Command<'a>>
    ensures { MatchOption result ((plant : List ℕ) (levels : ℕ)
        → ¬ Says (texts words.now) (Parting plant levels))
        (λ command. Says (texts words.now) (meaning command)) }
{
    match words {
        [first, plant, levels] if *first == "parts" && !plant.is_empty() => {
            match levels_of(levels) {
                Some(levels) => Some(Command::Parts { plant, levels }),
                None => None,
            }
        }
        _ => None,
    }
}

fn solve_part_of<'a>(words: &[&'a str]) -> Option<Command<'a>>
    ensures { MatchOption result ((plant log : List ℕ) (levels part budget : ℕ)
        → ¬ Says (texts words.now) (PartSolving plant levels part budget log))
        (λ command. Says (texts words.now) (meaning command)) }
{
    match words {
        [first, plant, levels, number, most, log]
            if *first == "solve-part"
                && !plant.is_empty()
                && !log.is_empty()
                && differ(log, plant) => {
            match numbers_of(levels, number, most) {
                Some(Numbers { part, budget }) => Some(Command::SolvePart {
                    plant,
                    part,
                    budget,
                    log,
                }),
                None => None,
            }
        }
        _ => None,
    }
}

fn join_of<'a>(words: &[&'a str]) -> Option<Command<'a>>
    ensures { MatchOption result ((plant stem log : List ℕ) (levels : ℕ)
        → ¬ Says (texts words.now) (Joining plant levels stem log))
        (λ command. Says (texts words.now) (meaning command)) }
{
    match words {
        [first, plant, levels, stem, log]
            if *first == "join"
                && !plant.is_empty()
                && !stem.is_empty()
                && !log.is_empty()
                && differ(log, plant) => {
            match join_levels(levels, stem, log) {
                Some(levels) => Some(Command::Join {
                    plant,
                    levels,
                    stem,
                    log,
                }),
                None => None,
            }
        }
        _ => None,
    }
}

// The levels that a word says, where the log is none of those of their parts.
fn join_levels(word: &str, stem: &str, log: &str) -> Option<Levels>
    ensures { MatchOption result ((n : ℕ)
        → IsLevels word.now n → ¬ IsNoPartLog log.now stem.now n)
        (λ levels. IsLevels word.now levels.number
        × IsNoPartLog log.now stem.now levels.number) }
{
    match levels_of(word) {
        Some(levels) => {
            if is_no_part_log(log, stem, levels) {
                Some(levels)
            } else {
                None
            }
        }
        None => None,
    }
}

// The file is the log of none of the parts of so many levels.
fn is_no_part_log(file: &str, stem: &str, levels: Levels) -> bool
    ensures { (result ≡ true) ↔ IsNoPartLog file.now stem.now levels.number }
{
    match log_number(file, stem, u64::from(part_count(levels))) {
        Some(_) => false,
        None => true,
    }
}

// The numbers of a planning of a part.
#[derive(Clone, Copy)]
struct Numbers {
    part: Part,
    budget: Budget,
}

fn numbers_of(levels: &str, number: &str, most: &str) -> Option<Numbers>
    ensures { MatchOption result ((n part budget : ℕ)
        → IsLevels levels.now n → IsPartNumber number.now n part → ¬ IsBudget most.now budget)
        (λ numbers. IsLevels levels.now numbers.part.levels.number
        × IsPartNumber number.now numbers.part.levels.number numbers.part.number
        × IsBudget most.now numbers.budget.boxes) }
{
    match part_of(levels, number) {
        Some(part) => match budget_of(most) {
            Some(budget) => Some(Numbers { part, budget }),
            None => None,
        },
        None => None,
    }
}

fn part_of(levels: &str, number: &str) -> Option<Part>
    ensures { MatchOption result ((n part : ℕ)
        → IsLevels levels.now n → ¬ IsPartNumber number.now n part)
        (λ part. IsLevels levels.now part.levels.number
        × IsPartNumber number.now part.levels.number part.number) }
{
    match levels_of(levels) {
        Some(levels) => match number_of(number, levels) {
            Some(part) => Some(Part {
                levels,
                number: part,
            }),
            None => None,
        },
        None => None,
    }
}

// The number of a part of so many levels.
fn number_of(word: &str, levels: Levels) -> Option<u32>
    ensures { MatchOption result ((n : ℕ) → ¬ IsPartNumber word.now levels.number n)
        (λ number. IsPartNumber word.now levels.number number) }
{
    match read_number(word.as_bytes(), u64::from(part_count(levels))) {
        Some(number) => Some(number as u32),
        None => None,
    }
}

fn levels_of(word: &str) -> Option<Levels>
    ensures { MatchOption result ((n : ℕ) → ¬ IsLevels word.now n)
        (λ levels. IsLevels word.now levels.number) }
{
    match read_number(word.as_bytes(), 9) {
        Some(number) if 0 < number => Some(Levels {
            number: number as u32,
        }),
        _ => None,
    }
}
