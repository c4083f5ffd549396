//! The words of the commands on logs that are given.
ghost use Rattle.std.specs.Prelude.{◌∷◌, ℕ, ℤ, List, MatchOption};
ghost use Rattle.command_words.specs.declared.uses.LogUse.{LogUse as OfLog};
ghost use Rattle.command_words.specs.Words.{Says, NoLog, IsStep, IsStepCount, Telling, Estimating, texts, meaning};

use crate::command::Command;
use crate::merge_words::merge_of;
use crate::resume_words::resume_form;
use crate::steps::{MAX_STEP, MAX_STEPS, Steps};
use crate::uses::log_use_of;
use text_words::read_number;

/// The command on a log that is given, or on several.
pub fn log_form<'a>(words: &[&'a str]) -> Option<Command<'a>>
    ensures { MatchOption result (NoLog (texts words.now))
        (λ command. Says (texts words.now) (meaning command)) }
{
    if let Some(command) = tell_of(words) {
        return Some(command);
    }
    if let Some(command) = estimate_of(words) {
        return Some(command);
    }
    if let Some(command) = resume_form(words) {
        return Some(command);
    }
    merge_of(words)
}

fn tell_of<'a>(words: &[&'a str]) -> Option<Command<'a>>
    ensures { MatchOption result ((usage : OfLog) (plant log : List ℕ)
        → ¬ Says (texts words.now) (Telling usage plant log))
        (λ command. Says (texts words.now) (meaning command)) }
{
    match words {
        [first, plant, log] if !plant.is_empty() && !log.is_empty() => match log_use_of(first) {
            Some(usage) => Some(Command::Tell { usage, plant, log }),
            None => None,
        },
        _ => None,
    }
}

fn estimate_of<'a>(words: &[&'a str]) -> Option<Command<'a>>
    ensures { MatchOption result ((plant log state : List ℕ) (step : ℤ) (count : ℕ)
        → ¬ Says (texts words.now) (Estimating plant log state step count))
        (λ command. Says (texts words.now) (meaning command)) }
{
    match words {
        [first, plant, log, state, step, count]
            if *first == "whatif" && !plant.is_empty() && !log.is_empty() => {
            match steps_of(step, count) {
                Some(steps) => Some(Command::Estimate {
                    plant,
                    log,
                    state,
                    steps,
                }),
                None => None,
            }
        }
        _ => None,
    }
}

// The steps that two words say.
fn steps_of(step: &str, count: &str) -> Option<Steps>
    ensures { MatchOption result ((n : ℤ) (m : ℕ) → IsStep step.now n → ¬ IsStepCount count.now m)
        (λ steps. IsStep step.now steps.step × IsStepCount count.now steps.count) }
{
    match (step_of(step.as_bytes()), count_of(count)) {
        (Some(step), Some(count)) => Some(Steps { step, count }),
        _ => None,
    }
}

fn step_of(word: &[u8]) -> Option<i64>
    ensures { MatchOption result ((n : ℤ) → ¬ IsStep word.now n) (λ step. IsStep word.now step) }
{
    match word {
        [b'-', digits @ ..] => fall_of(digits),
        _ => match read_number(word, MAX_STEP + 1) {
            Some(number) => Some(number as i64),
            None => None,
        },
    }
}

// The step that a minus and the digits are.
fn fall_of(digits: &[u8]) -> Option<i64>
    ensures { MatchOption result ((n : ℤ) → ¬ IsStep (45 ∷ digits.now) n)
        (λ step. IsStep (45 ∷ digits.now) step) }
{
    match read_number(digits, MAX_STEP + 1) {
        Some(number) => {
            if number == 0 {
                None
            } else {
                Some(-(number as i64))
            }
        }
        None => None,
    }
}

fn count_of(word: &str) -> Option<u32>
    ensures { MatchOption result ((n : ℕ) → ¬ IsStepCount word.now n)
        (λ count. IsStepCount word.now count) }
{
    match read_number(word.as_bytes(), MAX_STEPS as u64 + 1) {
        Some(number) if 0 < number => Some(number as u32),
        _ => None,
    }
}
