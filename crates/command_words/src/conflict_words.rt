//! The words of the commands on deliveries that can't be met together.
ghost use Rattle.std.specs.Prelude.{◌≡◌, ◌↔◌, ℕ, true, List, MatchOption};
ghost use Rattle.command_words.specs.Words.{
  Says,
  NoConflicts,
  IsNeither,
  Conflicting,
  ConflictLogging,
  CheckingConflict,
  texts,
  meaning,
};

use crate::command::{Command, budget_of, log_number};

/// The command on deliveries that can't be met together that the words say.
pub fn conflict_form<'a>(words: &[&'a str]) -> Option<Command<'a>>
    ensures { MatchOption result (NoConflicts (texts words.now))
        (λ command. Says (texts words.now) (meaning command)) }
{
    if let Some(command) = conflict_of(words) {
        return Some(command);
    }
    if let Some(command) = conflict_logs_of(words) {
        return Some(command);
    }
    check_conflict_of(words)
}

fn conflict_of<'a>(words: &[&'a str]) -> Option<Command<'a>>
    ensures { MatchOption result ((plant : List ℕ) (budget : ℕ)
        → ¬ Says (texts words.now) (Conflicting plant budget))
        (λ command. Says (texts words.now) (meaning command)) }
{
    match words {
        [first, plant, budget] if *first == "conflict" && !plant.is_empty() => {
            match budget_of(budget) {
                Some(budget) => Some(Command::Conflict { plant, budget }),
                None => None,
            }
        }
        _ => None,
    }
}

fn conflict_logs_of<'a>(words: &[&'a str]) -> Option<Command<'a>>
    ensures { MatchOption result ((plant stem : List ℕ) (budget : ℕ)
        → ¬ Says (texts words.now) (ConflictLogging plant budget stem))
        (λ command. Says (texts words.now) (meaning command)) }
{
    match words {
        [first, plant, budget, stem]
            if *first == "conflict"
                && !plant.is_empty()
                && !stem.is_empty()
                && is_neither(plant, stem) => {
            match budget_of(budget) {
                Some(budget) => Some(Command::ConflictLogs {
                    plant,
                    budget,
                    stem,
                }),
                None => None,
            }
        }
        _ => None,
    }
}

fn check_conflict_of<'a>(words: &[&'a str]) -> Option<Command<'a>>
    ensures { MatchOption result ((plant stem : List ℕ)
        → ¬ Says (texts words.now) (CheckingConflict plant stem))
        (λ command. Says (texts words.now) (meaning command)) }
{
    match words {
        [first, plant, stem]
            if *first == "check-conflict"
                && !plant.is_empty()
                && !stem.is_empty()
                && is_neither(plant, stem) => { Some(Command::CheckConflict { plant, stem }) }
        _ => None,
    }
}

// The file is neither STEM.0 nor STEM.1.
fn is_neither(file: &str, stem: &str) -> bool
    ensures { (result ≡ true) ↔ IsNeither file.now stem.now }
{
    match log_number(file, stem, 2) {
        Some(_) => false,
        None => true,
    }
}
