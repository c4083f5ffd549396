//! The words of the command that plans beginning with a plan at hand.
ghost use Rattle.std.specs.Prelude.{ℕ, List, Option as MayBe, Some, None, MatchOption};
ghost use Rattle.command_words.specs.Words.{Says, Improving, texts, meaning};

use crate::command::{Command, budget_of, differ};

/// The command that plans beginning with a plan at hand, with or without a log.
pub fn improve_form<'a>(words: &[&'a str]) -> Option<Command<'a>>
    ensures { MatchOption result ((plant plan : List ℕ) (budget : ℕ) (log : MayBe (List ℕ))
        → ¬ Says (texts words.now) (Improving plant plan budget log))
        (λ command. Says (texts words.now) (meaning command)) }
{
    if let Some(command) = improve_of(words) {
        return Some(command);
    }
    log_improve_of(words)
}

fn improve_of<'a>(words: &[&'a str]) -> Option<Command<'a>>
    ensures { MatchOption result ((plant plan : List ℕ) (budget : ℕ)
        → ¬ Says (texts words.now) (Improving plant plan budget None))
        (λ command. Says (texts words.now) (meaning command)) }
{
    match words {
        [first, plant, plan, most]
            if *first == "improve" && !plant.is_empty() && !plan.is_empty() => {
            match budget_of(most) {
                Some(budget) => Some(Command::Improve {
                    plant,
                    plan,
                    budget,
                    log: None,
                }),
                None => None,
            }
        }
        _ => None,
    }
}

fn log_improve_of<'a>(words: &[&'a str]) -> Option<Command<'a>>
    ensures { MatchOption result ((plant plan log : List ℕ) (budget : ℕ)
        → ¬ Says (texts words.now) (Improving plant plan budget (Some log)))
        (λ command. Says (texts words.now) (meaning command)) }
{
    match words {
        [first, plant, plan, most, log]
            if *first == "improve"
                && !plant.is_empty()
                && !plan.is_empty()
                && !log.is_empty()
                && differ(log, plant)
                && differ(log, plan) => {
            match budget_of(most) {
                Some(budget) => Some(Command::Improve {
                    plant,
                    plan,
                    budget,
                    log: Some(log),
                }),
                None => None,
            }
        }
        _ => None,
    }
}
