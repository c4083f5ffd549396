//! The words of the commands that keep starts of a plan or begin with one.
ghost use Rattle.std.specs.Prelude.{ℕ, List, MatchOption};
ghost use Rattle.command_words.specs.Words.{Says, NoReplanning, IsBudget, IsPeriod, Replanning, ReplanLogging, CheckingReplan, texts, meaning};

use crate::budget::Budget;
use crate::command::{Command, budget_of, differ};
use crate::improve_words::improve_form;
use crate::period::Period;
use stn_model::limits::MAX_PERIODS;
use text_words::read_number;

/// The command that plans on from a plan, or checks the log of such a planning.
pub fn replan_form<'a>(words: &[&'a str]) -> Option<Command<'a>>
    ensures { MatchOption result (NoReplanning (texts words.now))
        (λ command. Says (texts words.now) (meaning command)) }
{
    if let Some(command) = replan_of(words) {
        return Some(command);
    }
    if let Some(command) = log_replan_of(words) {
        return Some(command);
    }
    if let Some(command) = check_replan_of(words) {
        return Some(command);
    }
    improve_form(words)
}

fn replan_of<'a>(words: &[&'a str]) -> Option<Command<'a>>
    ensures { MatchOption result ((plant plan : List ℕ) (period budget : ℕ)
        → ¬ Says (texts words.now) (Replanning plant plan period budget))
        (λ command. Says (texts words.now) (meaning command)) }
{
    match words {
        [first, plant, plan, from, most]
            if *first == "replan" && !plant.is_empty() && !plan.is_empty() => {
            match numbers_of(from, most) {
                Some(Numbers { period, budget }) => Some(Command::Replan {
                    plant,
                    plan,
                    period,
                    budget,
                }),
                None => None,
            }
        }
        _ => None,
    }
}

fn log_replan_of<'a>(words: &[&'a str]) -> Option<Command<'a>>
    ensures { MatchOption result ((plant plan log : List ℕ) (period budget : ℕ)
        → ¬ Says (texts words.now) (ReplanLogging plant plan period budget log))
        (λ command. Says (texts words.now) (meaning command)) }
{
    match words {
        [first, plant, plan, from, most, log]
            if *first == "replan"
                && !plant.is_empty()
                && !plan.is_empty()
                && !log.is_empty()
                && differ(log, plant)
                && differ(log, plan) => {
            match numbers_of(from, most) {
                Some(Numbers { period, budget }) => Some(Command::LogReplan {
                    plant,
                    plan,
                    period,
                    budget,
                    log,
                }),
                None => None,
            }
        }
        _ => None,
    }
}

fn check_replan_of<'a>(words: &[&'a str]) -> Option<Command<'a>>
    ensures { MatchOption result ((plant plan log : List ℕ) (period : ℕ)
        → ¬ Says (texts words.now) (CheckingReplan plant plan period log))
        (λ command. Says (texts words.now) (meaning command)) }
{
    match words {
        [first, plant, plan, from, log]
            if *first == "check-replan"
                && !plant.is_empty()
                && !plan.is_empty()
                && !log.is_empty() => {
            match period_of(from) {
                Some(period) => Some(Command::CheckReplan {
                    plant,
                    plan,
                    period,
                    log,
                }),
                None => None,
            }
        }
        _ => None,
    }
}

// The numbers of a replanning.
#[derive(Clone, Copy)]
struct Numbers {
    period: Period,
    budget: Budget,
}

fn numbers_of(from: &str, most: &str) -> Option<Numbers>
    ensures { MatchOption result ((period budget : ℕ)
        → IsPeriod from.now period → ¬ IsBudget most.now budget)
        (λ numbers. IsPeriod from.now numbers.period.number
        × IsBudget most.now numbers.budget.boxes) }
{
    match period_of(from) {
        Some(period) => match budget_of(most) {
            Some(budget) => Some(Numbers { period, budget }),
            None => None,
        },
        None => None,
    }
}

/// The period that a word says.
pub fn period_of(word: &str) -> Option<Period>
    ensures { MatchOption result ((n : ℕ)
        → ¬ IsPeriod word.now n) (λ period. IsPeriod word.now period.number) }
{
    match read_number(word.as_bytes(), MAX_PERIODS as u64 + 1) {
        Some(number) => Some(Period {
            number: number as u32,
        }),
        None => None,
    }
}
