//! The words of a command.
ghost use Rattle.std.specs.Prelude.{◌≡◌, ◌≢◌, ◌↔◌, ◌<◌, true, ℕ, List, MatchOption};
ghost use Rattle.proof_log.specs.LogNames.{log_name};
ghost use Rattle.command_words.specs.declared.uses.PlantUse.{PlantUse as OfPlant};
ghost use Rattle.command_words.specs.Words.{Says, HasNoForm, IsBudget, IsSeed, Solving, Logging, Printing, Showing, texts, meaning, Seeking, Tracing, Auditing, NoHorizons, NoPlant, IsHorizon, IsNoLog};

use crate::budget::{Budget, MAX_BUDGET};
use crate::conflict_words::conflict_form;
use crate::levels::{Levels, Part};
use crate::log_count::LogCount;
use crate::log_words::log_form;
use crate::part_words::part_form;
use crate::period::Period;
use crate::plan_words::plan_form;
use crate::replan_words::replan_form;
use crate::share::Share;
use crate::steps::Steps;
use crate::uses::{LogUse, PlanUse, PlantUse, plant_use_of};
use text_words::read_number;

/// What the words ask for.
#[derive(Clone, Copy)]
pub enum Command<'a> {
    /// `solve PLANT BUDGET`: plan, with at most this many boxes.
    Solve {
        plant: &'a str,
        budget: Budget,
    },
    /// `solve PLANT BUDGET LOG`: plan, and write the log of the proof.
    Log {
        plant: &'a str,
        budget: Budget,
        log: &'a str,
    },
    /// Print what a plant holds, as `PlantUse` has it: `upgrade PLANT` and others.
    Print {
        usage: PlantUse,
        plant: &'a str,
    },
    /// Simulate a plan, as `PlanUse` has it: `report PLANT PLAN` and others.
    Simulate {
        usage: PlanUse,
        plant: &'a str,
        plan: &'a str,
    },
    /// Tell what a proof log shows, as `LogUse` has it: `check PLANT LOG` and others.
    Tell {
        usage: LogUse,
        plant: &'a str,
        log: &'a str,
    },
    /// `demo SEED`: make a plant of the seed, plan it and check the log.
    Demo {
        seed: u32,
    },
    /// `replan PLANT PLAN PERIOD BUDGET`: plan on from the starts of a plan before a period.
    Replan {
        plant: &'a str,
        plan: &'a str,
        period: Period,
        budget: Budget,
    },
    /// `replan PLANT PLAN PERIOD BUDGET LOG`: the same, and write the log of the proof.
    LogReplan {
        plant: &'a str,
        plan: &'a str,
        period: Period,
        budget: Budget,
        log: &'a str,
    },
    /// `check-replan PLANT PLAN PERIOD LOG`: check the proof log of such a planning.
    CheckReplan {
        plant: &'a str,
        plan: &'a str,
        period: Period,
        log: &'a str,
    },
    /// `roll PLANT PLAN PERIOD`: print the plant from a period on, where the starts of a plan before it have been carried out; and the same
    /// with `plan`: print the rest of the plan.
    Roll {
        plant: &'a str,
        plan: &'a str,
        period: Period,
        rest: bool,
    },
    /// `improve PLANT PLAN BUDGET` and the same with LOG: plan, beginning with a plan at hand, and write the log of the proof where it
    /// is named.
    Improve {
        plant: &'a str,
        plan: &'a str,
        budget: Budget,
        log: Option<&'a str>,
    },
    /// `whatif PLANT LOG STATE STEP COUNT`: say what a larger or a smaller tank would be worth at most.
    Estimate {
        plant: &'a str,
        log: &'a str,
        state: &'a str,
        steps: Steps,
    },
    /// `least PLANT BUDGET`: find the least horizon, with at most this many boxes for each.
    Least {
        plant: &'a str,
        budget: Budget,
    },
    /// `least PLANT BUDGET STEM`: the same, and write the log of each horizon.
    LeastLogs {
        plant: &'a str,
        budget: Budget,
        stem: &'a str,
    },
    /// `check-least PLANT H STEM`: check the logs of the horizons that are shorter than H.
    CheckLeast {
        plant: &'a str,
        horizon: u32,
        stem: &'a str,
    },
    /// `conflict PLANT BUDGET`: find deliveries that can't be met together, with at most this many boxes for each step.
    Conflict {
        plant: &'a str,
        budget: Budget,
    },
    /// `conflict PLANT BUDGET STEM`: the same, and write the answer and the log that shows it.
    ConflictLogs {
        plant: &'a str,
        budget: Budget,
        stem: &'a str,
    },
    /// `check-conflict PLANT STEM`: check such an answer and its log.
    CheckConflict {
        plant: &'a str,
        stem: &'a str,
    },
    /// `parts PLANT LEVELS`: print the parts of the plant.
    Parts {
        plant: &'a str,
        levels: Levels,
    },
    /// `solve-part PLANT LEVELS PART BUDGET LOG`: plan a part of the plant, and write the log of the proof.
    SolvePart {
        plant: &'a str,
        part: Part,
        budget: Budget,
        log: &'a str,
    },
    /// `resume PLANT LOG BUDGET OUT` and the same with SHARE SHARES: go on from a log, at all of its open ends or at a share of them, with
    /// at most this many boxes more.
    Resume {
        plant: &'a str,
        log: &'a str,
        budget: Budget,
        out: &'a str,
        share: Option<Share>,
    },
    /// `merge PLANT STEM COUNT OUT`: check so many logs of the plant, and write the log that is merged of them.
    Merge {
        plant: &'a str,
        stem: &'a str,
        count: LogCount,
        out: &'a str,
    },
    /// `join PLANT LEVELS STEM LOG`: check the logs of all parts, and write the log of the plant that they make up.
    Join {
        plant: &'a str,
        levels: Levels,
        stem: &'a str,
        log: &'a str,
    },
}

/// The command that the words say, if they have the form of one. It takes no memory.
pub fn command_of<'a>(words: &[&'a str]) -> Option<Command<'a>>
    ensures { MatchOption result (HasNoForm (texts words.now))
        (λ command. Says (texts words.now) (meaning command)) }
{
    if let Some(command) = plant_form(words) {
        return Some(command);
    }
    if let Some(command) = plan_form(words) {
        return Some(command);
    }
    if let Some(command) = replan_form(words) {
        return Some(command);
    }
    if let Some(command) = log_form(words) {
        return Some(command);
    }
    if let Some(command) = horizon_form(words) {
        return Some(command);
    }
    if let Some(command) = conflict_form(words) {
        return Some(command);
    }
    part_form(words)
}

// The command that plans or prints a plant alone, or the demonstration.
fn plant_form<'a>(words: &[&'a str]) -> Option<Command<'a>>
    ensures { MatchOption result (NoPlant (texts words.now))
        (λ command. Says (texts words.now) (meaning command)) }
{
    if let Some(command) = solve_of(words) {
        return Some(command);
    }
    if let Some(command) = log_of(words) {
        return Some(command);
    }
    if let Some(command) = print_of(words) {
        return Some(command);
    }
    demo_of(words)
}

// The command that tries one horizon after another.
fn horizon_form<'a>(words: &[&'a str]) -> Option<Command<'a>>
    ensures { MatchOption result (NoHorizons (texts words.now))
        (λ command. Says (texts words.now) (meaning command)) }
{
    if let Some(command) = least_of(words) {
        return Some(command);
    }
    if let Some(command) = least_logs_of(words) {
        return Some(command);
    }
    check_least_of(words)
}

fn solve_of<'a>(words: &[&'a str]) -> Option<Command<'a>>
    ensures { MatchOption result ((plant : List ℕ) (budget : ℕ)
        → ¬ Says (texts words.now) (Solving plant budget))
        (λ command. Says (texts words.now) (meaning command)) }
{
    match words {
        [first, plant, budget] if *first == "solve" && !plant.is_empty() => {
            match budget_of(budget) {
                Some(budget) => Some(Command::Solve { plant, budget }),
                None => None,
            }
        }
        _ => None,
    }
}

fn log_of<'a>(words: &[&'a str]) -> Option<Command<'a>>
    ensures { MatchOption result ((plant log : List ℕ) (budget : ℕ)
        → ¬ Says (texts words.now) (Logging plant budget log))
        (λ command. Says (texts words.now) (meaning command)) }
{
    match words {
        [first, plant, budget, log]
            if *first == "solve" && !plant.is_empty() && !log.is_empty() && differ(log, plant) => {
            match budget_of(budget) {
                Some(budget) => Some(Command::Log { plant, budget, log }),
                None => None,
            }
        }
        _ => None,
    }
}

/// The words are not the same.
pub fn differ(first: &str, second: &str) -> bool
    ensures { (result ≡ true) ↔ (first.now ≢ second.now) }
{
    first != second
}

fn print_of<'a>(words: &[&'a str]) -> Option<Command<'a>>
    ensures { MatchOption result ((usage : OfPlant) (plant : List ℕ)
        → ¬ Says (texts words.now) (Printing usage plant))
        (λ command. Says (texts words.now) (meaning command)) }
{
    match words {
        [first, plant] if !plant.is_empty() => match plant_use_of(first) {
            Some(usage) => Some(Command::Print { usage, plant }),
            None => None,
        },
        _ => None,
    }
}

fn demo_of<'a>(words: &[&'a str]) -> Option<Command<'a>>
    ensures { MatchOption result ((seed : ℕ) → ¬ Says (texts words.now) (Showing seed))
        (λ command. Says (texts words.now) (meaning command)) }
{
    match words {
        [first, seed] if *first == "demo" => match seed_of(seed) {
            Some(seed) => Some(Command::Demo { seed }),
            None => None,
        },
        _ => None,
    }
}

fn least_of<'a>(words: &[&'a str]) -> Option<Command<'a>>
    ensures { MatchOption result ((plant : List ℕ) (budget : ℕ)
        → ¬ Says (texts words.now) (Seeking plant budget))
        (λ command. Says (texts words.now) (meaning command)) }
{
    match words {
        [first, plant, budget] if *first == "least" && !plant.is_empty() => {
            match budget_of(budget) {
                Some(budget) => Some(Command::Least { plant, budget }),
                None => None,
            }
        }
        _ => None,
    }
}

fn least_logs_of<'a>(words: &[&'a str]) -> Option<Command<'a>>
    ensures { MatchOption result ((plant stem : List ℕ) (budget : ℕ)
        → ¬ Says (texts words.now) (Tracing plant budget stem))
        (λ command. Says (texts words.now) (meaning command)) }
{
    match words {
        [first, plant, budget, stem]
            if *first == "least"
                && !plant.is_empty()
                && !stem.is_empty()
                && is_no_log(plant, stem) => {
            match budget_of(budget) {
                Some(budget) => Some(Command::LeastLogs {
                    plant,
                    budget,
                    stem,
                }),
                None => None,
            }
        }
        _ => None,
    }
}

fn check_least_of<'a>(words: &[&'a str]) -> Option<Command<'a>>
    ensures { MatchOption result ((plant stem : List ℕ) (horizon : ℕ)
        → ¬ Says (texts words.now) (Auditing plant horizon stem))
        (λ command. Says (texts words.now) (meaning command)) }
{
    match words {
        [first, plant, horizon, stem]
            if *first == "check-least"
                && !plant.is_empty()
                && !stem.is_empty()
                && is_no_log(plant, stem) => {
            match horizon_of(horizon) {
                Some(horizon) => Some(Command::CheckLeast {
                    plant,
                    horizon,
                    stem,
                }),
                None => None,
            }
        }
        _ => None,
    }
}

// The file is the log of no horizon of the stem.
fn is_no_log(file: &str, stem: &str) -> bool
    ensures { (result ≡ true) ↔ IsNoLog file.now stem.now }
{
    match log_number(file, stem, 337) {
        Some(number) => number == 0,
        None => true,
    }
}

/// The number below the limit of which the file is the log of the stem, if there is one.
pub fn log_number(file: &str, stem: &str, limit: u64) -> Option<u64>
    ensures { MatchOption result ((n : ℕ) → n < limit → file.now ≢ log_name stem.now n)
        (λ number. (number < limit) × (file.now ≡ log_name stem.now number)) }
{
    let name = file.as_bytes();
    let at = stem.len();
    if name.len() <= at || !same_bytes(&name[..at], stem.as_bytes()) || name[at] != b'.' {
        return None;
    }
    read_number(&name[at + 1..], limit)
}

// The bytes are the same.
fn same_bytes(first: &[u8], second: &[u8]) -> bool
    ensures { (result ≡ true) ↔ (first.now ≡ second.now) }
{
    first == second
}

fn horizon_of(word: &str) -> Option<u32>
    ensures { MatchOption result ((n : ℕ)
        → ¬ IsHorizon word.now n) (λ horizon. IsHorizon word.now horizon) }
{
    match read_number(word.as_bytes(), 338) {
        Some(number) if 0 < number => Some(number as u32),
        _ => None,
    }
}

fn seed_of(word: &str) -> Option<u32>
    ensures { MatchOption result ((n : ℕ)
        → ¬ IsSeed word.now n) (λ seed. IsSeed word.now seed) }
{
    match read_number(word.as_bytes(), 1 << 32) {
        Some(number) => Some(number as u32),
        None => None,
    }
}

/// The budget that a word says.
pub fn budget_of(word: &str) -> Option<Budget>
    ensures { MatchOption result ((n : ℕ)
        → ¬ IsBudget word.now n) (λ budget. IsBudget word.now budget.boxes) }
{
    match read_number(word.as_bytes(), MAX_BUDGET as u64 + 1) {
        Some(number) if 0 < number => Some(Budget {
            boxes: number as u32,
        }),
        _ => None,
    }
}
