//! The words of the commands that simulate a plan or carry one on.
ghost use Rattle.std.specs.Prelude.{◌≡◌, ◌∷◌, [], true, false, ℕ, List, MatchOption};
ghost use Rattle.plan_tables.specs.declared.kind.TableKind.{TableKind as Kind};
ghost use Rattle.command_words.specs.declared.uses.PlanUse.{PlanUse as OfPlan};
ghost use Rattle.command_words.specs.declared.uses.PlanUse.TheVariants.{Table};
ghost use Rattle.command_words.specs.Words.{Says, NoPlan, Rolling, Simulating, texts, meaning, last_words, kind_words};

use crate::command::Command;
use crate::replan_words::period_of;
use crate::uses::{PlanUse, kind_of, plan_use_of};

/// The command that simulates a plan, or carries it on to a period.
pub fn plan_form<'a>(words: &[&'a str]) -> Option<Command<'a>>
    ensures { MatchOption result (NoPlan (texts words.now))
        (λ command. Says (texts words.now) (meaning command)) }
{
    if let Some(command) = simulate_of(words) {
        return Some(command);
    }
    if let Some(command) = table_of(words) {
        return Some(command);
    }
    if let Some(command) = roll_of(words) {
        return Some(command);
    }
    rest_of(words)
}

// The command that simulates a plan, where no word comes after the files.
fn simulate_of<'a>(words: &[&'a str]) -> Option<Command<'a>>
    ensures { MatchOption result ((usage : OfPlan) (plant plan : List ℕ)
        → last_words usage ≡ [] → ¬ Says (texts words.now) (Simulating usage plant plan))
        (λ command. Says (texts words.now) (meaning command)) }
{
    match words {
        [first, plant, plan] if !plant.is_empty() && !plan.is_empty() => match plan_use_of(first) {
            Some(usage) => Some(Command::Simulate { usage, plant, plan }),
            None => None,
        },
        _ => None,
    }
}

// The command that prints a table of a plan, where a word names it.
fn table_of<'a>(words: &[&'a str]) -> Option<Command<'a>>
    ensures { MatchOption result ((kind : Kind) (word plant plan : List ℕ)
        → kind_words kind ≡ word ∷ []
        → ¬ Says (texts words.now) (Simulating (Table kind) plant plan))
        (λ command. Says (texts words.now) (meaning command)) }
{
    match words {
        [first, plant, plan, word] if *first == "table" && !plant.is_empty() && !plan.is_empty() =>
            {
                match kind_of(word) {
                    Some(kind) => Some(Command::Simulate {
                        usage: PlanUse::Table(kind),
                        plant,
                        plan,
                    }),
                    None => None,
                }
            }
        _ => None,
    }
}

fn roll_of<'a>(words: &[&'a str]) -> Option<Command<'a>>
    ensures { MatchOption result ((plant plan : List ℕ) (period : ℕ)
        → ¬ Says (texts words.now) (Rolling plant plan period false))
        (λ command. Says (texts words.now) (meaning command)) }
{
    match words {
        [first, plant, plan, from] if *first == "roll" && !plant.is_empty() && !plan.is_empty() => {
            match period_of(from) {
                Some(period) => Some(Command::Roll {
                    plant,
                    plan,
                    period,
                    rest: false,
                }),
                None => None,
            }
        }
        _ => None,
    }
}

fn rest_of<'a>(words: &[&'a str]) -> Option<Command<'a>>
    ensures { MatchOption result ((plant plan : List ℕ) (period : ℕ)
        → ¬ Says (texts words.now) (Rolling plant plan period true))
        (λ command. Says (texts words.now) (meaning command)) }
{
    match words {
        [first, plant, plan, from, last]
            if *first == "roll" && *last == "plan" && !plant.is_empty() && !plan.is_empty() => {
            match period_of(from) {
                Some(period) => Some(Command::Roll {
                    plant,
                    plan,
                    period,
                    rest: true,
                }),
                None => None,
            }
        }
        _ => None,
    }
}
