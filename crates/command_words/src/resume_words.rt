//! The words of the command that goes on from a log.
ghost use Rattle.std.specs.Prelude.{ℕ, List, Option as MayBe, Some, None, MatchOption};
ghost use Rattle.command_words.specs.Words.{AreShares, IsBudget, Says, Resuming, texts, meaning};

use crate::budget::Budget;
use crate::command::{Command, budget_of, differ};
use crate::share::Share;
use text_words::read_number;

// The number after the most shares.
const SHARES_END: u64 = 257;

/// The command that goes on from a log, at all of its open ends or at a share of them.
pub fn resume_form<'a>(words: &[&'a str]) -> Option<Command<'a>>
    ensures { MatchOption result ((plant log out : List ℕ) (budget : ℕ) (share : MayBe (ℕ × ℕ))
        → ¬ Says (texts words.now) (Resuming plant log budget out share))
        (λ command. Says (texts words.now) (meaning command)) }
{
    if let Some(command) = resume_of(words) {
        return Some(command);
    }
    share_resume_of(words)
}

fn resume_of<'a>(words: &[&'a str]) -> Option<Command<'a>>
    ensures { MatchOption result ((plant log out : List ℕ) (budget : ℕ)
        → ¬ Says (texts words.now) (Resuming plant log budget out None))
        (λ command. Says (texts words.now) (meaning command)) }
{
    match words {
        [first, plant, log, most, out]
            if *first == "resume"
                && !plant.is_empty()
                && !log.is_empty()
                && !out.is_empty()
                && differ(out, plant)
                && differ(out, log) => {
            match budget_of(most) {
                Some(budget) => Some(Command::Resume {
                    plant,
                    log,
                    budget,
                    out,
                    share: None,
                }),
                None => None,
            }
        }
        _ => None,
    }
}

fn share_resume_of<'a>(words: &[&'a str]) -> Option<Command<'a>>
    ensures { MatchOption result ((plant log out : List ℕ) (budget : ℕ) (share : ℕ × ℕ)
        → ¬ Says (texts words.now) (Resuming plant log budget out (Some share)))
        (λ command. Says (texts words.now) (meaning command)) }
{
    match words {
        [first, plant, log, most, out, number, shares]
            if *first == "resume"
                && !plant.is_empty()
                && !log.is_empty()
                && !out.is_empty()
                && differ(out, plant)
                && differ(out, log) => {
            match numbers_of(most, number, shares) {
                Some(Numbers { budget, share }) => Some(Command::Resume {
                    plant,
                    log,
                    budget,
                    out,
                    share: Some(share),
                }),
                None => None,
            }
        }
        _ => None,
    }
}

// The numbers of going on at a share.
#[derive(Clone, Copy)]
struct Numbers {
    budget: Budget,
    share: Share,
}

fn numbers_of(most: &str, number: &str, shares: &str) -> Option<Numbers>
    ensures { MatchOption result ((budget n m : ℕ)
        → IsBudget most.now budget → ¬ AreShares number.now shares.now n m)
        (λ numbers. IsBudget most.now numbers.budget.boxes
        × AreShares number.now shares.now numbers.share.number numbers.share.shares) }
{
    match budget_of(most) {
        Some(budget) => match share_of(number, shares) {
            Some(share) => Some(Numbers { budget, share }),
            None => None,
        },
        None => None,
    }
}

// The share that two words say.
fn share_of(number: &str, shares: &str) -> Option<Share>
    ensures { MatchOption result ((n m : ℕ) → ¬ AreShares number.now shares.now n m)
        (λ share. AreShares number.now shares.now share.number share.shares) }
{
    match read_number(shares.as_bytes(), SHARES_END) {
        Some(count) => match read_number(number.as_bytes(), count) {
            Some(place) => Some(Share {
                number: place as u32,
                shares: count as u32,
            }),
            None => None,
        },
        None => None,
    }
}
