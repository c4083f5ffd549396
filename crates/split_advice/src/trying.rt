//! Trial bounds of splits.
use crate::candidates::Candidate;
use crate::past::Past;
use crate::ranking::{Ranked, product};
use dual_simplex::{Side, Trial, Workspace};
use row_kit::Program;

// The most candidates that are tried.
const MOST_TRIED: usize = 16;

// The most that are tried where past trials tell what each of the first 16 costs.
const MOST_KNOWN: usize = 8;

// The most that are tried in a row without gaining more, where there are no sums.
const MOST_IDLE: usize = 6;

// The most steps of a trial.
const MOST_STEPS: u32 = 15;

// What a side counts that closes: more than any product, 2 to the power 124.
const CLOSING: i128 = 21_267_647_932_558_653_966_460_912_964_485_513_216;

/// A candidate, and what its split gains by trial bounds.
#[derive(Clone, Copy)]
pub struct Tried {
    pub candidate: Candidate,
    pub gain: i128,
}

// The best of the candidates that have been tried, and how many have been tried since.
#[derive(Clone, Copy)]
struct Lead {
    best: Option<Tried>,
    idle: usize,
}

impl Lead {
    // The lead after one more candidate has been tried.
    fn after(self, tried: Tried) -> Lead {
        match self.best {
            Some(best) if best.gain >= tried.gain => Lead {
                best: self.best,
                idle: self.idle.saturating_add(1),
            },
            _ => Lead {
                best: Some(tried),
                idle: 0,
            },
        }
    }
}

/// The one of the first 16 candidates of an order whose split gains most by trial bounds of both sides, the first of these; of the
/// first 8 where past trials tell what each costs. After 6 in a row that gain no more it looks no further, unless there are sums.
/// None where there is no candidate. The trials are noted.
pub fn try_first(
    workspace: &mut Workspace,
    program: &Program,
    candidates: &[Candidate],
    ranked: &[Ranked],
    most: i64,
    sums: bool,
    past: &mut Past,
) -> Option<Tried> {
    let mut lead = Lead {
        best: None,
        idle: 0,
    };
    for ranked in ranked.iter().take(tries(candidates, ranked, past)) {
        if sums || lead.idle < MOST_IDLE {
            if let Some(candidate) = candidates.get(ranked.2 as usize) {
                lead = lead.after(trial_of(workspace, program, candidate, most, past));
            }
        }
    }
    lead.best
}

// How many candidates are tried at most.
fn tries(candidates: &[Candidate], ranked: &[Ranked], past: &Past) -> usize {
    for ranked in ranked.iter().take(MOST_TRIED) {
        if let Some(candidate) = candidates.get(ranked.2 as usize) {
            if !past.knows(candidate) {
                return MOST_TRIED;
            }
        }
    }
    MOST_KNOWN
}

// Tries both sides of the split of a candidate, and notes the trials.
fn trial_of(
    workspace: &mut Workspace,
    program: &Program,
    candidate: &Candidate,
    most: i64,
    past: &mut Past,
) -> Tried {
    let Candidate { slot, max, .. } = *candidate;
    let low = workspace.trial(program, slot, max, Side::AtMost, MOST_STEPS);
    let high = workspace.trial(program, slot, max, Side::Above, MOST_STEPS);
    note(past, candidate, Side::AtMost, low, most);
    note(past, candidate, Side::Above, high, most);
    Tried {
        candidate: *candidate,
        gain: gain(low, high, most),
    }
}

// What a split gains: the product of the falls of both sides, and more than any product where a side closes.
fn gain(low: Option<Trial>, high: Option<Trial>, most: i64) -> i128 {
    match (low, high) {
        (Some(Trial::Closes), Some(Trial::Closes)) => i128::MAX,
        (Some(Trial::Closes), other) => CLOSING.saturating_add(i128::from(fall(other))),
        (other, Some(Trial::Closes)) => CLOSING.saturating_add(i128::from(fall(other))),
        (low, high) => product(fall(low), fall(high), most),
    }
}

// Notes the trial of a side. One that closes counts half of the most that a side counts.
fn note(past: &mut Past, candidate: &Candidate, side: Side, trial: Option<Trial>, most: i64) {
    match trial {
        None => {}
        Some(Trial::Closes) => past.note(candidate, side, most / 2),
        Some(Trial::Falls(fall)) => past.note(candidate, side, fall),
    }
}

// How far the profit falls in a trial, 0 where there was none.
fn fall(trial: Option<Trial>) -> i64 {
    match trial {
        Some(Trial::Falls(fall)) => fall,
        _ => 0,
    }
}
