//! Where a box is split.
use crate::candidates::{Candidate, list_fractional, list_sums};
use crate::past::Past;
use crate::ranking::{Ranked, rank};
use crate::trying::{Tried, try_first};
use crate::weights::{most_fractional, weights_of};
use dual_simplex::Workspace;
use row_kit::{Area, Program};
use std::alloc::{AllocError, Global};

// What the bound is taken to lie above its aim where there is no plan yet: a quarter to a half of the greatest profit of a slot.
const NO_PLAN: i64 = 68_719_476_736;

// The least that a bound counts as above its aim: 2 to the power -10.
const LEAST_GAP: i64 = 1_048_576;

/// What is needed to choose the slot to split. It has room for all slots of its program.
#[derive(Drop)]
pub struct Picker {
    given: u32,
    points: u32,
    has_sums: bool,
    candidates: Vec<Candidate>,
    ranked: Vec<Ranked>,
    weights: Vec<u64>,
    past: Past,
}

impl Picker {
    /// A picker for a program, of which the slots from `given` on and before `points` are those of sums.
    pub fn new(
        alloc: Global,
        program: &Program,
        given: u32,
        points: u32,
    ) -> Result<Picker, AllocError> {
        let slots = program.root.len();
        Ok(Picker {
            given,
            points,
            has_sums: given < points,
            candidates: Vec::with_capacity(alloc, slots)?,
            ranked: Vec::with_capacity(alloc, slots)?,
            weights: weights_of(alloc, program)?,
            past: Past::new(alloc, program)?,
        })
    }

    /// The slot of an area to split, after its bound, and the value to split it after: the one that gains most by trial bounds, or,
    /// where none gains much, the most fractional of those that may bring most. Sums are tried only where a plan is known. None where
    /// nothing is fractional.
    pub fn pick(
        &mut self,
        workspace: &mut Workspace,
        program: &Program,
        area: &Area,
    ) -> Option<Candidate> {
        let gap = gap_of(workspace);
        list_fractional(
            workspace,
            area,
            self.given,
            self.points,
            &mut self.candidates,
        );
        if workspace.gap().is_some() {
            list_sums(
                workspace,
                program,
                area,
                self.given,
                self.points,
                &mut self.candidates,
            );
        }
        match self.tried(workspace, program, gap.saturating_mul(2)) {
            Some(tried) if tried.gain >= least_gain(gap) => Some(tried.candidate),
            _ => most_fractional(self.candidates.as_slice(), self.weights.as_slice()),
        }
    }

    // The candidate that gains most by trial bounds. No side of a split counts more than so much.
    fn tried(&mut self, workspace: &mut Workspace, program: &Program, most: i64) -> Option<Tried> {
        let candidates = self.candidates.as_slice();
        let past = &mut self.past;
        rank(workspace, program, candidates, most, past, &mut self.ranked);
        let ranked = self.ranked.as_slice();
        try_first(
            workspace,
            program,
            candidates,
            ranked,
            most,
            self.has_sums,
            past,
        )
    }
}

// How far the bound lies above its aim.
fn gap_of(workspace: &Workspace) -> i64 {
    match workspace.gap() {
        None => NO_PLAN,
        Some(gap) => gap.max(LEAST_GAP),
    }
}

// The least that counts as a gain: a 100,000th of the square of the gap.
fn least_gain(gap: i64) -> i128 {
    i128::from(gap).saturating_mul(i128::from(gap)) / 100_000
}
