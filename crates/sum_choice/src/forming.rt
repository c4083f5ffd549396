//! Sums of given terms.
use crate::ranges::{Most, most_of};
use row_kit::{Domain, Entry, List, Program};
use std::alloc::{AllocError, Global};
use sum_slots::Sum;

/// What the sums of some terms are to tell apart: the least count, the number of steps from it to the greatest, and the rows that
/// show both, where rows do.
#[derive(Clone, Copy)]
pub struct Span {
    pub least: i128,
    pub steps: i128,
    pub low: Option<u32>,
    pub high: Option<u32>,
}

// The most steps that one sum of width 1 tells apart.
const MOST_STEPS: i128 = 255;

// The most sums that are declared of the same terms.
const MOST_SAME: u32 = 4;

/// What the sums of terms are to tell apart.
pub fn span_of(program: &Program, ranges: &[Domain], terms: &[Entry]) -> Span {
    let high: Most = most_of(program, ranges, false, terms);
    let low: Most = most_of(program, ranges, true, terms);
    let least = 0i128.saturating_sub(low.count);
    Span {
        least,
        steps: high.count.saturating_sub(least),
        low: low.row,
        high: high.row,
    }
}

impl Span {
    /// The least width at which the value of a sum lies in 0 to 255.
    pub fn width(&self) -> u32 {
        let steps = self.steps.max(1);
        let width = steps.saturating_add(MOST_STEPS - 1) / MOST_STEPS;
        match u32::try_from(width) {
            Ok(width) => width.max(1),
            Err(_) => u32::MAX,
        }
    }

    /// How many sums are declared of the same terms: as many as the width, where that is not more than four, so that together they
    /// tell all counts apart; else one. None where the terms have one count or none.
    pub fn count(&self) -> u32 {
        if self.steps <= 0 {
            0
        } else if self.width() <= MOST_SAME {
            self.width()
        } else {
            1
        }
    }
}

/// Puts the sums of terms: as many as their span tells, with offsets one apart.
pub fn put_sums(
    alloc: Global,
    program: &Program,
    ranges: &[Domain],
    terms: &[Entry],
    into: &mut Vec<Sum>,
) -> Result<(), AllocError> {
    let span = span_of(program, ranges, terms);
    for step in 0..span.count() {
        let offset = i128::from(step).saturating_sub(span.least);
        if let Ok(offset) = i64::try_from(offset) {
            into.push(Sum {
                width: span.width(),
                offset,
                low: span.low,
                high: span.high,
                terms: List::from_slice(alloc, terms)?,
            })?;
        }
    }
    Ok(())
}
