//! Candidates that are found in mixtures of rows.
use crate::choices::Choices;
use crate::grouping::Groups;
use crate::making::{Candidate, made};
use crate::merit::Case;
use crate::mixture::Mixture;
use crate::point::Point;
use crate::ranking::best_of;
use crate::trying::best_divisor;
use crate::work::Work;
use derived_rows::{Derived, Factor};
use row_kit::{List, Program};
use std::alloc::{AllocError, Global};

// The most rows that are taken.
const MOST_NEW: usize = 60;

// Rows that are broken less are none: a hundredth.
const LEAST_MERIT: i64 = 10_486;

// The most divisors that are listed.
const MOST_LISTED: usize = 512;

/// What rows are looked for with, and those that were found.
#[derive(Drop)]
pub struct Finder {
    mixture: Mixture,
    slacks: Mixture,
    groups: Groups,
    choices: Choices,
    divisors: Vec<i64>,
    // A number of each mixture that was looked at.
    keys: Vec<u64>,
    candidates: Vec<Candidate>,
}

impl Finder {
    /// Nothing has been found among the rows of a program.
    pub fn new(alloc: Global, program: &Program) -> Result<Finder, AllocError> {
        Ok(Finder {
            mixture: Mixture::new(alloc, program.root.len())?,
            slacks: Mixture::new(alloc, program.root.len())?,
            groups: Groups::new(alloc, program)?,
            choices: Choices::new(alloc, program)?,
            divisors: Vec::with_capacity(alloc, MOST_LISTED)?,
            keys: Vec::new(alloc),
            candidates: Vec::new(alloc),
        })
    }

    /// Looks for rows that are derived from a mixture and broken where a bound stands, unless it was looked at before.
    pub fn look(
        &mut self,
        alloc: Global,
        program: &Program,
        point: &Point,
        factors: &[Factor],
        work: &mut Work,
    ) -> Result<(), AllocError> {
        let key = key_of(factors);
        if self.keys.as_slice().contains(&key) {
            return Ok(());
        }
        self.keys.push(key)?;
        self.mixture.mix(program.rows.as_slice(), factors, work);
        if self.mixture.is_small(program.root.as_slice()) {
            self.try_groups(alloc, program, point, factors, false, work)?;
            self.try_groups(alloc, program, point, factors, true, work)?;
        }
        Ok(())
    }

    // Looks for a row that is derived with groups of rows, or of single slots.
    fn try_groups(
        &mut self,
        alloc: Global,
        program: &Program,
        point: &Point,
        factors: &[Factor],
        by_rows: bool,
        work: &mut Work,
    ) -> Result<(), AllocError> {
        let rows = program.rows.as_slice();
        self.groups
            .form(&self.mixture, point, &self.choices, rows, by_rows, work);
        if by_rows && !self.groups.has_several() {
            return Ok(());
        }
        let case = Case {
            mixture: &self.mixture,
            factors,
            point,
        };
        let found = best_divisor(&case, &mut self.groups, &mut self.divisors, work);
        if found.merit < LEAST_MERIT {
            return Ok(());
        }
        let slacks = &mut self.slacks;
        let divisor = found.divisor;
        let row = made(alloc, rows, &case, &self.groups, slacks, divisor, work)?;
        match row {
            Some(candidate) if candidate.merit > LEAST_MERIT => {
                self.candidates.push(candidate)?;
            }
            _ => {}
        }
        Ok(())
    }

    /// The best rows that were found.
    pub fn best(&self, alloc: Global) -> Result<Vec<Derived>, AllocError> {
        let places = best_of(alloc, self.candidates.as_slice(), MOST_NEW)?;
        let mut rows = Vec::with_capacity(alloc, places.len())?;
        for place in places.as_slice() {
            if let Some(candidate) = self.candidates.get(*place as usize) {
                rows.push(copy_of(alloc, &candidate.derived)?)?;
            }
        }
        Ok(rows)
    }
}

// A number of a mixture. Two of the same number are taken for one.
fn key_of(factors: &[Factor]) -> u64 {
    let mut key = 0u64;
    for factor in factors {
        key = mixed(mixed(key, u64::from(factor.row)), size_of(factor.by));
    }
    key
}

// A factor as a number that is not negative.
fn size_of(by: i64) -> u64 {
    let size = by.unsigned_abs();
    if by < 0 {
        size.saturating_add(1 << 40)
    } else {
        size
    }
}

/// A key with one more number.
pub fn mixed(key: u64, number: u64) -> u64 {
    (key ^ (key >> 29))
        .wrapping_mul(0x9E37_79B9_7F4A_7C15)
        .wrapping_add(number)
}

// A copy of a derived row.
fn copy_of(alloc: Global, derived: &Derived) -> Result<Derived, AllocError> {
    Ok(Derived {
        divisor: derived.divisor,
        rest: derived.rest,
        up: derived.up,
        down: derived.down,
        factors: List::from_slice(alloc, derived.factors.as_slice())?,
        groups: List::from_slice(alloc, derived.groups.as_slice())?,
        entries: List::from_slice(alloc, derived.entries.as_slice())?,
    })
}
