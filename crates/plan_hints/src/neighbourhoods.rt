//! Small searches around the best plan.
use crate::diving::ONE;
use crate::finder::Finder;
use crate::small_search::Effort;
use dual_simplex::Amount;
use plan_repair::{Hood, narrowed};
use row_activity::numbered;
use row_kit::Program;
use std::alloc::AllocError;

// What is that near to a whole number counts as whole: 2 to the power -10.
const NEAR: i64 = 1_048_576;

impl Finder {
    /// Searches its area, where the best plan is left free by a neighbourhood, and the quanta of all that it starts. `seen` is what the
    /// slots came to in the bound with which the plan is compared. Where memory is wanting, nothing is searched.
    pub fn search_hood(&mut self, program: &Program, hood: Hood, seen: &[Amount], effort: Effort) {
        let mark = self.field.mark();
        self.agree(program, hood, seen);
        if self.cut(program) {
            let _ = self.search_left(program, effort);
        }
        self.field.back(&self.tables, mark);
    }

    // Searches what is left of a program over its area, with a finder of its own.
    fn search_left(&mut self, program: &Program, effort: Effort) -> Result<(), AllocError> {
        let Some(left) = narrowed(self.alloc, program, &self.field)? else {
            return Ok(());
        };
        let mut finder = Finder::new(self.alloc, &left)?;
        let plans = &mut self.plans;
        let _ = finder.plans.kept.take(&left, plans.kept.values.as_slice());
        finder.search(&left, effort);
        let _ = plans
            .kept
            .take(program, finder.plans.kept.values.as_slice());
        self.work = self.work.saturating_add(finder.work);
        Ok(())
    }

    // About the place up to before which a slot holds its lane.
    fn end_of(&self, slot: usize) -> u32 {
        match self.lists.ends.get(slot) {
            None => 0,
            Some(end) => *end,
        }
    }

    // Keeps outside a neighbourhood which slots the best plan starts.
    fn agree(&mut self, program: &Program, hood: Hood, seen: &[Amount]) {
        for slot in 0..program.tags.len() {
            let value = value_at(self.plans.kept.values.as_slice(), slot);
            let held = if hood == Hood::Bound {
                slot < seen.len() && is_agreed(&seen[slot], value)
            } else {
                !hood.frees(program.tags.get(slot), self.end_of(slot))
            };
            if held {
                self.hold(numbered(slot), value);
            }
        }
    }

    // Keeps that a slot is not started, or that it is, with its quanta free.
    fn hold(&mut self, slot: u32, value: u8) {
        if value == 0 {
            self.field.keep_value(&self.tables, slot, 0);
        } else {
            self.field.keep_above(&self.tables, slot, 0);
        }
    }
}

// The value at a place, and 0 where there is none.
fn value_at(values: &[u8], place: usize) -> u8 {
    if place < values.len() {
        values[place]
    } else {
        0
    }
}

// Whether a bound and a plan agree on whether a slot is started.
fn is_agreed(amount: &Amount, value: u8) -> bool {
    if value == 0 {
        amount.started <= NEAR
    } else {
        amount.started >= ONE - NEAR
    }
}
