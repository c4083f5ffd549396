//! Passes over the deliveries that are left.
ghost use Rattle.std.specs.Prelude.{◌≡◌, ◌≤◌, ◌<◌, length, slice_index_or, IfOk};
ghost use Rattle.stn_model.specs.Best.{NoPlan};
ghost use Rattle.stn_model.specs.Sound.{Sound};
ghost use Rattle.order_text.specs.declared.mark.Mark.TheVariants.{Out};
ghost use Rattle.order_text.specs.Marks.{is_left};
ghost use Rattle.order_conflict.specs.Conflict.{
  left_plant,
  planned,
  AreMarks,
  IsConflict,
};
ghost use Rattle.order_conflict.specs.Passes.{all_open, IsPassed, IsMarkedAnew};

use crate::answer::ConflictAnswer;
use crate::trials::trial;
use box_advice::Advisers;
use order_text::Mark;
use std::alloc::{AllocError, Global};
use stn_model::{Answer, Outcome, Plant};
use stn_solve::plan;

/// Plans the plant with at most so many boxes, and where no plan is feasible, leaves deliveries out: one without which the others
/// that are left have no plan goes for good, in the order of the file, pass after pass, until a whole pass leaves none out. Each
/// step has so many boxes; N deliveries take at most N (N + 1) / 2 steps after the first. An error says that no memory was found.
pub fn conflict<A: Advisers>(
    alloc: Global,
    plant: &Plant,
    budget: u32,
) -> Result<ConflictAnswer, AllocError>
    requires sound { Sound plant.now }
    requires budget { (1 ≤ budget) × (budget ≤ 100000) }
    ensures { IfOk result (IsConflict plant.now budget) }
{
    let Outcome { answer, .. } = plan::<A>(alloc, plant, &[], budget)?;
    match planned(answer) {
        Some(said) => Ok(said),
        None => {
            let marks = narrowed::<A>(alloc, plant, budget)?;
            Ok(ConflictAnswer::Among { marks })
        }
    }
}

// What planning the whole plant answers, where some plan may be feasible.
fn planned(answer: Answer) -> Option<ConflictAnswer>
    ensures { result ≡ planned answer }
{
    match answer {
        Answer::Optimal { plan, profit } => Some(ConflictAnswer::Planned { profit, plan }),
        Answer::Infeasible => None,
        Answer::BudgetSpent { plan, profit, .. } => match plan {
            Some(plan) => Some(ConflictAnswer::Planned { profit, plan }),
            None => Some(ConflictAnswer::Unsettled),
        },
    }
}

// The deliveries that can't be met together, where no plan meets all: passes until a whole one leaves none out.
fn narrowed<A: Advisers>(alloc: Global, plant: &Plant, budget: u32) -> Result<Vec<Mark>, AllocError>
    requires sound { Sound plant.now }
    requires budget { (1 ≤ budget) × (budget ≤ 100000) }
    requires none { NoPlan plant.now }
    ensures { IfOk result (λ marks. AreMarks plant.now budget marks.items) }
{
    let mut marks = all_open(alloc, plant)?;
    let mut changed = true;
    while changed {
        changed = pass::<A>(alloc, plant, budget, &mut marks)?;
    }
    Ok(marks)
}

// A mark on each delivery, all of which are left.
fn all_open(alloc: Global, plant: &Plant) -> Result<Vec<Mark>, AllocError>
    ensures { IfOk result (λ marks. marks.items ≡ all_open plant.now) }
{
    plant
        .deliveries
        .as_slice()
        .iter()
        .map(|_| Mark::Open)
        .collect(alloc)
}

// A pass over the deliveries that are left. It says whether it left one out; after an error of memory some may be left out.
fn pass<A: Advisers>(
    alloc: Global,
    plant: &Plant,
    budget: u32,
    marks: &mut Vec<Mark>,
) -> Result<bool, AllocError>
    requires sound { Sound plant.now }
    requires budget { (1 ≤ budget) × (budget ≤ 100000) }
    requires each { length marks.old.items ≡ length plant.now.deliveries }
    requires none { NoPlan (left_plant plant.now marks.old.items) }
    ensures { IfOk result (λ changed. IsPassed plant.now budget marks.old.items
        marks.new.items changed (length marks.old.items)) }
{
    let mut changed = false;
    for place in 0..marks.len() {
        if settle::<A>(alloc, plant, budget, marks, place)? {
            changed = true;
        }
    }
    Ok(changed)
}

// Marks the delivery at a place anew, where it is left, and says whether it goes.
fn settle<A: Advisers>(
    alloc: Global,
    plant: &Plant,
    budget: u32,
    marks: &mut Vec<Mark>,
    place: usize,
) -> Result<bool, AllocError>
    requires sound { Sound plant.now }
    requires budget { (1 ≤ budget) × (budget ≤ 100000) }
    requires each { length marks.old.items ≡ length plant.now.deliveries }
    requires within { place < length marks.old.items }
    ensures { IfOk result (IsMarkedAnew plant.now budget place marks.old.items marks.new.items) }
{
    if !is_left_at(marks.as_slice(), place) {
        return Ok(false);
    }
    let mark = trial::<A>(alloc, plant, budget, marks.as_slice(), place)?;
    marks[place] = mark;
    Ok(!mark.is_left())
}

// Whether the delivery at a place is left.
fn is_left_at(marks: &[Mark], place: usize) -> bool
    requires { place < length marks.now }
    ensures { result ≡ is_left (slice_index_or marks.now place Out) }
{
    marks[place].is_left()
}
