//! Planning without one of the deliveries that are left.
ghost use Rattle.std.specs.Prelude.{◌≡◌, ◌≤◌, ◌<◌, length, IfOk};
ghost use Rattle.stn_model.specs.Sound.{Sound};
ghost use Rattle.fewer_orders.specs.Alone.{alone};
ghost use Rattle.order_text.specs.Marks.{left_of};
ghost use Rattle.order_conflict.specs.Conflict.{mark_of, left_without, TrialSays};

use box_advice::Advisers;
use fewer_orders::alone;
use order_text::Mark;
use std::alloc::{AllocError, Global};
use stn_model::{Answer, Outcome, Plant};
use stn_solve::plan;

// What becomes of a delivery that is left: it goes where the others that are left have no plan.
pub fn trial<A: Advisers>(
    alloc: Global,
    plant: &Plant,
    budget: u32,
    marks: &[Mark],
    place: usize,
) -> Result<Mark, AllocError>
    requires sound { Sound plant.now }
    requires budget { (1 ≤ budget) × (budget ≤ 100000) }
    requires each { length marks.now ≡ length plant.now.deliveries }
    requires within { place < length marks.now }
    ensures { IfOk result (λ mark. TrialSays mark budget (alone plant.now
        (left_without place marks.now))) }
{
    let kept = kept_without(alloc, marks, place)?;
    let fewer = alone(alloc, plant, kept.as_slice())?;
    let Outcome { answer, .. } = plan::<A>(alloc, &fewer, &[], budget)?;
    Ok(mark_of(&answer))
}

// Which deliveries are left, without the one at a place.
fn kept_without(alloc: Global, marks: &[Mark], place: usize) -> Result<Vec<bool>, AllocError>
    requires { place < length marks.now }
    ensures { IfOk result (λ kept. kept.items ≡ left_without place marks.now) }
{
    let mut kept = kept_of(alloc, marks)?;
    kept[place] = false;
    Ok(kept)
}

// Which deliveries are left.
pub fn kept_of(alloc: Global, marks: &[Mark]) -> Result<Vec<bool>, AllocError>
    ensures { IfOk result (λ kept. kept.items ≡ left_of marks.now) }
{
    marks.iter().map(|mark| mark.is_left()).collect(alloc)
}

// What planning without a delivery says of it.
fn mark_of(answer: &Answer) -> Mark
    ensures { result ≡ mark_of answer.now }
{
    match answer {
        Answer::Optimal { plan: _, profit: _ } => Mark::Needed,
        Answer::Infeasible => Mark::Out,
        Answer::BudgetSpent {
            plan,
            profit: _,
            cap: _,
        } => match plan {
            Some(_) => Mark::Needed,
            None => Mark::Open,
        },
    }
}
