//! What a search that ended says of a plant.
ghost use Rattle.std.specs.Prelude.{◌≡◌, IfOk, IfSome, None, Some, length};
ghost use Rattle.stn_model.specs.Sound.{Sound};
ghost use Rattle.time_grid.specs.Slots.{slots};
ghost use Rattle.time_grid.specs.PlanPoint.{IsPlanOf};
ghost use Rattle.plan_told.specs.Telling.{IsTold, open_cap, told_bare, told_plan};

use branch_tree::Ended;
use proof_log::Claim;
use proof_tree::Capped;
use row_kit::Found;
use std::alloc::{AllocError, Global};
use stn_model::{Answer, List, Outcome, Plant, Start};
use time_grid::Grid;

/// An outcome, and the claim of its answer.
#[derive(Drop)]
pub struct Told {
    /// The outcome.
    pub outcome: Outcome,
    /// The claim of its answer.
    pub claim: Claim,
}

/// What a search that ended says of a plant: with nothing left open the plan of the best found point is a best one, or no plan is
/// admitted, and else it is the best known one, and no plan is above the cap. It takes memory for the plan.
pub fn told_of(alloc: Global, plant: &Plant, ended: Ended) -> Result<Told, AllocError>
    requires sound { Sound plant.now }
    requires places { IfSome ended.best (λ found. length found.point ≡ length (slots plant.now)) }
    ensures { IfOk result (IsTold plant.now ended) }
{
    let cap = cap_left(&ended);
    let Ended { best, spent, .. } = ended;
    match best {
        Some(found) => {
            let plan = plan_at(alloc, plant, &found)?;
            Ok(with_plan(plan, found, cap, spent))
        }
        None => Ok(without_plan(cap, spent)),
    }
}

// The cap, where a box was left open.
fn cap_left(ended: &Ended) -> Option<i128>
    ensures { result ≡ open_cap ended.now }
{
    if !ended.left_open {
        return None;
    }
    match ended.cap {
        Capped::AtMost(cap) => Some(cap),
        Capped::NoPoint => None,
        Capped::Bad => None,
    }
}

// The plan of a found point.
fn plan_at(alloc: Global, plant: &Plant, found: &Found) -> Result<List<Start>, AllocError>
    requires sound { Sound plant.now }
    requires places { length found.now.point ≡ length (slots plant.now) }
    ensures { IfOk result (IsPlanOf plant.now found.now.point) }
{
    let grid = Grid::new(alloc, plant)?;
    grid.plan_of(alloc, plant, found.point.as_slice())
}

// What is told of the plan of the best found point; a cap stands for a box that was left open.
fn with_plan(plan: List<Start>, found: Found, cap: Option<i128>, spent: u32) -> Told
    ensures { result ≡ told_plan plan found cap spent }
{
    match cap {
        None => best_plan(plan, found, spent),
        Some(cap) => plan_below(plan, found, cap, spent),
    }
}

// What is told of a plan that no plan out-earns.
fn best_plan(plan: List<Start>, found: Found, spent: u32) -> Told
    ensures { result ≡ told_plan plan found None spent }
{
    let Found { value, point } = found;
    let answer = Answer::Optimal {
        plan,
        profit: value,
    };
    let claim = Claim::Optimal {
        profit: value,
        point,
    };
    let outcome = Outcome {
        answer,
        boxes: spent,
    };
    Told { outcome, claim }
}

// What is told of a plan and the cap of the boxes that were left open.
fn plan_below(plan: List<Start>, found: Found, cap: i128, spent: u32) -> Told
    ensures { result ≡ told_plan plan found (Some cap) spent }
{
    let Found { value, point } = found;
    let answer = Answer::BudgetSpent {
        plan: Some(plan),
        profit: value,
        cap,
    };
    let claim = Claim::Between {
        profit: value,
        cap,
        point,
    };
    let outcome = Outcome {
        answer,
        boxes: spent,
    };
    Told { outcome, claim }
}

// What is told where no point was found.
fn without_plan(cap: Option<i128>, spent: u32) -> Told
    ensures { result ≡ told_bare cap spent }
{
    let (answer, claim) = match cap {
        None => (Answer::Infeasible, Claim::Infeasible),
        Some(cap) => (
            Answer::BudgetSpent {
                plan: None,
                profit: 0,
                cap,
            },
            Claim::Below { cap },
        ),
    };
    Told {
        outcome: Outcome {
            answer,
            boxes: spent,
        },
        claim,
    }
}
