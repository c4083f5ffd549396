//! Planning a plant: the part of its choices is the whole.
ghost use Rattle.std.specs.Prelude.{◌≡◌, ◌≤◌, ◌⊎◌, None, Err, IsTrue, IfOk, OnErr};
ghost use Rattle.stn_edge.specs.Count.{Rose};
ghost use Rattle.stn_edge.specs.Files.{OthersStay};
ghost use Rattle.stn_model.specs.Sound.{Sound};
ghost use Rattle.stn_model.specs.Answers.{IsOutcome};
ghost use Rattle.stn_model.specs.Feasible.{Feasible};
ghost use Rattle.stn_model.specs.Profit.{profit};
ghost use Rattle.time_grid.specs.PlanPoint.{HasPoint, plan_point};
ghost use Rattle.row_set.specs.PlantProgram.{IsMadeOf, IsProgramOf, plant_root};
ghost use Rattle.proof_tree.specs.Tree.{tree_of};
ghost use Rattle.plan_told.specs.Proofs.{HasPlantProof, IsLeftOf, IsPlantProof, bytes_in, claim_of};
ghost use Rattle.stn_solve.specs.Begun.{EarnsAtLeast};

use crate::part::{plan_rows, solve_rows_to};
use crate::plain::solve_rows;
use crate::plant_part::PlantPart;
use crate::solved::Solved;
use box_advice::Advisers;
use row_kit::{Domain, List, Program};
use row_relax::Rows;
use row_set::{plant_root, program_of};
use std::alloc::{AllocError, Global};
use stn_edge::{Shelf, Stop};
use stn_model::{Outcome, Plant, Start};
use time_grid::Grid;

// The program of a plant, the domains over which its head is judged, and a point to begin with.
#[derive(Drop)]
pub struct Whole {
    pub program: Program,
    pub judged: List<Domain>,
    pub point: Vec<u8>,
}

/// Plans a plant with at most so many boxes, and begins with a plan: where that is feasible, the PROFIT is at least what it earns,
/// whatever the budget. There is a proof of the outcome, which is not kept.
pub fn plan<A: Advisers>(
    alloc: Global,
    plant: &Plant,
    start: &[Start],
    budget: u32,
) -> Result<Outcome, AllocError>
    requires sound { Sound plant.now }
    requires budget { (1 ≤ budget) × (budget ≤ 100000) }
    ensures outcome { IfOk result (IsOutcome plant.now budget) }
    ensures proof { IfOk result (HasPlantProof plant.now None) }
    ensures begun { IfOk result (λ outcome. Feasible plant.now start.now
        → EarnsAtLeast (profit plant.now start.now) outcome.answer) }
{
    let Whole {
        program,
        judged,
        point,
    } = whole_of(alloc, plant, start)?;
    plan_rows::<A>(alloc, plant, program, judged, 0, budget, &point)
}

// A plant as the whole of its choices, and the point of a plan.
fn whole_of(alloc: Global, plant: &Plant, start: &[Start]) -> Result<Whole, AllocError>
    requires { Sound plant.now }
    ensures made { IfOk result (λ whole. IsMadeOf plant.now whole.program) }
    ensures means { IfOk result (λ whole. IsProgramOf plant.now whole.program) }
    ensures judged { IfOk result (λ whole. whole.judged ≡ plant_root plant.now) }
    ensures point { IfOk result (λ whole. HasPoint plant.now start.now
        → whole.point.items ≡ plan_point plant.now start.now) }
{
    let program = program_of(alloc, plant)?;
    let point = point_of(alloc, plant, start)?;
    let judged = plant_root(alloc, plant)?;
    Ok(Whole {
        program,
        judged,
        point,
    })
}

/// The point of a plan, where it has one. It takes memory for the slots.
pub fn point_of(alloc: Global, plant: &Plant, plan: &[Start]) -> Result<Vec<u8>, AllocError>
    requires { Sound plant.now }
    ensures { IfOk result (λ point. HasPoint plant.now plan.now
        → point.items ≡ plan_point plant.now plan.now) }
{
    let grid = Grid::new(alloc, plant)?;
    let mut point = vec![in alloc; 0u8; grid.slot_count() as usize]?;
    let _has = grid.point_of(plant, plan, &mut point);
    Ok(point)
}

/// Plans a plant with at most so many boxes, and keeps the proof. Its log declares nothing.
pub fn solve<A: Advisers>(alloc: Global, plant: &Plant, budget: u32) -> Result<Solved, AllocError>
    requires sound { Sound plant.now }
    requires budget { (1 ≤ budget) × (budget ≤ 100000) }
    ensures outcome { IfOk result (λ solved. IsOutcome plant.now budget solved.outcome) }
    ensures proof { IfOk result
        (λ solved. IsPlantProof plant.now solved.outcome (tree_of solved.tree)) }
    ensures claim { IfOk result
        (λ solved. solved.claim ≡ claim_of plant.now solved.outcome.answer) }
{
    let program = program_of(alloc, plant)?;
    let rows = Rows {
        program,
        choices: None,
    };
    solve_rows::<A>(alloc, plant, &rows, budget)
}

/// Plans a plant as `plan` does, and writes the log of the proof to a file while it searches. After an error the file is as before, or
/// holds a first part of a log. `Failed` comes only where the store counted a fault of writing.
pub fn solve_to<A: Advisers, F: Shelf>(
    alloc: Global,
    plant: &Plant,
    start: &[Start],
    budget: u32,
    files: &mut F,
    name: &str,
) -> Result<Outcome, Stop>
    requires sound { Sound plant.now }
    requires budget { (1 ≤ budget) × (budget ≤ 100000) }
    requires allowed { IsTrue (F.may_write files.old name.now) }
    ensures outcome { IfOk result (IsOutcome plant.now budget) }
    ensures proof { IfOk result (HasPlantProof plant.now (bytes_in name.now (F.files files.new))) }
    ensures begun { IfOk result (λ outcome. Feasible plant.now start.now
        → EarnsAtLeast (profit plant.now start.now) outcome.answer) }
    ensures err { OnErr result (IsLeftOf plant.now name.now (F.files files.old)
        (F.files files.new)) }
    ensures others { OthersStay name.now (F.files files.old) (F.files files.new) }
    ensures readable { F.may_read files.new ≡ F.may_read files.old }
    ensures writable { F.may_write files.new ≡ F.may_write files.old }
    ensures no_read { F.read_faults files.new ≡ F.read_faults files.old }
    ensures later { F.write_faults files.old ≤ F.write_faults files.new }
    ensures failed { result ≡ Err Stop.Failed
        → Rose (F.write_faults files.old) (F.write_faults files.new) }
{
    let Whole {
        program,
        judged,
        point,
    } = whole_of(alloc, plant, start)?;
    let part = PlantPart {
        plant,
        program,
        judged,
        levels: 0,
    };
    solve_rows_to::<A, _>(alloc, part, budget, &point, files, name)
}
