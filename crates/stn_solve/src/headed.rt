//! Planning over the rows of a part of a plant's choices with what the head of its log declares.
ghost use Rattle.std.specs.Prelude.{◌≡◌, ◌≤◌, ℕ, true, None, Err, IsTrue, IfOk, OnErr};
ghost use Rattle.stn_edge.specs.Count.{Rose};
ghost use Rattle.store_frames.specs.Frames.{WritesOne};
ghost use Rattle.sum_choice.specs.Headed.{is_headed};
ghost use Rattle.plan_told.specs.Outcomes.{IsPartOutcome};
ghost use Rattle.plan_told.specs.Proofs.{HasProof, LeavesSomeBegun, bytes_in};
ghost use Rattle.stn_solve.specs.Begun.{EarnsPoint};
ghost use Rattle.stn_solve.specs.laws.Telling.{CanPlanHeaded};

use crate::beginning::{Beginning, begun_at};
use crate::planning::{plan_over, solve_over};
use crate::plant_part::PlantPart;
use box_advice::Advisers;
use row_kit::{Domain, List, Program};
use std::alloc::{AllocError, Global};
use stn_edge::{Shelf, Stop};
use stn_model::{Outcome, Plant};

// Plans over the program of a part with the sums, the setups and the derivations that are chosen for it, in a head that is judged over
// domains, with at most so many boxes.
pub fn plan_headed<A: Advisers>(
    alloc: Global,
    plant: &Plant,
    part: Program,
    judged: List<Domain>,
    budget: u32,
    start: &[u8],
) -> Result<Outcome, AllocError>
    requires { CanPlanHeaded plant.now part judged budget }
    ensures outcome { IfOk result (IsPartOutcome plant.now part budget) }
    ensures proof { (levels : ℕ) → is_headed part levels ≡ true
        → IfOk result (HasProof plant.now part judged levels None) }
    ensures begun { IfOk result (λ outcome. EarnsPoint part start.now outcome.answer) }
{
    let Beginning {
        headed,
        point,
        least,
    } = begun_at::<A>(alloc, plant, part, judged, start)?;
    plan_over::<A>(alloc, plant, &headed, least, budget, point.as_slice())
}

// Plans over the program of a part with the sums, the setups and the derivations that are chosen for it, and writes the log of the
// proof, of version 4, whose head declares them.
pub fn solve_headed_to<A: Advisers, F: Shelf>(
    alloc: Global,
    part: PlantPart,
    budget: u32,
    start: &[u8],
    files: &mut F,
    name: &str,
) -> Result<Outcome, Stop>
    requires can { CanPlanHeaded part.plant.now part.program part.judged budget }
    requires allowed { IsTrue (F.may_write files.old name.now) }
    ensures outcome { IfOk result
        (IsPartOutcome part.entry.plant.now part.entry.program budget) }
    ensures proof { (levels : ℕ) → is_headed part.entry.program levels ≡ true → IfOk result
        (HasProof part.entry.plant.now part.entry.program part.entry.judged levels
        (bytes_in name.now (F.files files.new))) }
    ensures begun { IfOk result
        (λ outcome. EarnsPoint part.entry.program start.now outcome.answer) }
    ensures err { (levels : ℕ) → is_headed part.entry.program levels ≡ true
        → OnErr result (LeavesSomeBegun part.entry.plant.now part.entry.program part.entry.judged
        levels name.now (F.files files.old) (F.files files.new)) }
    ensures frame { WritesOne F.Shelf name.now files.old files.new }
    ensures failed { result ≡ Err Stop.Failed
        → Rose (F.write_faults files.old) (F.write_faults files.new) }
{
    let PlantPart {
        plant,
        program,
        judged,
        ..
    } = part;
    let begun = begun_at::<A>(alloc, plant, program, judged, start)?;
    solve_over::<A, _>(alloc, plant, begun, budget, files, name)
}
