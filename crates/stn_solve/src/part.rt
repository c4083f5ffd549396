//! Planning over a part of a plant's choices.
ghost use Rattle.std.specs.Prelude.{◌≡◌, ◌≤◌, None, Err, IsTrue, IfOk, OnErr};
ghost use Rattle.stn_edge.specs.Count.{Rose};
ghost use Rattle.stn_edge.specs.Files.{OthersStay};
ghost use Rattle.stn_model.specs.Sound.{Sound};
ghost use Rattle.row_set.specs.Parts.{IsPartOf};
ghost use Rattle.sum_slots.specs.Shown.{AreRanges};
ghost use Rattle.plan_told.specs.Outcomes.{IsPartOutcome};
ghost use Rattle.plan_told.specs.Proofs.{HasProof, LeavesSomeBegun, bytes_in};
ghost use Rattle.stn_solve.specs.Begun.{EarnsPoint};

use crate::headed::{plan_headed, solve_headed_to};
use crate::plain::{plan_plain, solve_plain_to};
use crate::plant_part::PlantPart;
use box_advice::Advisers;
use row_kit::{Domain, List, Program};
use row_relax::Rows;
use std::alloc::{AllocError, Global};
use stn_edge::{Shelf, Stop};
use stn_model::{Outcome, Plant};
use sum_choice::has_many;

/// Plans over a part of a plant's choices, with at most so many boxes. Where its slots from the number `levels` on have more than
/// 50,000 points, it is searched with sums and derived rows, which the head of its log declares: so are then all parts that are told
/// apart by as many first slots. The head is judged over the domains `judged`, and is a matter of these and of the rows alone: those
/// of the plant's own slots give all parts the same head. There is a proof of the outcome, which is not kept. The search begins with
/// the point `start`, where that is lawful, so that the PROFIT is at least what it is worth.
pub fn plan_rows<A: Advisers>(
    alloc: Global,
    plant: &Plant,
    part: Program,
    judged: List<Domain>,
    levels: u32,
    budget: u32,
    start: &[u8],
) -> Result<Outcome, AllocError>
    requires sound { Sound plant.now }
    requires part { IsPartOf plant.now part }
    requires ranges { AreRanges part judged }
    requires budget { (1 ≤ budget) × (budget ≤ 100000) }
    ensures outcome { IfOk result (IsPartOutcome plant.now part budget) }
    ensures proof { IfOk result (HasProof plant.now part judged levels None) }
    ensures begun { IfOk result (λ outcome. EarnsPoint part start.now outcome.answer) }
{
    if has_many(&part, levels) {
        return plan_headed::<A>(alloc, plant, part, judged, budget, start);
    }
    let rows = Rows {
        program: part,
        choices: None,
    };
    plan_plain::<A>(alloc, plant, &rows, budget, start)
}

/// Plans over a part of a plant's choices, as `plan_rows` does, and writes the log of the proof to a file while it searches: of
/// version 4 where it has a head, and else of version 2. After an error the file is as before, or holds a first part of
/// a log. `Failed` comes only where the store counted a fault of writing.
pub fn solve_rows_to<A: Advisers, F: Shelf>(
    alloc: Global,
    part: PlantPart,
    budget: u32,
    start: &[u8],
    files: &mut F,
    name: &str,
) -> Result<Outcome, Stop>
    requires sound { Sound part.plant.now }
    requires part { IsPartOf part.plant.now part.program }
    requires ranges { AreRanges part.program part.judged }
    requires budget { (1 ≤ budget) × (budget ≤ 100000) }
    requires allowed { IsTrue (F.may_write files.old name.now) }
    ensures outcome { IfOk result
        (IsPartOutcome part.entry.plant.now part.entry.program budget) }
    ensures proof { IfOk result
        (HasProof part.entry.plant.now part.entry.program part.entry.judged part.entry.levels
        (bytes_in name.now (F.files files.new))) }
    ensures begun { IfOk result
        (λ outcome. EarnsPoint part.entry.program start.now outcome.answer) }
    ensures err { OnErr result (LeavesSomeBegun part.entry.plant.now part.entry.program
        part.entry.judged part.entry.levels name.now (F.files files.old) (F.files files.new)) }
    ensures others { OthersStay name.now (F.files files.old) (F.files files.new) }
    ensures readable { F.may_read files.new ≡ F.may_read files.old }
    ensures writable { F.may_write files.new ≡ F.may_write files.old }
    ensures no_read { F.read_faults files.new ≡ F.read_faults files.old }
    ensures later { F.write_faults files.old ≤ F.write_faults files.new }
    ensures failed { result ≡ Err Stop.Failed
        → Rose (F.write_faults files.old) (F.write_faults files.new) }
{
    if has_many(&part.program, part.levels) {
        return solve_headed_to::<A, _>(alloc, part, budget, start, files, name);
    }
    let PlantPart { plant, program, .. } = part;
    let rows = Rows {
        program,
        choices: None,
    };
    solve_plain_to::<A, _>(alloc, plant, &rows, budget, start, files, name)
}
