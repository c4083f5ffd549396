//! The sums, setups and derivations of a head, judged over domains.
ghost use Rattle.std.specs.Prelude.{◌≡◌, ◌+◌, ◌≤◌, ◌++◌, length, IfOk};
ghost use Rattle.std.specs.List.{All};
ghost use Rattle.std.specs.Result.{MatchResult};
ghost use Rattle.stn_model.specs.Sound.{Sound};
ghost use Rattle.row_kit.specs.Domain.{IsNormal};
ghost use Rattle.row_set.specs.Parts.{IsPartOf};
ghost use Rattle.sum_slots.specs.Shown.{AreRanges, IsShown};
ghost use Rattle.setup_slots.specs.Larger.{HasPlantSlots};
ghost use Rattle.setup_slots.specs.Several.{AreSetUp, HaveRoom, choices_before};
ghost use Rattle.derivations.specs.Growth.{rows_of};
ghost use Rattle.plant_check.specs.Heads.{AreDerived, IsHeadHeld, IsJudged, IsTailHeld, IsUnderivedAt};

use crate::unshown::first_unshown;
use derivation_lines::Tail;
use derivations::{Grown, with_derivations};
use log_lines::Defect;
use row_kit::{Domain, List, Program};
use row_relax::Rows;
use setup_lines::Setups;
use setup_slots::{SetUp, set_up};
use std::alloc::{AllocError, Global};
use stn_model::Plant;
use sum_slots::with_sums;

// The kind of the defect that the range of a sum is not shown.
const SUM_RANGE: u8 = 20;

// The kind of the defect that a derived row is not shown.
const DERIVED_ROW: u8 = 23;

/// The rows with the sums, setups and derivations of a head that is judged over domains, and where it has setups the choices by which
/// points are judged; or the first sum or derived row that is not shown, as a defect at its line. It takes memory for what the head
/// adds, and costs what `with_sums`, `set_up` and `with_derivations` cost.
pub fn judge_head(
    alloc: Global,
    plant: &Plant,
    program: Program,
    depth: u32,
    judged: &[Domain],
    setups: &Setups,
    tail: &Tail,
) -> Result<Result<Rows, Defect>, AllocError>
    requires sound { Sound plant.now }
    requires part { IsPartOf plant.now program }
    requires ranges { AreRanges program judged.now }
    requires held { IsHeadHeld plant.now program depth setups.now }
    requires tailed { IsTailHeld setups.now.limits setups.now.head tail.now }
    ensures { IfOk result (IsJudged plant.now program judged.now setups.now tail.now) }
{
    let head = &setups.head;
    let sums = head.sums.as_slice();
    if let Some(line) = first_unshown(&program, judged, sums, head.lines.as_slice()) {
        let kind = SUM_RANGE;
        return Ok(Err(Defect { line, kind }));
    }
    let slots = program.root.len();
    let between = with_sums(alloc, program, judged, sums)?;
    let wide = set_up_all(alloc, plant, between, setups.units.as_slice())?;
    if head.version == 3 {
        return Ok(Ok(rows_with(wide)));
    }
    let domains = joined(alloc, judged, &wide.program.root.as_slice()[slots..])?;
    judge_derivations(alloc, wide, domains.as_slice(), tail)
}

// The program with the setups of units for which there is room.
fn set_up_all(
    alloc: Global,
    plant: &Plant,
    between: Program,
    units: &[u32],
) -> Result<SetUp, AllocError>
    requires sound { Sound plant.now }
    requires slots { HasPlantSlots plant.now between }
    requires room { HaveRoom plant.now units.now between }
    ensures made { IfOk result (λ wide. AreSetUp plant.now units.now between wide.program) }
    ensures choices { IfOk result (λ wide. wide.choices ≡ choices_before units.now between) }
{
    match set_up(alloc, plant, between, units)? {
        Some(wide) => Ok(wide),
        None => unreachable!(),
    }
}

// Rows and the choices by which their points are judged.
fn rows_with(wide: SetUp) -> Rows
    ensures program { result.program ≡ wide.program }
    ensures choices { result.choices ≡ wide.choices }
{
    Rows {
        program: wide.program,
        choices: wide.choices,
    }
}

// The rows with derivations over domains, or the first of these that is not shown.
fn judge_derivations(
    alloc: Global,
    wide: SetUp,
    domains: &[Domain],
    tail: &Tail,
) -> Result<Result<Rows, Defect>, AllocError>
    requires same_slots { length domains.now ≡ length wide.program.root }
    requires normal { All IsNormal domains.now }
    requires few_rows { length wide.program.rows + rows_of tail.now.derivations ≤ 400000 }
    requires lines { length tail.now.lines ≡ length tail.now.derivations }
    ensures { IfOk result (λ judged. MatchResult judged
        (AreDerived wide.program wide.choices domains.now tail.now)
        (IsUnderivedAt wide.program domains.now tail.now)) }
{
    match with_derivations(alloc, wide.program, domains, tail.derivations.as_slice())? {
        Grown::Whole(program) => Ok(Ok(Rows {
            program,
            choices: wide.choices,
        })),
        Grown::Unshown(place) => {
            let line = *tail.lines.get(place);
            let kind = DERIVED_ROW;
            Ok(Err(Defect { line, kind }))
        }
    }
}

// Domains, and behind them others.
fn joined(alloc: Global, first: &[Domain], second: &[Domain]) -> Result<List<Domain>, AllocError>
    ensures { IfOk result (λ domains. domains ≡ first.now ++ second.now) }
{
    let mut domains = List::from_slice(alloc, first)?;
    for domain in second {
        domains.push(*domain)?;
    }
    Ok(domains)
}
