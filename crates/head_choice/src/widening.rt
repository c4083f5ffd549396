//! The program of a part of a plant's choices with the sums and the setups that are chosen for it.
ghost use Rattle.std.specs.Prelude.{◌≡◌, ◌<◌, ◌≤◌, ◌++◌, length, IfOk};
ghost use Rattle.stn_model.specs.Points.{slot_limit};
ghost use Rattle.stn_model.specs.Sound.{Sound};
ghost use Rattle.row_set.specs.Parts.{IsPartOf};
ghost use Rattle.setup_slots.specs.Larger.{HasPlantSlots};
ghost use Rattle.setup_slots.specs.Several.{AreSetUp, choices_before};
ghost use Rattle.sum_slots.specs.Shown.{AreRanges};
ghost use Rattle.head_choice.specs.Heading.{AreChosen, CanSetUp, HasUnitRoom, IsWidened};

use crate::setting::units_to_set_up;
use row_kit::{Domain, List, Program};
use setup_slots::{SetUp, set_up};
use std::alloc::{AllocError, Global};
use stn_model::{Plant, slot_limit};
use sum_choice::choose_sums;
use sum_slots::{Sum, with_sums};

/// A part of a plant's choices with sums and setups, before rows are derived.
#[derive(Drop)]
pub struct Widened {
    pub sums: List<Sum>,
    // The units with setups.
    pub units: List<u32>,
    pub set: SetUp,
    // The domains over which a head with these sums and setups is judged.
    pub domains: List<Domain>,
}

// A part with sums.
#[derive(Drop)]
pub struct Summed {
    pub sums: List<Sum>,
    pub program: Program,
}

// A program with the setups of units.
#[derive(Drop)]
pub struct Equipped {
    pub units: List<u32>,
    pub set: SetUp,
}

// A part of a plant's choices with the sums and the setups that are chosen for it, in a head that is judged over domains.
pub fn wide_part(
    alloc: Global,
    plant: &Plant,
    part: Program,
    judged: List<Domain>,
) -> Result<Widened, AllocError>
    requires sound { Sound plant.now }
    requires part { IsPartOf plant.now part }
    requires ranges { AreRanges part judged }
    requires few_slots { length part.root ≤ slot_limit plant.now }
    requires few_rows { length part.rows ≤ 198464 }
    ensures { IfOk result (IsWidened plant.now part judged) }
{
    let given = part.root.len();
    let most = slot_limit(plant) as usize;
    let Summed { sums, program } = sums_for(alloc, part, judged.as_slice(), most)?;
    let Equipped { units, set } = setups_for(alloc, plant, program)?;
    let domains = joined(judged, &set.program.root.as_slice()[given..])?;
    Ok(Widened {
        sums,
        units,
        set,
        domains,
    })
}

// A part with the sums that are chosen for it, so that it has at most so many slots.
fn sums_for(
    alloc: Global,
    part: Program,
    judged: &[Domain],
    most: usize,
) -> Result<Summed, AllocError>
    requires ranges { AreRanges part judged.now }
    requires few_slots { length part.root ≤ most }
    requires room { most ≤ 4096 }
    requires few_rows { length part.rows ≤ 198464 }
    ensures { IfOk result (λ made. AreChosen most part judged.now made.sums made.program) }
{
    let sums = choose_sums(alloc, &part, judged, most)?;
    let program = with_sums(alloc, part, judged, sums.as_slice())?;
    Ok(Summed { sums, program })
}

// A program with the setups that are chosen for it.
fn setups_for(alloc: Global, plant: &Plant, between: Program) -> Result<Equipped, AllocError>
    requires sound { Sound plant.now }
    requires slots { HasPlantSlots plant.now between }
    ensures can { IfOk result (λ made. CanSetUp plant.now between made.units) }
    ensures made { IfOk result
        (λ made. AreSetUp plant.now made.units between made.set.program) }
    ensures choices { IfOk result (λ made. made.set.choices ≡ choices_before made.units between) }
{
    let units = units_to_set_up(alloc, plant, &between)?;
    let set = with_units(alloc, plant, between, units.as_slice())?;
    Ok(Equipped { units, set })
}

// The program with the setups of units for which there is room.
fn with_units(
    alloc: Global,
    plant: &Plant,
    between: Program,
    units: &[u32],
) -> Result<SetUp, AllocError>
    requires sound { Sound plant.now }
    requires slots { HasPlantSlots plant.now between }
    requires room { 0 < length units.now → HasUnitRoom plant.now between units.now }
    ensures made { IfOk result (λ set. AreSetUp plant.now units.now between set.program) }
    ensures choices { IfOk result (λ set. set.choices ≡ choices_before units.now between) }
{
    match set_up(alloc, plant, between, units)? {
        Some(set) => Ok(set),
        None => unreachable!(),
    }
}

// Domains, and behind them others.
fn joined(first: List<Domain>, second: &[Domain]) -> Result<List<Domain>, AllocError>
    ensures { IfOk result (λ domains. domains ≡ first ++ second.now) }
{
    let mut domains = first;
    for domain in second {
        domains.push(*domain)?;
    }
    Ok(domains)
}
