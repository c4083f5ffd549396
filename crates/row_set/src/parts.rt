//! The parts of a plant's program but its rows: what starts earn, what slots may have, where they stand, and what changeovers cost.
ghost use Rattle.std.specs.Prelude.{◌≡◌, ◌<◌, length, map, IfOk};
ghost use Rattle.stn_model.specs.Sound.{Sound};
ghost use Rattle.time_grid.specs.Slots.{slots, IsGrid, IsSlotOf};
ghost use Rattle.row_kit.specs.Row.{entries_from};
ghost use Rattle.row_set.specs.ProfitParts.{profit_part};
ghost use Rattle.row_set.specs.PlantProgram.{slot_domain, slot_tag, gap_change, has_cost, plant_changes, plant_root};

use crate::profit::{each_profit, fixed_profit};
use row_kit::{Change, Domain, Entry, List, Tag, entries_of};
use std::alloc::{AllocError, Global};
use stn_model::{Gap, Plant, first_cost};
use time_grid::Grid;

// What the slots count in the profit, as entries.
pub fn profit_entries(alloc: Global, plant: &Plant, grid: &Grid) -> Result<List<Entry>, AllocError>
    requires sound { Sound plant.now }
    requires grid { IsGrid plant.now grid.now }
    ensures { IfOk result (λ entries. entries
        ≡ entries_from 0 (map (profit_part plant.now) (slots plant.now))) }
{
    let parts = profit_parts(alloc, plant, grid)?;
    entries_of(alloc, &parts)
}

// What the slots count in the profit.
fn profit_parts(alloc: Global, plant: &Plant, grid: &Grid) -> Result<Vec<(i64, i64)>, AllocError>
    requires sound { Sound plant.now }
    requires grid { IsGrid plant.now grid.now }
    ensures { IfOk result (λ parts. parts.items ≡ map (profit_part plant.now) (slots plant.now)) }
{
    let mut parts = Vec::with_capacity(alloc, grid.slot_count() as usize)?;
    for place in 0..grid.slot_count() {
        parts.push(profit_part(plant, grid.run_period(place)))?;
    }
    Ok(parts)
}

// What a slot counts in the profit, fixed and for each quantum.
fn profit_part(plant: &Plant, slot: (u32, u32)) -> (i64, i64)
    requires sound { Sound plant.now }
    requires slot { IsSlotOf plant.now slot }
    ensures { result ≡ profit_part plant.now slot }
{
    (fixed_profit(plant, slot), each_profit(plant, slot))
}

/// What each slot of a plant may have: no start, or a batch of one of the sizes of its run. It takes memory for the slots.
pub fn plant_root(alloc: Global, plant: &Plant) -> Result<List<Domain>, AllocError>
    requires { Sound plant.now }
    ensures { IfOk result (λ root. root ≡ plant_root plant.now) }
{
    let grid = Grid::new(alloc, plant)?;
    root_of(alloc, plant, &grid)
}

// What the slots may have.
pub fn root_of(alloc: Global, plant: &Plant, grid: &Grid) -> Result<List<Domain>, AllocError>
    requires sound { Sound plant.now }
    requires grid { IsGrid plant.now grid.now }
    ensures { IfOk result (λ root. root ≡ map (slot_domain plant.now) (slots plant.now)) }
{
    let mut root = Vec::with_capacity(alloc, grid.slot_count() as usize)?;
    for place in 0..grid.slot_count() {
        root.push(slot_domain(plant, grid.run_period(place)))?;
    }
    Ok(List::from_vec(root))
}

// What a slot may have: no start, or one of a size of its run.
fn slot_domain(plant: &Plant, slot: (u32, u32)) -> Domain
    requires sound { Sound plant.now }
    requires run { slot.0 < length plant.now.runs }
    ensures { result ≡ slot_domain plant.now slot }
{
    let run = plant.runs.get(slot.0 as usize);
    Domain {
        zero: true,
        lo: run.min as u8,
        hi: run.max as u8,
    }
}

// Where the slots stand, and what they cost where they come first on their units.
pub fn tags_of(alloc: Global, plant: &Plant, grid: &Grid) -> Result<List<Tag>, AllocError>
    requires sound { Sound plant.now }
    requires grid { IsGrid plant.now grid.now }
    ensures { IfOk result (λ tags. tags ≡ map (slot_tag plant.now) (slots plant.now)) }
{
    let mut tags = Vec::with_capacity(alloc, grid.slot_count() as usize)?;
    for place in 0..grid.slot_count() {
        tags.push(slot_tag(plant, grid.run_period(place)))?;
    }
    Ok(List::from_vec(tags))
}

// Where a slot stands: in its unit's lane, at its period, with its task's kind, and with the cost of a first batch.
fn slot_tag(plant: &Plant, slot: (u32, u32)) -> Tag
    requires { slot.0 < length plant.now.runs }
    ensures { result ≡ slot_tag plant.now slot }
{
    let run = plant.runs.get(slot.0 as usize);
    Tag {
        lane: run.unit,
        place: slot.1,
        kind: run.task,
        opening: first_cost(plant, run.unit, run.task),
    }
}

// What changeovers cost.
#[tactic(auto, unfolding(crate::specs::PlantProgram::plant_changes))]
pub fn changes_of(alloc: Global, plant: &Plant) -> Result<List<Change>, AllocError>
    ensures { IfOk result (λ changes. changes ≡ plant_changes plant.now) }
{
    let mut changes = Vec::new(alloc);
    for gap in plant.gaps.as_slice() {
        if gap.cost > 0 {
            changes.push(gap_change(gap))?;
        }
    }
    Ok(List::from_vec(changes))
}

// What a gap's changeover costs.
fn gap_change(gap: &Gap) -> Change
    ensures { result ≡ gap_change gap.now }
{
    Change {
        lane: gap.unit,
        from: gap.from,
        to: gap.to,
        cost: gap.cost as i64,
    }
}
