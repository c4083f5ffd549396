//! The table of the loads.
ghost use Rattle.std.specs.Prelude.{◌≡◌, ◌<◌, ◌^◌, ◌+◌, ◌++◌, OnOk, length, flat_map, slice_index, codes};
ghost use Rattle.std.specs.List.{range_with_len};
ghost use Rattle.stn_model.specs.Plant.{utility_at};
ghost use Rattle.stn_model.specs.Load.{load};
ghost use Rattle.stn_model.specs.Sound.{Sound};
ghost use Rattle.plan_tables.specs.Loads.{load_cells, load_line, utility_lines, loads_head, loads_text};

use crate::written::Written;
use plain_plan::load_in;
use std::alloc::Global;
use stn_model::{Plant, Start};

/// Appends the table of the loads.
pub fn push_loads(alloc: Global, text: &mut Vec<u8>, plant: &Plant, plan: &[Start]) -> Written
    requires sound { Sound plant.now }
    requires few { length plan.now < 2 ^ 32 }
    ensures { OnOk result (text.new.items ≡ text.old.items ++ loads_text plant.now plan.now) }
{
    push_head(text)?;
    push_utilities(alloc, text, plant, plan)
}

#[tactic(auto, unfolding(crate::specs::Loads::loads_head))]
fn push_head(text: &mut Vec<u8>) -> Written
    ensures { OnOk result (text.new.items ≡ text.old.items ++ loads_head) }
{
    text.extend_from_slice("utility,period,load,limit\n".as_bytes())
}

#[tactic(auto, using(crate::proofs::Ranges::pieces_next))]
fn push_utilities(alloc: Global, text: &mut Vec<u8>, plant: &Plant, plan: &[Start]) -> Written
    requires sound { Sound plant.now }
    requires few { length plan.now < 2 ^ 32 }
    ensures { OnOk result (text.new.items ≡ text.old.items
        ++ flat_map (utility_lines plant.now plan.now)
        (range_with_len 0 (length plant.now.utilities))) }
{
    for utility in 0..plant.utilities.len() {
        push_utility(alloc, text, plant, plan, utility as u32)?;
    }
    Ok(())
}

// Appends the lines of a utility.
#[tactic(auto, using(crate::proofs::Ranges::pieces_next))]
fn push_utility(
    alloc: Global,
    text: &mut Vec<u8>,
    plant: &Plant,
    plan: &[Start],
    utility: u32,
) -> Written
    requires sound { Sound plant.now }
    requires few { length plan.now < 2 ^ 32 }
    requires there { utility < length plant.now.utilities }
    ensures { OnOk result (text.new.items
        ≡ text.old.items ++ utility_lines plant.now plan.now utility) }
{
    for period in 0..plant.periods {
        push_load(alloc, text, plant, plan, utility, period)?;
    }
    Ok(())
}

// Appends the line of a utility in a period.
#[tactic(auto, unfolding(crate::specs::Loads::load_line))]
fn push_load(
    alloc: Global,
    text: &mut Vec<u8>,
    plant: &Plant,
    plan: &[Start],
    utility: u32,
    period: u32,
) -> Written
    requires sound { Sound plant.now }
    requires few { length plan.now < 2 ^ 32 }
    requires there { utility < length plant.now.utilities }
    ensures { OnOk result (text.new.items
        ≡ text.old.items ++ load_line plant.now plan.now utility period) }
{
    let at = plant.utilities.get(utility as usize);
    text.extend_from_slice(at.name.as_slice())?;
    let drawn = load_in(plant, plan, utility, period);
    let limit = limit_in(at.limits.as_slice(), period);
    push_cells(alloc, text, period, drawn, limit)
}

// The limit in a period; 0 where it has none.
fn limit_in(limits: &[u64], period: u32) -> u64
    ensures { result ≡ slice_index limits.now period }
{
    match limits.get(period as usize) {
        Some(limit) => *limit,
        None => 0,
    }
}

#[tactic(auto, unfolding(crate::specs::Loads::load_cells))]
fn push_cells(alloc: Global, text: &mut Vec<u8>, period: u32, drawn: u128, limit: u64) -> Written
    ensures { OnOk result (text.new.items ≡ text.old.items ++ load_cells period drawn limit) }
{
    let cells = format!(in alloc; ",{period},{drawn},{limit}\n")?;
    text.extend_from_slice(cells.as_bytes())
}
