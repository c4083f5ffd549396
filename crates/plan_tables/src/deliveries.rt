//! The table of the deliveries.
ghost use Rattle.std.specs.Prelude.{◌≡◌, ◌<◌, ◌^◌, ◌+◌, ◌++◌, OnOk, length, flat_map, codes};
ghost use Rattle.std.specs.List.{range_with_len};
ghost use Rattle.stn_model.specs.Plant.{state_at};
ghost use Rattle.stn_model.specs.Stock.{stock};
ghost use Rattle.stn_model.specs.Sound.{Sound};
ghost use Rattle.plan_tables.specs.Deliveries.{delivery_cells, number_cell, line_of, delivery_line, deliveries_head, deliveries_text};

use crate::written::Written;
use plain_plan::stock_at;
use std::alloc::Global;
use stn_model::{Delivery, Plant, Start};

/// Appends the table of the deliveries.
pub fn push_deliveries(alloc: Global, text: &mut Vec<u8>, plant: &Plant, plan: &[Start]) -> Written
    requires sound { Sound plant.now }
    requires few { length plan.now < 2 ^ 32 }
    ensures { OnOk result (text.new.items ≡ text.old.items ++ deliveries_text plant.now plan.now) }
{
    push_head(text)?;
    push_lines(alloc, text, plant, plan)
}

#[tactic(auto, unfolding(crate::specs::Deliveries::deliveries_head))]
fn push_head(text: &mut Vec<u8>) -> Written
    ensures { OnOk result (text.new.items ≡ text.old.items ++ deliveries_head) }
{
    text.extend_from_slice("delivery,state,time,amount,payment,stock\n".as_bytes())
}

#[tactic(auto, using(crate::proofs::Ranges::pieces_next))]
fn push_lines(alloc: Global, text: &mut Vec<u8>, plant: &Plant, plan: &[Start]) -> Written
    requires sound { Sound plant.now }
    requires few { length plan.now < 2 ^ 32 }
    ensures { OnOk result (text.new.items ≡ text.old.items
        ++ flat_map (delivery_line plant.now plan.now)
        (range_with_len 0 (length plant.now.deliveries))) }
{
    for place in 0..plant.deliveries.len() {
        let delivery = plant.deliveries.get(place);
        push_line(alloc, text, plant, plan, place as u64 + 1, delivery)?;
    }
    Ok(())
}

// Appends the line of a delivery.
#[tactic(auto, unfolding(crate::specs::Deliveries::line_of))]
fn push_line(
    alloc: Global,
    text: &mut Vec<u8>,
    plant: &Plant,
    plan: &[Start],
    number: u64,
    delivery: &Delivery,
) -> Written
    requires sound { Sound plant.now }
    requires few { length plan.now < 2 ^ 32 }
    ensures { OnOk result (text.new.items
        ≡ text.old.items ++ line_of plant.now plan.now number delivery.now) }
{
    push_number(alloc, text, number)?;
    text.extend_from_slice(state_name(plant, delivery.state))?;
    let level = stock_at(plant, plan, delivery.state, delivery.time);
    push_cells(alloc, text, delivery, &level)
}

fn state_name(plant: &Plant, state: u32) -> &[u8]
    ensures { result.now ≡ (state_at plant.now state).name }
{
    match plant.states.as_slice().get(state as usize) {
        Some(state) => state.name.as_slice(),
        None => &[],
    }
}

#[tactic(auto, unfolding(crate::specs::Deliveries::number_cell))]
fn push_number(alloc: Global, text: &mut Vec<u8>, number: u64) -> Written
    ensures { OnOk result (text.new.items ≡ text.old.items ++ number_cell number) }
{
    let cell = format!(in alloc; "{number},")?;
    text.extend_from_slice(cell.as_bytes())
}

#[tactic(auto, unfolding(crate::specs::Deliveries::delivery_cells))]
fn push_cells(alloc: Global, text: &mut Vec<u8>, delivery: &Delivery, level: &i128) -> Written
    ensures { OnOk result (text.new.items ≡ text.old.items
        ++ delivery_cells delivery.now.time delivery.now.amount delivery.now.payment level.now) }
{
    let (time, amount, payment) = (delivery.time, delivery.amount, delivery.payment);
    let cells = format!(in alloc; ",{time},{amount},{payment},{level}\n")?;
    text.extend_from_slice(cells.as_bytes())
}
