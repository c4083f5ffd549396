//! What is in stock of a state at a time without any batch.
ghost use Rattle.std.specs.Prelude.{◌≡◌, ◌≤◌, ◌<◌, ◌^◌, length, unsigned_abs};
ghost use Rattle.stn_model.specs.Sound.{Sound};
ghost use Rattle.balance_rows.specs.StockRows.{supply};

use stn_model::{Plant, delivered_by, received_by};

// What was there at first and has come from outside by the time, less what has gone to customers; it may be negative.
#[tactic(auto, unfolding(crate::specs::StockRows::supply))]
pub fn supply(plant: &Plant, state: u32, time: u32) -> i128
    requires sound { Sound plant.now }
    requires state { state < length plant.now.states }
    ensures value { result ≡ supply plant.now state time }
    ensures small { unsigned_abs result ≤ 2 ^ 41 }
{
    let initial = plant.states.get(state as usize).initial;
    let came = initial + received_by(plant, state, time);
    came as i128 - delivered_by(plant, state, time) as i128
}
