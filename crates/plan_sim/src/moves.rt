//! Tables of what comes into each state, and of what goes out of it, at each time. A table has a row
//! for each state and a column for each time.
ghost use Rattle.std.specs.Prelude.{◌≡◌, ◌≤◌, ◌<◌, ◌^◌, ◌+◌, ◌*◌, ℕ, length, sum, sum_by, All};
ghost use Rattle.plan_sim.specs.Moves.{summed, moved_by, HasRow};
ghost use Rattle.stn_model.specs.Stock.{taken_by, given_by, brought, carried_off};

use stn_model::{Delivery, Input, Output, Receipt, Start};

/// Adds an amount at a row and a column, where this is in the table.
fn add_move(cells: &mut [u128], width: usize, row: usize, column: usize, amount: u128)
    requires there { HasRow cells.old width row }
    requires room { sum cells.old + amount < 2 ^ 100 }
    ensures size { length cells.new ≡ length cells.old }
    ensures moved { (r c : ℕ) → c < width →
        summed cells.new width r c ≡ summed cells.old width r c + moved_by row column amount r c }
    ensures total { sum cells.new ≤ sum cells.old + amount }
{
    if width <= column {
        return;
    }
    cells[row * width + column] += amount;
}

/// Adds what the batch takes, at its start, by the last time of the table.
pub fn add_inputs(cells: &mut [u128], width: usize, inputs: &[Input], start: &Start)
    requires few { length inputs.now ≤ 8 }
    requires rows { All (λ input. HasRow cells.old width input.state) inputs.now }
    requires small { All (λ input. input.amount ≤ 2 ^ 20) inputs.now }
    requires room { sum cells.old < 2 ^ 99 }
    ensures moved { (r c : ℕ) → c < width →
        summed cells.new width r c
        ≡ summed cells.old width r c + sum_by (taken_by r c start.now) inputs.now }
    ensures total { sum cells.new ≤ sum cells.old + 2 ^ 55 }
{
    for input in inputs {
        let amount = start.quanta as u128 * input.amount as u128;
        add_move(
            cells,
            width,
            input.state as usize,
            start.period as usize,
            amount,
        );
    }
}

/// Adds what the batch gives, each output after its delay.
pub fn add_outputs(cells: &mut [u128], width: usize, outputs: &[Output], start: &Start)
    requires few { length outputs.now ≤ 8 }
    requires rows { All (λ output. HasRow cells.old width output.state) outputs.now }
    requires small { All (λ output. output.amount ≤ 2 ^ 20) outputs.now }
    requires room { sum cells.old < 2 ^ 99 }
    ensures moved { (r c : ℕ) → c < width →
        summed cells.new width r c
        ≡ summed cells.old width r c + sum_by (given_by r c start.now) outputs.now }
    ensures total { sum cells.new ≤ sum cells.old + 2 ^ 55 }
{
    for output in outputs {
        let amount = start.quanta as u128 * output.amount as u128;
        let time = start.period as usize + output.delay as usize;
        add_move(cells, width, output.state as usize, time, amount);
    }
}

/// Adds what comes from outside.
pub fn add_receipts(cells: &mut [u128], width: usize, receipts: &[Receipt])
    requires few { length receipts.now ≤ 900 }
    requires rows { All (λ receipt. HasRow cells.old width receipt.state) receipts.now }
    requires small { All (λ receipt. receipt.amount ≤ 2 ^ 30) receipts.now }
    requires room { sum cells.old < 2 ^ 99 }
    ensures moved { (r c : ℕ) → c < width →
        summed cells.new width r c
        ≡ summed cells.old width r c + sum_by (brought r c) receipts.now }
    ensures total { sum cells.new ≤ sum cells.old + 2 ^ 40 }
{
    for receipt in receipts {
        add_move(
            cells,
            width,
            receipt.state as usize,
            receipt.time as usize,
            receipt.amount as u128,
        );
    }
}

/// Adds what goes out to customers.
pub fn add_deliveries(cells: &mut [u128], width: usize, deliveries: &[Delivery])
    requires few { length deliveries.now ≤ 900 }
    requires rows { All (λ delivery. HasRow cells.old width delivery.state) deliveries.now }
    requires small { All (λ delivery. delivery.amount ≤ 2 ^ 30) deliveries.now }
    requires room { sum cells.old < 2 ^ 99 }
    ensures moved { (r c : ℕ) → c < width →
        summed cells.new width r c
        ≡ summed cells.old width r c + sum_by (carried_off r c) deliveries.now }
    ensures total { sum cells.new ≤ sum cells.old + 2 ^ 40 }
{
    for delivery in deliveries {
        add_move(
            cells,
            width,
            delivery.state as usize,
            delivery.time as usize,
            delivery.amount as u128,
        );
    }
}
