//! Factors with what slots gain under them, changed a row at a time.
ghost use Rattle.std.specs.Prelude.{◌≡◌, ℕ, ◌+◌, ◌≤◌, ◌<◌, ◌^◌, ◌⊎◌, length, pos, ◌+ℤ◌, ◌≤ℤ◌, IsTrue, Some, true, false, unsigned_abs};
ghost use Rattle.std.specs.List.{All};
ghost use Rattle.row_kit.specs.Area.{present};
ghost use Rattle.dual_bound.specs.Cap.{scaled_cap};
ghost use Rattle.dual_climb.specs.Factors.{cert_of};
ghost use Rattle.dual_climb.specs.Polished.{IsReached};
ghost use Rattle.dual_climb.specs.RowBest.{BestBy};
ghost use Rattle.dual_climb.specs.laws.Held.{IsHeld, CanMove};
ghost use Rattle.dual_climb.specs.laws.Sums.{IsLoweredBy};

use crate::along::fall_to;
use crate::gains::{Gains, move_gains};
use crate::least::{is_near, least};
use dual_bound::{Mult, scaled};
use proof_tree::Capped;
use row_kit::{Area, Program};

// A factor for each row, with what the slots gain under them and their total.
#[derive(Drop)]
pub struct Held {
    pub mults: Vec<Mult>,
    pub gains: Gains,
    pub total: i128,
}

// Gives a row the factor at which the total is least, where that is lower by so much or more, unless the cap is reached; whether
// it changed.
pub fn improve(
    program: &Program,
    area: &Area,
    scale: u32,
    least_fall: u32,
    stop: Option<i128>,
    held: &mut Held,
    number: usize,
) -> bool
    requires area { CanMove program.now (present area.now) scale }
    requires scale { 1 ≤ scale }
    requires some { 1 ≤ least_fall }
    requires fall { least_fall ≤ 2 ^ 20 }
    requires number { number < length program.now.rows }
    requires held { IsHeld program.now (present area.now) scale held.old.mults.items
        held.old.gains.lines.items held.old.gains.most.items held.old.total }
    ensures held { IsHeld program.now (present area.now) scale held.new.mults.items
        held.new.gains.lines.items held.new.gains.most.items held.new.total }
    ensures fell { IsTrue result → (held.new.total +ℤ pos least_fall) ≤ℤ held.old.total }
    ensures changes { IsLoweredBy least_fall program.now (present area.now) scale
        held.old.mults.items held.new.mults.items }
    ensures same { result ≡ false → (held.new.mults.items ≡ held.old.mults.items)
        × (held.new.total ≡ held.old.total) }
    ensures best { result ≡ false → BestBy least_fall program.now (present area.now)
        (cert_of scale held.old.mults.items) number ⊎ IsReached stop
        (scaled_cap scale (Some held.old.total)) }
{
    if is_reached(&held.total, scale, stop) {
        return false;
    }
    let row = &program.rows.as_slice()[number];
    let own = held.mults[number].factor;
    if is_near(&held.gains, area, row, own, least_fall) {
        return false;
    }
    let factor = least(&held.gains, area, row, own);
    let fall = fall_to(&held.gains, area, row, own, factor);
    if fall < i128::from(least_fall) {
        return false;
    }
    move_gains(&mut held.gains, area, row, own, factor);
    held.mults[number].factor = factor;
    held.total -= fall;
    true
}

// Whether the cap of a total is at most a number, where there is one to stop at.
fn is_reached(total: &i128, scale: u32, stop: Option<i128>) -> bool
    requires small { unsigned_abs total.now < 2 ^ 118 }
    requires scale { 1 ≤ scale }
    ensures { IsTrue result → IsReached stop (scaled_cap scale (Some total.now)) }
{
    let Some(stop) = stop else {
        return false;
    };
    match scaled(*total, scale) {
        Capped::AtMost(cap) => cap <= stop,
        _ => false,
    }
}
