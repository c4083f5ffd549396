//! The factor of a row at which the total is least.
ghost use Rattle.std.specs.Prelude.{◌≡◌, ℕ, ◌+◌, ◌-◌, ◌≤◌, ◌<◌, ◌↔◌, ◌^◌, length, pos, ◌*ℤ◌, ◌-ℤ◌, ◌≤ℤ◌, ◌<ℤ◌, IsTrue, false};
ghost use Rattle.row_kit.specs.Area.{present};
ghost use Rattle.dual_climb.specs.laws.Along.{part_along, IsAlong};
ghost use Rattle.dual_climb.specs.laws.Held.{AreMost};

use crate::along::fall_to;
use crate::gains::Gains;
use dual_bound::MOST_FACTOR;
use row_kit::{Area, Row};

// Whether a look at a row beside its own factor, and one further on, show that no factor lowers the total by so much or more. It
// costs the entries of the row once where it has no factor and twice where it has one, and twice more on a side where the total
// falls.
pub fn is_near(gains: &Gains, area: &Area, row: &Row, own: u64, least_fall: u32) -> bool
    requires along { IsAlong gains.now.lines.items (present area.now) row.now own }
    requires most { AreMost (present area.now) gains.now.lines.items gains.now.most.items }
    requires some { 1 ≤ least_fall }
    ensures { let part = part_along gains.now.lines.items (present area.now) row.now own in
        IsTrue result → (f : ℕ) → f ≤ 2 ^ 40 → (part own -ℤ pos least_fall) <ℤ part f }
{
    is_near_above(gains, area, row, own, least_fall)
        && is_near_below(gains, area, row, own, least_fall)
}

// Whether no factor above a row's own lowers the total by so much or more, by two looks.
fn is_near_above(gains: &Gains, area: &Area, row: &Row, own: u64, least_fall: u32) -> bool
    requires along { IsAlong gains.now.lines.items (present area.now) row.now own }
    requires most { AreMost (present area.now) gains.now.lines.items gains.now.most.items }
    requires some { 1 ≤ least_fall }
    ensures { let part = part_along gains.now.lines.items (present area.now) row.now own in
        IsTrue result → (f : ℕ) → own ≤ f → f ≤ 2 ^ 40 → (part own -ℤ pos least_fall) <ℤ part f }
{
    if own >= MOST_FACTOR {
        return true;
    }
    let first = fall_to(gains, area, row, own, own + 1);
    let end = own + steps(&first, least_fall).min(MOST_FACTOR - own);
    end >= MOST_FACTOR || rises(gains, area, row, own, end)
}

// Whether no factor below a row's own lowers the total by so much or more, by two looks.
fn is_near_below(gains: &Gains, area: &Area, row: &Row, own: u64, least_fall: u32) -> bool
    requires along { IsAlong gains.now.lines.items (present area.now) row.now own }
    requires most { AreMost (present area.now) gains.now.lines.items gains.now.most.items }
    requires some { 1 ≤ least_fall }
    ensures { let part = part_along gains.now.lines.items (present area.now) row.now own in
        IsTrue result → (f : ℕ) → f ≤ own → (part own -ℤ pos least_fall) <ℤ part f }
{
    if own == 0 {
        return true;
    }
    let first = fall_to(gains, area, row, own, own - 1);
    let end = own - steps(&first, least_fall).min(own);
    end == 0 || fall_to(gains, area, row, own, end - 1) <= fall_to(gains, area, row, own, end)
}

// How many steps that each fall at most as far as the first fall by less than so much.
fn steps(first: &i128, least_fall: u32) -> u64
    requires { 1 ≤ least_fall }
    ensures { (pos result *ℤ first.now) <ℤ pos least_fall }
{
    if *first <= 0 {
        return MOST_FACTOR;
    }
    if *first >= i128::from(least_fall) {
        return 0;
    }
    u64::from((least_fall - 1) / (*first as u32))
}

// A factor of a row at which the total is least. It costs the entries of the row some four times for each time that its distance
// from the row's own can be halved.
pub fn least(gains: &Gains, area: &Area, row: &Row, own: u64) -> u64
    requires along { IsAlong gains.now.lines.items (present area.now) row.now own }
    requires most { AreMost (present area.now) gains.now.lines.items gains.now.most.items }
    ensures range { result ≤ 2 ^ 40 }
    ensures least { let part = part_along gains.now.lines.items (present area.now) row.now own in
        (f : ℕ) → f ≤ 2 ^ 40 → part result ≤ℤ part f }
{
    if rises_after(gains, area, row, own) {
        between(gains, area, row, own, 0, own)
    } else {
        between(gains, area, row, own, own + 1, MOST_FACTOR)
    }
}

// Whether the total does not fall after a row's own factor.
fn rises_after(gains: &Gains, area: &Area, row: &Row, own: u64) -> bool
    requires along { IsAlong gains.now.lines.items (present area.now) row.now own }
    requires most { AreMost (present area.now) gains.now.lines.items gains.now.most.items }
    ensures yes { let part = part_along gains.now.lines.items (present area.now) row.now own
        in IsTrue result → own < 2 ^ 40 → part own ≤ℤ part (own + 1) }
    ensures no_ { let part = part_along gains.now.lines.items (present area.now) row.now own in
        result ≡ false → (own < 2 ^ 40) × (part (own + 1) ≤ℤ part own) }
{
    own >= MOST_FACTOR || fall_to(gains, area, row, own, own + 1) <= 0
}

// The factor from `low` to `high` at which the total is least, where it falls up to `low` and not past `high`: by steps away from
// the row's own factor, each twice the one before, and by halving.
fn between(gains: &Gains, area: &Area, row: &Row, own: u64, low: u64, high: u64) -> u64
    requires along { IsAlong gains.now.lines.items (present area.now) row.now own }
    requires most { AreMost (present area.now) gains.now.lines.items gains.now.most.items }
    requires ordered { low ≤ high }
    requires range { high ≤ 2 ^ 40 }
    requires falls { let part = part_along gains.now.lines.items (present area.now) row.now own in
        0 < low → part low ≤ℤ part (low - 1) }
    requires rises { let part = part_along gains.now.lines.items (present area.now) row.now own in
        high < 2 ^ 40 → part high ≤ℤ part (high + 1) }
    ensures range { result ≤ 2 ^ 40 }
    ensures least { let part = part_along gains.now.lines.items (present area.now) row.now own in
        (f : ℕ) → f ≤ 2 ^ 40 → part result ≤ℤ part f }
{
    let mut low = low;
    let mut high = high;
    let mut reach = 1;
    while low < high {
        let middle = probe(own, low, high, reach);
        if rises(gains, area, row, own, middle) {
            high = middle;
        } else {
            low = middle + 1;
        }
        reach = doubled(reach);
    }
    low
}

// A number from `low` to below `high`: no further from the row's own than a reach beyond the nearer end, and no further than the middle.
fn probe(own: u64, low: u64, high: u64, reach: u64) -> u64
    requires some { low < high }
    requires range { high ≤ 2 ^ 40 }
    requires reach { (1 ≤ reach) × (reach ≤ 2 ^ 41) }
    ensures { (low ≤ result) × (result < high) }
{
    let half = (high - low) / 2;
    if own < low {
        low + half.min(reach - 1)
    } else {
        high - reach.min(high - low - half)
    }
}

// Twice a reach, as far as that is of use.
fn doubled(reach: u64) -> u64
    requires { (1 ≤ reach) × (reach ≤ 2 ^ 41) }
    ensures { (1 ≤ result) × (result ≤ 2 ^ 41) }
{
    if reach < MOST_FACTOR {
        2 * reach
    } else {
        reach
    }
}

// Whether the total is no greater at a factor than at the next one.
fn rises(gains: &Gains, area: &Area, row: &Row, own: u64, factor: u64) -> bool
    requires along { IsAlong gains.now.lines.items (present area.now) row.now own }
    requires most { AreMost (present area.now) gains.now.lines.items gains.now.most.items }
    requires factor { factor < 2 ^ 40 }
    ensures { let part = part_along gains.now.lines.items (present area.now) row.now own in
        IsTrue result ↔ (part factor ≤ℤ part (factor + 1)) }
{
    fall_to(gains, area, row, own, factor + 1) <= fall_to(gains, area, row, own, factor)
}
