//! How a total changes along the factor of one row.
ghost use Rattle.std.specs.Prelude.{◌≡◌, ℕ, ◌+◌, ◌*◌, ◌≤◌, ◌<◌, ◌^◌, length, pos, ◌+ℤ◌, ◌*ℤ◌, ◌-ℤ◌, unsigned_abs};
ghost use Rattle.std.specs.List.{All};
ghost use Rattle.row_kit.specs.Area.{present};
ghost use Rattle.row_kit.specs.Domain.{IsNormal, IsOpen, values_of};
ghost use Rattle.row_kit.specs.Row.{counted};
ghost use Rattle.dual_bound.specs.Line.{line_at, IsWithin};
ghost use Rattle.dual_bound.specs.Total.{greatest};
ghost use Rattle.dual_climb.specs.laws.Along.{part_along, IsAlong};
ghost use Rattle.dual_climb.specs.laws.Held.{AreMost};

use crate::gains::Gains;
use dual_bound::{Line, greatest_in, scaled_limit};
use row_kit::{Area, Domain, Entry, Row};

// How far the total falls from a row's own factor to another one. It costs the entries of the row.
pub fn fall_to(gains: &Gains, area: &Area, row: &Row, own: u64, factor: u64) -> i128
    requires along { IsAlong gains.now.lines.items (present area.now) row.now own }
    requires most { AreMost (present area.now) gains.now.lines.items gains.now.most.items }
    requires factor { factor ≤ 2 ^ 40 }
    ensures value { let part = part_along gains.now.lines.items (present area.now) row.now own in
        result ≡ part own -ℤ part factor }
    ensures small { unsigned_abs result ≤ 2 ^ 118 }
{
    let mut sum = scaled_limit(row, own) - scaled_limit(row, factor);
    for entry in row.entries.as_slice() {
        let line = with_other(&gains.lines[entry.slot as usize], entry, own, factor);
        sum += fall_at(
            &gains.most[entry.slot as usize],
            &line,
            area.domain(entry.slot),
        );
    }
    sum
}

// How far the most that a slot gains falls where it gains another line.
fn fall_at(most: &i128, line: &Line, domain: Domain) -> i128
    requires small { unsigned_abs most.now ≤ 2 ^ 103 }
    requires within { IsWithin (2 ^ 94) line.now }
    requires normal { IsNormal domain }
    requires open_ { IsOpen domain }
    ensures value { result ≡ most.now -ℤ greatest (line_at line.now) (values_of domain) }
    ensures small { unsigned_abs result ≤ 2 ^ 104 }
{
    *most - greatest_in(line, domain)
}

// The line of an entry's slot with another factor of the row than its own.
pub fn with_other(line: &Line, entry: &Entry, own: u64, factor: u64) -> Line
    requires within { IsWithin (2 ^ 93 + 2 ^ 84) line.now }
    requires fixed { unsigned_abs entry.now.fixed ≤ 10000000 }
    requires per { unsigned_abs entry.now.per ≤ 10000000 }
    requires own { own ≤ 2 ^ 40 }
    requires factor { factor ≤ 2 ^ 40 }
    ensures value { (v : ℕ) → line_at result v ≡ (line_at line.now v
        +ℤ (pos own *ℤ counted entry.now v)) -ℤ (pos factor *ℤ counted entry.now v) }
    ensures within { (most : ℕ) → IsWithin most line.now → IsWithin (most + 2 ^ 72) result }
{
    line.with_entry(entry, own)
        .opposite()
        .with_entry(entry, factor)
        .opposite()
}
