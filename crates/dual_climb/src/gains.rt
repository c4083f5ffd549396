//! What slots gain under a certificate.
ghost use Rattle.std.specs.Prelude.{◌≡◌, ℕ, ◌+◌, ◌*◌, ◌≤◌, ◌<◌, ◌^◌, length, pos, ◌+ℤ◌, ◌*ℤ◌, ◌-ℤ◌, IfOk, unsigned_abs};
ghost use Rattle.std.specs.List.{All};
ghost use Rattle.row_kit.specs.Area.{present};
ghost use Rattle.row_kit.specs.Domain.{IsOpen};
ghost use Rattle.row_kit.specs.Row.{entry_at};
ghost use Rattle.dual_bound.specs.Line.{line_at, slot_line, IsWithin};
ghost use Rattle.dual_bound.specs.Total.{gain, IsUsable};
ghost use Rattle.dual_climb.specs.laws.Along.{IsAlong};
ghost use Rattle.dual_climb.specs.laws.Held.{AreMost};

use crate::along::with_other;
use dual_bound::{Cert, Line, fill_gains, greatest_in};
use row_kit::{Area, Program, Row};
use std::alloc::{AllocError, Global};

// What the slots gain, as lines, and the most of each line over the slot's domain.
#[derive(Drop)]
pub struct Gains {
    pub lines: Vec<Line>,
    pub most: Vec<i128>,
}

// What the slots gain under a certificate. It costs the entries of the rows with factors, and the slots.
pub fn gains_under(
    alloc: Global,
    program: &Program,
    area: &Area,
    cert: &Cert,
) -> Result<Gains, AllocError>
    requires slots { length (present area.now) ≡ length program.now.root }
    requires usable { IsUsable (length program.now.rows) cert.now }
    requires open_ { All IsOpen (present area.now) }
    ensures length { IfOk result (λ gains. length gains.lines.items ≡ length program.now.root) }
    ensures value { IfOk result (λ gains. (slot v : ℕ) → slot < length program.now.root
        → line_at (slot_line gains.lines.items slot) v ≡ gain program.now cert.now slot v) }
    ensures most { IfOk result
        (λ gains. AreMost (present area.now) gains.lines.items gains.most.items) }
{
    let mut lines = vec![in alloc; Line { fixed: 0, per: 0 }; program.root.len()]?;
    fill_gains(lines.as_mut_slice(), program, cert);
    let mut most = vec![in alloc; 0i128; program.root.len()]?;
    put_most(lines.as_slice(), area, most.as_mut_slice());
    Ok(Gains { lines, most })
}

// Fills in the most of each line over the domain of its slot.
fn put_most(lines: &[Line], area: &Area, most: &mut [i128])
    requires slots { length (present area.now) ≡ length lines.now }
    requires places { length most.old ≡ length (present area.now) }
    requires small { All (λ x. unsigned_abs x ≤ 2 ^ 103) most.old }
    requires within { All (IsWithin (2 ^ 94)) lines.now }
    requires open_ { All IsOpen (present area.now) }
    ensures { AreMost (present area.now) lines.now most.new }
{
    for slot in 0..area.slot_count() {
        most[slot as usize] = greatest_in(&lines[slot as usize], area.domain(slot));
    }
}

// Gives each slot of a row what it gains with another factor of the row than its own. It costs the entries of the row.
pub fn move_gains(gains: &mut Gains, area: &Area, row: &Row, own: u64, factor: u64)
    requires slots { length gains.old.lines.items ≡ length (present area.now) }
    requires along { IsAlong gains.old.lines.items (present area.now) row.now own }
    requires most { AreMost (present area.now) gains.old.lines.items gains.old.most.items }
    requires factor { factor ≤ 2 ^ 40 }
    ensures slots { length gains.new.lines.items ≡ length (present area.now) }
    ensures value { (slot v : ℕ) → slot < length (present area.now)
        → line_at (slot_line gains.new.lines.items slot) v
        ≡ (line_at (slot_line gains.old.lines.items slot) v
        +ℤ (pos own *ℤ entry_at row.now.entries slot
        v)) -ℤ (pos factor *ℤ entry_at row.now.entries slot v) }
    ensures most { AreMost (present area.now) gains.new.lines.items gains.new.most.items }
{
    for entry in row.entries.as_slice() {
        let slot = entry.slot as usize;
        let line = with_other(&gains.lines[slot], entry, own, factor);
        gains.most[slot] = greatest_in(&line, area.domain(entry.slot));
        gains.lines[slot] = line;
    }
}
