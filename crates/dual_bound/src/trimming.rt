//! What a floor leaves of an area.
ghost use Rattle.std.specs.Prelude.{◌≡◌, ℕ, ◌+◌, ◌-◌, ◌*◌, ◌<◌, ◌≤◌, ◌^◌, ◌↔◌, ◌⊎◌, List, length, take, false, IsTrue, pos, ℤ, ◌+ℤ◌, ◌-ℤ◌, ◌*ℤ◌, ◌≤ℤ◌, neg_ℤ, int_le, unsigned_abs};
ghost use Rattle.std.specs.List.{All};
ghost use Rattle.row_kit.specs.Area.{present, with_domain};
ghost use Rattle.row_kit.specs.Domain.{domain_at, Holds, IsNormal, IsOpen, values_of};
ghost use Rattle.row_kit.specs.Point.{LiesIn, value_of};
ghost use Rattle.row_kit.specs.Points.{points_of};
ghost use Rattle.row_kit.specs.Row.{IsKept};
ghost use Rattle.dual_bound.specs.Line.{line_at, slot_line, IsWithin};
ghost use Rattle.dual_bound.specs.Total.{greatest, has_total, total_of, IsUsable};
ghost use Rattle.dual_bound.specs.Trimmed.{each_passing, first_passing, last_passing, may_exceed, passing, total_with, trimmed};
ghost use Rattle.dual_bound.specs.laws.Reach.{must_reach, reaches, IsTrimmed};

use crate::cert::Cert;
use crate::line::Line;
use crate::totals::{FEW_SLOTS, at_value, fixed_total, gains_in, greatest_in, has_total};
use row_kit::{Area, MOST_SLOTS, Program};

// A floor of this many counts as any greater one: no total comes near it.
const FAR: i128 = 1 << 106;

/// Takes away the values with which a point is worth at most the floor, by a certificate. Where that has a total over the area,
/// the answer is true, and each slot keeps exactly the values at which the total, less the slot's greatest gain, plus its gain
/// at the value, is at least floor + 1 times the scale, all judged over the area before. Else the answer is false, and the area
/// is as before. It takes no memory, and costs what `cap` costs, and a step for each value that goes.
pub fn trim(program: &Program, area: &mut Area, cert: &Cert, floor: i128) -> bool
    requires { length (present area.old) ≡ length program.now.root }
    ensures had { result ≡ has_total program.now (present area.old) cert.now }
    ensures left { present area.new ≡ trimmed program.now (present area.old) cert.now floor }
    ensures values { IsTrue result → (slot v : ℕ) → slot < length (present area.old)
        → Holds (domain_at (present area.new) slot) v
        ↔ (Holds (domain_at (present area.old) slot) v × ((pos cert.now.scale *ℤ (floor +ℤ pos 1))
        ≤ℤ total_with program.now (present area.old) cert.now slot v)) }
    ensures same { result ≡ false → area.new ≡ area.old }
    ensures keeps { take (length area.old) area.new ≡ area.old }
    ensures forgets { (point : List ℕ) → LiesIn (present area.old) point
        → All (IsKept point) program.now.rows
        → LiesIn (present area.new) point ⊎ (value_of program.now point ≤ℤ floor) }
    ensures fewer { points_of (present area.new) ≤ points_of (present area.old) }
    ensures slots { length (present area.new) ≡ length (present area.old) }
{
    let _slots = area.slot_count();
    if !has_total(program, area, cert) {
        return false;
    }
    trim_open(program, area, cert, &floor);
    true
}

// Trims by a certificate that has a total. A program of few slots does not pay for lines of many.
fn trim_open(program: &Program, area: &mut Area, cert: &Cert, floor: &i128)
    requires slots { length (present area.old) ≡ length program.now.root }
    requires usable { IsUsable (length program.now.rows) cert.now }
    requires open_ { All IsOpen (present area.old) }
    ensures { IsTrimmed program.now cert.now floor.now area.old area.new }
{
    if program.root.len() <= FEW_SLOTS {
        trim_few(program, area, cert, floor)
    } else {
        trim_many(program, area, cert, floor)
    }
}

// Trims few slots. Its lines are to be no part of the frame of a caller.
#[inline(never)]
fn trim_few(program: &Program, area: &mut Area, cert: &Cert, floor: &i128)
    requires slots { length (present area.old) ≡ length program.now.root }
    requires few { length program.now.root ≤ 512 }
    requires usable { IsUsable (length program.now.rows) cert.now }
    requires open_ { All IsOpen (present area.old) }
    ensures { IsTrimmed program.now cert.now floor.now area.old area.new }
{
    let mut lines = [Line { fixed: 0, per: 0 }; FEW_SLOTS];
    trim_in(&mut lines, program, area, cert, floor);
}

// Trims as many slots as a program can have. Its lines are to be no part of the frame of a caller.
#[inline(never)]
fn trim_many(program: &Program, area: &mut Area, cert: &Cert, floor: &i128)
    requires slots { length (present area.old) ≡ length program.now.root }
    requires usable { IsUsable (length program.now.rows) cert.now }
    requires open_ { All IsOpen (present area.old) }
    ensures { IsTrimmed program.now cert.now floor.now area.old area.new }
{
    let mut lines = [Line { fixed: 0, per: 0 }; MOST_SLOTS];
    trim_in(&mut lines, program, area, cert, floor);
}

// Trims by lines that count nothing before.
fn trim_in(lines: &mut [Line], program: &Program, area: &mut Area, cert: &Cert, floor: &i128)
    requires slots { length (present area.old) ≡ length program.now.root }
    requires there { length program.now.root ≤ length lines.old }
    requires few { length lines.old ≤ 4096 }
    requires bare { All (IsWithin 0) lines.old }
    requires usable { IsUsable (length program.now.rows) cert.now }
    requires open_ { All IsOpen (present area.old) }
    ensures { IsTrimmed program.now cert.now floor.now area.old area.new }
{
    let _slots = area.slot_count();
    let spare = spare_of(lines, program, area, cert, floor);
    trim_slots(lines, area, &spare);
}

// What slots have to gain in all for a point above a floor, less the total. Lines that count nothing become what each slot gains.
fn spare_of(lines: &mut [Line], program: &Program, area: &Area, cert: &Cert, floor: &i128) -> i128
    requires slots { length (present area.now) ≡ length program.now.root }
    requires there { length program.now.root ≤ length lines.old }
    requires few { length lines.old ≤ 4096 }
    requires bare { All (IsWithin 0) lines.old }
    requires usable { IsUsable (length program.now.rows) cert.now }
    requires open_ { All IsOpen (present area.now) }
    ensures small { unsigned_abs result ≤ 2 ^ 126 + 2 ^ 121 }
    ensures within { All (IsWithin (2 ^ 94)) lines.new }
    ensures decides { (slot v : ℕ) → slot < length (present area.now) → v ≤ 255
        → may_exceed program.now (present area.now) cert.now floor.now slot v
        ≡ must_reach lines.new result (present area.now) slot v }
{
    let _slots = area.slot_count();
    let total = fixed_total(program, cert) + gains_in(lines, program, area, cert);
    scaled_next(floor, cert.scale) - total
}

// The scale times the whole number after a floor, where that is a number that a total comes near.
fn scaled_next(floor: &i128, scale: u32) -> i128
    requires { scale ≤ 1048576 }
    ensures small { unsigned_abs result ≤ 2 ^ 126 + 2 ^ 20 }
    ensures same { (x : ℤ) → unsigned_abs x < 2 ^ 105
        → int_le (pos scale *ℤ (floor.now +ℤ pos 1)) x ≡ int_le result x }
{
    i128::from(scale) * (near(floor) + 1)
}

// A floor, and where it is far off the number that counts as it.
fn near(floor: &i128) -> i128
    ensures small { unsigned_abs result ≤ 2 ^ 106 }
    ensures above { pos (2 ^ 106) ≤ℤ floor.now → result ≡ pos (2 ^ 106) }
    ensures below { floor.now ≤ℤ neg_ℤ (pos (2 ^ 106)) → result ≡ neg_ℤ (pos (2 ^ 106)) }
    ensures same { unsigned_abs floor.now ≤ 2 ^ 106 → result ≡ floor.now }
{
    if *floor > FAR {
        FAR
    } else if *floor < -FAR {
        -FAR
    } else {
        *floor
    }
}

// Trims each slot by its line.
fn trim_slots(lines: &[Line], area: &mut Area, spare: &i128)
    requires slots { length (present area.old) ≤ length lines.now }
    requires few { length lines.now ≤ 4096 }
    requires within { All (IsWithin (2 ^ 94)) lines.now }
    requires open_ { All IsOpen (present area.old) }
    requires small { unsigned_abs spare.now ≤ 2 ^ 126 + 2 ^ 121 }
    ensures left { present area.new ≡ each_passing
        (must_reach lines.now spare.now (present area.old)) 0 (present area.old) }
    ensures keeps { take (length area.old) area.new ≡ area.old }
    ensures fewer { points_of (present area.new) ≤ points_of (present area.old) }
{
    for slot in 0..area.slot_count() {
        trim_slot(&lines[slot as usize], area, slot, spare);
    }
}

// Trims a slot by its line.
fn trim_slot(line: &Line, area: &mut Area, slot: u32, spare: &i128)
    requires slot { slot < length (present area.old) }
    requires within { IsWithin (2 ^ 94) line.now }
    requires open_ { IsOpen (domain_at (present area.old) slot) }
    requires small { unsigned_abs spare.now ≤ 2 ^ 126 + 2 ^ 121 }
    ensures marks { area.new ≡ with_domain area.old slot
        (passing (reaches line.now (spare.now +ℤ greatest (line_at line.now)
        (values_of (domain_at (present area.old) slot)))) (domain_at (present area.old) slot)) }
    ensures fewer { points_of (present area.new) ≤ points_of (present area.old) }
    ensures slots { length (present area.new) ≡ length (present area.old) }
{
    let domain = area.domain(slot);
    let need = *spare + greatest_in(line, domain);
    let first = first_reaching(line, domain.lo, domain.hi, &need);
    let zero = is_at_most_zero(&need);
    if first > u16::from(domain.hi) {
        area.keep(slot, zero, 1, 0);
    } else {
        let last = last_reaching(line, domain.lo, domain.hi, &need);
        area.keep(slot, zero, first as u8, last);
    }
}

// Whether a line counts at least so much at 0, where it counts nothing.
fn is_at_most_zero(need: &i128) -> bool
    ensures { result ≡ int_le need.now (pos 0) }
{
    *need <= 0
}

// The least value of a range at which a line counts at least so much, and the value after the range where there is none.
fn first_reaching(line: &Line, lo: u8, hi: u8, need: &i128) -> u16
    requires within { IsWithin (2 ^ 94) line.now }
    requires positive { 1 ≤ lo }
    requires range { lo ≤ hi + 1 }
    ensures { result ≡ first_passing (reaches line.now need.now) (hi + 1 - lo) lo }
{
    let end = u16::from(hi) + 1;
    for value in u16::from(lo)..end {
        if reaches(line, value as u8, need) {
            return value;
        }
    }
    end
}

// The greatest value of a range at which a line counts at least so much, and the value before the range where there is none.
fn last_reaching(line: &Line, lo: u8, hi: u8, need: &i128) -> u8
    requires within { IsWithin (2 ^ 94) line.now }
    requires positive { 1 ≤ lo }
    requires range { lo ≤ hi }
    ensures { result ≡ last_passing (reaches line.now need.now) (hi + 1 - lo) lo }
{
    for gone in 0..hi - lo + 1 {
        if reaches(line, hi - gone, need) {
            return hi - gone;
        }
    }
    lo - 1
}

// Whether a line counts at least so much at a value of 1 or more.
fn reaches(line: &Line, value: u8, need: &i128) -> bool
    requires within { IsWithin (2 ^ 94) line.now }
    requires positive { 1 ≤ value }
    ensures { result ≡ reaches line.now need.now value }
{
    at_value(line, value) >= *need
}
