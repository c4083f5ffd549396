//! The total of a certificate over an area.
ghost use Rattle.std.specs.Prelude.{◌≡◌, ℕ, ◌+◌, ◌*◌, ◌≤◌, ◌<◌, ◌^◌, ◌↔◌, length, nat_lt, IsTrue, IfSome, pos, ◌+ℤ◌, ◌*ℤ◌, ◌≤ℤ◌, unsigned_abs};
ghost use Rattle.std.specs.List.{All, list_all};
ghost use Rattle.row_kit.specs.Area.{present};
ghost use Rattle.row_kit.specs.Bounds.{IsBoundedRow};
ghost use Rattle.row_kit.specs.Domain.{IsNormal, IsOpen, count_of, values_of};
ghost use Rattle.dual_bound.specs.Line.{line_at, slot_line, IsWithin};
ghost use Rattle.dual_bound.specs.Total.{are_fit, is_fit, has_total, total_at, total_of, limits_sum, greatest, slots_total, gain, BoundsScaled, IsFitMult, IsUsable};

use crate::cert::{Cert, Mult};
use crate::limits::{MOST_FACTOR, MOST_MULTS, MOST_SCALE};
use crate::line::Line;
use crate::lines::{add_entries, add_rows, turn};
use row_kit::{Area, Domain, MOST_SLOTS, Program, Row};

// The most slots of a program of few.
pub const FEW_SLOTS: usize = 512;

/// The total of a certificate over an area. None comes exactly where a domain is empty, or the certificate breaks a limit or
/// names rows that are not there or do not ascend. Scale times the value of each point of the area that keeps every row is at
/// most the total. It takes no memory, and costs the entries of the rows with factors and the slots.
pub fn total(program: &Program, area: &Area, cert: &Cert) -> Option<i128>
    requires { length (present area.now) ≡ length program.now.root }
    ensures total { result ≡ total_at program.now (present area.now) cert.now }
    ensures small { IfSome result (λ total. unsigned_abs total < 10 ^ 30) }
    ensures duality { IfSome result
        (λ total. BoundsScaled program.now (present area.now) cert.now.scale total) }
{
    if !has_total(program, area, cert) {
        return None;
    }
    Some(usable_total(program, area, cert))
}

/// The total of a certificate that has one.
pub fn usable_total(program: &Program, area: &Area, cert: &Cert) -> i128
    requires slots { length (present area.now) ≡ length program.now.root }
    requires usable { IsUsable (length program.now.rows) cert.now }
    requires open_ { All IsOpen (present area.now) }
    ensures value { result ≡ total_of program.now (present area.now) cert.now }
    ensures small { unsigned_abs result < 2 ^ 118 }
    ensures below { unsigned_abs result < 10 ^ 30 }
    ensures duality { BoundsScaled program.now (present area.now) cert.now.scale result }
{
    let _slots = area.slot_count();
    fixed_total(program, cert) + gains(program, area, cert)
}

// What a total counts whatever the slots are: scale times the base, and the factors times their limits.
pub fn fixed_total(program: &Program, cert: &Cert) -> i128
    requires usable { IsUsable (length program.now.rows) cert.now }
    ensures value { result ≡ (pos cert.now.scale *ℤ program.now.base)
        +ℤ limits_sum program.now.rows cert.now.mults }
    ensures small { unsigned_abs result ≤ 2 ^ 101 }
{
    let limits = limits_sum(program.rows.as_slice(), cert.mults.as_slice());
    scaled_base(program, cert) + limits
}

// Scale times the base.
fn scaled_base(program: &Program, cert: &Cert) -> i128
    requires { cert.now.scale ≤ 1048576 }
    ensures value { result ≡ pos cert.now.scale *ℤ program.now.base }
    ensures small { unsigned_abs result ≤ 2 ^ 100 }
{
    i128::from(cert.scale) * program.base
}

// Whether a certificate has a total over an area.
pub fn has_total(program: &Program, area: &Area, cert: &Cert) -> bool
    ensures value { result ≡ has_total program.now (present area.now) cert.now }
    ensures usable { IsTrue result → IsUsable (length program.now.rows) cert.now }
    ensures open_ { IsTrue result → All IsOpen (present area.now) }
{
    is_fit(program.rows.as_slice(), cert) && each_open(area)
}

// Whether each domain holds a value.
fn each_open(area: &Area) -> bool
    ensures value { result ≡ list_all (λ domain. nat_lt 0 (count_of domain)) (present area.now) }
    ensures open_ { IsTrue result → All IsOpen (present area.now) }
{
    !area.has_empty()
}

// Whether a certificate keeps its limits, and names rows of a program in ascending order.
fn is_fit(rows: &[Row], cert: &Cert) -> bool
    ensures value { result ≡ is_fit (length rows.now) cert.now }
    ensures usable { IsTrue result → IsUsable (length rows.now) cert.now }
{
    cert.scale <= MOST_SCALE
        && cert.mults.len() <= MOST_MULTS
        && are_fit(rows.len(), cert.mults.as_slice())
}

// Whether factors keep their range, and rows ascend and are there.
fn are_fit(rows: usize, mults: &[Mult]) -> bool
    ensures value { result ≡ are_fit rows 0 mults.now }
    ensures fit { IsTrue result → All (IsFitMult rows) mults.now }
{
    let mut least = 0usize;
    for mult in mults {
        let row = mult.row as usize;
        if mult.factor < 1 || mult.factor > MOST_FACTOR || row < least || row >= rows {
            return false;
        }
        least = row + 1;
    }
    true
}

// The sum of factor times row limit.
fn limits_sum(rows: &[Row], mults: &[Mult]) -> i128
    requires fit { All (IsFitMult (length rows.now)) mults.now }
    requires bounded { All (IsBoundedRow 4096) rows.now }
    requires few { length mults.now ≤ 50000 }
    ensures value { result ≡ limits_sum rows.now mults.now }
    ensures small { unsigned_abs result ≤ 2 ^ 100 }
{
    let mut sum = 0i128;
    for mult in mults {
        sum += scaled_limit(&rows[mult.row as usize], mult.factor);
    }
    sum
}

/// A factor times the limit of a row.
pub fn scaled_limit(row: &Row, factor: u64) -> i128
    requires factor { factor ≤ 1099511627776 }
    requires bounded { IsBoundedRow 4096 row.now }
    ensures value { result ≡ pos factor *ℤ row.now.limit }
    ensures small { unsigned_abs result ≤ 2 ^ 80 }
{
    i128::from(factor) * row.limit
}

// The sum over slots of the greatest gain. A program of few slots does not pay for lines of many.
fn gains(program: &Program, area: &Area, cert: &Cert) -> i128
    requires slots { length (present area.now) ≡ length program.now.root }
    requires usable { IsUsable (length program.now.rows) cert.now }
    requires open_ { All IsOpen (present area.now) }
    ensures value { result ≡ slots_total (gain program.now cert.now) 0 (present area.now) }
    ensures small { unsigned_abs result ≤ 2 ^ 117 }
{
    if program.root.len() <= FEW_SLOTS {
        few_gains(program, area, cert)
    } else {
        many_gains(program, area, cert)
    }
}

// The sum over few slots of the greatest gain. Its lines are to be no part of the frame of a caller.
#[inline(never)]
fn few_gains(program: &Program, area: &Area, cert: &Cert) -> i128
    requires slots { length (present area.now) ≡ length program.now.root }
    requires few { length program.now.root ≤ 512 }
    requires usable { IsUsable (length program.now.rows) cert.now }
    requires open_ { All IsOpen (present area.now) }
    ensures value { result ≡ slots_total (gain program.now cert.now) 0 (present area.now) }
    ensures small { unsigned_abs result ≤ 2 ^ 117 }
{
    let mut lines = [Line { fixed: 0, per: 0 }; FEW_SLOTS];
    gains_in(&mut lines, program, area, cert)
}

// The sum over as many slots as a program can have of the greatest gain. Its lines are to be no part of the frame of a caller.
#[inline(never)]
fn many_gains(program: &Program, area: &Area, cert: &Cert) -> i128
    requires slots { length (present area.now) ≡ length program.now.root }
    requires usable { IsUsable (length program.now.rows) cert.now }
    requires open_ { All IsOpen (present area.now) }
    ensures value { result ≡ slots_total (gain program.now cert.now) 0 (present area.now) }
    ensures small { unsigned_abs result ≤ 2 ^ 117 }
{
    let mut lines = [Line { fixed: 0, per: 0 }; MOST_SLOTS];
    gains_in(&mut lines, program, area, cert)
}

// The sum over slots of the greatest gain, by lines that count nothing before, and what each slot gains after.
pub fn gains_in(lines: &mut [Line], program: &Program, area: &Area, cert: &Cert) -> i128
    requires slots { length (present area.now) ≡ length program.now.root }
    requires there { length program.now.root ≤ length lines.old }
    requires few { length lines.old ≤ 4096 }
    requires bare { All (IsWithin 0) lines.old }
    requires usable { IsUsable (length program.now.rows) cert.now }
    requires open_ { All IsOpen (present area.now) }
    ensures value { result ≡ slots_total (gain program.now cert.now) 0 (present area.now) }
    ensures small { unsigned_abs result ≤ 2 ^ 117 }
    ensures lines { (slot v : ℕ) → slot < length lines.new
        → line_at (slot_line lines.new slot) v ≡ gain program.now cert.now slot v }
    ensures within { All (IsWithin (2 ^ 94)) lines.new }
{
    fill_gains(lines, program, cert);
    slots_sum(lines, area)
}

/// Makes lines that count nothing into what each slot gains. It costs the entries of the rows with factors and the slots.
pub fn fill_gains(lines: &mut [Line], program: &Program, cert: &Cert)
    requires there { length program.now.root ≤ length lines.old }
    requires few { length lines.old ≤ 4096 }
    requires bare { All (IsWithin 0) lines.old }
    requires usable { IsUsable (length program.now.rows) cert.now }
    ensures value { (slot v : ℕ) → slot < length lines.new
        → line_at (slot_line lines.new slot) v ≡ gain program.now cert.now slot v }
    ensures within { All (IsWithin (2 ^ 94)) lines.new }
{
    add_rows(lines, program.rows.as_slice(), cert.mults.as_slice());
    turn(lines);
    add_entries(lines, program.profit.as_slice(), u64::from(cert.scale));
}

// The sum over slots of the greatest of their lines.
fn slots_sum(lines: &[Line], area: &Area) -> i128
    requires slots { length (present area.now) ≤ length lines.now }
    requires few { length lines.now ≤ 4096 }
    requires within { All (IsWithin (2 ^ 94)) lines.now }
    requires open_ { All IsOpen (present area.now) }
    ensures value { result ≡ slots_total
        (λ slot. line_at (slot_line lines.now slot)) 0 (present area.now) }
    ensures small { unsigned_abs result ≤ 2 ^ 117 }
{
    let mut sum = 0i128;
    for slot in 0..area.slot_count() {
        sum += greatest_in(&lines[slot as usize], area.domain(slot));
    }
    sum
}

/// The greatest of a line over the values of a domain.
pub fn greatest_in(line: &Line, domain: Domain) -> i128
    requires within { IsWithin (2 ^ 94) line.now }
    requires normal { IsNormal domain }
    requires open_ { IsOpen domain }
    ensures value { result ≡ greatest (line_at line.now) (values_of domain) }
    ensures small { unsigned_abs result ≤ 2 ^ 103 }
{
    if domain.lo > domain.hi {
        return 0;
    }
    let end = best_end(line, domain.lo, domain.hi);
    let most = at_value(line, end);
    if domain.zero && most < 0 { 0 } else { most }
}

// The end of a range at which a line counts most.
fn best_end(line: &Line, lo: u8, hi: u8) -> u8
    requires positive { 1 ≤ lo }
    requires range { lo ≤ hi }
    ensures range { (lo ≤ result) × (result ≤ hi) }
    ensures best { (v : ℕ) → lo ≤ v → v ≤ hi → line_at line.now v ≤ℤ line_at line.now result }
{
    if line.per < 0 { lo } else { hi }
}

// What a line counts at a value of 1 or more.
pub fn at_value(line: &Line, value: u8) -> i128
    requires within { IsWithin (2 ^ 94) line.now }
    requires positive { 1 ≤ value }
    ensures value { result ≡ line_at line.now value }
    ensures small { unsigned_abs result ≤ 2 ^ 103 }
{
    line.fixed + times(line.per, value)
}

// A part for each unit of a value.
fn times(per: i128, value: u8) -> i128
    requires { unsigned_abs per ≤ 2 ^ 94 }
    ensures value { result ≡ per *ℤ pos value }
    ensures small { unsigned_abs result ≤ unsigned_abs per * value }
{
    per * i128::from(value)
}
