//! A step of all factors at once.
ghost use Rattle.std.specs.Prelude.{◌≡◌, ◌≤◌, ◌<◌, ◌^◌, length, pos, ◌≤ℤ◌, IsSome, IfOk};
ghost use Rattle.std.specs.List.{All};
ghost use Rattle.row_kit.specs.Area.{present};
ghost use Rattle.row_kit.specs.Bounds.{IsBoundedRow};
ghost use Rattle.dual_bound.specs.Total.{total_at};
ghost use Rattle.dual_climb.specs.laws.Held.{IsClimbing, CanMove};
ghost use Rattle.dual_climb.specs.laws.Sums.{IsFull};

use crate::factors::spread;
use crate::gains::{Gains, gains_under, move_gains};
use crate::pace::Pace;
use dual_bound::{Cert, Line, MOST_FACTOR, Mult};
use row_kit::{Area, Domain, Entry, Program, Row};
use std::alloc::{AllocError, Global};

// The factors of all rows with what the slots gain under them, what each row has left, and the best factors so far.
#[derive(Drop)]
pub struct Climbing {
    factors: Vec<Mult>,
    gains: Gains,
    slacks: Vec<i128>,
    point: Vec<u8>,
    pub best: Vec<Mult>,
}

impl Climbing {
    // The factors of a certificate.
    pub fn new(
        alloc: Global,
        program: &Program,
        area: &Area,
        start: &Cert,
    ) -> Result<Climbing, AllocError>
        requires slots { length (present area.now) ≡ length program.now.root }
        requires total { IsSome (total_at program.now (present area.now) start.now) }
        requires few_rows { length program.now.rows ≤ 50000 }
        ensures area { CanMove program.now (present area.now) start.now.scale }
        ensures climbing { IfOk result (IsClimbing program.now (present area.now) start.now.scale) }
    {
        let _ = area.slot_count();
        let factors = spread(alloc, program.rows.len(), start.mults.as_slice())?;
        let best = Vec::from_slice(alloc, factors.as_slice())?;
        let slacks = vec![in alloc; 0i128; program.rows.len()]?;
        let point = vec![in alloc; 0u8; program.root.len()]?;
        let gains = gains_under(alloc, program, area, start)?;
        Ok(Climbing {
            factors,
            gains,
            slacks,
            point,
            best,
        })
    }

    // One step.
    pub fn advance(&mut self, program: &Program, area: &Area, scale: u32, pace: &mut Pace)
        requires area { CanMove program.now (present area.now) scale }
        requires climbing { IsClimbing program.now (present area.now) scale self.old }
        ensures { IsClimbing program.now (present area.now) scale self.new }
    {
        let total = self.total(program, area, scale);
        if pace.notes(&total) {
            self.best
                .as_mut_slice()
                .copy_from_slice(self.factors.as_slice());
        }
        put_best(self.gains.lines.as_slice(), area, self.point.as_mut_slice());
        note_slacks(
            program.rows.as_slice(),
            self.point.as_slice(),
            &mut self.slacks,
        );
        let norm = norm(self.slacks.as_slice(), self.factors.as_slice());
        self.move_factors(program, area, scale, &pace.excess(&total), &norm);
    }

    // The total of the factors; a sum that would leave its range stays at the end of it.
    fn total(&self, program: &Program, area: &Area, scale: u32) -> i128
        requires area { CanMove program.now (present area.now) scale }
        requires climbing { IsClimbing program.now (present area.now) scale self.now }
    {
        program
            .base
            .saturating_mul(i128::from(scale))
            .saturating_add(limits(program.rows.as_slice(), self.factors.as_slice()))
            .saturating_add(sum_of(self.gains.most.as_slice()))
    }

    // Moves each factor against what its row has left, as far as the total is to fall by an excess.
    fn move_factors(
        &mut self,
        program: &Program,
        area: &Area,
        scale: u32,
        excess: &i128,
        norm: &i128,
    )
        requires area { CanMove program.now (present area.now) scale }
        requires climbing { IsClimbing program.now (present area.now) scale self.old }
        requires norm { pos 1 ≤ℤ norm.now }
        ensures { IsClimbing program.now (present area.now) scale self.new }
    {
        for number in 0..program.rows.len() {
            let own = self.factors[number].factor;
            let factor = moved(own, &self.slacks[number], excess, norm);
            if factor != own {
                self.give(program, area, scale, number, factor);
            }
        }
    }

    // Gives a row another factor than its own.
    fn give(&mut self, program: &Program, area: &Area, scale: u32, number: usize, factor: u64)
        requires area { CanMove program.now (present area.now) scale }
        requires climbing { IsClimbing program.now (present area.now) scale self.old }
        requires number { number < length program.now.rows }
        requires factor { factor ≤ 2 ^ 40 }
        ensures { IsClimbing program.now (present area.now) scale self.new }
    {
        let row = &program.rows.as_slice()[number];
        let own = self.factors[number].factor;
        move_gains(&mut self.gains, area, row, own, factor);
        self.factors[number].factor = factor;
    }
}

// The sum of factor times row limit.
fn limits(rows: &[Row], factors: &[Mult]) -> i128
    requires { length factors.now ≡ length rows.now }
{
    let mut sum = 0i128;
    for number in 0..rows.len() {
        let part = rows[number]
            .limit
            .saturating_mul(i128::from(factors[number].factor));
        sum = sum.saturating_add(part);
    }
    sum
}

// The sum of numbers.
fn sum_of(numbers: &[i128]) -> i128 {
    let mut sum = 0i128;
    for number in numbers {
        sum = sum.saturating_add(*number);
    }
    sum
}

// Fills in the values at which the slots gain most.
fn put_best(lines: &[Line], area: &Area, point: &mut [u8])
    requires slots { length (present area.now) ≡ length lines.now }
    requires places { length point.old ≡ length lines.now }
{
    for slot in 0..area.slot_count() {
        point[slot as usize] = best_value(&lines[slot as usize], area.domain(slot));
    }
}

// The value of a domain at which a line counts most.
fn best_value(line: &Line, domain: Domain) -> u8 {
    if domain.lo > domain.hi {
        return 0;
    }
    let end = if line.per < 0 { domain.lo } else { domain.hi };
    let most = line
        .fixed
        .saturating_add(line.per.saturating_mul(i128::from(end)));
    if domain.zero && most < 0 { 0 } else { end }
}

// Notes what each row has left at a point.
fn note_slacks(rows: &[Row], point: &[u8], slacks: &mut Vec<i128>)
    requires bounded { All (IsBoundedRow (length point.now)) rows.now }
    requires all { length slacks.old.items ≡ length rows.now }
    ensures { length slacks.new.items ≡ length rows.now }
{
    for number in 0..rows.len() {
        slacks[number] = slack(&rows[number], point);
    }
}

// What a row has left at a point: its limit less what its entries sum to.
fn slack(row: &Row, point: &[u8]) -> i128
    requires { IsBoundedRow (length point.now) row.now }
{
    let mut left = row.limit;
    for entry in row.entries.as_slice() {
        left = left.saturating_sub(counted(entry, point[entry.slot as usize]));
    }
    left
}

// What an entry counts at a value.
fn counted(entry: &Entry, value: u8) -> i128 {
    if value == 0 {
        return 0;
    }
    i128::from(entry.fixed).saturating_add(i128::from(entry.per).saturating_mul(i128::from(value)))
}

// The sum of the squares of what rows have left, without those that have room and no factor; 1 or more.
fn norm(slacks: &[i128], factors: &[Mult]) -> i128
    requires { length slacks.now ≡ length factors.now }
    ensures { pos 1 ≤ℤ result }
{
    let mut sum = 0i128;
    for number in 0..slacks.len() {
        let left = slacks[number];
        if factors[number].factor != 0 || left < 0 {
            sum = sum.saturating_add(left.saturating_mul(left));
        }
    }
    if sum < 1 { 1 } else { sum }
}

// A factor moved against what its row has left, kept in its range.
fn moved(factor: u64, left: &i128, excess: &i128, norm: &i128) -> u64
    requires { pos 1 ≤ℤ norm.now }
    ensures { result ≤ 2 ^ 40 }
{
    let next = i128::from(factor).saturating_sub(left.saturating_mul(*excess) / *norm);
    if next < 0 {
        0
    } else if next > i128::from(MOST_FACTOR) {
        MOST_FACTOR
    } else {
        next as u64
    }
}
