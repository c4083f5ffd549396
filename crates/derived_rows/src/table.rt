//! The parts of all slots.
ghost use Rattle.std.specs.Prelude.{◌≡◌, ℕ, ◌+◌, ◌<◌, ◌≤◌, ◌↔◌, length, map, IsTrue, IfOk};
ghost use Rattle.std.specs.List.{All};
ghost use Rattle.row_kit.specs.Bounds.{IsBoundedRow};
ghost use Rattle.row_kit.specs.Domain.{Holds, IsNormal, domain_at};
ghost use Rattle.derived_rows.specs.Derived.{round_of, slack_factor};
ghost use Rattle.derived_rows.specs.Line.{AreSmall, IsBelow, IsRounding, IsSmallFactor};
ghost use Rattle.derived_rows.specs.Shown.{IsDeclared};
ghost use Rattle.derived_rows.specs.Table.{IsTableOf, parts_at};

use crate::derived::{Derived, Factor};
use crate::line::Line;
use crate::lines::{entry_lines, mixed_lines};
use crate::parts::Parts;
use crate::shifts::shifts;
use row_kit::{Domain, List, Row};
use std::alloc::{AllocError, Global};

/// For each slot what the factors make of it, what the factors of slacks make of it, what its own entry counts, and its shift.
#[derive(Drop)]
pub struct Table {
    pub sums: List<Line>,
    pub slacks: List<Line>,
    pub own: List<Line>,
    pub shifts: List<i64>,
}

impl Table {
    // The table of a derived row of rows over so many slots. It takes memory for the slots, and costs the entries of the rows of factors and groups.
    pub fn new(
        alloc: Global,
        rows: &[Row],
        slots: usize,
        derived: &Derived,
        slacks: &[Factor],
    ) -> Result<Table, AllocError>
        requires slots { slots ≤ 4096 }
        requires bounded { All (IsBoundedRow slots) rows.now }
        requires declared { IsDeclared rows.now slots derived.now }
        requires slacks { slacks.now
            ≡ map (slack_factor (round_of derived.now)) derived.now.factors }
        requires small { All (IsSmallFactor (length rows.now)) slacks.now }
        ensures { IfOk result (IsTableOf rows.now slots derived.now) }
    {
        let sums = mixed_lines(alloc, slots, rows, derived.factors.as_slice())?;
        let slacks = mixed_lines(alloc, slots, rows, slacks)?;
        let own = entry_lines(alloc, slots, derived.entries.as_slice())?;
        let shifts = shifts(alloc, slots, rows, derived.groups.as_slice())?;
        Ok(Table {
            sums,
            slacks,
            own,
            shifts,
        })
    }

    // Whether the entries are below what is rounded at each value of 1 or more that the domains hold.
    pub fn are_below(&self, derived: &Derived, domains: &[Domain]) -> bool
        requires slots { (slot : ℕ) → slot < length domains.now
            → AreSmall (parts_at self.now slot) }
        requires sums { length self.now.sums ≡ length domains.now }
        requires slacks { length self.now.slacks ≡ length domains.now }
        requires own { length self.now.own ≡ length domains.now }
        requires shifts { length self.now.shifts ≡ length domains.now }
        requires rounding { IsRounding derived.now }
        requires normal { All IsNormal domains.now }
        ensures { IsTrue result ↔ ((slot value : ℕ) → slot < length domains.now → 1 ≤ value
            → Holds (domain_at domains.now slot) value
            → IsBelow derived.now (parts_at self.now slot) value) }
    {
        for slot in 0..domains.len() {
            if !self.parts(slot).are_below(derived, domains[slot]) {
                return false;
            }
        }
        true
    }

    // The parts of a slot.
    fn parts(&self, slot: usize) -> Parts
        requires sums { slot < length self.now.sums }
        requires slacks { slot < length self.now.slacks }
        requires own { slot < length self.now.own }
        requires shifts { slot < length self.now.shifts }
        ensures { result ≡ parts_at self.now slot }
    {
        Parts {
            sum: *self.sums.get(slot),
            slack: *self.slacks.get(slot),
            own: *self.own.get(slot),
            shift: *self.shifts.get(slot),
        }
    }
}
