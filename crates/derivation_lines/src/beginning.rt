//! What a line begins that stands where a derivation may.
ghost use Rattle.std.specs.Prelude.{◌≡◌, ◌≤◌, []};
ghost use Rattle.derivation_lines.specs.Line.{IsTailLine};
ghost use Rattle.derivation_lines.specs.declared.line.TailLine.TheVariants as line;
ghost use Rattle.derivation_lines.specs.declared.seen.Seen.TheVariants as seen;
ghost use Rattle.derivation_lines.specs.Tail.{has_row_room, row_line};
ghost use Rattle.derivation_lines.specs.laws.Parts.{HasNoParts, IsBegun};
ghost use Rattle.derivation_lines.specs.laws.Walk.{MayBeSeen};

use crate::line::TailLine;
use crate::pieces::there;
use crate::seen::Seen;
use crate::tail::Counts;
use derived_rows::Derived;
use log_lines::Limits;
use log_lines::kinds::{ROW_NUMBER, SLOT_NUMBER};
use range_prop::RowCut;
use row_kit::List;
use std::alloc::Global;

/// With one row more there would be too many.
const TOO_MANY_ROWS: u8 = 21;

/// The most rows of a program with those of its sums and its derived ones.
const MOST_ROWS: u32 = 400_000;

/// The most derived rows.
const MOST_DERIVED: u32 = 4_096;

// A cut; a row without parts, which is to have so many; the kind of a defect; or nothing.
#[derive(Drop)]
pub(crate) enum Begun {
    Cut(RowCut),
    Row(Derived, Counts),
    Bad(u8),
    Nothing,
}

// What the line that is seen after so many derived rows begins.
pub(crate) fn begin_derivation(alloc: Global, limits: &Limits, before: u32, seen: Seen) -> Begun
    requires rows { limits.now.rows ≤ 400000 }
    requires before { before ≤ 4096 }
    requires may_be { MayBeSeen seen }
    ensures { IsBegun limits.now before seen result }
{
    match seen {
        Seen::Line(line) => begin_line(alloc, limits, before, line),
        Seen::Other => Begun::Nothing,
        Seen::Cut => Begun::Nothing,
    }
}

// What a line begins.
fn begin_line(alloc: Global, limits: &Limits, before: u32, line: TailLine) -> Begun
    requires rows { limits.now.rows ≤ 400000 }
    requires before { before ≤ 4096 }
    requires may_be { IsTailLine line }
    ensures { IsBegun limits.now before (seen.Line line) result }
{
    match line {
        TailLine::Cut { row, slot } => cut_of(limits, before, row, slot),
        TailLine::Row {
            divisor,
            rest,
            up,
            down,
            factors,
            groups,
            entries,
        } => {
            let counts = Counts {
                factors,
                groups,
                entries,
            };
            row_of(
                limits,
                before,
                row_with(alloc, divisor, rest, up, down),
                counts,
            )
        }
        _ => Begun::Nothing,
    }
}

// The cut of a row and a slot, or its defect.
fn cut_of(limits: &Limits, before: u32, row: u128, slot: u128) -> Begun
    requires rows { limits.now.rows ≤ 400000 }
    requires before { before ≤ 4096 }
    requires may_be { IsTailLine (line.Cut row slot) }
    ensures { IsBegun limits.now before (seen.Line (line.Cut row slot)) result }
{
    match there(limits.rows + before, row) {
        Some(row) => match there(limits.slots, slot) {
            Some(slot) => Begun::Cut(RowCut { row, slot }),
            None => Begun::Bad(SLOT_NUMBER),
        },
        None => Begun::Bad(ROW_NUMBER),
    }
}

// A row without parts that is to have so many, or its defect; nothing where it is to have more entries than slots.
fn row_of(limits: &Limits, before: u32, derived: Derived, counts: Counts) -> Begun
    requires rows { limits.now.rows ≤ 400000 }
    requires before { before ≤ 4096 }
    requires may_be { IsTailLine (row_line derived counts) }
    requires none { HasNoParts derived }
    ensures { IsBegun limits.now before (seen.Line (row_line derived counts)) result }
{
    if counts.entries > limits.slots {
        Begun::Nothing
    } else if has_row_room(limits, before + 1) {
        Begun::Row(derived, counts)
    } else {
        Begun::Bad(TOO_MANY_ROWS)
    }
}

// A row without parts.
fn row_with(alloc: Global, divisor: u32, rest: u32, up: u32, down: u32) -> Derived
    ensures { result ≡ record {
      divisor = divisor;
      rest = rest;
      up = up;
      down = down;
      factors = [];
      groups = [];
      entries = [];
    } }
{
    Derived {
        divisor,
        rest,
        up,
        down,
        factors: List::new(alloc),
        groups: List::new(alloc),
        entries: List::new(alloc),
    }
}

// Whether there is room for so many derived rows.
fn has_row_room(limits: &Limits, count: u32) -> bool
    requires rows { limits.now.rows ≤ 400000 }
    requires count { count ≤ 4097 }
    ensures { result ≡ has_row_room limits.now count }
{
    limits.rows + count <= MOST_ROWS && count <= MOST_DERIVED
}
