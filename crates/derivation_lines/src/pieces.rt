//! The parts of a derived row, line by line.
ghost use Rattle.std.specs.Prelude.{◌≡◌, nat_le, true, false, None, MatchOption};
ghost use Rattle.log_lines.specs.Grammar.{follows};
ghost use Rattle.sum_lines.specs.Head.{last_slot};
ghost use Rattle.derivation_lines.specs.Front.{last_row, next_part};
ghost use Rattle.derivation_lines.specs.Line.{IsTailLine};
ghost use Rattle.derivation_lines.specs.declared.tail.Part.TheVariants as part;
ghost use Rattle.derivation_lines.specs.laws.Parts.{ReadsPiece, ReadsSeen};
ghost use Rattle.derivation_lines.specs.laws.Walk.{MayBeSeen};

use crate::line::TailLine;
use crate::seen::Seen;
use crate::tail::{Counts, Part, Reach};
use derived_rows::{Derived, Factor, Group, Members};
use log_lines::kinds::{GRAMMAR, ROW_NUMBER, SLOT_NUMBER, TRUNCATED};
use row_kit::Entry;

/// A part of a derived row.
#[derive(Clone, Copy)]
pub enum Piece {
    Factor(Factor),
    Group(Group),
    Entry(Entry),
}

// The part that is seen where one is to come, or the kind of its defect.
pub(crate) fn piece_of(reach: Reach, derived: &Derived, next: Part, seen: Seen) -> Result<Piece, u8>
    requires { MayBeSeen seen }
    ensures { ReadsSeen reach.slots reach.rows derived.now next seen result }
{
    match seen {
        Seen::Cut => Err(TRUNCATED),
        Seen::Other => Err(GRAMMAR),
        Seen::Line(line) => match next {
            Part::Factor => factor_of(reach, derived, line),
            Part::Group => group_of(reach, derived, line),
            Part::Entry => entry_of(reach, derived, line),
        },
    }
}

// The factor that a line is, above the last one, or the kind of its defect.
fn factor_of(reach: Reach, derived: &Derived, line: TailLine) -> Result<Piece, u8>
    requires { IsTailLine line }
    ensures { ReadsPiece reach.slots reach.rows derived.now part.Factor line result }
{
    match line {
        TailLine::By { row, by } => {
            if follows(last_row(derived.factors.as_slice()), row) {
                match there(reach.rows, row) {
                    Some(row) => Ok(Piece::Factor(Factor { row, by })),
                    None => Err(ROW_NUMBER),
                }
            } else {
                Err(GRAMMAR)
            }
        }
        _ => Err(GRAMMAR),
    }
}

// The group that a line is, or the kind of its defect.
fn group_of(reach: Reach, derived: &Derived, line: TailLine) -> Result<Piece, u8>
    requires { IsTailLine line }
    ensures { ReadsPiece reach.slots reach.rows derived.now part.Group line result }
{
    match line {
        TailLine::Shift { row, shift } => match there(reach.rows, row) {
            Some(row) => Ok(Piece::Group(Group {
                members: Members::OfRow(row),
                shift,
            })),
            None => Err(ROW_NUMBER),
        },
        TailLine::Lift { slot, shift } => match there(reach.slots, slot) {
            Some(slot) => Ok(Piece::Group(Group {
                members: Members::One(slot),
                shift,
            })),
            None => Err(SLOT_NUMBER),
        },
        _ => Err(GRAMMAR),
    }
}

// The entry that a line is, above the last one, or the kind of its defect.
fn entry_of(reach: Reach, derived: &Derived, line: TailLine) -> Result<Piece, u8>
    requires { IsTailLine line }
    ensures { ReadsPiece reach.slots reach.rows derived.now part.Entry line result }
{
    match line {
        TailLine::Entry { slot, fixed, per } => {
            if follows(last_slot(derived.entries.as_slice()), slot) {
                match there(reach.slots, slot) {
                    Some(slot) => Ok(Piece::Entry(Entry { slot, fixed, per })),
                    None => Err(SLOT_NUMBER),
                }
            } else {
                Err(GRAMMAR)
            }
        }
        _ => Err(GRAMMAR),
    }
}

// A number below a count, or None.
pub(crate) fn there(count: u32, number: u128) -> Option<u32>
    ensures { MatchOption result (nat_le count number ≡ true)
        (λ n. (n ≡ number) × (nat_le count number ≡ false)) }
{
    if number < u128::from(count) {
        Some(number as u32)
    } else {
        None
    }
}

// Whether a number is above the last one.
fn follows(above: Option<u32>, number: u128) -> bool
    ensures { result ≡ follows above number }
{
    match above {
        Some(last) => u128::from(last) < number,
        None => true,
    }
}

// The row of the last factor.
fn last_row(factors: &[Factor]) -> Option<u32>
    ensures { result ≡ last_row None factors.now }
{
    match factors {
        [.., last] => Some(last.row),
        [] => None,
    }
}

// The slot of the last entry.
fn last_slot(entries: &[Entry]) -> Option<u32>
    ensures { result ≡ last_slot None entries.now }
{
    match entries {
        [.., last] => Some(last.slot),
        [] => None,
    }
}

// What comes next in a row that is to have so many parts.
pub(crate) fn next_part(derived: &Derived, counts: &Counts) -> Part
    ensures { result ≡ next_part derived.now counts.now }
{
    if derived.factors.len() < counts.factors as usize {
        Part::Factor
    } else if derived.groups.len() < counts.groups as usize {
        Part::Group
    } else {
        Part::Entry
    }
}
