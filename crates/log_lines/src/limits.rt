//! Which numbers of a line are too large.
ghost use Rattle.std.specs.Prelude.{◌≡◌, ◌∷◌, [], nat_le, nat_lt};
ghost use Rattle.log_lines.specs.declared.line.Line.TheVariants as line;
ghost use Rattle.log_lines.specs.Grammar.{first_kind, row_test, cert_tests, over_at};

use crate::grammar::Limits;
use crate::kinds::{
    MOST_FACTOR, MOST_MULTS, MOST_SCALE, MULT_TOO_LARGE, ROW_NUMBER, SCALE_TOO_LARGE, SLOT_NUMBER,
    TOO_DEEP, TOO_MANY_MULTS,
};
use crate::line::Line;

// The kind of the first number of the line that is too large, where so many splits are open.
pub(crate) fn over(limits: &Limits, opened: usize, line: &Line) -> Option<u8>
    ensures { result ≡ over_at limits.now opened line.now }
{
    match *line {
        Line::Node => too_deep(limits, opened),
        Line::Cut { row, slot } => match row_number(limits, row) {
            Some(kind) => Some(kind),
            None => slot_number(limits.slots, slot),
        },
        Line::Value { slot, quanta: _ } => slot_number(limits.points, slot),
        Line::Dual { scale, count } => cert_size(scale, count),
        Line::Pending { scale, count } => cert_size(scale, count),
        Line::Split {
            slot,
            max: _,
            scale,
            count,
        } => match slot_number(limits.slots, slot) {
            Some(kind) => Some(kind),
            None => cert_size(scale, count),
        },
        Line::Mult { row, factor } => match row_number(limits, row) {
            Some(kind) => Some(kind),
            None => factor_size(factor),
        },
        _ => None,
    }
}

fn too_deep(limits: &Limits, opened: usize) -> Option<u8>
    ensures { result ≡ over_at limits.now opened line.Node }
{
    if opened > limits.depth as usize {
        Some(TOO_DEEP)
    } else {
        None
    }
}

fn row_number(limits: &Limits, row: u128) -> Option<u8>
    ensures { result ≡ first_kind (row_test limits.now row ∷ []) }
{
    if row >= u128::from(limits.rows) {
        Some(ROW_NUMBER)
    } else {
        None
    }
}

fn slot_number(slots: u32, slot: u128) -> Option<u8>
    ensures { result ≡ first_kind ((nat_le slots slot, 5) ∷ []) }
{
    if slot >= u128::from(slots) {
        Some(SLOT_NUMBER)
    } else {
        None
    }
}

fn cert_size(scale: u128, count: u128) -> Option<u8>
    ensures { result ≡ first_kind (cert_tests scale count) }
{
    if scale > MOST_SCALE {
        Some(SCALE_TOO_LARGE)
    } else if count > MOST_MULTS {
        Some(TOO_MANY_MULTS)
    } else {
        None
    }
}

fn factor_size(factor: u128) -> Option<u8>
    ensures { result ≡ first_kind ((nat_lt 1099511627776 factor, 6) ∷ []) }
{
    if factor > MOST_FACTOR {
        Some(MULT_TOO_LARGE)
    } else {
        None
    }
}
