//! What a line leads to, wherever splits are open.
ghost use Rattle.std.specs.Prelude.{◌≡◌, ◌-◌, Some};
ghost use Rattle.log_lines.specs.declared.grammar.Place.TheVariants as place;
ghost use Rattle.log_lines.specs.declared.line.Line.TheVariants as line;
ghost use Rattle.log_lines.specs.Grammar.{claim_step, ending_step, floor_step, follows, inside_step, mults_step, split_step, step_of, values_step};

use crate::grammar::Place;
use crate::line::Line;

/// What a line leads to.
#[derive(Clone, Copy)]
pub enum Step {
    /// A log of this version has begun.
    Begins { version: u8 },

    /// This comes next.
    At { place: Place },

    /// A split has opened: its left part comes next.
    Opens,

    /// A part has ended.
    Ends,
}

// What the line leads to in a log of this version at this place.
pub(crate) fn step_of(version: u8, place: Place, line: &Line) -> Option<Step>
    ensures { result ≡ step_of version place line.now }
{
    match place {
        Place::Header => header_step(line),
        Place::Node => node_step(line),
        Place::Inside => inside_step(version, line),
        Place::Ending => ending_step(version, line),
        Place::Floored => split_step(line),
        Place::Values {
            left,
            above,
            of_claim,
        } => value_step(left, above, of_claim, line),
        Place::Mults {
            left,
            above,
            splits,
        } => mult_step(left, above, splits, line),
        Place::Claim => claim_step(line),
        Place::End => end_step(line),
        Place::Done => None,
    }
}

// The first line.
fn header_step(line: &Line) -> Option<Step>
    ensures { result ≡ step_of 1 place.Header line.now }
{
    match *line {
        Line::Header { version } => Some(Step::Begins { version }),
        _ => None,
    }
}

// The line `node`.
fn node_step(line: &Line) -> Option<Step>
    ensures { result ≡ step_of 1 place.Node line.now }
{
    match *line {
        Line::Node => Some(Step::At {
            place: Place::Inside,
        }),
        _ => None,
    }
}

// The line `end`.
fn end_step(line: &Line) -> Option<Step>
    ensures { result ≡ step_of 1 place.End line.now }
{
    match *line {
        Line::End => Some(Step::At { place: Place::Done }),
        _ => None,
    }
}

// A cut, a found line or an ending.
fn inside_step(version: u8, line: &Line) -> Option<Step>
    ensures { result ≡ inside_step version line.now }
{
    match *line {
        Line::Cut { row: _, slot: _ } => Some(Step::At {
            place: Place::Inside,
        }),
        Line::Found { value: _, count } => Some(values_step(count, None, false)),
        _ => ending_step(version, line),
    }
}

// An ending.
fn ending_step(version: u8, line: &Line) -> Option<Step>
    ensures { result ≡ ending_step version line.now }
{
    match *line {
        Line::Empty => Some(Step::Ends),
        Line::Point => point_step(version),
        Line::Dual { scale: _, count } => Some(mults_step(count, None, false)),
        Line::Pending { scale: _, count } => Some(mults_step(count, None, false)),
        Line::Floor { profit: _ } => floor_step(version),
        _ => split_step(line),
    }
}

// The line `point`, which version 1 has not.
fn point_step(version: u8) -> Option<Step>
    ensures { result ≡ ending_step version line.Point }
{
    if version >= 2 { Some(Step::Ends) } else { None }
}

// The line of a floor, which only version 4 has.
fn floor_step(version: u8) -> Option<Step>
    ensures { result ≡ floor_step version }
{
    if version == 4 {
        Some(Step::At {
            place: Place::Floored,
        })
    } else {
        None
    }
}

// The line of a split.
fn split_step(line: &Line) -> Option<Step>
    ensures { result ≡ split_step line.now }
{
    match *line {
        Line::Split {
            slot: _,
            max: _,
            scale: _,
            count,
        } => Some(mults_step(count, None, true)),
        _ => None,
    }
}

// A claim.
fn claim_step(line: &Line) -> Option<Step>
    ensures { result ≡ claim_step line.now }
{
    match *line {
        Line::ClaimOptimal { profit: _, count } => Some(values_step(count, None, true)),
        Line::ClaimInfeasible => Some(Step::At { place: Place::End }),
        Line::ClaimBetween {
            profit: _,
            cap: _,
            count,
        } => Some(values_step(count, None, true)),
        Line::ClaimBelow { cap: _ } => Some(Step::At { place: Place::End }),
        _ => None,
    }
}

// A value line.
fn value_step(left: u128, above: Option<u128>, of_claim: bool, line: &Line) -> Option<Step>
    ensures { result ≡ step_of 1 (place.Values left above of_claim) line.now }
{
    match *line {
        Line::Value { slot, quanta: _ } => {
            if follows(above, slot) {
                Some(values_step(left.saturating_sub(1), Some(slot), of_claim))
            } else {
                None
            }
        }
        _ => None,
    }
}

// A mult line.
fn mult_step(left: u128, above: Option<u128>, splits: bool, line: &Line) -> Option<Step>
    ensures { result ≡ step_of 1 (place.Mults left above splits) line.now }
{
    match *line {
        Line::Mult { row, factor: _ } => {
            if follows(above, row) {
                Some(mults_step(left.saturating_sub(1), Some(row), splits))
            } else {
                None
            }
        }
        _ => None,
    }
}

// So many value lines come.
fn values_step(left: u128, above: Option<u128>, of_claim: bool) -> Step
    ensures { result ≡ values_step left above of_claim }
{
    let place = if left != 0 {
        Place::Values {
            left,
            above,
            of_claim,
        }
    } else if of_claim {
        Place::End
    } else {
        Place::Ending
    };
    Step::At { place }
}

// So many mult lines come.
fn mults_step(left: u128, above: Option<u128>, splits: bool) -> Step
    ensures { result ≡ mults_step left above splits }
{
    if left != 0 {
        Step::At {
            place: Place::Mults {
                left,
                above,
                splits,
            },
        }
    } else if splits {
        Step::Opens
    } else {
        Step::Ends
    }
}

// Whether the number is above the last one.
fn follows(above: Option<u128>, number: u128) -> bool
    ensures { result ≡ follows above number }
{
    match above {
        Some(last) => last < number,
        None => true,
    }
}
