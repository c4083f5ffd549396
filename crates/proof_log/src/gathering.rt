//! The gathering of lines into items and a claim.
ghost use Rattle.std.specs.Prelude.{ℕ, [], ◌≡◌, ◌≤◌, length, Some, OnOk, IfOk};
ghost use Rattle.proof_log.specs.Gathering.{HasCert, padded, value_piece, mult_piece, grown_values, grown_mults, begun, valued, multed, floored, followed, MayBegin, MaySplit, MayValue, MayMult, MayFollow};

use crate::claim::Claim;
use crate::group::{Group, Grown, MultHead, Piece, ValueHead};
use dual_bound::{Cert, Mult};
use log_lines::Line;
use proof_tree::Item;
use range_prop::RowCut;
use row_kit::{Found, List};
use row_relax::{RowPick, Rows};
use std::alloc::{AllocError, Global};

/// Puts as many zeroes to the end as the point lacks of this many values.
fn pad(point: &mut List<u8>, slots: usize) -> Result<(), AllocError>
    requires { length point.old ≤ slots }
    ensures { OnOk result (point.new ≡ padded slots point.old) }
{
    for _ in point.len()..slots {
        point.push(0)?;
    }
    Ok(())
}

/// The item or the claim of a head and its point.
fn value_piece(head: ValueHead, point: List<u8>) -> Piece
    ensures { result ≡ value_piece head point }
{
    match head {
        ValueHead::Found { value } => Piece::Item(Item::Found(Found { value, point })),
        ValueHead::Optimal { profit } => Piece::Claim(Claim::Optimal { profit, point }),
        ValueHead::Between { profit, cap } => Piece::Claim(Claim::Between { profit, cap, point }),
    }
}

/// The item of a head and its multipliers.
fn mult_piece(head: MultHead, mults: List<Mult>) -> Piece
    ensures { result ≡ mult_piece head mults }
{
    Piece::Item(match head {
        MultHead::Dual { scale } => Item::Dual(Cert { scale, mults }),
        MultHead::Pending { scale } => Item::Pending(Cert { scale, mults }),
        MultHead::Split { pick, scale } => Item::Split(pick, Cert { scale, mults }),
    })
}

/// Values of which so many have to come: the whole item or claim where none has.
fn grow_values(
    slots: usize,
    head: ValueHead,
    left: u128,
    point: List<u8>,
) -> Result<Grown, AllocError>
    requires { length point ≤ slots }
    ensures { IfOk result (λ grown. grown ≡ grown_values slots head left point) }
{
    if left > 0 {
        return Ok(Grown::More(Group::Values { head, left, point }));
    }
    let mut point = point;
    pad(&mut point, slots)?;
    Ok(Grown::Whole(value_piece(head, point)))
}

/// Multipliers of which so many have to come: the whole item where none has.
fn grow_mults(head: MultHead, left: u128, mults: List<Mult>) -> Grown
    ensures { result ≡ grown_mults head left mults }
{
    if left > 0 {
        return Grown::More(Group::Mults { head, left, mults });
    }
    Grown::Whole(mult_piece(head, mults))
}

/// The first line of an item or of the claim.
fn begin(alloc: Global, slots: usize, line: Line) -> Result<Grown, AllocError>
    requires { MayBegin line }
    ensures { IfOk result (λ grown. grown ≡ begun slots line) }
{
    match line {
        Line::Node => Ok(Grown::Whole(Piece::Item(Item::Node))),
        Line::Cut { row, slot } => Ok(Grown::Whole(Piece::Item(Item::Cut(RowCut {
            row: row as u32,
            slot: slot as u32,
        })))),
        Line::Floor { profit } => Ok(Grown::More(Group::Floor { profit })),
        Line::Empty => Ok(Grown::Whole(Piece::Item(Item::Empty))),
        Line::Point => Ok(Grown::Whole(Piece::Item(Item::Point))),
        Line::ClaimInfeasible => Ok(Grown::Whole(Piece::Claim(Claim::Infeasible))),
        Line::ClaimBelow { cap } => Ok(Grown::Whole(Piece::Claim(Claim::Below { cap }))),
        Line::Found { value, count } => begin_values(
            alloc,
            slots,
            ValueHead::Found { value },
            count,
        ),
        Line::ClaimOptimal { profit, count } => {
            begin_values(alloc, slots, ValueHead::Optimal { profit }, count)
        }
        Line::ClaimBetween { profit, cap, count } => {
            begin_values(alloc, slots, ValueHead::Between { profit, cap }, count)
        }
        _ => Ok(begin_mults(alloc, line)),
    }
}

/// A head of which so many values have to come.
fn begin_values(
    alloc: Global,
    slots: usize,
    head: ValueHead,
    count: u128,
) -> Result<Grown, AllocError>
    ensures { IfOk result (λ grown. grown ≡ grown_values slots head count []) }
{
    grow_values(slots, head, count, List::new(alloc))
}

/// The first line of an item with a certificate.
fn begin_mults(alloc: Global, line: Line) -> Grown
    requires may { MayBegin line }
    requires certified { HasCert line }
    ensures { (slots : ℕ) → result ≡ begun slots line }
{
    match line {
        Line::Dual { scale, count } => {
            let scale = scale as u32;
            grow_mults(MultHead::Dual { scale }, count, List::new(alloc))
        }
        Line::Pending { scale, count } => {
            let scale = scale as u32;
            grow_mults(MultHead::Pending { scale }, count, List::new(alloc))
        }
        Line::Split {
            slot,
            max,
            scale,
            count,
        } => {
            let pick = RowPick {
                slot: slot as u32,
                max,
                floor: None,
            };
            let scale = scale as u32;
            grow_mults(MultHead::Split { pick, scale }, count, List::new(alloc))
        }
        _ => unreachable!(),
    }
}

/// The line of the split that a floor belongs to.
fn follow_floor(alloc: Global, profit: &i128, line: Line) -> Grown
    requires { MaySplit line }
    ensures { result ≡ floored (Some profit.now) line }
{
    match line {
        Line::Split {
            slot,
            max,
            scale,
            count,
        } => {
            let pick = RowPick {
                slot: slot as u32,
                max,
                floor: Some(*profit),
            };
            let scale = scale as u32;
            grow_mults(MultHead::Split { pick, scale }, count, List::new(alloc))
        }
        _ => unreachable!(),
    }
}

/// A value line in its group.
fn follow_value(
    slots: usize,
    head: ValueHead,
    left: u128,
    point: List<u8>,
    line: Line,
) -> Result<Grown, AllocError>
    requires { MayValue slots left point line }
    ensures { IfOk result (λ grown. grown ≡ valued slots head left point line) }
{
    match line {
        Line::Value { slot, quanta } => {
            let mut point = point;
            pad(&mut point, slot as usize)?;
            point.push(quanta)?;
            grow_values(slots, head, left - 1, point)
        }
        _ => unreachable!(),
    }
}

/// A line of a multiplier in its group.
fn follow_mult(
    slots: usize,
    head: MultHead,
    left: u128,
    mults: List<Mult>,
    line: Line,
) -> Result<Grown, AllocError>
    requires { MayMult left line }
    ensures { IfOk result (λ grown. grown ≡ multed head left mults line) }
{
    match line {
        Line::Mult { row, factor } => {
            let mut mults = mults;
            mults.push(Mult {
                row: row as u32,
                factor: factor as u64,
            })?;
            Ok(grow_mults(head, left - 1, mults))
        }
        _ => unreachable!(),
    }
}

/// What a line makes of a group that it may follow.
pub(crate) fn follow(
    alloc: Global,
    slots: usize,
    group: Group,
    line: Line,
) -> Result<Grown, AllocError>
    requires { MayFollow slots group line }
    ensures { IfOk result (λ grown. grown ≡ followed slots group line) }
{
    match group {
        Group::Nothing => begin(alloc, slots, line),
        Group::Floor { profit } => Ok(follow_floor(alloc, &profit, line)),
        Group::Values { head, left, point } => follow_value(slots, head, left, point, line),
        Group::Mults { head, left, mults } => follow_mult(slots, head, left, mults, line),
    }
}
