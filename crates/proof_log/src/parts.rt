//! The lines of the parts of an item: cuts, points and certificates.

ghost use Rattle.std.specs.Prelude.{◌≡◌, ◌++◌, ◌∷◌, map, OnOk};
ghost use Rattle.proof_tree.specs.declared.item.Item.{Item};
ghost use Rattle.proof_log.specs.Log.{floor_lines, item_lines, lines_text, mult_line, started, value_line, value_lines};

use dual_bound::{Cert, Mult};
use log_lines::{Line, put_line};
use range_prop::RowCut;
use row_kit::Found;
use row_relax::RowPick;
use std::alloc::{AllocError, Global};

// How many slots of the point have a start.
pub(crate) fn started(point: &[u8]) -> u128
    ensures { result ≡ started point.now }
{
    point.iter().filter(|value| **value != 0).count() as u128
}

// Appends the lines of the values of the point.
#[tactic(auto, unfolding(crate::specs::Log::lines_text, crate::specs::Log::item_lines))]
pub(crate) fn put_values(alloc: Global, point: &[u8], into: &mut Vec<u8>) -> Result<(), AllocError>
    ensures { OnOk result (into.new.items
        ≡ into.old.items ++ lines_text (value_lines 0 point.now)) }
{
    for (slot, value) in point.iter().enumerate() {
        put_value(alloc, slot, *value, into)?;
    }
    Ok(())
}

// Appends the line of the value of a slot, if something starts in it.
#[tactic(auto, unfolding(crate::specs::Log::lines_text, crate::specs::Log::item_lines))]
fn put_value(alloc: Global, slot: usize, value: u8, into: &mut Vec<u8>) -> Result<(), AllocError>
    ensures { OnOk result (into.new.items ≡ into.old.items ++ lines_text (value_line slot value)) }
{
    if value == 0 {
        return Ok(());
    }
    let slot = slot as u128;
    put_line(
        alloc,
        &Line::Value {
            slot,
            quanta: value,
        },
        into,
    )
}

// Appends the lines of the multipliers.
#[tactic(auto, unfolding(crate::specs::Log::lines_text, crate::specs::Log::item_lines))]
fn put_mults(alloc: Global, mults: &[Mult], into: &mut Vec<u8>) -> Result<(), AllocError>
    ensures { OnOk result (into.new.items
        ≡ into.old.items ++ lines_text (map mult_line mults.now)) }
{
    for mult in mults {
        let row = u128::from(mult.row);
        let factor = u128::from(mult.factor);
        put_line(alloc, &Line::Mult { row, factor }, into)?;
    }
    Ok(())
}

// Appends the line of a cut.
#[tactic(auto, unfolding(crate::specs::Log::lines_text, crate::specs::Log::item_lines))]
pub(crate) fn put_cut(alloc: Global, cut: &RowCut, into: &mut Vec<u8>) -> Result<(), AllocError>
    ensures { OnOk result (into.new.items
        ≡ into.old.items ++ lines_text (item_lines (Item.Cut cut.now))) }
{
    let row = u128::from(cut.row);
    let slot = u128::from(cut.slot);
    put_line(alloc, &Line::Cut { row, slot }, into)
}

// Appends the lines of a point that was found.
#[tactic(auto, unfolding(crate::specs::Log::lines_text, crate::specs::Log::item_lines))]
pub(crate) fn put_found(alloc: Global, found: &Found, into: &mut Vec<u8>) -> Result<(), AllocError>
    ensures { OnOk result (into.new.items
        ≡ into.old.items ++ lines_text (item_lines (Item.Found found.now))) }
{
    let point = found.point.as_slice();
    let count = started(point);
    put_line(
        alloc,
        &Line::Found {
            value: found.value,
            count,
        },
        into,
    )?;
    put_values(alloc, point, into)
}

// Appends the lines of an end that a certificate caps.
#[tactic(auto, unfolding(crate::specs::Log::lines_text, crate::specs::Log::item_lines))]
pub(crate) fn put_dual(alloc: Global, cert: &Cert, into: &mut Vec<u8>) -> Result<(), AllocError>
    ensures { OnOk result (into.new.items
        ≡ into.old.items ++ lines_text (item_lines (Item.Dual cert.now))) }
{
    let scale = u128::from(cert.scale);
    let count = cert.mults.len() as u128;
    put_line(alloc, &Line::Dual { scale, count }, into)?;
    put_mults(alloc, cert.mults.as_slice(), into)
}

// Appends the lines of an end that is left open.
#[tactic(auto, unfolding(crate::specs::Log::lines_text, crate::specs::Log::item_lines))]
pub(crate) fn put_pending(alloc: Global, cert: &Cert, into: &mut Vec<u8>) -> Result<(), AllocError>
    ensures { OnOk result (into.new.items
        ≡ into.old.items ++ lines_text (item_lines (Item.Pending cert.now))) }
{
    let scale = u128::from(cert.scale);
    let count = cert.mults.len() as u128;
    put_line(alloc, &Line::Pending { scale, count }, into)?;
    put_mults(alloc, cert.mults.as_slice(), into)
}

// Appends the line of a floor, if there is one.
#[tactic(auto, unfolding(crate::specs::Log::lines_text))]
fn put_floor(alloc: Global, floor: &Option<i128>, into: &mut Vec<u8>) -> Result<(), AllocError>
    ensures { OnOk result (into.new.items ≡ into.old.items ++ lines_text (floor_lines floor.now)) }
{
    match floor {
        Some(profit) => put_line(alloc, &Line::Floor { profit: *profit }, into),
        None => Ok(()),
    }
}

// Appends the lines of a split, with that of its floor.
#[tactic(auto, unfolding(crate::specs::Log::lines_text, crate::specs::Log::item_lines))]
pub(crate) fn put_split(
    alloc: Global,
    pick: &RowPick,
    cert: &Cert,
    into: &mut Vec<u8>,
) -> Result<(), AllocError>
    ensures { OnOk result (into.new.items
        ≡ into.old.items ++ lines_text (item_lines (Item.Split pick.now cert.now))) }
{
    put_floor(alloc, &pick.floor, into)?;
    let slot = u128::from(pick.slot);
    let scale = u128::from(cert.scale);
    let count = cert.mults.len() as u128;
    put_line(
        alloc,
        &Line::Split {
            slot,
            max: pick.max,
            scale,
            count,
        },
        into,
    )?;
    put_mults(alloc, cert.mults.as_slice(), into)
}
