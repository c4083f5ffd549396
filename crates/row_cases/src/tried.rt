//! What is printed of bounds, of the sides of a split that are tried, and of points that are rounded.
use case_tables::{Sheet, Tried};
use dual_simplex::{Outcome, Side, Trial, Workspace};
use row_kit::{Area, Program};
use std::alloc::Global;

/// Prints how a bound ended.
pub fn put_outcome(outcome: Outcome, sheet: &mut Sheet) {
    sheet.line(match outcome {
        Outcome::Settled => "settled",
        Outcome::NoPoint => "no point",
        Outcome::Reached => "reached",
        Outcome::Stopped => "stopped",
    });
}

/// `low SLOT VALUE` and `high SLOT VALUE`: by how much the worth falls, in whole money, where the slot keeps the values up to this
/// one, and those above it. SLOT is a number, or `-` for the first of two slots that is started in part.
pub fn trial(program: &Program, workspace: &mut Workspace, verb: &str, sheet: &mut Sheet) {
    let slot = slot_of(workspace, sheet);
    let max = sheet.number();
    let side = side_of(verb, sheet);
    let tried = workspace.trial(program, slot, max, side, 15);
    put_trial(tried, sheet);
}

fn side_of(verb: &str, sheet: &mut Sheet) -> Side {
    match verb {
        "low" => Side::AtMost,
        "high" => Side::Above,
        _ => {
            sheet.refuse();
            Side::Above
        }
    }
}

fn slot_of(workspace: &Workspace, sheet: &mut Sheet) -> u32 {
    match sheet.word() {
        "-" => {
            let started = workspace.amount(0).started;
            if 1_000 < started && started < 1_073_000_000 {
                0
            } else {
                1
            }
        }
        word => sheet.read(word),
    }
}

// Prints a fall in whole money, where a money unit is 2 to the power 33.
fn put_trial(tried: Option<Trial>, sheet: &mut Sheet) {
    match tried {
        Some(Trial::Falls(fall)) => {
            sheet.show(fall.saturating_add(4_294_967_296) / 8_589_934_592);
            sheet.line("");
        }
        Some(Trial::Closes) => sheet.line("closes"),
        None => sheet.line("none"),
    }
}

/// `round`: the point of the area that is nearest to what the last bound came to.
pub fn round(alloc: Global, area: &Area, workspace: &Workspace, sheet: &mut Sheet) -> Tried {
    let mut point = Vec::new(alloc);
    for _ in 0..area.slot_count() {
        point.push(0u8)?;
    }
    put_rounded(area, workspace, point.as_mut_slice(), sheet);
    Ok(())
}

fn put_rounded(area: &Area, workspace: &Workspace, point: &mut [u8], sheet: &mut Sheet) {
    if area.has_empty() || point.len() != area.slot_count() as usize {
        return sheet.refuse();
    }
    workspace.round(area, point);
    sheet.put("point");
    for value in point.iter() {
        sheet.put(" ");
        sheet.show(*value);
    }
    sheet.line("");
}
