//! Proofs over a program, and boxes that are settled.
ghost use Rattle.std.specs.Prelude.{map};
ghost use Rattle.proof_tree.specs.Views.{present};
ghost use Rattle.row_relax.specs.View.{view_of, Fits};

use crate::defects::put_defect;
use case_programs::put_cap;
use case_tables::{Sheet, Tried};
use log_lines::Limits;
use proof_log::{LogStop, read_log};
use proof_tree::{Relaxation, cap_of};
use row_kit::Area;
use row_relax::{RowPick, RowProof, Rows};
use std::alloc::{AllocError, Global};

/// The limits of the nodes of `tree`: those of all programs, so that a cut may name a row that this one has not.
const LIMITS: Limits = Limits {
    rows: 45_904,
    slots: 512,
    points: 512,
    depth: 4_608,
};

/// `tree`, over the lines of nodes: the cap of that proof over the root, or the first text defect behind the line `stn-log 2`.
pub fn tree(alloc: Global, rows: &Rows, sheet: &mut Sheet) -> Tried {
    let text = log_around(alloc, sheet.text())?;
    match read_log(alloc, text.as_bytes(), &LIMITS) {
        Ok(log) => put_root_cap(alloc, rows, &log.tree, sheet),
        Err(LogStop::Defect(defect)) => {
            put_defect(Some(defect), sheet);
            Ok(())
        }
        Err(LogStop::Memory) => Err(AllocError),
    }
}

// The log of the lines of nodes.
fn log_around(alloc: Global, nodes: &str) -> Result<String, AllocError> {
    format!(in alloc; "stn-log 2\n{nodes}claim infeasible\nend\n")
}

// The cap of a proof over the root.
fn put_root_cap(alloc: Global, rows: &Rows, proof: &RowProof, sheet: &mut Sheet) -> Tried {
    let mut area = rows.root_area(alloc)?;
    put_cap(cap_of(rows, &mut area, proof), sheet);
    Ok(())
}

/// `settle PART PART`: what the box settles to that keeps these parts of its first two slots: `0` for that value, `+` for those
/// above it, `*` for both.
pub fn settle(alloc: Global, rows: &Rows, sheet: &mut Sheet) -> Tried {
    let first = sheet.word();
    let second = sheet.word();
    let mut area = rows.root_area(alloc)?;
    keep_part(rows, &mut area, 0, first);
    keep_part(rows, &mut area, 1, second);
    put_cap(rows.settle(&area), sheet);
    Ok(())
}

fn keep_part(rows: &Rows, area: &mut Area, slot: u32, part: &str)
    requires { Fits rows.now.program (present (map view_of area.old)) }
    ensures { Fits rows.now.program (present (map view_of area.new)) }
{
    let pick = RowPick {
        slot,
        max: 0,
        floor: None,
    };
    if part == "0" {
        rows.left(area, &pick);
    } else if part == "+" {
        rows.right(area, &pick);
    }
}
