//! Cases of logs that are read.
use crate::defects::put_defect;
use crate::heads::{head, nodes};
use case_programs::limits_of;
use case_tables::{Sheet, Step, Tried};
use log_lines::{Defect, Limits};
use proof_log::{Log, LogStop, first_defect, put_claim, put_log, put_proof, read_log};
use std::alloc::{AllocError, Global};
use stn_edge::FixedShelf;

/// Prints what the steps give.
pub fn answer<'a>(alloc: Global, steps: &'a [Step<'a>], sheet: &mut Sheet<'a>) -> Tried {
    for step in steps {
        sheet.begin(step);
        match step.verb {
            "read" => read(alloc, sheet)?,
            "proof" => proof(alloc, sheet)?,
            "nodes" => nodes(alloc, sheet)?,
            "head" => head(alloc, sheet),
            _ => sheet.refuse(),
        }
    }
    Ok(())
}

// `read ROWS SLOTS DEPTH HEAD`, over a log: its first text defect where it is read as a whole, where it is read line by line,
// and where its first HEAD bytes are a head.
fn read(alloc: Global, sheet: &mut Sheet) -> Tried {
    let limits = limits_of(sheet);
    let head = sheet.number();
    let whole = read_again(alloc, &limits, sheet)?;
    put_defect(whole, sheet);
    scan(alloc, limits, 0, sheet)?;
    scan(alloc, limits, head, sheet)
}

// The first text defect of a log, or none; then what is put of it is compared with it.
fn read_again(
    alloc: Global,
    limits: &Limits,
    sheet: &mut Sheet,
) -> Result<Option<Defect>, AllocError> {
    match read_log(alloc, sheet.bytes(), limits) {
        Ok(log) => {
            compare(alloc, &log, sheet)?;
            Ok(None)
        }
        Err(LogStop::Defect(defect)) => Ok(Some(defect)),
        Err(LogStop::Memory) => Err(AllocError),
    }
}

fn compare(alloc: Global, log: &Log, sheet: &mut Sheet) -> Tried {
    let mut text = Vec::new(alloc);
    put_log(alloc, log, &mut text)?;
    if text.as_slice() != sheet.bytes() {
        sheet.put_lines(text.as_slice());
    }
    Ok(())
}

// The version of the head that stands before a log.
const HEAD_VERSION: u8 = 3;

// The first defect of a log that stands behind so many bytes of a file.
fn scan(alloc: Global, limits: Limits, head: u64, sheet: &mut Sheet) -> Tried {
    let mut shelf = FixedShelf::new(alloc);
    shelf.put_file("log", sheet.bytes())?;
    match first_defect(alloc, limits, HEAD_VERSION, head, &mut shelf, "log") {
        Ok(defect) => put_defect(defect, sheet),
        Err(_) => sheet.refuse(),
    }
    Ok(())
}

// `proof ROWS SLOTS DEPTH`, over a log: what is put of its proof and of its claim, or its first text defect.
fn proof(alloc: Global, sheet: &mut Sheet) -> Tried {
    let limits = limits_of(sheet);
    match read_log(alloc, sheet.bytes(), &limits) {
        Ok(log) => put_parts(alloc, &log, sheet),
        Err(LogStop::Defect(defect)) => {
            put_defect(Some(defect), sheet);
            Ok(())
        }
        Err(LogStop::Memory) => Err(AllocError),
    }
}

fn put_parts(alloc: Global, log: &Log, sheet: &mut Sheet) -> Tried {
    let mut text = Vec::new(alloc);
    put_proof(alloc, &log.tree, &mut text)?;
    put_claim(alloc, &log.claim, &mut text)?;
    sheet.put_lines(text.as_slice());
    Ok(())
}
