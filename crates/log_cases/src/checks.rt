//! Logs that are checked over a program.
use crate::defects::put_defect;
use case_tables::{Sheet, Tried};
use log_check::{check_behind, check_bytes, check_log, check_rows};
use log_lines::Limits;
use log_stops::CheckStop;
use proof_log::{LogStop, read_log};
use row_relax::Rows;
use std::alloc::{AllocError, Global};
use stn_edge::FixedShelf;
use valid_log::LogVerdict;

/// `check DEPTH HEAD`, over a log: its verdict by its bytes, by its proof and claim, from a file, and where its first HEAD bytes
/// are a head.
pub fn check(alloc: Global, rows: &Rows, sheet: &mut Sheet) -> Tried {
    let depth = sheet.number();
    let head = sheet.number();
    let log = sheet.bytes();
    put_verdict(check_bytes(alloc, rows, depth, log)?, sheet);
    put_verdict(check_read(alloc, rows, depth, log)?, sheet);
    check_file(alloc, rows, depth, log, sheet)?;
    check_behind_head(alloc, rows, depth, head, sheet)
}

fn put_verdict(verdict: LogVerdict, sheet: &mut Sheet) {
    match verdict {
        LogVerdict::Yes(_) => sheet.line("valid"),
        LogVerdict::No(defect) => put_defect(Some(defect), sheet),
    }
}

// The verdict on the log that the bytes are the text of, or their text defect.
fn check_read(
    alloc: Global,
    rows: &Rows,
    depth: u32,
    log: &[u8],
) -> Result<LogVerdict, AllocError> {
    match read_log(alloc, log, &limits_of(rows, depth)) {
        Ok(log) => check_log(alloc, rows, depth, &log),
        Err(LogStop::Defect(defect)) => Ok(LogVerdict::No(defect)),
        Err(LogStop::Memory) => Err(AllocError),
    }
}

fn limits_of(rows: &Rows, depth: u32) -> Limits {
    let slots = rows.program.root.len() as u32;
    Limits {
        rows: rows.program.rows.len() as u32,
        slots,
        points: slots,
        depth,
    }
}

fn put_checked(checked: Result<LogVerdict, CheckStop>, sheet: &mut Sheet) {
    match checked {
        Ok(verdict) => put_verdict(verdict, sheet),
        Err(CheckStop::Memory) => sheet.lacks_memory(),
        Err(CheckStop::Fault) => sheet.refuse(),
    }
}

fn check_file(alloc: Global, rows: &Rows, depth: u32, log: &[u8], sheet: &mut Sheet) -> Tried {
    let mut shelf = FixedShelf::new(alloc);
    shelf.put_file("log", log)?;
    put_checked(check_rows(alloc, rows, depth, &mut shelf, "log"), sheet);
    Ok(())
}

// The version of the head that stands before a log.
const HEAD_VERSION: u8 = 3;

fn check_behind_head(
    alloc: Global,
    rows: &Rows,
    depth: u32,
    head: u64,
    sheet: &mut Sheet,
) -> Tried {
    let mut shelf = FixedShelf::new(alloc);
    shelf.put_file("log", sheet.bytes())?;
    let checked = check_behind(alloc, rows, depth, HEAD_VERSION, head, &mut shelf, "log");
    put_checked(checked, sheet);
    Ok(())
}
