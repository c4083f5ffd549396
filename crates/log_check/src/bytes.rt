//! The check of a log that is given as its bytes.
ghost use Rattle.std.specs.Prelude.{◌≡◌, IfOk};
ghost use Rattle.valid_log.specs.Verdict.{IsVerdict, YesHolds};

use crate::checking::check_rows;
use row_relax::Rows;
use std::alloc::{AllocError, Global};
use stn_edge::FixedShelf;
use valid_log::LogVerdict;

/// Checks the log of these bytes, as `check_rows` checks one in a file. It takes memory by the bytes, too.
pub fn check_bytes(
    alloc: Global,
    rows: &Rows,
    depth: u32,
    bytes: &[u8],
) -> Result<LogVerdict, AllocError>
    ensures verdict { IfOk result (IsVerdict rows.now depth bytes.now) }
    ensures holds { IfOk result (YesHolds rows.now) }
{
    let mut shelf = FixedShelf::new(alloc);
    shelf.put_file("log", bytes)?;
    match check_rows(alloc, rows, depth, &mut shelf, "log") {
        Ok(verdict) => Ok(verdict),
        Err(_) => Err(AllocError),
    }
}
