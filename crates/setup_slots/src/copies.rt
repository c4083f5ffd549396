//! A copy of a program.
ghost use Rattle.std.specs.Prelude.{◌≡◌, IfOk};

use row_kit::{List, Program, Row};
use std::alloc::{AllocError, Global};

// The same program once more. It takes memory for all its parts.
pub fn copy_of(alloc: Global, program: &Program) -> Result<Program, AllocError>
    ensures { IfOk result (λ copy. copy ≡ program.now) }
{
    let rows = copy_rows(alloc, program.rows.as_slice())?;
    let profit = List::from_slice(alloc, program.profit.as_slice())?;
    let root = List::from_slice(alloc, program.root.as_slice())?;
    let tags = List::from_slice(alloc, program.tags.as_slice())?;
    let changes = List::from_slice(alloc, program.changes.as_slice())?;
    Ok(Program {
        rows,
        profit,
        base: program.base,
        root,
        tags,
        changes,
    })
}

// The same rows once more.
fn copy_rows(alloc: Global, rows: &[Row]) -> Result<List<Row>, AllocError>
    ensures { IfOk result (λ copies. copies ≡ rows.now) }
{
    let mut copies = List::new(alloc);
    for row in rows {
        let entries = List::from_slice(alloc, row.entries.as_slice())?;
        let limit = row.limit;
        copies.push(Row { entries, limit })?;
    }
    Ok(copies)
}
