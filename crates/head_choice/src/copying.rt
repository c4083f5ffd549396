//! Copies of programs.
ghost use Rattle.std.specs.Prelude.{◌≡◌, length, IfOk};
ghost use Rattle.std.specs.List.{All};
ghost use Rattle.row_kit.specs.Domain.{IsNormal};
ghost use Rattle.derivations.specs.laws.Growing.{IsRooted};

use row_kit::{Domain, List, Program, Row};
use std::alloc::{AllocError, Global};

// A copy of a program over another root with as many slots.
pub fn copy_over(alloc: Global, program: &Program, root: &[Domain]) -> Result<Program, AllocError>
    requires same_slots { length root.now ≡ length program.now.root }
    requires normal { All IsNormal root.now }
    ensures { IfOk result (IsRooted program.now root.now) }
{
    let rows = copied_rows(alloc, program.rows.as_slice())?;
    let profit = List::from_slice(alloc, program.profit.as_slice())?;
    let root = List::from_slice(alloc, root)?;
    let tags = List::from_slice(alloc, program.tags.as_slice())?;
    let changes = List::from_slice(alloc, program.changes.as_slice())?;
    Ok(Program {
        rows,
        profit,
        base: program.base,
        root,
        tags,
        changes,
    })
}

// Copies of rows.
fn copied_rows(alloc: Global, rows: &[Row]) -> Result<List<Row>, AllocError>
    ensures { IfOk result (λ copies. copies ≡ rows.now) }
{
    let mut copies = List::new(alloc);
    for row in rows {
        copies.push(copied(alloc, row)?)?;
    }
    Ok(copies)
}

// A copy of a row.
fn copied(alloc: Global, row: &Row) -> Result<Row, AllocError>
    ensures { IfOk result (λ copy. copy ≡ row.now) }
{
    let entries = List::from_slice(alloc, row.entries.as_slice())?;
    Ok(Row {
        entries,
        limit: row.limit,
    })
}
