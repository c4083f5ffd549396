//! Copies of the parts of programs.
ghost use Rattle.std.specs.Prelude.{IsTrue};
ghost use Rattle.std.specs.List.{All};
ghost use Rattle.row_kit.specs.Domain.{IsNormal};

use derivations::rooted;
use row_kit::{Domain, List, Program, Row};
use std::alloc::{AllocError, Global};

/// A copy of a row.
pub fn copied(alloc: Global, row: &Row) -> Result<Row, AllocError> {
    let entries = List::from_slice(alloc, row.entries.as_slice())?;
    Ok(Row {
        entries,
        limit: row.limit,
    })
}

/// A row that says nothing.
pub fn no_row(alloc: Global) -> Row {
    Row {
        entries: List::new(alloc),
        limit: 0,
    }
}

/// The program with another root; as it is where that has another number of slots, or domains that are not normal.
pub fn over(program: Program, root: List<Domain>) -> Program {
    if root.len() != program.root.len() || !are_normal(root.as_slice()) {
        return program;
    }
    rooted(program, root)
}

// Whether each domain is normal.
fn are_normal(domains: &[Domain]) -> bool
    ensures { IsTrue result → All IsNormal domains.now }
{
    domains.iter().all(|domain| domain.is_normal())
}
