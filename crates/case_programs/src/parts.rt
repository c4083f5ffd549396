//! The program of a case, part by part.
use crate::words::{change_of, domain_of, row_of, tag_of, worth_of};
use case_tables::{Sheet, Step, Tried};
use row_kit::{Change, Domain, Entry, List, Program, Row, Tag};
use std::alloc::{AllocError, Global};

/// What steps have said of a program.
#[derive(Drop)]
struct Parts {
    rows: List<Row>,
    profit: List<Entry>,
    base: i128,
    root: List<Domain>,
    tags: List<Tag>,
    changes: List<Change>,
}

/// The program that the steps say, or nothing where it does not keep the bounds of programs.
pub fn program_of<'a>(
    alloc: Global,
    steps: &'a [Step<'a>],
    sheet: &mut Sheet<'a>,
) -> Result<Option<Program>, AllocError> {
    let mut parts = no_parts(alloc);
    for step in steps {
        if is_part(step.verb) {
            sheet.begin(step);
            take(alloc, &mut parts, step.verb, sheet)?;
        }
    }
    Ok(checked(parts))
}

/// Whether a step says something of the program.
pub fn is_part(verb: &str) -> bool {
    verb == "base" || verb == "slot" || verb == "row" || verb == "change"
}

fn no_parts(alloc: Global) -> Parts {
    Parts {
        rows: List::new(alloc),
        profit: List::new(alloc),
        base: 0,
        root: List::new(alloc),
        tags: List::new(alloc),
        changes: List::new(alloc),
    }
}

fn checked(parts: Parts) -> Option<Program> {
    Program::checked(
        parts.rows,
        parts.profit,
        parts.base,
        parts.root,
        parts.tags,
        parts.changes,
    )
}

fn take(alloc: Global, parts: &mut Parts, verb: &str, sheet: &mut Sheet) -> Tried {
    match verb {
        "slot" => take_slot(parts, sheet),
        "row" => take_row(alloc, &mut parts.rows, sheet),
        "change" => parts.changes.push(change_of(sheet)),
        _ => {
            parts.base = sheet.number();
            Ok(())
        }
    }
}

fn take_row(alloc: Global, rows: &mut List<Row>, sheet: &mut Sheet) -> Tried {
    let row = row_of(alloc, sheet)?;
    rows.push(row)
}

// `slot DOMAIN FIXED PER`, and LANE PLACE KIND or LANE PLACE KIND OPENING behind it.
fn take_slot(parts: &mut Parts, sheet: &mut Sheet) -> Tried {
    parts.root.push(domain_of(sheet))?;
    let entry = worth_of(parts.profit.len().min(100_000) as u32, sheet);
    parts.profit.push(entry)?;
    parts.tags.push(tag_of(sheet))
}
