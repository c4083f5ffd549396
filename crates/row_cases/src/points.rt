//! Points of a program.
use case_programs::{bytes_of, domain_of};
use case_tables::{Sheet, Tried};
use row_kit::{Entry, List, Program, entries_of, is_lawful, lies_in, value, worth};
use std::alloc::Global;

/// Prints what a step on points gives.
pub fn answer(alloc: Global, program: &Program, verb: &str, sheet: &mut Sheet) -> Tried {
    match verb {
        "size" => size(program, sheet),
        "point" => point(alloc, program, sheet)?,
        "lies" => lies(alloc, sheet)?,
        "list" => list(alloc, sheet)?,
        _ => gathered(alloc, sheet)?,
    }
    Ok(())
}

// `size`: how many slots and rows the program has.
fn size(program: &Program, sheet: &mut Sheet) {
    sheet.show(program.root.len());
    sheet.put(" slots, ");
    sheet.show(program.rows.len());
    sheet.line(" rows");
}

// `point VALUE ..`: whether the point is lawful, what it earns, and its worth.
fn point(alloc: Global, program: &Program, sheet: &mut Sheet) -> Tried {
    let point = bytes_of(alloc, sheet)?;
    put_point(program, point.as_slice(), sheet);
    Ok(())
}

fn put_point(program: &Program, point: &[u8], sheet: &mut Sheet) {
    if point.len() != program.root.len() {
        return sheet.refuse();
    }
    sheet.put(if is_lawful(program, point) {
        "lawful"
    } else {
        "unlawful"
    });
    sheet.put(", earns ");
    sheet.show(value(program, point));
    sheet.put(", worth ");
    sheet.show(worth(program, point));
    sheet.line("");
}

// `lies | VALUE DOMAIN | VALUE DOMAIN ..`: whether the values lie in the domains.
fn lies(alloc: Global, sheet: &mut Sheet) -> Tried {
    let mut bytes = Vec::new(alloc);
    let mut domains = Vec::new(alloc);
    for _ in 0..sheet.words_left() / 5 {
        sheet.bar();
        bytes.push(sheet.number())?;
        domains.push(domain_of(sheet))?;
    }
    sheet.show(lies_in(domains.as_slice(), bytes.as_slice()));
    sheet.line("");
    Ok(())
}

// `list VALUE ..`: a list that grows by these values: how many it has, and each.
fn list(alloc: Global, sheet: &mut Sheet) -> Tried {
    let mut list: List<u8> = List::new(alloc);
    for _ in 0..sheet.words_left() {
        list.push(sheet.number())?;
    }
    put_list(&list, sheet);
    Ok(())
}

fn put_list(list: &List<u8>, sheet: &mut Sheet) {
    sheet.put(if list.is_empty() { "empty, " } else { "" });
    sheet.show(list.len());
    sheet.put(" values");
    for place in 0..list.len() {
        sheet.put(" ");
        sheet.show(*list.get(place));
    }
    sheet.line("");
}

// `entries | FIXED PER | ..`: the entries of the slots with these parts.
fn gathered(alloc: Global, sheet: &mut Sheet) -> Tried {
    let mut parts = Vec::new(alloc);
    for _ in 0..sheet.words_left() / 3 {
        parts.push(part_of(sheet))?;
    }
    put_gathered(alloc, parts.as_slice(), sheet)
}

// `| FIXED PER`.
fn part_of(sheet: &mut Sheet) -> (i64, i64) {
    sheet.bar();
    let fixed = sheet.number();
    let per = sheet.number();
    (fixed, per)
}

fn put_gathered(alloc: Global, parts: &[(i64, i64)], sheet: &mut Sheet) -> Tried {
    if parts.len() > 100_000 {
        return sheet.refused();
    }
    let entries = entries_of(alloc, parts)?;
    put_entries(entries.as_slice(), sheet);
    sheet.line("");
    Ok(())
}

/// The entries, each as ` | SLOT FIXED PER`.
pub fn put_entries(entries: &[Entry], sheet: &mut Sheet) {
    sheet.put("entries");
    for entry in entries {
        sheet.put(" | ");
        sheet.show(entry.slot);
        sheet.put(" ");
        sheet.show(entry.fixed);
        sheet.put(" ");
        sheet.show(entry.per);
    }
}
