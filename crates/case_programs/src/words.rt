//! Values that the words of a step are.
use case_tables::Sheet;
use log_lines::Limits;
use row_kit::{Change, Domain, Entry, List, Row, Tag};
use std::alloc::{AllocError, Global};

/// The domain of the next three words: `0` where it holds 0 and `-` where not, the least and the greatest of its other values.
pub fn domain_of(sheet: &mut Sheet) -> Domain {
    let zero = sheet.word();
    if zero != "0" && zero != "-" {
        sheet.refuse();
    }
    let lo = sheet.number();
    let hi = sheet.number();
    Domain {
        zero: zero == "0",
        lo,
        hi,
    }
}

/// The limits of the next three words, `ROWS SLOTS DEPTH`: a point has a value for each slot.
pub fn limits_of(sheet: &mut Sheet) -> Limits {
    let rows = sheet.number();
    let slots = sheet.number();
    let depth = sheet.number();
    Limits {
        rows,
        slots,
        points: slots,
        depth,
    }
}

/// The numbers of a byte that the words left are.
pub fn bytes_of(alloc: Global, sheet: &mut Sheet) -> Result<Vec<u8>, AllocError> {
    let mut bytes = Vec::new(alloc);
    for _ in 0..sheet.words_left() {
        bytes.push(sheet.number())?;
    }
    Ok(bytes)
}

// `FIXED PER`, of the slot of a number.
pub(crate) fn worth_of(slot: u32, sheet: &mut Sheet) -> Entry {
    let fixed = sheet.number();
    let per = sheet.number();
    Entry { slot, fixed, per }
}

// `LANE PLACE KIND` or `LANE PLACE KIND OPENING` at the end of a slot's step; without one the tag is that of no unit that others
// are on.
pub(crate) fn tag_of(sheet: &mut Sheet) -> Tag {
    if sheet.words_left() == 0 {
        return Tag {
            lane: 0,
            place: 0,
            kind: 0,
            opening: 0,
        };
    }
    let lane = sheet.number();
    let place = sheet.number();
    let kind = sheet.number();
    let opening = opening_of(sheet);
    Tag {
        lane,
        place,
        kind,
        opening,
    }
}

// The opening at the end of a slot's step, which is 0 where none stands.
fn opening_of(sheet: &mut Sheet) -> u32 {
    if sheet.words_left() == 0 {
        return 0;
    }
    sheet.number()
}

// `LIMIT | SLOT FIXED PER | ..`.
pub(crate) fn row_of(alloc: Global, sheet: &mut Sheet) -> Result<Row, AllocError> {
    let limit = sheet.number();
    let entries = entries_of(alloc, sheet)?;
    Ok(Row { entries, limit })
}

fn entries_of(alloc: Global, sheet: &mut Sheet) -> Result<List<Entry>, AllocError> {
    let mut list = List::new(alloc);
    for _ in 0..sheet.words_left() / 4 {
        list.push(entry_of(sheet))?;
    }
    Ok(list)
}

// `| SLOT FIXED PER`.
fn entry_of(sheet: &mut Sheet) -> Entry {
    sheet.bar();
    let slot = sheet.number();
    worth_of(slot, sheet)
}

// `LANE FROM TO COST`.
pub(crate) fn change_of(sheet: &mut Sheet) -> Change {
    let lane = sheet.number();
    let from = sheet.number();
    let to = sheet.number();
    let cost = sheet.number();
    Change {
        lane,
        from,
        to,
        cost,
    }
}
