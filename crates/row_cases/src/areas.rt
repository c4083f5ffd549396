//! Areas that are narrowed and made what they were.
ghost use Rattle.std.specs.Prelude.{◌<◌, length};
ghost use Rattle.row_kit.specs.Area.{present};

use case_programs::domain_of;
use case_tables::Sheet;
use row_kit::{Area, Domain};

/// Takes a step on an area, and prints its mark, its domains, and whether it is a point or has a slot without values.
pub fn answer(area: &mut Area, verb: &str, sheet: &mut Sheet) {
    match verb {
        "area" => {}
        "back" => back(area, sheet),
        _ => narrow(area, verb, sheet),
    }
    put_area(area, sheet);
}

// `back MARK`: makes the area what it was at the mark.
fn back(area: &mut Area, sheet: &mut Sheet) {
    let mark = sheet.number();
    if mark > area.mark() {
        sheet.refuse();
    } else {
        area.back(mark);
    }
}

/// Takes `most SLOT VALUE`, `above SLOT VALUE` or `keep SLOT DOMAIN`.
pub fn narrow(area: &mut Area, verb: &str, sheet: &mut Sheet) {
    let slot = sheet.number();
    if slot >= area.slot_count() {
        sheet.refuse();
    } else if verb == "most" {
        area.at_most(slot, sheet.number());
    } else if verb == "above" {
        area.above(slot, sheet.number());
    } else {
        keep(area, slot, domain_of(sheet), sheet);
    }
}

fn keep(area: &mut Area, slot: u32, domain: Domain, sheet: &mut Sheet)
    requires { slot < length (present area.old) }
{
    if domain.lo < 1 {
        sheet.refuse();
    } else {
        area.keep(slot, domain.zero, domain.lo, domain.hi);
    }
}

fn put_area(area: &Area, sheet: &mut Sheet) {
    sheet.put("mark ");
    sheet.show(area.mark());
    for slot in 0..area.slot_count() {
        put_domain(area.domain(slot), sheet);
    }
    put_kind(area, sheet);
}

fn put_kind(area: &Area, sheet: &mut Sheet) {
    if area.is_point() {
        sheet.put(", a point");
    }
    if area.has_empty() {
        sheet.put(", empty");
    }
    sheet.line("");
}

fn put_domain(domain: Domain, sheet: &mut Sheet) {
    sheet.put(if domain.zero { " | 0 " } else { " | - " });
    sheet.show(domain.lo);
    sheet.put(" ");
    sheet.show(domain.hi);
}
