//! What is printed of a search.
use branch_tree::Searched;
use case_programs::put_cap;
use case_tables::Sheet;
use proof_tree::End;
use row_kit::Found;
use row_relax::RowProof;

/// Prints the cap, the worth of the best point, and whether a box is left open.
pub fn put_search(found: &Searched, sheet: &mut Sheet) {
    put_cap(found.cap, sheet);
    put_best(&found.best, found.left_open, sheet);
}

/// Prints the worth of the best point, and whether a box is left open.
pub fn put_best(best: &Option<Found>, left_open: bool, sheet: &mut Sheet) {
    sheet.put("best ");
    match best {
        Some(best) => sheet.show(best.value),
        None => sheet.put("none"),
    }
    sheet.line(if left_open { ", open" } else { ", closed" });
}

/// Prints the value at which the root is split.
pub fn put_split(tree: &RowProof, sheet: &mut Sheet) {
    match &tree.end {
        End::Split(pick, ..) => {
            sheet.put("split at ");
            sheet.show(pick.max);
            sheet.line("");
        }
        _ => sheet.line("not split"),
    }
}

/// Prints the floor of the root's split.
pub fn put_floor(tree: &RowProof, sheet: &mut Sheet) {
    match &tree.end {
        End::Split(pick, ..) => put_number("floor ", pick.floor, sheet),
        _ => sheet.line("not split"),
    }
}

fn put_number(name: &str, number: Option<i128>, sheet: &mut Sheet) {
    sheet.put(name);
    match number {
        Some(number) => sheet.show(number),
        None => sheet.put("none"),
    }
    sheet.line("");
}
