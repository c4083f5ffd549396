//! What is printed of caps.
use case_tables::Sheet;
use proof_tree::Capped;

/// Prints a cap.
pub fn put_cap(cap: Capped, sheet: &mut Sheet) {
    match cap {
        Capped::AtMost(cap) => {
            sheet.put("at most ");
            sheet.show(cap);
            sheet.line("");
        }
        Capped::NoPoint => sheet.line("no point"),
        Capped::Bad => sheet.line("no cap"),
    }
}
