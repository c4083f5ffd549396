//! What is printed of defects.
use case_tables::Sheet;
use log_lines::Defect;

/// Prints the line and the kind of a defect, or that there is none.
pub fn put_defect(defect: Option<Defect>, sheet: &mut Sheet) {
    match defect {
        None => sheet.line("no defect"),
        Some(defect) => {
            sheet.put("line ");
            sheet.show(defect.line);
            sheet.put(", kind ");
            sheet.show(defect.kind);
            sheet.line("");
        }
    }
}
