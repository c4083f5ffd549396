//! Certificates that are words.
use case_tables::Sheet;
use dual_bound::{Cert, Mult};
use row_kit::List;
use std::alloc::{AllocError, Global};

/// The certificate that the words left are: `SCALE | ROW FACTOR | ..`.
pub fn cert_of(alloc: Global, sheet: &mut Sheet) -> Result<Cert, AllocError> {
    let scale = sheet.number();
    let mults = mults_of(alloc, sheet)?;
    Ok(Cert { scale, mults })
}

fn mults_of(alloc: Global, sheet: &mut Sheet) -> Result<List<Mult>, AllocError> {
    let mut mults = List::new(alloc);
    for _ in 0..sheet.words_left() / 3 {
        mults.push(mult_of(sheet))?;
    }
    Ok(mults)
}

// `| ROW FACTOR`.
fn mult_of(sheet: &mut Sheet) -> Mult {
    sheet.bar();
    let row = sheet.number();
    let factor = sheet.number();
    Mult { row, factor }
}
