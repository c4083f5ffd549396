//! Lines that several answers have.
ghost use Rattle.std.specs.Prelude.{◌≡◌, IfOk};
ghost use Rattle.answer_texts.specs.Lines.{amount_line, numbered_defect};

use log_lines::Defect;
use std::alloc::{AllocError, Global};

/// A line that ends in an amount of money.
pub fn amount_line(alloc: Global, what: &str, amount: &i128) -> Result<Vec<u8>, AllocError>
    ensures { IfOk result (λ text. text.items ≡ amount_line what.now amount.now) }
{
    let line = format!(in alloc; "{what}{amount}\n")?;
    Vec::from_slice(alloc, line.as_bytes())
}

/// The line on the first of some numbered logs that is not valid.
pub fn numbered_defect(alloc: Global, number: u32, defect: Defect) -> Result<Vec<u8>, AllocError>
    ensures { IfOk result (λ text. text.items ≡ numbered_defect number defect) }
{
    let line = defect.line;
    let kind = defect.kind;
    let text = format!(in alloc; "no {number} {line} {kind}\n")?;
    Vec::from_slice(alloc, text.as_bytes())
}
