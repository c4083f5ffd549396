//! How a text is shown where something came otherwise than a case says.
use std::alloc::{AllocError, Global};

/// How many bytes of a text are shown at most.
const MOST: usize = 2000;

/// Puts the text in the lines that would give it in a case, as far as it is shown.
pub fn show_text(alloc: Global, text: &[u8], into: &mut String) -> Result<(), AllocError> {
    let shown = String::from_utf8_lossy(alloc, &text[..text.len().min(MOST)])?;
    for line in shown.as_str().split_inclusive('\n') {
        show_line(line, into)?;
    }
    Ok(())
}

fn show_line(line: &str, into: &mut String) -> Result<(), AllocError> {
    match line.strip_suffix('\n') {
        Some(line) => writeln!(into, "    |{line}"),
        None => writeln!(into, "    \\{line}"),
    }
}
