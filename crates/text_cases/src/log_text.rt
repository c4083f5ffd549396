//! Cases of the lines of logs.
ghost use Rattle.std.specs.Prelude.{◌≡◌, false};
ghost use Rattle.stn_edge.specs.Files.{file_of};
ghost use Rattle.log_lines.specs.Reader.{IsAhead};

use case_programs::limits_of;
use case_tables::{Sheet, Step, Tried};
use log_lines::{Grammar, Limits, Line, LineEnd, LineReader, put_line, read_line};
use std::alloc::Global;
use stn_edge::FixedShelf;

/// Prints what the steps give.
pub fn answer<'a>(alloc: Global, steps: &'a [Step<'a>], sheet: &mut Sheet<'a>) -> Tried {
    for step in steps {
        sheet.begin(step);
        match step.verb {
            "line" => line(alloc, sheet)?,
            "take" => take(alloc, sheet)?,
            "pieces" => pieces(alloc, sheet)?,
            _ => sheet.refuse(),
        }
    }
    Ok(())
}

// `line`: the line that the text is, and what is put of it; or none.
fn line(alloc: Global, sheet: &mut Sheet) -> Tried {
    match read_line(sheet.bytes()) {
        None => {
            sheet.line("none");
            Ok(())
        }
        Some(line) => put_again(alloc, line, sheet),
    }
}

fn put_again(alloc: Global, line: Line, sheet: &mut Sheet) -> Tried {
    let mut text = Vec::new(alloc);
    put_line(alloc, &line, &mut text)?;
    let fields = format!(in alloc; "{line:?}")?;
    sheet.line(fields.as_str());
    sheet.put_bytes(text.as_slice().trim_ascii_end());
    Ok(())
}

// `take ROWS SLOTS DEPTH`, over lines: the kind of the defect of each or `-`, and whether the log is done then.
fn take(alloc: Global, sheet: &mut Sheet) -> Tried {
    let limits = limits_of(sheet);
    let mut grammar = Grammar::new(alloc);
    for line in sheet.text().lines() {
        take_line(&limits, &mut grammar, line, sheet)?;
    }
    sheet.line(if grammar.is_done() { "done" } else { "open" });
    Ok(())
}

fn take_line(limits: &Limits, grammar: &mut Grammar, line: &str, sheet: &mut Sheet) -> Tried {
    match read_line(line.as_bytes()) {
        None => sheet.put("none"),
        Some(line) => put_kind(grammar.take(limits, &line)?, sheet),
    }
    sheet.put(" ");
    Ok(())
}

fn put_kind(kind: Option<u8>, sheet: &mut Sheet) {
    match kind {
        Some(kind) => sheet.show(kind),
        None => sheet.put("-"),
    }
}

// `pieces MOST`: the first two lines of a file that gives at most so many bytes a read, and how they end.
fn pieces(alloc: Global, sheet: &mut Sheet) -> Tried {
    let most: usize = sheet.number();
    if most < 1 {
        return sheet.refused();
    }
    let mut shelf = FixedShelf::new(alloc);
    shelf.put_file("log", sheet.bytes())?;
    shelf.read_at_most(most);
    let mut reader = LineReader::begin(alloc)?;
    read_two(&mut reader, &mut shelf, "log", sheet);
    Ok(())
}

// Reads the next line, and a second one where that one is whole.
fn read_two(reader: &mut LineReader, shelf: &mut FixedShelf, name: &str, sheet: &mut Sheet)
    requires open { reader.old.ended ≡ false }
    requires ahead { IsAhead (file_of shelf.old.files name.now) reader.old.place reader.old.ahead }
{
    let Ok(first) = reader.next(shelf, name) else {
        return sheet.refuse();
    };
    put_end(first, reader.line(), sheet);
    if first == LineEnd::Whole {
        let Ok(second) = reader.next(shelf, name) else {
            return sheet.refuse();
        };
        put_end(second, reader.line(), sheet);
    }
}

// Prints how a line ends, and the line where it is one.
fn put_end(end: LineEnd, line: &[u8], sheet: &mut Sheet) {
    match end {
        LineEnd::Nothing => sheet.line("nothing"),
        LineEnd::Long => sheet.line("long"),
        LineEnd::Whole => {
            sheet.put("whole ");
            sheet.put_bytes(line);
        }
        LineEnd::Cut => {
            sheet.put("cut ");
            sheet.put_bytes(line);
        }
    }
}
