//! Cases of words: numbers, texts that are cut, and parts of a batch.
use crate::parts::{of, part, sum, times};
use case_tables::{Sheet, Step, Tried};
use std::alloc::Global;
use text_words::{cut_at, put_number, read_number, read_wide};

/// Prints what the steps give.
pub fn answer<'a>(alloc: Global, steps: &'a [Step<'a>], sheet: &mut Sheet<'a>) -> Tried {
    for step in steps {
        sheet.begin(step);
        answer_step(alloc, step.verb, sheet)?;
    }
    Ok(())
}

fn answer_step(alloc: Global, verb: &str, sheet: &mut Sheet) -> Tried {
    match verb {
        "put" => return put(alloc, sheet),
        "sum" => return sum(alloc, sheet),
        "number" => number(sheet),
        "wide" => wide(sheet),
        "cut" => cut(sheet),
        "part" => part(sheet),
        "times" => times(sheet),
        "of" => of(sheet),
        _ => sheet.refuse(),
    }
    Ok(())
}

// `number LIMIT`: the number below the limit that the text is, or none.
fn number(sheet: &mut Sheet) {
    let limit = sheet.number();
    let read = read_number(sheet.bytes(), limit);
    sheet.show_line(read);
}

// `wide LIMIT`: the same of 128 bits.
fn wide(sheet: &mut Sheet) {
    let limit = sheet.number();
    let read = read_wide(sheet.bytes(), limit);
    sheet.show_line(read);
}

// `cut BYTE`: what stands before the first of that byte, given by its number, and what stands after it.
fn cut(sheet: &mut Sheet) {
    let byte = sheet.number();
    let (before, after) = cut_at(sheet.bytes(), byte);
    sheet.put_bytes(before);
    sheet.put_bytes(after);
}

// `put NUMBER`: the text with the digits of the number behind it.
fn put(alloc: Global, sheet: &mut Sheet) -> Tried {
    let mut text = sheet.bytes().to_vec(alloc)?;
    put_number(alloc, sheet.number(), &mut text)?;
    sheet.put_bytes(text.as_slice());
    Ok(())
}
