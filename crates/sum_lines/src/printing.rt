//! The text of a head.
ghost use Rattle.std.specs.Prelude.{◌≡◌, ◌++◌, ◌∷◌, [], OnOk, OnErr, length, map, decimal};
ghost use Rattle.std.specs.Fmt.{signed_decimal};
ghost use Rattle.sum_lines.specs.Head.{first_line, head_text, lines_of, lines_text, opening_line, sum_lines, term_line};
ghost use Rattle.sum_lines.specs.Line.{head_line_text, row_word};

use row_kit::Entry;
use std::alloc::{AllocError, Global};
use sum_slots::Sum;

/// Appends the text of a head of version 4, or else of version 3, with these sums. After an error `into` is as before.
pub fn put_head(
    alloc: Global,
    version: u8,
    sums: &[Sum],
    into: &mut Vec<u8>,
) -> Result<(), AllocError>
    ensures ok { OnOk result (into.new.items ≡ into.old.items ++ head_text version sums.now) }
    ensures err { OnErr result (into.new.items ≡ into.old.items) }
{
    let mut text = Vec::new(alloc);
    put_first(version, &mut text)?;
    put_sums(alloc, sums, &mut text)?;
    into.extend_from_slice(text.as_slice())
}

// Appends the first line of a head.
fn put_first(version: u8, text: &mut Vec<u8>) -> Result<(), AllocError>
    ensures { OnOk result (text.new.items ≡ text.old.items ++ (first_line version ++ 10 ∷ [])) }
{
    if version == 4 {
        text.extend_from_slice(b"stn-log 4\n")
    } else {
        text.extend_from_slice(b"stn-log 3\n")
    }
}

// Appends the lines of sums.
fn put_sums(alloc: Global, sums: &[Sum], text: &mut Vec<u8>) -> Result<(), AllocError>
    ensures { OnOk result (text.new.items ≡ text.old.items ++ lines_text (lines_of sums.now)) }
{
    for sum in sums {
        put_sum(alloc, sum, text)?;
    }
    Ok(())
}

// Appends the lines of a sum.
fn put_sum(alloc: Global, sum: &Sum, text: &mut Vec<u8>) -> Result<(), AllocError>
    ensures { OnOk result (text.new.items ≡ text.old.items ++ lines_text (sum_lines sum.now)) }
{
    put_opening(alloc, sum, text)?;
    put_terms(alloc, sum.terms.as_slice(), text)?;
    Ok(())
}

// Appends the line of a sum.
fn put_opening(alloc: Global, sum: &Sum, text: &mut Vec<u8>) -> Result<(), AllocError>
    ensures { OnOk result (text.new.items ≡ text.old.items
        ++ (head_line_text (opening_line sum.now (length sum.now.terms)) ++ 10 ∷ [])) }
{
    text.extend_from_slice(b"sum")?;
    put_natural(alloc, sum.width as u64, text)?;
    put_signed(alloc, &sum.offset, text)?;
    put_row(alloc, sum.low, text)?;
    put_row(alloc, sum.high, text)?;
    put_natural(alloc, sum.terms.len() as u64, text)?;
    text.extend_from_slice(b"\n")?;
    Ok(())
}

// Appends the lines of terms.
fn put_terms(alloc: Global, terms: &[Entry], text: &mut Vec<u8>) -> Result<(), AllocError>
    ensures { OnOk result (text.new.items
        ≡ text.old.items ++ lines_text (map term_line terms.now)) }
{
    for term in terms {
        put_term(alloc, term, text)?;
    }
    Ok(())
}

// Appends the line of a term.
fn put_term(alloc: Global, term: &Entry, text: &mut Vec<u8>) -> Result<(), AllocError>
    ensures { OnOk result (text.new.items
        ≡ text.old.items ++ (head_line_text (term_line term.now) ++ 10 ∷ [])) }
{
    text.extend_from_slice(b"term")?;
    put_natural(alloc, term.slot as u64, text)?;
    put_signed(alloc, &term.fixed, text)?;
    put_signed(alloc, &term.per, text)?;
    text.extend_from_slice(b"\n")?;
    Ok(())
}

// Appends the number of a row after a blank, or a minus for none.
fn put_row(alloc: Global, row: Option<u32>, text: &mut Vec<u8>) -> Result<(), AllocError>
    ensures { OnOk result (text.new.items ≡ text.old.items ++ (32 ∷ row_word row)) }
{
    match row {
        Some(row) => put_natural(alloc, u64::from(row), text),
        None => text.extend_from_slice(b" -"),
    }
}

/// Appends a number without sign after a blank. After an error `text` may have grown.
pub fn put_natural(alloc: Global, number: u64, text: &mut Vec<u8>) -> Result<(), AllocError>
    ensures { OnOk result (text.new.items ≡ text.old.items ++ (32 ∷ decimal number)) }
{
    let digits = format!(in alloc; " {number}")?;
    text.extend_from_slice(digits.as_bytes())
}

/// Appends a number after a blank. After an error `text` may have grown.
pub fn put_signed(alloc: Global, number: &i64, text: &mut Vec<u8>) -> Result<(), AllocError>
    ensures { OnOk result (text.new.items ≡ text.old.items ++ (32 ∷ signed_decimal number.now)) }
{
    let digits = format!(in alloc; " {number}")?;
    text.extend_from_slice(digits.as_bytes())
}
