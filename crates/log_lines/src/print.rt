//! A line as its bytes.
ghost use Rattle.std.specs.Prelude.{◌≡◌, ◌++◌, ◌∷◌, [], decimal, flat_map, map, pos, OnOk, OnErr};
ghost use Rattle.std.specs.Fmt.{signed_decimal};
ghost use Rattle.log_lines.specs.declared.line.Line.TheVariants.{ClaimBelow, ClaimBetween, ClaimOptimal, Floor, Split};
ghost use Rattle.log_lines.specs.Line.{line_text, number_text};

use crate::line::Line;
use std::alloc::{AllocError, Global};

/// Appends the text of the line, and a line feed. After want of memory `into` is as before.
pub fn put_line(alloc: Global, line: &Line, into: &mut Vec<u8>) -> Result<(), AllocError>
    ensures ok { OnOk result (into.new.items ≡ into.old.items ++ (line_text line.now ++ 10 ∷ [])) }
    ensures err { OnErr result (into.new.items ≡ into.old.items) }
{
    let mut text = Vec::new(alloc);
    put_text(alloc, line, &mut text)?;
    text.push(b'\n')?;
    into.extend_from_slice(text.as_slice())
}

// Appends the text of the line.
#[tactic(auto, unfolding(crate::specs::Line::line_text))]
fn put_text(alloc: Global, line: &Line, text: &mut Vec<u8>) -> Result<(), AllocError>
    ensures { OnOk result (text.new.items ≡ text.old.items ++ line_text line.now) }
{
    match *line {
        Line::Header { version } => put(alloc, b"stn-log", &[], &[u128::from(version)], text),
        Line::Node => put(alloc, b"node", &[], &[], text),
        Line::Cut { row, slot } => put(alloc, b"cut", &[], &[row, slot], text),
        Line::Found { value, count } => put(alloc, b"found", &[value], &[count], text),
        Line::Value { slot, quanta } => {
            put(alloc, b"value", &[], &[slot, u128::from(quanta)], text)
        }
        Line::Empty => put(alloc, b"empty", &[], &[], text),
        Line::Point => put(alloc, b"point", &[], &[], text),
        Line::Dual { scale, count } => put(alloc, b"dual", &[], &[scale, count], text),
        Line::Pending { scale, count } => put(alloc, b"pending", &[], &[scale, count], text),
        Line::Floor { profit } => put_floor(alloc, &profit, text),
        Line::Split {
            slot,
            max,
            scale,
            count,
        } => put_split(alloc, slot, max, scale, count, text),
        Line::Mult { row, factor } => put(alloc, b"mult", &[], &[row, factor], text),
        Line::ClaimOptimal { profit, count } => put_optimal(alloc, &profit, count, text),
        Line::ClaimInfeasible => put(alloc, b"claim infeasible", &[], &[], text),
        Line::ClaimBetween { profit, cap, count } => put_between(alloc, &profit, &cap, count, text),
        Line::ClaimBelow { cap } => put_below(alloc, &cap, text),
        Line::End => put(alloc, b"end", &[], &[], text),
    }
}

// Appends a floor.
#[tactic(auto, unfolding(crate::specs::Line::line_text))]
fn put_floor(alloc: Global, profit: &i128, text: &mut Vec<u8>) -> Result<(), AllocError>
    ensures { OnOk result (text.new.items ≡ text.old.items ++ line_text (Floor profit.now)) }
{
    put(alloc, b"floor", &[*profit], &[], text)
}

// Appends a split.
#[tactic(auto, unfolding(crate::specs::Line::line_text))]
fn put_split(
    alloc: Global,
    slot: u128,
    max: u8,
    scale: u128,
    count: u128,
    text: &mut Vec<u8>,
) -> Result<(), AllocError>
    ensures { OnOk result (text.new.items
        ≡ text.old.items ++ line_text (Split slot max scale count)) }
{
    let numbers = [slot, u128::from(max), scale, count];
    put(alloc, b"split", &[], &numbers, text)
}

// Appends the claim of a best plan.
#[tactic(auto, unfolding(crate::specs::Line::line_text))]
fn put_optimal(
    alloc: Global,
    profit: &i128,
    count: u128,
    text: &mut Vec<u8>,
) -> Result<(), AllocError>
    ensures { OnOk result (text.new.items
        ≡ text.old.items ++ line_text (ClaimOptimal profit.now count)) }
{
    put(alloc, b"claim optimal", &[*profit], &[count], text)
}

// Appends the claim of a plan and a cap.
#[tactic(auto, unfolding(crate::specs::Line::line_text))]
fn put_between(
    alloc: Global,
    profit: &i128,
    cap: &i128,
    count: u128,
    text: &mut Vec<u8>,
) -> Result<(), AllocError>
    ensures { OnOk result (text.new.items
        ≡ text.old.items ++ line_text (ClaimBetween profit.now cap.now count)) }
{
    put(alloc, b"claim between", &[*profit, *cap], &[count], text)
}

// Appends the claim of a cap alone.
#[tactic(auto, unfolding(crate::specs::Line::line_text))]
fn put_below(alloc: Global, cap: &i128, text: &mut Vec<u8>) -> Result<(), AllocError>
    ensures { OnOk result (text.new.items ≡ text.old.items ++ line_text (ClaimBelow cap.now)) }
{
    put(alloc, b"claim below", &[*cap], &[], text)
}

// Appends words and the numbers that follow them, first those that may have a minus.
fn put(
    alloc: Global,
    name: &[u8],
    signed: &[i128],
    naturals: &[u128],
    text: &mut Vec<u8>,
) -> Result<(), AllocError>
    ensures { OnOk result (text.new.items
        ≡ text.old.items ++ (name.now ++ number_text (signed.now ++ map pos naturals.now))) }
{
    text.extend_from_slice(name)?;
    put_signed(alloc, signed, text)?;
    put_naturals(alloc, naturals, text)?;
    Ok(())
}

// Appends numbers, each after a blank.
fn put_signed(alloc: Global, numbers: &[i128], text: &mut Vec<u8>) -> Result<(), AllocError>
    ensures { OnOk result (text.new.items ≡ text.old.items ++ flat_map
        (λ number. 32 ∷ signed_decimal number) numbers.now) }
{
    for number in numbers {
        put_one_signed(alloc, number, text)?;
    }
    Ok(())
}

// Appends numbers without sign, each after a blank.
fn put_naturals(alloc: Global, numbers: &[u128], text: &mut Vec<u8>) -> Result<(), AllocError>
    ensures { OnOk result (text.new.items ≡ text.old.items ++ flat_map
        (λ number. 32 ∷ decimal number) numbers.now) }
{
    for number in numbers {
        put_one_natural(alloc, *number, text)?;
    }
    Ok(())
}

// Appends a number after a blank.
fn put_one_signed(alloc: Global, number: &i128, text: &mut Vec<u8>) -> Result<(), AllocError>
    ensures { OnOk result (text.new.items ≡ text.old.items ++ (32 ∷ signed_decimal number.now)) }
{
    let digits = format!(in alloc; " {number}")?;
    text.extend_from_slice(digits.as_bytes())
}

// Appends a number without sign after a blank.
fn put_one_natural(alloc: Global, number: u128, text: &mut Vec<u8>) -> Result<(), AllocError>
    ensures { OnOk result (text.new.items ≡ text.old.items ++ (32 ∷ decimal number)) }
{
    let digits = format!(in alloc; " {number}")?;
    text.extend_from_slice(digits.as_bytes())
}
