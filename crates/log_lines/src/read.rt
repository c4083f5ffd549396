//! A line from its bytes.
ghost use Rattle.std.specs.Prelude.{◌≡◌, ◌≢◌, ◌↔◌, [], bytes_eq, codes, IsTrue, MatchOption};
ghost use Rattle.log_lines.specs.declared.form.Form.TheVariants as form;
ghost use Rattle.log_lines.specs.Line.{IsLine, IsInRange, IsVersion, line_text, line_form, line_numbers};
ghost use Rattle.log_lines.specs.Numbers.{IsCut};
ghost use Rattle.log_lines.specs.Reading.{ReadsLine, IsNameCut};
ghost use Rattle.log_lines.specs.Said.{line_said};

use crate::form::{Form, form_of};
use crate::kinds::LEAST_FACTOR;
use crate::line::Line;
use crate::numbers::{cut_word, four, natural, pair, signed, signed_pair, signed_three};

/// The line that the bytes are, without a line feed; None exactly where they are no line. It takes no memory.
pub fn read_line(bytes: &[u8]) -> Option<Line>
    ensures is { MatchOption result ((line : Line) → IsLine line → line_text line ≢ bytes.now)
        (λ line. IsLine line × (line_text line ≡ bytes.now)) }
    ensures said { result ≡ line_said bytes.now }
{
    read(bytes)
}

// The same.
fn read(bytes: &[u8]) -> Option<Line>
    ensures { MatchOption result ((line : Line) → IsLine line → line_text line ≢ bytes.now)
        (λ line. IsLine line × (line_text line ≡ bytes.now)) }
{
    let (name, rest) = cut_name(bytes);
    match form_of(name) {
        Some(form) => line_of(form, rest),
        None => None,
    }
}

// The words of a line, and its numbers from the blank before the first on.
fn cut_name(bytes: &[u8]) -> (&[u8], &[u8])
    ensures { IsNameCut bytes.now result.0.now result.1.now }
{
    let (first, rest) = cut_word(bytes);
    if is_claim(first) {
        cut_claim(bytes, rest)
    } else {
        (first, rest)
    }
}

// The same, of a line that begins with `claim`: its second word is one of its words too.
fn cut_claim<'a>(bytes: &'a [u8], rest: &[u8]) -> (&'a [u8], &'a [u8])
    requires { IsCut bytes.now (codes "claim") rest.now }
    ensures { IsNameCut bytes.now result.0.now result.1.now }
{
    match rest {
        [b' ', more @ ..] => {
            let (second, _) = cut_word(more);
            bytes.split_at(6 + second.len())
        }
        _ => (bytes, &[]),
    }
}

// Whether the word is `claim`.
fn is_claim(word: &[u8]) -> bool
    ensures { result ≡ bytes_eq word.now (codes "claim") }
{
    word == b"claim".as_slice()
}

// The line of this form with these numbers.
fn line_of(form: Form, rest: &[u8]) -> Option<Line>
    ensures { ReadsLine form rest.now result }
{
    match form {
        Form::Header => header(rest),
        Form::Node => bare(rest, Line::Node),
        Form::Cut => cut(rest),
        Form::Found => found(rest),
        Form::Value => value(rest),
        Form::Empty => bare(rest, Line::Empty),
        Form::Point => bare(rest, Line::Point),
        Form::Dual => dual(rest),
        Form::Pending => pending(rest),
        Form::Floor => floor(rest),
        Form::Split => split(rest),
        Form::Mult => mult(rest),
        Form::ClaimOptimal => claim_optimal(rest),
        Form::ClaimInfeasible => bare(rest, Line::ClaimInfeasible),
        Form::ClaimBetween => claim_between(rest),
        Form::ClaimBelow => claim_below(rest),
        Form::End => bare(rest, Line::End),
    }
}

// A line without numbers.
fn bare(rest: &[u8], line: Line) -> Option<Line>
    requires short { line_numbers line ≡ [] }
    requires in_range { IsInRange line }
    ensures { ReadsLine (line_form line) rest.now result }
{
    if rest.is_empty() { Some(line) } else { None }
}

fn header(rest: &[u8]) -> Option<Line>
    ensures { ReadsLine form.Header rest.now result }
{
    match natural(rest) {
        Some(version) => {
            if is_version(version) {
                Some(Line::Header {
                    version: version as u8,
                })
            } else {
                None
            }
        }
        None => None,
    }
}

// Whether logs of this version have no more before their proof than their first line.
fn is_version(version: u128) -> bool
    ensures { IsTrue result ↔ IsVersion version }
{
    version == 1 || version == 2 || version == 4
}

fn cut(rest: &[u8]) -> Option<Line>
    ensures { ReadsLine form.Cut rest.now result }
{
    match pair(rest) {
        Some((row, slot)) => Some(Line::Cut { row, slot }),
        None => None,
    }
}

fn found(rest: &[u8]) -> Option<Line>
    ensures { ReadsLine form.Found rest.now result }
{
    match signed_pair(rest) {
        Some((value, count)) => Some(Line::Found { value, count }),
        None => None,
    }
}

fn value(rest: &[u8]) -> Option<Line>
    ensures { ReadsLine form.Value rest.now result }
{
    match pair(rest) {
        Some((slot, quanta)) => {
            if 1 <= quanta && quanta <= 255 {
                Some(Line::Value {
                    slot,
                    quanta: quanta as u8,
                })
            } else {
                None
            }
        }
        None => None,
    }
}

fn dual(rest: &[u8]) -> Option<Line>
    ensures { ReadsLine form.Dual rest.now result }
{
    match pair(rest) {
        Some((scale, count)) => Some(Line::Dual { scale, count }),
        None => None,
    }
}

fn pending(rest: &[u8]) -> Option<Line>
    ensures { ReadsLine form.Pending rest.now result }
{
    match pair(rest) {
        Some((scale, count)) => Some(Line::Pending { scale, count }),
        None => None,
    }
}

fn floor(rest: &[u8]) -> Option<Line>
    ensures { ReadsLine form.Floor rest.now result }
{
    match signed(rest) {
        Some(profit) => Some(Line::Floor { profit }),
        None => None,
    }
}

fn split(rest: &[u8]) -> Option<Line>
    ensures { ReadsLine form.Split rest.now result }
{
    match four(rest) {
        Some((slot, max, scale, count)) => {
            if max <= 254 {
                Some(Line::Split {
                    slot,
                    max: max as u8,
                    scale,
                    count,
                })
            } else {
                None
            }
        }
        None => None,
    }
}

fn mult(rest: &[u8]) -> Option<Line>
    ensures { ReadsLine form.Mult rest.now result }
{
    match pair(rest) {
        Some((row, factor)) => {
            if factor >= LEAST_FACTOR {
                Some(Line::Mult { row, factor })
            } else {
                None
            }
        }
        None => None,
    }
}

fn claim_optimal(rest: &[u8]) -> Option<Line>
    ensures { ReadsLine form.ClaimOptimal rest.now result }
{
    match signed_pair(rest) {
        Some((profit, count)) => Some(Line::ClaimOptimal { profit, count }),
        None => None,
    }
}

fn claim_between(rest: &[u8]) -> Option<Line>
    ensures { ReadsLine form.ClaimBetween rest.now result }
{
    match signed_three(rest) {
        Some((profit, cap, count)) => Some(Line::ClaimBetween { profit, cap, count }),
        None => None,
    }
}

fn claim_below(rest: &[u8]) -> Option<Line>
    ensures { ReadsLine form.ClaimBelow rest.now result }
{
    match signed(rest) {
        Some(cap) => Some(Line::ClaimBelow { cap }),
        None => None,
    }
}
