//! The text of derivations.
ghost use Rattle.std.specs.Prelude.{◌≡◌, ◌++◌, ◌∷◌, [], OnOk, OnErr, map, pos};
ghost use Rattle.derivation_lines.specs.Line.{numbers_text};
ghost use Rattle.derivation_lines.specs.Tail.{counts_of, cut_line, derivation_lines, entry_line, factor_line, group_line, lines_text, row_line, row_lines, tail_text};

use derivations::Derivation;
use derived_rows::{Derived, Factor, Group, Members};
use range_prop::RowCut;
use row_kit::Entry;
use std::alloc::{AllocError, Global};
use sum_lines::{put_natural, put_signed};

/// Appends the text of derivations. After an error `into` is as before.
pub fn put_derivations(
    alloc: Global,
    derivations: &[Derivation],
    into: &mut Vec<u8>,
) -> Result<(), AllocError>
    ensures ok { OnOk result (into.new.items ≡ into.old.items ++ tail_text derivations.now) }
    ensures err { OnErr result (into.new.items ≡ into.old.items) }
{
    let mut text = Vec::new(alloc);
    put_all(alloc, derivations, &mut text)?;
    into.extend_from_slice(text.as_slice())
}

// Appends the lines of derivations.
fn put_all(alloc: Global, derivations: &[Derivation], text: &mut Vec<u8>) -> Result<(), AllocError>
    ensures { OnOk result (text.new.items ≡ text.old.items ++ tail_text derivations.now) }
{
    for derivation in derivations {
        put_derivation(alloc, derivation, text)?;
    }
    Ok(())
}

// Appends the lines of a derivation.
fn put_derivation(
    alloc: Global,
    derivation: &Derivation,
    text: &mut Vec<u8>,
) -> Result<(), AllocError>
    ensures { OnOk result (text.new.items
        ≡ text.old.items ++ lines_text (derivation_lines derivation.now)) }
{
    match derivation {
        Derivation::Cut(cut) => put_cut(alloc, cut, text),
        Derivation::Row(derived) => put_derived(alloc, derived, text),
    }
}

// Appends the line of a cut.
fn put_cut(alloc: Global, cut: &RowCut, text: &mut Vec<u8>) -> Result<(), AllocError>
    ensures { OnOk result (text.new.items ≡ text.old.items ++ lines_text (cut_line cut.now ∷ [])) }
{
    text.extend_from_slice(b"cut")?;
    put_natural(alloc, cut.row as u64, text)?;
    put_natural(alloc, cut.slot as u64, text)?;
    text.extend_from_slice(b"\n")?;
    Ok(())
}

// Appends the lines of a derived row.
fn put_derived(alloc: Global, derived: &Derived, text: &mut Vec<u8>) -> Result<(), AllocError>
    ensures { OnOk result (text.new.items
        ≡ text.old.items ++ lines_text (row_lines derived.now (counts_of derived.now))) }
{
    put_row(alloc, derived, text)?;
    put_factors(alloc, derived.factors.as_slice(), text)?;
    put_groups(alloc, derived.groups.as_slice(), text)?;
    put_entries(alloc, derived.entries.as_slice(), text)?;
    Ok(())
}

// Appends the line with which a derived row begins.
fn put_row(alloc: Global, derived: &Derived, text: &mut Vec<u8>) -> Result<(), AllocError>
    ensures { OnOk result (text.new.items
        ≡ text.old.items ++ lines_text (row_line derived.now (counts_of derived.now) ∷ [])) }
{
    text.extend_from_slice(b"row")?;
    put_natural(alloc, derived.divisor as u64, text)?;
    put_natural(alloc, derived.rest as u64, text)?;
    put_natural(alloc, derived.up as u64, text)?;
    put_natural(alloc, derived.down as u64, text)?;
    put_natural(alloc, derived.factors.len() as u64, text)?;
    put_natural(alloc, derived.groups.len() as u64, text)?;
    put_natural(alloc, derived.entries.len() as u64, text)?;
    text.extend_from_slice(b"\n")?;
    Ok(())
}

// Appends the lines of factors.
fn put_factors(alloc: Global, factors: &[Factor], text: &mut Vec<u8>) -> Result<(), AllocError>
    ensures { OnOk result (text.new.items
        ≡ text.old.items ++ lines_text (map factor_line factors.now)) }
{
    for factor in factors {
        put_factor(alloc, factor, text)?;
    }
    Ok(())
}

// Appends the line of a factor.
fn put_factor(alloc: Global, factor: &Factor, text: &mut Vec<u8>) -> Result<(), AllocError>
    ensures { OnOk result (text.new.items
        ≡ text.old.items ++ lines_text (factor_line factor.now ∷ [])) }
{
    text.extend_from_slice(b"by")?;
    put_natural(alloc, factor.row as u64, text)?;
    put_signed(alloc, &factor.by, text)?;
    text.extend_from_slice(b"\n")?;
    Ok(())
}

// Appends the lines of groups.
fn put_groups(alloc: Global, groups: &[Group], text: &mut Vec<u8>) -> Result<(), AllocError>
    ensures { OnOk result (text.new.items
        ≡ text.old.items ++ lines_text (map group_line groups.now)) }
{
    for group in groups {
        put_group(alloc, group, text)?;
    }
    Ok(())
}

// Appends the line of a group.
fn put_group(alloc: Global, group: &Group, text: &mut Vec<u8>) -> Result<(), AllocError>
    ensures { OnOk result (text.new.items
        ≡ text.old.items ++ lines_text (group_line group.now ∷ [])) }
{
    match group.members {
        Members::One(slot) => put_named(alloc, b"lift".as_slice(), slot, &group.shift, text)?,
        Members::OfRow(row) => put_named(alloc, b"shift".as_slice(), row, &group.shift, text)?,
    }
    Ok(())
}

// Appends the lines of entries.
fn put_entries(alloc: Global, entries: &[Entry], text: &mut Vec<u8>) -> Result<(), AllocError>
    ensures { OnOk result (text.new.items
        ≡ text.old.items ++ lines_text (map entry_line entries.now)) }
{
    for entry in entries {
        put_entry(alloc, entry, text)?;
    }
    Ok(())
}

// Appends the line of an entry.
fn put_entry(alloc: Global, entry: &Entry, text: &mut Vec<u8>) -> Result<(), AllocError>
    ensures { OnOk result (text.new.items
        ≡ text.old.items ++ lines_text (entry_line entry.now ∷ [])) }
{
    text.extend_from_slice(b"entry")?;
    put_natural(alloc, entry.slot as u64, text)?;
    put_signed(alloc, &entry.fixed, text)?;
    put_signed(alloc, &entry.per, text)?;
    text.extend_from_slice(b"\n")?;
    Ok(())
}

// Appends the line of a name and two numbers.
fn put_named(
    alloc: Global,
    name: &[u8],
    number: u32,
    shift: &i64,
    text: &mut Vec<u8>,
) -> Result<(), AllocError>
    ensures { OnOk result (text.new.items ≡ text.old.items
        ++ ((name.now ++ numbers_text (pos number ∷ shift.now ∷ [])) ++ 10 ∷ [])) }
{
    text.extend_from_slice(name)?;
    put_natural(alloc, number as u64, text)?;
    put_signed(alloc, shift, text)?;
    text.extend_from_slice(b"\n")?;
    Ok(())
}
