//! The text of setups.
ghost use Rattle.std.specs.Prelude.{◌≡◌, ◌++◌, ◌∷◌, [], OnOk, OnErr};
ghost use Rattle.setup_lines.specs.Line.{setup_line, setups_text};

use std::alloc::{AllocError, Global};
use text_words::put_number;

/// Appends the text of the setups of these units. After an error `into` is as before.
pub fn put_setups(alloc: Global, units: &[u32], into: &mut Vec<u8>) -> Result<(), AllocError>
    ensures ok { OnOk result (into.new.items ≡ into.old.items ++ setups_text units.now) }
    ensures err { OnErr result (into.new.items ≡ into.old.items) }
{
    let mut text = Vec::new(alloc);
    put_all(alloc, units, &mut text)?;
    into.extend_from_slice(text.as_slice())
}

// Appends the lines of units.
fn put_all(alloc: Global, units: &[u32], text: &mut Vec<u8>) -> Result<(), AllocError>
    ensures { OnOk result (text.new.items ≡ text.old.items ++ setups_text units.now) }
{
    for unit in units {
        put_line(alloc, *unit, text)?;
    }
    Ok(())
}

// Appends the line of a unit.
fn put_line(alloc: Global, unit: u32, text: &mut Vec<u8>) -> Result<(), AllocError>
    ensures { OnOk result (text.new.items ≡ text.old.items ++ (setup_line unit ++ 10 ∷ [])) }
{
    text.extend_from_slice(b"setup ")?;
    put_number(alloc, unit as u64, text)?;
    text.extend_from_slice(b"\n")?;
    Ok(())
}
