//! Labels and colours as a plant file may have them.
ghost use Rattle.std.specs.Prelude.{◌≡◌, []};
ghost use Rattle.std.specs.Char.{is_ascii_hexdigit};
ghost use Rattle.std.specs.List.{list_all, list_any};
ghost use Rattle.std.specs.Str.{chars};
ghost use Rattle.stn_model.specs.Labels.{is_unwritable, is_label, is_colour};
ghost use Rattle.toml.specs.View.{view, table_view};
ghost use Rattle.plant_text.specs.Tests.{Gives};
ghost use Rattle.plant_text.specs.Fields.{field_tests, at_key, text_of, kind_tests};
ghost use Rattle.plant_text.specs.Fields as kind;

use crate::fault::{KeyName, Place, PlantStop};
use crate::find::{Key, present};
use crate::names::name_of;
use std::alloc::Global;
use stn_model::limits::MAX_LABEL;
use stn_model::{Colour, Label, List};
use toml::{Table, Value};

// A control character, or one of the two that no text of a picture may have.
fn is_unwritable(character: char) -> bool
    ensures { result ≡ is_unwritable character }
{
    character.is_control() || character == '\u{FFFE}' || character == '\u{FFFF}'
}

fn has_unwritable(text: &str) -> bool
    ensures { result ≡ list_any is_unwritable (chars text.now) }
{
    for character in text.chars() {
        if is_unwritable(character) {
            return true;
        }
    }
    false
}

/// Whether the text is a label: 1 to 64 bytes, without control characters and the two that no XML has.
#[tactic(auto, unfolding(stn_model::specs::Labels::is_label))]
pub fn is_label(text: &str) -> bool
    ensures { result ≡ is_label text.now }
{
    if text.is_empty() {
        return false;
    }
    if MAX_LABEL < text.len() {
        return false;
    }
    !has_unwritable(text)
}

fn has_hexdigits(bytes: &[u8]) -> bool
    ensures { result ≡ list_all is_ascii_hexdigit bytes.now }
{
    for byte in bytes {
        if !byte.is_ascii_hexdigit() {
            return false;
        }
    }
    true
}

/// Whether the bytes are a colour: `#` and six hexadecimal digits.
#[tactic(auto, unfolding(stn_model::specs::Labels::is_colour))]
pub fn is_colour(bytes: &[u8]) -> bool
    ensures { result ≡ is_colour bytes.now }
{
    match bytes {
        [] => false,
        [first, digits @ ..] => *first == b'#' && digits.len() == 6 && has_hexdigits(digits),
    }
}

#[tactic(auto, unfolding(crate::specs::Fields::kind_tests, crate::specs::Tests::first_fault))]
fn label_in(alloc: Global, value: &Value, place: Place, name: KeyName) -> Result<Label, PlantStop>
    ensures { Gives result (kind_tests place name kind.label (view value.now))
        (text_of (view value.now)) }
{
    let text = match value.as_str() {
        Some(text) => text,
        None => return Err(place.stop(6, name)),
    };
    if !is_label(text) {
        return Err(place.stop(24, name));
    }
    Ok(name_of(alloc, text.as_bytes())?)
}

/// The label at a key, or none.
#[tactic(auto, unfolding(crate::specs::Fields::value_tests, crate::specs::Tests::first_fault))]
pub fn label(alloc: Global, table: &Table, place: Place, key: Key) -> Result<Label, PlantStop>
    ensures { Gives result (field_tests place (table_view table.now)
        (record { key = key; kind = kind.label })) (at_key text_of [] (table_view table.now) key) }
{
    match present(table, place, key)? {
        None => Ok(List::new(alloc)),
        Some(value) => label_in(alloc, value, place, key.name),
    }
}

#[tactic(auto, unfolding(crate::specs::Fields::kind_tests, crate::specs::Tests::first_fault))]
fn colour_in(alloc: Global, value: &Value, place: Place, name: KeyName) -> Result<Colour, PlantStop>
    ensures { Gives result (kind_tests place name kind.colour (view value.now))
        (text_of (view value.now)) }
{
    let text = match value.as_str() {
        Some(text) => text,
        None => return Err(place.stop(6, name)),
    };
    if !is_colour(text.as_bytes()) {
        return Err(place.stop(25, name));
    }
    Ok(name_of(alloc, text.as_bytes())?)
}

/// The colour at a key, or none.
#[tactic(auto, unfolding(crate::specs::Fields::value_tests, crate::specs::Tests::first_fault))]
pub fn colour(alloc: Global, table: &Table, place: Place, key: Key) -> Result<Colour, PlantStop>
    ensures { Gives result (field_tests place (table_view table.now)
        (record { key = key; kind = kind.colour })) (at_key text_of [] (table_view table.now) key) }
{
    match present(table, place, key)? {
        None => Ok(List::new(alloc)),
        Some(value) => colour_in(alloc, value, place, key.name),
    }
}
