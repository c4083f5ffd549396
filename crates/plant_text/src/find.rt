//! Looking into a TOML table.
ghost use Rattle.std.specs.Prelude.{◌≡◌, is_some, true, false, None, option_map, IfOk, IfErr, IfNone};
ghost use Rattle.toml.specs.Data.{get_member};
ghost use Rattle.toml.specs.View.{view, table_view};
ghost use Rattle.plant_text.specs.Words.{key_word};
ghost use Rattle.plant_text.specs.Tests.{Stops, first_fault};
ghost use Rattle.plant_text.specs.Fields.{fault, members_of, head_tests, held, is_of, is_known, has_unknown};

use crate::fault::{KeyName, Place, PlantStop};
use toml::{Table, Value};

/// A key of a table: its name, whether the version of the file knows it, and whether it is required.
#[derive(Clone, Copy)]
pub struct Key {
    pub name: KeyName,
    pub known: bool,
    pub required: bool,
}

pub fn lookup(table: &Table, name: KeyName) -> Option<&Value>
    ensures { option_map (λ v. view v.now) result ≡ get_member (key_word name)
        (table_view table.now) }
{
    table.get(name.word())
}

/// A key as a row of the field table names it: `needed`, `optional`, needed
/// `of` outputs alone, or known `since` a version, where it may be needed `beside` another.
macro_rules! key {
    (needed $name:ident) => {
        $crate::find::Key {
            name: $crate::fault::KeyName::$name,
            known: true,
            required: true,
        }
    };
    (needed $name:ident unless $there:expr) => {
        $crate::find::Key {
            name: $crate::fault::KeyName::$name,
            known: true,
            required: !$there,
        }
    };
    (optional $name:ident) => {
        $crate::find::Key {
            name: $crate::fault::KeyName::$name,
            known: true,
            required: false,
        }
    };
    (of $outputs:expr, $name:ident) => {
        $crate::find::Key {
            name: $crate::fault::KeyName::$name,
            known: $outputs,
            required: $outputs,
        }
    };
    (since $second:expr, $name:ident) => {
        $crate::find::Key {
            name: $crate::fault::KeyName::$name,
            known: $second,
            required: false,
        }
    };
    (since $second:expr, $name:ident beside $there:expr) => {
        $crate::find::Key {
            name: $crate::fault::KeyName::$name,
            known: $second,
            required: $there,
        }
    };
}

/// Reads an item: first as a whole, then its keys by the rows of the field table, in their order: each key
/// by the reader of its kind. Each key becomes a variable.
macro_rules! read_fields {
    ($value:expr, $place:expr; $($field:ident: ($($key:tt)+) = $reader:ident($($first:expr),*; $($rest:expr),*);)+) => {
        let table = $crate::find::table_of($value, $place, &[$($crate::find::key!($($key)+)),+])?;
        $(let $field = $reader($($first,)* table, $place, $crate::find::key!($($key)+), $($rest),*)?;)+
    };
}

pub(crate) use key;
pub(crate) use read_fields;

/// What a table holds at a key; nothing at a key that the file's version does not know.
pub fn find(table: &Table, key: Key) -> Option<&Value>
    ensures { option_map (λ v. view v.now) result ≡ held (table_view table.now) key }
{
    if key.known {
        lookup(table, key.name)
    } else {
        None
    }
}

/// What a table holds at a key, which is a fault where the key is required and absent.
pub fn present(table: &Table, place: Place, key: Key) -> Result<Option<&Value>, PlantStop>
    ensures ok { IfOk result (λ found. option_map (λ v. view v.now) found
        ≡ held (table_view table.now) key) }
    ensures some { IfOk result (λ found. IfNone found (key.required ≡ false)) }
    ensures err { IfErr result (λ e. (e ≡ PlantStop.Fault (fault 5 place key.name))
        × (key.required ≡ true) × (held (table_view table.now) key ≡ None)) }
{
    match find(table, key) {
        Some(value) => Ok(Some(value)),
        None => {
            if key.required {
                Err(place.stop(5, key.name))
            } else {
                Ok(None)
            }
        }
    }
}

fn is_of(word: &str, key: &Key) -> bool
    ensures { result ≡ is_of word.now key.now }
{
    if !key.known {
        return false;
    }
    key.name.word() == word
}

fn knows(keys: &[Key], word: &str) -> bool
    ensures { result ≡ is_known keys.now word.now }
{
    for key in keys {
        if is_of(word, key) {
            return true;
        }
    }
    false
}

/// Whether an item has a key, where it is a table.
pub fn has(value: &Value, key: Key) -> bool
    ensures { result ≡ is_some (held (members_of (view value.now)) key) }
{
    match value.as_table() {
        Some(table) => find(table, key).is_some(),
        None => false,
    }
}

/// Whether the table has a key that is not among the known ones.
#[tactic(auto, using(crate::proofs::Members::strange_members))]
pub fn unknown(table: &Table, keys: &[Key]) -> bool
    ensures { result ≡ has_unknown keys.now (table_view table.now) }
{
    for word in table.keys() {
        if !knows(keys, word.as_str()) {
            return true;
        }
    }
    false
}

/// An item as a table without unknown keys.
#[tactic(auto, unfolding(crate::specs::Fields::head_tests, crate::specs::Tests::first_fault))]
pub fn table_of<'a>(value: &'a Value, place: Place, keys: &[Key]) -> Result<&'a Table, PlantStop>
    ensures ok { IfOk result (λ t. (first_fault (head_tests place keys.now (view value.now)) ≡ None)
        × (table_view t.now ≡ members_of (view value.now))) }
    ensures err { IfErr result
        (λ e. Stops e (first_fault (head_tests place keys.now (view value.now)))) }
{
    let table = match value.as_table() {
        Some(table) => table,
        None => return Err(place.stop(6, KeyName::Whole)),
    };
    if unknown(table, keys) {
        return Err(place.stop(4, KeyName::Whole));
    }
    Ok(table)
}
