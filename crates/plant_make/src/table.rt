//! Tables of a plant file, key by key.
ghost use Rattle.std.specs.Prelude.{◌≡◌, OnOk, Some, option_map, map};
ghost use Rattle.toml.specs.View.{view, table_view};
ghost use Rattle.plant_text.specs.Words.{key_word};
ghost use Rattle.plant_make.specs.Entries.{with_member, with_entry, some_items};

use crate::written::Written;
use plant_text::KeyName;
use std::alloc::Global;
use toml::{Table, Value};

/// Puts a key with its value into a table.
pub fn put(alloc: Global, table: &mut Table, name: KeyName, value: Value) -> Written
    ensures { OnOk result (table_view table.new ≡ with_member (key_word name) (view value)
        (table_view table.old)) }
{
    let word = String::from_str(alloc, name.word())?;
    table.insert(word, value)?;
    Ok(())
}

/// Puts a key with its value, where there is one.
pub fn put_some(alloc: Global, table: &mut Table, name: KeyName, value: Option<Value>) -> Written
    ensures { OnOk result (table_view table.new ≡ with_entry (table_view table.old)
        (name, option_map view value)) }
{
    match value {
        Some(value) => put(alloc, table, name, value),
        None => Ok(()),
    }
}

/// Puts a key with an array, where the array is not empty.
pub fn put_items(alloc: Global, table: &mut Table, name: KeyName, items: Vec<Value>) -> Written
    ensures { OnOk result (table_view table.new ≡ with_entry (table_view table.old)
        (name, some_items (map view items.items))) }
{
    if items.is_empty() {
        Ok(())
    } else {
        put(alloc, table, name, Value::Array(items))
    }
}
