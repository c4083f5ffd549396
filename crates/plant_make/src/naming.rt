//! Names in tables: of a record itself, and of the things that it names by number. Labels and colours.
ghost use Rattle.std.specs.Prelude.{◌≡◌, ◌<◌, Some, IfSome, IfOk, OnOk, IsTrue, length};
ghost use Rattle.std.specs.Str.{IsUtf8};
ghost use Rattle.toml.specs.Data.{string};
ghost use Rattle.toml.specs.View.{view, table_view};
ghost use Rattle.stn_model.specs.Sound.{Sound, SoundLast, is_name};
ghost use Rattle.stn_model.specs.Labels.{SoundLabel, SoundColour};
ghost use Rattle.plant_make.specs.Entries.{with_entry, some_text};
ghost use Rattle.plant_make.specs.Printed.{state_name, utility_name, unit_name, task_name, last_name};

use crate::table::put;
use crate::written::Written;
use plant_text::KeyName;
use std::alloc::{AllocError, Global};
use stn_model::{Last, Plant};
use toml::{Table, Value};

/// Bytes as a text.
fn text_value(alloc: Global, bytes: &[u8]) -> Result<Value, AllocError>
    requires { IsUtf8 bytes.now }
    ensures { IfOk result (λ v. view v ≡ string bytes.now) }
{
    match std::str::from_utf8(bytes) {
        Ok(text) => Value::string(alloc, text),
        Err(_) => unreachable!(),
    }
}

/// Puts a key with a name.
pub fn put_name(alloc: Global, table: &mut Table, key: KeyName, name: &[u8]) -> Written
    requires { IsTrue (is_name name.now) }
    ensures { OnOk result (table_view table.new ≡ with_entry (table_view table.old)
        (key, Some (string name.now))) }
{
    let value = text_value(alloc, name)?;
    put(alloc, table, key, value)
}

/// Puts a key with a text, where it is not empty.
fn put_text(alloc: Global, table: &mut Table, key: KeyName, text: &[u8]) -> Written
    requires { IsUtf8 text.now }
    ensures { OnOk result (table_view table.new ≡ with_entry (table_view table.old)
        (key, some_text text.now)) }
{
    if text.is_empty() {
        return Ok(());
    }
    let value = text_value(alloc, text)?;
    put(alloc, table, key, value)
}

/// Puts the label of a record, where it has one.
pub fn put_label(alloc: Global, table: &mut Table, label: &[u8]) -> Written
    requires { SoundLabel label.now }
    ensures { OnOk result (table_view table.new ≡ with_entry (table_view table.old)
        (KeyName.Label, some_text label.now)) }
{
    put_text(alloc, table, KeyName::Label, label)
}

/// Puts the colour of a task, where it has one.
pub fn put_colour(alloc: Global, table: &mut Table, colour: &[u8]) -> Written
    requires { SoundColour colour.now }
    ensures { OnOk result (table_view table.new ≡ with_entry (table_view table.old)
        (KeyName.Colour, some_text colour.now)) }
{
    put_text(alloc, table, KeyName::Colour, colour)
}

/// Puts the name of a state of the plant.
pub fn put_state(alloc: Global, table: &mut Table, plant: &Plant, state: u32) -> Written
    requires sound { Sound plant.now }
    requires there { state < length plant.now.states }
    ensures { OnOk result (table_view table.new ≡ with_entry (table_view table.old)
        (KeyName.State, Some (state_name plant.now state))) }
{
    let name = plant.states.get(state as usize).name.as_slice();
    put_name(alloc, table, KeyName::State, name)
}

/// Puts the name of a utility of the plant.
pub fn put_utility(alloc: Global, table: &mut Table, plant: &Plant, utility: u32) -> Written
    requires sound { Sound plant.now }
    requires there { utility < length plant.now.utilities }
    ensures { OnOk result (table_view table.new ≡ with_entry (table_view table.old)
        (KeyName.Utility, Some (utility_name plant.now utility))) }
{
    let name = plant.utilities.get(utility as usize).name.as_slice();
    put_name(alloc, table, KeyName::Utility, name)
}

/// Puts the name of a unit of the plant.
pub fn put_unit(alloc: Global, table: &mut Table, plant: &Plant, unit: u32) -> Written
    requires sound { Sound plant.now }
    requires there { unit < length plant.now.units }
    ensures { OnOk result (table_view table.new ≡ with_entry (table_view table.old)
        (KeyName.StnUnit, Some (unit_name plant.now unit))) }
{
    let name = plant.units.get(unit as usize).name.as_slice();
    put_name(alloc, table, KeyName::StnUnit, name)
}

/// Puts a key with the name of a task of the plant.
pub fn put_task(alloc: Global, table: &mut Table, key: KeyName, plant: &Plant, task: u32) -> Written
    requires sound { Sound plant.now }
    requires there { task < length plant.now.tasks }
    ensures { OnOk result (table_view table.new ≡ with_entry (table_view table.old)
        (key, Some (task_name plant.now task))) }
{
    let name = plant.tasks.get(task as usize).name.as_slice();
    put_name(alloc, table, key, name)
}

/// Puts the name of the task of the batch that held a unit last, where one did.
pub fn put_last(alloc: Global, table: &mut Table, plant: &Plant, last: Option<Last>) -> Written
    requires sound { Sound plant.now }
    requires there { IfSome last (SoundLast plant.now) }
    ensures { OnOk result (table_view table.new ≡ with_entry (table_view table.old)
        (KeyName.Last, last_name plant.now last)) }
{
    match last {
        Some(last) => put_task(alloc, table, KeyName::Last, plant, last.task),
        None => Ok(()),
    }
}
