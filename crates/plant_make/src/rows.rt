//! Records as tables, and arrays of tables, one table for each record.
ghost use Rattle.std.specs.Prelude.{◌≡◌, ℕ, List as Items, All, Some, IfOk, OnOk, map};
ghost use Rattle.std.specs.List.{fold};
ghost use Rattle.toml.specs.View.{view, table_view};
ghost use Rattle.stn_model.specs.declared.plant.Plant.{Plant};
ghost use Rattle.stn_model.specs.Sound.{Sound};
ghost use Rattle.plant_make.specs.Entries.{Entry, with_entry, some_items};
ghost use Rattle.plant_make.specs.Printed.{made_of};

use crate::table::put_items;
use crate::written::Written;
use plant_text::KeyName;
use std::alloc::{AllocError, Global};
use stn_model::{List, Plant};
use toml::{Table, Value};

/// A record that is printed as a table.
pub trait Row {
    // When the record fits a plant. The number is the quantum of the task that the record belongs to.
    ghost fits: { Plant → ℕ → Self → Type 0 };

    ghost entries: { Plant → ℕ → Self → Items Entry };

    /// Puts the keys of the record into a table, with what they hold.
    fn put_keys(&self, alloc: Global, plant: &Plant, quantum: u32, table: &mut Table) -> Written
        requires sound { Sound plant.now }
        requires fits { fits plant.now quantum self.now }
        ensures { OnOk result (table_view table.new ≡ fold with_entry (table_view table.old)
            (entries plant.now quantum self.now)) };
}

/// The table of a record.
#[tactic(auto, unfolding(crate::specs::Entries::table_of))]
fn table_of<R: Row>(
    alloc: Global,
    plant: &Plant,
    quantum: u32,
    row: &R,
) -> Result<Value, AllocError>
    requires sound { Sound plant.now }
    requires fits { R.fits plant.now quantum row.now }
    ensures { IfOk result (λ v. view v ≡ made_of (R.entries plant.now quantum row.now)) }
{
    let mut table = Table::new(alloc);
    row.put_keys(alloc, plant, quantum, &mut table)?;
    Ok(Value::Table(table))
}

/// The tables of some records, in their order.
fn rows<R: Row>(
    alloc: Global,
    plant: &Plant,
    quantum: u32,
    records: &[R],
) -> Result<Vec<Value>, AllocError>
    requires sound { Sound plant.now }
    requires fits { All (R.fits plant.now quantum) records.now }
    ensures { IfOk result (λ values. map view values.items ≡ map
        (λ row. made_of (R.entries plant.now quantum row)) records.now) }
{
    let mut values = Vec::new(alloc);
    for row in records {
        values.push(table_of(alloc, plant, quantum, row)?)?;
    }
    Ok(values)
}

/// Puts a key with the tables of some records, where there are any.
pub fn put_rows<R: Row>(
    alloc: Global,
    table: &mut Table,
    name: KeyName,
    plant: &Plant,
    quantum: u32,
    records: &List<R>,
) -> Written
    requires sound { Sound plant.now }
    requires fits { All (R.fits plant.now quantum) records.now }
    ensures { OnOk result (table_view table.new ≡ with_entry (table_view table.old)
        (name, some_items (map (λ row. made_of (R.entries plant.now quantum row)) records.now))) }
{
    let values = rows(alloc, plant, quantum, records.as_slice())?;
    put_items(alloc, table, name, values)
}
