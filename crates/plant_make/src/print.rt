//! Printing a plant as a plant file.
ghost use Rattle.std.specs.Prelude.{◌≡◌, if◌then◌else◌, Some, OnOk, OnErr, IfOk, string_bytes};
ghost use Rattle.std.specs.List.{fold};
ghost use Rattle.toml.specs.View.{table_view};
ghost use Rattle.toml.specs.Parse.{parse_document, skip_bom};
ghost use Rattle.stn_model.specs.Sound.{Sound};
ghost use Rattle.plant_make.specs.Entries.{table_of, with_entry};
ghost use Rattle.plant_make.specs.Printed.{plant_entries};
ghost use Rattle.plant_make.specs.Meaning.{Puts};

use crate::calendar::put_calendar;
use crate::rows::put_rows;
use crate::table::put;
use crate::values::short_value;
use crate::written::Written;
use plant_text::KeyName;
use std::alloc::{AllocError, Global};
use stn_model::Plant;
use toml::Table;
use toml::ser::Error;

/// The version that a plant is printed in.
fn version_of(plant: &Plant) -> u32
    ensures { result ≡ (if plant.now.large then 3 else 2) }
{
    if plant.large { 3 } else { 2 }
}

/// Puts the keys at the top.
#[tactic(auto, unfolding(crate::specs::Printed::plant_entries))]
fn put_plant_keys(alloc: Global, plant: &Plant, table: &mut Table) -> Written
    requires { Sound plant.now }
    ensures { OnOk result (table_view table.new ≡ fold with_entry (table_view table.old)
        (plant_entries plant.now)) }
{
    put(
        alloc,
        table,
        KeyName::Version,
        short_value(version_of(plant)),
    )?;
    put(alloc, table, KeyName::Periods, short_value(plant.periods))?;
    put_calendar(alloc, table, plant.calendar)?;
    put_rows(alloc, table, KeyName::State, plant, 0, &plant.states)?;
    put_rows(alloc, table, KeyName::Utility, plant, 0, &plant.utilities)?;
    put_rows(alloc, table, KeyName::StnUnit, plant, 0, &plant.units)?;
    put_rows(alloc, table, KeyName::Task, plant, 0, &plant.tasks)?;
    put_rows(alloc, table, KeyName::Run, plant, 0, &plant.runs)?;
    put_rows(alloc, table, KeyName::Gap, plant, 0, &plant.gaps)?;
    put_rows(alloc, table, KeyName::Receipt, plant, 0, &plant.receipts)?;
    put_rows(alloc, table, KeyName::Delivery, plant, 0, &plant.deliveries)?;
    put_rows(alloc, table, KeyName::Outage, plant, 0, &plant.outages)?;
    Ok(())
}

// The document of a plant.
#[tactic(auto, unfolding(crate::specs::Entries::table_of))]
fn document(alloc: Global, plant: &Plant) -> Result<Table, AllocError>
    requires { Sound plant.now }
    ensures { IfOk result (λ t. table_view t ≡ table_of (plant_entries plant.now)) }
{
    let mut table = Table::new(alloc);
    put_plant_keys(alloc, plant, &mut table)?;
    Ok(table)
}

// The text of a plant's document. Its date is one that can be printed, so want of memory is the only error.
fn text_of(alloc: Global, plant: &Plant) -> Result<String, AllocError>
    requires { Sound plant.now }
    ensures parsed { IfOk result (λ text. parse_document (string_bytes text)
        ≡ Some (table_of (plant_entries plant.now))) }
    ensures unmarked { IfOk result (λ text. skip_bom (string_bytes text) ≡ string_bytes text) }
{
    let table = document(alloc, plant)?;
    match toml::table_to_string(alloc, &table) {
        Ok(text) => Ok(text),
        Err(Error::OutOfMemory) => Err(AllocError),
        Err(Error::DateInvalid) => unreachable!(),
    }
}

/// Appends a plant file that means the plant: of version 3 where it is large, else of version 2.
///
/// A list of limits that are all the same is written as one `limit`, and parts are written in lowest
/// terms; a label or a colour that is empty is left out, and so are the keys of a calendar where there is
/// none. After want of memory `into` is as before.
pub fn put_plant(alloc: Global, plant: &Plant, into: &mut Vec<u8>) -> Result<(), AllocError>
    requires { Sound plant.now }

    // What is appended is a text of the plant's document. It means the plant, however long it is; where it
    // is no longer than a plant file may be, it is read as the plant.
    ensures ok { OnOk result (Puts plant.now into.old.items into.new.items) }
    ensures err { OnErr result (into.new.items ≡ into.old.items) }
{
    let text = text_of(alloc, plant)?;
    into.extend_from_slice(text.as_str().as_bytes())?;
    Ok(())
}
