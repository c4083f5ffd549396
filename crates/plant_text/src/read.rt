//! Reading a plant file.
ghost use Rattle.std.specs.Prelude.{◌≡◌, ◌<◌, length, IfOk, IfErr, Some};
ghost use Rattle.stn_model.specs.Sound.{Sound};
ghost use Rattle.toml.specs.View.{table_view};
ghost use Rattle.plant_text.specs.Document.{document_of, IsNoDocument, plant_tests, plant_of};
ghost use Rattle.plant_text.specs.Tests.{Gives};
ghost use Rattle.plant_text.specs.Reading.{ReadsPlant, reading};

use crate::document::{TOP, is_third, read_document};
use crate::fault::{KeyName, PlantStop};
use std::alloc::Global;
use stn_model::Plant;
use toml::Table;

/// The longest plant file, in bytes.
pub const MAX_BYTES: usize = 4_194_304;

/// The longest that is not of version 3.
const SMALL_BYTES: usize = 1_048_576;

fn document_of(alloc: Global, bytes: &[u8]) -> Result<Table, PlantStop>
    ensures ok { IfOk result (λ t. document_of bytes.now ≡ Some (table_view t)) }
    ensures err { IfErr result (IsNoDocument bytes.now) }
{
    let text = match std::str::from_utf8(bytes) {
        Ok(text) => text,
        Err(_) => return Err(TOP.stop(2, KeyName::Whole)),
    };
    match toml::table_from_str(alloc, text) {
        Ok(table) => Ok(table),
        Err(e) => {
            if e.is_memory() {
                Err(PlantStop::Memory)
            } else {
                Err(TOP.stop(2, KeyName::Whole))
            }
        }
    }
}

#[tactic(auto, unfolding(crate::specs::Document::plant_tests, crate::specs::Document::plant_of, crate::specs::Tests::first_fault))]
fn read(alloc: Global, bytes: &[u8]) -> Result<Plant, PlantStop>
    ensures { Gives result (plant_tests bytes.now) (plant_of bytes.now) }
{
    if SMALL_BYTES < bytes.len() {
        return read_long(alloc, bytes);
    }
    let document = document_of(alloc, bytes)?;
    read_document(alloc, &document)
}

/// The plant of a file that is too long unless it is of version 3.
#[tactic(auto, unfolding(crate::specs::Document::plant_tests, crate::specs::Document::plant_of, crate::specs::Tests::first_fault))]
fn read_long(alloc: Global, bytes: &[u8]) -> Result<Plant, PlantStop>
    requires { 1048576 < length bytes.now }
    ensures { Gives result (plant_tests bytes.now) (plant_of bytes.now) }
{
    if MAX_BYTES < bytes.len() {
        return Err(TOP.stop(1, KeyName::Whole));
    }
    let document = match document_of(alloc, bytes) {
        Ok(document) => document,
        Err(PlantStop::Memory) => return Err(PlantStop::Memory),
        Err(PlantStop::Fault(_)) => return Err(TOP.stop(1, KeyName::Whole)),
    };
    if !is_third(&document) {
        return Err(TOP.stop(1, KeyName::Whole));
    }
    read_document(alloc, &document)
}

/// The plant of a plant file, or the first fault of it.
///
/// The bytes are a TOML document, of at most 1,048,576 bytes, or 4,194,304 where it is of version 3. The
/// answer takes time in proportion to the bytes, times the keys of a table. A fault says its kind and its
/// place; want of memory may come at any point in its place.
pub fn read_plant(alloc: Global, bytes: &[u8]) -> Result<Plant, PlantStop>
    // The plant of the bytes, or the first fault: a fault comes exactly where there is one.
    ensures reads { ReadsPlant result (reading bytes.now) }

    // The plant is sound.
    ensures sound { IfOk result Sound }
{
    read(alloc, bytes)
}
