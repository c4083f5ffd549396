//! Limits that change with time.
ghost use Rattle.std.specs.Prelude.{◌≡◌, IfOk, option_map, replicate};
ghost use Rattle.toml.specs.View.{table_view};
ghost use Rattle.plant_text.specs.Tests.{Gives};
ghost use Rattle.plant_text.specs.Fields.{held, field_tests, numbers_of};
ghost use Rattle.plant_text.specs.Fields as kind;
ghost use Rattle.plant_text.specs.Tables.{limits_in};

use crate::fault::{Place, PlantStop};
use crate::find::Key;
use crate::values::{Several, numbers};
use std::alloc::{AllocError, Global};
use stn_model::List;
use toml::Table;

fn widened(alloc: Global, numbers: &[u32]) -> Result<List<u64>, AllocError>
    ensures { IfOk result (λ wide. wide ≡ numbers.now) }
{
    let mut wide = List::new(alloc);
    for number in numbers {
        wide.push(u64::from(*number))?;
    }
    Ok(wide)
}

fn repeated(alloc: Global, number: u32, many: u32) -> Result<List<u64>, AllocError>
    ensures { IfOk result (λ list. list ≡ replicate many number) }
{
    let mut list = List::new(alloc);
    for _ in 0..many {
        list.push(u64::from(number))?;
    }
    Ok(list)
}

fn limits_of(
    alloc: Global,
    limit: Option<u32>,
    limits: Option<List<u32>>,
    many: u32,
) -> Result<List<u64>, AllocError>
    ensures { IfOk result (λ list. list ≡ limits_in limit limits many) }
{
    if let Some(limits) = limits {
        return widened(alloc, limits.as_slice());
    }
    match limit {
        Some(limit) => repeated(alloc, limit, many),
        None => Ok(List::new(alloc)),
    }
}

/// The limits: the list at a key where it is there, or else the one number so many times, or none.
pub fn limits(
    alloc: Global,
    table: &Table,
    place: Place,
    key: Key,
    several: Several,
    limit: Option<u32>,
) -> Result<List<u64>, PlantStop>
    ensures { Gives result (field_tests place (table_view table.now)
        (record { key = key; kind = kind.numbers several.forbidden several.many several.most }))
        (limits_in limit (option_map numbers_of (held (table_view table.now) key)) several.many) }
{
    let list = numbers(alloc, table, place, key, several)?;
    Ok(limits_of(alloc, limit, list, several.many)?)
}
