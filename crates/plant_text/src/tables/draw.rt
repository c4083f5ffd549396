//! The draws of a task.
ghost use Rattle.std.specs.Prelude.{◌≡◌, [], length};
ghost use Rattle.toml.specs.View.{table_view};
ghost use Rattle.plant_text.specs.Tests.{Gives};
ghost use Rattle.plant_text.specs.Fields.{field_tests, at_key, numbers_of};
ghost use Rattle.plant_text.specs.Fields as kind;
ghost use Rattle.plant_text.specs.Tables.{draw_tests, draw_of};

use crate::fault::{Place, PlantStop};
use crate::find::{Key, key, read_fields};
use crate::rows::Row;
use crate::scope::{Context, Owner};
use crate::values::{Several, numbers, reference};
use std::alloc::Global;
use stn_model::limits::MAX_PRICE;
use stn_model::{Draw, List};
use toml::{Table, Value};

fn numbers_or_none(
    alloc: Global,
    table: &Table,
    place: Place,
    key: Key,
    several: Several,
) -> Result<List<u32>, PlantStop>
    ensures { Gives result (field_tests place (table_view table.now)
        (record { key = key; kind = kind.numbers several.forbidden several.many several.most }))
        (at_key numbers_of [] (table_view table.now) key) }
{
    match numbers(alloc, table, place, key, several)? {
        Some(list) => Ok(list),
        None => Ok(List::new(alloc)),
    }
}

impl Row for Draw {
    ghost tests = { λ scope owner earlier d. draw_tests scope owner (length earlier) d };

    ghost made = { λ scope owner d. draw_of scope d };

    #[tactic(auto, using(crate::proofs::Faults::faults_append), unfolding(crate::specs::Tables::draw_fields, crate::specs::Tables::draw_tests, crate::specs::Tables::draw_of))]
    fn read(
        alloc: Global,
        context: &Context,
        owner: Owner,
        earlier: &[Draw],
        value: &Value,
    ) -> Result<Draw, PlantStop> {
        let place = Place {
            table: owner.table,
            item: owner.item,
            inner: earlier.len() as u32 + 1,
        };
        let several = Several {
            forbidden: false,
            many: owner.duration,
            most: MAX_PRICE,
        };
        read_fields! { value, place;
            utility: (needed Utility) = reference(; &context.utilities);
            fixed: (needed Fixed) = numbers_or_none(alloc; several);
            each: (needed Each) = numbers_or_none(alloc; several);
        }
        Ok(Draw {
            utility,
            fixed,
            each,
        })
    }
}
