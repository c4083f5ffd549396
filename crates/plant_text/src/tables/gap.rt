//! Gaps.
ghost use Rattle.std.specs.Prelude.{◌≡◌, length, if◌then◌else◌};
ghost use Rattle.plant_text.specs.Tables.{gap_of, gap_tests};

use crate::fault::{Place, PlantStop, TableName};
use crate::find::{key, read_fields};
use crate::rows::Row;
use crate::scope::{Context, Owner};
use crate::values::{count, reference};
use std::alloc::Global;
use stn_model::Gap;
use stn_model::limits::{MAX_GAP, MAX_PRICE, SMALL_GAP};
use toml::Value;

fn least_gap(second: bool) -> u32
    ensures { result ≡ (if second then 0 else 1) }
{
    if second { 0 } else { 1 }
}

fn longest_gap(third: bool) -> u32
    ensures { result ≡ (if third then 336 else 96) }
{
    if third { MAX_GAP } else { SMALL_GAP }
}

impl Row for Gap {
    ghost tests = { λ scope owner earlier d. gap_tests scope (length earlier) d };

    ghost made = { λ scope owner d. gap_of scope d };

    #[tactic(auto, using(crate::proofs::Faults::faults_append), unfolding(crate::specs::Tables::gap_fields, crate::specs::Tables::gap_tests, crate::specs::Tables::gap_of))]
    fn read(
        _alloc: Global,
        context: &Context,
        _owner: Owner,
        earlier: &[Gap],
        value: &Value,
    ) -> Result<Gap, PlantStop> {
        let place = Place {
            table: TableName::Gap,
            item: earlier.len() as u32 + 1,
            inner: 0,
        };
        let least = least_gap(context.second);
        let longest = longest_gap(context.third);
        read_fields! { value, place;
            unit: (needed StnUnit) = reference(; &context.units);
            from: (needed From) = reference(; &context.tasks);
            to: (needed To) = reference(; &context.tasks);
            periods: (needed Periods) = count(; least, longest, 0);
            cost: (since context.second, Cost) = count(; 0, MAX_PRICE, 0);
        }
        Ok(Gap {
            unit,
            from,
            to,
            periods,
            cost,
        })
    }
}
