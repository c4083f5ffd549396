//! Outages.
ghost use Rattle.std.specs.Prelude.{length};
ghost use Rattle.plant_text.specs.Tables.{outage_of, outage_tests};

use crate::fault::{KeyName, Place, PlantStop, TableName};
use crate::find::{key, read_fields};
use crate::rows::Row;
use crate::scope::{Context, Owner};
use crate::values::{count, reference};
use std::alloc::Global;
use stn_model::Outage;
use toml::Value;

impl Row for Outage {
    ghost tests = { λ scope owner earlier d. outage_tests scope (length earlier) d };

    ghost made = { λ scope owner d. outage_of scope d };

    #[tactic(auto, using(crate::proofs::Faults::faults_append), unfolding(crate::specs::Tables::outage_fields, crate::specs::Tables::outage_tests, crate::specs::Tables::outage_of, crate::specs::Tables::outage_more_tests, crate::specs::Tests::first_fault))]
    fn read(
        _alloc: Global,
        context: &Context,
        _owner: Owner,
        earlier: &[Outage],
        value: &Value,
    ) -> Result<Outage, PlantStop> {
        let place = Place {
            table: TableName::Outage,
            item: earlier.len() as u32 + 1,
            inner: 0,
        };
        read_fields! { value, place;
            unit: (needed StnUnit) = reference(; &context.units);
            from: (needed From) = count(; 0, context.periods.saturating_sub(1), 0);
            to: (needed To) = count(; 1, context.periods, 0);
        }
        if from >= to {
            return Err(place.stop(22, KeyName::To));
        }
        Ok(Outage { unit, from, to })
    }
}
