//! Utilities.
ghost use Rattle.std.specs.Prelude.{length};
ghost use Rattle.plant_text.specs.Tables.{utility_of, utility_tests};

use crate::fault::{Place, PlantStop, TableName};
use crate::find::{has, key, read_fields};
use crate::labels::label;
use crate::rows::Row;
use crate::scope::{Context, Owner};
use crate::tables::limits::limits;
use crate::values::{amounts, count_if_there, money, name, several};
use std::alloc::Global;
use stn_model::Utility;
use stn_model::limits::{MAX_AMOUNT, MAX_PRICE};
use toml::Value;

impl Row for Utility {
    ghost tests = { λ scope owner earlier d. utility_tests scope (length earlier) d };

    ghost made = { λ scope owner d. utility_of scope d };

    #[tactic(auto, using(crate::proofs::Faults::faults_append), unfolding(crate::specs::Tables::utility_fields, crate::specs::Tables::utility_tests, crate::specs::Tables::utility_of))]
    fn read(
        alloc: Global,
        context: &Context,
        _owner: Owner,
        earlier: &[Utility],
        value: &Value,
    ) -> Result<Utility, PlantStop> {
        let place = Place {
            table: TableName::Utility,
            item: earlier.len() as u32 + 1,
            inner: 0,
        };
        let listed = has(value, key!(since context.second, Limits));
        let several = several!(value, unless Limit; context.periods, MAX_AMOUNT as u32);
        let by_period = several!(value, unless Rate; context.periods, MAX_PRICE);
        read_fields! { value, place;
            name: (needed Name) = name(alloc; &context.utilities, earlier.len());
            label: (since context.third, Label) = label(alloc;);
            limit: (needed Limit unless listed) = count_if_there(; 0, MAX_AMOUNT as u32);
            limits: (since context.second, Limits) = limits(alloc; several, limit);
            rate: (optional Rate) = money(; MAX_PRICE);
            rates: (since context.third, Rates) = amounts(alloc; by_period);
        }
        Ok(Utility {
            name,
            label,
            limits,
            rate,
            rates,
        })
    }
}
