//! Deliveries.
ghost use Rattle.std.specs.Prelude.{length};
ghost use Rattle.plant_text.specs.Tables.{delivery_of, delivery_tests};

use crate::fault::{Place, PlantStop, TableName};
use crate::find::{key, read_fields};
use crate::rows::Row;
use crate::scope::{Context, Owner};
use crate::values::{count, money, reference};
use std::alloc::Global;
use stn_model::Delivery;
use stn_model::limits::MAX_AMOUNT;
use toml::Value;

impl Row for Delivery {
    ghost tests = { λ scope owner earlier d. delivery_tests scope (length earlier) d };

    ghost made = { λ scope owner d. delivery_of scope d };

    #[tactic(auto, using(crate::proofs::Faults::faults_append), unfolding(crate::specs::Tables::delivery_fields, crate::specs::Tables::delivery_tests, crate::specs::Tables::delivery_of))]
    fn read(
        _alloc: Global,
        context: &Context,
        _owner: Owner,
        earlier: &[Delivery],
        value: &Value,
    ) -> Result<Delivery, PlantStop> {
        let place = Place {
            table: TableName::Delivery,
            item: earlier.len() as u32 + 1,
            inner: 0,
        };
        read_fields! { value, place;
            state: (needed State) = reference(; &context.states);
            time: (needed Time) = count(; 0, context.periods, 0);
            amount: (needed Amount) = count(; 1, MAX_AMOUNT as u32, 0);
            payment: (optional Payment) = money(; MAX_AMOUNT as u32);
        }
        Ok(Delivery {
            state,
            time,
            amount: u64::from(amount),
            payment,
        })
    }
}
