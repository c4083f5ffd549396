//! States.
ghost use Rattle.std.specs.Prelude.{length};
ghost use Rattle.plant_text.specs.Tables.{state_tests, state_of};

use crate::fault::{Place, PlantStop, TableName};
use crate::find::{key, read_fields};
use crate::labels::label;
use crate::rows::Row;
use crate::scope::{Context, Owner};
use crate::tables::limits::limits;
use crate::values::{count, count_if_there, money, name, several};
use std::alloc::Global;
use stn_model::State;
use stn_model::limits::{MAX_AMOUNT, MAX_PRICE};
use toml::Value;

impl Row for State {
    ghost tests = { λ scope owner earlier d. state_tests scope (length earlier) d };

    ghost made = { λ scope owner d. state_of scope d };

    #[tactic(auto, using(crate::proofs::Faults::faults_append), unfolding(crate::specs::Tables::state_fields, crate::specs::Tables::state_tests, crate::specs::Tables::state_of))]
    fn read(
        alloc: Global,
        context: &Context,
        _owner: Owner,
        earlier: &[State],
        value: &Value,
    ) -> Result<State, PlantStop> {
        let number = earlier.len();
        let place = Place {
            table: TableName::State,
            item: number as u32 + 1,
            inner: 0,
        };
        let several = several!(value, unless Limit; context.periods + 1, MAX_AMOUNT as u32);
        read_fields! { value, place;
            name: (needed Name) = name(alloc; &context.states, number);
            label: (since context.third, Label) = label(alloc;);
            initial: (optional Initial) = count(; 0, MAX_AMOUNT as u32, 0);
            limit: (optional Limit) = count_if_there(; 0, MAX_AMOUNT as u32);
            limits: (since context.second, Limits) = limits(alloc; several, limit);
            price: (optional Price) = money(; MAX_PRICE);
            holding: (optional Holding) = money(; MAX_PRICE);
        }
        Ok(State {
            name,
            label,
            initial: u64::from(initial),
            limits,
            price,
            holding,
        })
    }
}
