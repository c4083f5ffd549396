//! Receipts.
ghost use Rattle.std.specs.Prelude.{length};
ghost use Rattle.plant_text.specs.Tables.{receipt_of, receipt_tests};

use crate::fault::{Place, PlantStop, TableName};
use crate::find::{key, read_fields};
use crate::rows::Row;
use crate::scope::{Context, Owner};
use crate::values::{count, reference};
use std::alloc::Global;
use stn_model::Receipt;
use stn_model::limits::MAX_AMOUNT;
use toml::Value;

impl Row for Receipt {
    ghost tests = { λ scope owner earlier d. receipt_tests scope (length earlier) d };

    ghost made = { λ scope owner d. receipt_of scope d };

    #[tactic(auto, using(crate::proofs::Faults::faults_append), unfolding(crate::specs::Tables::receipt_fields, crate::specs::Tables::receipt_tests, crate::specs::Tables::receipt_of))]
    fn read(
        _alloc: Global,
        context: &Context,
        _owner: Owner,
        earlier: &[Receipt],
        value: &Value,
    ) -> Result<Receipt, PlantStop> {
        let place = Place {
            table: TableName::Receipt,
            item: earlier.len() as u32 + 1,
            inner: 0,
        };
        read_fields! { value, place;
            state: (needed State) = reference(; &context.states);
            time: (needed Time) = count(; 0, context.periods, 0);
            amount: (needed Amount) = count(; 1, MAX_AMOUNT as u32, 0);
        }
        Ok(Receipt {
            state,
            time,
            amount: u64::from(amount),
        })
    }
}
