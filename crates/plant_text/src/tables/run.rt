//! Runs.
ghost use Rattle.std.specs.Prelude.{◌≡◌, length, None, OnOk, IfErr};
ghost use Rattle.plant_text.specs.Tables.{run_of, run_tests, run_place, run_more_tests, has_run};
ghost use Rattle.plant_text.specs.Tests.{first_fault, Stops};

use crate::fault::{KeyName, Place, PlantStop, TableName};
use crate::find::{key, read_fields};
use crate::rows::Row;
use crate::scope::{Context, Owner};
use crate::values::{count, money, reference};
use std::alloc::Global;
use stn_model::Run;
use stn_model::limits::{MAX_PRICE, MAX_QUANTA};
use toml::Value;

fn has_run(earlier: &[Run], run: &Run) -> bool
    ensures { result ≡ has_run earlier.now run.now }
{
    for other in earlier {
        if other.task == run.task && other.unit == run.unit {
            return true;
        }
    }
    false
}

#[tactic(auto, unfolding(crate::specs::Tables::run_more_tests, crate::specs::Tests::first_fault))]
fn judge(place: Place, earlier: &[Run], run: &Run) -> Result<(), PlantStop>
    requires { place ≡ run_place (length earlier.now) }
    ensures ok { OnOk result (first_fault (run_more_tests earlier.now run.now) ≡ None) }
    ensures err { IfErr result (λ e. Stops e (first_fault (run_more_tests earlier.now run.now))) }
{
    if run.max < run.min {
        return Err(place.stop(15, KeyName::Max));
    }
    if has_run(earlier, run) {
        return Err(place.stop(16, KeyName::Whole));
    }
    Ok(())
}

impl Row for Run {
    ghost tests = { λ scope owner earlier d. run_tests scope earlier d };

    ghost made = { λ scope owner d. run_of scope d };

    #[tactic(auto, using(crate::proofs::Faults::faults_append), unfolding(crate::specs::Tables::run_fields, crate::specs::Tables::run_tests, crate::specs::Tables::run_of))]
    fn read(
        _alloc: Global,
        context: &Context,
        _owner: Owner,
        earlier: &[Run],
        value: &Value,
    ) -> Result<Run, PlantStop> {
        let place = Place {
            table: TableName::Run,
            item: earlier.len() as u32 + 1,
            inner: 0,
        };
        read_fields! { value, place;
            task: (needed Task) = reference(; &context.tasks);
            unit: (needed StnUnit) = reference(; &context.units);
            min: (needed Min) = count(; 1, MAX_QUANTA, 0);
            max: (needed Max) = count(; 1, MAX_QUANTA, 0);
            cost: (optional Cost) = money(; MAX_PRICE);
        }
        let run = Run {
            task,
            unit,
            min,
            max,
            cost,
        };
        judge(place, earlier, &run)?;
        Ok(run)
    }
}
