//! Units, and the batches that held them last.
ghost use Rattle.std.specs.Prelude.{◌≡◌, ◌≤◌, ◌<◌, pos, negsuc, not, length, map, option_map, None, OnOk, IfErr};
ghost use Rattle.toml.specs.View.{view};
ghost use Rattle.plant_text.specs.Tests.{first_fault, numbered_tests, Stops};
ghost use Rattle.plant_text.specs.Fields.{held, members_of, since};
ghost use Rattle.plant_text.specs.Names.{places_in};
ghost use Rattle.plant_text.specs.Scope.{scope_of};
ghost use Rattle.plant_text.specs.Tables.{unit_of, unit_tests, unit_place, is_stray, last_tests};

use crate::fault::{KeyName, Place, PlantStop, TableName};
use crate::find::{find, has, key, read_fields};
use crate::labels::label;
use crate::rows::Row;
use crate::scope::{Context, Owner};
use crate::values::{Span, name, place_if_there, time};
use std::alloc::Global;
use stn_model::limits::MIN_UNTIL;
use stn_model::{Last, StnUnit};
use toml::Value;

fn unit_place(number: usize) -> Place
    requires { number < 4096 }
    ensures { result ≡ unit_place number }
{
    Place {
        table: TableName::StnUnit,
        item: number as u32 + 1,
        inner: 0,
    }
}

fn last_of(task: Option<u32>, until: i32) -> Option<Last>
    ensures { result ≡ option_map (λ number. record { task = number; until = until }) task }
{
    match task {
        Some(task) => Some(Last { task, until }),
        None => None,
    }
}

// The range of the end of the batch that held a unit last; it stands alone where its task is not told.
fn until_span(told: bool, periods: u32) -> Span
    requires { periods ≤ 336 }
    ensures { result ≡ record { alone = not told; low = negsuc 335; high = pos periods } }
{
    Span {
        alone: !told,
        low: MIN_UNTIL,
        high: periods as i32,
    }
}

impl Row for StnUnit {
    ghost tests = { λ scope owner earlier d. unit_tests scope (length earlier) d };

    ghost made = { λ scope owner d. unit_of scope d };

    #[tactic(auto, using(crate::proofs::Faults::faults_append), unfolding(crate::specs::Tables::unit_fields, crate::specs::Tables::unit_tests, crate::specs::Tables::unit_of))]
    fn read(
        alloc: Global,
        context: &Context,
        _owner: Owner,
        earlier: &[StnUnit],
        value: &Value,
    ) -> Result<StnUnit, PlantStop> {
        let place = Place {
            table: TableName::StnUnit,
            item: earlier.len() as u32 + 1,
            inner: 0,
        };
        let told = has(value, key!(optional Last));
        let span = until_span(told, context.periods);
        read_fields! { value, place;
            name: (needed Name) = name(alloc; &context.units, earlier.len());
            label: (since context.third, Label) = label(alloc;);
            last: (since context.third, Last) = place_if_there(; &context.tasks);
            until: (since context.third, Until) = time(; span);
        }
        Ok(StnUnit {
            name,
            label,
            last: last_of(last, until),
        })
    }
}

// Whether a unit names a task that is not declared.
fn is_stray(context: &Context, unit: &Value) -> bool
    ensures { result ≡ is_stray (places_in context.now.tasks)
        (held (members_of (view unit.now)) (since context.now.third KeyName.Last)) }
{
    let table = match unit.as_table() {
        Some(table) => table,
        None => return false,
    };
    let last = match find(table, key!(since context.third, Last)) {
        Some(last) => last,
        None => return false,
    };
    let task = last.as_str().unwrap_or("");
    context.tasks.place_of(task).is_none()
}

#[tactic(auto, unfolding(crate::specs::Tables::last_tests, crate::specs::Tests::first_fault))]
fn check_last(context: &Context, number: usize, unit: &Value) -> Result<(), PlantStop>
    requires { number < 4096 }
    ensures ok { OnOk result
        (first_fault (last_tests (scope_of context.now) number (view unit.now)) ≡ None) }
    ensures err { IfErr result
        (λ e. Stops e (first_fault (last_tests (scope_of context.now) number (view unit.now)))) }
{
    if is_stray(context, unit) {
        return Err(unit_place(number).stop(10, KeyName::Last));
    }
    Ok(())
}

/// Looks whether the task is declared of each batch that held a unit last.
pub fn check_lasts(context: &Context, units: &[Value]) -> Result<(), PlantStop>
    requires { length units.now ≤ 4096 }
    ensures ok { OnOk result (first_fault
        (numbered_tests (last_tests (scope_of context.now)) 0 (map view units.now)) ≡ None) }
    ensures err { IfErr result (λ e. Stops e (first_fault
        (numbered_tests (last_tests (scope_of context.now)) 0 (map view units.now)))) }
{
    for (number, unit) in units.iter().enumerate() {
        check_last(context, number, unit)?;
    }
    Ok(())
}
