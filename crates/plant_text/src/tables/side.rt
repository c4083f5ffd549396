//! The inputs and outputs of a task.
ghost use Rattle.std.specs.Prelude.{◌≡◌, ◌<◌, ◌≤◌, All, None, Some, [], ◌∷◌, not, length, map, if◌then◌else◌, IfOk};
ghost use Rattle.fraction.specs.Fractions.{IsProper, is_whole};
ghost use Rattle.toml.specs.View.{view, table_view};
ghost use Rattle.plant_text.specs.Tests.{Gives, rows_tests};
ghost use Rattle.plant_text.specs.Fields.{fault, field_tests, kind_tests, at_key, items_of};
ghost use Rattle.plant_text.specs.Fields as kind;
ghost use Rattle.plant_text.specs.Scope.{scope_of};
ghost use Rattle.plant_text.specs.Tables.{side_tests, side_of, is_output, output_of, share_tests, whole_tests, sides_tests, outputs_in};

use crate::fault::{KeyName, Place, PlantStop, TableName};
use crate::find::{Key, key, present, read_fields};
use crate::rows::Row;
use crate::scope::{Context, Owner};
use crate::values::{count, part, reference, rows_in};
use fraction::{Fraction, sums_to_one};
use std::alloc::{AllocError, Global};
use stn_model::limits::{MAX_DELAY, MAX_SIDE};
use stn_model::{List, Output};
use toml::{Table, Value};

/// What stands on a side of a task: a state, the part of the quantum, and for an output the delay.
#[derive(Clone, Copy)]
pub struct SidePart {
    pub state: u32,
    pub part: Fraction,
    pub delay: u32,
}

fn is_output(table: TableName) -> bool
    ensures { result ≡ is_output table }
{
    matches!(table, TableName::Output)
}

impl Row for SidePart {
    ghost tests = { λ scope owner earlier d. side_tests scope owner (length earlier) d };

    ghost made = { λ scope owner d. side_of scope (is_output owner.table) d };

    #[tactic(auto, using(crate::proofs::Faults::faults_append), unfolding(crate::specs::Tables::side_fields, crate::specs::Tables::side_tests, crate::specs::Tables::side_of))]
    fn read(
        _alloc: Global,
        context: &Context,
        owner: Owner,
        earlier: &[SidePart],
        value: &Value,
    ) -> Result<SidePart, PlantStop> {
        let place = Place {
            table: owner.table,
            item: owner.item,
            inner: earlier.len() as u32 + 1,
        };
        let output = is_output(owner.table);
        read_fields! { value, place;
            state: (needed State) = reference(; &context.states);
            part: (needed Part) = part(;);
            delay: (of output, Delay) = count(; 1, MAX_DELAY, 0);
        }
        Ok(SidePart { state, part, delay })
    }
}

#[tactic(auto, unfolding(crate::specs::Tests::first_fault))]
fn share(owner: Owner, quantum: u32, inner: u32, side: &SidePart) -> Result<Output, PlantStop>
    requires { 0 < side.now.part.under }
    ensures { Gives result
        ((
          not (is_whole quantum side.now.part),
          fault 13 (record { table = owner.table; item = owner.item; inner = inner }) KeyName.Part,
        ) ∷ [])
        (output_of quantum side.now) }
{
    let place = Place {
        table: owner.table,
        item: owner.item,
        inner,
    };
    match side.part.times(quantum) {
        Some(amount) => Ok(Output {
            state: side.state,
            amount,
            delay: side.delay,
        }),
        None => Err(place.stop(13, KeyName::Part)),
    }
}

fn whole_shares(
    alloc: Global,
    owner: Owner,
    quantum: u32,
    sides: &[SidePart],
) -> Result<List<Output>, PlantStop>
    requires few { length sides.now ≤ 8 }
    requires proper { All (λ side. IsProper side.part) sides.now }
    ensures { Gives result (rows_tests (whole_tests owner quantum) (output_of quantum) [] sides.now)
        (map (output_of quantum) sides.now) }
{
    let mut outputs = List::new(alloc);
    for side in sides {
        let output = share(owner, quantum, outputs.len() as u32 + 1, side)?;
        outputs.push(output)?;
    }
    Ok(outputs)
}

fn parts_of(alloc: Global, sides: &[SidePart]) -> Result<Vec<Fraction>, AllocError>
    ensures { IfOk result (λ parts. parts.items ≡ map (λ side. side.part) sides.now) }
{
    sides.iter().map(|side| side.part).collect(alloc)
}

/// The amounts of the items of a side, whose parts have to sum to one.
#[tactic(auto, unfolding(crate::specs::Tables::share_tests, crate::specs::Tests::first_fault))]
fn shares(
    alloc: Global,
    owner: Owner,
    quantum: u32,
    sides: &[SidePart],
) -> Result<List<Output>, PlantStop>
    requires few { length sides.now ≤ 8 }
    requires proper { All (λ side. IsProper side.part) sides.now }
    ensures { Gives result (share_tests owner quantum sides.now)
        (map (output_of quantum) sides.now) }
{
    let place = Place {
        table: owner.table,
        item: owner.item,
        inner: 0,
    };
    let parts = parts_of(alloc, sides)?;
    if !sums_to_one(parts.as_slice()) {
        return Err(place.stop(12, KeyName::Whole));
    }
    whole_shares(alloc, owner, quantum, sides)
}

fn sides_in(
    alloc: Global,
    value: &Value,
    place: Place,
    name: KeyName,
    context: &Context,
    owner: Owner,
    quantum: u32,
) -> Result<List<Output>, PlantStop>
    requires { context.now.periods ≤ 336 }
    ensures { Gives result
        (kind_tests place name (kind.tables 8 (sides_tests (scope_of context.now) owner quantum))
        (view value.now)) (outputs_in (scope_of context.now) (is_output owner.table) quantum
        (items_of (view value.now))) }
{
    let sides: List<SidePart> = rows_in(alloc, value, place, name, MAX_SIDE, context, owner)?;
    shares(alloc, owner, quantum, sides.as_slice())
}

/// The inputs or outputs at a key, with their amounts; an input has the delay 0.
#[tactic(auto, unfolding(crate::specs::Fields::value_tests, crate::specs::Tests::first_fault))]
pub fn sides(
    alloc: Global,
    table: &Table,
    place: Place,
    key: Key,
    context: &Context,
    owner: Owner,
    quantum: u32,
) -> Result<List<Output>, PlantStop>
    requires { context.now.periods ≤ 336 }
    ensures { Gives result (field_tests place (table_view table.now)
        (record {
          key = key;
          kind = kind.tables 8 (sides_tests (scope_of context.now) owner quantum);
        })) (outputs_in (scope_of context.now) (is_output owner.table) quantum
        (at_key items_of [] (table_view table.now) key)) }
{
    match present(table, place, key)? {
        None => Ok(List::new(alloc)),
        Some(value) => sides_in(alloc, value, place, key.name, context, owner, quantum),
    }
}
