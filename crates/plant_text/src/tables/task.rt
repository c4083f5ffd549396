//! Tasks.
ghost use Rattle.std.specs.Prelude.{◌≡◌, length, map, IfOk};
ghost use Rattle.plant_text.specs.Tables.{task_tests, task_of, input_of, duration_with};

use crate::fault::{Place, PlantStop, TableName};
use crate::find::{key, read_fields};
use crate::labels::{colour, label};
use crate::rows::Row;
use crate::scope::{Context, Owner};
use crate::tables::side::sides;
use crate::values::{count, name, rows};
use std::alloc::{AllocError, Global};
use stn_model::limits::{MAX_QUANTUM, MAX_SIDE};
use stn_model::{Input, List, Output, Task};
use toml::Value;

#[tactic(auto, unfolding(stn_model::specs::Plant::duration_of))]
fn longest(outputs: &[Output]) -> u32
    ensures { result ≡ duration_with outputs.now }
{
    let mut longest = 0;
    for output in outputs {
        longest = longest.max(output.delay);
    }
    longest
}

fn inputs_of(alloc: Global, outputs: &[Output]) -> Result<List<Input>, AllocError>
    ensures { IfOk result (λ inputs. inputs ≡ map input_of outputs.now) }
{
    let mut inputs = List::new(alloc);
    for output in outputs {
        inputs.push(Input {
            state: output.state,
            amount: output.amount,
        })?;
    }
    Ok(inputs)
}

fn owner_in(table: TableName, item: u32, duration: u32) -> Owner
    ensures { result ≡ record { table = table; item = item; duration = duration } }
{
    Owner {
        table,
        item,
        duration,
    }
}

impl Row for Task {
    ghost tests = { λ scope owner earlier d. task_tests scope (length earlier) d };

    ghost made = { λ scope owner d. task_of scope d };

    #[tactic(auto, using(crate::proofs::Faults::faults_append), unfolding(crate::specs::Tables::task_fields, crate::specs::Tables::task_tests, crate::specs::Tables::task_of, crate::specs::Tables::outputs_of))]
    fn read(
        alloc: Global,
        context: &Context,
        _owner: Owner,
        earlier: &[Task],
        value: &Value,
    ) -> Result<Task, PlantStop> {
        let item = earlier.len() as u32 + 1;
        let place = Place {
            table: TableName::Task,
            item,
            inner: 0,
        };
        read_fields! { value, place;
            name: (needed Name) = name(alloc; &context.tasks, earlier.len());
            label: (since context.third, Label) = label(alloc;);
            colour: (since context.third, Colour) = colour(alloc;);
            quantum: (needed Quantum) = count(; 1, MAX_QUANTUM, 0);
            inputs: (needed Input) = sides(alloc; context, Owner { table: TableName::Input, item, duration: 0 }, quantum);
            outputs: (needed Output) = sides(alloc; context, Owner { table: TableName::Output, item, duration: 0 }, quantum);
            draws: (optional Draw) = rows(alloc; MAX_SIDE, context, Owner { table: TableName::Draw, item, duration: longest(outputs.as_slice()) });
        }
        Ok(Task {
            name,
            label,
            colour,
            quantum,
            inputs: inputs_of(alloc, inputs.as_slice())?,
            outputs,
            draws,
        })
    }
}
