//! The tables of tasks, and of their inputs, outputs and draws.
ghost use Rattle.std.specs.Prelude.{◌≡◌, ◌<◌, ◌≤◌, length};
ghost use Rattle.stn_model.specs.Plant.{duration_of};
ghost use Rattle.stn_model.specs.Sound.{SoundTask, SoundInput, SoundOutput, SoundDraw};
ghost use Rattle.plant_make.specs.Printed.{task_entries, input_entries, output_entries, draw_entries};

use crate::naming::{put_colour, put_label, put_name, put_state, put_utility};
use crate::rows::{Row, put_rows};
use crate::table::put;
use crate::values::{part_value, short_value, shorts_value};
use crate::written::Written;
use plant_text::KeyName;
use std::alloc::Global;
use stn_model::{Draw, Input, Output, Plant, Task};
use toml::Table;

impl Row for Input {
    ghost fits = { λ plant quantum input. (1 ≤ quantum) × SoundInput plant quantum input };

    ghost entries = { λ plant quantum input. input_entries plant quantum input };

    #[tactic(auto, unfolding(crate::specs::Printed::input_entries))]
    fn put_keys(&self, alloc: Global, plant: &Plant, quantum: u32, table: &mut Table) -> Written {
        put_state(alloc, table, plant, self.state)?;
        let part = part_value(alloc, self.amount, quantum)?;
        put(alloc, table, KeyName::Part, part)
    }
}

impl Row for Output {
    ghost fits = { λ plant quantum output. (1 ≤ quantum) × SoundOutput plant quantum output };

    ghost entries = { λ plant quantum output. output_entries plant quantum output };

    #[tactic(auto, unfolding(crate::specs::Printed::output_entries))]
    fn put_keys(&self, alloc: Global, plant: &Plant, quantum: u32, table: &mut Table) -> Written {
        put_state(alloc, table, plant, self.state)?;
        let part = part_value(alloc, self.amount, quantum)?;
        put(alloc, table, KeyName::Part, part)?;
        put(alloc, table, KeyName::Delay, short_value(self.delay))
    }
}

impl Row for Draw {
    ghost fits = { λ plant quantum draw. draw.utility < length plant.utilities };

    ghost entries = { λ plant quantum draw. draw_entries plant draw };

    #[tactic(auto, unfolding(crate::specs::Printed::draw_entries))]
    fn put_keys(&self, alloc: Global, plant: &Plant, _quantum: u32, table: &mut Table) -> Written {
        put_utility(alloc, table, plant, self.utility)?;
        let fixed = shorts_value(alloc, self.fixed.as_slice())?;
        put(alloc, table, KeyName::Fixed, fixed)?;
        let each = shorts_value(alloc, self.each.as_slice())?;
        put(alloc, table, KeyName::Each, each)
    }
}

impl Row for Task {
    ghost fits = { λ plant quantum task. SoundTask plant task };

    ghost entries = { λ plant quantum task. task_entries plant task };

    #[tactic(auto, unfolding(crate::specs::Printed::task_entries))]
    fn put_keys(&self, alloc: Global, plant: &Plant, _quantum: u32, table: &mut Table) -> Written {
        let quantum = self.quantum;
        put_name(alloc, table, KeyName::Name, self.name.as_slice())?;
        put_label(alloc, table, self.label.as_slice())?;
        put_colour(alloc, table, self.colour.as_slice())?;
        put(alloc, table, KeyName::Quantum, short_value(quantum))?;
        put_rows(alloc, table, KeyName::Input, plant, quantum, &self.inputs)?;
        put_rows(alloc, table, KeyName::Output, plant, quantum, &self.outputs)?;
        put_rows(alloc, table, KeyName::Draw, plant, quantum, &self.draws)?;
        Ok(())
    }
}
