//! The tables of states, utilities, units, runs, gaps, receipts, deliveries and outages.
ghost use Rattle.std.specs.Prelude.{◌≡◌};
ghost use Rattle.stn_model.specs.Sound.{SoundState, SoundUtility, SoundUnit, SoundRun, SoundGap, SoundReceipt, SoundDelivery, SoundOutage};
ghost use Rattle.plant_make.specs.Printed.{state_entries, utility_entries, unit_entries, run_entries, gap_entries, receipt_entries, delivery_entries, outage_entries};

use crate::naming::{put_label, put_last, put_name, put_state, put_task, put_unit};
use crate::rows::Row;
use crate::table::{put, put_some};
use crate::values::{number_value, put_limits, put_rates, short_value, until_value};
use crate::written::Written;
use plant_text::KeyName;
use std::alloc::Global;
use stn_model::{Delivery, Gap, Outage, Plant, Receipt, Run, State, StnUnit, Utility};
use toml::{Table, Value};

impl Row for State {
    ghost fits = { λ plant quantum state. SoundState plant.periods state };

    ghost entries = { λ plant quantum state. state_entries state };

    #[tactic(auto, unfolding(crate::specs::Printed::state_entries))]
    fn put_keys(&self, alloc: Global, _plant: &Plant, _quantum: u32, table: &mut Table) -> Written {
        put_name(alloc, table, KeyName::Name, self.name.as_slice())?;
        put_label(alloc, table, self.label.as_slice())?;
        let initial = number_value(self.initial);
        put(alloc, table, KeyName::Initial, initial)?;
        put_limits(alloc, table, self.limits.as_slice())?;
        let price = Value::Integer(self.price);
        put(alloc, table, KeyName::Price, price)?;
        let holding = Value::Integer(self.holding);
        put(alloc, table, KeyName::Holding, holding)
    }
}

impl Row for Utility {
    ghost fits = { λ plant quantum utility. SoundUtility plant.periods utility };

    ghost entries = { λ plant quantum utility. utility_entries utility };

    #[tactic(auto, unfolding(crate::specs::Printed::utility_entries))]
    fn put_keys(&self, alloc: Global, _plant: &Plant, _quantum: u32, table: &mut Table) -> Written {
        put_name(alloc, table, KeyName::Name, self.name.as_slice())?;
        put_label(alloc, table, self.label.as_slice())?;
        put_limits(alloc, table, self.limits.as_slice())?;
        put_rates(alloc, table, self)
    }
}

impl Row for StnUnit {
    ghost fits = { λ plant quantum unit. SoundUnit plant unit };

    ghost entries = { λ plant quantum unit. unit_entries plant unit };

    #[tactic(auto, unfolding(crate::specs::Printed::unit_entries))]
    fn put_keys(&self, alloc: Global, plant: &Plant, _quantum: u32, table: &mut Table) -> Written {
        put_name(alloc, table, KeyName::Name, self.name.as_slice())?;
        put_label(alloc, table, self.label.as_slice())?;
        put_last(alloc, table, plant, self.last)?;
        put_some(alloc, table, KeyName::Until, until_value(self.last))
    }
}

impl Row for Run {
    ghost fits = { λ plant quantum run. SoundRun plant run };

    ghost entries = { λ plant quantum run. run_entries plant run };

    #[tactic(auto, unfolding(crate::specs::Printed::run_entries))]
    fn put_keys(&self, alloc: Global, plant: &Plant, _quantum: u32, table: &mut Table) -> Written {
        put_task(alloc, table, KeyName::Task, plant, self.task)?;
        put_unit(alloc, table, plant, self.unit)?;
        put(alloc, table, KeyName::Min, short_value(self.min))?;
        put(alloc, table, KeyName::Max, short_value(self.max))?;
        put(alloc, table, KeyName::Cost, Value::Integer(self.cost))
    }
}

impl Row for Gap {
    ghost fits = { λ plant quantum gap. SoundGap plant gap };

    ghost entries = { λ plant quantum gap. gap_entries plant gap };

    #[tactic(auto, unfolding(crate::specs::Printed::gap_entries))]
    fn put_keys(&self, alloc: Global, plant: &Plant, _quantum: u32, table: &mut Table) -> Written {
        put_unit(alloc, table, plant, self.unit)?;
        put_task(alloc, table, KeyName::From, plant, self.from)?;
        put_task(alloc, table, KeyName::To, plant, self.to)?;
        put(alloc, table, KeyName::Periods, short_value(self.periods))?;
        put(alloc, table, KeyName::Cost, short_value(self.cost))
    }
}

impl Row for Receipt {
    ghost fits = { λ plant quantum receipt. SoundReceipt plant receipt };

    ghost entries = { λ plant quantum receipt. receipt_entries plant receipt };

    #[tactic(auto, unfolding(crate::specs::Printed::receipt_entries))]
    fn put_keys(&self, alloc: Global, plant: &Plant, _quantum: u32, table: &mut Table) -> Written {
        put_state(alloc, table, plant, self.state)?;
        put(alloc, table, KeyName::Time, short_value(self.time))?;
        put(alloc, table, KeyName::Amount, number_value(self.amount))
    }
}

impl Row for Delivery {
    ghost fits = { λ plant quantum delivery. SoundDelivery plant delivery };

    ghost entries = { λ plant quantum delivery. delivery_entries plant delivery };

    #[tactic(auto, unfolding(crate::specs::Printed::delivery_entries))]
    fn put_keys(&self, alloc: Global, plant: &Plant, _quantum: u32, table: &mut Table) -> Written {
        put_state(alloc, table, plant, self.state)?;
        put(alloc, table, KeyName::Time, short_value(self.time))?;
        put(alloc, table, KeyName::Amount, number_value(self.amount))?;
        put(alloc, table, KeyName::Payment, Value::Integer(self.payment))
    }
}

impl Row for Outage {
    ghost fits = { λ plant quantum outage. SoundOutage plant outage };

    ghost entries = { λ plant quantum outage. outage_entries plant outage };

    #[tactic(auto, unfolding(crate::specs::Printed::outage_entries))]
    fn put_keys(&self, alloc: Global, plant: &Plant, _quantum: u32, table: &mut Table) -> Written {
        put_unit(alloc, table, plant, self.unit)?;
        put(alloc, table, KeyName::From, short_value(self.from))?;
        put(alloc, table, KeyName::To, short_value(self.to))
    }
}
