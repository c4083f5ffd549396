//! The slots of a unit's setup.
ghost use Rattle.std.specs.Prelude.{◌≡◌, ◌≤◌, ◌++◌, length, map, IfOk, OnOk};
ghost use Rattle.std.specs.List.{flat_map, list_any};
ghost use Rattle.stn_model.specs.Sound.{Sound};
ghost use Rattle.setup_slots.specs.declared.setup.SetupSlot.TheVariants.{First};
ghost use Rattle.setup_slots.specs.Slots.{task_slots, is_of, starts_in, is_over, has_slots, setup_tasks, is_change, changes_between, changes_among, setup_slots};

use crate::setup::SetupSlot;
use crate::task_slot::TaskSlot;
use std::alloc::{AllocError, Global};
use stn_model::{Plant, gap_of};

// The tasks that have slots on a unit, in the plant's order.
pub fn setup_tasks(
    alloc: Global,
    plant: &Plant,
    unit: u32,
    slots: &[TaskSlot],
) -> Result<Vec<u32>, AllocError>
    requires few { length plant.now.tasks ≤ 160 }
    requires slots { slots.now ≡ task_slots plant.now }
    ensures { IfOk result (λ tasks. tasks.items ≡ setup_tasks plant.now unit) }
{
    let mut tasks = Vec::new(alloc);
    for task in 0..plant.tasks.len() as u32 {
        if has_slots(slots, unit, task) {
            tasks.push(task)?;
        }
    }
    Ok(tasks)
}

// Whether a task has slots on a unit.
fn has_slots(slots: &[TaskSlot], unit: u32, task: u32) -> bool
    ensures { result ≡ list_any (is_of unit task) slots.now }
{
    slots
        .iter()
        .any(|slot| slot.unit == unit && slot.task == task)
}

// The slots of a unit's setup, over the tasks that have slots there.
pub fn setup_slots(
    alloc: Global,
    plant: &Plant,
    unit: u32,
    slots: &[TaskSlot],
    tasks: &[u32],
) -> Result<Vec<SetupSlot>, AllocError>
    requires slots { slots.now ≡ task_slots plant.now }
    requires tasks { tasks.now ≡ setup_tasks plant.now unit }
    ensures { IfOk result (λ setups. setups.items ≡ setup_slots plant.now unit) }
{
    let mut setups = Vec::new(alloc);
    push_firsts(&mut setups, tasks)?;
    push_changes_among(&mut setups, plant, unit, slots, tasks)?;
    Ok(setups)
}

// Adds a slot for each task that may come first.
fn push_firsts(setups: &mut Vec<SetupSlot>, tasks: &[u32]) -> Result<(), AllocError>
    ensures { OnOk result (setups.new.items ≡ setups.old.items ++ map First tasks.now) }
{
    for task in tasks {
        setups.push(SetupSlot::First(*task))?;
    }
    Ok(())
}

// Adds the changes between tasks.
#[tactic(auto, unfolding(crate::specs::Slots::changes_among))]
fn push_changes_among(
    setups: &mut Vec<SetupSlot>,
    plant: &Plant,
    unit: u32,
    slots: &[TaskSlot],
    tasks: &[u32],
) -> Result<(), AllocError>
    requires { slots.now ≡ task_slots plant.now }
    ensures { OnOk result (setups.new.items
        ≡ setups.old.items ++ changes_among plant.now unit tasks.now) }
{
    for from in tasks {
        push_changes_from(setups, plant, unit, slots, *from, tasks)?;
    }
    Ok(())
}

// Adds the changes from a task to others.
fn push_changes_from(
    setups: &mut Vec<SetupSlot>,
    plant: &Plant,
    unit: u32,
    slots: &[TaskSlot],
    from: u32,
    tasks: &[u32],
) -> Result<(), AllocError>
    requires { slots.now ≡ task_slots plant.now }
    ensures { OnOk result (setups.new.items
        ≡ setups.old.items ++ flat_map (changes_between plant.now unit from) tasks.now) }
{
    for to in tasks {
        push_changes(setups, plant, unit, slots, from, *to)?;
    }
    Ok(())
}

// Adds the changes from a task to another, by period.
fn push_changes(
    setups: &mut Vec<SetupSlot>,
    plant: &Plant,
    unit: u32,
    slots: &[TaskSlot],
    from: u32,
    to: u32,
) -> Result<(), AllocError>
    requires { slots.now ≡ task_slots plant.now }
    ensures { OnOk result (setups.new.items
        ≡ setups.old.items ++ changes_between plant.now unit from to) }
{
    for period in 0..plant.periods {
        if is_change(plant, unit, slots, from, to, period) {
            setups.push(SetupSlot::Change(from, to, period))?;
        }
    }
    Ok(())
}

// Whether the unit can go over from a task to another in a period.
fn is_change(plant: &Plant, unit: u32, slots: &[TaskSlot], from: u32, to: u32, period: u32) -> bool
    requires { slots.now ≡ task_slots plant.now }
    ensures { result ≡ is_change plant.now unit from to period }
{
    from != to
        && has_start(slots, unit, to, period)
        && has_over(slots, unit, from, gap_of(plant, unit, from, to), period)
}

// Whether a task has a slot on a unit in a period.
fn has_start(slots: &[TaskSlot], unit: u32, task: u32, period: u32) -> bool
    ensures { result ≡ list_any (starts_in unit task period) slots.now }
{
    slots.iter().any(|slot| slot.unit == unit && slot.task == task && slot.period == period)
}

// Whether a batch of a task on a unit, and so many periods after it, are over by a period.
fn has_over(slots: &[TaskSlot], unit: u32, task: u32, gap: u32, period: u32) -> bool
    ensures { result ≡ list_any (is_over unit task gap period) slots.now }
{
    slots.iter().any(|slot| {
        slot.unit == unit
            && slot.task == task
            && u64::from(slot.end) + u64::from(gap) <= u64::from(period)
    })
}
