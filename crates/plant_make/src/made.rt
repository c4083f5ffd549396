//! Making a plant of a seed.
ghost use Rattle.std.specs.Prelude.{◌≡◌, ◌≤◌, nat_le, [], IfOk, OnOk, if◌then◌else◌};
ghost use Rattle.stn_model.specs.Sound.{Sound};
ghost use Rattle.plant_make.specs.Made.{chained, states_of, tasks_of, runs_of, units_of, gaps_of, steam_of, bare_plant, plant_made};

use crate::chains::{letter_name, put_runs, put_states, put_tasks, repeated};
use crate::numbers::number_at;
use crate::written::Written;
use std::alloc::{AllocError, Global};
use stn_model::{Gap, List, Name, Plant, Run, State, StnUnit, Task, Utility};

/// The horizon of a plant that is made, in periods.
const PERIODS: u32 = 12;

/// Puts the states of so many chains.
fn states(alloc: Global, seed: u32, chains: u32, states: &mut List<State>) -> Written
    requires chains { chains ≤ 8 }
    requires empty { states.old ≡ [] }
    ensures { OnOk result (states.new ≡ chained (states_of seed) chains) }
{
    for chain in 0..chains {
        put_states(alloc, seed, chain, states)?;
    }
    Ok(())
}

/// Puts the tasks of so many chains.
fn tasks(alloc: Global, seed: u32, chains: u32, tasks: &mut List<Task>) -> Written
    requires chains { chains ≤ 8 }
    requires empty { tasks.old ≡ [] }
    ensures { OnOk result (tasks.new ≡ chained (tasks_of seed) chains) }
{
    for chain in 0..chains {
        put_tasks(alloc, seed, chain, tasks)?;
    }
    Ok(())
}

/// Puts the runs of so many chains.
fn runs(seed: u32, chains: u32, runs: &mut List<Run>) -> Written
    requires chains { chains ≤ 8 }
    requires empty { runs.old ≡ [] }
    ensures { OnOk result (runs.new ≡ chained (runs_of seed) chains) }
{
    for chain in 0..chains {
        put_runs(seed, chain, runs)?;
    }
    Ok(())
}

/// Puts the three units.
#[tactic(auto, unfolding(crate::specs::Made::units_of))]
fn units(alloc: Global, units: &mut List<StnUnit>) -> Written
    requires { units.old ≡ [] }
    ensures { OnOk result (units.new ≡ chained units_of 3) }
{
    for unit in 0..3 {
        let name = letter_name(alloc, b'U', unit)?;
        let label = List::new(alloc);
        units.push(StnUnit {
            name,
            label,
            last: None,
        })?;
    }
    Ok(())
}

/// Puts the gaps on the three units.
#[tactic(auto, unfolding(crate::specs::Made::gaps_of))]
fn gaps(gaps: &mut List<Gap>) -> Written
    requires { gaps.old ≡ [] }
    ensures { OnOk result (gaps.new ≡ chained gaps_of 3) }
{
    for unit in 0..3 {
        gaps.push(Gap {
            unit,
            from: 0,
            to: 2,
            periods: 1,
            cost: 0,
        })?;
        gaps.push(Gap {
            unit,
            from: 1,
            to: 3,
            periods: 1,
            cost: 0,
        })?;
    }
    Ok(())
}

/// Puts the gaps of so many chains: there are some where there is a second chain.
fn gaps_between(chains: u32, list: &mut List<Gap>) -> Written
    requires { list.old ≡ [] }
    ensures { OnOk result (list.new ≡ (if nat_le 2 chains then chained gaps_of 3 else [])) }
{
    if 2 <= chains { gaps(list) } else { Ok(()) }
}

fn copied(alloc: Global, text: &[u8]) -> Result<Name, AllocError>
    ensures { IfOk result (λ name. name ≡ text.now) }
{
    let mut name = List::new(alloc);
    for byte in text {
        name.push(*byte)?;
    }
    Ok(name)
}

#[tactic(auto, unfolding(crate::specs::Made::steam_of))]
fn steam(alloc: Global, seed: u32, chains: u32) -> Result<Utility, AllocError>
    requires { chains ≤ 8 }
    ensures { IfOk result (λ utility. utility ≡ steam_of seed chains) }
{
    let limit = 12 + u64::from(number_at(seed, 15 * chains, 9));
    Ok(Utility {
        name: copied(alloc, b"steam")?,
        label: List::new(alloc),
        limits: repeated(alloc, limit, PERIODS)?,
        rate: 1,
        rates: List::new(alloc),
    })
}

/// A plant that has nothing but its horizon.
fn bare_plant(alloc: Global) -> Plant
    ensures { result ≡ bare_plant }
{
    Plant {
        large: false,
        periods: PERIODS,
        calendar: None,
        states: List::new(alloc),
        utilities: List::new(alloc),
        units: List::new(alloc),
        tasks: List::new(alloc),
        runs: List::new(alloc),
        gaps: List::new(alloc),
        receipts: List::new(alloc),
        deliveries: List::new(alloc),
        outages: List::new(alloc),
    }
}

/// Gives a bare plant all that the plant of a seed has.
#[tactic(auto, unfolding(crate::specs::Made::plant_made))]
fn fill(alloc: Global, seed: u32, chains: u32, plant: &mut Plant) -> Written
    requires chains { chains ≤ 8 }
    requires bare { plant.old ≡ bare_plant }
    ensures { OnOk result (plant.new ≡ plant_made seed chains) }
{
    states(alloc, seed, chains, &mut plant.states)?;
    plant.utilities.push(steam(alloc, seed, chains)?)?;
    units(alloc, &mut plant.units)?;
    tasks(alloc, seed, chains, &mut plant.tasks)?;
    runs(seed, chains, &mut plant.runs)?;
    gaps_between(chains, &mut plant.gaps)
}

/// The plant of a seed, with so many chains of a feed, an intermediate and a product on three units.
pub fn make(alloc: Global, seed: u32, chains: u32) -> Result<Plant, AllocError>
    requires some { 1 ≤ chains }
    requires most { chains ≤ 8 }
    ensures made { IfOk result (λ plant. plant ≡ plant_made seed chains) }
    ensures sound { IfOk result Sound }
{
    let mut plant = bare_plant(alloc);
    fill(alloc, seed, chains, &mut plant)?;
    Ok(plant)
}
