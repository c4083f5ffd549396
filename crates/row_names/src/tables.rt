//! The names of the rows that go by two numbers of the plant: busy rows, those of stocks and those of loads.
ghost use Rattle.std.specs.Prelude.{◌≡◌, ◌++◌, ◌<◌, OnOk, length, map};
ghost use Rattle.std.specs.List.{range_with_len};
ghost use Rattle.stn_model.specs.Sound.{Sound};
ghost use Rattle.balance_rows.specs.StockRows.{limit_count};
ghost use Rattle.row_names.specs.declared.name.RowName.TheVariants.{Busy, Low, High, Load};
ghost use Rattle.row_names.specs.RowNames.{busy_names, low_names, high_names, load_names};

use crate::name::RowName;
use std::alloc::AllocError;
use stn_model::Plant;

/// Appends the names of the busy rows, by unit, then by period.
#[tactic(auto, unfolding(crate::specs::RowNames::busy_names), using(crate::proofs::Ranges::pieces_next))]
pub fn push_busy(names: &mut Vec<RowName>, plant: &Plant) -> Result<(), AllocError>
    requires { Sound plant.now }
    ensures { OnOk result (names.new.items ≡ names.old.items ++ busy_names plant.now) }
{
    for unit in 0..plant.units.len() {
        push_unit(names, unit as u32, plant.periods)?;
    }
    Ok(())
}

#[tactic(auto, using(crate::proofs::Ranges::items_next))]
fn push_unit(names: &mut Vec<RowName>, unit: u32, periods: u32) -> Result<(), AllocError>
    ensures { OnOk result (names.new.items
        ≡ names.old.items ++ map (Busy unit) (range_with_len 0 periods)) }
{
    for period in 0..periods {
        names.push(RowName::Busy { unit, period })?;
    }
    Ok(())
}

/// Appends the names of the low rows, by state, then by time.
#[tactic(auto, unfolding(crate::specs::RowNames::low_names), using(crate::proofs::Ranges::pieces_next))]
pub fn push_low(names: &mut Vec<RowName>, plant: &Plant) -> Result<(), AllocError>
    requires { Sound plant.now }
    ensures { OnOk result (names.new.items ≡ names.old.items ++ low_names plant.now) }
{
    for state in 0..plant.states.len() {
        push_low_of(names, state as u32, plant.periods + 1)?;
    }
    Ok(())
}

#[tactic(auto, using(crate::proofs::Ranges::items_next))]
fn push_low_of(names: &mut Vec<RowName>, state: u32, times: u32) -> Result<(), AllocError>
    ensures { OnOk result (names.new.items
        ≡ names.old.items ++ map (Low state) (range_with_len 0 times)) }
{
    for time in 0..times {
        names.push(RowName::Low { state, time })?;
    }
    Ok(())
}

/// Appends the names of the high rows, by state, then by the times at which the state has a limit.
#[tactic(auto, unfolding(crate::specs::RowNames::high_names), using(crate::proofs::Ranges::pieces_next))]
pub fn push_high(names: &mut Vec<RowName>, plant: &Plant) -> Result<(), AllocError>
    requires { Sound plant.now }
    ensures { OnOk result (names.new.items ≡ names.old.items ++ high_names plant.now) }
{
    for state in 0..plant.states.len() {
        push_high_of(names, state as u32, limit_count(plant, state as u32))?;
    }
    Ok(())
}

// At how many times the state has a limit.
#[tactic(auto, unfolding(balance_rows::specs::StockRows::limit_count))]
fn limit_count(plant: &Plant, state: u32) -> u32
    requires sound { Sound plant.now }
    requires there { state < length plant.now.states }
    ensures { result ≡ limit_count plant.now state }
{
    plant.states.get(state as usize).limits.len() as u32
}

#[tactic(auto, using(crate::proofs::Ranges::items_next))]
fn push_high_of(names: &mut Vec<RowName>, state: u32, times: u32) -> Result<(), AllocError>
    ensures { OnOk result (names.new.items
        ≡ names.old.items ++ map (High state) (range_with_len 0 times)) }
{
    for time in 0..times {
        names.push(RowName::High { state, time })?;
    }
    Ok(())
}

/// Appends the names of the load rows, by utility, then by period.
#[tactic(auto, unfolding(crate::specs::RowNames::load_names), using(crate::proofs::Ranges::pieces_next))]
pub fn push_loads(names: &mut Vec<RowName>, plant: &Plant) -> Result<(), AllocError>
    requires { Sound plant.now }
    ensures { OnOk result (names.new.items ≡ names.old.items ++ load_names plant.now) }
{
    for utility in 0..plant.utilities.len() {
        push_utility(names, utility as u32, plant.periods)?;
    }
    Ok(())
}

#[tactic(auto, using(crate::proofs::Ranges::items_next))]
fn push_utility(names: &mut Vec<RowName>, utility: u32, periods: u32) -> Result<(), AllocError>
    ensures { OnOk result (names.new.items
        ≡ names.old.items ++ map (Load utility) (range_with_len 0 periods)) }
{
    for period in 0..periods {
        names.push(RowName::Load { utility, period })?;
    }
    Ok(())
}
