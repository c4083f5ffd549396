//! A plant with other limits of one state.
ghost use Rattle.std.specs.Prelude.{◌≡◌, ℕ, ℤ, ◌<◌, ◌++◌, length, map, IfOk, OnOk, OnErr};
ghost use Rattle.stn_model.specs.declared.plant.Plant.{Plant};
ghost use Rattle.stn_model.specs.Sound.{Sound};
ghost use Rattle.what_if.specs.Raised.{raised, raised_limit, raised_states, with_limits, with_states};

use std::alloc::{AllocError, Global};
use stn_model::{List, Plant, State};

/// Gives a plant these states, of which the one of this number has each limit raised by an amount of mass units: a limit that
/// falls below 0 becomes 0, and one that rises above 1,000,000,000 becomes that. After want of memory the plant is as before.
pub fn raise(
    alloc: Global,
    plant: &mut Plant,
    states: &[State],
    number: u32,
    amount: i64,
) -> Result<(), AllocError>
    requires { number < length states.now }
    ensures ok { OnOk result
        (plant.new ≡ with_states plant.old (raised_states number amount states.now)) }
    ensures err { OnErr result (plant.new ≡ plant.old) }
{
    plant.states = raised_states(alloc, states, number as usize, amount)?;
    Ok(())
}

// The states, of which one has its limits raised.
fn raised_states(
    alloc: Global,
    states: &[State],
    number: usize,
    amount: i64,
) -> Result<List<State>, AllocError>
    requires { number < length states.now }
    ensures { IfOk result (λ raised. raised ≡ raised_states number amount states.now) }
{
    let mut raised = List::new(alloc);
    push_copies(alloc, &states[..number], &mut raised)?;
    let state = &states[number];
    let limits = raised_limits(alloc, state.limits.as_slice(), amount)?;
    raised.push(with_limits(alloc, state, limits)?)?;
    push_copies(alloc, &states[number + 1..], &mut raised)?;
    Ok(raised)
}

// Puts copies of states at the end.
fn push_copies(alloc: Global, states: &[State], copies: &mut List<State>) -> Result<(), AllocError>
    ensures { OnOk result (copies.new ≡ copies.old ++ states.now) }
{
    for state in states {
        let limits = copied(alloc, state.limits.as_slice())?;
        copies.push(with_limits(alloc, state, limits)?)?;
    }
    Ok(())
}

// A copy of a state, with these limits.
fn with_limits(alloc: Global, state: &State, limits: List<u64>) -> Result<State, AllocError>
    ensures { IfOk result (λ copy. copy ≡ with_limits state.now limits) }
{
    let name = copied(alloc, state.name.as_slice())?;
    let label = copied(alloc, state.label.as_slice())?;
    Ok(State {
        name,
        label,
        initial: state.initial,
        limits,
        price: state.price,
        holding: state.holding,
    })
}

// The same items.
fn copied<T: Copy + Drop>(alloc: Global, items: &[T]) -> Result<List<T>, AllocError>
    ensures { IfOk result (λ copy. copy ≡ items.now) }
{
    let mut copy = List::new(alloc);
    for item in items {
        copy.push(*item)?;
    }
    Ok(copy)
}

// The limits, each raised.
fn raised_limits(alloc: Global, limits: &[u64], amount: i64) -> Result<List<u64>, AllocError>
    ensures { IfOk result (λ raised. raised ≡ map (raised_limit amount) limits.now) }
{
    let mut raised = List::new(alloc);
    for limit in limits {
        raised.push(raised_limit(*limit, amount))?;
    }
    Ok(raised)
}

// A limit, raised.
fn raised_limit(limit: u64, amount: i64) -> u64
    ensures { result ≡ raised_limit amount limit }
{
    let sum = i128::from(limit) + i128::from(amount);
    if sum < 0 {
        0
    } else if sum > 1_000_000_000 {
        1_000_000_000
    } else {
        sum as u64
    }
}

/// The law of raised limits: a sound plant stays sound, and is the same where they are raised no times.
pub fn raised_law()
    ensures sound { (plant : Plant) (number : ℕ) (step : ℤ) (times : ℕ) → Sound plant
        → number < length plant.states → Sound (raised plant number step times) }
    ensures none { (plant : Plant) (number : ℕ) (step : ℤ) → Sound plant
        → number < length plant.states → raised plant number step 0 ≡ plant }
{}
