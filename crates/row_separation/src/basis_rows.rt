//! Rows of the basis: what rows come to that give a slot which runs in part.
use chain_simplex::Simplex;
use derived_rows::Factor;
use fixed_point::{NONE, ONE, at, numbered, put, put_last, whole_of};
use row_chains::Chains;
use row_finding::{Point, Stand};
use simplex_state::State;
use std::alloc::{AllocError, Global};

// The most slots, the most rows of one mixture, and the most that a factor is.
const MOST_SLOTS: usize = 100;

const MOST_FACTORS: usize = 64;

const MOST_FACTOR: i128 = 2_000;

// The most whole numbers by which factors are tried to be made whole.
const MOST_TRIES: u32 = 120;

// A hundredth.
const HUNDREDTH: i64 = 10_737_418;

/// Lists the mixtures of rows that give the slots that are furthest from whole, with factors of either sign.
pub fn list_basis_rows(
    alloc: Global,
    simplex: &mut Simplex,
    chains: &Chains,
    point: &Point,
    mixes: &mut Vec<Vec<Factor>>,
) -> Result<(), AllocError> {
    let slots = parted_slots(alloc, simplex, point)?;
    for place in 0..slots.len().min(MOST_SLOTS) {
        let (_, slot, both) = slots[place];
        write_raw(simplex, slot, both);
        let weights = weights_of(alloc, simplex, chains)?;
        if let Some(scale) = scale_of(weights.as_slice()) {
            put_mix(alloc, weights.as_slice(), scale, false, mixes)?;
            put_mix(alloc, weights.as_slice(), scale, true, mixes)?;
        }
    }
    Ok(())
}

// The slots that are furthest from whole first: less how far, its number, and whether it is its starts that are.
fn parted_slots(
    alloc: Global,
    simplex: &Simplex,
    point: &Point,
) -> Result<Vec<(i64, u32, bool)>, AllocError> {
    let mut slots = Vec::new(alloc);
    for slot in 0..numbered(point.stands.len()) {
        let stand = point.stand(slot);
        let low = is_basic(simplex, slot.saturating_mul(2));
        let high = is_basic(simplex, slot.saturating_mul(2) | 1);
        if stand.part() > HUNDREDTH && (low || high) {
            slots.push((0i64.saturating_sub(stand.part()), slot, true))?;
        } else if is_quanta_parted(&stand) && high {
            slots.push((0i64.saturating_sub(stand.quanta_part()), slot, false))?;
        }
    }
    slots.sort_unstable();
    Ok(slots)
}

// Whether a slot runs with quanta that are not whole.
fn is_quanta_parted(stand: &Stand) -> bool {
    stand.part() <= HUNDREDTH && stand.started > ONE / 2 && stand.quanta_part() > HUNDREDTH
}

// Whether a variable is basic.
fn is_basic(simplex: &Simplex, variable: u32) -> bool {
    simplex.own.state(variable) == State::Basic && simplex.own.place(variable) != NONE
}

// Writes the multipliers of rows that give the greatest size of a slot, or its least one too.
fn write_raw(simplex: &mut Simplex, slot: u32, both: bool) {
    if both {
        put_one(simplex, slot.saturating_mul(2));
    }
    put_one(simplex, slot.saturating_mul(2) | 1);
    simplex
        .kernel
        .solve_back(simplex.work.multipliers.as_mut_slice());
    simplex
        .kernel
        .write_raw(simplex.work.multipliers.as_slice(), &mut simplex.work.raw);
    for place in 0..numbered(simplex.work.multipliers.len()) {
        put(simplex.work.multipliers.as_mut_slice(), place, 0);
    }
}

// Puts 1 at the place of a variable that is basic.
fn put_one(simplex: &mut Simplex, variable: u32) {
    if is_basic(simplex, variable) {
        let place = simplex.own.place(variable);
        put(simplex.work.multipliers.as_mut_slice(), place, ONE);
    }
}

// The program's rows that bind, by number, with their multipliers times 2 to the power 50; those that are tiny are left out.
fn weights_of(
    alloc: Global,
    simplex: &Simplex,
    chains: &Chains,
) -> Result<Vec<(u32, i128)>, AllocError> {
    let mut weights = Vec::new(alloc);
    let least = greatest(simplex, chains) / 10_000;
    for place in 0..simplex.kernel.count() {
        let weight = weight_at(simplex, chains, place);
        if weight.saturating_abs() > least && weights.len() <= MOST_FACTORS {
            weights.push((chains.row_at(simplex.kernel.row(place)), weight))?;
        }
    }
    weights.sort_unstable();
    Ok(weights)
}

// The greatest multiplier, without its sign.
fn greatest(simplex: &Simplex, chains: &Chains) -> i128 {
    let mut most = 0i128;
    for place in 0..simplex.kernel.count() {
        most = most.max(weight_at(simplex, chains, place).saturating_abs());
    }
    most
}

// The multiplier of the row at a place of the kernel; 0 where it does not bind.
fn weight_at(simplex: &Simplex, chains: &Chains, place: u32) -> i128 {
    let row = simplex.kernel.row(place);
    if row >= chains.count() || simplex.own.state(simplex.own.of_row(row)) == State::Basic {
        return 0;
    }
    let raw = at(simplex.work.raw.as_slice(), place);
    whole_of(raw, chains.shift_at(row).saturating_add(50))
}

// How multipliers are made whole: times a number, divided by another.
#[derive(Clone, Copy)]
struct Scale {
    times: i128,
    over: i128,
}

// The scale that makes them whole, or nearly so at the most that factors are; None where there are none or too many.
fn scale_of(weights: &[(u32, i128)]) -> Option<Scale> {
    let mut most = 0i128;
    let mut least = i128::MAX;
    for weight in weights {
        most = most.max(weight.1.saturating_abs());
        least = least.min(weight.1.saturating_abs());
    }
    if weights.is_empty() || weights.len() > MOST_FACTORS || least < 1 {
        return None;
    }
    for tries in 0..MOST_TRIES {
        let times = i128::from(tries).saturating_add(1);
        if most.saturating_mul(times) > least.saturating_mul(MOST_FACTOR) {
            break;
        }
        let scale = Scale { times, over: least };
        if are_whole(weights, &scale) {
            return Some(scale);
        }
    }
    Some(Scale {
        times: MOST_FACTOR,
        over: most,
    })
}

// Whether a scale makes multipliers whole but for what is tiny.
fn are_whole(weights: &[(u32, i128)], scale: &Scale) -> bool {
    for weight in weights {
        let whole = scaled(weight.1, scale).saturating_mul(scale.over);
        let error = weight.1.saturating_mul(scale.times).saturating_sub(whole);
        let allowed = scale.over.saturating_mul(scale.times);
        if error.saturating_abs().saturating_mul(10_000) >= allowed {
            return false;
        }
    }
    true
}

// A multiplier by a scale, rounded.
fn scaled(weight: i128, scale: &Scale) -> i128 {
    let over = scale.over.max(1);
    weight
        .saturating_mul(scale.times)
        .saturating_add(over / 2)
        .div_euclid(over)
}

// Lists the mixture of factors by a scale, or of their opposites.
fn put_mix(
    alloc: Global,
    weights: &[(u32, i128)],
    scale: Scale,
    opposite: bool,
    mixes: &mut Vec<Vec<Factor>>,
) -> Result<(), AllocError> {
    let mut mix = Vec::with_capacity(alloc, weights.len())?;
    for weight in weights {
        let by = fixed_point::narrow(&scaled(weight.1, &scale));
        let by = if opposite {
            0i64.saturating_sub(by)
        } else {
            by
        };
        if by != 0 {
            put_last(&mut mix, Factor { row: weight.0, by });
        }
    }
    if !mix.is_empty() {
        mixes.push(mix)?;
    }
    Ok(())
}
