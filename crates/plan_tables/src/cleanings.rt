//! When a unit is cleaned.
ghost use Rattle.std.specs.Prelude.{◌≡◌, IfOk, ◌∷◌, map};
ghost use Rattle.stn_model.specs.Sums.{greatest_by};
ghost use Rattle.plan_tables.specs.Units.{
  cleaned_for,
  cleaned_before,
  cleaning_after,
  first_cleaning,
  cleanings_of,
};

use plain_plan::profit::{is_first, is_next};
use std::alloc::{AllocError, Global};
use stn_model::{Plant, Start, end, gap_of, held_until, ready};

/// The times at which a unit is cleaned: from the one to before the other.
#[derive(Clone, Copy)]
pub struct Cleaning {
    pub from: u64,
    pub until: u128,
}

/// The cleanings of a unit: one before its first batch, and one after each of its batches.
pub fn cleanings_of(
    alloc: Global,
    plant: &Plant,
    batches: &[Start],
    unit: u32,
) -> Result<Vec<Cleaning>, AllocError>
    ensures { IfOk result (λ found. found.items ≡ cleanings_of plant.now batches.now unit) }
{
    let mut found = Vec::new(alloc);
    found.push(first_cleaning(plant, batches, unit))?;
    for a in batches {
        found.push(cleaning_after(plant, batches, a))?;
    }
    Ok(found)
}

#[tactic(auto, unfolding(crate::specs::Units::first_cleaning))]
fn first_cleaning(plant: &Plant, batches: &[Start], unit: u32) -> Cleaning
    ensures { result ≡ first_cleaning plant.now batches.now unit }
{
    Cleaning {
        from: held_until(plant, unit),
        until: ready_until(plant, batches),
    }
}

fn ready_until(plant: &Plant, batches: &[Start]) -> u128
    ensures { result ≡ greatest_by (cleaned_before plant.now batches.now) batches.now }
{
    let mut last = 0;
    for b in batches {
        let until = cleaned_before(plant, batches, b);
        if last < until {
            last = until;
        }
    }
    last
}

// The time until which the unit is cleaned before b, where b comes first on it; else 0.
fn cleaned_before(plant: &Plant, batches: &[Start], b: &Start) -> u128
    ensures { result ≡ cleaned_before plant.now batches.now b.now }
{
    if is_first(batches, b) {
        ready(plant, b.unit, b.task) as u128
    } else {
        0
    }
}

#[tactic(auto, unfolding(crate::specs::Units::cleaning_after))]
fn cleaning_after(plant: &Plant, batches: &[Start], a: &Start) -> Cleaning
    ensures { result ≡ cleaning_after plant.now batches.now a.now }
{
    Cleaning {
        from: end(plant, a),
        until: cleaned_until(plant, batches, a),
    }
}

fn cleaned_until(plant: &Plant, batches: &[Start], a: &Start) -> u128
    ensures { result ≡ greatest_by (cleaned_for plant.now batches.now a.now) batches.now }
{
    let mut last = 0;
    for b in batches {
        let until = cleaned_for(plant, batches, a, b);
        if last < until {
            last = until;
        }
    }
    last
}

// The time until which the unit is cleaned between a and b, where b is a next batch of a; else 0.
fn cleaned_for(plant: &Plant, batches: &[Start], a: &Start, b: &Start) -> u128
    ensures { result ≡ cleaned_for plant.now batches.now a.now b.now }
{
    if is_next(batches, a, b) {
        end(plant, a) as u128 + gap_of(plant, a.unit, a.task, b.task) as u128
    } else {
        0
    }
}
