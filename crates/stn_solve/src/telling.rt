//! What the end of a search over the rows of a head says of the part.
ghost use Rattle.std.specs.Prelude.{IfOk};
ghost use Rattle.plan_told.specs.Claims.{HaveBytes, IfPoint};
ghost use Rattle.plan_told.specs.Given.{given_end};
ghost use Rattle.plan_told.specs.Telling.{IsTold};
ghost use Rattle.plan_told.specs.declared.telling.Told.{Told};
ghost use Rattle.stn_solve.specs.laws.Telling.{CanTell, IsToldLarger};

use branch_tree::Ended;
use plan_told::{Told, given_ended, larger_claim, told_of};
use row_kit::Found;
use std::alloc::{AllocError, Global};
use stn_model::Plant;
use sum_slots::Sum;

// What a search over more slots than those of a part ended with, as of the part, says of the plant.
pub fn told_given(
    alloc: Global,
    plant: &Plant,
    given: u32,
    least: Option<Found>,
    ended: Ended,
) -> Result<Told, AllocError>
    requires { CanTell plant.now (given_end given least ended) }
    ensures { IfOk result (IsTold plant.now (given_end given least ended)) }
{
    let own = given_ended(alloc, given as usize, least, ended)?;
    told_of(alloc, plant, own)
}

// The same, with the claim as of the program with the sums.
pub fn told_larger(
    alloc: Global,
    plant: &Plant,
    sums: &[Sum],
    given: u32,
    least: Option<Found>,
    ended: Ended,
) -> Result<Told, AllocError>
    requires can { CanTell plant.now (given_end given least ended) }
    requires bytes { (told : Told) → IsTold plant.now (given_end given least ended) told
        → IfPoint told.claim (HaveBytes sums.now) }
    ensures { IfOk result (IsToldLarger plant.now sums.now (given_end given least ended)) }
{
    let Told { outcome, claim } = told_given(alloc, plant, given, least, ended)?;
    let claim = larger_claim(alloc, sums, claim)?;
    Ok(Told { outcome, claim })
}
