//! Points that are found, and whether they are lawful.
ghost use Rattle.std.specs.Prelude.{◌≡◌, length, true, MatchOption, IfOk, IfSome, ◌≤ℤ◌};
ghost use Rattle.std.specs.List.{All};
ghost use Rattle.std.specs.Option.{IsSomeAnd, option_map};
ghost use Rattle.row_kit.specs.Area.{present};
ghost use Rattle.row_kit.specs.Domain.{IsOpen};
ghost use Rattle.row_kit.specs.Point.{IsLawful};
ghost use Rattle.row_relax.specs.Choices.{settled_in};
ghost use Rattle.row_relax.specs.Settle.{only_value, only_point};
ghost use Rattle.branch_tree.specs.Justified.{IsGroup};
ghost use Rattle.branch_tree.specs.Compared.{better_of};
ghost use Rattle.branch_tree.specs.laws.Ends.{is_chosen, Reaches};
ghost use Rattle.branch_tree.specs.laws.Grounds.{choices_at, first_values, program_of, rows_of};

use crate::reached::Ground;
use box_advice::Hinter;
use row_kit::{Area, Domain, Found, List, Program, is_lawful, worth};
use row_relax::{choices_of, first_are_single, first_slots, put_values};
use std::alloc::{AllocError, Global};

// The point as a found point, where it is lawful.
pub(crate) fn tested(
    alloc: Global,
    program: &Program,
    point: &[u8],
) -> Result<Option<Found>, AllocError>
    ensures { IfOk result (λ found. MatchOption found (¬ IsLawful program.now point.now)
        (λ f. IsGroup program.now f × (f.point ≡ point.now))) }
{
    if !is_lawful(program, point) {
        return Ok(None);
    }
    Ok(Some(Found {
        value: worth(program, point),
        point: List::from_slice(alloc, point)?,
    }))
}

// The point that begins so, as a found point, where it is lawful.
pub(crate) fn tested_first(ground: &Ground, values: &[u8]) -> Result<Option<Found>, AllocError>
    ensures { IfOk result (λ found. MatchOption found
        (¬ IsLawful (choices_at ground.now) (first_values ground.now values.now))
        (λ f. IsGroup (choices_at ground.now) f
        × (f.point ≡ first_values ground.now values.now))) }
{
    let point = ground.rows.chosen(values);
    tested(ground.alloc, choices_of(ground.rows), point)
}

/// The least value of a domain that has one: 0 where it holds 0.
pub fn least_value(domain: Domain) -> u8
    ensures { result ≡ only_value domain }
{
    if domain.zero { 0 } else { domain.lo }
}

// Fills in the least point of domains.
pub(crate) fn put_least(domains: &[Domain], point: &mut [u8])
    requires { length point.old ≡ length domains.now }
    ensures { point.new ≡ only_point domains.now }
{
    for slot in 0..point.len() {
        point[slot] = least_value(domains[slot]);
    }
}

// Whether each slot that points have has one value in an area.
pub(crate) fn is_chosen(ground: &Ground, area: &Area) -> bool
    ensures { result ≡ is_chosen (rows_of ground.now) (present area.now) }
{
    let slots = first_slots(choices_of(ground.rows), area);
    first_are_single(area, slots)
}

// The only point of an area, where it has one and that is lawful.
fn only_found(ground: &Ground, area: &Area, point: &mut [u8]) -> Result<Option<Found>, AllocError>
    requires slots { length (present area.now) ≡ length (program_of ground.now).root }
    requires places { length point.old ≡ length (program_of ground.now).root }
    ensures group { IfOk result (λ found. IfSome found (IsGroup (choices_at ground.now))) }
    ensures only { IfOk result (λ found. is_chosen (rows_of ground.now) (present area.now) ≡ true
        → Reaches (settled_in (rows_of ground.now) (present area.now)) found) }
{
    if !is_chosen(ground, area) {
        return Ok(None);
    }
    put_values(area, area.slot_count(), point);
    tested_first(ground, point)
}

// The point that is offered, where it is lawful.
fn hinted<H: Hinter>(
    ground: &Ground,
    area: &Area,
    hinter: &mut H,
    point: &mut [u8],
) -> Result<Option<Found>, AllocError>
    requires slots { length (present area.now) ≡ length (program_of ground.now).root }
    requires places { length point.old ≡ length (program_of ground.now).root }
    requires each_open { All IsOpen (present area.now) }
    ensures { IfOk result (λ found. IfSome found (IsGroup (choices_at ground.now))) }
{
    if hinter.offer(&ground.rows.program, area, point) {
        tested_first(ground, point)
    } else {
        Ok(None)
    }
}

/// The one of two found points that is worth more, the first where both are worth the same.
pub fn better(one: Option<Found>, other: Option<Found>) -> Option<Found>
    ensures { result ≡ better_of one other }
{
    match (one, other) {
        (None, other) => other,
        (one, None) => one,
        (Some(one), Some(other)) => if one.value < other.value {
            Some(other)
        } else {
            Some(one)
        },
    }
}

/// The worth of a found point.
pub fn worth_of(found: &Option<Found>) -> Option<i128>
    ensures { result ≡ option_map (λ f. f.value) found.now }
{
    match found {
        None => None,
        Some(found) => Some(found.value),
    }
}

// The found point of a box: the best of its own, its only one and the hinter's.
pub(crate) fn found_at<H: Hinter>(
    ground: &Ground,
    area: &Area,
    own: Option<Found>,
    hinter: &mut H,
    point: &mut [u8],
) -> Result<Option<Found>, AllocError>
    requires slots { length (present area.now) ≡ length (program_of ground.now).root }
    requires places { length point.old ≡ length (program_of ground.now).root }
    requires each_open { All IsOpen (present area.now) }
    requires own { IfSome own (IsGroup (choices_at ground.now)) }
    ensures group { IfOk result (λ found. IfSome found (IsGroup (choices_at ground.now))) }
    ensures own { IfOk result (λ found. IfSome own
        (λ f. IsSomeAnd found (λ best. f.value ≤ℤ best.value))) }
    ensures only { IfOk result (λ found. is_chosen (rows_of ground.now) (present area.now) ≡ true
        → Reaches (settled_in (rows_of ground.now) (present area.now)) found) }
{
    let hinted = hinted(ground, area, hinter, point)?;
    let only = only_found(ground, area, point)?;
    Ok(better(better(own, only), hinted))
}
