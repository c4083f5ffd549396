//! What a search over a program with sums ended with, as of the given program.
ghost use Rattle.std.specs.Prelude.{◌≡◌, IfOk, take};
ghost use Rattle.std.specs.Option.{option_map};
ghost use Rattle.row_relax.specs.Settle.{only_point};
ghost use Rattle.plan_told.specs.Given.{cut_found, given_end, least_found};

use branch_tree::{Ended, better, exceeds, least_value, worth_of};
use row_kit::{Domain, Found, List, Program, is_lawful, worth};
use std::alloc::{AllocError, Global};

/// What a search over a program with sums ended with, as of the given program, which has so many slots and this least point where
/// that is lawful. The best point is that of the search, cut back to these slots, or the least one where it is worth more or none
/// was found. A box counts as left open where the cap is above the worth of the best point. Cap and count stay. It takes memory
/// for a point.
pub fn given_ended(
    alloc: Global,
    slots: usize,
    least: Option<Found>,
    ended: Ended,
) -> Result<Ended, AllocError>
    ensures { IfOk result (λ given. given ≡ given_end slots least ended) }
{
    let Ended {
        best,
        cap,
        spent,
        ..
    } = ended;
    let found = cut_best(alloc, slots, best)?;
    let best = better(found, least);
    let left_open = exceeds(cap, worth_of(&best));
    Ok(Ended {
        best,
        cap,
        spent,
        left_open,
    })
}

// The found point cut back to so many slots, where there is one.
fn cut_best(alloc: Global, slots: usize, best: Option<Found>) -> Result<Option<Found>, AllocError>
    ensures { IfOk result (λ cut. cut ≡ option_map (cut_found slots) best) }
{
    match best {
        None => Ok(None),
        Some(found) => Ok(Some(cut_found(alloc, slots, found)?)),
    }
}

// The found point cut back to so many slots.
fn cut_found(alloc: Global, slots: usize, found: Found) -> Result<Found, AllocError>
    ensures { IfOk result (λ cut. cut ≡ cut_found slots found) }
{
    let Found { value, point } = found;
    let point = first_values(alloc, slots, point)?;
    Ok(Found { value, point })
}

// The first values of a point, at most so many.
fn first_values(alloc: Global, slots: usize, point: List<u8>) -> Result<List<u8>, AllocError>
    ensures { IfOk result (λ first. first ≡ take slots point) }
{
    if point.len() <= slots {
        return Ok(point);
    }
    List::from_slice(alloc, &point.as_slice()[..slots])
}

/// The least point of the root with its worth, where it is lawful. It takes memory for a point, and costs the slots and the entries
/// of the rows.
pub fn least_found(alloc: Global, program: &Program) -> Result<Option<Found>, AllocError>
    ensures { IfOk result (λ least. least ≡ least_found program.now) }
{
    let point = least_point(alloc, program.root.as_slice())?;
    if !is_lawful(program, point.as_slice()) {
        return Ok(None);
    }
    let value = worth(program, point.as_slice());
    Ok(Some(Found { value, point }))
}

// The least point of domains.
fn least_point(alloc: Global, domains: &[Domain]) -> Result<List<u8>, AllocError>
    ensures { IfOk result (λ point. point ≡ only_point domains.now) }
{
    let mut point = List::new(alloc);
    for domain in domains {
        point.push(least_value(*domain))?;
    }
    Ok(point)
}
