//! The slots that a bound leaves fractional.
use dual_simplex::{Amount, Workspace};
use row_kit::{Area, Domain, Program};

// The number 1 of amounts.
const ONE: i64 = 1_073_741_824;

// A start counts as fractional from here on: about 1 in 100,000.
const LEAST_START: i64 = 10_737;

// Quanta count as fractional from here on: about 1 in 10,000.
const LEAST_QUANTA: i64 = 107_374;

/// A slot that may be split, and the value at which the search splits it. With 30 bits of fraction: how fractional it is, and how
/// far it lies above the part up to that value; the part above begins at 1.
#[derive(Clone, Copy)]
pub struct Candidate {
    pub slot: u32,
    pub max: u8,
    pub fraction: i64,
    pub above: i64,
    /// Whether it is the slot of a sum.
    pub sum: bool,
}

/// Lists the fractional slots of an area before `given`, as far as there is room; only where there are none, those from `points` on, which
/// are of setups. Those between are of sums.
pub fn list_fractional(
    workspace: &Workspace,
    area: &Area,
    given: u32,
    points: u32,
    candidates: &mut Vec<Candidate>,
) {
    candidates.clear();
    list_between(workspace, area, 0, given, candidates);
    if candidates.is_empty() {
        list_between(workspace, area, points, u32::MAX, candidates);
    }
}

// Lists after these the fractional slots of an area from one number on and before another, as far as there is room.
fn list_between(
    workspace: &Workspace,
    area: &Area,
    first: u32,
    end: u32,
    candidates: &mut Vec<Candidate>,
) {
    for slot in 0..area.slot_count() {
        if slot >= first && slot < end {
            let candidate = slot_candidate(slot, &area.domain(slot), &workspace.amount(slot));
            put_candidate(candidates, candidate);
        }
    }
}

// The split of a slot with this domain that comes to an amount.
fn slot_candidate(slot: u32, domain: &Domain, amount: &Amount) -> Candidate {
    let max = split_value(domain);
    let above = if domain.zero {
        amount.started
    } else {
        amount
            .quanta
            .saturating_sub(ONE.saturating_mul(i64::from(max)))
    };
    Candidate {
        slot,
        max,
        fraction: fraction(domain, amount),
        above,
        sum: false,
    }
}

/// Lists after these the slots of sums, from `given` on and before `points`, of which both parts of a split cut the solution of the bound
/// off, as far as there is room.
pub fn list_sums(
    workspace: &Workspace,
    program: &Program,
    area: &Area,
    given: u32,
    points: u32,
    candidates: &mut Vec<Candidate>,
) {
    for slot in given..points {
        if let Some(candidate) = sum_candidate(workspace, program, area, slot) {
            put_candidate(candidates, candidate);
        }
    }
}

// The split of the slot of a sum at what the bound's solution comes to, where the search can split it there.
fn sum_candidate(
    workspace: &Workspace,
    program: &Program,
    area: &Area,
    slot: u32,
) -> Option<Candidate> {
    if slot >= area.slot_count() {
        return None;
    }
    let max = u8::try_from(workspace.sum_value(program, slot)?).ok()?;
    if !may_split(&area.domain(slot), max) {
        return None;
    }
    let above = workspace.sum_above(program, slot, max)?;
    if above < LEAST_QUANTA || above > ONE - LEAST_QUANTA {
        return None;
    }
    Some(Candidate {
        slot,
        max,
        fraction: from_whole(above),
        above,
        sum: true,
    })
}

// Puts a candidate that is fractional, where there is room.
fn put_candidate(candidates: &mut Vec<Candidate>, candidate: Candidate) {
    if candidate.fraction > 0 && candidates.len() < candidates.capacity() {
        candidates.push_reserved(candidate);
    }
}

/// Whether the search may split a domain after a value: both parts have values and can be split less often than the domain, where
/// each split but that at 0 halves the values.
pub fn may_split(domain: &Domain, max: u8) -> bool {
    if domain.lo > domain.hi || max >= domain.hi {
        return false;
    }
    if max < domain.lo {
        return domain.zero;
    }
    let all = halvings(domain.hi - domain.lo);
    if domain.zero {
        halvings(max - domain.lo) < all
    } else {
        halvings(max - domain.lo) < all && halvings(domain.hi - max - 1) < all
    }
}

// How often a range can be halved, from its last place.
fn halvings(last: u8) -> u32 {
    8 - last.leading_zeros()
}

/// The value at which the search splits a domain with two values or more: 0 where it holds 0, else the middle.
pub fn split_value(domain: &Domain) -> u8 {
    if domain.zero {
        0
    } else {
        domain
            .lo
            .saturating_add(domain.hi.saturating_sub(domain.lo) / 2)
    }
}

// How fractional a slot with this domain is that comes to an amount: by its start, else by its quanta where it is rather started
// than not. These count a quarter. 0 where it is whole or has not two values.
fn fraction(domain: &Domain, amount: &Amount) -> i64 {
    if domain.lo > domain.hi || (!domain.zero && domain.lo == domain.hi) {
        return 0;
    }
    let start = from_whole(amount.started);
    let quanta = from_whole(amount.quanta);
    if domain.zero && start > LEAST_START {
        start
    } else if amount.started > ONE / 2 && quanta > LEAST_QUANTA {
        quanta / 4
    } else {
        0
    }
}

// How far a number is from the nearest whole one.
fn from_whole(number: i64) -> i64 {
    let part = number & (ONE - 1);
    part.min(ONE.saturating_sub(part))
}
