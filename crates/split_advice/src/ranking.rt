//! The order in which slots are tried.
use crate::candidates::Candidate;
use crate::past::Past;
use dual_simplex::Workspace;
use row_kit::Program;

/// The place of a candidate in the order: minus what its split costs, minus how fractional it is, and its number.
pub type Ranked = (i128, i64, u32);

/// Orders candidates by what their splits cost by one dual step, or have cost in past trials where that is more, the dearest first:
/// by the product of both sides, each of which counts so much at most; then the most fractional first. Those for which there is no
/// room are left out.
pub fn rank(
    workspace: &mut Workspace,
    program: &Program,
    candidates: &[Candidate],
    most: i64,
    past: &Past,
    ranked: &mut Vec<Ranked>,
) {
    ranked.clear();
    for number in 0..candidates.len() {
        let candidate = candidates[number];
        let cost = cost(workspace, program, &candidate, most, past);
        if let Ok(number) = u32::try_from(number) {
            if ranked.len() < ranked.capacity() {
                ranked.push_reserved((
                    0i128.saturating_sub(cost),
                    0i64.saturating_sub(candidate.fraction),
                    number,
                ));
            }
        }
    }
    ranked.sort_unstable();
}

// What the split of a candidate costs by one dual step, or has cost in past trials.
fn cost(
    workspace: &mut Workspace,
    program: &Program,
    candidate: &Candidate,
    most: i64,
    past: &Past,
) -> i128 {
    match workspace.prices(program, candidate.slot, candidate.max) {
        None => 0,
        Some(prices) => {
            let prices = past.raised(candidate, prices);
            product(prices.at_most.min(most), prices.above.min(most), most)
        }
    }
}

/// The product of what both sides of a split lose. A side that loses next to nothing counts a 20,000th of the most, so that the other
/// one still tells.
pub fn product(one: i64, other: i64, most: i64) -> i128 {
    let least = (most / 20_000).max(1);
    i128::from(one.max(least)).saturating_mul(i128::from(other.max(least)))
}
