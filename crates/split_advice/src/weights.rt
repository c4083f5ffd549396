//! What slots may bring.
use crate::candidates::Candidate;
use row_kit::{Domain, Entry, Program};
use std::alloc::{AllocError, Global};

/// For each slot of a program the most that it brings or costs at an end of its root domain.
pub fn weights_of(alloc: Global, program: &Program) -> Result<Vec<u64>, AllocError> {
    let mut weights = vec![in alloc; 0u64; program.root.len()]?;
    for entry in program.profit.as_slice() {
        let slot = entry.slot as usize;
        if let Some(domain) = program.root.as_slice().get(slot) {
            if slot < weights.len() {
                weights[slot] = weight(entry, domain);
            }
        }
    }
    Ok(weights)
}

// The most that an entry brings or costs at an end of a domain.
fn weight(entry: &Entry, domain: &Domain) -> u64 {
    size_at(entry, domain.lo).max(size_at(entry, domain.hi))
}

// What an entry brings or costs at a value of 1 or more.
fn size_at(entry: &Entry, value: u8) -> u64 {
    entry
        .fixed
        .saturating_add(entry.per.saturating_mul(i64::from(value)))
        .unsigned_abs()
}

/// The most fractional of the candidates that weigh at least three fifths of the heaviest; the first of these.
pub fn most_fractional(candidates: &[Candidate], weights: &[u64]) -> Option<Candidate> {
    let least = heaviest(candidates, weights) / 5 * 3;
    let mut most = 0i64;
    let mut found = None;
    for candidate in candidates {
        if !candidate.sum
            && candidate.fraction > most
            && weight_at(weights, candidate.slot) >= least
        {
            most = candidate.fraction;
            found = Some(*candidate);
        }
    }
    found
}

// The weight of the heaviest candidate.
fn heaviest(candidates: &[Candidate], weights: &[u64]) -> u64 {
    let mut most = 0u64;
    for candidate in candidates {
        most = most.max(weight_at(weights, candidate.slot));
    }
    most
}

// The weight of a slot.
fn weight_at(weights: &[u64], slot: u32) -> u64 {
    match weights.get(slot as usize) {
        None => 0,
        Some(weight) => *weight,
    }
}
