//! The factors of rows, read off a bound.
ghost use Rattle.std.specs.Prelude.{◌≡◌, ◌+◌, ◌≤◌, ◌⊎◌, [], ◌∷◌, ◌++◌, length, true};
ghost use Rattle.dual_bound.specs.Total.{are_fit};

use chain_simplex::Simplex;
use dual_bound::{MOST_FACTOR, MOST_MULTS, Mult};
use fixed_point::numbered;
use row_chains::Chains;
use row_kit::Program;

/// Where factors come from.
#[derive(Clone, Copy)]
pub enum Source {
    /// What one unit of each row is worth, times 2 to the power 18.
    Profits,
    /// The row that can't be mended, times 2 to this power: it shows that there is no point. Nothing where there is none.
    Ray(i32),
}

/// Lists the factors of rows, no more than a certificate may have.
pub fn list_mults(
    simplex: &Simplex,
    chains: &Chains,
    program: &Program,
    source: Source,
    mults: &mut Vec<Mult>,
)
    ensures fit { are_fit (length program.now.rows) 0 mults.new.items ≡ true }
    ensures few { length mults.new.items ≤ 50000 }
{
    mults.clear();
    for row in 0..numbered(program.rows.len()) {
        let weight = weight(simplex, chains, row, source);
        put_factor(mults, row, factor(&weight));
    }
}

// Puts the factor of a row that comes after those listed, unless it is 0.
fn put_factor(mults: &mut Vec<Mult>, row: u32, factor: u64)
    requires factor { factor ≤ MOST_FACTOR }
    requires fit { are_fit row 0 mults.old.items ≡ true }
    ensures fit { are_fit (row + 1) 0 mults.new.items ≡ true }
    ensures few { length mults.old.items ≤ 50000 → length mults.new.items ≤ 50000 }
{
    if factor != 0 {
        put_last(mults, Mult { row, factor });
    }
}

// What a row is worth, or its weight in the ray.
fn weight(simplex: &Simplex, chains: &Chains, row: u32, source: Source) -> i128 {
    match source {
        Source::Profits => simplex.worth_of(chains, row, 18),
        Source::Ray(power) => simplex.ray_of(chains, row, power),
    }
}

// A weight as a factor: 0 where it is not positive, and at most the greatest factor.
fn factor(weight: &i128) -> u64
    ensures { result ≤ MOST_FACTOR }
{
    let weight = *weight;
    if weight <= 0 {
        return 0;
    }
    let size = weight.unsigned_abs();
    if size > u128::from(MOST_FACTOR) {
        MOST_FACTOR
    } else {
        size as u64
    }
}

// Puts a factor at the end where there is room, and a certificate may have one more.
fn put_last(mults: &mut Vec<Mult>, mult: Mult)
    ensures put { (mults.new.items ≡ mults.old.items) ⊎ (mults.new.items ≡ mults.old.items ++ mult ∷ []) }
    ensures few { length mults.old.items ≤ 50000 → length mults.new.items ≤ 50000 }
{
    if mults.len() < mults.capacity() && mults.len() < MOST_MULTS {
        mults.push_reserved(mult);
    }
}
