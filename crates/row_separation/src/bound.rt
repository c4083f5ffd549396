//! The bound of the root.
use crate::basis_rows::list_basis_rows;
use chain_simplex::{Basis, Simplex};
use derived_rows::Factor;
use fixed_point::{numbered, whole_of};
use row_chains::{Chains, base_worth};
use row_finding::Point;
use row_kit::Program;
use std::alloc::{AllocError, Global};

/// Where the bound of a program's root stands, about its worth in money with 10 bits of fraction, the mixtures of its basis, from where
/// to begin the next one, and the pivots that it took.
#[derive(Drop)]
pub struct Bound {
    pub point: Point,
    pub worth: i128,
    pub mixes: Vec<Vec<Factor>>,
    pub basis: Basis,
    pub pivots: u32,
}

/// Bounds the root of a program from a basis by at most so many steps; with the mixtures of the basis where they are wanted.
pub fn bounded(
    alloc: Global,
    program: &Program,
    start: &Basis,
    most: u32,
    mixes_too: bool,
) -> Result<Bound, AllocError> {
    let slots = numbered(program.root.len());
    let chains = Chains::new(alloc, program, slots, slots)?;
    let mut simplex = Simplex::new(alloc, &chains)?;
    let root = program.root.as_slice();
    simplex.begin(&chains, program, root, start);
    simplex.run(&chains, most, i64::MIN);
    let point = Point::new(alloc, program, &simplex)?;
    let mut mixes = Vec::new(alloc);
    if mixes_too {
        list_basis_rows(alloc, &mut simplex, &chains, &point, &mut mixes)?;
    }
    let mut basis = Basis::new(alloc, program)?;
    simplex.save(&chains, &mut basis);
    let gain = whole_of(simplex.profit(), 10i32.saturating_sub(chains.up));
    let base = base_worth(program, root).saturating_mul(1_024);
    Ok(Bound {
        point,
        worth: base.saturating_add(gain),
        mixes,
        basis,
        pivots: simplex.pivots(),
    })
}
