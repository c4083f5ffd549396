//! The bound of an area, and what its slots come to.
use dual_simplex::{Amount, Basis, Outcome, Workspace};
use row_activity::numbered;
use row_kit::{Area, Program};
use std::alloc::{AllocError, Global};

/// Bounds areas, each from a basis that is kept: the start's, or one of those of the splits of a small search.
#[derive(Drop)]
pub struct Bounds {
    pub start: Basis,
    pub bases: Vec<Basis>,
    pub amounts: Vec<Amount>,
    pub workspace: Workspace,
}

/// The most splits on the way to a box of a small search.
pub const MOST_DEPTH: usize = 48;

// The most steps of a bound.
const MOST_STEPS: u32 = 600;

/// A slot that is not started.
pub const NONE: Amount = Amount {
    started: 0,
    quanta: 0,
};

impl Bounds {
    /// Bounds of a program. None has been made.
    pub fn new(alloc: Global, program: &Program) -> Result<Bounds, AllocError> {
        let slots = program.root.len();
        let start = Basis::new(alloc, program)?;
        let bases = listed_bases(alloc, program)?;
        let amounts = vec![in alloc; NONE; slots]?;
        let workspace = Workspace::new(alloc, program, numbered(slots), numbered(slots))?;
        Ok(Bounds {
            start,
            bases,
            amounts,
            workspace,
        })
    }

    /// What a slot comes to by the last bound.
    pub fn amount(&self, slot: u32) -> Amount {
        match self.amounts.get(slot as usize) {
            None => NONE,
            Some(amount) => *amount,
        }
    }

    /// Bounds an area from the basis at a place, or from the start's, down to an aim. False says that it has no better plan.
    pub fn bound(
        &mut self,
        program: &Program,
        area: &Area,
        from: Option<usize>,
        aim: Option<i128>,
    ) -> bool {
        let outcome = match from {
            Some(place) if place < self.bases.len() => {
                let start = &self.bases[place];
                self.workspace.bound(program, area, start, aim, MOST_STEPS)
            }
            _ => self
                .workspace
                .bound(program, area, &self.start, aim, MOST_STEPS),
        };
        outcome != Outcome::NoPoint && outcome != Outcome::Reached
    }

    /// Notes what the slots come to.
    pub fn note_amounts(&mut self) {
        for slot in 0..self.amounts.len() {
            self.amounts[slot] = self.workspace.amount(numbered(slot));
        }
    }

    /// Keeps the basis of the last bound as the start's.
    pub fn save_start(&mut self) {
        self.workspace.save(&mut self.start);
    }
}

// Bases in which no row binds, one for each split of a small search.
fn listed_bases(alloc: Global, program: &Program) -> Result<Vec<Basis>, AllocError> {
    let mut bases = Vec::with_capacity(alloc, MOST_DEPTH)?;
    for _ in 0..MOST_DEPTH {
        bases.push(Basis::new(alloc, program)?)?;
    }
    Ok(bases)
}
