//! Where the bounds of open ends begin.
use dual_simplex::Basis;
use row_kit::Program;
use std::alloc::{AllocError, Global};

/// Where bounds have ended at open ends, for those that stand near to them in the tree: of a part of all ends, in their order, at
/// that which was looked at last.
#[derive(Drop)]
pub struct Starts {
    ends: u32,
    bases: Vec<Basis>,
}

// The parts of the ends.
const PARTS: u32 = 256;

impl Starts {
    /// No bound has ended; so many ends are open.
    pub fn new(alloc: Global, program: &Program, ends: u32) -> Result<Starts, AllocError> {
        let mut bases = Vec::new(alloc);
        for _ in 0..ends.min(PARTS) {
            bases.push(Basis::new(alloc, program)?)?;
        }
        Ok(Starts { ends, bases })
    }

    // The part of an end; none where there is no such end.
    fn part_of(&self, number: u32) -> Option<usize> {
        if number >= self.ends {
            return None;
        }
        let parts = self.bases.len() as u64;
        Some((u64::from(number).saturating_mul(parts) / u64::from(self.ends)) as usize)
    }

    /// Makes a basis the one from which the bound of an end begins; as it was where that is no end, or none is known.
    pub fn begin(&self, number: u32, basis: &mut Basis) {
        let Some(part) = self.part_of(number) else {
            return;
        };
        for away in 0..self.bases.len() {
            if let Some(near) = self.known(part.checked_sub(away)) {
                basis.copy_from(near);
                return;
            }
            if let Some(near) = self.known(part.checked_add(away)) {
                basis.copy_from(near);
                return;
            }
        }
    }

    // The basis of a part, where one is known.
    fn known(&self, part: Option<usize>) -> Option<&Basis> {
        match self.bases.get(part?) {
            Some(basis) if !basis.is_empty() => Some(basis),
            _ => None,
        }
    }

    /// Notes where the bound of an end has ended.
    pub fn note(&mut self, number: u32, basis: &Basis) {
        if let Some(part) = self.part_of(number) {
            if part < self.bases.len() {
                self.bases[part].copy_from(basis);
            }
        }
    }
}
