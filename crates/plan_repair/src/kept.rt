//! The best plan that is known.
use row_activity::copy;
use row_kit::{Program, is_lawful, value, worth};
use std::alloc::{AllocError, Global};

/// The best plan that is known, with its worth.
#[derive(Drop)]
pub struct Kept {
    pub values: Vec<u8>,
    pub worth: Option<i128>,
}

impl Kept {
    /// None is known.
    pub fn new(alloc: Global, program: &Program) -> Result<Kept, AllocError> {
        Ok(Kept {
            values: vec![in alloc; 0u8; program.root.len()]?,
            worth: None,
        })
    }

    /// Takes a point where it is lawful and worth more; whether it does.
    pub fn take(&mut self, program: &Program, point: &[u8]) -> bool {
        if point.len() != program.root.len() {
            return false;
        }
        if !self.is_below(value(program, point)) || !is_lawful(program, point) {
            return false;
        }
        let money = worth(program, point);
        let better = self.is_below(money);
        if better {
            self.worth = Some(money);
            copy(self.values.as_mut_slice(), point);
        }
        better
    }

    // Whether its worth is below so much money.
    fn is_below(&self, money: i128) -> bool {
        match self.worth {
            None => true,
            Some(own) => own < money,
        }
    }
}
