//! Where a bound begins.
use crate::kernel::Kernel;
use fixed_point::{NONE, ONE, numbered, put, put_last};
use row_chains::Chains;
use row_kit::Program;
use simplex_state::{Columns, State, Variables};
use std::alloc::{AllocError, Global};

/// Where a bound stands: the rows that bind it, the variables of slots that lie between their ends, those that stand at their
/// bounds, and the weights. It has room for those of each bound of its program.
#[derive(Drop)]
pub struct Basis {
    rows: Vec<u32>,
    variables: Vec<u32>,
    high: Vec<u32>,
    weights: Vec<u8>,
}

// A weight is kept only where none is this or more: 2 to the power 20 over 1.
const MOST_WEIGHT: u8 = 160;

impl Basis {
    /// The basis in which no row binds.
    pub fn new(alloc: Global, program: &Program) -> Result<Basis, AllocError> {
        let room = program.root.len().saturating_mul(2);
        let count = room.saturating_add(program.rows.len());
        Ok(Basis {
            rows: Vec::with_capacity(alloc, room)?,
            variables: Vec::with_capacity(alloc, room)?,
            high: Vec::with_capacity(alloc, room)?,
            weights: Vec::with_capacity(alloc, count)?,
        })
    }

    /// Makes it the basis in which no row binds.
    pub fn clear(&mut self) {
        self.rows.clear();
        self.variables.clear();
        self.high.clear();
        self.weights.clear();
    }

    /// Makes it a copy of another.
    pub fn copy_from(&mut self, other: &Basis) {
        copy_list(&mut self.rows, other.rows.as_slice());
        copy_list(&mut self.variables, other.variables.as_slice());
        copy_list(&mut self.high, other.high.as_slice());
        copy_list(&mut self.weights, other.weights.as_slice());
    }

    /// Whether no row binds.
    pub fn is_empty(&self) -> bool {
        self.rows.is_empty() && self.variables.is_empty()
    }
}

// Makes a list a copy of another, as far as there is room.
fn copy_list<T: Copy>(list: &mut Vec<T>, other: &[T]) {
    list.clear();
    for item in other {
        put_last(list, *item);
    }
}

/// Notes where a bound stands.
pub fn note(
    chains: &Chains,
    kernel: &Kernel,
    columns: &Columns,
    own: &Variables,
    basis: &mut Basis,
) {
    basis.clear();
    for row in &kernel.rows {
        if own.is_at_end(own.of_row(*row)) && *row < chains.count() {
            put_last(&mut basis.rows, chains.row_at(*row));
        }
    }
    note_columns(columns, own, basis);
    for weight in &own.weights {
        put_last(&mut basis.weights, packed(*weight));
    }
}

// Notes the variables of slots that lie between their ends, and those that stand at their bounds.
fn note_columns(columns: &Columns, own: &Variables, basis: &mut Basis) {
    for variable in &columns.listed {
        match own.state(*variable) {
            State::Basic => {
                put_last(&mut basis.variables, *variable);
            }
            State::High => {
                put_last(&mut basis.high, *variable);
            }
            _ => {}
        }
    }
}

/// Brings variables to where a bound stood. Where a slot has lost the variable of its least value, that of its greatest comes in its
/// place.
pub fn take(chains: &Chains, own: &mut Variables, limits: &[i64], basis: &Basis) {
    for row in &basis.rows {
        let row = chains.place_of(*row);
        if row != NONE && fixed_point::at(limits, row) < fixed_point::TOP {
            own.set_state(own.of_row(row), State::Low);
        }
    }
    for variable in &basis.high {
        if own.is_at_end(*variable) {
            own.set_state(*variable, State::High);
        }
    }
    for variable in &basis.variables {
        let variable = if own.is_at_end(*variable) {
            *variable
        } else {
            *variable | 1
        };
        if own.is_at_end(variable) {
            own.set_state(variable, State::Basic);
        }
    }
    take_weights(own, basis.weights.as_slice());
}

// Takes weights over, unless there are none or one of them is too great.
fn take_weights(own: &mut Variables, weights: &[u8]) {
    own.forget_weights();
    if are_small(weights) {
        for place in 0..weights.len() {
            put(
                own.weights.as_mut_slice(),
                numbered(place),
                unpacked(weights[place]),
            );
        }
    }
}

// Whether no weight is too great.
fn are_small(weights: &[u8]) -> bool {
    for weight in weights {
        if *weight >= MOST_WEIGHT {
            return false;
        }
    }
    true
}

// About eight times the power of two of a weight over 1.
fn packed(weight: i64) -> u8 {
    let weight = weight.max(ONE).unsigned_abs();
    let power = weight.ilog2();
    if power >= 60 || power < 3 {
        return 255;
    }
    let eighths = (weight >> (power - 3)) & 7;
    let whole = power.saturating_sub(30);
    (whole * 8 + eighths as u32).min(255) as u8
}

// The weight of such a number.
fn unpacked(packed: u8) -> i64 {
    let power = u32::from(packed / 8).min(30);
    let eighths = i64::from(packed % 8 + 8);
    eighths << (power + 27)
}
