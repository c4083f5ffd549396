//! Factors for all rows, and those that are not 0.
ghost use Rattle.std.specs.Prelude.{◌≡◌, ℕ, ◌≤◌, ◌<◌, ◌^◌, length, drop, true, IfOk};
ghost use Rattle.dual_bound.specs.Total.{are_fit};
ghost use Rattle.dual_climb.specs.laws.Sums.{HaveSameSums, IsFull, factor_first};

use dual_bound::Mult;
use row_kit::List;
use std::alloc::{AllocError, Global};

// A factor for each row: its own, or 0 where it has none.
pub fn spread(alloc: Global, rows: usize, mults: &[Mult]) -> Result<Vec<Mult>, AllocError>
    requires fit { are_fit rows 0 mults.now ≡ true }
    requires few { rows < 2 ^ 32 }
    ensures full { IfOk result (λ all. IsFull rows all.items) }
    ensures same { IfOk result (λ all. HaveSameSums all.items mults.now) }
{
    let mut all = Vec::new(alloc);
    let mut place = 0;
    for number in 0..rows {
        let factor = factor_of(mults, place, number);
        all.push(Mult {
            row: number as u32,
            factor,
        })?;
        if factor != 0 {
            place += 1;
        }
    }
    Ok(all)
}

// The factor at a place where it is that of a row, and else 0.
fn factor_of(mults: &[Mult], place: usize, row: usize) -> u64
    ensures { result ≡ factor_first row (drop place mults.now) }
{
    if place < mults.len() && mults[place].row as usize == row {
        mults[place].factor
    } else {
        0
    }
}

// The factors that are not 0.
pub fn gathered(alloc: Global, all: &[Mult]) -> Result<List<Mult>, AllocError>
    requires { IsFull (length all.now) all.now }
    ensures fit { IfOk result (λ list. are_fit (length all.now) 0 list ≡ true) }
    ensures few { IfOk result (λ list. length list ≤ length all.now) }
    ensures same { IfOk result (λ list. HaveSameSums list all.now) }
{
    let mut list = List::new(alloc);
    for mult in all {
        if mult.factor != 0 {
            list.push(*mult)?;
        }
    }
    Ok(list)
}
