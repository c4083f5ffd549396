//! Points with the values of sums.
ghost use Rattle.std.specs.Prelude.{◌≡◌, ◌≤◌, length, unsigned_abs, IfOk};
ghost use Rattle.std.specs.List.{All};
ghost use Rattle.sum_slots.specs.Larger.{completed};
ghost use Rattle.sum_slots.specs.Sum.{IsByte, IsDeclared, sum_value};

use crate::counts::entries_sum;
use crate::shown::value_at;
use crate::sum::Sum;
use row_kit::List;
use std::alloc::{AllocError, Global};

/// A point followed by the value of each sum there. At a lawful point of a program over which the sums are shown, each is a
/// byte, as `sums_law` says. It takes memory for the larger point, and costs the terms of the sums.
pub fn complete(alloc: Global, sums: &[Sum], point: &[u8]) -> Result<List<u8>, AllocError>
    requires few { length point.now ≤ 4096 }
    requires declared { All (IsDeclared (length point.now)) sums.now }
    requires bytes { All (λ sum. IsByte (sum_value sum point.now)) sums.now }
    ensures { IfOk result (λ whole. whole ≡ completed sums.now point.now) }
{
    let mut whole = List::from_slice(alloc, point)?;
    for sum in sums {
        whole.push(byte_at(sum, point))?;
    }
    Ok(whole)
}

// The value of a sum at a point where it is a byte.
fn byte_at(sum: &Sum, point: &[u8]) -> u8
    requires few { length point.now ≤ 4096 }
    requires declared { IsDeclared (length point.now) sum.now }
    requires byte { IsByte (sum_value sum.now point.now) }
    ensures { result ≡ unsigned_abs (sum_value sum.now point.now) }
{
    value_at(sum, entries_sum(sum.terms.as_slice(), point)) as u8
}
