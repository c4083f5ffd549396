//! Which of the offered sums are declared.
ghost use Rattle.std.specs.Prelude.{◌≡◌, ◌+◌, ◌*◌, ◌≤◌, ◌<◌, length, IfOk, IsTrue};
ghost use Rattle.std.specs.List.{All};
ghost use Rattle.sum_slots.specs.Shown.{IsShown};
ghost use Rattle.sum_slots.specs.Sum.{IsDeclared};

use row_kit::{Domain, List, Program};
use std::alloc::{AllocError, Global};
use sum_slots::{Sum, is_declared, is_shown};

// The most rows of a program with sums.
const MOST_ROWS: usize = 45_904;

// Those of the offered sums that are declared and shown, as far as there is room for their slots, of which a program may have so many,
// and for their rows.
pub fn admitted(
    alloc: Global,
    program: &Program,
    ranges: &[Domain],
    most: usize,
    offered: Vec<Sum>,
) -> Result<List<Sum>, AllocError>
    requires ranges { length ranges.now ≡ length program.now.root }
    requires few_slots { length program.now.root ≤ most }
    ensures declared { IfOk result (λ sums. All (IsDeclared (length program.now.root)) sums) }
    ensures shown { IfOk result (λ sums. All (IsShown program.now ranges.now) sums) }
    ensures few { IfOk result (λ sums. length program.now.root + length sums ≤ most) }
    ensures rows { IfOk result (λ sums. 0 < length sums
        → length program.now.rows + 2 * length sums ≤ 45904) }
{
    let room = room_of(program, most);
    let mut sums = List::new(alloc);
    for sum in offered {
        if sums.len() < room && is_admitted(program, ranges, &sum) {
            sums.push(sum)?;
        }
    }
    Ok(sums)
}

// Whether a sum is declared and shown.
fn is_admitted(program: &Program, ranges: &[Domain], sum: &Sum) -> bool
    requires { length ranges.now ≡ length program.now.root }
    ensures declared { IsTrue result → IsDeclared (length program.now.root) sum.now }
    ensures shown { IsTrue result → IsShown program.now ranges.now sum.now }
{
    is_declared(sum, program.root.len()) && is_shown(program, ranges, sum)
}

// How many sums a program has room for that may have so many slots: none where it has too many rows already.
pub fn room_of(program: &Program, most: usize) -> usize
    requires few_slots { length program.now.root ≤ most }
    ensures slots { length program.now.root + result ≤ most }
    ensures rows { 0 < result → length program.now.rows + 2 * result ≤ 45904 }
{
    let slots = most - program.root.len();
    let rows = MOST_ROWS.saturating_sub(program.rows.len()) / 2;
    if slots <= rows { slots } else { rows }
}
