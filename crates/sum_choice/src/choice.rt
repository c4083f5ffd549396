//! The sums that a search splits on.
ghost use Rattle.std.specs.Prelude.{◌≡◌, ◌+◌, ◌*◌, ◌≤◌, ◌<◌, length, IfOk};
ghost use Rattle.std.specs.List.{All};
ghost use Rattle.sum_slots.specs.Shown.{IsShown};
ghost use Rattle.sum_slots.specs.Sum.{IsDeclared};

use crate::admitting::{admitted, room_of};
use crate::runs::offer_runs;
use crate::stocks::offer_stocks;
use row_kit::{Domain, List, Program};
use std::alloc::{AllocError, Global};
use sum_slots::Sum;

/// The sums that a search of the program is to split on: how often each run starts, in two halves where that may be more than
/// 255 times, and the stocks of all states at all times; where there is no room for all, the stock of each state at its last time,
/// and of the others those with the most entries. Each is declared over the program and shown by these domains. There is room for
/// their slots, of which the program may have `most` with them, and for their rows; none are chosen where there are too many rows
/// already. A stock is a row without fixed parts, divided by what divides all its parts. It takes memory for the sums, and costs the
/// square of the slots and for each stock all rows.
pub fn choose_sums(
    alloc: Global,
    program: &Program,
    ranges: &[Domain],
    most: usize,
) -> Result<List<Sum>, AllocError>
    requires ranges { length ranges.now ≡ length program.now.root }
    requires few_slots { length program.now.root ≤ most }
    ensures declared { IfOk result (λ sums. All (IsDeclared (length program.now.root)) sums) }
    ensures shown { IfOk result (λ sums. All (IsShown program.now ranges.now) sums) }
    ensures few { IfOk result (λ sums. length program.now.root + length sums ≤ most) }
    ensures rows { IfOk result (λ sums. 0 < length sums
        → length program.now.rows + 2 * length sums ≤ 45904) }
{
    let mut offered = Vec::new(alloc);
    offer_runs(alloc, program, ranges, &mut offered)?;
    let room = room_of(program, most).saturating_sub(offered.len());
    offer_stocks(alloc, program, ranges, room, &mut offered)?;
    admitted(alloc, program, ranges, most, offered)
}
