//! The first declared sum that is not shown.
ghost use Rattle.std.specs.Prelude.{◌≡◌, length, MatchOption};
ghost use Rattle.std.specs.List.{All};
ghost use Rattle.sum_slots.specs.Shown.{IsShown};
ghost use Rattle.sum_slots.specs.Sum.{IsDeclared};
ghost use Rattle.valid_log.specs.Heads.{IsUnshown};

use row_kit::{Domain, Program};
use sum_slots::{Sum, is_shown};

/// The line of the first sum that is not shown over a program, of sums that begin on these lines, if there is one. It takes no
/// memory, and costs the terms of the sums.
pub fn first_unshown(
    program: &Program,
    ranges: &[Domain],
    sums: &[Sum],
    lines: &[u64],
) -> Option<u64>
    requires same_slots { length ranges.now ≡ length program.now.root }
    requires declared { All (IsDeclared (length program.now.root)) sums.now }
    requires lines { length lines.now ≡ length sums.now }
    ensures { MatchOption result (All (IsShown program.now ranges.now) sums.now)
        (IsUnshown program.now ranges.now sums.now lines.now) }
{
    let mut place = 0;
    for sum in sums {
        if !is_shown(program, ranges, sum) {
            return Some(lines[place]);
        }
        place += 1;
    }
    None
}
