//! The program with a slot for each sum.
ghost use Rattle.std.specs.Prelude.{◌≡◌, ◌+◌, ◌*◌, ◌≤◌, ◌++◌, length, map, IfOk};
ghost use Rattle.std.specs.List.{All};
ghost use Rattle.sum_slots.specs.Larger.{IsWithSums, sum_domain};
ghost use Rattle.sum_slots.specs.Law.{IsSameWithSums};
ghost use Rattle.sum_slots.specs.Shown.{AreRanges, IsShown};
ghost use Rattle.sum_slots.specs.Sum.{IsDeclared};

use crate::rows::add_rows;
use crate::shown::sum_domain;
use crate::sum::Sum;
use crate::tags::{add_tags, free_lane};
use row_kit::{Domain, List, Program};
use std::alloc::{AllocError, Global};

/// The program with a slot and two rows for each sum, which is shown by domains in which the program's points lie: its lawful points are those of the given program, each followed by the
/// values of its sums, and each is worth the same. The slots stand in the least lane that no slot of the given program has, so no
/// changeover is charged to them. It takes memory for what it adds and for the root, and costs the slots, the terms of the sums,
/// and the tags once for each lane that they have.
pub fn with_sums(
    alloc: Global,
    program: Program,
    ranges: &[Domain],
    sums: &[Sum],
) -> Result<Program, AllocError>
    requires ranges { AreRanges program ranges.now }
    requires slots { length program.root + length sums.now ≤ 4096 }
    requires rows { length program.rows + 2 * length sums.now ≤ 400000 }
    requires declared { All (IsDeclared (length program.root)) sums.now }
    requires shown { All (IsShown program ranges.now) sums.now }
    ensures made { IfOk result (IsWithSums program ranges.now sums.now) }
    ensures means { IfOk result (IsSameWithSums program sums.now) }
{
    let slots = program.root.len() as u32;
    let lane = free_lane(program.tags.as_slice());
    let root = larger_root(alloc, &program, ranges, sums)?;
    let mut rows = program.rows;
    add_rows(alloc, &mut rows, slots, sums)?;
    let mut tags = program.tags;
    add_tags(&mut tags, lane, sums)?;
    Ok(Program {
        rows,
        profit: program.profit,
        base: program.base,
        root,
        tags,
        changes: program.changes,
    })
}

// The root followed by the domains of the sums' slots.
fn larger_root(
    alloc: Global,
    program: &Program,
    ranges: &[Domain],
    sums: &[Sum],
) -> Result<List<Domain>, AllocError>
    requires same_slots { length ranges.now ≡ length program.now.root }
    requires declared { All (IsDeclared (length program.now.root)) sums.now }
    requires shown { All (IsShown program.now ranges.now) sums.now }
    ensures { IfOk result (λ root. root
        ≡ program.now.root ++ map (sum_domain program.now ranges.now) sums.now) }
{
    let mut root = List::from_slice(alloc, program.root.as_slice())?;
    for sum in sums {
        root.push(sum_domain(program, ranges, sum))?;
    }
    Ok(root)
}
