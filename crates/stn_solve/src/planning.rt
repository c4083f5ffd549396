//! Planning over the rows of a part with a head, beginning with a point.
ghost use Rattle.std.specs.Prelude.{◌≡◌, ◌≤◌, true, None, Err, IsTrue, IfOk, OnErr};
ghost use Rattle.stn_edge.specs.Count.{Rose};
ghost use Rattle.store_frames.specs.Frames.{WritesOne};
ghost use Rattle.stn_model.specs.Points.{depth_limit};
ghost use Rattle.plan_told.specs.Proofs.{bytes_in};
ghost use Rattle.logged_search.specs.Logging.{LeavesBegun};
ghost use Rattle.stn_solve.specs.laws.Telling.{CanPlanOver, IsToldOver};

use crate::beginning::Beginning;
use crate::telling::{told_given, told_larger};
use box_advice::Advisers;
use head_choice::Headed;
use logged_search::{Logged, SearchRequest, SplitRules, search_logged, search_only};
use plan_told::Told;
use row_kit::Found;
use std::alloc::{AllocError, Global};
use stn_edge::{Shelf, Stop};
use stn_model::{Outcome, Plant, depth_limit};

// Plans over the rows of a head, and drops the proof.
pub fn plan_over<A: Advisers>(
    alloc: Global,
    plant: &Plant,
    headed: &Headed,
    least: Option<Found>,
    budget: u32,
    point: &[u8],
) -> Result<Outcome, AllocError>
    requires { CanPlanOver plant.now headed.now least budget }
    ensures { IfOk result (IsToldOver plant.now headed.now least budget point.now None) }
{
    let rules = SplitRules {
        given: headed.given,
        floors: true,
        most: depth_limit(plant),
    };
    let ended = search_only::<A>(alloc, &headed.rows, rules, budget, point)?;
    let Told { outcome, .. } = told_given(alloc, plant, headed.given, least, ended)?;
    Ok(outcome)
}

// Plans over the rows of a head, and writes the log of the proof behind it.
pub fn solve_over<A: Advisers, F: Shelf>(
    alloc: Global,
    plant: &Plant,
    begun: Beginning,
    budget: u32,
    files: &mut F,
    name: &str,
) -> Result<Outcome, Stop>
    requires can { CanPlanOver plant.now begun.headed begun.least budget }
    requires allowed { IsTrue (F.may_write files.old name.now) }
    ensures told { IfOk result (IsToldOver plant.now begun.headed begun.least budget begun.point
        (bytes_in name.now (F.files files.new))) }
    ensures err { OnErr result (LeavesBegun (depth_limit plant.now) begun.headed.rows true
        begun.headed.head.items name.now (F.files files.old) (F.files files.new)) }
    ensures frame { WritesOne F.Shelf name.now files.old files.new }
    ensures failed { result ≡ Err Stop.Failed
        → Rose (F.write_faults files.old) (F.write_faults files.new) }
{
    let Beginning {
        headed,
        point,
        least,
    } = begun;
    let rules = SplitRules {
        given: headed.given,
        floors: true,
        most: depth_limit(plant),
    };
    let start = point.as_slice();
    let sought = SearchRequest {
        rows: &headed.rows,
        rules,
        budget,
        start,
    };
    let head = headed.head.as_slice();
    let Logged { ended, writer } = search_logged::<A, _>(alloc, &sought, head, files, name)?;
    let sums = headed.sums.as_slice();
    let told = told_larger(alloc, plant, sums, headed.given, least, ended)?;
    writer.finish(files, &told.claim)?;
    Ok(told.outcome)
}
